//! Examples of the calls of single crates: keys and histories, versions, transactions, times, lists
//! of calls, steps of jobs, lines of scripts, and words of the command line. There is nothing
//! here but tests.
#![tactic(auto)]

#[cfg(test)]
mod answers;
#[cfg(test)]
mod call_lists;
#[cfg(test)]
mod calling_pages;
#[cfg(test)]
mod command_words;
#[cfg(test)]
mod commit_times;
#[cfg(test)]
mod floor_steps;
#[cfg(test)]
mod floors_of_relations;
#[cfg(test)]
mod growth_steps;
#[cfg(test)]
mod held;
#[cfg(test)]
mod histories;
#[cfg(test)]
mod key_versions;
#[cfg(test)]
mod list_answers;
#[cfg(test)]
mod list_calls;
#[cfg(test)]
mod open_transactions;
#[cfg(test)]
mod published;
#[cfg(test)]
mod reclaim_steps;
#[cfg(test)]
mod script_lines;
#[cfg(test)]
mod store_cases;
#[cfg(test)]
mod store_steps;
#[cfg(test)]
mod views;
#[cfg(test)]
mod waiting_commits;
