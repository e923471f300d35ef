//! Worked examples of the whole program: scripts with their answers, stores as bytes and as files,
//! stops, and refusals of the disk, of the input and of the output. There is nothing here but tests.
#![tactic(auto)]

#[cfg(test)]
mod advice;
#[cfg(test)]
mod again;
#[cfg(test)]
mod archived;
#[cfg(test)]
mod archives_beside;
#[cfg(test)]
mod archiving;
#[cfg(test)]
mod bad_input;
#[cfg(test)]
mod bytes;
#[cfg(test)]
mod calls;
#[cfg(test)]
mod deeds;
#[cfg(test)]
mod dumps;
#[cfg(test)]
mod endless;
#[cfg(test)]
mod endless_archives;
#[cfg(test)]
mod endless_reclaim_stops;
#[cfg(test)]
mod endless_reclaims;
#[cfg(test)]
mod endless_times;
#[cfg(test)]
mod examples;
#[cfg(test)]
mod files;
#[cfg(test)]
mod floors_beside;
#[cfg(test)]
mod floors_of_relations;
#[cfg(test)]
mod fronts;
#[cfg(test)]
mod groups;
#[cfg(test)]
mod growths;
#[cfg(test)]
mod intervals;
#[cfg(test)]
mod limits;
#[cfg(test)]
mod machine;
#[cfg(test)]
mod names;
#[cfg(test)]
mod one_shots;
#[cfg(test)]
mod raised_floors;
#[cfg(test)]
mod records;
#[cfg(test)]
mod refusals;
#[cfg(test)]
mod refused_archives;
#[cfg(test)]
mod refused_calls;
#[cfg(test)]
mod refused_example;
#[cfg(test)]
mod refused_floors;
#[cfg(test)]
mod second_stops;
#[cfg(test)]
mod sessions;
#[cfg(test)]
mod several_commits;
#[cfg(test)]
mod steps;
#[cfg(test)]
mod stopped;
#[cfg(test)]
mod stops;
#[cfg(test)]
mod streams;
#[cfg(test)]
mod sweeps;
#[cfg(test)]
mod text;
#[cfg(test)]
mod vacuums;
#[cfg(test)]
mod write_sets;
