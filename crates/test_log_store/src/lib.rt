//! Worked examples of a store whose log lies in the heap: its answers, and its bytes on a disk in memory. There is nothing here but tests.
#![tactic(auto)]

#[cfg(test)]
mod archives;
#[cfg(test)]
mod dumped;
#[cfg(test)]
mod groups;
#[cfg(test)]
mod images;
#[cfg(test)]
mod layouts;
#[cfg(test)]
mod on_disk;
#[cfg(test)]
mod queries;
#[cfg(test)]
mod reclaim_stops;
#[cfg(test)]
mod reclaimed_names;
#[cfg(test)]
mod reclaims;
#[cfg(test)]
mod refused;
#[cfg(test)]
mod relation_floors;
#[cfg(test)]
mod reopened;
#[cfg(test)]
mod shares;
#[cfg(test)]
mod stops;
