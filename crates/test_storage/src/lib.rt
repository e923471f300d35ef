//! Examples of what lies on disk: values, slots and headers, records and extents, runs, disks and
//! whole images, byte for byte, changed and cut. There is nothing here but tests.
#![tactic(auto)]

#[cfg(test)]
mod archived_runs;
#[cfg(test)]
mod area_bytes;
#[cfg(test)]
mod calling_page;
#[cfg(test)]
mod disks;
#[cfg(test)]
mod entry_bytes;
#[cfg(test)]
mod extent_numbers;
#[cfg(test)]
mod floored_images;
#[cfg(test)]
mod heap_chains;
#[cfg(test)]
mod heap_records;
#[cfg(test)]
mod images;
#[cfg(test)]
mod linked_extents;
#[cfg(test)]
mod list_walk;
#[cfg(test)]
mod long_runs;
#[cfg(test)]
mod opened_images;
#[cfg(test)]
mod reclaimed_images;
#[cfg(test)]
mod spellings;
#[cfg(test)]
mod status_slots;
#[cfg(test)]
mod two_homes;
#[cfg(test)]
mod version_walks;
#[cfg(test)]
mod worked_bytes;
#[cfg(test)]
mod written_runs;
