//! A disk of three areas, as a store sees it: what a read gives, and what a stop may leave.
#![tactic(auto)]

mod area;
mod device;
mod fault_disk;
pub mod laws;
mod mem_area;
mod mem_disk;
mod torn;

pub use area::{Area, DeviceFault};
pub use device::Disk;
pub use fault_disk::{Fault, FaultDisk};
pub use mem_disk::MemDisk;
