//! A store for a host that holds a handle and numbers, and makes the store's device calls.
#![tactic(auto)]

mod asking;
mod code;
mod codes;
mod device_call;
mod engine;
mod formats;
mod handle;
mod jobs;
mod last_write;
mod laws;
mod parts;
mod places;
mod queries;
mod relay_disk;
mod rows;
mod shadow;
mod slice_disk;
mod step;
mod transacting;
mod values;

pub use code::{Call, Code, Info, Row};
pub use device_call::DeviceCall;
pub use engine::{Engine, EngineState};
pub use formats::{format, open};
pub use handle::Handle;
pub use last_write::LastWrite;
pub use laws::{calls_are_the_steps, numbers_know_their_store};
pub use relay_disk::RelayDisk;
pub use slice_disk::SliceDisk;
pub use step::Step;
