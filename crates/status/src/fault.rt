//! Why a log is not read.
ghost use Rattle.std.specs.Prelude.{◌≡◌};
ghost use Rattle.status.specs.declared.fault.LogFault.TheVariants.{Device, NoMemory};

use disk::DeviceFault;
use std::alloc::{AllocError, AllocFailed};

/// Why no log is read from a status area.
#[derive(Clone, Copy, Debug, PartialEq, Eq)]
pub enum LogFault {
    /// There is no header, or the area is too short for the header's slots.
    NotAStore,
    /// The slot of this number is open, and is none or may not follow those before it.
    Damaged(u32),
    /// The device refused a call.
    Device,
    NoMemory,
}

impl From<DeviceFault> for LogFault {
    ghost from_gives = { λ _ e. e ≡ Device };

    fn from(_: DeviceFault) -> Self {
        LogFault::Device
    }
}

impl From<AllocError> for LogFault {
    ghost from_gives = { λ _ e. e ≡ NoMemory };

    fn from(_: AllocError) -> Self {
        LogFault::NoMemory
    }
}

impl<T: Drop> From<AllocFailed<T>> for LogFault {
    ghost from_gives = { λ _ e. e ≡ NoMemory };

    fn from(_: AllocFailed<T>) -> Self {
        LogFault::NoMemory
    }
}
