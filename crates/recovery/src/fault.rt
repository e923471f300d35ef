//! Why a store is not formatted or not opened.

use disk::{Area, DeviceFault};
use status::LogFault;
use std::alloc::{AllocError, AllocFailed};

/// Why an image does not open. Of several reasons the first in the order of the checks is told.
#[derive(Clone, Copy, Debug, PartialEq, Eq)]
pub enum OpenFault {
    /// The status area has no header, or no room for the slots that it names.
    NotAStore,
    /// Of the status area the place is the slot's number, of the heap the first extent of the chain, and of the archive the byte at which the run starts.
    Damaged(Area, u64),
    /// The disk refused a call.
    Device,
    NoMemory,
}

/// Why a store is not formatted. Of several reasons the first is told.
#[derive(Clone, Copy, Debug, PartialEq, Eq)]
pub enum FormatFault {
    /// A store has 16 to 65,536 slots.
    BadSlots,
    /// The status area has a header already.
    Occupied,
    /// The disk refused a call. The status area may be changed in part.
    Device,
    NoMemory,
}

impl From<AllocError> for OpenFault {
    ghost use Rattle.std.specs.Prelude.{◌≡◌};
    ghost use Rattle.recovery.specs.declared.fault.OpenFault.TheVariants.{NoMemory, Device};

    ghost from_gives = { λ e r. r ≡ NoMemory };

    fn from(_: AllocError) -> Self {
        OpenFault::NoMemory
    }
}

impl<T: Drop> From<AllocFailed<T>> for OpenFault {
    ghost use Rattle.std.specs.Prelude.{◌≡◌};
    ghost use Rattle.recovery.specs.declared.fault.OpenFault.TheVariants.{NoMemory, Device};

    ghost from_gives = { λ e r. r ≡ NoMemory };

    fn from(_: AllocFailed<T>) -> Self {
        OpenFault::NoMemory
    }
}

impl From<DeviceFault> for OpenFault {
    ghost use Rattle.std.specs.Prelude.{◌≡◌};
    ghost use Rattle.recovery.specs.declared.fault.OpenFault.TheVariants.{NoMemory, Device};

    ghost from_gives = { λ e r. r ≡ Device };

    fn from(_: DeviceFault) -> Self {
        OpenFault::Device
    }
}

impl From<AllocError> for FormatFault {
    ghost use Rattle.std.specs.Prelude.{◌≡◌};
    ghost use Rattle.recovery.specs.declared.fault.FormatFault.TheVariants as faults;

    ghost from_gives = { λ e r. r ≡ faults.NoMemory };

    fn from(_: AllocError) -> Self {
        FormatFault::NoMemory
    }
}

impl From<DeviceFault> for FormatFault {
    ghost use Rattle.std.specs.Prelude.{◌≡◌};
    ghost use Rattle.recovery.specs.declared.fault.FormatFault.TheVariants as faults;

    ghost from_gives = { λ e r. r ≡ faults.Device };

    fn from(_: DeviceFault) -> Self {
        FormatFault::Device
    }
}

impl From<LogFault> for OpenFault {
    ghost use Rattle.std.specs.Prelude.{◌≡◌};
    ghost use Rattle.recovery.specs.Refusals.{open_fault};

    ghost from_gives = { λ e r. r ≡ open_fault e };

    fn from(fault: LogFault) -> Self {
        match fault {
            LogFault::NotAStore => OpenFault::NotAStore,
            LogFault::Damaged(number) => OpenFault::Damaged(Area::Status, number as u64),
            LogFault::Device => OpenFault::Device,
            LogFault::NoMemory => OpenFault::NoMemory,
        }
    }
}
