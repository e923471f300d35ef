//! What a host is answered.
ghost use Rattle.std.specs.Prelude.{◌≡◌};
ghost use Rattle.c_engine.specs.Codes.{code_number};

/// How a call ended. A host knows the numbers.
#[derive(Clone, Copy, Debug, PartialEq, Eq)]
pub enum Code {
    Ok,
    /// There is no value; or no device call is due.
    None,
    /// The commit waits.
    Waiting,
    /// The transaction wrote nothing, and is over.
    ReadOnly,
    /// The device failed before the commit was published.
    InDoubt,
    /// The host has not made the last device call.
    Pending,
    /// The handle has no store.
    Closed,
    /// No such transaction, ticket or view.
    Unknown,
    /// The room that was given is too small; what is needed is told.
    Small,
    NoMemory,
    /// A device call was refused.
    Failed,
    Stranger,
    Conflict,
    HeapFull,
    StatusFull,
    ClockEnd,
    Missing,
    TooManyKeys,
    BadValue,
    BeforeKept,
    NotYet,
    EmptyInterval,
    Damaged,
    NotAStore,
    Busy,
    JobBusy,
    NothingToDo,
    ArchiveFull,
    BadSlots,
    InUse,
    /// The answer needs the archive, and none was lent.
    NeedsArchive,
    /// The store has a floor for each relation, or one for all, and not such a one.
    WrongProfile,
    /// The store has no room for 256 slots more, or its profile has no pieces.
    NotGrowable,
}

impl Code {
    /// The number of this code: 0 and more for an answer, less than 0 for a refusal.
    pub fn number(self) -> i32
        ensures { result ≡ code_number self }
    {
        match self {
            Code::Ok => 0,
            Code::None => 1,
            Code::Waiting => 2,
            Code::ReadOnly => 3,
            Code::InDoubt => 4,
            Code::Pending => -1,
            Code::Closed => -2,
            Code::Unknown => -3,
            Code::Small => -4,
            Code::NoMemory => -5,
            Code::Failed => -6,
            Code::Stranger => -7,
            Code::Conflict => -8,
            Code::HeapFull => -9,
            Code::StatusFull => -10,
            Code::ClockEnd => -11,
            Code::Missing => -12,
            Code::TooManyKeys => -13,
            Code::BadValue => -14,
            Code::BeforeKept => -15,
            Code::NotYet => -16,
            Code::EmptyInterval => -17,
            Code::Damaged => -18,
            Code::NotAStore => -19,
            Code::Busy => -20,
            Code::JobBusy => -21,
            Code::NothingToDo => -22,
            Code::ArchiveFull => -23,
            Code::BadSlots => -24,
            Code::InUse => -25,
            Code::NeedsArchive => -26,
            Code::WrongProfile => -27,
            Code::NotGrowable => -28,
        }
    }
}

/// Two numbers with a code.
#[repr(C)]
#[derive(Clone, Copy, Debug, PartialEq, Eq, Drop)]
pub struct Info {
    pub a: u64,
    pub b: u64,
}

/// A device call that the host is to make.
#[repr(C)]
#[derive(Clone, Copy, Debug, PartialEq, Eq, Drop)]
pub struct Call {
    /// 0 for none, 1 for a write, 2 for a sync.
    pub kind: u32,
    /// 0 for the status area, 1 for the heap, 2 for the archive.
    pub area: u32,
    /// The place of a write, in bytes.
    pub at: u64,
    /// How many bytes a write has.
    pub len: u64,
}

/// A row of an interval or a scan, with the place of its value among the bytes that are given out.
#[repr(C)]
#[derive(Clone, Copy, Debug, PartialEq, Eq, Drop)]
pub struct Row {
    pub record: u64,
    /// From this time on the record had the value, in microseconds since 1970; 0 in a scan of one moment.
    pub from: u64,
    /// Up to this time.
    pub upto: u64,
    /// The place of the value, and its length in bytes.
    pub at: u64,
    pub len: u64,
}
