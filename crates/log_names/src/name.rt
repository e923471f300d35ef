//! A name in a roll, as its bytes have it.
ghost use Rattle.std.specs.Prelude.{◌≡◌};
ghost use Rattle.log_names.specs.Standing.{name_in};
ghost use Rattle.log_names.specs.Standing as standing;

use byteorder::{ByteOrder, LittleEndian};

/// How many bytes a name has.
pub(crate) const NAME_LEN: usize = 16;

pub(crate) const NAME_BYTES: u64 = NAME_LEN as u64;

/// A name of a commit, as it is in the archive. The time is in microseconds since 1970.
#[derive(Clone, Copy, Debug, PartialEq, Eq)]
pub(crate) struct Name {
    pub label: u64,
    pub time: u64,
}

/// The name that these bytes are read as.
#[tactic(auto, unfolding(crate::specs::Standing::name_in))]
pub(crate) fn decode_name(bytes: &[u8; NAME_LEN]) -> Name
    ensures { result ≡ name_in bytes.now }
{
    Name {
        label: LittleEndian::read_u64(bytes),
        time: LittleEndian::read_u64(&bytes[8..]),
    }
}

/// Whether a commit may have this time, where the rolls go up to the other.
pub(crate) fn is_in_time(name: &Name, upto: u64) -> bool
    ensures { result ≡ standing.is_in_time upto name.now }
{
    0 < name.time && name.time <= upto
}

/// Whether the name may follow the one that was read just before it on the walk, if one was: by its label, and then by
/// its time.
pub(crate) fn may_follow(last: &Option<Name>, name: &Name) -> bool
    ensures { result ≡ standing.may_follow last.now name.now }
{
    match last {
        Some(before) => {
            before.label < name.label || (before.label == name.label && before.time < name.time)
        }
        None => true,
    }
}
