//! Reading the header.
ghost use Rattle.std.specs.Prelude.{◌≡◌, ◌≤◌, ◌<◌, ◌↔◌, ℕ, length, take, true, IsTrue, IfOk, IfErr, IfSome, IfNone};
ghost use Rattle.disk.specs.Calls.{looked};
ghost use Rattle.status.specs.declared.header.Header.{Header};
ghost use Rattle.status.specs.Header.{HasNumbers};
ghost use Rattle.status.specs.Rules.{is_built};
ghost use Rattle.status.specs.Reading.{read_by, ReadsHeader, IsBuiltFront, IsHeaderOf, AnswersHeader, IsHeaderFault};

use crate::fault::LogFault;
use crate::front::decode_header;
use crate::header::Header;
use crate::sizes::{FRONT_BYTES, FRONT_LEN, SLOT_LEN};
use disk::{Area, DeviceFault, Disk};
use wire::Profile;

const COMMIT: u8 = 1;

const ARCHIVED: u8 = 2;

const RECLAIMED: u8 = 3;

const FLOOR: u8 = 4;

/// Whether slots of a kind are built in a profile. A store of a profile is read once its commits
/// are built; an open slot of a kind that is not is damaged.
pub fn is_built(profile: Profile, kind: u8) -> bool
    ensures { result ≡ is_built profile kind }
{
    let number = profile.number();
    (number == 1 || number == 2 || number == 3)
        && (kind == COMMIT || kind == ARCHIVED || kind == RECLAIMED || kind == FLOOR)
}

// The header at the front of an area of this length.
fn header_of(front: &[u8; FRONT_BYTES], len: u64) -> Option<Header>
    ensures found { IfSome result (IsBuiltFront front.now len) }
    ensures none { IfNone result ((header : Header) → ¬ IsBuiltFront front.now len header) }
{
    let header = decode_header(front)?;
    let fits = FRONT_LEN + SLOT_LEN * header.total() <= len;
    if fits && is_built(header.profile, COMMIT) {
        Some(header)
    } else {
        None
    }
}

fn find_header<D: Disk>(disk: &mut D) -> Result<Option<Header>, DeviceFault>
    ensures found { IsTrue D.tells → IfOk result (IsHeaderOf (D.state disk.old).areas.status.bytes) }
    ensures numbers { IfOk result (λ found. IfSome found (λ header. HasNumbers header)) }
    ensures built { IfOk result (λ found. IfSome found (λ header. IsTrue (is_built header.profile 1))) }
    ensures same { D.state disk.new ≡ looked result (D.state disk.old) }
{
    let len = disk.len(Area::Status)?;
    if len < FRONT_LEN {
        return Ok(None);
    }
    let mut front = [0; FRONT_BYTES];
    disk.read(Area::Status, 0, &mut front)?;
    Ok(header_of(&front, len))
}

/// The header of the status area. It changes nothing.
///
/// # Errors
///
/// `NotAStore` where there is no header of a built profile, or the area is too short for its slots;
/// `Device` where the device refused a call.
pub fn read_header<D: Disk>(disk: &mut D) -> Result<Header, LogFault>
    ensures numbers { IfOk result (λ header. HasNumbers header) }
    ensures built { IfOk result (λ header. IsTrue (is_built header.profile 1)) }
    ensures found { IsTrue D.tells → IfOk result (ReadsHeader (D.state disk.old).areas.status.bytes) }
    ensures only { IsTrue D.tells → (header : Header) → ReadsHeader (D.state disk.old).areas.status.bytes header → AnswersHeader header result }
    ensures fault { IfErr result IsHeaderFault }
    ensures same { D.state disk.new ≡ read_by result (D.state disk.old) }
{
    match find_header(disk) {
        Ok(Some(header)) => Ok(header),
        Ok(None) => Err(LogFault::NotAStore),
        Err(_) => Err(LogFault::Device),
    }
}
