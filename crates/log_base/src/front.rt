//! The first chains of a log, which a reclaim replaces. Times are microseconds since 1970.

ghost use Rattle.std.specs.Prelude.{◌≡◌, ◌≤◌, length};
ghost use Rattle.log_base.specs.Bases.{is_later, front_len, mark_of, anchors_of};

use log_entries::AnchorName;
use log_recovery::{LiveChain, LivePart};

// Whether a chain has a commit later than this time.
fn is_later(mark: u64, part: &LivePart) -> bool
    ensures { result ≡ is_later mark part.now }
{
    match part {
        LivePart::Commits(last) => mark < *last,
        LivePart::Archived(_) | LivePart::Floor(_) | LivePart::Base(_) => false,
    }
}

/// How many chains come before the first that has a commit later than this time.
pub fn front_len(chains: &[LiveChain], mark: u64) -> usize
    ensures is { result ≡ front_len mark chains.now }
    ensures within { result ≤ length chains.now }
{
    let mut len = 0;
    let mut rest = chains;
    while let [first, after @ ..] = rest {
        if is_later(mark, &first.part) {
            return len;
        }
        len += 1;
        rest = after;
    }
    len
}

/// The reclaim mark of a log, 0 for none.
pub fn mark_of(chains: &[LiveChain]) -> u64
    ensures { result ≡ mark_of chains.now }
{
    let [first, ..] = chains else {
        return 0;
    };
    match &first.part {
        LivePart::Base(base) => base.upto,
        LivePart::Commits(_) | LivePart::Archived(_) | LivePart::Floor(_) => 0,
    }
}

/// Where the anchors of a log are that its base names. All is 0 where it names none.
pub fn anchors_of(chains: &[LiveChain]) -> AnchorName
    ensures { result ≡ anchors_of chains.now }
{
    if let [first, ..] = chains {
        if let LivePart::Base(base) = &first.part {
            return base.anchors;
        }
    }
    AnchorName {
        first: 0,
        extents: 0,
        records: 0,
    }
}
