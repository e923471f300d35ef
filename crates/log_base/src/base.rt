//! The base that takes the place of a log's first chains.

ghost use Rattle.std.specs.Prelude.{◌≡◌, ◌++◌, [], OnOk, IfOk, option_to_list};
ghost use Rattle.log_base.specs.Bases.{in_base, with_run, runs_behind, runs_from, rolls_of, base_on};

use crate::raising::floors_from;
use log_entries::{AnchorName, Archive, Base, Listed, Roll};
use log_recovery::{LiveChain, LivePart};
use std::alloc::{AllocError, Global};

// A run as a base names it.
fn in_base(archive: &Archive) -> Archive
    ensures { result ≡ in_base archive.now }
{
    Archive {
        upto: archive.upto,
        start: archive.start,
        len: archive.len,
        records: archive.records,
        runs: 0,
    }
}

// One run more, in the place of the last ones that it takes.
fn push_run(runs: &mut Vec<Archive>, archive: &Archive) -> Result<(), AllocError>
    ensures { OnOk result (runs.new.items ≡ with_run runs.old.items archive.now) }
{
    runs.truncate(runs.len().saturating_sub(archive.runs as usize));
    runs.push(in_base(archive))?;
    Ok(())
}

// The runs with those of one chain more.
fn push_part(runs: &mut Vec<Archive>, part: &LivePart) -> Result<(), AllocError>
    ensures { OnOk result (runs.new.items ≡ runs_behind runs.old.items part.now) }
{
    match part {
        LivePart::Commits(_) | LivePart::Floor(_) => {}
        LivePart::Archived(archive) => push_run(runs, archive)?,
        LivePart::Base(base) => runs.extend_from_slice(base.archives.as_slice())?,
    }
    Ok(())
}

// The runs that stand behind these chains.
fn runs_from(alloc: Global, chains: &[LiveChain]) -> Result<Vec<Archive>, AllocError>
    ensures { IfOk result (λ runs. runs.items ≡ runs_from [] chains.now) }
{
    let mut runs = Vec::new(alloc);
    let mut rest = chains;
    while let [first, after @ ..] = rest {
        push_part(&mut runs, &first.part)?;
        rest = after;
    }
    Ok(runs)
}

// The rolls that the log's base names.
fn rolls_of(chains: &[LiveChain]) -> &[Roll]
    ensures { result.now ≡ rolls_of chains.now }
{
    let [first, ..] = chains else {
        return &[];
    };
    match &first.part {
        LivePart::Base(base) => base.rolls.as_slice(),
        LivePart::Commits(_) | LivePart::Archived(_) | LivePart::Floor(_) => &[],
    }
}

// These rolls, and the other behind them if there is one.
fn with_roll(alloc: Global, rolls: &[Roll], roll: Option<Roll>) -> Result<Vec<Roll>, AllocError>
    ensures { IfOk result (λ all. all.items ≡ rolls.now ++ option_to_list roll) }
{
    let mut all = Vec::from_slice(alloc, rolls)?;
    if let Some(roll) = roll {
        all.push(roll)?;
    }
    Ok(all)
}

/// The base in the place of these chains, the first of a log: it goes up to this time in microseconds since 1970,
/// names these anchors, has the rolls, runs and floors that these leave, and the roll, if one is added.
pub fn base_of(
    alloc: Global,
    front: &[LiveChain],
    upto: u64,
    anchors: AnchorName,
    roll: Option<Roll>,
) -> Result<Base, AllocError>
    ensures { IfOk result (λ base. base ≡ base_on front.now upto anchors roll) }
{
    let rolls = with_roll(alloc, rolls_of(front), roll)?;
    let archives = runs_from(alloc, front)?;
    let floors = floors_from(alloc, front)?;
    Ok(Base {
        upto,
        anchors,
        rolls: Listed::of(rolls),
        archives: Listed::of(archives),
        floors: Listed::of(floors),
    })
}
