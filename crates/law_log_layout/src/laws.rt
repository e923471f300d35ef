//! Laws of the log that lies in the heap, as bytes.
ghost use Rattle.law_log_layout.specs.Laws.{ChainGoes, EntryGoes, GroupEnds, GroupGoes, ReclaimGoes, RootGoes};
ghost use Rattle.law_log_layout.specs.Reclaims.{BaseGoes, BaseIsLog, BaseRests};
ghost use Rattle.law_log_layout.specs.Entries.{FloorIsLog, RunIsLog};
ghost use Rattle.law_log_layout.specs.OneLog.{OneLogInHeap, OneReading};
ghost use Rattle.law_log_layout.specs.Beside.{BaseLiesBeside, ChainAmongOthers, ChainIsAmong, ChainLeavesParts, RootBeside, SyncKeepsParts};
ghost use Rattle.law_log_layout.specs.Beside.{SyncLeavesChain, SyncLeavesOthers, SyncLeavesParts, WriteAddsPart, WriteLeavesChain, WriteLeavesOthers};
ghost use Rattle.law_log_layout.specs.Beside.{WriteLeavesParts};

/// A chain's way to the end of the log, at every moment: a stop leaves the log without it, or, from
/// the write of its gate on, with it or without; and once that is synced with it.
pub fn chain_goes()
    ensures { ChainGoes }
{}

/// The way from one root to the other, at every moment: a stop leaves the old root, or, from the write of
/// the turn gate on, either; and once that is synced the new one.
pub fn root_goes()
    ensures { RootGoes }
{}

/// A group's way to the disk, at every moment: what a stop leaves represents the history, or, from the
/// write of its gate on, it with the whole group or without; and once that is synced with it.
pub fn group_goes()
    ensures goes { GroupGoes }
    ensures ends { GroupEnds }
{}

/// The same of any chain, told of histories: what a stop leaves represents what the log tells without the
/// chain, or, from the write of its gate on, without or with it; and once that is synced with it.
pub fn entry_goes()
    ensures { EntryGoes }
{}

/// A reclaim, once its base and anchors are on the disk: at every moment of the way from the old root to
/// the base, what a stop leaves represents the history.
pub fn reclaim_goes()
    ensures { ReclaimGoes }
{}

/// A base in the place of the log's first chains is a log that represents the same history.
pub fn base_is_log()
    ensures { BaseIsLog }
{}

/// The entry of a floor at the end of the log raises that floor alone, and that of an archive, whose run
/// may take the place of the last ones, changes neither history nor floors.
pub fn entry_is_log()
    ensures floor { FloorIsLog }
    ensures run { RunIsLog }
{}

/// The writing of a base and its anchors, at every moment: what a stop leaves represents the history, and
/// once all is synced the log that the base begins is at rest.
pub fn base_goes()
    ensures goes { BaseGoes }
    ensures rests { BaseRests }
{}

/// A heap holds one log at most from a root on: its chains, where it ends, and its anchors. With an
/// archive it tells one log, of the same members and anchors.
pub fn one_log_in_heap()
    ensures heap { OneLogInHeap }
    ensures reading { OneReading }
{}

/// A chain and writes elsewhere. While a chain is on its way, what is written elsewhere, and each
/// sync, leaves it where it is; and its calls leave what lies elsewhere, and the other areas, as they
/// were. So a base can be written while groups go to the heap.
pub fn chains_beside()
    // A chain on its way is left where it is, whether the call is made or refused.
    ensures chain_by_write { WriteLeavesChain }
    ensures chain_by_sync { SyncLeavesChain }
    ensures chain_among { ChainAmongOthers }
    ensures among { ChainIsAmong }
    ensures base { BaseLiesBeside }
    // Parts of the heap are left as they were, and after a sync what was read outlasts a stop.
    ensures parts_by_chain { ChainLeavesParts }
    ensures parts_by_write { WriteLeavesParts }
    ensures part_written { WriteAddsPart }
    ensures parts_by_sync { SyncLeavesParts }
    ensures parts_synced { SyncKeepsParts }
    // A call of one area leaves the others.
    ensures others_by_write { WriteLeavesOthers }
    ensures others_by_sync { SyncLeavesOthers }
{}

/// What two roots claim of the heap and the archive.
pub trait RootClaims {
    ghost use Rattle.std.specs.Prelude.{ℕ, List};

    ghost Old: { List ℕ → List ℕ → Type 0 };

    ghost New: { List ℕ → List ℕ → Type 0 };
}

/// The way from one root to the other, whatever each of them claims of the heap and the archive: where a
/// stop leaves nothing that fails either claim, it leaves a root whose claim is met, at every moment.
pub fn root_beside<C: RootClaims>()
    ensures { RootBeside C.Old C.New }
{}
