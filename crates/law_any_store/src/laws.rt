//! Laws of a store's calls, whatever its layout.
ghost use Rattle.law_any_store.specs.Standing.{LayoutStays};
ghost use Rattle.law_any_store.specs.Calls.{BeginStands, AbortStands, SubmitStands, PumpStands, RedeemStands, ArchiveStartStands, ReclaimStartStands};
ghost use Rattle.law_any_store.specs.Calls.{FloorStartStands, GrowStartStands, JobPumpStands};
ghost use Rattle.law_any_store.specs.Leaving.{MemoryStands, LastIsPublished, PumpLeaves, ArchiveStartLeaves, ReclaimStartLeaves};
ghost use Rattle.law_any_store.specs.Leaving.{FloorStartLeaves, GrowStartLeaves, JobPumpLeaves, BeginLeaves, AbortLeaves, SubmitLeaves, RedeemLeaves};
ghost use Rattle.law_any_store.specs.Views.{ViewIsOfHistory, ViewGoesOn, AtIsAnswered, ScanAtIsAnswered, BetweenIsAnswered, ScanBetweenIsAnswered};
ghost use Rattle.law_any_store.specs.Views.{AtStands, ScanAtStands, BetweenStands, ScanBetweenStands, BeginGoesOn, AbortGoesOn, SubmitGoesOn, RedeemGoesOn};
ghost use Rattle.law_any_store.specs.Views.{PumpGoesOn, JobPumpGoesOn, ArchiveStartGoesOn, ReclaimStartGoesOn, FloorStartGoesOn, GrowStartGoesOn};

/// What a store has in memory is the machine's state.
pub fn memory_stands()
    ensures memory { MemoryStands }
    ensures last { LastIsPublished }
{}

/// A begin, an abort, a submit and a ticket that is shown are steps of the machine, with its answers.
pub fn calls_stand()
    ensures begin { BeginStands }
    ensures abort { AbortStands }
    ensures submit { SubmitStands }
    ensures redeem { RedeemStands }
{}

/// A step of a group is some steps of the machine: a group begins, its gate is due, is written, or so many
/// commits are published; or the machine fails.
pub fn pump_stands()
    ensures { PumpStands }
{}

/// A job that begins, and each of its steps, changes nothing of the machine's but a floor.
pub fn jobs_stand()
    ensures archive { ArchiveStartStands }
    ensures reclaim { ReclaimStartStands }
    ensures floor { FloorStartStands }
    ensures grow { GrowStartStands }
    ensures step { JobPumpStands }
{}

/// What steps and jobs leave in memory as it was.
pub fn steps_leave()
    ensures pump { PumpLeaves }
    ensures archive { ArchiveStartLeaves }
    ensures reclaim { ReclaimStartLeaves }
    ensures floor { FloorStartLeaves }
    ensures grow { GrowStartLeaves }
    ensures job_pump { JobPumpLeaves }
{}

/// What transactions and tickets leave in memory.
pub fn calls_leave()
    ensures begin { BeginLeaves }
    ensures abort { AbortLeaves }
    ensures submit { SubmitLeaves }
    ensures redeem { RedeemLeaves }
{}

/// A view is answered as the history of its moment says.
pub fn view_is_answered()
    ensures view { ViewIsOfHistory }
    ensures goes_on { ViewGoesOn }
    ensures at { AtIsAnswered }
    ensures scan_at { ScanAtIsAnswered }
    ensures between { BetweenIsAnswered }
    ensures scan_between { ScanBetweenIsAnswered }
{}

/// A query changes nothing of what the store represents.
pub fn queries_stand()
    ensures at { AtStands }
    ensures scan_at { ScanAtStands }
    ensures between { BetweenStands }
    ensures scan_between { ScanBetweenStands }
{}

/// No call changes the layout of a store.
pub fn layout_stays()
    ensures { LayoutStays }
{}

/// Views go on over every call.
pub fn views_go_on()
    ensures begin { BeginGoesOn }
    ensures abort { AbortGoesOn }
    ensures submit { SubmitGoesOn }
    ensures redeem { RedeemGoesOn }
    ensures pump { PumpGoesOn }
    ensures job_pump { JobPumpGoesOn }
    ensures archive { ArchiveStartGoesOn }
    ensures reclaim { ReclaimStartGoesOn }
    ensures floor { FloorStartGoesOn }
    ensures grow { GrowStartGoesOn }
{}
