//! Laws of what the calls say and leave besides the machine's steps, whatever the layout.
ghost use Rattle.law_any_store.specs.Names.{TimesAreOfLabel, TimesStand, BeginKeepsNames, AbortKeepsNames, SubmitKeepsNames};
ghost use Rattle.law_any_store.specs.Names.{RedeemKeepsNames, PumpKeepsNames, SameKeepsNames};
ghost use Rattle.law_any_store.specs.Names.{ArchiveStartKeepsNames, ReclaimStartKeepsNames, FloorStartKeepsNames, GrowStartKeepsNames, JobPumpKeepsNames};
ghost use Rattle.law_any_store.specs.Starts.{ArchiveStartSays, ReclaimStartSays, GrowStartSays};
ghost use Rattle.law_any_store.specs.Few.{BeginMakesFew, AbortMakesFew, SubmitMakesFew, RedeemMakesFew};
ghost use Rattle.law_any_store.specs.Few.{PumpMakesFew, ArchiveStartMakesFew, ReclaimStartMakesFew};
ghost use Rattle.law_any_store.specs.Few.{FloorStartMakesFew, GrowStartMakesFew, JobPumpMakesFew, AtMakesFew};
ghost use Rattle.law_any_store.specs.Few.{ScanAtMakesFew, BetweenMakesFew, ScanBetweenMakesFew, TimesMakesFew};

/// What the starts of jobs say of the machine, whether one begins or is refused. Of a floor the machine decides itself.
pub fn starts_say()
    ensures archive { ArchiveStartSays }
    ensures reclaim { ReclaimStartSays }
    ensures grow { GrowStartSays }
{}

/// The times of a label are those of the published history, from the time on up to which names may have left memory. Where the log lies in the heap the
/// earlier ones are those of the history where the disk tells its bytes, and only there may the device refuse or a part of the archive be damaged. Nothing
/// changes of what the store represents.
pub fn times_are_of_label()
    ensures says { TimesAreOfLabel }
    ensures stands { TimesStand }
{}

/// No name leaves memory in a call.
pub fn names_stay()
    ensures begin { BeginKeepsNames }
    ensures abort { AbortKeepsNames }
    ensures submit { SubmitKeepsNames }
    ensures redeem { RedeemKeepsNames }
    ensures pump { PumpKeepsNames }
    ensures archive { ArchiveStartKeepsNames }
    ensures reclaim { ReclaimStartKeepsNames }
    ensures floor { FloorStartKeepsNames }
    ensures grow { GrowStartKeepsNames }
    ensures job_pump { JobPumpKeepsNames }
    ensures same { SameKeepsNames }
{}

/// No call makes more than one write or sync of the disk.
pub fn calls_make_few()
    ensures begin { BeginMakesFew }
    ensures abort { AbortMakesFew }
    ensures submit { SubmitMakesFew }
    ensures redeem { RedeemMakesFew }
    ensures pump { PumpMakesFew }
    ensures archive { ArchiveStartMakesFew }
    ensures reclaim { ReclaimStartMakesFew }
    ensures floor { FloorStartMakesFew }
    ensures grow { GrowStartMakesFew }
    ensures job_pump { JobPumpMakesFew }
    ensures at { AtMakesFew }
    ensures scan_at { ScanAtMakesFew }
    ensures between { BetweenMakesFew }
    ensures scan_between { ScanBetweenMakesFew }
    ensures times { TimesMakesFew }
{}
