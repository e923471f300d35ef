//! Laws of images, each as a function with nothing to do.
ghost use Rattle.law_image.specs.Laws.{EmptyStands, GroupStands, ArchiveStands, ReclaimStands, FloorStands, PieceStands, ArchiveIsPlanned, ReclaimIsPlanned};
ghost use Rattle.law_image.specs.Laws.{ArchivePlanStays, ReclaimPlanStays, RetiredAreGivenUp, KeptValues, KeptRows, ImageIsView, ImageAnswersAt};
ghost use Rattle.law_image.specs.Laws.{ImageAnswersBetween, ImageScansAt, ImageScansBetween, KeptIsSet, HeapIsSet, ArchiveIsSet, HeapVersionsAreSpans};
ghost use Rattle.law_image.specs.Laws.{SetsAreLists, StoredIsRead, RecentValues, RecentRows, StoredIsGroup, GroupPublishes, RaiseMayCome, FloorPublishes};

/// The image of a new store represents the empty history.
pub fn empty_stands()
    ensures { EmptyStands }
{}

/// A group's slot adds its commits to the history.
pub fn group_stands()
    ensures { GroupStands }
{}

/// Vacuum and a piece of slots change neither history nor floors, and a floor's slot raises the floor alone.
pub fn jobs_stand()
    ensures archive { ArchiveStands }
    ensures reclaim { ReclaimStands }
    ensures floor { FloorStands }
    ensures piece { PieceStands }
{}

/// What is planned of an image that represents a history is a plan.
pub fn plans_are()
    ensures archive { ArchiveIsPlanned }
    ensures reclaim { ReclaimIsPlanned }
    ensures retired { RetiredAreGivenUp }
{}

/// And it stays a plan while groups are published during its job.
pub fn plans_stay()
    ensures archive { ArchivePlanStays }
    ensures reclaim { ReclaimPlanStays }
{}

/// Queries of kept times are answered from both homes as the write sets say.
pub fn kept_queries_agree()
    ensures values { KeptValues }
    ensures rows { KeptRows }
{}

/// What queries of the store that opens an image read represents the history, and each is answered as the history says.
pub fn image_answers()
    ensures view { ImageIsView }
    ensures at { ImageAnswersAt }
    ensures between { ImageAnswersBetween }
    ensures scan_at { ImageScansAt }
    ensures scan_between { ImageScansBetween }
{}

/// What is kept are the versions of the history that end after the floor, each in its homes.
pub fn kept_versions_are()
    ensures kept { KeptIsSet }
    ensures heap { HeapIsSet }
    ensures archive { ArchiveIsSet }
    ensures spans { HeapVersionsAreSpans }
{}

/// A write is read from the one record that it is stored as.
pub fn stored_is_read()
    ensures { StoredIsRead }
{}

/// Whether homes are told as sets or as lists, the image represents the same.
pub fn sets_are_lists()
    ensures { SetsAreLists }
{}

/// From the reclaim mark on the heap alone answers queries of kept times.
pub fn recent_queries_agree()
    ensures values { RecentValues }
    ensures rows { RecentRows }
{}

/// Commits that may follow are stored as a group that is theirs.
pub fn stored_is_group()
    ensures { StoredIsGroup }
{}

/// Where the machine publishes a group, the image with the group's slot represents what is then published.
pub fn group_publishes()
    ensures { GroupPublishes }
{}

/// A floor that may be raised may come next in the log, and the image with its slot represents the machine with the floor raised.
pub fn floor_publishes()
    ensures may_come { RaiseMayCome }
    ensures publishes { FloorPublishes }
{}
