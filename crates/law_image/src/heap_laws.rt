//! Laws of images whose log lies in the heap, each as a function with nothing to do.
ghost use Rattle.law_image.specs.HeapLaws.{AnchorsArePlan, BaseStands, BaseStaysBehind, EmptyHeapStands, FloorStandsInHeap, GroupBesideBase, MergeStands};

/// An image of a new store represents the empty history.
pub fn empty_heap_stands()
    ensures { EmptyHeapStands }
{}

/// The jobs change no history: an archive that merges runs, a base that takes the place of the log's
/// first chains, and a floor, which raises itself alone.
pub fn heap_jobs_stand()
    ensures archive { MergeStands }
    ensures base { BaseStands }
    ensures floor { FloorStandsInHeap }
{}

/// A reclaim of floors and runs alone leaves the anchors as they are.
pub fn anchors_are_plan()
    ensures { AnchorsArePlan }
{}

/// Groups that are published while a base is made stay after it.
pub fn base_stays()
    ensures behind { BaseStaysBehind }
    ensures beside { GroupBesideBase }
{}
