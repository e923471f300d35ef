//! Laws of an engine, each as a function with nothing to do.
ghost use Rattle.c_engine.specs.Laws.{GroupCallIsTheSteps, JobCallIsTheSteps, NumberKnowsItsStore};

/// The device call that the host is told is exactly that of the step which the store has taken.
pub fn calls_are_the_steps()
    ensures group { GroupCallIsTheSteps }
    ensures job { JobCallIsTheSteps }
{}

/// A number of one store names nothing in another one, whose store mark has other lowest 15 bits.
pub fn numbers_know_their_store()
    ensures { NumberKnowsItsStore }
{}
