//! Laws of extents that are taken into use, each as a function with nothing to do.
ghost use Rattle.log_space.specs.Laws.{OthersAreFree, UsedAreCounted, UsedInTurn, OneMoreIsCounted};

/// Of extents taken into use one after the other, those that are left are free.
pub fn others_are_free()
    ensures { OthersAreFree }
{}

/// As many are in use as were taken, each once.
pub fn used_are_counted()
    ensures all { UsedAreCounted }
    ensures one { OneMoreIsCounted }
{}

/// Some and then others taken into use are both taken.
pub fn used_in_turn()
    ensures { UsedInTurn }
{}
