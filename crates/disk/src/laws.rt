//! Laws of parts and of stops, each as a function with nothing to do.
ghost use Rattle.disk.specs.Laws.{WriteKeeps};
ghost use Rattle.disk.specs.Within.{WithinWrite};

/// A write changes nothing that lies apart from it.
pub fn write_keeps()
    ensures { WriteKeeps }
{}

/// A stop while a write is made leaves nothing that a stop after it may not leave.
pub fn stops_within_write()
    ensures { WithinWrite }
{}
