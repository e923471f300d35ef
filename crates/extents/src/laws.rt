//! Laws of extents handed out together, each as a function with nothing to do.
ghost use Rattle.extents.specs.Laws.{ListTaken, ListGivenBack, ListKept, KeptsStay};

/// One more extent taken leaves those that are out as they are, and is none of them.
pub fn list_taken()
    ensures { ListTaken }
{}

/// Extents that are out, given back one after the other, leave the others as they are.
pub fn list_given_back()
    ensures { ListGivenBack }
{}

/// So do extents kept one after the other, and these are then kept.
pub fn list_kept()
    ensures kept { ListKept }
    ensures others { KeptsStay }
{}
