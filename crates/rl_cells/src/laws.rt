//! Laws of the cells. A law is the contract of a function that does nothing.
ghost use Rattle.rl_cells.specs.Laws.{IsAdded, IsChanged};

/// A new object stands where the cells ended, and takes its cost. What stood before it stays, and what was live is live.
pub fn objects_are_added()
    ensures { IsAdded }
{}

/// A change of an object leaves all others. Where the object keeps its kind, the same values are live.
pub fn objects_are_changed()
    ensures { IsChanged }
{}
