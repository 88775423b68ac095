//! The laws of updates. The function does nothing: its contract is the law.
ghost use Rattle.updates.specs.Lines.{PathsLaw};

/// What is told of all that stands in a tree names the paths by which an update goes.
pub fn paths_law()
    ensures { PathsLaw }
{}
