//! The laws of the newest record, as the contract of a function that does nothing.
ghost use Rattle.anchors.specs.Laws.{FoundIsNewest, NewestIsFound, OnlyAnchorsMatter};
ghost use Rattle.anchors.specs.Writing.{HalfChangesNothing, WholeIsNewest};
ghost use Rattle.anchors.specs.Following.{StillMayCommit, CommittedIsNewest};

/// At most one valid record is the newest: every other one is older. Pages of other blocks than
/// the anchors do not matter.
pub fn newest_laws()
    ensures newest { FoundIsNewest }
    ensures found { NewestIsFound }
    ensures anchors { OnlyAnchorsMatter }
{}

/// A record of which pages are missing changes nothing: the newest one is what it was. One whose
/// pages all stand is the newest, where all others were older.
pub fn writing_laws()
    ensures half { HalfChangesNothing }
    ensures whole { WholeIsNewest }
{}

/// What is remembered serves a later commit as long as the anchors stay as they are. A record that
/// was committed is what the newest one means.
pub fn commit_laws()
    ensures follows { StillMayCommit }
    ensures newest { CommittedIsNewest }
{}
