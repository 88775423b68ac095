//! The laws of updates. The function does nothing: its contract is the laws.
ghost use Rattle.tree_differences.specs.UpdateLaws.{CoverLaw, EditLaw, JoinLaw, OneRenameLaw, PatchLaw, RenamesLaw, UpdateLaw};

/// The bytes that a line of a script names at most, here: with the longest path it has room for as many.
pub const PIECE_BYTES: u32 = 30_000;

/// What the calls of an update leave: at each path at which the two trees differ what the second has, and
/// elsewhere what was there before; and one version at most. The same of calls that write of each file only what
/// differs, where the tree has what the first one has there. And the changes that write each file from the first
/// byte on that differs bring a tree to the other one; so do those at some paths, where these have each at which
/// the two differ, and changes one after the other. A rename brings a tree to the one in which that has moved, and so
/// renames and then the changes at the paths that may differ still bring it to the other one.
pub fn update_laws()
    ensures updates { UpdateLaw }
    ensures patches { PatchLaw }
    ensures edits { EditLaw }
    ensures covers { CoverLaw }
    ensures joins { JoinLaw }
    ensures moves { OneRenameLaw }
    ensures renames { RenamesLaw }
{}
