//! The laws of what is told. Each function does nothing: its contract is the law.
ghost use Rattle.program_laws.specs.TreeLaw.{TreeLaw, PathOrderLaw, ViewTreeLaw};
ghost use Rattle.program_laws.specs.DifferenceLaw.{DifferenceLaw, NoDifferenceLaw};
ghost use Rattle.program_laws.specs.LineLaw.{LineLaw};
ghost use Rattle.program_laws.specs.ListLaw.{ListLaw};
ghost use Rattle.program_laws.specs.VersionsLaw.{VersionsLaw, KeptTreesLaw};

/// What is told of a tree: all that stands in it, each once, in the order of the paths, and nothing
/// else.
pub fn tree_laws()
    ensures tree { TreeLaw }
    ensures order { PathOrderLaw }
    ensures views { ViewTreeLaw }
{}

/// What is told of a directory itself: each of its entries, once, and nothing else; of a file that file.
pub fn list_laws()
    ensures lists { ListLaw }
{}

/// What is told of two trees: a line for each path at which they differ, and no other.
pub fn difference_laws()
    ensures differences { DifferenceLaw }
    ensures none { NoDifferenceLaw }
{}

/// What is told of versions: a line for each kept one, then one for each checkpoint, and no other.
pub fn versions_laws()
    ensures versions { VersionsLaw }
    ensures trees { KeptTreesLaw }
{}

/// What is told of one thing: one line.
pub fn line_laws()
    ensures lines { LineLaw }
{}
