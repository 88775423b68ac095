//! The laws of trees of nodes. Each function does nothing: its contract is the law.
ghost use Rattle.nodes.specs.ChainLaws.{ChainFrameLaw, CountLaw, EntryLaw, FirstLaw, NamedLaw, ReachedByLaw, ReachedLaw, StepLaw, TailLaw};
ghost use Rattle.nodes.specs.TreeLaws.{AllEdits, AllFrames, AllMoves, DepthLaw, MkdirLaw, PutFileLaw, BlockRemoveLaw, BlockRenameLaw};
ghost use Rattle.nodes.specs.Puts.{PutFilesLaw};

/// Where all that a place or a root reaches is kept, nothing of it changes.
pub fn frame_laws()
    ensures frames { AllFrames }
{}

/// What a path written anew gives: the tree of the new root, and what it reaches; for a new empty
/// directory, an entry taken out, a file and many files of a directory as finite maps.
pub fn edit_laws()
    ensures edits { AllEdits }
    ensures made { MkdirLaw }
    ensures removed { BlockRemoveLaw }
    ensures file_put { PutFileLaw }
    ensures files_put { PutFilesLaw }
{}

/// What two paths written anew give, so that what stood at the one stands at the other: the tree of
/// the new root, and what it reaches; as finite maps too, and when a path would get too long.
pub fn move_laws()
    ensures moves { AllMoves }
    ensures renamed { BlockRenameLaw }
    ensures depth { DepthLaw }
{}

/// Where the nodes of a directory stay, it stays; one node before others has their entries after its
/// own; each node of a directory begins one; how many nodes there are for so many entries.
pub fn chain_laws()
    ensures frame { ChainFrameLaw }
    ensures step { StepLaw }
    ensures first { FirstLaw }
    ensures tail { TailLaw }
    ensures count { CountLaw }
{}

/// What the block of a directory reaches: its nodes, what its entries name, and nothing else.
pub fn reaching_laws()
    ensures nodes { ReachedLaw }
    ensures entries { EntryLaw }
    ensures named { NamedLaw }
    ensures only { ReachedByLaw }
{}
