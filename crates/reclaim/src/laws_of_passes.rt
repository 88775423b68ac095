//! The laws of passes. Each function does nothing: its contract is the law.
ghost use Rattle.std.specs.Prelude.{◌≡◌, ℕ, true};
ghost use Rattle.nodes.specs.Reached.{Reached};
ghost use Rattle.reclaim.specs.Passes.{Pass as Marking, IsPass, PassStays, PassMarks};
ghost use Rattle.reclaim.specs.Sound.{SoundHasTrees, TreesAreSound, TreesHoldNodes};

use nodes::Nodes;

/// Where all that the roots of a pass reach keeps its nodes, the pass goes on; a finished one has
/// marked exactly what its roots reach.
pub fn pass_laws()
    ensures stays { PassStays }
    ensures marks { PassMarks }
{}

/// Where all that the roots of a pass reach is kept, the pass goes on whatever calls came between.
pub fn frame_law<N: Nodes>()
    ensures { (s t : N) (p : Marking) → N.is_sound s → N.follows s t → ((b : ℕ) → Reached (N.node s) p.roots b → N.kept s b ≡ true)
        → IsPass (N.node s) p → IsPass (N.node t) p }
{}

/// Each root has a tree of linked bodies exactly where all that the roots reach is sound, which one
/// look at each block and at those that it names shows, and no path is too long.
pub fn sound_laws()
    ensures trees { SoundHasTrees }
    ensures sound { TreesAreSound }
    ensures nodes { TreesHoldNodes }
{}
