//! The beginning of the node in a block.
ghost use Rattle.std.specs.Prelude.{◌≡◌, ℕ, ◌+◌, ◌≤◌, true, false, List, Some, None, IfOk, IfErr};
ghost use Rattle.nodes.specs.Faults.{IsLookFault};
ghost use Rattle.nodes.specs.Words.{LooksWithin};
ghost use Rattle.nodes.specs.Parts.{IsFront};

use fs_types::Fault;
use nodes::Nodes;

/// Brings the beginning of the node in a block, for `fronted` to lend; false where there is none. Where
/// the beginning of one is there but no whole node, what is brought may be anything.
pub fn brings_front<N: Nodes>(nodes: &mut N, block: u32) -> Result<bool, Fault>
    requires { N.is_sound nodes.old }

    // What is brought.
    ensures begins { IfOk result (λ brought. brought ≡ true → (bytes : List ℕ) → N.node nodes.old block ≡ Some bytes → IsFront (N.page nodes.old) (N.beginning nodes.new) bytes) }
    ensures lends { IfOk result (λ brought. brought ≡ true → N.lends_front nodes.new) }
    ensures none { IfOk result (λ brought. brought ≡ false → N.node nodes.old block ≡ None) }

    // Why not, and what is read.
    ensures calls { LooksWithin N.Nodes IsLookFault 1 nodes.old result nodes.new }
    ensures reads { N.reads nodes.new ≡ N.reads nodes.old + 1 }
    ensures asks { N.asked nodes.new + N.reads nodes.old ≤ N.asked nodes.old + N.reads nodes.new }
{
    match nodes.front(block) {
        Ok(()) => Ok(true),
        Err(Fault::Damaged) => Ok(false),
        Err(fault) => Err(fault),
    }
}
