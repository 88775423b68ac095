//! The trait of what examines nodes, and keeps none of bodies.
ghost use Rattle.std.specs.Prelude.{◌≡◌, ◌≢◌, ℕ, ◌+◌, ◌*◌, ◌≤◌, true, false, length, Some, None, IfOk, IfErr, IsErrOf};
ghost use Rattle.fs_types.specs.declared.fault.Fault.TheVariants.{Damaged};
ghost use Rattle.node_format.specs.Headers.{body_header};
ghost use Rattle.nodes.specs.Faults.{IsReadFault};
ghost use Rattle.nodes.specs.Frames.{OnlyLooks};
ghost use Rattle.nodes.specs.PageCounts.{most_pages, pages_for};
ghost use Rattle.nodes.specs.Parts.{HasBodyHeader};

use crate::nodes::Nodes;
use fs_types::Fault;

/// What keeps nodes in blocks, and examines them: it reads all of a node, of which little may be kept.
pub trait Examines: Nodes {
    /// Reads the node in a block, each of its pages, and answers whether `lent` may lend it. One of a body
    /// that is not in memory is not kept there: `header` gets its header, and the answer is false. Any
    /// number may be asked.
    fn examine(&mut self, block: u32, header: &mut [u8]) -> Result<bool, Fault>
        requires sound { Self.is_sound self.old }
        requires sized { length header.old ≡ body_header }
        ensures shown { IfOk result (λ is_lent. is_lent ≡ true → (Self.node self.old block ≡ Some (Self.shown self.new)) × Self.lends self.new) }
        ensures header { IfOk result (λ is_lent. is_lent ≡ false → HasBodyHeader (Self.node self.old block) header.new) }

        // Damaged where there is no node, and only there.
        ensures damaged { IsErrOf result Fault.Damaged → Self.node self.old block ≡ None }
        ensures why { IfErr result (λ fault. fault ≢ Fault.Damaged → Self.causes self.old self.new fault) }
        ensures faults { IfErr result IsReadFault }

        // Whatever is answered, no block changes, and each page of the node is asked once at most.
        ensures looks { OnlyLooks Self.node Self.kept Self.writes Self.follows Self.is_sound Self.limit Self.blocks self.old self.new }
        ensures reads { Self.reads self.new ≡ Self.reads self.old + 1 }
        ensures asks { Self.asked self.new ≤ Self.asked self.old + most_pages (Self.page self.old) (Self.limit self.old) (Self.node self.old block) };

    // where nothing is written, a read asks no more pages than a block has
    ghost asks_each: { (s t : Self) → Self.is_sound s → Self.follows s t → Self.writes t ≡ Self.writes s → Self.asked t + Self.reads s * pages_for (Self.page s) (Self.limit s) ≤ Self.asked s + Self.reads t * pages_for (Self.page s) (Self.limit s) };
}
