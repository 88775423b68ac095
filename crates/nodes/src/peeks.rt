//! The trait of what shows parts of nodes that are wanted once.
ghost use Rattle.std.specs.Prelude.{◌≡◌, ◌≢◌, ◌+◌, ◌≤◌, length, OnOk, IfErr, IsErrOf};
ghost use Rattle.fs_types.specs.declared.fault.Fault.TheVariants.{Damaged};
ghost use Rattle.nodes.specs.Faults.{IsReadFault};
ghost use Rattle.nodes.specs.Frames.{OnlyLooks};
ghost use Rattle.nodes.specs.PageCounts.{pages_of_range};
ghost use Rattle.nodes.specs.Parts.{HasPart, LacksPart};

use crate::nodes::Nodes;
use fs_types::Fault;

/// What keeps nodes in blocks, and shows parts of them that are wanted once.
pub trait Peeks: Nodes {
    /// The bytes of a page.
    fn page_bytes(&self) -> u32
        ensures { result ≡ Self.page self.now };

    /// Fills `out` with the bytes of the node in a block, from an offset on. Any number may be asked;
    /// where the node has not so many bytes, or there is none, `out` may then hold anything.
    ///
    /// Only the pages that hold these bytes are asked, whichever part was read last, and no node enters
    /// memory. Nothing may be lent after it.
    fn peek_at(&mut self, block: u32, offset: u32, out: &mut [u8]) -> Result<(), Fault>
        requires sound { Self.is_sound self.old }
        requires within { offset + length out.old ≤ Self.limit self.old }
        ensures copied { OnOk result (HasPart (Self.node self.old block) offset (length out.old) out.new) }

        // Damaged only where the node has not so many bytes, or there is none.
        ensures damaged { IsErrOf result Fault.Damaged → LacksPart (Self.node self.old block) offset (length out.old) }
        ensures why { IfErr result (λ fault. fault ≢ Fault.Damaged → Self.causes self.old self.new fault) }
        ensures faults { IfErr result IsReadFault }

        // Whatever is answered, no block changes, and each page that holds the bytes is asked once.
        ensures looks { OnlyLooks Self.node Self.kept Self.writes Self.follows Self.is_sound Self.limit Self.blocks self.old self.new }
        ensures reads { Self.reads self.new ≡ Self.reads self.old + 1 }
        ensures partly { Self.partly self.new ≡ Self.partly self.old }
        ensures asks { Self.asked self.new ≤ Self.asked self.old + pages_of_range (Self.page self.old) offset (length out.old) };
}
