//! The slots of the next node of a chain, kept while nodes are written.
ghost use Rattle.std.specs.Prelude.{◌≡◌, ℕ, ◌+◌, ◌-◌, ◌*◌, ◌/◌, ◌%◌, ◌^◌, ◌<◌, ◌≤◌, ◌==◌, if◌then◌else◌, length, slice_index, IfOk};
ghost use Rattle.nodes.specs.Bodies.{back, IsChain, IsLinked};
ghost use Rattle.node_format.specs.declared.headers.TheConstants.{SLOTS};
ghost use Rattle.tree_edits.specs.Reading.{AsksPageEach};
ghost use Rattle.tree_edits.specs.Writing as spec;
ghost use Rattle.nodes.specs.Faults.{IsLookFault};
ghost use Rattle.nodes.specs.Words.{LooksWithin};

use crate::range_reads::pointer_at;
use fs_types::Fault;
use node_format::SLOTS;
use nodes::Nodes;

/// The last block for each power of two: slot `x` is the block of the node of the greatest index
/// below the next one that 2 to the `x` divides.
#[derive(Drop)]
pub(crate) struct Table {
    pub(crate) blocks: [u32; SLOTS],
}

/// The block of the greatest index, not above one, that twice a power of 2 divides, from that which
/// the power divides: the node itself, or that which its slot for the power names.
fn step_back<N: Nodes>(nodes: &mut N, block: u32, most: u32, slot: u32) -> Result<u32, Fault>
    // The block holds the node of the greatest index that the power divides.
    requires sound { N.is_sound nodes.old }
    requires chain { (capacity : ℕ) × IsChain capacity (N.node nodes.old) (most / 2 ^ slot * 2 ^ slot) block }
    requires linked { IsLinked (N.node nodes.old) (most / 2 ^ slot * 2 ^ slot) block }
    requires few { slot < SLOTS }

    ensures next { IfOk result (λ next. next ≡ back (N.node nodes.old) block (most / 2 ^ slot % 2 * 2 ^ slot)) }

    // One read at most, of a page, and nothing is written.
    ensures calls { LooksWithin N.Nodes IsLookFault 1 nodes.old result nodes.new }
    ensures unread { most < 2 ^ slot → N.reads nodes.new ≡ N.reads nodes.old }
    ensures asks { AsksPageEach N.asked N.reads nodes.old nodes.new }
{
    let power = 2u32.pow(slot);
    if most / power % 2 == 0 {
        return Ok(block);
    }
    pointer_at(nodes, block, slot)
}

/// The table for the nodes from an index to the last one, after the head of a linked chain: at most one
/// read, of a page, for each binary digit of the index.
pub(crate) fn start_table<N: Nodes>(
    nodes: &mut N,
    head: u32,
    index: u32,
    last: u32,
) -> Result<Table, Fault>
    // The nodes before the index.
    requires sound { N.is_sound nodes.old }
    requires linked { (capacity : ℕ) × spec.AreLinked capacity (N.node nodes.old) head index }
    requires order { index ≤ last }

    ensures table { IfOk result (λ table. spec.IsTable (N.node nodes.old) head index last table.blocks) }

    // A page is asked for each read, and nothing is written.
    ensures reads { (digits : ℕ) → index ≤ 2 ^ digits → N.reads nodes.new ≤ N.reads nodes.old + digits }
    ensures asks { AsksPageEach N.asked N.reads nodes.old nodes.new }
    ensures calls { LooksWithin N.Nodes IsLookFault SLOTS nodes.old result nodes.new }
{
    let mut blocks = [head; SLOTS];
    if index == 0 {
        return Ok(Table { blocks });
    }
    let before = index - 1;
    let mut block = head;
    for slot in 1..SLOTS {
        let power = 2u32.pow(slot as u32);
        if last / power == before / power {
            return Ok(Table { blocks });
        }
        block = step_back(nodes, block, before, slot as u32 - 1)?;
        blocks[slot] = block;
    }
    Ok(Table { blocks })
}

impl Table {
    /// Takes in that the node of an index was written to a block.
    pub(crate) fn move_on(&mut self, index: u32, block: u32)
        ensures { (x : ℕ) → x < SLOTS → slice_index self.new.blocks x ≡ (if index % 2 ^ x == 0 then block else slice_index self.old.blocks x) }
    {
        for slot in 0..SLOTS {
            if index % 2u32.pow(slot as u32) != 0 {
                return;
            }
            self.blocks[slot] = block;
        }
    }
}
