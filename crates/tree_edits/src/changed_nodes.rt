//! The nodes of a changed body, each written after those before it.
ghost use Rattle.std.specs.Prelude.{◌≡◌, ℕ, ◌+◌, ◌-◌, ◌*◌, ◌^◌, ◌<◌, ◌≤◌, true, false, length, drop, replicate, slice_index, Some, OnOk, IfOk};
ghost use Rattle.node_format.specs.Headers.{body_header, IsNode};
ghost use Rattle.node_format.specs.BodyNodes.{HasSlot, IsBodySpelling};
ghost use Rattle.node_format.specs.declared.headers.TheConstants.{SLOTS};
ghost use Rattle.plain_trees.specs.Contents.{read_from};
ghost use Rattle.nodes.specs.Bodies.{head_index};
ghost use Rattle.nodes.specs.Faults.{IsWriteFault};
ghost use Rattle.nodes.specs.Words.{WorksWithin};
ghost use Rattle.tree_edits.specs.Calls.{LooksAlong, WorksAlong};
ghost use Rattle.tree_edits.specs.Writing as spec;
ghost use Rattle.tree_edits.specs.Writing.{IsWritingFault, ReadsKept};

use crate::change::Change;
use crate::old_nodes::read_kept;
use crate::slot_table::Table;
use fs_types::Fault;
use node_format::{BODY_HEADER, body_room};
use nodes::Nodes;
use std::alloc::Global;

/// Puts the bytes that stand from `offset` on over those of a slice that stand from `start` on, where
/// the two meet.
fn overlay(out: &mut [u8], start: u32, offset: u32, bytes: &[u8])
    requires capacity { start + length out.old < 2 ^ 32 }
    requires fits { offset + length bytes.now < 2 ^ 32 }
    ensures { (i : ℕ) → i < length out.old → slice_index out.new i ≡ spec.byte_after out.old start offset bytes.now (start + i) }
{
    let from = start.max(offset);
    let to = (start + out.len() as u32).min(offset + bytes.len() as u32);
    if from < to {
        let part = &bytes[(from - offset) as usize..(to - offset) as usize];
        out[(from - start) as usize..(to - start) as usize].copy_from_slice(part);
    }
}

/// Fills a slice of zeros with the first bytes of the node of an index of a body that is changed.
/// `old` are the listed blocks of the old body.
fn edit_into<N: Nodes>(
    nodes: &mut N,
    change: Change,
    bytes: &[u8],
    old: &[u32],
    index: u32,
    out: &mut [u8],
) -> Result<(), Fault>
    // The old body, and the change.
    requires sound { N.is_sound nodes.old }
    requires changes { spec.IsChangeOf (N.limit nodes.old) (N.node nodes.old) change old.now (change.offset + length bytes.now) }

    // Room for no more than the node has.
    requires zeros { out.old ≡ replicate (length out.old) 0 }
    requires size { length out.old ≤ change.capacity }
    requires fits { index * change.capacity + length out.old ≤ change.size }

    ensures edited { OnOk result (out.new ≡ read_from (spec.bytes_after (N.node nodes.old) change bytes.now) (index * change.capacity) (length out.old)) }

    // The old node is read once at most, and nothing is written.
    ensures reads { ReadsKept change (change.offset + length bytes.now) index (length out.old) (length old.now) (N.reads nodes.old) (N.reads nodes.new) }
    ensures calls { LooksAlong N.Nodes (head_index change.capacity change.body.length) (λ digits. 1 + 2 * digits) nodes.old result nodes.new }
{
    let end = change.offset + bytes.len() as u32;
    read_kept(nodes, change, end, old, index, out)?;
    overlay(out, index * change.capacity, change.offset, bytes);
    Ok(())
}

/// The node of an index of a body that is changed, with these slots.
fn edited_node<N: Nodes>(
    alloc: Global,
    nodes: &mut N,
    change: Change,
    bytes: &[u8],
    old: &[u32],
    slots: &[u32],
    index: u32,
) -> Result<Vec<u8>, Fault>
    // The old body, and the change.
    requires sound { N.is_sound nodes.old }
    requires changes { spec.IsChangeOf (N.limit nodes.old) (N.node nodes.old) change old.now (change.offset + length bytes.now) }

    // The new body has that node.
    requires within { index * change.capacity < change.size }
    requires slots { length slots.now ≤ SLOTS }

    ensures spelled { IfOk result (λ node. IsBodySpelling node.items index slots.now (spec.part_after (N.node nodes.old) change bytes.now index)) }

    // The old node is read once at most, and nothing is written.
    ensures reads { ReadsKept change (change.offset + length bytes.now) index (spec.part_length change index) (length old.now) (N.reads nodes.old) (N.reads nodes.new) }
    ensures calls { LooksAlong N.Nodes (head_index change.capacity change.body.length) (λ digits. 1 + 2 * digits) nodes.old result nodes.new }
{
    let count = change.capacity.min(change.size - index * change.capacity);
    let mut node = body_room(alloc, index, slots, count)?;
    let room = &mut node[BODY_HEADER as usize..];
    edit_into(nodes, change, bytes, old, index, room)?;
    Ok(node)
}

/// Writes a node, and answers its block. It stays in memory, or leaves it at once.
fn write_new<N: Nodes>(nodes: &mut N, node: Vec<u8>, stays: bool) -> Result<u32, Fault>
    requires sound { N.is_sound nodes.old }
    requires whole { IsNode (N.limit nodes.old) node.items }

    // The block, or why there is none.
    ensures fresh { IfOk result (λ block. N.kept nodes.old block ≡ false) }
    ensures kept { IfOk result (λ block. N.kept nodes.new block ≡ true) }
    ensures written { IfOk result (λ block. N.node nodes.new block ≡ Some node.items) }

    // One write, and no read.
    ensures calls { WorksWithin N.Nodes IsWriteFault 0 1 nodes.old result nodes.new }
    ensures reads { N.reads nodes.new ≡ N.reads nodes.old }
    ensures writes { N.writes nodes.new ≡ N.writes nodes.old + 1 }
{
    let block = nodes.write_owned(node)?;
    if !stays {
        nodes.supersede(block);
    }
    Ok(block)
}

/// Writes one node after a body of full nodes, and answers its block. Its slots are those of the
/// table, which takes it in.
fn append<N: Nodes>(
    nodes: &mut N,
    table: &mut Table,
    head: u32,
    index: u32,
    node: Vec<u8>,
    stays: bool,
) -> Result<u32, Fault>
    // The nodes before the index.
    requires sound { N.is_sound nodes.old }
    requires stored { let capacity = N.limit nodes.old - body_header in spec.IsStored capacity (N.node nodes.old) (N.kept nodes.old) head (index * capacity) }
    requires slots { (x : ℕ) → HasSlot index x → slice_index table.old.blocks x ≡ spec.slot_before (N.node nodes.old) head x }

    // The node.
    requires spelled { IsBodySpelling node.items index table.old.blocks (drop body_header node.items) }
    requires fits { length node.items ≤ N.limit nodes.old }

    ensures grown { IfOk result (λ next. spec.IsGrown (N.limit nodes.old - body_header) (N.node nodes.old) (N.node nodes.new) (N.kept nodes.old) (N.kept nodes.new) head index next (drop body_header node.items)) }
    ensures table { IfOk result (λ next. (last : ℕ) → spec.IsTable (N.node nodes.old) head index last table.old.blocks → spec.IsTable (N.node nodes.new) next (index + 1) last table.new.blocks) }

    // One write, and no read.
    ensures calls { WorksWithin N.Nodes IsWritingFault 0 1 nodes.old result nodes.new }
    ensures reads { N.reads nodes.new ≡ N.reads nodes.old }
    ensures written { OnOk result (N.writes nodes.new ≡ N.writes nodes.old + 1) }
{
    let block = write_new(nodes, node, stays)?;
    table.move_on(index, block);
    Ok(block)
}

/// Writes the node of an index of a body that is changed, after the nodes before it, and answers its
/// block. It stays in memory where it is one of the last. `old` are the listed blocks of the old body.
pub(crate) fn write_node<N: Nodes>(
    alloc: Global,
    nodes: &mut N,
    change: Change,
    bytes: &[u8],
    old: &[u32],
    table: &mut Table,
    head: u32,
    index: u32,
) -> Result<u32, Fault>
    // The old body, and the change.
    requires sound { N.is_sound nodes.old }
    requires changes { spec.IsChangeOf (N.limit nodes.old) (N.node nodes.old) change old.now (change.offset + length bytes.now) }

    // The new body has that node, and those before it are written.
    requires within { index * change.capacity < change.size }
    requires before { spec.IsWrittenTo change.capacity (N.node nodes.old) (N.kept nodes.old) head index (head_index change.capacity change.size) table.old.blocks }

    ensures grown { IfOk result (λ next. spec.IsGrown change.capacity (N.node nodes.old) (N.node nodes.new) (N.kept nodes.old) (N.kept nodes.new) head index next (spec.part_after (N.node nodes.old) change bytes.now index)) }
    ensures table { IfOk result (λ next. spec.IsTable (N.node nodes.new) next (index + 1) (head_index change.capacity change.size) table.new.blocks) }

    // The old node is read once at most, and one is written.
    ensures reads { ReadsKept change (change.offset + length bytes.now) index (spec.part_length change index) (length old.now) (N.reads nodes.old) (N.reads nodes.new) }
    ensures calls { WorksAlong N.Nodes (head_index change.capacity change.body.length) (λ digits. 1 + 2 * digits) 1 nodes.old result nodes.new }
{
    let node = edited_node(alloc, nodes, change, bytes, old, &table.blocks, index)?;
    let rest = (change.size - index * change.capacity).div_ceil(change.capacity);
    let stays = rest as usize <= nodes.staying_count();
    append(nodes, table, head, index, node, stays)
}
