//! The nodes of an old body of which an edit keeps bytes: listed by one walk, and read once each.
ghost use Rattle.std.specs.Prelude.{◌≡◌, ℕ, ◌+◌, ◌-◌, ◌*◌, ◌/◌, ◌^◌, ◌<◌, ◌≤◌, ◌⊎◌, length, replicate, slice_index, OnOk, IfOk};
ghost use Rattle.node_format.specs.Headers.{body_header};
ghost use Rattle.nodes.specs.Bodies as trees;
ghost use Rattle.nodes.specs.Bodies.{back, head_index, IsChain, IsLinked, IsBody};
ghost use Rattle.tree_edits.specs.Calls.{LooksAlong};
ghost use Rattle.tree_edits.specs.Reading as spec;
ghost use Rattle.tree_edits.specs.Reading.{nodes_between, HoldsBody};
ghost use Rattle.tree_edits.specs.Writing.{HoldsOld, ReadsKept};
ghost use Rattle.nodes.specs.Faults.{IsLookFault};
ghost use Rattle.nodes.specs.Words.{LooksWithin};

use crate::change::Change;
use crate::file_body::Body;
use crate::range_reads::{copy_part, find, pointer_at};
use fs_types::Fault;
use nodes::Nodes;
use std::alloc::Global;

/// The blocks of the nodes that hold a body's bytes from a place on, the last one first: one read for
/// each.
pub(crate) fn list_blocks<N: Nodes>(
    alloc: Global,
    nodes: &mut N,
    capacity: u32,
    body: Body,
    from: u32,
) -> Result<Vec<u32>, Fault>
    requires sound { N.is_sound nodes.old }
    requires holds { HoldsBody (N.limit nodes.old) (N.node nodes.old) capacity body }
    ensures listed { IfOk result (λ blocks. spec.AreBlocks (N.node nodes.old) body.head blocks.items) }
    ensures count { IfOk result (λ blocks. length blocks.items ≡ nodes_between capacity from body.length) }

    // One read for each, of a page, and nothing is written.
    ensures calls { LooksWithin N.Nodes IsLookFault (nodes_between capacity from body.length) nodes.old result nodes.new }
    ensures asks { spec.AsksPageEach N.asked N.reads nodes.old nodes.new }
{
    if from >= body.length {
        return Ok(Vec::new(alloc));
    }
    let count = (body.length - 1) / capacity + 1 - from / capacity;
    let mut blocks = Vec::with_capacity(alloc, count as usize)?;
    let mut block = body.head;
    blocks.push_reserved(block);
    for _step in 1..count {
        block = pointer_at(nodes, block, 0)?;
        blocks.push_reserved(block);
    }
    Ok(blocks)
}

/// The block of the node of an index: one of those listed, or found from the head.
fn find_listed<N: Nodes>(
    nodes: &mut N,
    head: u32,
    head_index: u32,
    blocks: &[u32],
    index: u32,
) -> Result<u32, Fault>
    // The chain from its head, with the blocks of its last nodes.
    requires sound { N.is_sound nodes.old }
    requires chain { IsChain (N.limit nodes.old - body_header) (N.node nodes.old) head_index head × IsLinked (N.node nodes.old) head_index head }
    requires before { index ≤ head_index }
    requires blocks { spec.AreBlocks (N.node nodes.old) head blocks.now }

    ensures found { IfOk result (λ block. block ≡ back (N.node nodes.old) head (head_index - index)) }

    // No read of a listed one, and no write.
    ensures listed { head_index - index < length blocks.now → N.reads nodes.new ≡ N.reads nodes.old }
    ensures calls { LooksAlong N.Nodes head_index (λ digits. 2 * digits) nodes.old result nodes.new }
    ensures asks { spec.AsksPageEach N.asked N.reads nodes.old nodes.new }
{
    match blocks.get((head_index - index) as usize) {
        Some(block) => Ok(*block),
        None => find(nodes, head, head_index, index),
    }
}

/// Fills a slice of zeros with those bytes of a body that a change whose bytes end at `end` keeps, from
/// the first byte of the node of an index on. The node is read where there is one, and then once, by the
/// pages that hold the bytes; it is not kept in memory, since its successor is written next.
/// `old` are the listed blocks of the body.
pub(crate) fn read_kept<N: Nodes>(
    nodes: &mut N,
    change: Change,
    end: u32,
    old: &[u32],
    index: u32,
    out: &mut [u8],
) -> Result<(), Fault>
    // The body, with the blocks of its last nodes.
    requires sound { N.is_sound nodes.old }
    requires old { HoldsOld (N.limit nodes.old) (N.node nodes.old) change old.now }

    // Room for no more than the node has.
    requires zeros { out.old ≡ replicate (length out.old) 0 }
    requires size { length out.old ≤ change.capacity }
    requires fits { index * change.capacity + length out.old ≤ change.size }

    ensures kept { OnOk result ((i : ℕ) → i < length out.old → (index * change.capacity + i < change.offset) ⊎ (end ≤ index * change.capacity + i) → slice_index out.new i ≡ slice_index (trees.body change.capacity (N.node nodes.old) change.body.head change.body.length) (index * change.capacity + i)) }

    // One read at most beside the way to the node, and no write.
    ensures reads { ReadsKept change end index (length out.old) (length old.now) (N.reads nodes.old) (N.reads nodes.new) }
    ensures calls { LooksAlong N.Nodes (head_index change.capacity change.body.length) (λ digits. 1 + 2 * digits) nodes.old result nodes.new }
{
    let start = index * change.capacity;
    let kept = change
        .body
        .length
        .saturating_sub(start)
        .min(out.len() as u32);
    if kept == 0 {
        return Ok(());
    }
    if change.offset <= start && start + kept <= end {
        return Ok(());
    }
    let block = find_listed(
        nodes,
        change.body.head,
        (change.body.length - 1) / change.capacity,
        old,
        index,
    )?;
    copy_part(nodes, block, 0, &mut out[..kept as usize])?;
    nodes.supersede(block);
    Ok(())
}
