//! Reading the bytes of a file.
ghost use Rattle.std.specs.Prelude.{◌≡◌, ◌≢◌, ℕ, ◌+◌, ◌-◌, ◌*◌, ◌/◌, ◌%◌, ◌^◌, ◌<◌, ◌≤◌, length, min, take, drop, true, false, Some, OnOk, IfOk};
ghost use Rattle.std.specs.Option.{option_map, ForSome};
ghost use Rattle.plain_trees.specs.Contents.{read_from};
ghost use Rattle.node_format.specs.Headers.{body_header};
ghost use Rattle.node_format.specs.BodyNodes.{HasSlot};
ghost use Rattle.nodes.specs.Bodies.{Blocks, index_of, pointer_of, data_of, back, data_to, head_index, IsChain, IsLinked, IsBody};
ghost use Rattle.nodes.specs.Bodies as trees;
ghost use Rattle.tree_edits.specs.Calls.{LooksAlong};
ghost use Rattle.tree_edits.specs.Reading as spec;
ghost use Rattle.nodes.specs.Faults.{IsLookFault};
ghost use Rattle.nodes.specs.Words.{LooksWithin};
ghost use Rattle.nodes.specs.PageCounts.{pages_for, pages_of_range};

use crate::file_body::Body;
use crate::known_node::KnownNode;
use fields::u32_at;
use fs_types::{Bytes, Fault};
use node_format::{BODY_HEADER, BodyNode, SLOTS};
use nodes::Nodes;
use std::alloc::Global;

/// The fewest bytes that are taken for the beginning of a scan where they begin with a node's first byte.
pub const LEAST_SCAN: u32 = 512;

/// The farthest slot that leads from an index to one before it, or to one between.
fn farthest_slot(index: u32, before: u32) -> u32
    requires { before < index }
    ensures { spec.IsLargest result index before }
{
    let slot = index.trailing_zeros().min((index - before).ilog2());
    slot.min(SLOTS as u32 - 1)
}

/// The block that a slot of a body node names, of a slot that it has: its first page tells it.
pub(crate) fn pointer_at<N: Nodes>(nodes: &mut N, block: u32, slot: u32) -> Result<u32, Fault>
    requires sound { N.is_sound nodes.old }
    requires slot { (index : ℕ) × (index_of (N.node nodes.old block) ≡ Some index) × HasSlot index slot }

    // The pointer, by one read, of a page.
    ensures found { IfOk result (λ next. next ≡ pointer_of (N.node nodes.old block) slot) }
    ensures calls { LooksWithin N.Nodes IsLookFault 1 nodes.old result nodes.new }
    ensures reads { N.reads nodes.new ≡ N.reads nodes.old + 1 }
    ensures asks { spec.AsksPageEach N.asked N.reads nodes.old nodes.new }
    ensures partly { N.partly nodes.new ≡ N.partly nodes.old }
{
    nodes.front(block)?;
    Ok(u32_at(nodes.fronted(), 16 + 4 * slot as usize))
}

/// The block of the node of an index, from the head of a linked chain: one read of a page for each hop,
/// at most two hops for each binary digit of the head's index, of at most 16 digits.
///
/// Refused only with what reads are refused with: the chain is whole.
pub(crate) fn find<N: Nodes>(
    nodes: &mut N,
    head: u32,
    head_index: u32,
    index: u32,
) -> Result<u32, Fault>
    // The chain from its head.
    requires sound { N.is_sound nodes.old }
    requires chain { IsChain (N.limit nodes.old - body_header) (N.node nodes.old) head_index head }
    requires linked { IsLinked (N.node nodes.old) head_index head }
    requires before { index ≤ head_index }

    ensures found { IfOk result (λ block. block ≡ back (N.node nodes.old) head (head_index - index)) }

    // Two reads for each digit of the head's index, of a page each, and nothing is written.
    ensures calls { LooksAlong N.Nodes head_index (λ digits. 2 * digits) nodes.old result nodes.new }
    ensures asks { spec.AsksPageEach N.asked N.reads nodes.old nodes.new }
    ensures partly { N.partly nodes.new ≡ N.partly nodes.old }
    ensures unread { head_index ≡ index → N.reads nodes.new ≡ N.reads nodes.old }
{
    let mut block = head;
    let mut at = head_index;
    while at > index {
        let slot = farthest_slot(at, index);
        block = pointer_at(nodes, block, slot)?;
        at -= 2u32.pow(slot);
    }
    Ok(block)
}

/// Fills a slice with the data of a body node from a place on. Answers the block of the node before it,
/// or 0 where it is the first.
pub(crate) fn copy_data<N: Nodes>(
    nodes: &mut N,
    block: u32,
    from: u32,
    out: &mut [u8],
) -> Result<u32, Fault>
    // The block holds a body node with so many bytes.
    requires sound { N.is_sound nodes.old }
    requires node { (index : ℕ) × (index_of (N.node nodes.old block) ≡ Some index) }
    requires within { from + length out.old ≤ length (data_of (N.node nodes.old block)) }

    // Its bytes, and the block before it.
    ensures copied { OnOk result (out.new ≡ take (length out.old) (drop from (data_of (N.node nodes.old block)))) }
    ensures before { IfOk result (λ before. (index : ℕ) → index_of (N.node nodes.old block) ≡ Some index → 0 < index → before ≡ pointer_of (N.node nodes.old block) 0) }
    ensures first { IfOk result (λ before. index_of (N.node nodes.old block) ≡ Some 0 → before ≡ 0) }

    // One read, of a block's pages at most, and nothing is written.
    ensures calls { LooksWithin N.Nodes IsLookFault 1 nodes.old result nodes.new }
    ensures reads { N.reads nodes.new ≡ N.reads nodes.old + 1 }
    ensures asks { N.asked nodes.new ≤ N.asked nodes.old + pages_for (N.page nodes.old) (N.limit nodes.old) }
{
    nodes.read(block)?;
    let Some(node) = BodyNode::of(nodes.lent()) else {
        unreachable!()
    };
    let from = from as usize;
    out.copy_from_slice(&node.bytes()[from..from + out.len()]);
    Ok(node.pointer(0).unwrap_or(0))
}

/// Fills a slice with the data of a body node from a place on, by the pages that hold it.
pub(crate) fn copy_part<N: Nodes>(
    nodes: &mut N,
    block: u32,
    from: u32,
    out: &mut [u8],
) -> Result<(), Fault>
    // The block holds a body node with so many bytes.
    requires sound { N.is_sound nodes.old }
    requires node { (index : ℕ) × (index_of (N.node nodes.old block) ≡ Some index) }
    requires within { from + length out.old ≤ length (data_of (N.node nodes.old block)) }

    ensures copied { OnOk result (out.new ≡ take (length out.old) (drop from (data_of (N.node nodes.old block)))) }

    // One read, of the pages that hold the data unless a part of the node was read last, and nothing is written.
    ensures calls { LooksWithin N.Nodes IsLookFault 1 nodes.old result nodes.new }
    ensures reads { N.reads nodes.new ≡ N.reads nodes.old + 1 }
    ensures asks { N.partly nodes.old ≢ block → N.asked nodes.new ≤ N.asked nodes.old + pages_of_range (N.page nodes.old) (body_header + from) (length out.old) }
    ensures asks_most { N.asked nodes.new ≤ N.asked nodes.old + pages_for (N.page nodes.old) (N.limit nodes.old) }
{
    // No block has more bytes than its contract tells, so no node has.
    let _ = nodes.block_bytes();
    nodes.read_at(block, BODY_HEADER + from, out)
}

/// Fills a slice with the data of a body node from a place on. A node that is wanted `whole` is read so,
/// and the block of the node before it answered; of another one only the pages that hold the data are.
fn copy_piece<N: Nodes>(
    nodes: &mut N,
    block: u32,
    from: u32,
    whole: bool,
    out: &mut [u8],
) -> Result<u32, Fault>
    // The block holds a body node with so many bytes.
    requires sound { N.is_sound nodes.old }
    requires node { (index : ℕ) × (index_of (N.node nodes.old block) ≡ Some index) }
    requires within { from + length out.old ≤ length (data_of (N.node nodes.old block)) }

    // Its bytes, and the block before it.
    ensures copied { OnOk result (out.new ≡ take (length out.old) (drop from (data_of (N.node nodes.old block)))) }
    ensures before { IfOk result (λ before. whole ≡ true → (index : ℕ) → index_of (N.node nodes.old block) ≡ Some index → 0 < index → before ≡ pointer_of (N.node nodes.old block) 0) }

    // One read, of the pages that hold the data or of a block's, and nothing is written.
    ensures calls { LooksWithin N.Nodes IsLookFault 1 nodes.old result nodes.new }
    ensures reads { N.reads nodes.new ≡ N.reads nodes.old + 1 }
    ensures asks { N.asked nodes.new ≤ N.asked nodes.old + pages_for (N.page nodes.old) (N.limit nodes.old) }
    ensures asks_part { whole ≡ false → N.partly nodes.old ≢ block → N.asked nodes.new ≤ N.asked nodes.old + pages_of_range (N.page nodes.old) (body_header + from) (length out.old) }
{
    if whole {
        return copy_data(nodes, block, from, out);
    }
    copy_part(nodes, block, from, out)?;
    Ok(0)
}

/// Fills a slice with the bytes from `start` to `end` of a chain, whose node of the last of them is in
/// the block. The nodes are read from the last one back, each once. Of the first of them only the pages
/// that hold the bytes are read, unless it is wanted `whole`.
fn fill<N: Nodes>(
    nodes: &mut N,
    capacity: u32,
    block: u32,
    start: u32,
    end: u32,
    whole: bool,
    out: &mut [u8],
) -> Result<(), Fault>
    // The chain from the block has the bytes.
    requires sound { N.is_sound nodes.old }
    requires capacity { 0 < capacity }
    requires range { spec.HoldsRange capacity (N.node nodes.old) start end block }
    requires size { length out.old ≡ end - start }

    ensures filled { OnOk result (out.new ≡ take (end - start) (drop start (data_to (N.node nodes.old) ((end - 1) / capacity) block))) }

    // One read for each node that holds them, of a block's pages at most, and nothing is written.
    ensures calls { LooksWithin N.Nodes IsLookFault (spec.nodes_between capacity start end) nodes.old result nodes.new }
    ensures asks { N.asked nodes.new ≤ N.asked nodes.old + spec.nodes_between capacity start end * pages_for (N.page nodes.old) (N.limit nodes.old) }
    ensures asks_part { whole ≡ false → start / capacity ≡ (end - 1) / capacity → N.partly nodes.old ≢ block → N.asked nodes.new ≤ N.asked nodes.old + pages_of_range (N.page nodes.old) (body_header + start % capacity) (end - start) }
{
    let mut block = block;
    let mut end = end;
    while start < end {
        let first = (end - 1) / capacity * capacity;
        let from = start.max(first);
        let part = &mut out[(from - start) as usize..(end - start) as usize];
        let wanted = whole || start < first;
        block = copy_piece(nodes, block, from - first, wanted, part)?;
        end = from;
    }
    Ok(())
}

/// The data bytes of a full node.
pub(crate) fn capacity_in<N: Nodes>(nodes: &N) -> u32
    requires { N.is_sound nodes.now }
    ensures capacity { result ≡ N.limit nodes.now - body_header }
    ensures some { 0 < result }
{
    nodes.block_bytes() - BODY_HEADER
}

/// The node to look from for that of an index: a known one that is not before it, else the last of the body.
fn node_from(capacity: u32, body: Body, known: Option<KnownNode>, index: u32) -> KnownNode
    requires capacity { 0 < capacity }
    requires some { 0 < body.length }
    requires before { index ≤ head_index capacity body.length }
    ensures node { (f : Blocks) → ForSome known (spec.IsNodeOf capacity f body) → spec.IsNodeOf capacity f body result }
    ensures before { index ≤ result.index }
    ensures known { option_map (λ node. node.index) known ≡ Some index → result.index ≡ index }
{
    match known {
        Some(node) if node.index >= index => node,
        _ => KnownNode {
            index: (body.length - 1) / capacity,
            block: body.head,
        },
    }
}

/// The block of the node of an index, from a known node that is not before it, else from the head: a known
/// node of this index is not read.
///
/// Refused only with what reads are refused with: the body is whole.
fn find_from<N: Nodes>(
    nodes: &mut N,
    capacity: u32,
    body: Body,
    known: Option<KnownNode>,
    index: u32,
) -> Result<u32, Fault>
    requires sound { N.is_sound nodes.old }
    requires holds { spec.HoldsBody (N.limit nodes.old) (N.node nodes.old) capacity body }
    requires known { ForSome known (spec.IsNodeOf capacity (N.node nodes.old) body) }
    requires some { 0 < body.length }
    requires before { index ≤ head_index capacity body.length }

    ensures found { IfOk result (λ block. block ≡ back (N.node nodes.old) body.head (head_index capacity body.length - index)) }

    // Two reads for each digit of the head's index, of a page each, and nothing is written.
    ensures calls { LooksAlong N.Nodes (head_index capacity body.length) (λ digits. 2 * digits) nodes.old result nodes.new }
    ensures asks { spec.AsksPageEach N.asked N.reads nodes.old nodes.new }
    ensures partly { N.partly nodes.new ≡ N.partly nodes.old }
    ensures unread { option_map (λ node. node.index) known ≡ Some index → N.reads nodes.new ≡ N.reads nodes.old }
{
    let node = node_from(capacity, body, known, index);
    find(nodes, node.block, node.index, index)
}

/// The bytes of a file from an offset on, at most `count`: fewer near its end, none at or past it. A node of
/// it may be known; the node of the last of the bytes is answered, or that, where none is read.
///
/// The node of the last of them is found by few hops of a page each, from the known node where that is not
/// before it, else from the head, and the nodes that hold them are read once each: no more pages are asked
/// than a block has. Of the first of them only the pages that hold the bytes are asked, unless a part of it
/// was read last, or the bytes begin with its first one and are [`LEAST_SCAN`] or more or the last of the
/// file: then more of it is likely to be read next, or all of it is wanted. Nothing is read where there is no
/// such byte. Refused only with what reads are refused with, and with `NoMemory`: the body is whole.
pub fn read_range<N: Nodes>(
    alloc: Global,
    nodes: &mut N,
    body: Body,
    known: Option<KnownNode>,
    offset: u64,
    count: u64,
) -> Result<(Bytes, Option<KnownNode>), Fault>
    requires sound { N.is_sound nodes.old }
    requires body { IsBody (N.limit nodes.old - body_header) (N.node nodes.old) body.head body.length }
    requires known { ForSome known (spec.IsNodeOf (N.limit nodes.old - body_header) (N.node nodes.old) body) }

    ensures read { IfOk result (λ r. r.0 ≡ read_from (trees.body (N.limit nodes.old - body_header) (N.node nodes.old) body.head body.length) offset count) }
    ensures known { IfOk result (λ r. ForSome r.1 (spec.IsNodeOf (N.limit nodes.old - body_header) (N.node nodes.old) body)) }

    // What it costs, and why it is refused; nothing is written.
    ensures calls { LooksAlong N.Nodes (head_index (N.limit nodes.old - body_header) body.length) (λ digits. spec.nodes_of_range (N.limit nodes.old - body_header) body.length offset count + 2 * digits) nodes.old result nodes.new }
    ensures asks { (digits : ℕ) → spec.HasDigits (head_index (N.limit nodes.old - body_header) body.length) digits → N.asked nodes.new ≤ N.asked nodes.old + (spec.nodes_of_range (N.limit nodes.old - body_header) body.length offset count * pages_for (N.page nodes.old) (N.limit nodes.old) + 2 * digits) }
    ensures asks_part { (digits : ℕ) → spec.HasDigits (head_index (N.limit nodes.old - body_header) body.length) digits → spec.IsPartOfNode (N.limit nodes.old - body_header) body.length offset count → N.partly nodes.old ≢ spec.block_of_byte (N.node nodes.old) (N.limit nodes.old - body_header) body offset → N.asked nodes.new ≤ N.asked nodes.old + (pages_of_range (N.page nodes.old) (body_header + offset % (N.limit nodes.old - body_header)) (min body.length (offset + count) - offset) + 2 * digits) }
    ensures at_hand { spec.IsAtHand (N.limit nodes.old - body_header) body.length known offset count → N.reads nodes.new ≤ N.reads nodes.old + spec.nodes_of_range (N.limit nodes.old - body_header) body.length offset count }
    ensures unread { spec.nodes_of_range (N.limit nodes.old - body_header) body.length offset count ≡ 0 → N.reads nodes.new ≡ N.reads nodes.old }
{
    let end = offset.saturating_add(count).min(u64::from(body.length));
    if offset >= end {
        return Ok((Bytes::new(alloc), known));
    }
    let (start, end) = (offset as u32, end as u32);
    let capacity = capacity_in(nodes);
    let mut bytes = vec![in alloc; 0; (end - start) as usize]?;
    let index = (end - 1) / capacity;
    let block = find_from(nodes, capacity, body, known, index)?;
    let whole = start % capacity == 0 && (end - start >= LEAST_SCAN || end == body.length);
    fill(nodes, capacity, block, start, end, whole, &mut bytes)?;
    let last = KnownNode { index, block };
    Ok((Bytes::from_vec(bytes), Some(last)))
}
