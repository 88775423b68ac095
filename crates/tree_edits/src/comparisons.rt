//! Whether a file has certain bytes: its pages are read one after the other, and none of them is kept.
ghost use Rattle.std.specs.Prelude.{◌≡◌, ℕ, ◌+◌, ◌-◌, ◌*◌, ◌≤◌, ◌<◌, length, take, drop, Some, OnOk, IfOk};
ghost use Rattle.node_format.specs.Headers.{body_header};
ghost use Rattle.plain_trees.specs.Contents.{same_bytes};
ghost use Rattle.nodes.specs.Bodies as trees;
ghost use Rattle.nodes.specs.Bodies.{index_of, data_of, head_index, IsBody};
ghost use Rattle.nodes.specs.Faults.{IsLookFault};
ghost use Rattle.nodes.specs.Words.{LooksWithin};
ghost use Rattle.nodes.specs.PageCounts.{pages_for, pages_of_range};
ghost use Rattle.tree_edits.specs.Calls.{LooksAlong};
ghost use Rattle.tree_edits.specs.Reading.{AsksPageEach, HoldsBody};

use crate::file_body::Body;
use crate::range_reads::{capacity_in, find};
use fs_types::Fault;
use node_format::BODY_HEADER;
use nodes::Peeks;
use std::alloc::Global;

/// Whether two slices have the same bytes.
fn are_same(these: &[u8], those: &[u8]) -> bool
    ensures { result ≡ same_bytes these.now those.now }
{
    these == those
}

/// Fills a slice with the data of a body node from a place on, by the pages that hold it. Nothing of the
/// node enters memory.
fn peek_data<N: Peeks>(nodes: &mut N, block: u32, from: u32, out: &mut [u8]) -> Result<(), Fault>
    // The block holds a body node with so many bytes.
    requires sound { N.is_sound nodes.old }
    requires node { (index : ℕ) × (index_of (N.node nodes.old block) ≡ Some index) }
    requires within { from + length out.old ≤ length (data_of (N.node nodes.old block)) }

    ensures copied { OnOk result (out.new ≡ take (length out.old) (drop from (data_of (N.node nodes.old block)))) }

    // One read, of the pages that hold the data, and nothing is written.
    ensures calls { LooksWithin N.Nodes IsLookFault 1 nodes.old result nodes.new }
    ensures reads { N.reads nodes.new ≡ N.reads nodes.old + 1 }
    ensures asks { N.asked nodes.new ≤ N.asked nodes.old + pages_of_range (N.page nodes.old) (body_header + from) (length out.old) }
{
    // No block has more bytes than its contract tells, so no node has.
    let _ = nodes.block_bytes();
    nodes.peek_at(block, BODY_HEADER + from, out)
}

/// Whether the data of a body node begins with these bytes. Its pages are read one after the other, up to
/// the first one that has another byte, into a room of a page.
fn has_data<N: Peeks>(
    nodes: &mut N,
    block: u32,
    bytes: &[u8],
    room: &mut [u8],
) -> Result<bool, Fault>
    // The block holds a body node with so many bytes.
    requires sound { N.is_sound nodes.old }
    requires node { (index : ℕ) × (index_of (N.node nodes.old block) ≡ Some index) }
    requires within { length bytes.now ≤ length (data_of (N.node nodes.old block)) }
    requires room { length room.old ≡ N.page nodes.old }

    ensures same { IfOk result (λ same. same ≡ same_bytes (take (length bytes.now) (data_of (N.node nodes.old block))) bytes.now) }

    // One read for each page that holds the bytes at most, and of it alone; nothing is written.
    ensures calls { LooksWithin N.Nodes IsLookFault (pages_for (N.page nodes.old) (body_header + length bytes.now)) nodes.old result nodes.new }
    ensures asks { AsksPageEach N.asked N.reads nodes.old nodes.new }
{
    let header = BODY_HEADER as usize;
    // No block has more bytes than its contract tells, so no node has.
    let _ = nodes.block_bytes();
    let size = room.len();
    for place in 0..(header + bytes.len()).div_ceil(size) {
        let from = (place * size).saturating_sub(header);
        let to = (place * size + size - header).min(bytes.len());
        let piece = &mut room[..to - from];
        peek_data(nodes, block, from as u32, piece)?;
        if !are_same(piece, &bytes[from..to]) {
            return Ok(false);
        }
    }
    Ok(true)
}

/// Whether a body has exactly these bytes, of which there are as many. The pages of its nodes are read one
/// after the other, up to the first one that has another byte, and none of them is kept: this wants memory
/// for a page. Beside them there are two reads at most, of a page each, for each node and each binary digit
/// of the head's index.
///
/// Refused only with what reads are refused with, and with `NoMemory`: the body is whole.
pub fn has_bytes<N: Peeks>(
    alloc: Global,
    nodes: &mut N,
    body: Body,
    bytes: &[u8],
) -> Result<bool, Fault>
    requires sound { N.is_sound nodes.old }
    requires body { IsBody (N.limit nodes.old - body_header) (N.node nodes.old) body.head body.length }
    requires counted { length bytes.now ≡ body.length }

    ensures same { IfOk result (λ same. same ≡ same_bytes (trees.body (N.limit nodes.old - body_header) (N.node nodes.old) body.head body.length) bytes.now) }

    // What it costs, and why it is refused; nothing is written.
    ensures calls { LooksAlong N.Nodes (head_index (N.limit nodes.old - body_header) body.length) (λ digits. (head_index (N.limit nodes.old - body_header) body.length + 1) * (pages_for (N.page nodes.old) (N.limit nodes.old) + 2 * digits)) nodes.old result nodes.new }
    ensures asks { AsksPageEach N.asked N.reads nodes.old nodes.new }
{
    if body.length == 0 {
        return Ok(true);
    }
    let capacity = capacity_in(nodes);
    let mut room = vec![in alloc; 0; nodes.page_bytes() as usize]?;
    has_all(nodes, capacity, body, bytes, &mut room)
}

/// The same of a body with a node, whose nodes have so many data bytes, by a room of a page.
fn has_all<N: Peeks>(
    nodes: &mut N,
    capacity: u32,
    body: Body,
    bytes: &[u8],
    room: &mut [u8],
) -> Result<bool, Fault>
    requires sound { N.is_sound nodes.old }
    requires holds { HoldsBody (N.limit nodes.old) (N.node nodes.old) capacity body }
    requires some { 0 < body.length }
    requires counted { length bytes.now ≡ body.length }
    requires room { length room.old ≡ N.page nodes.old }

    ensures same { IfOk result (λ same. same ≡ same_bytes (trees.body capacity (N.node nodes.old) body.head body.length) bytes.now) }

    // For each node the way to it, and its pages; nothing is written.
    ensures calls { LooksAlong N.Nodes (head_index capacity body.length) (λ digits. (head_index capacity body.length + 1) * (pages_for (N.page nodes.old) (N.limit nodes.old) + 2 * digits)) nodes.old result nodes.new }
    ensures asks { AsksPageEach N.asked N.reads nodes.old nodes.new }
{
    let last = (body.length - 1) / capacity;
    for index in 0..last + 1 {
        let block = find(nodes, body.head, last, index)?;
        let start = index * capacity;
        let count = capacity.min(body.length - start);
        let part = &bytes[start as usize..(start + count) as usize];
        let same = has_data(nodes, block, part, room)?;
        if !same {
            return Ok(false);
        }
    }
    Ok(true)
}
