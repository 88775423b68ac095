//! What the nodes of a changed body are written after: found by reads alone.
ghost use Rattle.std.specs.Prelude.{◌≡◌, ℕ, ◌+◌, ◌*◌, ◌≤◌, ◌^◌, IfOk};
ghost use Rattle.nodes.specs.Bodies.{head_index};
ghost use Rattle.tree_edits.specs.Calls.{LooksAlong};
ghost use Rattle.tree_edits.specs.Reading.{nodes_between, AsksPageEach, HoldsBody};
ghost use Rattle.tree_edits.specs.Writing as spec;

use crate::change::Change;
use crate::file_body::Body;
use crate::old_nodes::list_blocks;
use crate::range_reads::find;
use crate::slot_table::{Table, start_table};
use fs_types::Fault;
use nodes::Nodes;
use std::alloc::Global;

/// What the nodes of a changed body are written after: the index of the first of them, the head of
/// those before it, the table for it, and the listed blocks of the old body.
#[derive(Drop)]
pub(crate) struct Start {
    pub(crate) first: u32,
    pub(crate) head: u32,
    pub(crate) table: Table,
    pub(crate) old: Vec<u32>,
}

/// The head of a body's front of so many bytes, 0 of none.
pub(crate) fn find_front<N: Nodes>(
    nodes: &mut N,
    capacity: u32,
    body: Body,
    part: u32,
) -> Result<u32, Fault>
    // The body is whole, and has so many bytes.
    requires sound { N.is_sound nodes.old }
    requires holds { HoldsBody (N.limit nodes.old) (N.node nodes.old) capacity body }
    requires within { part ≤ body.length }

    ensures front { IfOk result (λ front. spec.IsBodyFront capacity (N.node nodes.old) body.head body.length front part) }

    // Two reads for each digit of the head's index, of a page each, and nothing is written.
    ensures calls { LooksAlong N.Nodes (head_index capacity body.length) (λ digits. 2 * digits) nodes.old result nodes.new }
    ensures asks { AsksPageEach N.asked N.reads nodes.old nodes.new }
{
    if part == 0 {
        return Ok(0);
    }
    let head_index = (body.length - 1) / capacity;
    let index = (part - 1) / capacity;
    find(nodes, body.head, head_index, index)
}

/// The start of a change whose bytes end at `end`: by pointers alone, which the first page of a node has.
pub(crate) fn start_at<N: Nodes>(
    alloc: Global,
    nodes: &mut N,
    change: Change,
    end: u32,
) -> Result<Start, Fault>
    requires sound { N.is_sound nodes.old }
    requires holds { HoldsBody (N.limit nodes.old) (N.node nodes.old) change.capacity change.body }

    // What is found, what it costs, and why it is refused; nothing is written.
    ensures start { IfOk result (spec.BeginsChange (N.node nodes.old) change end) }
    ensures calls { LooksAlong N.Nodes (head_index change.capacity change.body.length) (λ digits. nodes_between change.capacity end change.body.length + 3 * digits) nodes.old result nodes.new }
    ensures asks { AsksPageEach N.asked N.reads nodes.old nodes.new }
{
    let capacity = change.capacity;
    let first = change.offset.min(change.body.length) / capacity;
    let last = (change.size - 1) / capacity;
    let head = find_front(nodes, capacity, change.body, first * capacity)?;
    let table = start_table(nodes, head, first, last)?;
    let old = list_blocks(alloc, nodes, capacity, change.body, end)?;
    Ok(Start {
        first,
        head,
        table,
        old,
    })
}
