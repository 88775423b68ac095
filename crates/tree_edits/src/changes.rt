//! Bodies with other bytes, or of another length: the nodes from the first that differs on are written
//! anew, and those before it are shared.
ghost use Rattle.std.specs.Prelude.{ℕ, ◌+◌, ◌-◌, ◌*◌, ◌^◌, ◌<◌, ◌≤◌, min, max, length, IfOk};
ghost use Rattle.node_format.specs.Headers.{body_header};
ghost use Rattle.plain_trees.specs.Contents.{nodes_from, pwrite_need, ftruncate_need, resized, overwritten};
ghost use Rattle.nodes.specs.Bodies as bodies;
ghost use Rattle.nodes.specs.Bodies.{head_index};
ghost use Rattle.tree_edits.specs.Calls.{WorksAlong};
ghost use Rattle.tree_edits.specs.Reading.{nodes_between, HoldsBody};
ghost use Rattle.tree_edits.specs.Writing as spec;
ghost use Rattle.nodes.specs.Words.{Keeps};
ghost use Rattle.fs_types.specs.declared.limits.TheConstants.{MAX_FILE_BYTES};

use crate::body_start::{Start, find_front, start_at};
use crate::change::Change;
use crate::changed_nodes::write_node;
use crate::file_body::Body;
use fs_types::Fault;
use node_format::BODY_HEADER;
use nodes::Nodes;
use std::alloc::Global;

/// Writes the nodes of a changed body from its start on, in ascending order.
fn write_nodes<N: Nodes>(
    alloc: Global,
    nodes: &mut N,
    change: Change,
    bytes: &[u8],
    start: Start,
) -> Result<Body, Fault>
    // The old body, the change, and its start.
    requires sound { N.is_sound nodes.old }
    requires holds { HoldsBody (N.limit nodes.old) (N.node nodes.old) change.capacity change.body }
    requires stored { spec.IsStored change.capacity (N.node nodes.old) (N.kept nodes.old) change.body.head change.body.length }
    requires written { change.offset + length bytes.now ≤ MAX_FILE_BYTES }
    requires start { spec.BeginsChange (N.node nodes.old) change (change.offset + length bytes.now) start }

    ensures written { IfOk result (λ new. spec.IsWritten change.capacity (N.node nodes.new) (N.kept nodes.new) new (spec.bytes_after (N.node nodes.old) change bytes.now)) }
    ensures reaches { IfOk result (λ new. spec.BodyOnlyReaches change.capacity (N.node nodes.old) (N.node nodes.new) (N.kept nodes.old) change.body new) }

    // One read for each old node of which bytes after the written ones stay, and the way to the first.
    ensures calls { WorksAlong N.Nodes (head_index change.capacity change.body.length) (λ digits. nodes_between change.capacity (change.offset + length bytes.now) change.body.length + (1 + 2 * digits)) (nodes_from change.capacity (min change.offset change.body.length) change.size) nodes.old result nodes.new }
{
    let Start {
        first,
        head,
        table,
        old,
    } = start;
    let mut head = head;
    let mut table = table;
    let last = (change.size - 1) / change.capacity;
    for index in first..last + 1 {
        head = write_node(
            alloc,
            nodes,
            change,
            bytes,
            old.as_slice(),
            &mut table,
            head,
            index,
        )?;
    }
    Ok(Body {
        head,
        length: change.size,
    })
}

/// The body with these bytes from `offset` on, and zeros between its end and `size` where there are
/// none: the nodes from the first that changes on are written, in one pass over the old ones.
fn change_body<N: Nodes>(
    alloc: Global,
    nodes: &mut N,
    body: Body,
    offset: u32,
    bytes: &[u8],
    size: u32,
) -> Result<Body, Fault>
    requires sound { N.is_sound nodes.old }
    requires stored { spec.IsStored (N.limit nodes.old - body_header) (N.node nodes.old) (N.kept nodes.old) body.head body.length }

    // It grows, or a byte of it changes.
    requires most { max size (offset + length bytes.now) ≤ MAX_FILE_BYTES }
    requires longer { body.length ≤ size }
    requires changed { min offset body.length < size }

    ensures written { IfOk result (λ new. spec.IsWritten (N.limit nodes.old - body_header) (N.node nodes.new) (N.kept nodes.new) new (spec.edited (bodies.body (N.limit nodes.old - body_header) (N.node nodes.old) body.head body.length) offset bytes.now size)) }
    ensures reaches { IfOk result (λ new. spec.BodyOnlyReaches (N.limit nodes.old - body_header) (N.node nodes.old) (N.node nodes.new) (N.kept nodes.old) body new) }

    // Two reads for each old node of which bytes after the written ones stay, and a few for the first.
    ensures calls { WorksAlong N.Nodes (head_index (N.limit nodes.old - body_header) body.length) (λ digits. 2 * nodes_between (N.limit nodes.old - body_header) (offset + length bytes.now) body.length + (1 + 5 * digits)) (nodes_from (N.limit nodes.old - body_header) (min offset body.length) size) nodes.old result nodes.new }
{
    let capacity = nodes.block_bytes() - BODY_HEADER;
    let change = Change {
        capacity,
        body,
        offset,
        size,
    };
    let start = start_at(alloc, nodes, change, offset + bytes.len() as u32)?;
    write_nodes(alloc, nodes, change, bytes, start)
}

/// The body with these bytes, at least one, from `offset` on; what lies between its end and there is
/// zeros. The nodes from the first that changes to the last are written, and those before it are
/// shared. The old body stays as it was, whatever is answered.
///
/// Each old node that holds a byte after the written ones is read twice, once to list it and once for
/// its bytes, and no node that is overwritten whole; beside them there are at most five reads for each
/// binary digit of the head's index, and one.
///
/// Refused with what reads and writes are refused with, but never with `Damaged`: the body is whole.
pub fn write_range<N: Nodes>(
    alloc: Global,
    nodes: &mut N,
    body: Body,
    offset: u32,
    bytes: &[u8],
) -> Result<Body, Fault>
    // The old body, and the bytes.
    requires sound { N.is_sound nodes.old }
    requires stored { spec.IsStored (N.limit nodes.old - body_header) (N.node nodes.old) (N.kept nodes.old) body.head body.length }
    requires range { spec.IsFileRange offset (length bytes.now) }
    requires length { body.length ≤ MAX_FILE_BYTES }

    // The new body, beside the old one.
    ensures written { IfOk result (λ new. spec.IsWritten (N.limit nodes.old - body_header) (N.node nodes.new) (N.kept nodes.new) new (overwritten (bodies.body (N.limit nodes.old - body_header) (N.node nodes.old) body.head body.length) offset bytes.now)) }
    ensures reaches { IfOk result (λ new. spec.BodyOnlyReaches (N.limit nodes.old - body_header) (N.node nodes.old) (N.node nodes.new) (N.kept nodes.old) body new) }
    ensures keeps { Keeps N.Nodes nodes.old nodes.new }

    // What it costs, and why it is refused.
    ensures calls { WorksAlong N.Nodes (head_index (N.limit nodes.old - body_header) body.length) (λ digits. 2 * nodes_between (N.limit nodes.old - body_header) (offset + length bytes.now) body.length + (1 + 5 * digits)) (pwrite_need (N.limit nodes.old - body_header) body.length offset (length bytes.now)) nodes.old result nodes.new }
{
    let end = offset + bytes.len() as u32;
    change_body(alloc, nodes, body, offset, bytes, body.length.max(end))
}

/// The body cut to a length, or with zeros up to it. A length that is not greater writes no node: the
/// node that held its last byte is the new head, and 0 is the head of no bytes. For a greater one the
/// nodes from the first that changes on are written. The old body stays as it was, whatever is answered.
/// At most five reads for each binary digit of the head's index, and one; for a length that is not
/// greater each read asks for one page at most.
///
/// Refused with what reads and writes are refused with, but never with `Damaged`: the body is whole.
pub fn set_length<N: Nodes>(
    alloc: Global,
    nodes: &mut N,
    body: Body,
    length: u32,
) -> Result<Body, Fault>
    requires sound { N.is_sound nodes.old }
    requires stored { spec.IsStored (N.limit nodes.old - body_header) (N.node nodes.old) (N.kept nodes.old) body.head body.length }
    requires most { length ≤ MAX_FILE_BYTES }

    // The new body, beside the old one.
    ensures written { IfOk result (λ new. spec.IsWritten (N.limit nodes.old - body_header) (N.node nodes.new) (N.kept nodes.new) new (resized (bodies.body (N.limit nodes.old - body_header) (N.node nodes.old) body.head body.length) length)) }
    ensures reaches { IfOk result (λ new. spec.BodyOnlyReaches (N.limit nodes.old - body_header) (N.node nodes.old) (N.node nodes.new) (N.kept nodes.old) body new) }
    ensures keeps { Keeps N.Nodes nodes.old nodes.new }

    // What it costs, and why it is refused.
    ensures calls { WorksAlong N.Nodes (head_index (N.limit nodes.old - body_header) body.length) (λ digits. 1 + 5 * digits) (ftruncate_need (N.limit nodes.old - body_header) body.length length) nodes.old result nodes.new }
{
    if length > body.length {
        return change_body(alloc, nodes, body, body.length, &[], length);
    }
    let capacity = nodes.block_bytes() - BODY_HEADER;
    let head = find_front(nodes, capacity, body, length)?;
    Ok(Body { head, length })
}
