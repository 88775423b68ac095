//! The nodes of a directory, one after the other.
ghost use Rattle.std.specs.Prelude.{◌≡◌, ◌≢◌, ℕ, ◌+◌, ◌≤◌, true, [], List, length, Some, IfOk, IfErr};
ghost use Rattle.std.specs.Option.{option_map};
ghost use Rattle.node_format.specs.Links.{Link, link_at};
ghost use Rattle.nodes.specs.Chains.{link_of};
ghost use Rattle.nodes.specs.Parts.{IsFront};
ghost use Rattle.nodes.specs.Faults.{IsLookFault};
ghost use Rattle.nodes.specs.Words.{LooksWithin};
ghost use Rattle.reclaim.specs.Looks as spec;
ghost use Rattle.fs_types.specs.declared.limits.TheConstants.{MAX_NAME_BYTES};

use crate::fronts::brings_front;
use arrayvec::ArrayVec;
use fs_types::{Fault, MAX_NAME_BYTES};
use node_format::{Entries, EntryList, first_name};
use nodes::Nodes;

/// What a node of a directory says to the node after it: its last name, none where it has no entry,
/// and the block of that node, 0 where none comes.
#[derive(Drop)]
pub struct Edge {
    pub last: ArrayVec<u8, MAX_NAME_BYTES>,
    pub next: u32,
}

fn copy_name(name: &[u8]) -> ArrayVec<u8, MAX_NAME_BYTES>
    requires { length name.now ≤ MAX_NAME_BYTES }
    ensures { result.items ≡ name.now }
{
    let mut out = ArrayVec::new();
    for byte in name {
        out.push(*byte);
    }
    out
}

/// The last name of entries; none where there are none.
fn last_name(entries: EntryList<'_>) -> ArrayVec<u8, MAX_NAME_BYTES>
    ensures { result.items ≡ spec.last_name [] entries.entry }
{
    let mut last: &[u8] = &[];
    for entry in entries {
        last = entry.name();
    }
    copy_name(last)
}

/// What the node of some bytes says to the node after it; None where it is no node of a directory.
pub fn edge_in(bytes: &[u8]) -> Option<Edge>
    ensures { option_map (λ e. (e.last.items, e.next)) result ≡ spec.edge_at (Some bytes.now) }
{
    let node = Entries::of(bytes)?;
    Some(Edge {
        last: last_name(node.list()),
        next: node.next(),
    })
}

/// The block of the node after the one that says this; None where that is no node of a directory.
pub fn next_in(edge: &Option<Edge>) -> Option<u32>
    ensures { result ≡ option_map (λ e. e.next) edge.now }
{
    match edge {
        Some(edge) => Some(edge.next),
        None => None,
    }
}

/// Whether the node of some bytes is one of a chain.
pub fn is_chained(bytes: &[u8]) -> bool
    ensures { result ≡ spec.is_chained (Some bytes.now) }
{
    let Some(node) = Entries::of(bytes) else {
        return false;
    };
    node.is_chained()
}

/// Whether the node of a directory that begins so may come after one with this last name.
fn comes_after(front: &[u8], name: &[u8]) -> bool
    ensures { (page : ℕ) (bytes : List ℕ) (l : Link) → 256 ≤ page → IsFront page front.now bytes → link_at bytes ≡ Some l → result ≡ spec.may_follow name.now (Some l) }
{
    let Some(first) = first_name(front) else {
        return false;
    };
    name.cmp(first).is_lt()
}

/// Whether the node that one says comes after it may do so, where it is one of a directory; true where
/// none comes. Its first page tells.
pub fn may_go_on<N: Nodes>(nodes: &mut N, edge: &Edge) -> Result<bool, Fault>
    requires { N.is_sound nodes.old }
    ensures exact { IfOk result (λ good. (edge.now.next ≢ 0 → (l : Link) → link_of (N.node nodes.old edge.now.next) ≡ Some l → good ≡ spec.may_follow edge.now.last.items (Some l)) × (edge.now.next ≡ 0 → good ≡ true)) }
    ensures calls { LooksWithin N.Nodes IsLookFault (spec.link_reads edge.now.next) nodes.old result nodes.new }
    ensures asks { N.asked nodes.new + N.reads nodes.old ≤ N.asked nodes.old + N.reads nodes.new }
{
    if edge.next == 0 {
        return Ok(true);
    }
    let brought = brings_front(nodes, edge.next)?;
    if !brought {
        return Ok(false);
    }
    Ok(comes_after(nodes.fronted(), edge.last.as_slice()))
}
