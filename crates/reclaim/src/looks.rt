//! One look at a node, and at the first page of the one after it.
ghost use Rattle.std.specs.Option.{option_map};
ghost use Rattle.std.specs.Prelude.{◌≡◌, ◌≢◌, ℕ, ◌+◌, ◌*◌, ◌^◌, ◌≤◌, ◌<◌, ◌↔◌, ◌++◌, ◌||◌, not, nat_lt, true, IsTrue, map, length, List, Option, Some, None, OnOk, IfOk, IfErr, slice_index};
ghost use Rattle.fs_types.specs.declared.limits.TheConstants.{MAX_FILE_BYTES};
ghost use Rattle.node_format.specs.Headers.{field};
ghost use Rattle.node_format.specs.declared.headers.TheConstants.{SLOTS};
ghost use Rattle.nodes.specs.Bodies.{index_of, pointer_of};
ghost use Rattle.nodes.specs.Chains.{link_items};
ghost use Rattle.reclaim.specs.Sound.{HoldsSlot, IsSoundBody};
ghost use Rattle.reclaim.specs.Looks as spec;
ghost use Rattle.reclaim.specs.Naming.{has_slot};
ghost use Rattle.nodes.specs.Faults.{IsLookFault};
ghost use Rattle.nodes.specs.Words.{LooksWithin};

use crate::edge::{Edge, edge_in, is_chained, may_go_on};
use crate::slots::{index_in, pointer_in, used_in};
use fs_types::{Fault, MAX_FILE_BYTES};
use node_format::{Entries, EntryList, Place, SLOTS};
use nodes::Nodes;
use std::alloc::{AllocError, Global};

/// The places of the entries of a node; none where the bytes are of none.
fn places_in(alloc: Global, bytes: &[u8]) -> Result<Vec<Place>, AllocError>
    ensures { IfOk result (λ v. v.items ≡ map (λ item. item.place) (link_items (Some bytes.now))) }
{
    let mut out = Vec::new(alloc);
    if let Some(node) = Entries::of(bytes) {
        push_places_of(&mut out, node.list())?;
    }
    Ok(out)
}

fn push_places_of(out: &mut Vec<Place>, entries: EntryList<'_>) -> Result<(), AllocError>
    ensures { OnOk result (out.new.items ≡ out.old.items ++ map (λ item. item.place) entries.entry) }
{
    for entry in entries {
        out.push(entry.place())?;
    }
    Ok(())
}

/// What stands in the slots of a node, those that are not in use too.
fn pointers_in(alloc: Global, bytes: &[u8]) -> Result<Vec<u32>, AllocError>
    ensures count { IfOk result (λ v. length v.items ≡ SLOTS) }
    ensures each { IfOk result (λ v. (x : ℕ) → x < SLOTS → slice_index v.items x ≡ pointer_of (Some bytes.now) x) }
{
    let mut out = Vec::new(alloc);
    for slot in 0..SLOTS {
        out.push(pointer_in(bytes, slot))?;
    }
    Ok(out)
}

/// Whether a file can have a node of an index; true where there is none.
fn is_short(capacity: u32, index: Option<u32>) -> bool
    ensures { IsTrue result ↔ spec.IsShort capacity index }
{
    match index {
        Some(index) => index as u64 * (capacity as u64) < MAX_FILE_BYTES as u64,
        None => true,
    }
}

/// What the bytes of a node say: the places of its entries, what stands in its slots, the index of a
/// body node and how many data bytes it has, what a node of a directory says to the one after it, and
/// whether it is one of a chain.
#[derive(Drop)]
pub struct Parts {
    pub places: Vec<Place>,
    pub pointers: Vec<u32>,
    pub index: Option<u32>,
    pub used: u32,
    pub edge: Option<Edge>,
    pub is_chained: bool,
}

pub fn parts_in(alloc: Global, bytes: &[u8]) -> Result<Parts, AllocError>
    ensures { IfOk result (λ parts. spec.Says (Some bytes.now) parts) }
{
    let places = places_in(alloc, bytes)?;
    let pointers = pointers_in(alloc, bytes)?;
    let index = index_in(bytes);
    let used = used_in(bytes);
    let edge = edge_in(bytes);
    let is_chained = is_chained(bytes);
    Ok(Parts {
        places,
        pointers,
        index,
        used,
        edge,
        is_chained,
    })
}

/// Whether the node that may come after one may do so, where that is one of a directory.
fn is_followed<N: Nodes>(nodes: &mut N, edge: &Option<Edge>) -> Result<bool, Fault>
    requires { N.is_sound nodes.old }

    // What is answered where the node after it is one of a directory.
    ensures exact { IfOk result (λ good. (node : Option (List ℕ)) → spec.edge_at node ≡ option_map (λ e. (e.last.items, e.next)) edge.now → spec.NextHoldsLink (N.node nodes.old) node → IsTrue good ↔ spec.IsFollowed (N.node nodes.old) node) }

    // Why not, and what is read.
    ensures calls { LooksWithin N.Nodes IsLookFault (spec.edge_reads edge.now) nodes.old result nodes.new }
    ensures asks { N.asked nodes.new + N.reads nodes.old ≤ N.asked nodes.old + N.reads nodes.new }
{
    match edge {
        Some(edge) => may_go_on(nodes, edge),
        None => Ok(true),
    }
}

/// Whether a node that says this is sound as far as its index and the node after it tell; where only
/// plain directories are allowed, no node of a chain is. Of the node after it the first page alone is read.
pub fn look<N: Nodes>(
    nodes: &mut N,
    capacity: u32,
    plain: bool,
    parts: &Parts,
) -> Result<bool, Fault>
    requires { N.is_sound nodes.old }

    // What is answered where the node after it is one of a directory.
    ensures exact { IfOk result (λ good. (node : Option (List ℕ)) → spec.Says node parts.now → spec.NextHoldsLink (N.node nodes.old) node → IsTrue good ↔ spec.IsLooked capacity (N.node nodes.old) plain node) }

    // Why not, and what is read.
    ensures calls { LooksWithin N.Nodes IsLookFault (spec.edge_reads parts.now.edge) nodes.old result nodes.new }
    ensures asks { N.asked nodes.new + N.reads nodes.old ≤ N.asked nodes.old + N.reads nodes.new }
{
    if plain && parts.is_chained {
        return Ok(false);
    }
    if !is_short(capacity, parts.index) {
        return Ok(false);
    }
    is_followed(nodes, &parts.edge)
}
