//! The entries of a directory as a list: read as far as an edit wants them, and edited.
ghost use Rattle.std.specs.Prelude.{◌≡◌, ℕ, ◌+◌, ◌≤◌, true, false, length, Some, None, IsSome, IfOk, IfSome};
ghost use Rattle.std.specs.Option.{is_some};
ghost use Rattle.fs_types.specs.declared.limits.TheConstants.{MAX_ENTRIES};
ghost use Rattle.fs_types.specs.Names.{same_name};
ghost use Rattle.nodes.specs.Faults.{IsLookFault};
ghost use Rattle.nodes.specs.Words.{LooksWithin};
ghost use Rattle.node_format.specs.Items.{is_place, named_place};
ghost use Rattle.node_format.specs.Edits.{IsEdited};
ghost use Rattle.nodes.specs.Chains.{entries_in, items_in, link_of};
ghost use Rattle.directory.specs.Counts.{read_nodes};
ghost use Rattle.directory.specs.Moves.{IsEditedTwice};
ghost use Rattle.directory.specs.Reads as spec;
ghost use Rattle.directory.specs.Trails.{takes};

use fs_types::{CHAIN_NODES, Fault, Name};
use node_format::{Entries, EntryList, Place, Spelled};
use nodes::Nodes;
use std::alloc::{AllocError, Global};

/// What was read with a node: whether it has an entry of the name, and the block of the node after it.
#[derive(Clone, Copy)]
struct Seen {
    has_name: bool,
    next: u32,
}

/// Reads the node in a block, one of a directory, and appends its entries to a list. The node is
/// taken out of memory: the one that is written in its place comes in.
fn append_node<N: Nodes>(
    nodes: &mut N,
    block: u32,
    name: &Name,
    list: &mut Spelled,
) -> Result<Seen, Fault>
    requires sound { N.is_sound nodes.old }
    requires there { spec.MayAppend (link_of (N.node nodes.old block)) list.old }
    ensures appended { IfOk result (λ seen. spec.IsAppended (link_of (N.node nodes.old block)) name.now list.old list.new seen.has_name seen.next) }
    ensures calls { LooksWithin N.Nodes IsLookFault 1 nodes.old result nodes.new }
    ensures reads { N.reads nodes.new ≡ N.reads nodes.old + 1 }
{
    nodes.read(block)?;
    let Some((node, split)) = Entries::split(nodes.lent(), name.as_bytes()) else {
        unreachable!()
    };
    let has_name = split.found.is_some();
    list.extend(&node.list())?;
    let next = node.next();
    nodes.supersede(block);
    Ok(Seen { has_name, next })
}

/// Whether an edit of a name wants no more nodes than were read: none is left, or the name has
/// another place put and was found.
fn is_enough(puts: bool, seen: Seen) -> bool
    ensures { result ≡ spec.is_enough puts seen.has_name seen.next }
{
    seen.next == 0 || (puts && seen.has_name)
}

/// The entries of the directory that begins in a block, as far as an edit wants them that leads a
/// name to a place, or to nothing, with the block of the node after them, or 0: where a place is put
/// under a name that is there, those of the nodes up to the one with the name; else all.
pub(crate) fn read_list<N: Nodes>(
    alloc: Global,
    nodes: &mut N,
    block: u32,
    name: &Name,
    place: Option<Place>,
) -> Result<(Spelled, u32), Fault>
    requires sound { N.is_sound nodes.old }
    requires there { IsSome (entries_in (N.node nodes.old) block) }

    // What was read.
    ensures read { IfOk result (λ r. (left : ℕ) × spec.IsReadTo (N.node nodes.old) block left r.0 r.1) }
    ensures enough { IfOk result (λ r. spec.IsEnough r.0 r.1 name.now (is_some place)) }

    // What it is refused with, and what it asks for.
    ensures calls { LooksWithin N.Nodes IsLookFault (read_nodes (items_in (N.node nodes.old) block) name.now (is_some place)) nodes.old result nodes.new }
{
    let puts = place.is_some();
    let mut list = Spelled::new(alloc);
    let mut seen = append_node(nodes, block, name, &mut list)?;
    for _ in 1..CHAIN_NODES {
        if is_enough(puts, seen) {
            return Ok((list, seen.next));
        }
        seen = append_node(nodes, seen.next, name, &mut list)?;
    }
    Ok((list, seen.next))
}

/// The entries with a name leading to a place, or to nothing.
pub(crate) fn edit_list(
    alloc: Global,
    list: &EntryList<'_>,
    name: &Name,
    place: Option<Place>,
) -> Result<Spelled, AllocError>
    requires place { IfSome place (λ p. is_place p ≡ true) }
    requires takes { takes (Some list.now) name.now place ≡ true }
    ensures { IfOk result (λ new. IsEdited list.now name.now place new) }
{
    match place {
        Some(place) => list.with_entry(alloc, name.as_bytes(), place),
        None => list.without_entry(alloc, name.as_bytes()),
    }
}

/// The entries with one of their names leading to a place, or to nothing, and another name to another
/// place. A name that is taken out is so first, and makes room.
pub(crate) fn edit_list_twice(
    alloc: Global,
    list: &EntryList<'_>,
    name: &Name,
    gone: Option<Place>,
    other: &Name,
    here: Option<Place>,
) -> Result<Spelled, AllocError>
    requires gone { IfSome gone (λ p. is_place p ≡ true) }
    requires here { IfSome here (λ p. is_place p ≡ true) }
    requires apart { same_name name.now other.now ≡ false }
    requires few { length list.now ≤ MAX_ENTRIES }
    requires named { IsSome (named_place list.now name.now) }
    requires room { IsSome gone → takes (Some list.now) other.now here ≡ true }
    ensures { IfOk result (λ new. IsEditedTwice list.now name.now gone other.now here new) }
{
    if gone.is_none() {
        let without = edit_list(alloc, list, name, gone)?;
        return edit_list(alloc, &without.list(), other, here);
    }
    let with = edit_list(alloc, list, other, here)?;
    edit_list(alloc, &with.list(), name, gone)
}
