//! The entries of a directory that come after a name, each with its place.
ghost use Rattle.std.specs.Prelude.{◌≡◌, ◌+◌, ◌++◌, List, length, Some, None, OnOk, IfOk, IfErr, IsErrOf};
ghost use Rattle.std.specs.Option.{option_copied};
ghost use Rattle.fs_types.specs.declared.fault.Fault.TheVariants.{NoMemory, Damaged};
ghost use Rattle.nodes.specs.Faults.{IsReadFault};
ghost use Rattle.nodes.specs.Words.{LooksWithin};
ghost use Rattle.node_format.specs.Items.{Item};
ghost use Rattle.nodes.specs.Chains.{link_of, link_items, next_of, chain};
ghost use Rattle.nodes.specs.Trees.{entries_in};
ghost use Rattle.directory.specs.Places.{places_after, is_read};

use crate::lookups::MOST_AFTER;
use fs_types::{Fault, Name, Sequence, is_after};
use node_format::{Entries, EntryList, Place};
use nodes::Nodes;
use std::alloc::Global;

/// Adds those entries that come after a name, as long as there are fewer than `most`.
fn push_places(
    alloc: Global,
    list: EntryList<'_>,
    from: Option<&Name>,
    most: u64,
    places: &mut Sequence<(Name, Place)>,
) -> Result<(), Fault>
    ensures places { OnOk result ((before : List Item) → places.old ≡ places_after (option_copied from.entry) most before → places.new ≡ places_after (option_copied from.entry) most (before ++ list.entry)) }
    ensures memory { IfErr result (λ fault. fault ≡ NoMemory) }
{
    for entry in list {
        if (places.as_slice().len() as u64) < most && is_after(from, entry.name()) {
            let name = Name::new(alloc, entry.name())?;
            places.push((name, entry.place()))?;
        }
    }
    Ok(())
}

/// Adds those of the node in a block. Answers the block of the node after it, 0 where none comes.
fn add_places<N: Nodes>(
    alloc: Global,
    nodes: &mut N,
    block: u32,
    from: Option<&Name>,
    most: u64,
    places: &mut Sequence<(Name, Place)>,
) -> Result<u32, Fault>
    requires { N.is_sound nodes.old }

    // What was added.
    ensures places { OnOk result ((before : List Item) → places.old ≡ places_after (option_copied from.entry) most before → places.new ≡ places_after (option_copied from.entry) most (before ++ link_items (N.node nodes.old block))) }
    ensures next { IfOk result (λ next. next_of (N.node nodes.old block) ≡ next) }

    // Why not, and what is read.
    ensures damaged { IsErrOf result Damaged → link_of (N.node nodes.old block) ≡ None }
    ensures calls { LooksWithin N.Nodes IsReadFault 1 nodes.old result nodes.new }
    ensures reads { N.reads nodes.new ≡ N.reads nodes.old + 1 }
{
    nodes.read(block)?;
    let Some(node) = Entries::of(nodes.lent()) else {
        return Err(Fault::Damaged);
    };
    let next = node.next();
    push_places(alloc, node.list(), from, most, places)?;
    Ok(next)
}

/// Whether no node is left to be read: none comes after, or no more entries are wanted.
fn is_read(next: u32, places: &Sequence<(Name, Place)>, most: u64) -> bool
    ensures { result ≡ is_read next (length places.now) most }
{
    next == 0 || places.as_slice().len() as u64 >= most
}

/// The first `most` entries of the directory that begins in a block that come after a name, or of all
/// where none is given. Its nodes are read once each, up to that of the last of these entries.
///
/// Refused with `Damaged` only where no directory begins there, with `NoMemory`, and with what a
/// read is refused with.
pub fn places_after<N: Nodes>(
    alloc: Global,
    nodes: &mut N,
    block: u32,
    from: Option<&Name>,
    most: u64,
) -> Result<Sequence<(Name, Place)>, Fault>
    requires { N.is_sound nodes.old }

    // What was found.
    ensures places { IfOk result (λ places. (items : List Item) → entries_in (N.node nodes.old) block ≡ Some items → places ≡ places_after (option_copied from.entry) most items) }

    // Why not, and what is read.
    ensures damaged { IsErrOf result Damaged → entries_in (N.node nodes.old) block ≡ None }
    ensures calls { LooksWithin N.Nodes IsReadFault (length (chain (N.node nodes.old) block)) nodes.old result nodes.new }
{
    let mut places = Sequence::new(alloc);
    let mut next = add_places(alloc, nodes, block, from, most, &mut places)?;
    for _ in 0..MOST_AFTER {
        if is_read(next, &places, most) {
            return Ok(places);
        }
        next = add_places(alloc, nodes, next, from, most, &mut places)?;
    }
    Ok(places)
}
