//! The names in a directory, how many they are, and whether there are any.
ghost use Rattle.std.specs.Prelude.{◌≡◌, ◌+◌, ◌≤◌, ◌==◌, ◌++◌, List, length, Some, None, OnOk, IfOk, IfErr, IsErrOf};
ghost use Rattle.fs_types.specs.declared.fault.Fault.TheVariants.{NoMemory, Damaged};
ghost use Rattle.fs_types.specs.declared.limits.TheConstants.{NODE_ENTRIES};
ghost use Rattle.nodes.specs.Faults.{IsReadFault};
ghost use Rattle.nodes.specs.Words.{LooksWithin};
ghost use Rattle.node_format.specs.Items.{Item};
ghost use Rattle.nodes.specs.Chains.{link_of, link_items, next_of, chain};
ghost use Rattle.nodes.specs.Trees.{entries_in, names_of};

use crate::lookups::MOST_AFTER;
use fs_types::{Fault, Name, Sequence};
use node_format::{Entries, EntryList};
use nodes::Nodes;
use std::alloc::Global;

/// Adds the names of entries, each with whether it is a directory.
fn push_names(
    alloc: Global,
    list: EntryList<'_>,
    names: &mut Sequence<(Name, bool)>,
) -> Result<(), Fault>
    ensures names { OnOk result (names.new ≡ names.old ++ names_of list.entry) }
    ensures memory { IfErr result (λ fault. fault ≡ NoMemory) }
{
    for entry in list {
        let name = Name::new(alloc, entry.name())?;
        names.push((name, entry.place().is_dir()))?;
    }
    Ok(())
}

/// Adds the names of the entries of the node in a block. Answers the block of the node after it, 0
/// where none comes.
fn add_names<N: Nodes>(
    alloc: Global,
    nodes: &mut N,
    block: u32,
    names: &mut Sequence<(Name, bool)>,
) -> Result<u32, Fault>
    requires { N.is_sound nodes.old }

    // What was added.
    ensures names { OnOk result (names.new ≡ names.old ++ names_of (link_items (N.node nodes.old block))) }
    ensures next { IfOk result (λ next. next_of (N.node nodes.old block) ≡ next) }

    // Why not, and what is read.
    ensures damaged { IsErrOf result Damaged → link_of (N.node nodes.old block) ≡ None }
    ensures calls { LooksWithin N.Nodes IsReadFault 1 nodes.old result nodes.new }
    ensures reads { N.reads nodes.new ≡ N.reads nodes.old + 1 }
{
    nodes.read(block)?;
    let Some(node) = Entries::of(nodes.lent()) else {
        return Err(Fault::Damaged);
    };
    let next = node.next();
    push_names(alloc, node.list(), names)?;
    Ok(next)
}

/// The names in the directory that begins in a block, in byte order, each with whether it is a
/// directory. Its nodes are read once each.
///
/// Refused with `Damaged` only where no directory begins there, with `NoMemory`, and with what a
/// read is refused with.
pub fn names<N: Nodes>(
    alloc: Global,
    nodes: &mut N,
    block: u32,
) -> Result<Sequence<(Name, bool)>, Fault>
    requires { N.is_sound nodes.old }

    // What was found.
    ensures names { IfOk result (λ names. (items : List Item) → entries_in (N.node nodes.old) block ≡ Some items → names ≡ names_of items) }

    // Why not, and what is read.
    ensures damaged { IsErrOf result Damaged → entries_in (N.node nodes.old) block ≡ None }
    ensures calls { LooksWithin N.Nodes IsReadFault (length (chain (N.node nodes.old) block)) nodes.old result nodes.new }
{
    let mut names = Sequence::new(alloc);
    let mut next = add_names(alloc, nodes, block, &mut names)?;
    for _ in 0..MOST_AFTER {
        if next == 0 {
            return Ok(names);
        }
        next = add_names(alloc, nodes, next, &mut names)?;
    }
    Ok(names)
}

/// How many entries the node in a block has, at most 32, and the block of the node after it, 0 where
/// none comes.
fn count_at<N: Nodes>(nodes: &mut N, block: u32) -> Result<(usize, u32), Fault>
    requires { N.is_sound nodes.old }

    // What was found.
    ensures count { IfOk result (λ c. length (link_items (N.node nodes.old block)) ≡ c.0) }
    ensures few { IfOk result (λ c. c.0 ≤ NODE_ENTRIES) }
    ensures next { IfOk result (λ c. next_of (N.node nodes.old block) ≡ c.1) }

    // Why not, and what is read.
    ensures damaged { IsErrOf result Damaged → link_of (N.node nodes.old block) ≡ None }
    ensures calls { LooksWithin N.Nodes IsReadFault 1 nodes.old result nodes.new }
    ensures reads { N.reads nodes.new ≡ N.reads nodes.old + 1 }
{
    nodes.read(block)?;
    let Some(node) = Entries::of(nodes.lent()) else {
        return Err(Fault::Damaged);
    };
    let count = node.list().len();
    Ok((count, node.next()))
}

/// The number of entries in the directory that begins in a block. Its nodes are read once each.
///
/// Refused with `Damaged` only where no directory begins there, and with what a read is refused
/// with.
pub fn entry_count<N: Nodes>(nodes: &mut N, block: u32) -> Result<usize, Fault>
    requires { N.is_sound nodes.old }

    // What was found.
    ensures count { IfOk result (λ count. (items : List Item) → entries_in (N.node nodes.old) block ≡ Some items → count ≡ length items) }

    // Why not, and what is read.
    ensures damaged { IsErrOf result Damaged → entries_in (N.node nodes.old) block ≡ None }
    ensures calls { LooksWithin N.Nodes IsReadFault (length (chain (N.node nodes.old) block)) nodes.old result nodes.new }
{
    let (mut count, mut next) = count_at(nodes, block)?;
    for _ in 0..MOST_AFTER {
        if next == 0 {
            return Ok(count);
        }
        let (more, after) = count_at(nodes, next)?;
        count += more;
        next = after;
    }
    Ok(count)
}

/// Whether the directory that begins in a block has no entries. One node is read: only a directory of
/// one node has none.
///
/// Refused with `Damaged` only where no directory begins there, and with what a read is refused
/// with.
pub fn is_empty<N: Nodes>(nodes: &mut N, block: u32) -> Result<bool, Fault>
    requires { N.is_sound nodes.old }

    // What was found.
    ensures value { IfOk result (λ empty. (items : List Item) → entries_in (N.node nodes.old) block ≡ Some items → empty ≡ (length items == 0)) }

    // Why not, and what is read.
    ensures damaged { IsErrOf result Damaged → entries_in (N.node nodes.old) block ≡ None }
    ensures calls { LooksWithin N.Nodes IsReadFault 1 nodes.old result nodes.new }
    ensures reads { N.reads nodes.new ≡ N.reads nodes.old + 1 }
{
    let (count, _next) = count_at(nodes, block)?;
    Ok(count == 0)
}
