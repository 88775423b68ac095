//! Many entries of a directory put at once: it is read once and written once.
ghost use Rattle.std.specs.Prelude.{◌+◌, ◌<◌, length, IfOk, IsSome};
ghost use Rattle.plain_trees.specs.Trees.{nodes_for};
ghost use Rattle.nodes.specs.Trees.{entries_in, items_in};
ghost use Rattle.nodes.specs.Rewritten.{IsFreshChain};
ghost use Rattle.directory.specs.Counts.{nodes_in};
ghost use Rattle.directory.specs.Puts as spec;
ghost use Rattle.directory.specs.Trails.{IsChangeFault};
ghost use Rattle.nodes.specs.Words.{WorksWithin};

use crate::list_writes::write_list;
use crate::node_lists::read_list;
use fs_types::{Fault, Name};
use node_format::{EntryList, Place, Spelled};
use nodes::Nodes;
use std::alloc::{AllocError, Global};

/// A name of a directory, and the place that it is to lead to.
#[derive(Clone, Copy)]
pub struct NamedPlace<'n> {
    pub name: &'n Name,
    pub place: Place,
}

/// The entries with names put, one at least.
fn put_each(
    alloc: Global,
    list: &EntryList<'_>,
    puts: &[NamedPlace<'_>],
) -> Result<Spelled, AllocError>
    requires some { 0 < length puts.now }
    requires room { spec.HasRoomFor list.now puts.now }
    ensures { IfOk result (λ new. spec.IsPutEach list.now puts.now new) }
{
    let first = &puts[0];
    let mut edited = list.with_entry(alloc, first.name.as_bytes(), first.place)?;
    for i in 1..puts.len() {
        let put = &puts[i];
        edited = edited
            .list()
            .with_entry(alloc, put.name.as_bytes(), put.place)?;
    }
    Ok(edited)
}

/// Writes the directory that begins in a block anew, with names put, one at least: each leads to its
/// place. Answers the block of its first node.
pub fn put_in_directory<N: Nodes>(
    alloc: Global,
    nodes: &mut N,
    block: u32,
    puts: &[NamedPlace<'_>],
) -> Result<u32, Fault>
    requires sound { N.is_sound nodes.old }
    requires there { IsSome (entries_in (N.node nodes.old) block) }
    requires some { 0 < length puts.now }
    requires room { spec.HasRoomFor (items_in (N.node nodes.old) block) puts.now }

    // The new directory.
    ensures put { IfOk result (λ to. spec.IsDirectoryPut (N.node nodes.old) (N.node nodes.new) block to puts.now × IsFreshChain (N.node nodes.old) (N.node nodes.new) (N.kept nodes.old) (N.kept nodes.new) block to) }

    // What it is refused with, and what it asks for.
    ensures calls { WorksWithin N.Nodes IsChangeFault (nodes_in (N.node nodes.old) block) (nodes_for (length (items_in (N.node nodes.old) block) + spec.count_missing (items_in (N.node nodes.old) block) puts.now)) nodes.old result nodes.new }
{
    let (read, tail) = read_list(alloc, nodes, block, puts[0].name, None)?;
    let edited = put_each(alloc, &read.list(), puts)?;
    write_list(alloc, nodes, &edited.list(), tail)
}
