//! What is known of the nodes of a flash.
ghost use Rattle.std.specs.Prelude.{◌≡◌, ℕ, ◌<◌, ◌≤◌, [], Some, None, slice_get, IfOk};
ghost use Rattle.std.specs.Option.{option_map};
ghost use Rattle.nodes.specs.Bodies as bodies;
ghost use Rattle.nodes.specs.Chains.{link_of};
ghost use Rattle.reclaim.specs.Looks as looks;
ghost use Rattle.known_nodes.specs.Rests as rests;
ghost use Rattle.known_nodes.specs.Tables.{blocks_in};
ghost use Rattle.known_nodes.specs.WholeFiles as spec;

use crate::bodies::read_body;
use crate::node_table::NodeTable;
use crate::whole_files::{BlockMarks, is_file, mark_linked, mark_steps};
use fs_types::Bytes;
use node_format::{Entries, EntryList};
use std::alloc::{AllocError, Global};
use std::marker::Model;

/// The nodes of a flash, with how many bytes of a file one has room for, and which of them end linked
/// chains.
#[derive(Drop)]
pub struct KnownNodes {
    table: NodeTable,
    linked: BlockMarks,
    capacity: usize,
}

impl Model for KnownNodes {
    ghost use Rattle.known_nodes.specs.Known.{Known, IsKnown};

    ghost Value = { Known };

    ghost view = { λ k. record { nodes = k.table; capacity = k.capacity } };

    ghost invariant = { λ k. IsKnown k.capacity k.table k.linked };
}

impl KnownNodes {
    /// What a table tells of blocks below a number; no block from there on holds a node.
    pub fn of(
        alloc: Global,
        table: NodeTable,
        capacity: usize,
        blocks: u32,
    ) -> Result<KnownNodes, AllocError>
        requires some { 0 < capacity }
        requires all { (b : ℕ) → blocks ≤ b → blocks_in table b ≡ None }
        ensures nodes { IfOk result (λ known. known.nodes ≡ table) }
        ensures capacity { IfOk result (λ known. known.capacity ≡ capacity) }
    {
        let steps = mark_steps(alloc, &table, capacity, blocks)?;
        let linked = mark_linked(alloc, &table, &steps, blocks)?;
        Ok(KnownNodes {
            table,
            linked,
            capacity,
        })
    }

    /// What the node in a block says as one of a directory.
    pub fn link_at(&self, block: u32) -> Option<Entries<'_>>
        ensures { result ≡ link_of (blocks_in self.now.nodes block) }
    {
        self.table.link_at(block)
    }

    /// The node after one of a directory, where it is lawful there.
    pub fn link_after(&self, node: &Entries<'_>) -> Option<Entries<'_>>
        ensures { result ≡ rests.link_after (blocks_in self.now.nodes) node.now }
    {
        let next = self.table.link_at(node.next())?;
        if may_follow(node.list(), &next) {
            Some(next)
        } else {
            None
        }
    }

    /// Whether the file of a head and a length is a whole body.
    pub fn is_file(&self, head: u32, length: u32) -> bool
        ensures { result ≡ spec.is_file self.now.capacity (blocks_in self.now.nodes) head length }
    {
        is_file(&self.table, &self.linked, self.capacity, head, length)
    }

    /// The bytes of the file of a head and a length.
    pub fn body(&self, alloc: Global, head: u32, length: u32) -> Result<Bytes, AllocError>
        ensures { IfOk result (λ bytes. bytes ≡ bodies.body self.now.capacity (blocks_in self.now.nodes) head length) }
    {
        read_body(alloc, &self.table, self.capacity, head, length)
    }
}

/// The last name of entries; none where there are none.
fn last_name<'a>(entries: EntryList<'a>) -> &'a [u8]
    ensures { result.now ≡ looks.last_name [] entries.entry }
{
    let mut last: &[u8] = &[];
    for entry in entries {
        last = entry.name();
    }
    last
}

/// The first name of entries; none where there are none.
fn first_name<'a>(entries: EntryList<'a>) -> Option<&'a [u8]>
    ensures { option_map (λ name. name.now) result ≡ option_map (λ item. item.name) (slice_get entries.entry 0) }
{
    let mut entries = entries;
    match entries.next() {
        Some(entry) => Some(entry.name()),
        None => None,
    }
}

/// Whether a node may come after one of a directory with these entries.
fn may_follow(entries: EntryList<'_>, next: &Entries<'_>) -> bool
    ensures { result ≡ looks.may_follow (looks.last_name [] entries.entry) (Some next.now) }
{
    if !next.is_chained() {
        return false;
    }
    let last = last_name(entries);
    match first_name(next.list()) {
        Some(first) => last.cmp(first).is_lt(),
        None => false,
    }
}
