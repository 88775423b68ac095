//! Which files are whole bodies.
ghost use Rattle.std.specs.Prelude.{◌≡◌, ℕ, ◌+◌, ◌<◌, ◌≤◌, None, IfOk};
ghost use Rattle.node_format.specs.declared.headers.TheConstants.{SLOTS};
ghost use Rattle.nodes.specs.Bodies.{pointer_of};
ghost use Rattle.reclaim.specs.Naming.{has_slot};
ghost use Rattle.known_nodes.specs.Tables.{blocks_in, marks_in};
ghost use Rattle.known_nodes.specs.WholeFiles as spec;
ghost use Rattle.known_nodes.specs.WholeFiles.{WholeFileLaw};

use crate::node_table::NodeTable;
use node_format::SLOTS;
use std::alloc::{AllocError, Global};
use std::marker::Model;

/// Marks of blocks.
#[derive(Drop)]
pub(crate) struct BlockMarks {
    marks: Vec<bool>,
}

impl Model for BlockMarks {
    ghost use Rattle.std.specs.Prelude.{Bool, List};

    ghost Value = { List Bool };

    ghost view = { λ m. m.marks.items };
}

impl BlockMarks {
    /// Whether a block is marked.
    fn has(&self, block: u32) -> bool
        ensures { result ≡ marks_in self.now block }
    {
        match self.marks.get(block as usize) {
            Some(mark) => *mark,
            None => false,
        }
    }
}

/// Whether the node of an index has a pointer at a slot.
fn has_pointer(index: u32, slot: usize) -> bool
    requires { slot < SLOTS }
    ensures { result ≡ has_slot index slot }
{
    index > 0 && index as u64 % (1 << slot) == 0
}

/// Whether the slot after one of the node in a block, where its index has it, is that one of the node that it names.
fn is_stepped(table: &NodeTable, block: u32, index: u32, slot: usize) -> bool
    requires { slot + 1 < SLOTS }
    ensures { result ≡ spec.is_stepped (blocks_in table.now) (pointer_of (blocks_in table.now block)) index slot }
{
    if !has_pointer(index, slot + 1) {
        return true;
    }
    let named = table.pointer_at(block, slot);
    table.index_at(named).is_some()
        && table.pointer_at(named, slot) == table.pointer_at(block, slot + 1)
}

/// Whether each slot is so.
fn are_stepped(table: &NodeTable, block: u32, index: u32) -> bool
    ensures { result ≡ spec.are_stepped (blocks_in table.now) (pointer_of (blocks_in table.now block)) index }
{
    for slot in 0..SLOTS - 1 {
        if !is_stepped(table, block, index, slot) {
            return false;
        }
    }
    true
}

/// Whether the node in a block is one of an index.
fn has_index(table: &NodeTable, block: u32, index: u32) -> bool
    ensures { result ≡ spec.has_index (blocks_in table.now block) index }
{
    match table.index_at(block) {
        Some(own) => own == index,
        None => false,
    }
}

/// Whether the node in a block is one of a file, of nodes with so many bytes, and comes after the node before it.
fn is_step(table: &NodeTable, capacity: usize, block: u32) -> bool
    ensures { result ≡ spec.is_step capacity (blocks_in table.now) block }
{
    let Some(index) = table.index_at(block) else {
        return false;
    };
    if index == 0 {
        return true;
    }
    let before = table.pointer_at(block, 0);
    if !has_index(table, before, index - 1) {
        return false;
    }
    if table.data_length_at(before) != capacity {
        return false;
    }
    are_stepped(table, block, index)
}

/// The blocks below a number that hold such nodes; no block from there on holds a node.
pub(crate) fn mark_steps(
    alloc: Global,
    table: &NodeTable,
    capacity: usize,
    blocks: u32,
) -> Result<BlockMarks, AllocError>
    requires { (b : ℕ) → blocks ≤ b → blocks_in table.now b ≡ None }
    ensures { IfOk result (λ steps. marks_in steps ≡ spec.is_step capacity (blocks_in table.now)) }
{
    let mut marks = Vec::new(alloc);
    for block in 0..blocks {
        marks.push(is_step(table, capacity, block))?;
    }
    Ok(BlockMarks { marks })
}

/// Whether all nodes from one in a block down to the first of its file come after one another.
fn is_linked(table: &NodeTable, steps: &BlockMarks, block: u32) -> bool
    ensures { (capacity : ℕ) → marks_in steps.now ≡ spec.is_step capacity (blocks_in table.now) → result ≡ spec.is_linked capacity (blocks_in table.now) block }
{
    let Some(index) = table.index_at(block) else {
        return false;
    };
    let mut at = block;
    for _ in 0..index {
        if !steps.has(at) {
            return false;
        }
        at = table.pointer_at(at, 0);
    }
    steps.has(at)
}

/// The blocks below a number that hold a node that ends a linked chain; no block from there on holds a node.
pub(crate) fn mark_linked(
    alloc: Global,
    table: &NodeTable,
    steps: &BlockMarks,
    blocks: u32,
) -> Result<BlockMarks, AllocError>
    requires { (b : ℕ) → blocks ≤ b → blocks_in table.now b ≡ None }
    ensures { (capacity : ℕ) → marks_in steps.now ≡ spec.is_step capacity (blocks_in table.now) → IfOk result (λ linked. marks_in linked ≡ spec.is_linked capacity (blocks_in table.now)) }
{
    let mut marks = Vec::new(alloc);
    for block in 0..blocks {
        marks.push(is_linked(table, steps, block))?;
    }
    Ok(BlockMarks { marks })
}

/// Whether a file that is not empty is a whole body, by which nodes end linked chains.
fn is_body(table: &NodeTable, linked: &BlockMarks, capacity: usize, head: u32, length: u32) -> bool
    requires capacity { 0 < capacity }
    requires some { 0 < length }
    requires linked { marks_in linked.now ≡ spec.is_linked capacity (blocks_in table.now) }
    ensures { result ≡ spec.is_body capacity (blocks_in table.now) head length }
{
    let index = (length as usize - 1) / capacity;
    if !has_index(table, head, index as u32) {
        return false;
    }
    let rest = length as usize - index * capacity;
    if rest > table.data_length_at(head) {
        return false;
    }
    linked.has(head)
}

/// Whether a file of a head and a length is a whole body.
pub(crate) fn is_file(
    table: &NodeTable,
    linked: &BlockMarks,
    capacity: usize,
    head: u32,
    length: u32,
) -> bool
    requires capacity { 0 < capacity }
    requires linked { marks_in linked.now ≡ spec.is_linked capacity (blocks_in table.now) }
    ensures { result ≡ spec.is_file capacity (blocks_in table.now) head length }
{
    if length == 0 {
        return head == 0;
    }
    is_body(table, linked, capacity, head, length)
}

/// The test of a file says what a body is.
pub fn whole_file_law()
    ensures { WholeFileLaw }
{}
