//! The blocks that a node names.
ghost use Rattle.std.specs.Prelude.{◌≡◌, ◌≢◌, ℕ, ◌+◌, ◌≤◌, ◌↔◌, ◌++◌, true, false, Some, None, OnOk, IfOk, IfErr, IsErrOf, Contains, option_to_list};
ghost use Rattle.std.specs.List.{flat_map};
ghost use Rattle.node_format.specs.declared.headers.TheConstants.{SLOTS};
ghost use Rattle.nodes.specs.Bodies.{index_of, pointer_of};
ghost use Rattle.nodes.specs.Chains.{link_items, next_of};
ghost use Rattle.nodes.specs.Reached.{Names};
ghost use Rattle.nodes.specs.Faults.{IsReadFault};
ghost use Rattle.nodes.specs.Words.{LooksWithin};
ghost use Rattle.reclaim.specs.Facts.{AreNamed};
ghost use Rattle.reclaim.specs.Kinds.{HoldsBodyNode, NamesBody, read_pages};
ghost use Rattle.reclaim.specs.Naming.{place_names, item_names, place_heads, item_heads, place_directories, item_directories, next_names, slots_named, body_named};
ghost use Rattle.reclaim.specs.Tables.{NamesDirectory};

use crate::slots::{has_pointer, index_in, pointer_in};
use fs_types::Fault;
use node_format::{Entries, EntryList, Place, SLOTS};
use nodes::Nodes;
use std::alloc::{AllocError, Global};

/// The blocks that a node names, and those of them that it names as nodes of bodies.
#[derive(Drop)]
pub struct Named {
    pub blocks: Vec<u32>,
    pub bodies: Vec<u32>,
}

// The block that a place names: none for an empty file.
fn block_of(place: Place) -> Option<u32>
    ensures { option_to_list result ≡ place_names place }
{
    match place {
        Place::Dir { block } => Some(block),
        Place::File { head: _, length: 0 } => None,
        Place::File { head, length: _ } => Some(head),
    }
}

// The head of the file that a place is: none for an empty file and for a directory.
fn head_of(place: Place) -> Option<u32>
    ensures { option_to_list result ≡ place_heads place }
{
    match place {
        Place::Dir { block: _ } => None,
        Place::File { head: _, length: 0 } => None,
        Place::File { head, length: _ } => Some(head),
    }
}

fn push_entries(out: &mut Vec<u32>, entries: EntryList<'_>) -> Result<(), AllocError>
    ensures { OnOk result (out.new.items ≡ out.old.items ++ flat_map item_names entries.entry) }
{
    for entry in entries {
        if let Some(block) = block_of(entry.place()) {
            out.push(block)?;
        }
    }
    Ok(())
}

fn push_heads(out: &mut Vec<u32>, entries: EntryList<'_>) -> Result<(), AllocError>
    ensures { OnOk result (out.new.items ≡ out.old.items ++ flat_map item_heads entries.entry) }
{
    for entry in entries {
        if let Some(head) = head_of(entry.place()) {
            out.push(head)?;
        }
    }
    Ok(())
}

// The block of a directory: none for a file.
fn directory_of(place: Place) -> Option<u32>
    ensures { option_to_list result ≡ place_directories place }
{
    match place {
        Place::Dir { block } => Some(block),
        Place::File { head: _, length: _ } => None,
    }
}

fn push_directory_blocks(out: &mut Vec<u32>, entries: EntryList<'_>) -> Result<(), AllocError>
    ensures { OnOk result (out.new.items ≡ out.old.items ++ flat_map item_directories entries.entry) }
{
    for entry in entries {
        if let Some(block) = directory_of(entry.place()) {
            out.push(block)?;
        }
    }
    Ok(())
}

fn push_directories(out: &mut Vec<u32>, bytes: &[u8]) -> Result<(), AllocError>
    ensures { OnOk result (out.new.items ≡ out.old.items ++ flat_map item_directories (link_items (Some bytes.now))) }
{
    let Some(node) = Entries::of(bytes) else {
        return Ok(());
    };
    push_directory_blocks(out, node.list())
}

fn push_slots(out: &mut Vec<u32>, index: u32, bytes: &[u8]) -> Result<(), AllocError>
    ensures { OnOk result (out.new.items ≡ out.old.items ++ slots_named index (pointer_of (Some bytes.now)) SLOTS) }
{
    for slot in 0..SLOTS {
        if has_pointer(index, slot) {
            out.push(pointer_in(bytes, slot))?;
        }
    }
    Ok(())
}

fn push_next(out: &mut Vec<u32>, next: u32) -> Result<(), AllocError>
    ensures { OnOk result (out.new.items ≡ out.old.items ++ next_names next) }
{
    if next == 0 {
        return Ok(());
    }
    out.push(next)?;
    Ok(())
}

fn push_directory(out: &mut Vec<u32>, bytes: &[u8]) -> Result<(), AllocError>
    ensures { OnOk result (out.new.items ≡ (out.old.items ++ flat_map item_names (link_items (Some bytes.now))) ++ next_names (next_of (Some bytes.now))) }
{
    let Some(node) = Entries::of(bytes) else {
        return Ok(());
    };
    push_entries(out, node.list())?;
    push_next(out, node.next())
}

fn push_files(out: &mut Vec<u32>, bytes: &[u8]) -> Result<(), AllocError>
    ensures { OnOk result (out.new.items ≡ out.old.items ++ flat_map item_heads (link_items (Some bytes.now))) }
{
    let Some(node) = Entries::of(bytes) else {
        return Ok(());
    };
    push_heads(out, node.list())
}

fn push_body(out: &mut Vec<u32>, bytes: &[u8]) -> Result<(), AllocError>
    ensures { OnOk result (out.new.items ≡ out.old.items ++ body_named (index_of (Some bytes.now)) (pointer_of (Some bytes.now))) }
{
    let Some(index) = index_in(bytes) else {
        return Ok(());
    };
    push_slots(out, index, bytes)
}

/// The blocks that the node of some bytes names, by an entry, as the node after it or by a slot. A
/// block may be there more than once; bytes of no node name none.
pub fn list_names(alloc: Global, bytes: &[u8]) -> Result<Vec<u32>, Fault>
    ensures names { IfOk result (λ v. (b : ℕ) → Contains v.items b ↔ Names (Some bytes.now) b) }
    ensures memory { IfErr result (λ fault. fault ≡ Fault.NoMemory) }
{
    let mut out = Vec::new(alloc);
    push_directory(&mut out, bytes)?;
    push_body(&mut out, bytes)?;
    Ok(out)
}

/// Those of them that it names as nodes of bodies: by an entry of a file, or by a slot.
fn list_bodies(alloc: Global, bytes: &[u8]) -> Result<Vec<u32>, Fault>
    ensures names { IfOk result (λ v. (b : ℕ) → Contains v.items b ↔ NamesBody (Some bytes.now) b) }
    ensures memory { IfErr result (λ fault. fault ≡ Fault.NoMemory) }
{
    let mut out = Vec::new(alloc);
    push_files(&mut out, bytes)?;
    push_body(&mut out, bytes)?;
    Ok(out)
}

/// Those of them that it names as directories.
pub fn list_directories(alloc: Global, bytes: &[u8]) -> Result<Vec<u32>, Fault>
    ensures names { IfOk result (λ v. (b : ℕ) → Contains v.items b ↔ NamesDirectory (Some bytes.now) b) }
    ensures memory { IfErr result (λ fault. fault ≡ Fault.NoMemory) }
{
    let mut out = Vec::new(alloc);
    push_directories(&mut out, bytes)?;
    Ok(out)
}

/// Both, of the node of some bytes.
fn list_named(alloc: Global, bytes: &[u8]) -> Result<Named, Fault>
    ensures named { IfOk result (AreNamed (Some bytes.now)) }
    ensures memory { IfErr result (λ fault. fault ≡ Fault.NoMemory) }
{
    let blocks = list_names(alloc, bytes)?;
    let bodies = list_bodies(alloc, bytes)?;
    Ok(Named { blocks, bodies })
}

// What the node in a block names, which is read whole.
fn read_whole<N: Nodes>(alloc: Global, nodes: &mut N, block: u32) -> Result<Named, Fault>
    requires { N.is_sound nodes.old }

    // What is named.
    ensures named { IfOk result (AreNamed (N.node nodes.old block)) }
    ensures there { IfOk result (λ _. N.node nodes.old block ≢ None) }

    // Why not, and what is read.
    ensures damaged { IsErrOf result Fault.Damaged → N.node nodes.old block ≡ None }
    ensures calls { LooksWithin N.Nodes IsReadFault 1 nodes.old result nodes.new }
    ensures reads { N.reads nodes.new ≡ N.reads nodes.old + 1 }
    ensures asks { OnOk result (N.asked nodes.new ≤ N.asked nodes.old + read_pages false (N.page nodes.old) (N.node nodes.old block)) }
{
    nodes.read(block)?;
    list_named(alloc, nodes.lent())
}

// What the node of a body in a block names, of which the first page alone is read.
fn read_front<N: Nodes>(alloc: Global, nodes: &mut N, block: u32) -> Result<Named, Fault>
    requires sound { N.is_sound nodes.old }
    requires body { HoldsBodyNode (N.node nodes.old) block }

    // What is named.
    ensures named { IfOk result (AreNamed (N.node nodes.old block)) }
    ensures there { IfOk result (λ _. N.node nodes.old block ≢ None) }

    // Why not, and what is read.
    ensures damaged { IsErrOf result Fault.Damaged → N.node nodes.old block ≡ None }
    ensures calls { LooksWithin N.Nodes IsReadFault 1 nodes.old result nodes.new }
    ensures reads { N.reads nodes.new ≡ N.reads nodes.old + 1 }
    ensures asks { N.asked nodes.new ≤ N.asked nodes.old + 1 }
{
    nodes.front(block)?;
    list_named(alloc, nodes.fronted())
}

/// What the node in a block names. Of the node of a body the first page may do.
pub fn read_named<N: Nodes>(
    alloc: Global,
    nodes: &mut N,
    block: u32,
    is_body: bool,
) -> Result<Named, Fault>
    requires sound { N.is_sound nodes.old }
    requires body { is_body ≡ true → HoldsBodyNode (N.node nodes.old) block }

    // What is named.
    ensures named { IfOk result (AreNamed (N.node nodes.old block)) }
    ensures there { IfOk result (λ _. N.node nodes.old block ≢ None) }

    // Why not, and what is read.
    ensures damaged { IsErrOf result Fault.Damaged → N.node nodes.old block ≡ None }
    ensures calls { LooksWithin N.Nodes IsReadFault 1 nodes.old result nodes.new }
    ensures reads { N.reads nodes.new ≡ N.reads nodes.old + 1 }
    ensures asks { OnOk result (N.asked nodes.new ≤ N.asked nodes.old + read_pages is_body (N.page nodes.old) (N.node nodes.old block)) }
{
    if is_body {
        return read_front(alloc, nodes, block);
    }
    read_whole(alloc, nodes, block)
}
