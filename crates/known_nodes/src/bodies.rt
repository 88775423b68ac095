//! The bytes of files.
ghost use Rattle.std.specs.Prelude.{◌≡◌, ◌<◌, ◌++◌, IfOk, OnOk};
ghost use Rattle.std.specs.List.{flat_map};
ghost use Rattle.nodes.specs.Bodies as bodies;
ghost use Rattle.nodes.specs.Bodies.{data_to};
ghost use Rattle.known_nodes.specs.FileBytes as spec;
ghost use Rattle.known_nodes.specs.Tables.{blocks_in};

use crate::node_table::NodeTable;
use fs_types::Bytes;
use std::alloc::{AllocError, Global};

/// The blocks of the nodes of a file, from the one of an index in a block down to the first.
fn list_back(
    alloc: Global,
    table: &NodeTable,
    block: u32,
    index: usize,
) -> Result<Vec<u32>, AllocError>
    ensures { IfOk result (λ blocks. blocks.items ≡ spec.blocks_back (blocks_in table.now) index block) }
{
    let mut blocks = Vec::new(alloc);
    let mut at = block;
    for _ in 0..index {
        blocks.push(at)?;
        at = table.pointer_at(at, 0);
    }
    blocks.push(at)?;
    Ok(blocks)
}

/// Adds the bytes of nodes.
fn add_bytes(table: &NodeTable, blocks: &[u32], bytes: &mut Vec<u8>) -> Result<(), AllocError>
    ensures { OnOk result (bytes.new.items ≡ bytes.old.items ++ flat_map (spec.data_in (blocks_in table.now)) blocks.now) }
{
    for block in blocks {
        bytes.extend_from_slice(table.data_at(*block))?;
    }
    Ok(())
}

/// The bytes of the nodes of a file up to the one of an index in a block.
fn read_to(
    alloc: Global,
    table: &NodeTable,
    block: u32,
    index: usize,
) -> Result<Vec<u8>, AllocError>
    ensures { IfOk result (λ bytes. bytes.items ≡ data_to (blocks_in table.now) index block) }
{
    let mut blocks = list_back(alloc, table, block, index)?;
    blocks.reverse();
    let mut bytes = Vec::new(alloc);
    add_bytes(table, &blocks, &mut bytes)?;
    Ok(bytes)
}

/// The bytes of the file of a head and a length.
pub(crate) fn read_body(
    alloc: Global,
    table: &NodeTable,
    capacity: usize,
    head: u32,
    length: u32,
) -> Result<Bytes, AllocError>
    requires { 0 < capacity }
    ensures { IfOk result (λ bytes. bytes ≡ bodies.body capacity (blocks_in table.now) head length) }
{
    if length == 0 {
        return Ok(Bytes::new(alloc));
    }
    let index = (length as usize - 1) / capacity;
    let mut bytes = read_to(alloc, table, head, index)?;
    bytes.truncate(length as usize);
    Ok(Bytes::from_vec(bytes))
}
