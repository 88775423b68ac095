//! All nodes of a flash, each read once.
ghost use Rattle.std.specs.Prelude.{◌≡◌, ◌<◌, ◌+◌, length, IfOk, IfErr};
ghost use Rattle.std.specs.Option.{option_map};
ghost use Rattle.nodes.specs.Faults.{IsLookFault};
ghost use Rattle.nodes.specs.Frames.{OnlyLooks};
ghost use Rattle.node_format.specs.declared.headers.TheConstants.{SLOTS};
ghost use Rattle.nodes.specs.Bodies.{index_of, pointer_of, data_of};
ghost use Rattle.nodes.specs.Chains.{link_of};
ghost use Rattle.known_nodes.specs.Tables.{blocks_in};

use fields::u32_at;
use fs_types::{Bytes, Fault};
use node_format::{BODY_HEADER, Entries, SLOTS};
use nodes::{Nodes, brings};
use std::alloc::Global;
use std::marker::Model;

/// The first bytes of a node of a file.
const MAGIC: [u8; 4] = *b"UFNB";

/// The nodes of a flash, by block: the bytes of each, none where a block holds none. It takes as much
/// memory as the nodes have bytes.
#[derive(Drop)]
pub struct NodeTable {
    nodes: Vec<Option<Bytes>>,
}

impl Model for NodeTable {
    ghost use Rattle.std.specs.Prelude.{ℕ, Option, List};

    ghost Value = { List (Option (List ℕ)) };

    ghost view = { λ t. t.nodes.items };
}

/// The bytes of the node in a block, none where it holds none.
fn read_node<N: Nodes>(alloc: Global, nodes: &mut N, block: u32) -> Result<Option<Bytes>, Fault>
    requires { N.is_sound nodes.old }
    ensures node { IfOk result (λ node. node ≡ N.node nodes.old block) }
    ensures why { IfErr result (λ fault. N.causes nodes.old nodes.new fault) }
    ensures faults { IfErr result IsLookFault }
    ensures looks { OnlyLooks N.node N.kept N.writes N.follows N.is_sound N.limit N.blocks nodes.old nodes.new }
    ensures reads { N.reads nodes.new ≡ N.reads nodes.old + 1 }
{
    let brought = brings(nodes, block)?;
    if !brought {
        return Ok(None);
    }
    Ok(Some(Bytes::from_slice(alloc, nodes.lent())?))
}

impl NodeTable {
    /// Reads the node in each block once.
    pub fn read<N: Nodes>(alloc: Global, nodes: &mut N) -> Result<NodeTable, Fault>
        requires { N.is_sound nodes.old }
        ensures table { IfOk result (λ table. blocks_in table ≡ N.node nodes.old) }
        ensures why { IfErr result (λ fault. N.causes nodes.old nodes.new fault) }
        ensures faults { IfErr result IsLookFault }
        ensures looks { OnlyLooks N.node N.kept N.writes N.follows N.is_sound N.limit N.blocks nodes.old nodes.new }
        ensures reads { IfOk result (λ _. N.reads nodes.new ≡ N.reads nodes.old + N.blocks nodes.old) }
    {
        let mut table = Vec::new(alloc);
        for block in 0..nodes.block_count() {
            table.push(read_node(alloc, nodes, block)?)?;
        }
        Ok(NodeTable { nodes: table })
    }

    /// The bytes of the node in a block.
    fn bytes_at(&self, block: u32) -> Option<&[u8]>
        ensures { option_map (λ bytes. bytes.now) result ≡ blocks_in self.now block }
    {
        match self.nodes.get(block as usize) {
            Some(Some(bytes)) => Some(bytes.as_slice()),
            _ => None,
        }
    }

    /// What the node in a block says as one of a directory.
    pub fn link_at(&self, block: u32) -> Option<Entries<'_>>
        ensures { result ≡ link_of (blocks_in self.now block) }
    {
        match self.bytes_at(block) {
            Some(bytes) => Entries::of(bytes),
            None => None,
        }
    }

    /// The index of the node in a block, where that is one of a file.
    pub(crate) fn index_at(&self, block: u32) -> Option<u32>
        ensures { result ≡ index_of (blocks_in self.now block) }
    {
        match self.bytes_at(block) {
            Some(bytes) => index_in(bytes),
            None => None,
        }
    }

    /// The block in a slot of the node in a block, 0 where that holds none.
    pub(crate) fn pointer_at(&self, block: u32, slot: usize) -> u32
        requires { slot < SLOTS }
        ensures { result ≡ pointer_of (blocks_in self.now block) slot }
    {
        match self.bytes_at(block) {
            Some(bytes) => u32_at(bytes, 16 + 4 * slot),
            None => 0,
        }
    }

    /// The bytes of a file that the node in a block has.
    pub(crate) fn data_at(&self, block: u32) -> &[u8]
        ensures { result.now ≡ data_of (blocks_in self.now block) }
    {
        match self.bytes_at(block) {
            Some(bytes) => data_in(bytes),
            None => &[],
        }
    }

    /// How many bytes of a file the node in a block has.
    pub(crate) fn data_length_at(&self, block: u32) -> usize
        ensures { result ≡ length (data_of (blocks_in self.now block)) }
    {
        match self.bytes_at(block) {
            Some(bytes) => bytes.len().saturating_sub(BODY_HEADER as usize),
            None => 0,
        }
    }
}

/// The index of a node of a file; None where the bytes do not begin as one.
fn index_in(bytes: &[u8]) -> Option<u32>
    ensures { result ≡ index_of (Some bytes.now) }
{
    if u32_at(bytes, 0) == u32::from_le_bytes(MAGIC) {
        Some(u32_at(bytes, 4))
    } else {
        None
    }
}

/// The bytes of a file in a node.
fn data_in(bytes: &[u8]) -> &[u8]
    ensures { result.now ≡ data_of (Some bytes.now) }
{
    let header = BODY_HEADER as usize;
    if bytes.len() > header {
        &bytes[header..]
    } else {
        &[]
    }
}
