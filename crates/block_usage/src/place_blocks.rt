//! The blocks that a place reaches.
ghost use Rattle.std.specs.Prelude.{◌≡◌, ◌+◌, ◌-◌, ◌<◌, [], ◌∷◌, ℕ, Some, length, IfOk, IfErr};
ghost use Rattle.fs_types.specs.declared.limits.TheConstants.{MAX_NAMES};
ghost use Rattle.node_format.specs.Headers.{body_header};
ghost use Rattle.nodes.specs.Bodies.{back, head_index, index_of, pointer_of, IsBody};
ghost use Rattle.nodes.specs.Trees.{HasTree};
ghost use Rattle.nodes.specs.Faults.{IsLookFault};
ghost use Rattle.nodes.specs.Words.{IsRoot, Looks};
ghost use Rattle.block_usage.specs.Usages as spec;

use fields::u32_at;
use fs_types::Fault;
use node_format::{BODY_HEADER, Place};
use nodes::Nodes;
use reclaim::Pass;
use std::alloc::Global;

/// Where the block of the node before it stands in the node of a body that is not the first one.
const BEFORE: usize = 16;

/// The blocks that a place reaches, each once: those of a directory and of all that stands below it, or
/// those of a file. Each is read once at most, and of nodes of bodies the first page alone.
pub(crate) fn blocks_of<N: Nodes>(
    alloc: Global,
    nodes: &mut N,
    place: Place,
) -> Result<Vec<u32>, Fault>
    requires sound { N.is_sound nodes.old }
    requires tree { HasTree (N.limit nodes.old - body_header) (N.node nodes.old) place MAX_NAMES }
    ensures blocks { IfOk result (λ blocks. spec.AreBlocksOf (N.node nodes.old) place blocks.items) }
    ensures refused { IfErr result (λ fault. IsLookFault fault × N.causes nodes.old nodes.new fault) }
    ensures looks { Looks N.Nodes nodes.old nodes.new }
{
    match place {
        Place::Dir { block } => directory_blocks(alloc, nodes, block),
        Place::File { head, length } => file_blocks(alloc, nodes, head, length),
    }
}

/// Those of a directory.
fn directory_blocks<N: Nodes>(alloc: Global, nodes: &mut N, block: u32) -> Result<Vec<u32>, Fault>
    requires sound { N.is_sound nodes.old }
    requires tree { IsRoot N.Nodes nodes.old block }
    ensures blocks { IfOk result (λ blocks. spec.AreAllReached (N.node nodes.old) (block ∷ []) blocks.items) }
    ensures refused { IfErr result (λ fault. IsLookFault fault × N.causes nodes.old nodes.new fault) }
    ensures looks { Looks N.Nodes nodes.old nodes.new }
{
    let mut pass = Pass::start(alloc, nodes.block_count(), &[block])?;
    pass.read_all(nodes)?;
    Ok(pass.marked().to_vec(alloc)?)
}

/// Those of a file, from its last node to its first one.
fn file_blocks<N: Nodes>(
    alloc: Global,
    nodes: &mut N,
    head: u32,
    size: u32,
) -> Result<Vec<u32>, Fault>
    requires sound { N.is_sound nodes.old }
    requires body { IsBody (N.limit nodes.old - body_header) (N.node nodes.old) head size }
    ensures blocks { IfOk result (λ blocks. spec.AreChainBlocks (N.node nodes.old) (N.limit nodes.old - body_header) head size blocks.items) }
    ensures refused { IfErr result (λ fault. IsLookFault fault × N.causes nodes.old nodes.new fault) }
    ensures looks { Looks N.Nodes nodes.old nodes.new }
{
    let mut blocks = Vec::new(alloc);
    if size == 0 {
        return Ok(blocks);
    }
    let mut block = head;
    blocks.push(block)?;
    for _node in 0..(size - 1) / (nodes.block_bytes() - BODY_HEADER) {
        block = block_before(nodes, block)?;
        blocks.push(block)?;
    }
    Ok(blocks)
}

/// The block of the node before one in a body.
fn block_before<N: Nodes>(nodes: &mut N, block: u32) -> Result<u32, Fault>
    requires sound { N.is_sound nodes.old }
    requires later { (index : ℕ) × (index_of (N.node nodes.old block) ≡ Some index) × (0 < index) }
    ensures found { IfOk result (λ before. before ≡ pointer_of (N.node nodes.old block) 0) }
    ensures refused { IfErr result (λ fault. IsLookFault fault × N.causes nodes.old nodes.new fault) }
    ensures looks { Looks N.Nodes nodes.old nodes.new }
{
    nodes.front(block)?;
    Ok(u32_at(nodes.fronted(), BEFORE))
}
