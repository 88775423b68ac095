//! How many blocks a place reaches.
ghost use Rattle.std.specs.Prelude.{◌≡◌, ◌-◌, not, count_by, IfOk, IfErr};
ghost use Rattle.std.specs.FinSet as set;
ghost use Rattle.fs_types.specs.declared.limits.TheConstants.{MAX_NAMES};
ghost use Rattle.node_format.specs.Headers.{body_header};
ghost use Rattle.nodes.specs.Trees.{HasTree};
ghost use Rattle.nodes.specs.Faults.{IsLookFault};
ghost use Rattle.nodes.specs.Words.{Looks};
ghost use Rattle.block_usage.specs.Usages as spec;

use crate::place_blocks::blocks_of;
use block_ring::Marks;
use fs_types::Fault;
use node_format::Place;
use nodes::Nodes;
use std::alloc::Global;

/// How many blocks are reached, each counted once.
#[derive(Clone, Copy, Debug, PartialEq, Eq, Drop)]
pub struct Usage {
    /// All of them.
    pub blocks: u64,
    /// Those that do not stand apart: that are not bad, and that nothing else reaches.
    pub alone: u64,
}

/// How many blocks a place reaches, and how many of these do not stand apart.
pub(crate) fn usage_of<N: Nodes>(
    alloc: Global,
    nodes: &mut N,
    place: Place,
    apart: &Marks,
) -> Result<Usage, Fault>
    requires sound { N.is_sound nodes.old }
    requires tree { HasTree (N.limit nodes.old - body_header) (N.node nodes.old) place MAX_NAMES }
    ensures usage { IfOk result (spec.IsUsageOf (N.node nodes.old) apart.now.members place) }
    ensures refused { IfErr result (λ fault. IsLookFault fault × N.causes nodes.old nodes.new fault) }
    ensures looks { Looks N.Nodes nodes.old nodes.new }
{
    let blocks = blocks_of(alloc, nodes, place)?;
    Ok(Usage {
        blocks: blocks.len() as u64,
        alone: count_alone(&blocks, apart),
    })
}

/// How many blocks do not stand apart.
fn count_alone(blocks: &[u32], apart: &Marks) -> u64
    ensures { result ≡ count_by (λ b. not (set.contains apart.now.members b)) blocks.now }
{
    blocks
        .iter()
        .filter(|block| !apart.contains(**block))
        .count() as u64
}
