//! How much stands in the trees of roots.
ghost use Rattle.std.specs.Prelude.{◌≡◌, ℕ, ◌-◌, [], ◌∷◌, map, IfOk, IfErr};
ghost use Rattle.nodes.specs.Trees.{IsRoot, root_tree};
ghost use Rattle.node_format.specs.Headers.{body_header};
ghost use Rattle.nodes.specs.Faults.{IsLookFault};
ghost use Rattle.nodes.specs.Frames.{OnlyLooks};
ghost use Rattle.reclaim.specs.Verified.{AreRoots};
ghost use Rattle.tree_counts.specs.Sizes.{size_of};
ghost use Rattle.tree_counts.specs.Counted.{ReadsOnce};

use crate::node_sizes::{NodeSizes, size_from};
use crate::tree_size::TreeSize;
use fs_types::{CHAIN_NODES, Fault, MAX_NAMES};
use nodes::Nodes;
use std::alloc::Global;

/// The most nodes of directories on a way from a root.
const MOST_STEPS: u32 = (CHAIN_NODES * (MAX_NAMES + 1)) as u32;

/// How many directories and files stand in the tree of a root, which is known to have one, and how many
/// bytes these files have: counted by node, so that a directory that several paths lead to is read once
/// and counted for each of them. Each node of a directory that the root reaches is read once, and no other.
///
/// [`Fault::ReadFailed`], [`Fault::PowerCut`], [`Fault::NoMemory`].
pub fn size_of_root<N: Nodes>(alloc: Global, nodes: &mut N, root: u32) -> Result<TreeSize, Fault>
    requires sound { N.is_sound nodes.old }
    requires tree { IsRoot (N.limit nodes.old - body_header) (N.node nodes.old) root }
    ensures size { IfOk result (λ size. size ≡ size_of (root_tree (N.limit nodes.old - body_header) (N.node nodes.old) root)) }
    ensures reads { ReadsOnce (N.node nodes.old) (root ∷ []) (N.reads nodes.old) (N.reads nodes.new) }
    ensures looks { OnlyLooks N.node N.kept N.writes N.follows N.is_sound N.limit N.blocks nodes.old nodes.new }
    ensures why { IfErr result (λ fault. N.causes nodes.old nodes.new fault) }
    ensures faults { IfErr result IsLookFault }
{
    let mut sizes = NodeSizes::new(alloc, nodes.block_count())?;
    size_from(alloc, nodes, root, MOST_STEPS, &mut sizes)
}

/// The same of each of some roots, in order: a directory that several of them reach is read once for all.
///
/// [`Fault::ReadFailed`], [`Fault::PowerCut`], [`Fault::NoMemory`].
pub fn sizes_of_roots<N: Nodes>(
    alloc: Global,
    nodes: &mut N,
    roots: &[u32],
) -> Result<Vec<TreeSize>, Fault>
    requires sound { N.is_sound nodes.old }
    requires trees { AreRoots (N.limit nodes.old) (N.node nodes.old) roots.now }
    ensures sizes { IfOk result (λ sizes. sizes.items ≡ map (λ root. size_of (root_tree (N.limit nodes.old - body_header) (N.node nodes.old) root)) roots.now) }
    ensures reads { ReadsOnce (N.node nodes.old) roots.now (N.reads nodes.old) (N.reads nodes.new) }
    ensures looks { OnlyLooks N.node N.kept N.writes N.follows N.is_sound N.limit N.blocks nodes.old nodes.new }
    ensures why { IfErr result (λ fault. N.causes nodes.old nodes.new fault) }
    ensures faults { IfErr result IsLookFault }
{
    let mut table = NodeSizes::new(alloc, nodes.block_count())?;
    let mut sizes = Vec::new(alloc);
    for root in roots {
        let size = size_from(alloc, nodes, *root, MOST_STEPS, &mut table)?;
        sizes.push(size)?;
    }
    Ok(sizes)
}
