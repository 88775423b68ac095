//! Entries written as the nodes of a directory, from the last one on.
ghost use Rattle.std.specs.Prelude.{◌≡◌, ◌+◌, ◌*◌, ◌%◌, ◌<◌, ◌≤◌, ◌⊎◌, length, take, drop, IfOk};
ghost use Rattle.fs_types.specs.declared.limits.TheConstants.{NODE_ENTRIES, MAX_ENTRIES};
ghost use Rattle.nodes.specs.Faults.{IsWriteFault};
ghost use Rattle.nodes.specs.Words.{WorksWithin};
ghost use Rattle.plain_trees.specs.Trees.{nodes_for};
ghost use Rattle.directory.specs.Written as spec;

use fs_types::{Fault, MIN_BLOCK_BYTES, NODE_ENTRIES};
use node_format::{EntryList, chain_node};
use nodes::Nodes;
use std::alloc::Global;

/// Writes the node of a group of 32 entries of a list, or of the last ones, before the node in a
/// block, or as the last one (0). Answers its block.
fn write_group<N: Nodes>(
    alloc: Global,
    nodes: &mut N,
    list: &EntryList<'_>,
    group: usize,
    next: u32,
) -> Result<u32, Fault>
    requires sound { N.is_sound nodes.old }
    requires few { length list.now ≤ MAX_ENTRIES }
    requires within { NODE_ENTRIES * group ≤ length list.now }
    requires full { (next ≡ 0) ⊎ (NODE_ENTRIES * group + NODE_ENTRIES ≤ length list.now) }
    ensures one { IfOk result (λ to. spec.IsOneMore (N.kept nodes.old) (N.node nodes.new) (N.kept nodes.new) next to (take NODE_ENTRIES (drop (NODE_ENTRIES * group) list.now))) }
    ensures calls { WorksWithin N.Nodes IsWriteFault 0 1 nodes.old result nodes.new }
    ensures reads { N.reads nodes.new ≡ N.reads nodes.old }
    ensures written { IfOk result (λ _. N.writes nodes.new ≡ N.writes nodes.old + 1) }
{
    let from = NODE_ENTRIES * group;
    let held = (list.len() - from).min(NODE_ENTRIES);
    let bytes = chain_node(alloc, &list.part(from as u32, held as u32), next)?;
    let node = bytes.as_slice();
    let fits = nodes.block_bytes() as usize >= MIN_BLOCK_BYTES;
    prove!(fits);
    nodes.write(node)
}

/// Writes a directory of these entries, and of those of the nodes from a block on (0: of none), which
/// stay as they are: its nodes before that one, from the last on. Answers the block of the first.
/// Where a node comes after them, the entries fill their nodes; no entries are one node.
pub(crate) fn write_list<N: Nodes>(
    alloc: Global,
    nodes: &mut N,
    list: &EntryList<'_>,
    tail: u32,
) -> Result<u32, Fault>
    requires sound { N.is_sound nodes.old }
    requires few { length list.now ≤ MAX_ENTRIES }
    requires full { (tail ≡ 0) ⊎ ((0 < length list.now) × (length list.now % NODE_ENTRIES ≡ 0)) }

    ensures put { IfOk result (λ to. spec.PutsDirectory (N.node nodes.old) (N.kept nodes.old) (N.node nodes.new) (N.kept nodes.new) tail to list.now) }
    ensures calls { WorksWithin N.Nodes IsWriteFault 0 (nodes_for (length list.now)) nodes.old result nodes.new }
    ensures reads { N.reads nodes.new ≡ N.reads nodes.old }
    ensures written { IfOk result (λ _. N.writes nodes.new ≡ N.writes nodes.old + nodes_for (length list.now)) }
{
    let groups = list.len().div_ceil(NODE_ENTRIES).max(1);
    let mut to = tail;
    for group in (1..groups).rev() {
        to = write_group(alloc, nodes, list, group, to)?;
    }
    write_group(alloc, nodes, list, 0, to)
}
