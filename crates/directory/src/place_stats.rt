//! What stands at the places of a directory: how many entries a directory has is told by the first
//! pages of its nodes.
ghost use Rattle.std.specs.Prelude.{◌≡◌, ◌+◌, ◌≤◌, List, length, map, Some, IfOk, IfErr};
ghost use Rattle.fs_types.specs.declared.limits.TheConstants.{NODE_ENTRIES};
ghost use Rattle.nodes.specs.Faults.{IsLookFault};
ghost use Rattle.nodes.specs.Words.{Looks};
ghost use Rattle.node_format.specs.Items.{Item};
ghost use Rattle.node_format.specs.Links.{Link};
ghost use Rattle.nodes.specs.Chains.{link_of, link_items, items_in, next_of, chain};
ghost use Rattle.nodes.specs.Trees.{entries_in};
ghost use Rattle.directory.specs.Places as spec;

use crate::lookups::MOST_AFTER;
use fs_types::{Fault, Name, Sequence, Stat};
use node_format::{Place, front_count};
use nodes::Nodes;
use std::alloc::Global;

/// How many entries the node in a block has, at most 32, and the block of the node after it, 0 where
/// none comes, of a node of a directory: its first page tells it.
fn count_front<N: Nodes>(nodes: &mut N, block: u32) -> Result<(usize, u32), Fault>
    requires sound { N.is_sound nodes.old }
    requires node { (l : Link) × (link_of (N.node nodes.old block) ≡ Some l) }

    // What was found.
    ensures counted { IfOk result (λ c. (length (link_items (N.node nodes.old block)) ≡ c.0) × (next_of (N.node nodes.old block) ≡ c.1)) }
    ensures few { IfOk result (λ c. c.0 ≤ NODE_ENTRIES) }

    // Why not, and what is read: one page.
    ensures refused { IfErr result (λ fault. IsLookFault fault × N.causes nodes.old nodes.new fault) }
    ensures looks { Looks N.Nodes nodes.old nodes.new }
    ensures asks { N.asked nodes.new ≤ N.asked nodes.old + 1 }
{
    nodes.front(block)?;
    let Some((count, next)) = front_count(nodes.fronted()) else {
        unreachable!()
    };
    Ok((count as usize, next))
}

/// The number of entries of the directory that begins in a block. The first page is read of each of its
/// nodes.
fn count_fronts<N: Nodes>(nodes: &mut N, block: u32) -> Result<usize, Fault>
    requires sound { N.is_sound nodes.old }
    requires whole { (items : List Item) × (entries_in (N.node nodes.old) block ≡ Some items) }

    // What was found.
    ensures count { IfOk result (λ count. count ≡ length (items_in (N.node nodes.old) block)) }

    // Why not, and what is read: one page a node.
    ensures refused { IfErr result (λ fault. IsLookFault fault × N.causes nodes.old nodes.new fault) }
    ensures looks { Looks N.Nodes nodes.old nodes.new }
    ensures asks { N.asked nodes.new ≤ N.asked nodes.old + length (chain (N.node nodes.old) block) }
{
    let (mut count, mut next) = count_front(nodes, block)?;
    for _ in 0..MOST_AFTER {
        if next == 0 {
            return Ok(count);
        }
        let (more, after) = count_front(nodes, next)?;
        count += more;
        next = after;
    }
    Ok(count)
}

/// What stands at a place.
fn stat_of<N: Nodes>(nodes: &mut N, place: Place) -> Result<Stat, Fault>
    requires sound { N.is_sound nodes.old }
    requires begins { spec.Begins (N.node nodes.old) place }

    // What stands there.
    ensures stat { IfOk result (λ stat. stat ≡ spec.stat_of (N.node nodes.old) place) }

    // Why not, and what is read: one page of each node of a directory.
    ensures refused { IfErr result (λ fault. IsLookFault fault × N.causes nodes.old nodes.new fault) }
    ensures looks { Looks N.Nodes nodes.old nodes.new }
    ensures asks { N.asked nodes.new ≤ N.asked nodes.old + spec.nodes_of (N.node nodes.old) place }
{
    match place {
        Place::Dir { block } => Ok(Stat::Dir(count_fronts(nodes, block)? as u64)),
        Place::File { length, .. } => Ok(Stat::File(length as u64)),
    }
}

/// Names, each with what stands at its place. The first page is read of each node of the directories
/// among the places, and nothing else.
///
/// Refused with `NoMemory`, and with what a read is refused with, but never with `Damaged`.
pub fn stats<N: Nodes>(
    alloc: Global,
    nodes: &mut N,
    places: &[(Name, Place)],
) -> Result<Sequence<(Name, Stat)>, Fault>
    requires sound { N.is_sound nodes.old }
    requires begin { spec.AllBegin (N.node nodes.old) places.now }

    // What stands there.
    ensures stats { IfOk result (λ entries. entries ≡ map (spec.with_stat (N.node nodes.old)) places.now) }

    // Why not, and what is read: one page of each node of these directories.
    ensures refused { IfErr result (λ fault. IsLookFault fault × N.causes nodes.old nodes.new fault) }
    ensures looks { Looks N.Nodes nodes.old nodes.new }
    ensures asks { N.asked nodes.new ≤ N.asked nodes.old + spec.nodes_of_all (N.node nodes.old) places.now }
{
    let mut entries = Sequence::new(alloc);
    for (name, place) in places {
        let stat = stat_of(nodes, *place)?;
        entries.push((name.clone()?, stat))?;
    }
    Ok(entries)
}
