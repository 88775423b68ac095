//! A tree is looked through, level by level.
ghost use Rattle.std.specs.Prelude.{◌≡◌, ◌+◌, ◌≤◌, [], ◌∷◌, ◌++◌, length, sum_by, OnOk, IfOk, IfErr, Bool};
ghost use Rattle.std.specs.List.{flat_map};
ghost use Rattle.salvages.specs.declared.found.TheConstants.{MAX_COST};
ghost use Rattle.salvages.specs.LossLaws.{LossLaw};
ghost use Rattle.salvages.specs.Losses as spec;
ghost use Rattle.salvages.specs.Losses.{Adds, Uncounted};
ghost use Rattle.known_nodes.specs.Tables.{blocks_in};

use crate::found::{ENTRY_COST, Found, Way, path_of};
use crate::losses::{Loss, LossFault, LossKind};
use fs_types::{Bytes, CHAIN_NODES, MAX_NAMES};
use known_nodes::KnownNodes;
use node_format::{Entries, Entry, EntryList, Place};
use std::alloc::Global;
use std::mem;

/// Looks at an entry of the directory at a path.
fn take_entry(
    alloc: Global,
    known: &KnownNodes,
    path: &[u8],
    entry: &Entry<'_>,
    found: &mut Found,
) -> Result<(), LossFault>
    requires { found.old.cost ≤ MAX_COST }
    ensures adds { OnOk result (Adds (spec.lost_item known.now.capacity (blocks_in known.now.nodes) path.now entry.now) (spec.ways_item path.now entry.now) (spec.item_cost known.now.capacity (blocks_in known.now.nodes) path.now entry.now) found.old found.new) }
    ensures few { OnOk result (found.new.cost ≤ MAX_COST) }
    ensures err { IfErr result (Uncounted (found.old.cost + spec.item_cost known.now.capacity (blocks_in known.now.nodes) path.now entry.now)) }
{
    found.spend(ENTRY_COST)?;
    match entry.place() {
        Place::Dir { block } => found.go(path_of(alloc, path, entry.name())?, block),
        Place::File { head, length } => {
            if known.is_file(head, length) {
                return Ok(());
            }
            found.lose(LossKind::File, path_of(alloc, path, entry.name())?)
        }
    }
}

/// Looks at entries of the directory at a path.
fn take_entries(
    alloc: Global,
    known: &KnownNodes,
    path: &[u8],
    entries: EntryList<'_>,
    found: &mut Found,
) -> Result<(), LossFault>
    requires { found.old.cost ≤ MAX_COST }
    ensures adds { OnOk result (Adds (flat_map (spec.lost_item known.now.capacity (blocks_in known.now.nodes) path.now) entries.entry) (flat_map (spec.ways_item path.now) entries.entry) (sum_by (spec.item_cost known.now.capacity (blocks_in known.now.nodes) path.now) entries.entry) found.old found.new) }
    ensures few { OnOk result (found.new.cost ≤ MAX_COST) }
    ensures err { IfErr result (Uncounted (found.old.cost + sum_by (spec.item_cost known.now.capacity (blocks_in known.now.nodes) path.now) entries.entry)) }
{
    for entry in entries {
        take_entry(alloc, known, path, &entry, found)?;
    }
    Ok(())
}

/// Tells entries that are lost of the directory at a path, if any.
fn cut_off(alloc: Global, path: &[u8], is_cut: bool, found: &mut Found) -> Result<(), LossFault>
    requires { found.old.cost ≤ MAX_COST }
    ensures adds { OnOk result (Adds (spec.lost_entries is_cut path.now) [] (spec.losses_cost (spec.lost_entries is_cut path.now)) found.old found.new) }
    ensures few { OnOk result (found.new.cost ≤ MAX_COST) }
    ensures err { IfErr result (Uncounted (found.old.cost + spec.losses_cost (spec.lost_entries is_cut path.now))) }
{
    if !is_cut {
        return Ok(());
    }
    found.lose(LossKind::Entries, Bytes::from_slice(alloc, path)?)
}

/// Looks at a node of the directory at a path, and at those after it, at most so many.
fn take_nodes(
    alloc: Global,
    known: &KnownNodes,
    path: &[u8],
    node: &Entries<'_>,
    left: usize,
    found: &mut Found,
) -> Result<(), LossFault>
    requires { found.old.cost ≤ MAX_COST }
    ensures adds { OnOk result (Adds (spec.lost_of_link left known.now.capacity (blocks_in known.now.nodes) path.now node.now) (spec.ways_of_link left (blocks_in known.now.nodes) path.now node.now) (spec.link_cost left known.now.capacity (blocks_in known.now.nodes) path.now node.now) found.old found.new) }
    ensures few { OnOk result (found.new.cost ≤ MAX_COST) }
    ensures err { IfErr result (Uncounted (found.old.cost + spec.link_cost left known.now.capacity (blocks_in known.now.nodes) path.now node.now)) }
{
    take_entries(alloc, known, path, node.list(), found)?;
    if left == 0 {
        return cut_off(alloc, path, node.next() != 0, found);
    }
    match known.link_after(node) {
        Some(next) => take_nodes(alloc, known, path, &next, left - 1, found),
        None => cut_off(alloc, path, node.next() != 0, found),
    }
}

/// Looks at a directory.
fn take_directory(
    alloc: Global,
    known: &KnownNodes,
    way: &Way,
    found: &mut Found,
) -> Result<(), LossFault>
    requires { found.old.cost ≤ MAX_COST }
    ensures adds { OnOk result (Adds (spec.lost_in known.now.capacity (blocks_in known.now.nodes) way.now) (spec.ways_in (blocks_in known.now.nodes) way.now) (spec.cost_in known.now.capacity (blocks_in known.now.nodes) way.now) found.old found.new) }
    ensures few { OnOk result (found.new.cost ≤ MAX_COST) }
    ensures err { IfErr result (Uncounted (found.old.cost + spec.cost_in known.now.capacity (blocks_in known.now.nodes) way.now)) }
{
    let path = way.path.as_slice();
    let Some(node) = known.link_at(way.block) else {
        return found.lose(LossKind::Directory, Bytes::from_slice(alloc, path)?);
    };
    take_nodes(alloc, known, path, &node, CHAIN_NODES - 1, found)
}

/// Looks at directories.
fn take_directories(
    alloc: Global,
    known: &KnownNodes,
    ways: &[Way],
    found: &mut Found,
) -> Result<(), LossFault>
    requires { found.old.cost ≤ MAX_COST }
    ensures adds { OnOk result (Adds (flat_map (spec.lost_in known.now.capacity (blocks_in known.now.nodes)) ways.now) (flat_map (spec.ways_in (blocks_in known.now.nodes)) ways.now) (sum_by (spec.cost_in known.now.capacity (blocks_in known.now.nodes)) ways.now) found.old found.new) }
    ensures few { OnOk result (found.new.cost ≤ MAX_COST) }
    ensures err { IfErr result (Uncounted (found.old.cost + sum_by (spec.cost_in known.now.capacity (blocks_in known.now.nodes)) ways.now)) }
{
    for way in ways {
        take_directory(alloc, known, way, found)?;
    }
    Ok(())
}

/// Looks at a directory whose path has as many names as a path may have.
fn take_last(
    alloc: Global,
    known: &KnownNodes,
    way: &Way,
    found: &mut Found,
) -> Result<(), LossFault>
    requires { found.old.cost ≤ MAX_COST }
    ensures adds { OnOk result (Adds (spec.lost_under (blocks_in known.now.nodes) way.now) [] (spec.cost_under (blocks_in known.now.nodes) way.now) found.old found.new) }
    ensures few { OnOk result (found.new.cost ≤ MAX_COST) }
    ensures err { IfErr result (Uncounted (found.old.cost + spec.cost_under (blocks_in known.now.nodes) way.now)) }
{
    let path = way.path.as_slice();
    let Some(node) = known.link_at(way.block) else {
        return found.lose(LossKind::Directory, Bytes::from_slice(alloc, path)?);
    };
    cut_off(alloc, path, !node.list().is_empty(), found)
}

/// Looks at such directories.
fn take_all_last(
    alloc: Global,
    known: &KnownNodes,
    ways: &[Way],
    found: &mut Found,
) -> Result<(), LossFault>
    requires { found.old.cost ≤ MAX_COST }
    ensures losses { OnOk result (found.new.losses.items ≡ found.old.losses.items ++ flat_map (spec.lost_under (blocks_in known.now.nodes)) ways.now) }
    ensures err { IfErr result (Uncounted (found.old.cost + sum_by (spec.cost_under (blocks_in known.now.nodes)) ways.now)) }
{
    for way in ways {
        take_last(alloc, known, way, found)?;
    }
    Ok(())
}

/// Looks at the directories that were found last, for those in them.
fn take_level(alloc: Global, known: &KnownNodes, found: &mut Found) -> Result<(), LossFault>
    requires { found.old.cost ≤ MAX_COST }
    ensures losses { OnOk result (found.new.losses.items ≡ found.old.losses.items ++ flat_map (spec.lost_in known.now.capacity (blocks_in known.now.nodes)) found.old.ways.items) }
    ensures ways { OnOk result (found.new.ways.items ≡ flat_map (spec.ways_in (blocks_in known.now.nodes)) found.old.ways.items) }
    ensures cost { OnOk result (found.new.cost ≡ found.old.cost + sum_by (spec.cost_in known.now.capacity (blocks_in known.now.nodes)) found.old.ways.items) }
    ensures few { OnOk result (found.new.cost ≤ MAX_COST) }
    ensures err { IfErr result (Uncounted (found.old.cost + sum_by (spec.cost_in known.now.capacity (blocks_in known.now.nodes)) found.old.ways.items)) }
{
    let ways = mem::replace(&mut found.ways, Vec::new(alloc));
    take_directories(alloc, known, &ways, found)
}

/// What is lost of the tree of a root, level by level.
pub(crate) fn list_losses(
    alloc: Global,
    known: &KnownNodes,
    root: u32,
) -> Result<Vec<Loss>, LossFault>
    ensures losses { IfOk result (λ losses. losses.items ≡ spec.lost_of known.now.capacity (blocks_in known.now.nodes) root) }
    ensures err { IfErr result (Uncounted (spec.cost_of known.now.capacity (blocks_in known.now.nodes) root)) }
{
    let mut found = Found::at(alloc, root)?;
    for _ in 0..MAX_NAMES {
        take_level(alloc, known, &mut found)?;
    }
    let ways = mem::replace(&mut found.ways, Vec::new(alloc));
    take_all_last(alloc, known, &ways, &mut found)?;
    Ok(found.losses)
}

/// What is told as lost is what is missing from the rest of the tree, and nothing else.
pub fn loss_law()
    ensures { LossLaw }
{}
