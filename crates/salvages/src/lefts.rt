//! What is left of a tree, level by level.
ghost use Rattle.std.specs.Prelude.{◌≡◌, ◌<◌, [], ◌∷◌, ◌++◌, length, map, OnOk, IfOk};
ghost use Rattle.std.specs.List.{flat_map};
ghost use Rattle.node_format.specs.declared.place.Place.TheVariants.{Dir};
ghost use Rattle.salvages.specs.Lefts as spec;
ghost use Rattle.known_nodes.specs.Rests as rests;
ghost use Rattle.known_nodes.specs.Tables.{blocks_in};

use fs_types::{CHAIN_NODES, MAX_NAMES, Name, Path};
use known_nodes::KnownNodes;
use node_format::{Entries, Entry, EntryList, Place};
use std::alloc::{AllocError, Global};

/// What a path leads to.
#[derive(Drop)]
pub(crate) struct Left {
    pub(crate) path: Path,
    pub(crate) place: Place,
}

/// The root of a tree.
fn list_root(alloc: Global, root: u32) -> Result<Vec<Left>, AllocError>
    ensures { IfOk result (λ lefts. lefts.items ≡ spec.left [] (Dir root) ∷ []) }
{
    let mut lefts = Vec::new(alloc);
    lefts.push(Left {
        path: Path::root(alloc),
        place: Place::Dir { block: root },
    })?;
    Ok(lefts)
}

/// Adds an entry of the directory at a path.
fn add_entry(
    alloc: Global,
    path: &Path,
    entry: &Entry<'_>,
    lefts: &mut Vec<Left>,
) -> Result<(), AllocError>
    requires { length path.now < MAX_NAMES }
    ensures { OnOk result (lefts.new.items ≡ lefts.old.items ++ spec.left_item path.now entry.now ∷ []) }
{
    let name = Name::new(alloc, entry.name())?;
    let path = path.join(&name)?;
    let place = entry.place();
    lefts.push(Left { path, place })?;
    Ok(())
}

/// Adds entries of the directory at a path.
fn add_entries(
    alloc: Global,
    path: &Path,
    entries: EntryList<'_>,
    lefts: &mut Vec<Left>,
) -> Result<(), AllocError>
    requires { length path.now < MAX_NAMES }
    ensures { OnOk result (lefts.new.items ≡ lefts.old.items ++ map (spec.left_item path.now) entries.entry) }
{
    for entry in entries {
        add_entry(alloc, path, &entry, lefts)?;
    }
    Ok(())
}

/// Adds the entries of a node of the directory at a path, and those of the nodes after it, at most so many,
/// as far as they are lawful.
fn add_nodes(
    alloc: Global,
    known: &KnownNodes,
    path: &Path,
    node: &Entries<'_>,
    left: usize,
    lefts: &mut Vec<Left>,
) -> Result<(), AllocError>
    requires { length path.now < MAX_NAMES }
    ensures { OnOk result (lefts.new.items ≡ lefts.old.items ++ map (spec.left_item path.now) (rests.items_from left (blocks_in known.now.nodes) node.now)) }
{
    add_entries(alloc, path, node.list(), lefts)?;
    if left == 0 {
        return Ok(());
    }
    match known.link_after(node) {
        Some(next) => add_nodes(alloc, known, path, &next, left - 1, lefts),
        None => Ok(()),
    }
}

/// Adds the entries of the directory at a path that begins in a block.
fn add_directory(
    alloc: Global,
    known: &KnownNodes,
    path: &Path,
    block: u32,
    lefts: &mut Vec<Left>,
) -> Result<(), AllocError>
    requires { length path.now < MAX_NAMES }
    ensures { OnOk result (lefts.new.items ≡ lefts.old.items ++ map (spec.left_item path.now) (rests.items_left (blocks_in known.now.nodes) block)) }
{
    match known.link_at(block) {
        Some(node) => add_nodes(alloc, known, path, &node, CHAIN_NODES - 1, lefts),
        None => Ok(()),
    }
}

/// Adds what stands right in what a path leads to.
fn add_next(
    alloc: Global,
    known: &KnownNodes,
    left: &Left,
    lefts: &mut Vec<Left>,
) -> Result<(), AllocError>
    ensures { OnOk result (lefts.new.items ≡ lefts.old.items ++ spec.next_left (blocks_in known.now.nodes) left.now) }
{
    match left.place {
        Place::Dir { block } => {
            if left.path.names().len() < MAX_NAMES {
                add_directory(alloc, known, &left.path, block, lefts)
            } else {
                Ok(())
            }
        }
        Place::File { .. } => Ok(()),
    }
}

/// What stands right in what some paths lead to.
fn list_next(alloc: Global, known: &KnownNodes, lefts: &[Left]) -> Result<Vec<Left>, AllocError>
    ensures { IfOk result (λ next. next.items ≡ flat_map (spec.next_left (blocks_in known.now.nodes)) lefts.now) }
{
    let mut next = Vec::new(alloc);
    for left in lefts {
        add_next(alloc, known, left, &mut next)?;
    }
    Ok(next)
}

/// All that paths of a tree lead to, level by level.
pub(crate) fn list_left(
    alloc: Global,
    known: &KnownNodes,
    root: u32,
) -> Result<Vec<Left>, AllocError>
    ensures { IfOk result (λ lefts. lefts.items ≡ spec.left_of (blocks_in known.now.nodes) root) }
{
    let mut all = Vec::new(alloc);
    let mut level = list_root(alloc, root)?;
    for _ in 0..MAX_NAMES {
        let next = list_next(alloc, known, &level)?;
        all.append(&mut level)?;
        level = next;
    }
    all.append(&mut level)?;
    Ok(all)
}
