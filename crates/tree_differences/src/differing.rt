//! The paths at which the tree of one root leads elsewhere than that of another.
ghost use Rattle.std.specs.Prelude.{◌≡◌, ◌+◌, ◌++◌, ◌-◌, ◌≤◌, Some, OnOk, IfOk, IfErr, length};
ghost use Rattle.fs_types.specs.declared.limits.TheConstants.{MAX_NAMES};
ghost use Rattle.nodes.specs.Faults.{IsLookFault};
ghost use Rattle.nodes.specs.Words.{IsRoot, Looks};
ghost use Rattle.node_format.specs.Headers.{body_header};
ghost use Rattle.nodes.specs.Trees.{root_tree};
ghost use Rattle.tree_differences.specs.Differing as spec;

use crate::entries::{entries_at, places_at};
use crate::likeness::{is_alike, is_same};
use fs_types::{Fault, MAX_NAMES, Path, Sequence};
use node_format::Place;
use nodes::Nodes;
use std::alloc::{AllocError, Global};

/// The paths of the tree of a root at which that of another leads elsewhere: to nothing, to what is of
/// another kind, or to a file of another last node or length. A directory's comes before those of what
/// stands in it, and names are in byte order. Both roots are known to have trees.
///
/// A directory that both trees have in one block is not read, so that a path costs no look-up. At each path
/// that is not told both trees have the same; a file that is told may have the same bytes.
///
/// [`Fault::ReadFailed`], [`Fault::PowerCut`], [`Fault::NoMemory`].
pub fn differing_paths<N: Nodes>(
    alloc: Global,
    nodes: &mut N,
    root: u32,
    other: u32,
) -> Result<Sequence<Path>, Fault>
    requires sound { N.is_sound nodes.old }
    requires tree { IsRoot N.Nodes nodes.old root }
    requires other { IsRoot N.Nodes nodes.old other }
    ensures paths { IfOk result (λ paths. paths ≡ spec.differing_paths (N.node nodes.old) root other (root_tree (N.limit nodes.old - body_header) (N.node nodes.old) root)) }
    ensures looks { Looks N.Nodes nodes.old nodes.new }
    ensures why { IfErr result (λ fault. N.causes nodes.old nodes.new fault) }
    ensures faults { IfErr result IsLookFault }
{
    let mut paths = Sequence::new(alloc);
    let path = Path::root(alloc);
    let from = Place::Dir { block: root };
    let beside = Some(Place::Dir { block: other });
    add_below(alloc, nodes, &path, from, beside, MAX_NAMES, &mut paths)?;
    Ok(paths)
}

/// Adds the paths below a place, in so many levels, at which another place leads elsewhere.
fn add_below<N: Nodes>(
    alloc: Global,
    nodes: &mut N,
    directory: &Path,
    place: Place,
    other: Option<Place>,
    levels: usize,
    paths: &mut Sequence<Path>,
) -> Result<(), Fault>
    requires sound { N.is_sound nodes.old }
    requires place { spec.IsReadable (N.node nodes.old) (Some place) }
    requires other { spec.IsReadable (N.node nodes.old) other }
    requires room { length directory.now + levels ≤ MAX_NAMES }
    ensures ok { OnOk result (paths.new ≡ paths.old ++ spec.differing_below (N.node nodes.old) levels directory.now place other) }
    ensures refused { IfErr result (λ fault. IsLookFault fault × N.causes nodes.old nodes.new fault) }
    ensures looks { Looks N.Nodes nodes.old nodes.new }
{
    if levels == 0 {
        return Ok(());
    }
    if !place.is_dir() {
        return Ok(());
    }
    if is_same(place, other) {
        return Ok(());
    }
    let entries = entries_at(alloc, nodes, Some(place))?;
    let others = places_at(alloc, nodes, other)?;
    for (name, at) in entries.as_slice() {
        let there = others.get(name).copied();
        let path = directory.join(name)?;
        push_told(paths, &path, *at, there)?;
        add_below(alloc, nodes, &path, *at, there, levels - 1, paths)?;
    }
    Ok(())
}

/// Adds a path that leads to a place, where another place is told apart from it.
fn push_told(
    paths: &mut Sequence<Path>,
    path: &Path,
    place: Place,
    other: Option<Place>,
) -> Result<(), AllocError>
    ensures { OnOk result (paths.new ≡ paths.old ++ spec.told path.now place other) }
{
    if is_alike(place, other) {
        return Ok(());
    }
    paths.push(path.clone()?)
}
