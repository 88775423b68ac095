//! Maps from paths to what stands there, as the lists of their entries.
ghost use Rattle.std.specs.Prelude.{◌≡◌, ◌+◌, true, false, [], ◌∷◌, ◌++◌, length, filter_map, IfOk, OnOk, OnErr, count_by};
ghost use Rattle.std.specs.Option.{option_copied};
ghost use Rattle.std.specs.List.{list_any};
ghost use Rattle.std.specs.List.Sorted.{IsStrictlySortedBy};
ghost use Rattle.std.specs.Map.{lookup, keys_of};
ghost use Rattle.std.specs.BTreeMap.{is_at};
ghost use Rattle.fs_types.specs.Names.{path_cmp, is_path};
ghost use Rattle.plain_trees.specs.Trees.{child_of, moved_entry, put, remove};
ghost use Rattle.memory_trees.specs.Paths.{is_deep, is_child};
ghost use Rattle.memory_trees.specs.Maps.{tree_of, IsTreeOf};

use crate::names;
use crate::node::Node;
use fs_types::{Name, Path, Sequence};
use std::alloc::{AllocError, Global};
use std::collections::BTreeMap;

/// What stands at the path of these names.
pub fn node_at<'a>(nodes: &'a BTreeMap<Path, Node>, path: &[Name]) -> Option<&'a Node>
    ensures { option_copied result ≡ lookup (is_at (path_cmp path.now)) nodes.now.entries }
{
    for (at, node) in nodes {
        if path.cmp(at.names()).is_eq() {
            return Some(node);
        }
    }
    None
}

/// What stands under a name of a directory.
pub fn child_at<'a>(
    nodes: &'a BTreeMap<Path, Node>,
    directory: &[Name],
    name: &Name,
) -> Option<&'a Node>
    ensures { option_copied result ≡ lookup (is_at (path_cmp (directory.now ++ name.now ∷ []))) nodes.now.entries }
{
    for (at, node) in nodes {
        if names::is_child_of(directory, name, at.names()) {
            return Some(node);
        }
    }
    None
}

/// Puts a node at a path; unchanged where memory is not to be had.
pub fn put_node(nodes: &mut BTreeMap<Path, Node>, path: Path, node: Node) -> Result<(), AllocError>
    ensures made { OnOk result (tree_of nodes.new.entries ≡ put (tree_of nodes.old.entries) path node) }
    ensures sorted { IsStrictlySortedBy path_cmp (keys_of nodes.new.entries) }
    ensures err { OnErr result (nodes.new.entries ≡ nodes.old.entries) }
{
    nodes.insert(path, node)?;
    Ok(())
}

/// Takes away what stands at a path.
pub fn take_node(nodes: &mut BTreeMap<Path, Node>, path: &Path)
    ensures made { tree_of nodes.new.entries ≡ remove (tree_of nodes.old.entries) path.now }
    ensures sorted { IsStrictlySortedBy path_cmp (keys_of nodes.new.entries) }
{
    let _ = nodes.remove(path);
}

/// The names in a directory, each with whether it is a directory.
pub fn children_of(
    alloc: Global,
    nodes: &BTreeMap<Path, Node>,
    directory: &[Name],
) -> Result<Sequence<(Name, bool)>, AllocError>
    ensures { IfOk result (λ names. names ≡ filter_map (child_of directory.now) nodes.now.entries) }
{
    let mut children = Sequence::new(alloc);
    for (path, node) in nodes {
        if let Some(name) = names::child_name(directory, path.names()) {
            children.push((name.clone()?, node.is_dir()))?;
        }
    }
    Ok(children)
}

/// How many entries stand right in a directory.
pub fn count_children(nodes: &BTreeMap<Path, Node>, directory: &[Name]) -> usize
    ensures { result ≡ count_by (is_child directory.now) (keys_of nodes.now.entries) }
{
    nodes
        .keys()
        .filter(|path| names::is_child(directory, path.names()))
        .count()
}

/// Whether a path at `old` or below would have more than 16 names, where `old` becomes `depth` names.
pub fn any_deep(nodes: &BTreeMap<Path, Node>, old: &[Name], depth: usize) -> bool
    ensures { result ≡ list_any (is_deep old.now depth) (keys_of nodes.now.entries) }
{
    nodes
        .keys()
        .any(|path| names::is_deep(old, depth, path.names()))
}

/// The entries after a move, those that another takes the place of left out.
pub fn moved_entries(
    alloc: Global,
    nodes: &BTreeMap<Path, Node>,
    old: &[Name],
    new: &[Name],
) -> Result<Vec<(Path, Node)>, AllocError>
    requires lawful { is_path new.now ≡ true }
    requires shallow { list_any (is_deep old.now (length new.now)) (keys_of nodes.now.entries) ≡ false }
    ensures { IfOk result (λ entries. entries.items ≡ filter_map (moved_entry old.now new.now) nodes.now.entries) }
{
    let mut entries = Vec::new(alloc);
    for (path, node) in nodes {
        if let Some(to) = names::moved_path(alloc, old, new, path)? {
            entries.push((to, node.clone()?))?;
        }
    }
    Ok(entries)
}

/// The map of entries, of which the first counts where one path stands twice.
pub fn map_of(alloc: Global, entries: Vec<(Path, Node)>) -> Result<BTreeMap<Path, Node>, AllocError>
    ensures { IfOk result (λ nodes. IsTreeOf nodes.entries (tree_of entries.items)) }
{
    let mut rest = entries;
    let mut nodes = BTreeMap::new(alloc);
    while let Some((path, node)) = rest.pop() {
        put_node(&mut nodes, path, node)?;
    }
    Ok(nodes)
}
