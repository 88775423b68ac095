//! Trees, kept whole as maps from paths.
ghost use Rattle.std.specs.Prelude.{◌≡◌, ℕ, true, false, List, [], ◌∷◌, ◌++◌, IfOk, OnOk, OnErr};
ghost use Rattle.std.specs.Option.{option_copied};
ghost use Rattle.std.specs.FinMap as finmap;
ghost use Rattle.fs_types.specs.Names.{is_path};
ghost use Rattle.plain_trees.specs.Contents.{way_refusal, lookup_refusal};
ghost use Rattle.plain_trees.specs.Trees as tree;
ghost use Rattle.plain_trees.specs.Trees.{is_too_deep};

use crate::maps;
use crate::node::Node;
use fs_types::{Fault, MAX_ENTRIES, Name, Path, Sequence};
use std::alloc::{AllocError, Global};
use std::collections::BTreeMap;
use std::marker::Model;

/// A finite map from paths to what stands there.
#[derive(Drop)]
pub struct Tree {
    nodes: BTreeMap<Path, Node>,
}

impl Model for Tree {
    ghost use Rattle.std.specs.FinMap as finmap;
    ghost use Rattle.std.specs.Map.{keys_of};
    ghost use Rattle.std.specs.List.Sorted.{IsStrictlySortedBy};
    ghost use Rattle.fs_types.specs.Names.{path_cmp};
    ghost use Rattle.plain_trees.specs.Trees as tree;
    ghost use Rattle.memory_trees.specs.Codes.{tree_code};

    ghost Value = { tree.Tree };

    ghost coded = { tree_code };

    ghost view = { λ t. finmap.from_entries t.nodes.entries };

    ghost invariant = { λ t. IsStrictlySortedBy path_cmp (keys_of t.nodes.entries) };
}

impl Tree {
    /// The root alone.
    pub fn bare(alloc: Global) -> Result<Tree, AllocError>
        ensures { IfOk result (λ t. t ≡ tree.bare) }
    {
        let mut nodes = BTreeMap::new(alloc);
        maps::put_node(&mut nodes, Path::root(alloc), Node::dir())?;
        Ok(Tree { nodes })
    }

    /// What stands at the path of these names.
    pub fn get(&self, path: &[Name]) -> Option<&Node>
        ensures { option_copied result ≡ finmap.get self.now path.now }
    {
        maps::node_at(&self.nodes, path)
    }

    /// What stands under a name of a directory.
    pub fn get_in(&self, directory: &[Name], name: &Name) -> Option<&Node>
        ensures { option_copied result ≡ finmap.get self.now (directory.now ++ name.now ∷ []) }
    {
        maps::child_at(&self.nodes, directory, name)
    }

    /// Puts a node at a path; unchanged where memory is not to be had.
    pub fn put(&mut self, path: Path, node: Node) -> Result<(), AllocError>
        ensures ok { OnOk result (self.new ≡ tree.put self.old path node) }
        ensures err { OnErr result (self.new ≡ self.old) }
    {
        maps::put_node(&mut self.nodes, path, node)
    }

    /// Takes away what stands at a path.
    pub fn remove(&mut self, path: &Path)
        ensures { self.new ≡ tree.remove self.old path.now }
    {
        maps::take_node(&mut self.nodes, path);
    }

    /// The names in a directory, in byte order, each with whether it is a directory.
    pub fn children(
        &self,
        alloc: Global,
        path: &[Name],
    ) -> Result<Sequence<(Name, bool)>, AllocError>
        ensures { IfOk result (λ names. names ≡ tree.children self.now path.now) }
    {
        maps::children_of(alloc, &self.nodes, path)
    }

    /// How many entries a directory has.
    pub fn entry_count(&self, path: &[Name]) -> usize
        ensures { result ≡ tree.entry_count self.now path.now }
    {
        maps::count_children(&self.nodes, path)
    }

    /// Whether a directory has as many entries as it may, or more.
    pub fn is_full(&self, path: &[Name]) -> bool
        ensures { result ≡ tree.is_full self.now path.now }
    {
        self.entry_count(path) >= MAX_ENTRIES
    }

    /// Why the names but the last lead nowhere.
    pub fn lookup_refusal(&self, path: &[Name]) -> Option<Fault>
        ensures { result ≡ lookup_refusal (finmap.get self.now) path.now }
    {
        for i in 1..path.len() {
            if let Some(fault) = way_refusal(self.get(&path[..i])) {
                return Some(fault);
            }
        }
        None
    }

    /// Why the names of a directory lead to no directory, so that nothing can stand in it.
    pub fn entering_refusal(&self, directory: &[Name]) -> Option<Fault>
        ensures { (name : List ℕ) → result ≡ lookup_refusal (finmap.get self.now) (directory.now ++ name ∷ []) }
    {
        if let Some(fault) = self.lookup_refusal(directory) {
            return Some(fault);
        }
        if directory.is_empty() {
            return None;
        }
        way_refusal(self.get(directory))
    }

    /// Whether a path at `old` or below would have more than 16 names at `new`.
    pub fn is_too_deep(&self, old: &[Name], new: &[Name]) -> bool
        ensures { result ≡ is_too_deep self.now old.now new.now }
    {
        maps::any_deep(&self.nodes, old, new.len())
    }

    /// The tree with what stood at `old` and below at `new` and below, and nothing else there.
    pub fn move_tree(&self, alloc: Global, old: &[Name], new: &[Name]) -> Result<Tree, AllocError>
        requires lawful { is_path new.now ≡ true }
        requires shallow { is_too_deep self.now old.now new.now ≡ false }
        ensures { IfOk result (λ t. t ≡ tree.move self.now old.now new.now) }
    {
        let entries = maps::moved_entries(alloc, &self.nodes, old, new)?;
        Ok(Tree {
            nodes: maps::map_of(alloc, entries)?,
        })
    }
}

impl Clone for Tree {
    ghost use Rattle.std.specs.Prelude.{◌≡◌, IfOk};

    ghost is_clone = { λ old new. new ≡ old };

    fn clone(&self) -> Result<Self, AllocError>
        ensures { IfOk result (λ t. t ≡ self.now) }
    {
        Ok(Tree {
            nodes: self.nodes.clone()?,
        })
    }
}

/// Why what stands on the way to a path leads to nothing below it.
fn way_refusal(node: Option<&Node>) -> Option<Fault>
    ensures { result ≡ way_refusal (option_copied node.entry) }
{
    match node {
        None => Some(Fault::NoEntry),
        Some(node) if !node.is_dir() => Some(Fault::NotDirectory),
        Some(_) => None,
    }
}
