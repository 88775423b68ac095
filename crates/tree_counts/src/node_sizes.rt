//! How much nodes of directories lead to.
ghost use Rattle.std.specs.Prelude.{◌≡◌, ◌≢◌, ◌++◌, [], ℕ, ◌+◌, ◌≤◌, ◌<◌, List, length, slice_get, Some, None, OnOk, IfOk, IfErr};
ghost use Rattle.std.specs.List.{flat_map};
ghost use Rattle.nodes.specs.Faults.{IsLookFault};
ghost use Rattle.nodes.specs.Frames.{OnlyLooks};
ghost use Rattle.nodes.specs.Bodies.{Blocks};
ghost use Rattle.nodes.specs.Reached.{Reached};
ghost use Rattle.reclaim.specs.Naming.{item_directories, next_names};
ghost use Rattle.reclaim.specs.Passes.{AreReached};
ghost use Rattle.reclaim.specs.Sound.{HoldsLink};
ghost use Rattle.tree_counts.specs.Sizes.{sized, place_one, place_length};
ghost use Rattle.tree_counts.specs.Counted as spec;
ghost use Rattle.tree_counts.specs.declared.tree_size.TreeSize.{TreeSize as Size};

use crate::tree_size::TreeSize;
use fs_types::Fault;
use node_format::{Entries, EntryList, Place};
use nodes::{Nodes, brings};
use std::alloc::{AllocError, Global};

/// How much nodes of directories lead to, as far as it was found: over the entries of a node, the nodes
/// after it, and all directories below. Some forty bytes a block, and four for each that was read.
#[derive(Drop)]
pub(crate) struct NodeSizes {
    /// By block.
    found: Vec<Option<TreeSize>>,
    /// The blocks that were read.
    read: Vec<u32>,
}

/// What one node of a directory tells.
#[derive(Drop)]
struct Told {
    /// How much its entries are themselves.
    size: TreeSize,
    /// The blocks of the directories that it names, and of the node after it.
    leads: Vec<u32>,
}

impl NodeSizes {
    /// Nothing was read, on a flash of `blocks` blocks.
    pub(crate) fn new(alloc: Global, blocks: u32) -> Result<NodeSizes, AllocError>
        ensures sizes { IfOk result (λ s. (f : Blocks) → spec.AreSizes f blocks s) }
        ensures unread { IfOk result (λ s. s.read.items ≡ []) }
    {
        let found = vec![in alloc; None; blocks as usize]?;
        Ok(NodeSizes {
            found,
            read: Vec::new(alloc),
        })
    }

    /// How much the node in a block leads to, where it was found.
    fn size_at(&self, block: u32) -> Option<TreeSize>
        requires { block < length self.now.found.items }
        ensures some { (size : Size) → result ≡ Some size → spec.Has self.now block size }
        ensures none { result ≡ None → (size : Size) → spec.Has self.now block size → ⊥ }
    {
        self.found[block as usize]
    }

    /// How much the node in a block leads to is found.
    fn put(&mut self, block: u32, size: TreeSize)
        requires { block < length self.old.found.items }
        ensures has { spec.Has self.new block size }
        ensures others { (b : ℕ) → b ≢ block → slice_get self.new.found.items b ≡ slice_get self.old.found.items b }
        ensures same { (self.new.read.items ≡ self.old.read.items) × (length self.new.found.items ≡ length self.old.found.items) }
    {
        self.found[block as usize] = Some(size);
    }
}

/// The size of entries, each alone.
fn size_of_entries(list: EntryList<'_>) -> TreeSize
    ensures { result ≡ sized (spec.own_of place_one list.entry) (spec.own_of place_length list.entry) }
{
    let mut size = TreeSize::nothing();
    for entry in list {
        size = size.plus(TreeSize::of_place(entry.place()));
    }
    size
}

/// Adds the blocks of the directories among entries.
fn push_directories(leads: &mut Vec<u32>, list: EntryList<'_>) -> Result<(), AllocError>
    ensures { OnOk result (leads.new.items ≡ leads.old.items ++ flat_map item_directories list.entry) }
{
    for entry in list {
        if let Place::Dir { block } = entry.place() {
            leads.push(block)?;
        }
    }
    Ok(())
}

/// Adds the block of the node after one; 0 names none.
fn push_next(leads: &mut Vec<u32>, next: u32) -> Result<(), AllocError>
    ensures { OnOk result (leads.new.items ≡ leads.old.items ++ next_names next) }
{
    if next == 0 {
        return Ok(());
    }
    leads.push(next)?;
    Ok(())
}

/// What the node of a directory in a block tells.
fn read_told<N: Nodes>(alloc: Global, nodes: &mut N, block: u32) -> Result<Told, Fault>
    requires sound { N.is_sound nodes.old }
    requires link { HoldsLink (N.node nodes.old) block }

    // What it tells.
    ensures size { IfOk result (λ told. told.size ≡ spec.own_size (N.node nodes.old block)) }
    ensures leads { IfOk result (λ told. told.leads.items ≡ spec.leads_of (N.node nodes.old block)) }

    // Why not, and what is read.
    ensures why { IfErr result (λ fault. N.causes nodes.old nodes.new fault) }
    ensures faults { IfErr result IsLookFault }
    ensures looks { OnlyLooks N.node N.kept N.writes N.follows N.is_sound N.limit N.blocks nodes.old nodes.new }
    ensures reads { N.reads nodes.new ≡ N.reads nodes.old + 1 }
{
    let brought = brings(nodes, block)?;
    if !brought {
        unreachable!();
    }
    let Some(node) = Entries::of(nodes.lent()) else {
        unreachable!()
    };
    let mut leads = Vec::new(alloc);
    push_directories(&mut leads, node.list())?;
    push_next(&mut leads, node.next())?;
    Ok(Told {
        size: size_of_entries(node.list()),
        leads,
    })
}

/// How much the node of a directory in a block leads to, where no way from it has more than `steps` nodes.
/// Each node is read once.
pub(crate) fn size_from<N: Nodes>(
    alloc: Global,
    nodes: &mut N,
    block: u32,
    steps: u32,
    sizes: &mut NodeSizes,
) -> Result<TreeSize, Fault>
    requires sound { N.is_sound nodes.old }
    requires low { spec.IsLow (N.node nodes.old) steps block }
    requires few { steps ≤ spec.most_steps }
    requires sizes { spec.AreSizes (N.node nodes.old) (N.blocks nodes.old) sizes.old }

    // What is found.
    ensures size { IfOk result (λ size. size ≡ spec.size_from (N.node nodes.old) block) }
    ensures sizes { OnOk result (spec.AreSizes (N.node nodes.old) (N.blocks nodes.old) sizes.new) }
    ensures stays { OnOk result (spec.StillHas sizes.old sizes.new) }
    ensures done { OnOk result (spec.AreDone sizes.old sizes.new) }

    // Why not, and what is read: each node that was not before, once.
    ensures why { IfErr result (λ fault. N.causes nodes.old nodes.new fault) }
    ensures faults { IfErr result IsLookFault }
    ensures looks { OnlyLooks N.node N.kept N.writes N.follows N.is_sound N.limit N.blocks nodes.old nodes.new }
    ensures reads { N.reads nodes.new + length sizes.old.read.items ≤ N.reads nodes.old + length sizes.new.read.items }
    ensures once { (roots : List ℕ) → Reached (N.node nodes.old) roots block → spec.IsGoneTo (N.node nodes.old) roots sizes.old block → AreReached (N.node nodes.old) roots sizes.new.read.items }
{
    if let Some(size) = sizes.size_at(block) {
        return Ok(size);
    }
    sizes.read.push(block)?;
    let Told { size: own, leads } = read_told(alloc, nodes, block)?;
    let mut size = own;
    for lead in &leads {
        let more = size_from(alloc, nodes, *lead, steps - 1, sizes)?;
        size = size.plus(more);
    }
    sizes.put(block, size);
    Ok(size)
}
