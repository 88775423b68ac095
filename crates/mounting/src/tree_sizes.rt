//! How much stands in the tree of a root.
ghost use Rattle.std.specs.Prelude.{◌≡◌, ◌-◌, [], ◌∷◌, IfOk, IfErr};
ghost use Rattle.flash_model.specs.Geometry.{IsGeometry, block_bytes};
ghost use Rattle.node_store.specs.Fitting.{Fits};
ghost use Rattle.node_store.specs.NodePages.{node_of};
ghost use Rattle.node_store.specs.Stores.{IsSoundStore, Follows};
ghost use Rattle.nodes.specs.Trees.{IsRoot};
ghost use Rattle.tree_counts.specs.Sizes.{size_of};
ghost use Rattle.working_state.specs.Leaves.{HasLooked};
ghost use Rattle.working_state.specs.Seen.{capacity_of, tree_on, seen_of};
ghost use Rattle.working_state.specs.Worked.{ReadCause};
ghost use Rattle.mounting.specs.Costs.{AsksEach};

use flash_model::Flash;
use fs_types::Fault;
use node_store::{Nodes, Storage, Store};
use std::alloc::Global;
use tree_counts::{TreeSize, size_of_root};

/// How much stands in the tree of a root, which is known to have one.
fn tree_size_in<F: Flash>(
    alloc: Global,
    store: &mut Store<'_, F>,
    root: u32,
) -> Result<TreeSize, Fault>
    requires sound { IsSoundStore F.device store.old }
    requires tree { IsRoot (capacity_of (F.device store.old.flash.now)) (node_of (F.device store.old.flash.now)) root }
    ensures follows { Follows F.device store.old store.new }
    ensures size { IfOk result (λ size. size ≡ size_of (tree_on (F.device store.old.flash.now) root)) }

    // By reads alone, and how many.
    ensures looked { HasLooked (F.device store.old.flash.now) store.old.storage.now (F.device store.new.flash.now) store.new.storage.now }
    ensures asks { AsksEach (F.device store.old.flash.now) (root ∷ []) (F.device store.new.flash.now) }
    ensures why { IfErr result (λ fault. ReadCause (seen_of (F.device store.old.flash.now) store.old.storage.now) fault (seen_of (F.device store.new.flash.now) store.new.storage.now)) }
{
    size_of_root(alloc, store, root)
}

/// The same, on a flash ([`size_of_root`]). The nodes of the directories that the root reaches are read
/// once, and no others.
pub fn tree_size_on<F: Flash>(
    alloc: Global,
    flash: &mut F,
    storage: &mut Storage,
    root: u32,
) -> Result<TreeSize, Fault>
    requires lawful { IsGeometry (F.device flash.old).geometry }
    requires ring_blocks { storage.old.ring.blocks ≡ (F.device flash.old).geometry.blocks }
    requires fits { Fits (F.device flash.old) storage.old }
    requires tree { IsRoot (capacity_of (F.device flash.old)) (node_of (F.device flash.old)) root }
    ensures size { IfOk result (λ size. size ≡ size_of (tree_on (F.device flash.old) root)) }

    // By reads alone, and how many.
    ensures looked { HasLooked (F.device flash.old) storage.old (F.device flash.new) storage.new }
    ensures asks { AsksEach (F.device flash.old) (root ∷ []) (F.device flash.new) }
    ensures why { IfErr result (λ fault. ReadCause (seen_of (F.device flash.old) storage.old) fault (seen_of (F.device flash.new) storage.new)) }
{
    let mut store = Store::new(flash, storage);
    tree_size_in(alloc, &mut store, root)
}
