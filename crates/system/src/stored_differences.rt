//! Where the trees of two roots differ, by the nodes that a flash holds.
ghost use Rattle.std.specs.Prelude.{◌≡◌, IfOk, IfErr};
ghost use Rattle.flash_model.specs.Geometry.{IsGeometry};
ghost use Rattle.node_store.specs.Fitting.{Fits};
ghost use Rattle.node_store.specs.NodePages.{node_of};
ghost use Rattle.node_store.specs.Stores.{IsSoundStore, Follows};
ghost use Rattle.nodes.specs.Trees.{IsRoot};
ghost use Rattle.tree_differences.specs.Differing.{differing_paths};
ghost use Rattle.working_state.specs.Leaves.{HasLooked};
ghost use Rattle.working_state.specs.Seen.{capacity_of, tree_on, seen_of};
ghost use Rattle.working_state.specs.Worked.{ReadCause};

use flash_model::Flash;
use fs_types::{Fault, Path, Sequence};
use node_store::{Nodes, Storage, Store};
use std::alloc::Global;
use tree_differences::differing_paths;

/// The paths of the tree of a root at which that of another leads elsewhere; both are known to have one.
fn differing_paths_in<F: Flash>(
    alloc: Global,
    store: &mut Store<'_, F>,
    root: u32,
    other: u32,
) -> Result<Sequence<Path>, Fault>
    requires sound { IsSoundStore F.device store.old }
    requires tree { IsRoot (capacity_of (F.device store.old.flash.now)) (node_of (F.device store.old.flash.now)) root }
    requires other { IsRoot (capacity_of (F.device store.old.flash.now)) (node_of (F.device store.old.flash.now)) other }
    ensures follows { Follows F.device store.old store.new }
    ensures paths { IfOk result (λ paths. paths ≡ differing_paths (node_of (F.device store.old.flash.now)) root other (tree_on (F.device store.old.flash.now) root)) }
    ensures looked { HasLooked (F.device store.old.flash.now) store.old.storage.now (F.device store.new.flash.now) store.new.storage.now }
    ensures why { IfErr result (λ fault. ReadCause (seen_of (F.device store.old.flash.now) store.old.storage.now) fault (seen_of (F.device store.new.flash.now) store.new.storage.now)) }
{
    differing_paths(alloc, store, root, other)
}

/// The same, on a flash ([`differing_paths`]), by reads alone.
pub fn differing_paths_on<F: Flash>(
    alloc: Global,
    flash: &mut F,
    storage: &mut Storage,
    root: u32,
    other: u32,
) -> Result<Sequence<Path>, Fault>
    requires lawful { IsGeometry (F.device flash.old).geometry }
    requires ring_blocks { storage.old.ring.blocks ≡ (F.device flash.old).geometry.blocks }
    requires fits { Fits (F.device flash.old) storage.old }
    requires tree { IsRoot (capacity_of (F.device flash.old)) (node_of (F.device flash.old)) root }
    requires other { IsRoot (capacity_of (F.device flash.old)) (node_of (F.device flash.old)) other }
    ensures paths { IfOk result (λ paths. paths ≡ differing_paths (node_of (F.device flash.old)) root other (tree_on (F.device flash.old) root)) }
    ensures looked { HasLooked (F.device flash.old) storage.old (F.device flash.new) storage.new }
    ensures why { IfErr result (λ fault. ReadCause (seen_of (F.device flash.old) storage.old) fault (seen_of (F.device flash.new) storage.new)) }
{
    let mut store = Store::new(flash, storage);
    differing_paths_in(alloc, &mut store, root, other)
}
