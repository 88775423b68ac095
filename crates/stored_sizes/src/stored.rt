//! How much stands in the trees of several roots, by the nodes that a flash holds.
ghost use Rattle.std.specs.Prelude.{◌≡◌, map, IfOk, IfErr};
ghost use Rattle.flash_model.specs.Geometry.{IsGeometry, block_bytes};
ghost use Rattle.node_store.specs.Fitting.{Fits};
ghost use Rattle.node_store.specs.NodePages.{node_of};
ghost use Rattle.node_store.specs.Stores.{IsSoundStore, Follows};
ghost use Rattle.reclaim.specs.Verified.{AreRoots};
ghost use Rattle.tree_counts.specs.Sizes.{size_of};
ghost use Rattle.working_state.specs.Leaves.{HasLooked};
ghost use Rattle.working_state.specs.Seen.{tree_on, seen_of};
ghost use Rattle.working_state.specs.Worked.{ReadCause};
ghost use Rattle.mounting.specs.Costs.{AsksEach};

use flash_model::Flash;
use fs_types::Fault;
use node_store::{Nodes, Storage, Store};
use std::alloc::Global;
use tree_counts::{TreeSize, sizes_of_roots};

/// How much stands in the trees of some roots, each of which is known to have one.
fn sizes_in<F: Flash>(
    alloc: Global,
    store: &mut Store<'_, F>,
    roots: &[u32],
) -> Result<Vec<TreeSize>, Fault>
    requires sound { IsSoundStore F.device store.old }
    requires trees { AreRoots (block_bytes (F.device store.old.flash.now).geometry) (node_of (F.device store.old.flash.now)) roots.now }
    ensures follows { Follows F.device store.old store.new }
    ensures sizes { IfOk result (λ sizes. sizes.items ≡ map (λ root. size_of (tree_on (F.device store.old.flash.now) root)) roots.now) }

    // By reads alone, and how many.
    ensures looked { HasLooked (F.device store.old.flash.now) store.old.storage.now (F.device store.new.flash.now) store.new.storage.now }
    ensures asks { AsksEach (F.device store.old.flash.now) roots.now (F.device store.new.flash.now) }
    ensures why { IfErr result (λ fault. ReadCause (seen_of (F.device store.old.flash.now) store.old.storage.now) fault (seen_of (F.device store.new.flash.now) store.new.storage.now)) }
{
    sizes_of_roots(alloc, store, roots)
}

/// The same, on a flash, in the order of the roots ([`sizes_of_roots`]). Each node of a directory that one
/// of them reaches or more is read once, and no other.
///
/// [`Fault::ReadFailed`], [`Fault::PowerCut`], [`Fault::NoMemory`].
pub fn sizes_of_roots_on<F: Flash>(
    alloc: Global,
    flash: &mut F,
    storage: &mut Storage,
    roots: &[u32],
) -> Result<Vec<TreeSize>, Fault>
    requires lawful { IsGeometry (F.device flash.old).geometry }
    requires ring_blocks { storage.old.ring.blocks ≡ (F.device flash.old).geometry.blocks }
    requires fits { Fits (F.device flash.old) storage.old }
    requires trees { AreRoots (block_bytes (F.device flash.old).geometry) (node_of (F.device flash.old)) roots.now }
    ensures sizes { IfOk result (λ sizes. sizes.items ≡ map (λ root. size_of (tree_on (F.device flash.old) root)) roots.now) }

    // By reads alone, and how many.
    ensures looked { HasLooked (F.device flash.old) storage.old (F.device flash.new) storage.new }
    ensures asks { AsksEach (F.device flash.old) roots.now (F.device flash.new) }
    ensures why { IfErr result (λ fault. ReadCause (seen_of (F.device flash.old) storage.old) fault (seen_of (F.device flash.new) storage.new)) }
{
    let mut store = Store::new(flash, storage);
    sizes_in(alloc, &mut store, roots)
}
