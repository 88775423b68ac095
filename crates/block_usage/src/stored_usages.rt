//! How many blocks the entries of a directory reach, by the nodes that a flash holds.
ghost use Rattle.std.specs.Prelude.{◌≡◌, IfOk, IfErr};
ghost use Rattle.flash_model.specs.Geometry.{IsGeometry};
ghost use Rattle.node_store.specs.Fitting.{Fits};
ghost use Rattle.node_store.specs.NodePages.{node_of};
ghost use Rattle.node_store.specs.Stores.{IsSoundStore, Follows};
ghost use Rattle.nodes.specs.Trees.{IsRoot};
ghost use Rattle.block_usage.specs.Usages.{IsListAt};
ghost use Rattle.working_state.specs.Leaves.{HasLooked};
ghost use Rattle.working_state.specs.Seen.{capacity_of};
ghost use Rattle.block_usage.specs.UsageReports.{StoredCause};

use crate::usage_fault::UsageFault;
use crate::usage_list::{UsageList, find_usages};
use block_ring::Marks;
use flash_model::Flash;
use fs_types::Path;
use node_store::{Nodes, Storage, Store};
use std::alloc::Global;

/// How many blocks what stands at a path below a root reaches, which is known to have a tree.
fn usages_in<F: Flash>(
    alloc: Global,
    store: &mut Store<'_, F>,
    root: u32,
    path: &Path,
    apart: &Marks,
) -> Result<UsageList, UsageFault>
    requires sound { IsSoundStore F.device store.old }
    requires tree { IsRoot (capacity_of (F.device store.old.flash.now)) (node_of (F.device store.old.flash.now)) root }
    ensures follows { Follows F.device store.old store.new }
    ensures list { IfOk result (IsListAt (node_of (F.device store.old.flash.now)) root path.now apart.now.members) }
    ensures looked { HasLooked (F.device store.old.flash.now) store.old.storage.now (F.device store.new.flash.now) store.new.storage.now }
    ensures err { IfErr result (StoredCause (F.device store.old.flash.now) root path.now apart.now.members (F.device store.new.flash.now)) }
{
    find_usages(alloc, store, root, path, apart)
}

/// The same, on a flash ([`find_usages`]), by reads alone.
pub(crate) fn usages_on<F: Flash>(
    alloc: Global,
    flash: &mut F,
    storage: &mut Storage,
    root: u32,
    path: &Path,
    apart: &Marks,
) -> Result<UsageList, UsageFault>
    requires lawful { IsGeometry (F.device flash.old).geometry }
    requires ring_blocks { storage.old.ring.blocks ≡ (F.device flash.old).geometry.blocks }
    requires fits { Fits (F.device flash.old) storage.old }
    requires tree { IsRoot (capacity_of (F.device flash.old)) (node_of (F.device flash.old)) root }
    ensures list { IfOk result (IsListAt (node_of (F.device flash.old)) root path.now apart.now.members) }
    ensures looked { HasLooked (F.device flash.old) storage.old (F.device flash.new) storage.new }
    ensures err { IfErr result (StoredCause (F.device flash.old) root path.now apart.now.members (F.device flash.new)) }
{
    let mut store = Store::new(flash, storage);
    usages_in(alloc, &mut store, root, path, apart)
}
