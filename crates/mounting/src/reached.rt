//! What roots reach, marked as used.
ghost use Rattle.std.specs.Prelude.{◌≡◌, ◌≤◌, ◌↔◌, ℕ, true, length, OnOk, IfOk, IfErr};
ghost use Rattle.std.specs.FinSet as set;
ghost use Rattle.flash_model.specs.Geometry.{IsGeometry, block_bytes};
ghost use Rattle.flash_model.specs.Reading.{OnlyReads};
ghost use Rattle.node_store.specs.Fitting.{Fits, StillFits};
ghost use Rattle.node_store.specs.NodePages.{node_of};
ghost use Rattle.node_store.specs.Storage as parts;
ghost use Rattle.node_store.specs.Stores.{IsSoundStore, Follows};
ghost use Rattle.nodes.specs.Reached.{Reached};
ghost use Rattle.reclaim.specs.Verified.{AreRoots, HasCost, all_reads};
ghost use Rattle.tree_counts.specs.FirstRoots.{AreFirstRoots};
ghost use Rattle.working_state.specs.Leaves.{HasLooked};
ghost use Rattle.working_state.specs.Seen.{seen_of};
ghost use Rattle.working_state.specs.Worked.{ReadCause};
ghost use Rattle.mounting.specs.Costs.{ReadsEach, AsksEach, AsksToVerify};
ghost use Rattle.mounting.specs.Records.{HaveTrees, RootsCause};

use block_ring::Marks;
use flash_model::Flash;
use fs_types::Fault;
use node_store::{Nodes, Storage, Store};
use reclaim::{Pass, verify};
use std::alloc::Global;
use tree_counts::find_first_roots;

/// The blocks that roots reach, each of which has a tree; where they are to be plain, one whose
/// directories are nodes that stand alone.
fn reached_in<F: Flash>(
    alloc: Global,
    store: &mut Store<'_, F>,
    roots: &[u32],
    plain: bool,
) -> Result<Marks, Fault>
    requires { IsSoundStore F.device store.old }
    ensures follows { Follows F.device store.old store.new }

    // The blocks.
    ensures trees { IfOk result (λ _. HaveTrees plain (F.device store.old.flash.now) roots.now) }
    ensures reached { IfOk result (λ marks. (b : ℕ) → (set.contains marks.members b ≡ true) ↔ Reached (node_of (F.device store.old.flash.now)) roots.now b) }
    ensures blocks { IfOk result (λ marks. marks.blocks ≡ (F.device store.old.flash.now).geometry.blocks) }

    // By reads alone, and how many.
    ensures looked { HasLooked (F.device store.old.flash.now) store.old.storage.now (F.device store.new.flash.now) store.new.storage.now }
    ensures reads { HasCost all_reads (node_of (F.device store.old.flash.now)) roots.now store.old.reads.n store.new.reads.n }
    ensures asks { AsksToVerify (F.device store.old.flash.now) roots.now (F.device store.new.flash.now) }
    ensures why { IfErr result (RootsCause plain (F.device store.old.flash.now) roots.now (F.device store.new.flash.now)) }
{
    let blocks = store.block_count();
    let pass = verify(alloc, blocks, store, roots, plain)?;
    Ok(pass.finish())
}

/// The same, on a flash.
fn reached_on<F: Flash>(
    alloc: Global,
    flash: &mut F,
    storage: &mut Storage,
    roots: &[u32],
    plain: bool,
) -> Result<Marks, Fault>
    requires lawful { IsGeometry (F.device flash.old).geometry }
    requires ring_blocks { storage.old.ring.blocks ≡ (F.device flash.old).geometry.blocks }
    requires fits { Fits (F.device flash.old) storage.old }

    // The blocks.
    ensures trees { IfOk result (λ _. HaveTrees plain (F.device flash.old) roots.now) }
    ensures reached { IfOk result (λ marks. (b : ℕ) → (set.contains marks.members b ≡ true) ↔ Reached (node_of (F.device flash.old)) roots.now b) }
    ensures blocks { IfOk result (λ marks. marks.blocks ≡ (F.device flash.old).geometry.blocks) }

    // By reads alone, and how many.
    ensures looked { HasLooked (F.device flash.old) storage.old (F.device flash.new) storage.new }
    ensures asks { AsksToVerify (F.device flash.old) roots.now (F.device flash.new) }
    ensures why { IfErr result (RootsCause plain (F.device flash.old) roots.now (F.device flash.new)) }
{
    let mut store = Store::new(flash, storage);
    reached_in(alloc, &mut store, roots, plain)
}

/// The blocks that roots reach, each of which is known to have a tree: they are read once, and of the
/// nodes of bodies the first page alone.
fn marked_in<F: Flash>(
    alloc: Global,
    store: &mut Store<'_, F>,
    roots: &[u32],
) -> Result<Marks, Fault>
    requires sound { IsSoundStore F.device store.old }
    requires trees { AreRoots (block_bytes (F.device store.old.flash.now).geometry) (node_of (F.device store.old.flash.now)) roots.now }
    ensures follows { Follows F.device store.old store.new }

    // The blocks.
    ensures reached { IfOk result (λ marks. (b : ℕ) → (set.contains marks.members b ≡ true) ↔ Reached (node_of (F.device store.old.flash.now)) roots.now b) }
    ensures blocks { IfOk result (λ marks. marks.blocks ≡ (F.device store.old.flash.now).geometry.blocks) }

    // By reads alone, and how many.
    ensures looked { HasLooked (F.device store.old.flash.now) store.old.storage.now (F.device store.new.flash.now) store.new.storage.now }
    ensures reads { ReadsEach (node_of (F.device store.old.flash.now)) roots.now store.old.reads.n store.new.reads.n }
    ensures asks { AsksEach (F.device store.old.flash.now) roots.now (F.device store.new.flash.now) }
    ensures why { IfErr result (λ fault. ReadCause (seen_of (F.device store.old.flash.now) store.old.storage.now) fault (seen_of (F.device store.new.flash.now) store.new.storage.now)) }
{
    let mut pass = Pass::start(alloc, store.block_count(), roots)?;
    pass.read_all(store)?;
    Ok(pass.finish())
}

/// The same, on a flash.
pub fn marked_on<F: Flash>(
    alloc: Global,
    flash: &mut F,
    storage: &mut Storage,
    roots: &[u32],
) -> Result<Marks, Fault>
    requires lawful { IsGeometry (F.device flash.old).geometry }
    requires ring_blocks { storage.old.ring.blocks ≡ (F.device flash.old).geometry.blocks }
    requires fits { Fits (F.device flash.old) storage.old }
    requires trees { AreRoots (block_bytes (F.device flash.old).geometry) (node_of (F.device flash.old)) roots.now }

    // The blocks.
    ensures reached { IfOk result (λ marks. (b : ℕ) → (set.contains marks.members b ≡ true) ↔ Reached (node_of (F.device flash.old)) roots.now b) }
    ensures blocks { IfOk result (λ marks. marks.blocks ≡ (F.device flash.old).geometry.blocks) }

    // By reads alone, and how many.
    ensures looked { HasLooked (F.device flash.old) storage.old (F.device flash.new) storage.new }
    ensures asks { AsksEach (F.device flash.old) roots.now (F.device flash.new) }
    ensures why { IfErr result (λ fault. ReadCause (seen_of (F.device flash.old) storage.old) fault (seen_of (F.device flash.new) storage.new)) }
{
    let mut store = Store::new(flash, storage);
    marked_in(alloc, &mut store, roots)
}

/// Of each block the number, from 1 on, of the first of some roots that reaches it, 0 where none does.
fn first_roots_in<F: Flash>(
    alloc: Global,
    store: &mut Store<'_, F>,
    roots: &[u32],
) -> Result<Vec<u8>, Fault>
    requires sound { IsSoundStore F.device store.old }
    requires trees { AreRoots (block_bytes (F.device store.old.flash.now).geometry) (node_of (F.device store.old.flash.now)) roots.now }
    requires few { length roots.now ≤ 255 }
    ensures follows { Follows F.device store.old store.new }

    // The numbers.
    ensures firsts { IfOk result (λ firsts. AreFirstRoots (node_of (F.device store.old.flash.now)) roots.now firsts.items) }
    ensures sized { IfOk result (λ firsts. length firsts.items ≡ (F.device store.old.flash.now).geometry.blocks) }

    // By reads alone, and how many.
    ensures looked { HasLooked (F.device store.old.flash.now) store.old.storage.now (F.device store.new.flash.now) store.new.storage.now }
    ensures asks { AsksEach (F.device store.old.flash.now) roots.now (F.device store.new.flash.now) }
    ensures why { IfErr result (λ fault. ReadCause (seen_of (F.device store.old.flash.now) store.old.storage.now) fault (seen_of (F.device store.new.flash.now) store.new.storage.now)) }
{
    find_first_roots(alloc, store, roots)
}

/// The same, on a flash ([`find_first_roots`]). There are at most 255 roots, each of which is known to have
/// a tree. The nodes that they reach are read once, and of those of bodies the first page alone.
pub fn first_roots_on<F: Flash>(
    alloc: Global,
    flash: &mut F,
    storage: &mut Storage,
    roots: &[u32],
) -> Result<Vec<u8>, Fault>
    requires lawful { IsGeometry (F.device flash.old).geometry }
    requires ring_blocks { storage.old.ring.blocks ≡ (F.device flash.old).geometry.blocks }
    requires fits { Fits (F.device flash.old) storage.old }
    requires trees { AreRoots (block_bytes (F.device flash.old).geometry) (node_of (F.device flash.old)) roots.now }
    requires few { length roots.now ≤ 255 }

    // The numbers.
    ensures firsts { IfOk result (λ firsts. AreFirstRoots (node_of (F.device flash.old)) roots.now firsts.items) }
    ensures sized { IfOk result (λ firsts. length firsts.items ≡ (F.device flash.old).geometry.blocks) }

    // By reads alone, and how many.
    ensures looked { HasLooked (F.device flash.old) storage.old (F.device flash.new) storage.new }
    ensures asks { AsksEach (F.device flash.old) roots.now (F.device flash.new) }
    ensures why { IfErr result (λ fault. ReadCause (seen_of (F.device flash.old) storage.old) fault (seen_of (F.device flash.new) storage.new)) }
{
    let mut store = Store::new(flash, storage);
    first_roots_in(alloc, &mut store, roots)
}

/// Makes exactly the blocks used that roots reach, where no block was noted; `Damaged` where a root has
/// no tree of linked bodies, or where they are to be plain and a directory is a chain.
pub(crate) fn use_reached<F: Flash>(
    alloc: Global,
    flash: &mut F,
    storage: &mut Storage,
    roots: &[u32],
    plain: bool,
) -> Result<(), Fault>
    requires lawful { IsGeometry (F.device flash.old).geometry }
    requires ring_blocks { storage.old.ring.blocks ≡ (F.device flash.old).geometry.blocks }
    requires fits { Fits (F.device flash.old) storage.old }
    requires unnoted { storage.old.ring.note ≡ set.empty }

    // What is used, and nothing else of it.
    ensures trees { OnOk result (HaveTrees plain (F.device flash.old) roots.now) }
    ensures used { OnOk result ((b : ℕ) → (set.contains storage.new.ring.used b ≡ true) ↔ Reached (node_of (F.device flash.old)) roots.now b) }
    ensures ring { storage.new.ring ≡ record storage.old.ring { used = storage.new.ring.used } }
    ensures bad { storage.new.bad ≡ storage.old.bad }

    // By reads alone, and how many.
    ensures fits { StillFits (F.device flash.old) storage.old (F.device flash.new) storage.new }
    ensures only_reads { OnlyReads (F.device flash.old) (F.device flash.new) }
    ensures asks { AsksToVerify (F.device flash.old) roots.now (F.device flash.new) }
    ensures why { IfErr result (RootsCause plain (F.device flash.old) roots.now (F.device flash.new)) }
{
    let marks = reached_on(alloc, flash, storage, roots, plain)?;
    storage.install(marks);
    Ok(())
}
