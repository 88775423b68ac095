//! A look at roots: at all of them together, or at each by itself.
ghost use Rattle.std.specs.Prelude.{◌≡◌, ◌↔◌, [], ◌∷◌, ◌++◌, if◌then◌else◌, IsTrue, IfOk, IfErr, OnOk};
ghost use Rattle.flash_model.specs.Geometry.{IsGeometry};
ghost use Rattle.flash_model.specs.Reading.{OnlyReads};
ghost use Rattle.node_store.specs.Fitting.{Fits};
ghost use Rattle.node_store.specs.Stores.{IsSoundStore, Follows};
ghost use Rattle.mounting.specs.Costs.{AsksToVerify};
ghost use Rattle.salvages.specs.Causes.{ReadCause};
ghost use Rattle.salvages.specs.Costs.{AsksToLook, AsksToFind};
ghost use Rattle.salvages.specs.Wholes.{AreAllWhole, IsWhole, AreLost};

use bad_blocks::BadBlocks;
use flash_model::Flash;
use fs_types::{ANCHORS, Fault, MOUNTED_NODES};
use node_store::{NodeCache, Nodes, Storage, Store};
use reclaim::verify;
use std::alloc::{AllocError, Global};

/// Whether some roots are all whole, by what nodes are kept with.
fn are_whole_in<F: Flash>(
    alloc: Global,
    store: &mut Store<'_, F>,
    roots: &[u32],
    plain: bool,
) -> Result<bool, Fault>
    requires { IsSoundStore F.device store.old }
    ensures follows { Follows F.device store.old store.new }
    ensures whole { IfOk result (λ whole. IsTrue whole ↔ AreAllWhole plain (F.device store.old.flash.now) roots.now) }
    ensures only_reads { OnlyReads (F.device store.old.flash.now) (F.device store.new.flash.now) }
    ensures asks { AsksToVerify (F.device store.old.flash.now) roots.now (F.device store.new.flash.now) }
    ensures why { IfErr result (ReadCause (F.device store.old.flash.now) (F.device store.new.flash.now)) }
{
    let blocks = store.block_count();
    match verify(alloc, blocks, store, roots, plain) {
        Ok(_) => Ok(true),
        Err(Fault::Damaged) => Ok(false),
        Err(fault) => Err(fault),
    }
}

/// The same, on a flash.
fn are_whole_on<F: Flash>(
    alloc: Global,
    flash: &mut F,
    storage: &mut Storage,
    roots: &[u32],
    plain: bool,
) -> Result<bool, Fault>
    requires lawful { IsGeometry (F.device flash.old).geometry }
    requires ring_blocks { storage.old.ring.blocks ≡ (F.device flash.old).geometry.blocks }
    requires fits { Fits (F.device flash.old) storage.old }
    ensures whole { IfOk result (λ whole. IsTrue whole ↔ AreAllWhole plain (F.device flash.old) roots.now) }
    ensures only_reads { OnlyReads (F.device flash.old) (F.device flash.new) }
    ensures asks { AsksToVerify (F.device flash.old) roots.now (F.device flash.new) }
    ensures why { IfErr result (ReadCause (F.device flash.old) (F.device flash.new)) }
{
    let mut store = Store::new(flash, storage);
    are_whole_in(alloc, &mut store, roots, plain)
}

/// Whether some roots are all whole. Of all that they reach the pages of one verification are read, and
/// nothing else.
fn are_whole<F: Flash>(
    alloc: Global,
    flash: &mut F,
    roots: &[u32],
    plain: bool,
) -> Result<bool, Fault>
    requires { IsGeometry (F.device flash.old).geometry }
    ensures whole { IfOk result (λ whole. IsTrue whole ↔ AreAllWhole plain (F.device flash.old) roots.now) }
    ensures only_reads { OnlyReads (F.device flash.old) (F.device flash.new) }
    ensures asks { AsksToVerify (F.device flash.old) roots.now (F.device flash.new) }
    ensures why { IfErr result (ReadCause (F.device flash.old) (F.device flash.new)) }
{
    let cache = NodeCache::new(alloc, MOUNTED_NODES)?;
    let mut storage = Storage::unused(alloc, flash.geometry(), BadBlocks::new(), ANCHORS, cache)?;
    are_whole_on(alloc, flash, &mut storage, roots, plain)
}

/// Whether a root is whole by itself: it has a tree of linked bodies, and where it is to be plain no
/// directory in that is a chain. Of all that it reaches the pages of one verification are read, and nothing else.
pub fn is_whole<F: Flash>(
    alloc: Global,
    flash: &mut F,
    root: u32,
    plain: bool,
) -> Result<bool, Fault>
    requires { IsGeometry (F.device flash.old).geometry }
    ensures whole { IfOk result (λ whole. IsTrue whole ↔ IsWhole plain (F.device flash.old) root) }
    ensures only_reads { OnlyReads (F.device flash.old) (F.device flash.new) }
    ensures asks { AsksToVerify (F.device flash.old) (root ∷ []) (F.device flash.new) }
    ensures why { IfErr result (ReadCause (F.device flash.old) (F.device flash.new)) }
{
    are_whole(alloc, flash, &[root], plain)
}

/// Puts a root after the lost ones, unless it is whole.
fn note_root(lost: &mut Vec<u32>, root: u32, whole: bool) -> Result<(), AllocError>
    ensures { OnOk result (lost.new.items ≡ (if whole then lost.old.items else lost.old.items ++ root ∷ [])) }
{
    if !whole {
        lost.push(root)?;
    }
    Ok(())
}

/// Those of some roots that are not whole by themselves. Each root is looked at once.
fn look_at_each<F: Flash>(
    alloc: Global,
    flash: &mut F,
    roots: &[u32],
    plain: bool,
) -> Result<Vec<u32>, Fault>
    requires { IsGeometry (F.device flash.old).geometry }
    ensures lost { IfOk result (λ lost. AreLost plain (F.device flash.old) roots.now lost.items) }
    ensures only_reads { OnlyReads (F.device flash.old) (F.device flash.new) }
    ensures asks { AsksToLook (F.device flash.old) roots.now (F.device flash.old).operations (F.device flash.new).operations }
    ensures why { IfErr result (ReadCause (F.device flash.old) (F.device flash.new)) }
{
    let mut lost = Vec::new(alloc);
    for root in roots {
        let whole = is_whole(alloc, flash, *root, plain)?;
        note_root(&mut lost, *root, whole)?;
    }
    Ok(lost)
}

/// Those of some roots that are not whole by themselves. All are looked at together, and each by itself only
/// where not all are whole.
pub(crate) fn find_lost<F: Flash>(
    alloc: Global,
    flash: &mut F,
    roots: &[u32],
    plain: bool,
) -> Result<Vec<u32>, Fault>
    requires { IsGeometry (F.device flash.old).geometry }
    ensures lost { IfOk result (λ lost. AreLost plain (F.device flash.old) roots.now lost.items) }
    ensures only_reads { OnlyReads (F.device flash.old) (F.device flash.new) }
    ensures asks { AsksToFind plain (F.device flash.old) roots.now (F.device flash.new) }
    ensures why { IfErr result (ReadCause (F.device flash.old) (F.device flash.new)) }
{
    let whole = are_whole(alloc, flash, roots, plain)?;
    if whole {
        return Ok(Vec::new(alloc));
    }
    look_at_each(alloc, flash, roots, plain)
}
