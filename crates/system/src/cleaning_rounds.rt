//! A round over the blocks of a flash: those that are free and not blank are erased.
ghost use Rattle.std.specs.Prelude.{◌≡◌, ◌⊎◌, ◌+◌, ◌<◌, ◌≤◌, true, false, max, IfOk, OnOk, OnErr, IfErr};
ghost use Rattle.std.specs.FinSet as set;
ghost use Rattle.fs_types.specs.declared.limits.TheConstants.{ANCHORS, MAX_BAD_BLOCKS};
ghost use Rattle.system.specs.CleaningRounds.{AreClean, CleanCause, CleansBlocks, ErasesBlock, IsBlank, IsCleanable, LooksAt, free_between, is_free};

use crate::blank_blocks::is_blank;
use bad_blocks::BadBlocks;
use flash_model::{DevFault, Flash};
use fs_types::{ANCHORS, Fault};
use node_store::{Storage, list_block};

/// Goes on with a round from the block `from` on: looks at `budget` blocks at most that are free in the
/// ring, neither used nor bad, and erases those that are not blank. Answers the free block that is looked
/// at next; none where the round is over.
///
/// A block of which the erase fails goes into the bad list. In order, at a block: [`Fault::PowerCut`] by
/// the device; [`Fault::ReadOnly`] where the bad list is then at its limit. No memory is asked for.
pub fn clean_blocks<F: Flash>(
    flash: &mut F,
    storage: &mut Storage,
    from: u32,
    budget: u64,
) -> Result<Option<u32>, Fault>
    requires cleanable { IsCleanable (F.device flash.old) storage.old }
    requires room { set.len storage.old.bad < MAX_BAD_BLOCKS }
    ensures { CleansBlocks (F.device flash.old) storage.old (max from ANCHORS) budget result (F.device flash.new) storage.new }
{
    let blocks = storage.ring.blocks();
    let first = from.max(ANCHORS);
    let mut left = budget;
    for block in first..blocks {
        if !pass_block(flash, storage, block, &mut left)? {
            return Ok(Some(block));
        }
    }
    Ok(None)
}

/// Looks at a block, if it is free, and takes one off what is left to look at; false where nothing is left.
fn pass_block<F: Flash>(
    flash: &mut F,
    storage: &mut Storage,
    block: u32,
    left: &mut u64,
) -> Result<bool, Fault>
    requires cleanable { IsCleanable (F.device flash.old) storage.old }
    requires in_range { block < (F.device flash.old).geometry.blocks }
    requires room { set.len storage.old.bad < MAX_BAD_BLOCKS }
    ensures looks { LooksAt (F.device flash.old) storage.old block (block + 1) (F.device flash.new) storage.new }
    ensures passes { IfOk result (λ is_past. is_past ≡ true → AreClean storage.old block (block + 1) (F.device flash.new) storage.new × (left.new + free_between storage.old block (block + 1) ≡ left.old)) }
    ensures stays { IfOk result (λ is_past. is_past ≡ false → (left.old ≡ 0) × (is_free storage.old block ≡ true) × (F.device flash.new ≡ F.device flash.old) × (storage.new ≡ storage.old)) }
    ensures room { OnOk result (set.len storage.new.bad < MAX_BAD_BLOCKS) }
    ensures some_left { OnErr result (free_between storage.old block (block + 1) ≤ left.old) }
    ensures why { IfErr result (CleanCause (F.device flash.new) storage.new.bad) }
{
    if storage.ring.is_used(block) || storage.bad.contains(block) {
        return Ok(true);
    }
    if *left == 0 {
        return Ok(false);
    }
    *left -= 1;
    clean_block(flash, storage, block)?;
    Ok(true)
}

/// Erases a free block that is not blank. Where that fails it goes into the bad list.
fn clean_block<F: Flash>(flash: &mut F, storage: &mut Storage, block: u32) -> Result<(), Fault>
    requires cleanable { IsCleanable (F.device flash.old) storage.old }
    requires in_range { block < (F.device flash.old).geometry.blocks }
    requires free { is_free storage.old block ≡ true }
    requires room { set.len storage.old.bad < MAX_BAD_BLOCKS }
    ensures looks { LooksAt (F.device flash.old) storage.old block (block + 1) (F.device flash.new) storage.new }
    ensures clean { OnOk result ((set.contains storage.new.bad block ≡ true) ⊎ IsBlank (F.device flash.new) block) }
    ensures room { OnOk result (set.len storage.new.bad < MAX_BAD_BLOCKS) }
    ensures why { IfErr result (CleanCause (F.device flash.new) storage.new.bad) }
{
    if is_blank(flash, block, &mut storage.page)? {
        return Ok(());
    }
    storage.cache.forget(block);
    erase_block(flash, &mut storage.bad, block)
}

/// Erases a block. Where that fails it goes into the bad list.
pub(crate) fn erase_block<F: Flash>(
    flash: &mut F,
    bad: &mut BadBlocks,
    block: u32,
) -> Result<(), Fault>
    requires in_range { block < (F.device flash.old).geometry.blocks }
    requires good { set.contains bad.old block ≡ false }
    requires room { set.len bad.old < MAX_BAD_BLOCKS }
    ensures erases { ErasesBlock (F.device flash.old) bad.old block (F.device flash.new) bad.new }
    ensures clean { OnOk result ((set.contains bad.new block ≡ true) ⊎ IsBlank (F.device flash.new) block) }
    ensures room { OnOk result (set.len bad.new < MAX_BAD_BLOCKS) }
    ensures why { IfErr result (CleanCause (F.device flash.new) bad.new) }
{
    match flash.erase(block) {
        Ok(()) => Ok(()),
        Err(DevFault::PowerCut) => Err(Fault::PowerCut),
        Err(DevFault::Failed) => list_block(bad, block),
    }
}
