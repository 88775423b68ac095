//! The free blocks that writes take next are erased before, each once until it is taken.
ghost use Rattle.std.specs.Prelude.{◌≡◌, ◌<◌, IfOk, IfErr, IfSome, OnOk};
ghost use Rattle.std.specs.FinSet as set;
ghost use Rattle.fs_types.specs.declared.limits.TheConstants.{MAX_BAD_BLOCKS};
ghost use Rattle.system.specs.CleaningRounds.{CleanCause, ErasesFree, IsCleanable, IsFreeBlock, is_free};
ghost use Rattle.system.specs.Preparations.{PreparesBlocks, PreparesNext, next_unprepared as the_next, preparation};

use crate::cleaning_rounds::erase_block;
use crate::prepared_blocks::PreparedBlocks;
use flash_model::Flash;
use fs_types::{ANCHORS, Fault};
use node_store::Storage;

/// So many of the free blocks that are taken next are prepared.
pub const BLOCKS_AHEAD: usize = 64;

/// Erases the free blocks that are taken next and are not prepared, `budget` of them at most, blank or
/// not: of the [`BLOCKS_AHEAD`] first ones in ring order after the last one taken. Whether all of these
/// are prepared then. Where all are, the flash is asked for nothing.
///
/// A block of which the erase fails goes into the bad list. In order, at a block: [`Fault::PowerCut`] by
/// the device; [`Fault::ReadOnly`] where the bad list is then at its limit. No memory is asked for.
pub fn prepare_blocks<F: Flash>(
    flash: &mut F,
    storage: &mut Storage,
    prepared: &mut PreparedBlocks,
    budget: u64,
) -> Result<bool, Fault>
    requires cleanable { IsCleanable (F.device flash.old) storage.old }
    requires sized { prepared.old.blocks ≡ storage.old.ring.blocks }
    requires room { set.len storage.old.bad < MAX_BAD_BLOCKS }
    ensures { PreparesBlocks (preparation (F.device flash.old) storage.old prepared.old) budget result (preparation (F.device flash.new) storage.new prepared.new) }
{
    for _done in 0..budget {
        let Some(block) = next_unprepared(storage, prepared) else {
            return Ok(true);
        };
        prepare_block(flash, storage, prepared, block)?;
    }
    Ok(next_unprepared(storage, prepared).is_none())
}

/// The first block that is not prepared of the free ones that are taken next; none where all are.
fn next_unprepared(storage: &Storage, prepared: &PreparedBlocks) -> Option<u32>
    ensures next { result ≡ the_next storage.now prepared.now }
    ensures free { IfSome result (IsFreeBlock storage.now) }
{
    let last = storage.ring.last();
    let end = storage.ring.blocks();
    (last + 1..end)
        .chain(ANCHORS..last + 1)
        .filter(|block| is_free(storage, *block))
        .take(BLOCKS_AHEAD)
        .find(|block| !prepared.contains(*block))
}

/// Whether a block is neither used nor bad.
fn is_free(storage: &Storage, block: u32) -> bool
    ensures { result ≡ is_free storage.now block }
{
    !(storage.ring.is_used(block) || storage.bad.contains(block))
}

/// Erases a free block, which is prepared then. Where the erase fails it goes into the bad list.
fn prepare_block<F: Flash>(
    flash: &mut F,
    storage: &mut Storage,
    prepared: &mut PreparedBlocks,
    block: u32,
) -> Result<(), Fault>
    requires cleanable { IsCleanable (F.device flash.old) storage.old }
    requires sized { prepared.old.blocks ≡ storage.old.ring.blocks }
    requires next { the_next storage.old prepared.old ≡ Some block }
    requires free { IsFreeBlock storage.old block }
    requires room { set.len storage.old.bad < MAX_BAD_BLOCKS }
    ensures next { PreparesNext (preparation (F.device flash.old) storage.old prepared.old) result (preparation (F.device flash.new) storage.new prepared.new) }
    ensures cleanable { IsCleanable (F.device flash.new) storage.new }
    ensures erases { ErasesFree (F.device flash.old) storage.old (F.device flash.new) storage.new }
    ensures room { OnOk result (set.len storage.new.bad < MAX_BAD_BLOCKS) }
    ensures why { IfErr result (CleanCause (F.device flash.new) storage.new.bad) }
{
    storage.cache.forget(block);
    erase_block(flash, &mut storage.bad, block)?;
    prepared.insert(block);
    Ok(())
}
