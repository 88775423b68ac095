//! Adding a node to the flash: blocks are taken and tried until one holds it.
ghost use Rattle.std.specs.Prelude.{◌≡◌, ◌≢◌, ℕ, ◌+◌, ◌≤◌, ◌<◌, false, length, vec_len, true, Some, None, Ok, IfOk, IfErr, MatchResult};
ghost use Rattle.std.specs.FinSet as set;
ghost use Rattle.block_ring.specs.Ring.{next_free, free_count};
ghost use Rattle.flash_model.specs.Device.{block_of};
ghost use Rattle.flash_model.specs.Geometry.{IsGeometry, block_bytes};
ghost use Rattle.node_store.specs.NodeCache.{node_in};
ghost use Rattle.node_format.specs.Headers.{IsNode};
ghost use Rattle.node_store.specs.Fitting.{StillFits, IsListedFirst, ListsNone};
ghost use Rattle.node_store.specs.NewNodes.{IsWritable, WritesNode, ListsWritten};
ghost use Rattle.node_store.specs.Storage.{IsAttempt, storage};
ghost use Rattle.node_store.specs.Stores.{storage_on};
ghost use Rattle.fs_types.specs.declared.limits.TheConstants.{MAX_BAD_BLOCKS};

use crate::node_writes::write_block;
use crate::storage::Storage;
use bad_blocks::BadBlocks;
use block_ring::Ring;
use flash_model::{DevFault, Flash};
use fs_types::Fault;
use std::mem;

/// The block that a write takes next: it is neither used nor bad.
fn next_block(ring: &Ring, bad: &BadBlocks) -> Result<u32, Fault>
    ensures next { IfOk result (λ block. next_free ring.now bad.now ≡ Some block) }
    ensures full { IfErr result (λ fault. (fault ≡ Fault.FlashFull) × (free_count ring.now bad.now ≡ 0)) }
{
    match ring.next_free(bad) {
        Some(block) => Ok(block),
        None => Err(Fault::FlashFull),
    }
}

/// Puts a block into the bad list, which has room for it. Refused with `ReadOnly` where the list is
/// then at its limit.
pub fn list_block(bad: &mut BadBlocks, block: u32) -> Result<(), Fault>
    requires good { set.contains bad.old block ≡ false }
    requires room { set.len bad.old < MAX_BAD_BLOCKS }
    ensures listed { bad.new ≡ set.insert bad.old block }
    ensures limit { MatchResult result (λ _. set.len bad.new < MAX_BAD_BLOCKS) (λ fault. (fault ≡ Fault.ReadOnly) × (set.len bad.new ≡ MAX_BAD_BLOCKS)) }
{
    bad.add(block).unwrap();
    if bad.is_full() {
        return Err(Fault::ReadOnly);
    }
    Ok(())
}

/// Takes the block that is next and writes the node to it. Where an operation failed, the block is
/// put into the bad list, and the answer is None.
fn try_block<F: Flash>(
    flash: &mut F,
    bad: &mut BadBlocks,
    ring: &mut Ring,
    page: &mut Vec<u8>,
    bytes: &[u8],
    block: u32,
) -> Result<Option<u32>, Fault>
    requires lawful { IsGeometry (F.device flash.old).geometry }
    requires ring_blocks { ring.old.blocks ≡ (F.device flash.old).geometry.blocks }
    requires whole { vec_len page.old ≡ (F.device flash.old).geometry.page }
    requires node { IsNode (block_bytes (F.device flash.old).geometry) bytes.now }
    requires room { set.len bad.old < MAX_BAD_BLOCKS }
    requires next { next_free ring.old bad.old ≡ Some block }

    // The block is taken, and holds the node after Ok with the block.
    ensures attempt { IsAttempt (storage (F.device flash.old) bad.old ring.old) bytes.now (storage (F.device flash.new) bad.new ring.new) result }
    ensures block { (b : ℕ) → result ≡ Ok (Some b) → b ≡ block }
    ensures taken { ring.new.used ≡ set.insert ring.old.used block }
    ensures fresh { set.contains ring.old.used block ≡ false }

    // What stays.
    ensures others { (p : ℕ) → block_of (F.device flash.old) p ≢ block → (F.device flash.new).pages p ≡ (F.device flash.old).pages p }
    ensures page { vec_len page.new ≡ vec_len page.old }
{
    ring.take_at(block);
    match write_block(flash, block, page, bytes) {
        Ok(()) => Ok(Some(block)),
        Err(DevFault::PowerCut) => Err(Fault::PowerCut),
        Err(DevFault::Failed) => {
            list_block(bad, block)?;
            Ok(None)
        }
    }
}

/// Moves the node into the cache, takes a block and writes the node to it, which is listed first then.
/// Where an operation failed, the block is put into the bad list, the node is given back, and the answer
/// is None.
fn write_next<F: Flash>(
    flash: &mut F,
    storage: &mut Storage,
    node: &mut Vec<u8>,
) -> Result<Option<u32>, Fault>
    requires writable { IsWritable (F.device flash.old) storage.old node.old.items }
    requires room { set.len storage.old.bad < MAX_BAD_BLOCKS }

    // The attempt, and the node where others may follow.
    ensures attempt { IsAttempt (storage_on (F.device flash.old) storage.old) node.old.items (storage_on (F.device flash.new) storage.new) result }
    ensures back { result ≡ Ok None → node.new.items ≡ node.old.items }

    // The cache.
    ensures fits { StillFits (F.device flash.old) storage.old (F.device flash.new) storage.new }
    ensures listed { (b : ℕ) → result ≡ Ok (Some b) → IsListedFirst storage.new b node.old.items }
    ensures unlisted { ListsNone storage.old storage.new result }
    ensures apart { (b : ℕ) → set.contains storage.old.ring.used b ≡ true → node_in storage.old.cache b ≡ None → node_in storage.new.cache b ≡ None }
{
    let Storage {
        bad,
        ring,
        page,
        cache,
        ..
    } = storage;
    let block = next_block(ring, bad)?;
    let empty = Vec::new(*node.allocator());
    cache.list(block, mem::replace(node, empty))?;
    let tried = try_block(flash, bad, ring, page, cache.first(), block);
    if let Ok(Some(_)) = tried {
        return tried;
    }
    *node = cache.take_first();
    tried
}

/// Tries one block after the other until one holds the node.
fn place_node<F: Flash>(flash: &mut F, storage: &mut Storage, node: Vec<u8>) -> Result<u32, Fault>
    requires writable { IsWritable (F.device flash.old) storage.old node.items }
    requires room { set.len storage.old.bad < MAX_BAD_BLOCKS }
    ensures writes { WritesNode (storage_on (F.device flash.old) storage.old) node.items (storage_on (F.device flash.new) storage.new) result }
    ensures lists { ListsWritten (F.device flash.old) storage.old node.items (F.device flash.new) storage.new result }
{
    let mut node = node;
    'attempts: loop {
        if let Some(block) = write_next(flash, storage, &mut node)? {
            return Ok(block);
        }
    }
}

/// Writes a node to a block that was not used, and answers the block: the first data block in ring
/// order after the one taken last, but for those that were used and those that are bad by then. It is
/// listed first in the cache, into which its bytes move. Where the bad list is at its limit before,
/// nothing is done; where memory is wanted for the node in the cache, no block is taken for it.
///
/// The pages of the block hold the node's bytes, with zeros behind them in the last one, and the rest
/// are erased. Each block that is taken is erased, and then programmed from its first page on.
#[tactic(auto, using(crate::specs::StorageLaws::Untouched_itself, crate::specs::FittingLaws::still_itself))]
pub fn write_owned_node<F: Flash>(
    flash: &mut F,
    storage: &mut Storage,
    node: Vec<u8>,
) -> Result<u32, Fault>
    requires { IsWritable (F.device flash.old) storage.old node.items }
    ensures writes { WritesNode (storage_on (F.device flash.old) storage.old) node.items (storage_on (F.device flash.new) storage.new) result }
    ensures lists { ListsWritten (F.device flash.old) storage.old node.items (F.device flash.new) storage.new result }
{
    if storage.bad.is_full() {
        return Err(Fault::ReadOnly);
    }
    place_node(flash, storage, node)
}

/// Writes a node in the same way, of whose bytes a copy moves into the cache.
#[tactic(auto, using(crate::specs::StorageLaws::Untouched_itself, crate::specs::FittingLaws::still_itself))]
pub fn write_node<F: Flash>(
    flash: &mut F,
    storage: &mut Storage,
    bytes: &[u8],
) -> Result<u32, Fault>
    requires { IsWritable (F.device flash.old) storage.old bytes.now }
    ensures writes { WritesNode (storage_on (F.device flash.old) storage.old) bytes.now (storage_on (F.device flash.new) storage.new) result }
    ensures lists { ListsWritten (F.device flash.old) storage.old bytes.now (F.device flash.new) storage.new result }
{
    if storage.bad.is_full() {
        return Err(Fault::ReadOnly);
    }
    let node = bytes.to_vec(*storage.page.allocator())?;
    place_node(flash, storage, node)
}
