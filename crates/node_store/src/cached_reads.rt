//! Reading the node of a block through the cache.
ghost use Rattle.std.specs.Prelude.{◌≡◌, ◌+◌, ◌≤◌, None, OnOk, length};
ghost use Rattle.flash_model.specs.Geometry.{IsGeometry};
ghost use Rattle.flash_model.specs.Reading.{OnlyReads};
ghost use Rattle.node_store.specs.NodeCache.{node_in, first_bytes};
ghost use Rattle.node_store.specs.Caching.{Fetches};
ghost use Rattle.node_store.specs.Fitting.{Fits, StillFits};
ghost use Rattle.nodes.specs.PageCounts.{pages_for};

use crate::node_reads::read_node;
use crate::storage::Storage;
use flash_model::Flash;
use fs_types::Fault;

/// Reads the node of a block that is not listed, and lists it first.
pub fn fetch_node<F: Flash>(flash: &mut F, storage: &mut Storage, block: u32) -> Result<(), Fault>
    requires lawful { IsGeometry (F.device flash.old).geometry }
    requires fits { Fits (F.device flash.old) storage.old }
    requires unlisted { node_in storage.old.cache block ≡ None }

    // What is brought, and listed.
    ensures fetches { Fetches (F.device flash.old) storage.old.cache block (F.device flash.new) storage.new.cache result }
    ensures fits { StillFits (F.device flash.old) storage.old (F.device flash.new) storage.new }

    // What stays.
    ensures only_reads { OnlyReads (F.device flash.old) (F.device flash.new) }
    ensures bad { storage.new.bad ≡ storage.old.bad }
    ensures ring { storage.new.ring ≡ storage.old.ring }
    ensures partly { storage.new.partly ≡ storage.old.partly }

    // Each page of the node is read once, and no more than a block has, whatever is answered.
    ensures operations { OnOk result ((F.device flash.new).operations ≤ (F.device flash.old).operations + pages_for (F.device flash.old).geometry.page (length (first_bytes storage.new.cache.entries))) }
    ensures most { (F.device flash.new).operations ≤ (F.device flash.old).operations + (F.device flash.old).geometry.pages }
{
    let alloc = *storage.page.allocator();
    let node = read_node(flash, block, &mut storage.page, alloc)?;
    storage.cache.list(block, node)
}

/// Brings the node of a block to the front of the cache, where it is read unless it is listed. A
/// listed block is answered without the device.
pub fn read_first<F: Flash>(flash: &mut F, storage: &mut Storage, block: u32) -> Result<(), Fault>
    requires lawful { IsGeometry (F.device flash.old).geometry }
    requires fits { Fits (F.device flash.old) storage.old }

    // What is brought, and listed.
    ensures fetches { Fetches (F.device flash.old) storage.old.cache block (F.device flash.new) storage.new.cache result }
    ensures fits { StillFits (F.device flash.old) storage.old (F.device flash.new) storage.new }

    // What stays.
    ensures only_reads { OnlyReads (F.device flash.old) (F.device flash.new) }
    ensures bad { storage.new.bad ≡ storage.old.bad }
    ensures ring { storage.new.ring ≡ storage.old.ring }

    // Each page of the node is read once, and no more than a block has, whatever is answered.
    ensures operations { OnOk result ((F.device flash.new).operations ≤ (F.device flash.old).operations + pages_for (F.device flash.old).geometry.page (length (first_bytes storage.new.cache.entries))) }
    ensures most { (F.device flash.new).operations ≤ (F.device flash.old).operations + (F.device flash.old).geometry.pages }
{
    if storage.cache.promote(block) {
        return Ok(());
    }
    fetch_node(flash, storage, block)
}
