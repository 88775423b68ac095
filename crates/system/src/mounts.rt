//! Mounting what the newest record of a flash holds.
ghost use Rattle.std.specs.Prelude.{◌≡◌, ◌≢◌, ◌↔◌, ◌⊎◌, ◌<◌, [], Err, IfOk, OnErr, IfErr};
ghost use Rattle.fs_types.specs.declared.limits.TheConstants.{MOUNTED_NODES};
ghost use Rattle.fs_types.specs.declared.fault.Fault.{Fault};
ghost use Rattle.flash_model.specs.Reading.{OnlyReads};
ghost use Rattle.node_store.specs.declared.node_cache.TheConstants.{MAX_CACHED_NODES};
ghost use Rattle.system.specs.Mounts.{AsksToMount, AsksUntilRefused};
ghost use Rattle.system.specs.Mounts.{IsMountOf, MountCause};
ghost use Rattle.system.specs.Systems.{IsSystem};

use crate::prepared_blocks::PreparedBlocks;
use crate::systems::System;
use anchors::Anchors;
use flash_model::Flash;
use fs_types::{Fault, MOUNTED_NODES};
use mounting::load;
use node_store::NodeCache;
use std::alloc::Global;
use working_state::KnownBodies;

/// Mounts what the newest record of a flash holds, with a cache in which no block is listed.
fn mount_cached<F: Flash>(alloc: Global, flash: &mut F, cache: NodeCache) -> Result<System, Fault>
    requires { cache.entries ≡ [] }

    // The system.
    ensures ok { IfOk result (IsMountOf (F.device flash.old) (F.device flash.new)) }
    ensures system { IfOk result (IsSystem (F.device flash.new)) }
    ensures room { IfOk result (λ system. system.state.storage.cache.room ≡ cache.room) }

    // By reads alone, and how many.
    ensures only_reads { OnlyReads (F.device flash.old) (F.device flash.new) }
    ensures asks { IfOk result (λ _. AsksToMount (F.device flash.old) (F.device flash.new)) }
    ensures asks_at_most { OnErr result (AsksUntilRefused (F.device flash.old) (F.device flash.new)) }
    ensures why { IfErr result (MountCause (F.device flash.old) (F.device flash.new)) }
{
    if !flash.geometry().is_lawful() {
        return Err(Fault::BadGeometry);
    }
    let prepared = PreparedBlocks::new(alloc, flash.geometry().blocks)?;
    let mut anchors = Anchors::new();
    let Some(newest) = anchors.newest(alloc, flash)? else {
        return Err(Fault::NoRecord);
    };
    let (state, record_roots) = load(alloc, flash, &newest, cache)?;
    let bodies = KnownBodies::new();
    Ok(System {
        state,
        bodies,
        anchors,
        record_roots,
        pass: None,
        cleaned_to: 0,
        prepared,
    })
}

/// Mounts what the newest record of a flash holds: its history, with no file open. Used are exactly
/// the blocks that its versions and checkpoints reach, all of which are read. Nothing is written.
/// `nodes` nodes are kept in memory, 1 to 64: `Invalid` for another number, before any read.
///
/// It takes no older record: `NoRecord` where none is valid, and `Damaged` where two have the
/// greatest sequence, where the payload of the newest is damaged, where some version or checkpoint of
/// it has no tree of linked bodies, or where it has format 1 and one of these trees has a directory
/// that is a chain. `BadGeometry` where the sizes are out of range, before any read, or where the
/// newest record tells others; `ReadFailed` and `PowerCut` by the device; `NoMemory` where memory
/// could not be had, before any read or for a newest record.
pub fn mount_with<F: Flash>(alloc: Global, flash: &mut F, nodes: usize) -> Result<System, Fault>

    // The system.
    ensures ok { IfOk result (IsMountOf (F.device flash.old) (F.device flash.new)) }
    ensures system { IfOk result (IsSystem (F.device flash.new)) }
    ensures room { IfOk result (λ system. system.state.storage.cache.room ≡ nodes) }

    // By reads alone, and how many.
    ensures only_reads { OnlyReads (F.device flash.old) (F.device flash.new) }
    ensures asks { IfOk result (λ _. AsksToMount (F.device flash.old) (F.device flash.new)) }
    ensures asks_at_most { OnErr result (AsksUntilRefused (F.device flash.old) (F.device flash.new)) }

    // Why not.
    ensures invalid { (result ≡ Err Fault.Invalid) ↔ ((nodes < 1) ⊎ (MAX_CACHED_NODES < nodes)) }
    ensures unread { result ≡ Err Fault.Invalid → F.device flash.new ≡ F.device flash.old }
    ensures why { IfErr result (λ fault. fault ≢ Fault.Invalid → MountCause (F.device flash.old) (F.device flash.new) fault) }
{
    let cache = NodeCache::new(alloc, nodes)?;
    mount_cached(alloc, flash, cache)
}

/// The same, with [`MOUNTED_NODES`] nodes in memory.
pub fn mount<F: Flash>(alloc: Global, flash: &mut F) -> Result<System, Fault>
    ensures ok { IfOk result (IsMountOf (F.device flash.old) (F.device flash.new)) }
    ensures system { IfOk result (IsSystem (F.device flash.new)) }
    ensures room { IfOk result (λ system. system.state.storage.cache.room ≡ MOUNTED_NODES) }
    ensures only_reads { OnlyReads (F.device flash.old) (F.device flash.new) }
    ensures asks { IfOk result (λ _. AsksToMount (F.device flash.old) (F.device flash.new)) }
    ensures asks_at_most { OnErr result (AsksUntilRefused (F.device flash.old) (F.device flash.new)) }
    ensures why { IfErr result (MountCause (F.device flash.old) (F.device flash.new)) }
{
    mount_with(alloc, flash, MOUNTED_NODES)
}
