//! The kinds of all blocks of a flash.
ghost use Rattle.std.specs.Prelude.{◌≡◌, ◌<◌, ℕ, true, length, is_some, IfOk, IfErr};
ghost use Rattle.flash_model.specs.Device.{Device};
ghost use Rattle.flash_model.specs.Geometry.{IsGeometry, block_bytes};
ghost use Rattle.flash_model.specs.Reading.{OnlyReads};
ghost use Rattle.history_machine.specs.History.{Past};
ghost use Rattle.anchors.specs.Parts.{newest_at, parts_on};
ghost use Rattle.node_store.specs.NodePages.{node_of};
ghost use Rattle.reclaim.specs.Verified.{AreRoots};
ghost use Rattle.mounting.specs.Records.{roots_of};
ghost use Rattle.block_usage.specs.Kinds.{AreKinds, IsKind};
ghost use Rattle.block_usage.specs.Maps.{IsMap, IsReady, Knows, MapCause, ReadsCause};

use crate::blank_blocks::is_blank;
use crate::block_facts::{Facts, Roots, find_facts};
use crate::block_kind::BlockKind;
use crate::newest_records::newest_anchor;
use bad_blocks::BadBlocks;
use flash_model::Flash;
use fs_types::Fault;
use std::alloc::Global;
use system::mount;
use thiserror::Error;
use working_state::State;

/// Why there is no map of a flash.
#[derive(Clone, Copy, Debug, PartialEq, Eq, Error)]
pub enum MapFault {
    /// No system is mounted.
    #[error("not mounted: {0}")]
    Unmounted(Fault),
    /// What the reading met.
    #[error("refused: {0}")]
    Refused(Fault),
}

/// The kind of each block of a flash, from block 0 on, by what its newest record holds, which is mounted
/// for that ([`mount`]). The flash is only read.
///
/// [`MapFault::Unmounted`] as a mount is refused. Else [`Fault::ReadFailed`], [`Fault::PowerCut`] and
/// [`Fault::NoMemory`] may come.
pub fn map_blocks<F: Flash>(alloc: Global, flash: &mut F) -> Result<Vec<BlockKind>, MapFault>
    ensures ok { IfOk result (λ kinds. IsMap (F.device flash.old) kinds.items) }
    ensures only_reads { OnlyReads (F.device flash.old) (F.device flash.new) }
    ensures err { IfErr result (MapCause (F.device flash.old) (F.device flash.new)) }
{
    let mut system = match mount(alloc, flash) {
        Ok(system) => system,
        Err(fault) => return Err(MapFault::Unmounted(fault)),
    };
    match map_state(alloc, flash, &mut system.state) {
        Ok(kinds) => Ok(kinds),
        Err(fault) => Err(MapFault::Refused(fault)),
    }
}

/// The same, of a working state on the flash of a newest record.
fn map_state<F: Flash>(
    alloc: Global,
    flash: &mut F,
    state: &mut State,
) -> Result<Vec<BlockKind>, Fault>
    requires ready { IsReady (F.device flash.old) state.old.storage }
    requires trees { AreRoots (block_bytes (F.device flash.old).geometry) (node_of (F.device flash.old)) (roots_of state.old.history) }
    requires newest { is_some (newest_at (F.device flash.old).geometry (parts_on (F.device flash.old).geometry (F.device flash.old).pages)) ≡ true }
    ensures kinds { IfOk result (λ kinds. AreKinds (F.device flash.old) state.old.history state.old.storage.bad kinds.items) }
    ensures only_reads { OnlyReads (F.device flash.old) (F.device flash.new) }
    ensures why { IfErr result (ReadsCause (F.device flash.old) (F.device flash.new)) }
{
    let geometry = flash.geometry();
    let roots = Roots::of(alloc, &state.history)?;
    let mut page = vec![in alloc; 0u8; geometry.page as usize]?;
    let newest = newest_anchor(flash, geometry, &mut page)?;
    let facts = find_facts(alloc, flash, &mut state.storage, &roots, newest)?;
    list_kinds(alloc, flash, &state.storage.bad, &facts, &mut page)
}

/// The kinds of all blocks, by what is known of them.
fn list_kinds<F: Flash>(
    alloc: Global,
    flash: &mut F,
    bad: &BadBlocks,
    facts: &Facts,
    page: &mut [u8],
) -> Result<Vec<BlockKind>, Fault>
    requires lawful { IsGeometry (F.device flash.old).geometry }
    requires whole { length page.old ≡ (F.device flash.old).geometry.page }
    ensures kinds { IfOk result (λ kinds. (d : Device) (h : Past ℕ) → OnlyReads d (F.device flash.old) → Knows d h facts.now → AreKinds d h bad.now kinds.items) }
    ensures only_reads { OnlyReads (F.device flash.old) (F.device flash.new) }
    ensures why { IfErr result (ReadsCause (F.device flash.old) (F.device flash.new)) }
{
    let mut kinds = Vec::new(alloc);
    for block in 0..flash.geometry().blocks {
        let kind = find_kind(flash, bad, facts, block, page)?;
        kinds.push(kind)?;
    }
    Ok(kinds)
}

/// The kind of a block. Its pages are read where it is free.
fn find_kind<F: Flash>(
    flash: &mut F,
    bad: &BadBlocks,
    facts: &Facts,
    block: u32,
    page: &mut [u8],
) -> Result<BlockKind, Fault>
    requires lawful { IsGeometry (F.device flash.old).geometry }
    requires in_range { block < (F.device flash.old).geometry.blocks }
    requires whole { length page.old ≡ (F.device flash.old).geometry.page }
    ensures kind { IfOk result (λ kind. (d : Device) (h : Past ℕ) → OnlyReads d (F.device flash.old) → Knows d h facts.now → IsKind d h bad.now block kind) }
    ensures only_reads { OnlyReads (F.device flash.old) (F.device flash.new) }
    ensures why { IfErr result (ReadsCause (F.device flash.old) (F.device flash.new)) }
{
    if let Some(kind) = facts.kind_of(bad, block) {
        return Ok(kind);
    }
    if is_blank(flash, block, page)? {
        Ok(BlockKind::Blank)
    } else {
        Ok(BlockKind::Stale)
    }
}
