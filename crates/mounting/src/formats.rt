//! Making an empty file system on a flash.
ghost use Rattle.std.specs.Prelude.{◌≡◌, ◌⊎◌, ◌↔◌, ℕ, ◌+◌, ◌*◌, ◌<◌, ◌≤◌, true, false, None, Err, IfOk, IfErr, OnOk, IsTrue};
ghost use Rattle.std.specs.FinSet as set;
ghost use Rattle.fs_types.specs.declared.limits.TheConstants.{ANCHORS, MAX_VERSIONS, MIN_VERSIONS};
ghost use Rattle.fs_types.specs.declared.fault.Fault.{Fault};
ghost use Rattle.flash_model.specs.Geometry.{IsGeometry};
ghost use Rattle.bad_blocks.specs.Mode as modes;
ghost use Rattle.anchors.specs.Parts.{greatest_on};
ghost use Rattle.anchors.specs.Anchored.{OnlyAnchors};
ghost use Rattle.anchors.specs.Committing.{IsCommitted};
ghost use Rattle.anchors.specs.Newest.{remembered};
ghost use Rattle.anchors.specs.Remembering.{MayCommit};
ghost use Rattle.working_state.specs.Fresh.{IsBegun, AsksForRoot};
ghost use Rattle.working_state.specs.Moments.{moment};
ghost use Rattle.mounting.specs.Contents as contents;
ghost use Rattle.mounting.specs.Costs.{AsksToClear, AsksForRecord, AsksToFormat, AsksToFormatAtMost};
ghost use Rattle.mounting.specs.Formats.{BeginsOnLowest, IsFormatted, ListsFailed, AreCleared, IsNumbered, FormatCause, ModeCause, ClearCause, full_for, FirstRootCause, FirstRecordCause};

use crate::contents::record_of;
use anchors::Anchors;
use bad_blocks::{BadBlocks, bad_anchors};
use flash_model::Flash;
use fs_types::{Fault, MAX_VERSIONS, MIN_VERSIONS};
use std::alloc::Global;
use working_state::State;

/// Makes an empty file system on a flash, whatever it holds: one version, of serial 1, with an empty
/// root in the first data block that works, and no checkpoint. At most `limit` versions are kept, 2
/// to 128.
///
/// The eight anchors are erased first, then the root is written, then the record. Nothing is read or
/// written where the sizes are out of range, `BadGeometry`, or else the limit, `Invalid`. `NoAnchors`
/// where fewer than two anchors work, `FlashFull` where no data block works or 256 blocks are bad,
/// `Overflow` where a record with the greatest sequence is left on a bad anchor, `ReadFailed` and
/// `PowerCut` by the device, `NoMemory` where memory could not be had. Once anything was erased a
/// refusal may leave no file system: format again.
pub fn format<F: Flash>(alloc: Global, flash: &mut F, limit: u32) -> Result<(), Fault>

    // What stands on the flash then.
    ensures ok { OnOk result (IsFormatted limit (F.device flash.new)) }
    ensures stay { OnOk result ((F.device flash.new).geometry ≡ (F.device flash.old).geometry) }
    ensures listed { OnOk result (ListsFailed (F.device flash.old) (F.device flash.new)) }
    ensures numbered { OnOk result (IsNumbered (F.device flash.old) (F.device flash.new)) }

    // What was asked for.
    ensures asks { OnOk result (AsksToFormat (F.device flash.old) (F.device flash.new)) }
    ensures asks_at_most { AsksToFormatAtMost (F.device flash.old) (F.device flash.new) }

    // Why not.
    ensures why { IfErr result (λ fault. FormatCause (F.device flash.old) limit fault (F.device flash.new)) }
    ensures sizes { (result ≡ Err Fault.BadGeometry) ↔ ¬ IsGeometry (F.device flash.old).geometry }
    ensures limits { (result ≡ Err Fault.Invalid) ↔ (IsGeometry (F.device flash.old).geometry × ((limit < MIN_VERSIONS) ⊎ (MAX_VERSIONS < limit))) }
{
    if !flash.geometry().is_lawful() {
        return Err(Fault::BadGeometry);
    }
    if limit < (MIN_VERSIONS as u32) || (MAX_VERSIONS as u32) < limit {
        return Err(Fault::Invalid);
    }
    format_lawful(alloc, flash, limit)
}

/// The same, where the sizes and the limit are lawful.
fn format_lawful<F: Flash>(alloc: Global, flash: &mut F, limit: u32) -> Result<(), Fault>
    requires lawful { IsGeometry (F.device flash.old).geometry }
    requires at_least { MIN_VERSIONS ≤ limit }
    requires at_most { limit ≤ MAX_VERSIONS }

    // What stands on the flash then.
    ensures ok { OnOk result (IsFormatted limit (F.device flash.new)) }
    ensures stay { OnOk result ((F.device flash.new).geometry ≡ (F.device flash.old).geometry) }
    ensures listed { OnOk result (ListsFailed (F.device flash.old) (F.device flash.new)) }
    ensures numbered { OnOk result (IsNumbered (F.device flash.old) (F.device flash.new)) }

    // What was asked for.
    ensures asks { OnOk result (AsksToFormat (F.device flash.old) (F.device flash.new)) }
    ensures asks_at_most { AsksToFormatAtMost (F.device flash.old) (F.device flash.new) }
    ensures why { IfErr result (λ fault. FormatCause (F.device flash.old) limit fault (F.device flash.new)) }
{
    let mut anchors = Anchors::new();
    let bad = clear_anchors(flash, &mut anchors)?;
    let mut state = write_first_root(alloc, flash, bad, limit)?;
    commit_first(alloc, flash, &mut anchors, &mut state)
}

/// Why nothing is written in read-only mode: `NoAnchors` where fewer than two anchors work, else
/// `FlashFull`, since 256 blocks are bad.
fn mode_fault(bad: &BadBlocks) -> Fault
    requires { modes.is_read_only bad.now ≡ true }
    ensures { ModeCause bad.now result }
{
    // There are no more than 256, as its contract tells.
    let _ = bad.len();
    if 7 <= bad_anchors(bad) {
        Fault::NoAnchors
    } else {
        Fault::FlashFull
    }
}

/// Erases the anchors, and answers those that are bad, which are six at most.
fn clear_anchors<F: Flash>(flash: &mut F, anchors: &mut Anchors) -> Result<BadBlocks, Fault>
    requires { IsGeometry (F.device flash.old).geometry }
    ensures cleared { IfOk result (λ bad. AreCleared (F.device flash.old) bad (F.device flash.new)) }
    ensures few { IfOk result (λ bad. modes.bad_anchors bad < 7) }
    ensures asks { AsksToClear (F.device flash.old) (F.device flash.new) }
    ensures ready { IfOk result (λ bad. MayCommit (F.device flash.new) bad anchors.new) }
    ensures none { remembered anchors.new ≡ None }
    ensures why { IfErr result (λ fault. ClearCause (F.device flash.old) fault (F.device flash.new)) }
{
    let mut bad = BadBlocks::new();
    anchors.clear(flash, &mut bad)?;
    if 7 <= bad_anchors(&bad) {
        return Err(Fault::NoAnchors);
    }
    Ok(bad)
}

/// Writes the empty root, where these anchors are bad.
fn write_first_root<F: Flash>(
    alloc: Global,
    flash: &mut F,
    bad: BadBlocks,
    limit: u32,
) -> Result<State, Fault>
    requires lawful { IsGeometry (F.device flash.old).geometry }
    requires at_least { MIN_VERSIONS ≤ limit }
    requires at_most { limit ≤ MAX_VERSIONS }
    requires anchors { (b : ℕ) → set.contains bad b ≡ true → b < ANCHORS }
    ensures begun { IfOk result (λ state. IsBegun (F.device flash.old) bad limit (moment (F.device flash.new) state)) }
    ensures asks { AsksForRoot (F.device flash.old) (F.device flash.new) }
    ensures why { IfErr result (λ fault. FirstRootCause (F.device flash.old) bad fault (F.device flash.new)) }
{
    match State::with_empty_root(alloc, flash, bad, limit) {
        Ok(state) => Ok(state),
        Err(fault) => Err(full_fault(fault)),
    }
}

/// `FlashFull` in the place of `ReadOnly`.
fn full_fault(fault: Fault) -> Fault
    ensures { result ≡ full_for fault }
{
    match fault {
        Fault::ReadOnly => Fault::FlashFull,
        _ => fault,
    }
}

/// Commits the first record of a working state, on anchors that were cleared.
fn commit_first<F: Flash>(
    alloc: Global,
    flash: &mut F,
    anchors: &mut Anchors,
    state: &mut State,
) -> Result<(), Fault>
    requires lawful { IsGeometry (F.device flash.old).geometry }
    requires ring_blocks { state.old.storage.ring.blocks ≡ (F.device flash.old).geometry.blocks }
    requires listed { (b : ℕ) → set.contains state.old.storage.bad b ≡ true → (b < ANCHORS) ⊎ (set.contains state.old.storage.ring.used b ≡ true) }
    requires ready { MayCommit (F.device flash.old) state.old.storage.bad anchors.old }
    requires none { remembered anchors.old ≡ None }

    // The record.
    ensures committed { OnOk result (IsCommitted (F.device flash.new).pages
        (contents.record_of (F.device flash.old).geometry state.old.history state.old.storage.ring.last)
        (greatest_on (F.device flash.old).geometry (F.device flash.old).pages + 1) state.new.storage.bad) }
    ensures placed { OnOk result (BeginsOnLowest (F.device flash.new) state.new.storage.bad) }
    ensures only_anchors { OnlyAnchors (F.device flash.old) state.old.storage.bad (F.device flash.new) state.new.storage.bad }
    ensures writable { OnOk result (modes.is_read_only state.new.storage.bad ≡ false) }

    // What was asked for.
    ensures asks { OnOk result (AsksForRecord (F.device flash.old) state.old.storage.bad (F.device flash.new)) }
    ensures operations { (F.device flash.new).operations ≤ (F.device flash.old).operations + ANCHORS * (F.device flash.old).geometry.pages + ANCHORS * ((F.device flash.old).geometry.pages + 1) }
    ensures why { IfErr result (λ fault. FirstRecordCause (F.device flash.old) fault (F.device flash.new) state.new.storage.bad) }
{
    // The used blocks are data blocks, as its contract tells.
    let _ = state.storage.ring.blocks();
    let last = state.storage.ring.last();
    let saved = record_of(alloc, flash.geometry(), &state.history, last)?;
    match anchors.commit(alloc, flash, &mut state.storage.bad, &saved) {
        Ok(()) => Ok(()),
        Err(Fault::ReadOnly) => Err(mode_fault(&state.storage.bad)),
        Err(fault) => Err(fault),
    }
}
