//! The end of a copy.
ghost use Rattle.std.specs.Prelude.{◌≡◌, ◌++◌, ◌≤◌, ◌<◌, ℕ, Some, List, [], ◌∷◌, OnOk, IfErr, length, slice_get};
ghost use Rattle.fs_types.specs.declared.call.Call.{Call};
ghost use Rattle.plain_trees.specs.Trees.{Tree};
ghost use Rattle.inquiries.specs.Readings.{shown};
ghost use Rattle.history_machine.specs.Machine.{mounted};
ghost use Rattle.undofs.specs.Systems.{flash_name};
ghost use Rattle.copies.specs.Calls.{Does, IsSynced, StopsMoving};
ghost use Rattle.copies.specs.Copied.{Holds, HasTrees};

use flash_model::Flash;
use fs_types::Fault;
use std::alloc::Global;
use undofs::Fs;

/// Forgets all versions but the last `kept` ones, goes to the one at `cursor` among these, and syncs.
pub(crate) fn end_copy<G: Flash>(
    alloc: Global,
    to: &mut Fs<'_, G>,
    kept: usize,
    cursor: usize,
) -> Result<(), Fault>
    requires within { cursor < kept }
    requires rests { shown to.old ≡ mounted (shown to.old).history }
    ensures ok { (limit : ℕ) (before trees : List Tree) (checkpoints : List (List ℕ × Tree)) → Holds limit (before ++ trees) checkpoints (shown to.old).history → length trees ≡ kept → kept ≤ limit → OnOk result (HasTrees limit trees cursor checkpoints (shown to.new).history) }
    ensures synced { OnOk result (IsSynced to.new) }
    ensures same_flash { flash_name to.new ≡ flash_name to.old }
    ensures err { IfErr result (StopsMoving (G.device to.new.flash.now)) }
{
    let log = to.log(alloc)?;
    let serials = log.versions.as_slice();
    let others = serials.len().saturating_sub(kept);
    to.forget(others as u64)?;
    go_to_place(to, serials, others + cursor)?;
    to.sync(alloc)
}

/// Goes to the version whose serial stands at a place.
pub(crate) fn go_to_place<G: Flash>(
    to: &mut Fs<'_, G>,
    serials: &[u64],
    place: usize,
) -> Result<(), Fault>
    ensures ok { OnOk result ((serial : ℕ) → slice_get serials.now place ≡ Some serial → Does (shown to.old) (Call.Goto serial ∷ []) (shown to.new)) }
    ensures rests { shown to.old ≡ mounted (shown to.old).history → OnOk result (shown to.new ≡ mounted (shown to.new).history) }
    ensures same_flash { flash_name to.new ≡ flash_name to.old }
    ensures err { IfErr result (StopsMoving (G.device to.new.flash.now)) }
{
    match serials.get(place) {
        Some(serial) => to.goto(*serial),
        None => Ok(()),
    }
}
