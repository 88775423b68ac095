//! A version more, of the tree of another file system.
ghost use Rattle.std.specs.Prelude.{◌≡◌, ◌∷◌, ◌++◌, [], Some, OnOk, IfErr};
ghost use Rattle.plain_trees.specs.Trees.{Tree};
ghost use Rattle.history_copies.specs.Copies.{roots_in};
ghost use Rattle.history_copies.specs.Laws.{IsBuilt};
ghost use Rattle.history_machine.specs.History.{Past, changed};
ghost use Rattle.history_machine.specs.Machine.{mounted, present_tree, working_tree};
ghost use Rattle.inquiries.specs.Readings.{shown, IsUnchanged};
ghost use Rattle.mounting.specs.Saved.{saved_trees};
ghost use Rattle.tree_differences.specs.UpdateLaws.{Brings};
ghost use Rattle.undofs.specs.Systems.{flash_name};
ghost use Rattle.copies.specs.Added.{AddCause, HasOneMore, IsAtNewest, NotAdded, NotAddedAfter, NotAddedTo, StopsMaking};
ghost use Rattle.copies.specs.Calls.{IsSynced, StopsMoving};

use crate::bringing::make_version;
use crate::ending::go_to_place;
use crate::uncopied::{Uncopied, of_untold};
use flash_model::Flash;
use fs_types::{Call, Fault, View};
use std::alloc::Global;
use undofs::{Fs, RefusedMount};
use updates::{Manner, list_changes};

/// Adds a version to the history that the newest record of the second flash holds: of the present tree of
/// what that of the first holds. It comes at the end and is the present one then. Where as many are kept
/// already as may be, the oldest is dropped. The first flash is only read, and the history is synced.
pub fn add_version<F: Flash, G: Flash>(
    alloc: Global,
    first: &mut F,
    second: &mut G,
) -> Result<(), Uncopied>
    ensures ok { (new old : Past Tree) → saved_trees (F.device first.old) ≡ Some new → saved_trees (G.device second.old) ≡ Some old → OnOk result (HasOneMore old (present_tree (mounted new)) (G.device second.new)) }
    ensures err { IfErr result (AddCause (F.device first.old) (G.device second.old) (F.device first.new) (G.device second.new)) }
{
    match Fs::mount_or_release(alloc, first) {
        Ok(from) => {
            let mut from = from;
            let added = add_to_flash(alloc, &mut from, second);
            // The borrow ends here, with the flash as it was left.
            let _left = from.into_flash();
            added
        }
        Err(refused) => {
            let RefusedMount { fault, flash: left } = refused;
            let _left = left;
            Err(Uncopied::Unmounted(fault))
        }
    }
}

/// Adds a version of the present tree of a file system to what is on a flash.
fn add_to_flash<F: Flash, G: Flash>(
    alloc: Global,
    from: &mut Fs<'_, F>,
    second: &mut G,
) -> Result<(), Uncopied>
    ensures same { IsUnchanged from.old from.new }
    ensures ok { (old : Past Tree) → saved_trees (G.device second.old) ≡ Some old → OnOk result (HasOneMore old (working_tree (shown from.old)) (G.device second.new)) }
    ensures err { IfErr result (NotAddedTo (shown from.old) (F.device from.old.flash.now) (F.device from.new.flash.now) (G.device second.old) (G.device second.new)) }
{
    match Fs::mount_or_release(alloc, second) {
        Ok(to) => {
            let mut to = to;
            let added = add_tree(alloc, from, &mut to);
            let _left = to.into_flash();
            match added {
                Ok(()) => Ok(()),
                Err(why) => Err(why),
            }
        }
        Err(refused) => {
            let RefusedMount { fault, flash: left } = refused;
            let _left = left;
            Err(Uncopied::Unready(fault))
        }
    }
}

/// Adds a version of the present tree of a file system to another one, in which no group and no file is open:
/// after its newest version.
fn add_tree<F: Flash, G: Flash>(
    alloc: Global,
    from: &mut Fs<'_, F>,
    to: &mut Fs<'_, G>,
) -> Result<(), Uncopied>
    requires { shown to.old ≡ mounted (shown to.old).history }
    ensures same { IsUnchanged from.old from.new }
    ensures built { OnOk result (IsBuilt (shown to.old).history.limit (roots_in (shown to.old).history.versions ++ working_tree (shown from.old) ∷ []) (shown to.new).history) }
    ensures kept { OnOk result ((shown to.new).history.checkpoints ≡ (shown to.old).history.checkpoints) }
    ensures synced { OnOk result (IsSynced to.new) }
    ensures same_flash { flash_name to.new ≡ flash_name to.old }
    ensures err { IfErr result (NotAddedAfter (shown from.old) (shown to.old).history (F.device from.old.flash.now) (F.device from.new.flash.now) (G.device to.new.flash.now)) }
{
    match go_to_newest(alloc, to) {
        Ok(()) => add_after(alloc, from, to),
        Err(fault) => Err(Uncopied::Refused(fault)),
    }
}

/// Makes the newest version the present one.
fn go_to_newest<G: Flash>(alloc: Global, to: &mut Fs<'_, G>) -> Result<(), Fault>
    requires { shown to.old ≡ mounted (shown to.old).history }
    ensures ok { OnOk result (IsAtNewest (shown to.old).history (shown to.new)) }
    ensures same_flash { flash_name to.new ≡ flash_name to.old }
    ensures err { IfErr result (StopsMoving (G.device to.new.flash.now)) }
{
    let log = to.log(alloc)?;
    let serials = log.versions.as_slice();
    let newest = serials.len().saturating_sub(1);
    go_to_place(to, serials, newest)
}

/// Makes a version of the present tree of a file system in another one, after the present one, and syncs it.
fn add_after<F: Flash, G: Flash>(
    alloc: Global,
    from: &mut Fs<'_, F>,
    to: &mut Fs<'_, G>,
) -> Result<(), Uncopied>
    requires { shown to.old ≡ mounted (shown to.old).history }
    ensures same { IsUnchanged from.old from.new }
    ensures ok { OnOk result (shown to.new ≡ mounted (changed (shown to.old).history (working_tree (shown from.old)))) }
    ensures synced { OnOk result (IsSynced to.new) }
    ensures same_flash { flash_name to.new ≡ flash_name to.old }
    ensures err { IfErr result (NotAdded (shown from.old) (working_tree (shown to.old)) (F.device from.old.flash.now) (F.device from.new.flash.now) (G.device to.new.flash.now)) }
{
    let changes = match list_changes(alloc, to, from, &View::Present, Manner::Edited) {
        Ok(changes) => changes,
        Err(fault) => return Err(of_untold(fault)),
    };
    match make_synced(alloc, to, &changes) {
        Ok(()) => Ok(()),
        Err(fault) => Err(Uncopied::Refused(fault)),
    }
}

/// Makes a version of changes that bring the present tree to another one, and syncs the history that is there
/// then.
fn make_synced<G: Flash>(alloc: Global, to: &mut Fs<'_, G>, changes: &[Call]) -> Result<(), Fault>
    requires rests { shown to.old ≡ mounted (shown to.old).history }
    requires brings { (t : Tree) × Brings (working_tree (shown to.old)) t changes.now }
    ensures ok { (t : Tree) → Brings (working_tree (shown to.old)) t changes.now → OnOk result (shown to.new ≡ mounted (changed (shown to.old).history t)) }
    ensures synced { OnOk result (IsSynced to.new) }
    ensures same_flash { flash_name to.new ≡ flash_name to.old }
    ensures err { IfErr result (StopsMaking (shown to.old) changes.now (G.device to.new.flash.now)) }
{
    make_version(alloc, to, changes)?;
    to.sync(alloc)
}
