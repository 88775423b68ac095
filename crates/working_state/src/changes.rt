//! Changes: the one way to another tree that calls work on. Checked in order: read-only mode, and
//! outside a change group the greatest serial; then the nodes of the edit are written, and where
//! read-only mode did not come on in this, their root becomes that of the group, or else the present
//! version.
ghost use Rattle.std.specs.Prelude.{◌≡◌, ℕ, Some};
ghost use Rattle.history_machine.specs.History.{working_root, history_with, group_with};
ghost use Rattle.working_state.specs.Changes.{IsReady, CanApply, storage_moment, IsTried, IsChanged, LeavesSerial, work};
ghost use Rattle.working_state.specs.Mounted.{IsStanding};

use crate::checks::{check_change, check_writable};
use crate::state::root_of;
use flash_model::Flash;
use fs_types::{Fault, Group};
use machine_state::History;
use node_store::{Storage, Store};
use std::alloc::Global;
use tree_edits::{Edit, apply};

/// Makes an edit of the tree that calls work on: in a group that of the group, else a version, which is
/// the present one then.
pub(crate) fn change<F: Flash>(
    alloc: Global,
    flash: &mut F,
    history: &mut History<u32>,
    group: &mut Option<Group<u32>>,
    storage: &mut Storage,
    edit: Edit<'_, '_>,
) -> Result<(), Fault>
    requires ready { IsReady (F.device flash.old) storage.old }
    requires stands { (root : ℕ) → working_root history.old group.old ≡ Some root → IsStanding (F.device flash.old) storage.old.ring root }
    requires editable { (root : ℕ) → working_root history.old group.old ≡ Some root → CanApply (F.device flash.old) storage.old root edit }
    ensures { IsChanged (work (F.device flash.old) history.old group.old storage.old) edit.entry result (work (F.device flash.new) history.new group.new storage.new) }
{
    check_change(history, group, storage)?;
    let root = root_of(history, group);
    let root = try_change(alloc, flash, storage, root, edit)?;
    check_writable(storage)?;
    adopt(history, group, root);
    Ok(())
}

/// Gives the root of a change to the group, for which a version is due then, or else to a new version.
fn adopt(history: &mut History<u32>, group: &mut Option<Group<u32>>, root: u32)
    requires { LeavesSerial history.old group.old }
    ensures history { history.new ≡ history_with history.old group.old root }
    ensures group { group.new ≡ group_with group.old root }
{
    if group.is_some() {
        *group = Some(Group { root, is_due: true });
    } else {
        history.push(root);
    }
}

/// Writes an edit of the tree of a root, and answers the new root.
fn try_change<F: Flash>(
    alloc: Global,
    flash: &mut F,
    storage: &mut Storage,
    root: u32,
    edit: Edit<'_, '_>,
) -> Result<u32, Fault>
    requires ready { IsReady (F.device flash.old) storage.old }
    requires stands { IsStanding (F.device flash.old) storage.old.ring root }
    requires editable { CanApply (F.device flash.old) storage.old root edit }
    ensures { IsTried (storage_moment (F.device flash.old) storage.old) edit.entry root result (storage_moment (F.device flash.new) storage.new) }
{
    let mut store = Store::new(flash, storage);
    apply(alloc, &mut store, root, edit)
}
