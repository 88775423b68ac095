//! The calls on the history, on the working state alone: no device operation is done. Each checks in
//! order: its own refusals; read-only mode; and the greatest serial.
ghost use Rattle.std.specs.Prelude.{◌≡◌, None, false};
ghost use Rattle.fs_types.specs.declared.call.Call.{Call};
ghost use Rattle.fs_types.specs.declared.call.Reply.{Reply};
ghost use Rattle.flash_model.specs.Device.{Device};
ghost use Rattle.working_state.specs.Facts.{group_refusal};
ghost use Rattle.working_state.specs.Moments.{IsAnswered, moment};
ghost use Rattle.working_state.specs.Mounted.{IsMounted, StateStep};
ghost use Rattle.working_state.specs.Steps.{replied, empty};

use crate::changes::change;
use crate::checks::check_writable;
use crate::state::State;
use flash_model::Flash;
use fs_types::{CpName, Fault, Reply};
use std::alloc::Global;
use tree_edits::Edit;

impl State {
    /// The version before becomes the present one.
    pub(crate) fn undo(&mut self) -> Result<(), Fault>
        requires on { self.old.is_off ≡ false }
        requires allowed { group_refusal self.old.group self.old.files Call.Undo ≡ None }
        ensures { (device : Device) → IsMounted device self.old → IsAnswered (moment device self.old) Call.Undo (replied empty result) (moment device self.new) }
    {
        self.history.undo()
    }

    /// The version after becomes the present one.
    pub(crate) fn redo(&mut self) -> Result<(), Fault>
        requires on { self.old.is_off ≡ false }
        requires allowed { group_refusal self.old.group self.old.files Call.Redo ≡ None }
        ensures { (device : Device) → IsMounted device self.old → IsAnswered (moment device self.old) Call.Redo (replied empty result) (moment device self.new) }
    {
        self.history.redo()
    }

    /// The version with this serial becomes the present one.
    pub(crate) fn goto(&mut self, serial: u64) -> Result<(), Fault>
        requires on { self.old.is_off ≡ false }
        requires allowed { group_refusal self.old.group self.old.files (Call.Goto serial) ≡ None }
        ensures { (device : Device) → IsMounted device self.old → IsAnswered (moment device self.old) (Call.Goto serial) (replied empty result) (moment device self.new) }
    {
        self.history.goto(serial)
    }

    /// A change to the tree of a checkpoint, which writes no node.
    pub(crate) fn rollback<F: Flash>(
        &mut self,
        alloc: Global,
        flash: &mut F,
        name: &CpName,
    ) -> Result<(), Fault>
        requires mounted { IsMounted (F.device flash.old) self.old }
        requires on { self.old.is_off ≡ false }
        requires allowed { group_refusal self.old.group self.old.files (Call.Rollback name.now) ≡ None }
        ensures { IsAnswered (moment (F.device flash.old) self.old) (Call.Rollback name.now) (replied empty result) (moment (F.device flash.new) self.new) }
    {
        let root = *self.history.checkpoint_root(name)?;
        let edit = Edit::Restore { root };
        change(
            alloc,
            flash,
            &mut self.history,
            &mut self.group,
            &mut self.storage,
            edit,
        )
    }

    /// The oldest versions before the present one are dropped.
    pub(crate) fn forget(&mut self, count: u64) -> Result<(), Fault>
        requires on { self.old.is_off ≡ false }
        requires allowed { group_refusal self.old.group self.old.files (Call.Forget count) ≡ None }
        ensures { (device : Device) → IsMounted device self.old → IsAnswered (moment device self.old) (Call.Forget count) (replied empty result) (moment device self.new) }
    {
        self.history.check_forget(count)?;
        check_writable(&self.storage)?;
        self.history.forget(count)
    }

    /// The present tree is kept under a name.
    pub(crate) fn checkpoint(&mut self, name: &CpName) -> Result<(), Fault>
        requires on { self.old.is_off ≡ false }
        requires allowed { group_refusal self.old.group self.old.files (Call.Checkpoint name.now) ≡ None }
        ensures { (device : Device) → IsMounted device self.old → IsAnswered (moment device self.old) (Call.Checkpoint name.now) (replied empty result) (moment device self.new) }
    {
        self.history.check_checkpoint(name)?;
        check_writable(&self.storage)?;
        let root = self.root();
        self.history.checkpoint(name.clone()?, root)
    }

    /// The checkpoint of this name is given up.
    pub(crate) fn remove_checkpoint(&mut self, name: &CpName) -> Result<(), Fault>
        requires on { self.old.is_off ≡ false }
        requires allowed { group_refusal self.old.group self.old.files (Call.RemoveCheckpoint name.now) ≡ None }
        ensures { (device : Device) → IsMounted device self.old → IsAnswered (moment device self.old) (Call.RemoveCheckpoint name.now) (replied empty result) (moment device self.new) }
    {
        self.history.check_name(name)?;
        check_writable(&self.storage)?;
        self.history.remove_checkpoint(name)
    }

    /// The history, as `log` tells it. It changes nothing, and so is asked by itself, too: it checks the
    /// power as [`State::carry_out`] does.
    pub fn log(&self, alloc: Global) -> Result<Reply, Fault>
        ensures { (device : Device) → StateStep device self.now Call.Log result device self.now }
    {
        self.check_power()?;
        let versions = self.history.serials(alloc)?;
        let checkpoints = self.history.checkpoint_names(alloc)?;
        Ok(Reply::Log {
            next: self.history.next_serial(),
            dropped: self.history.has_dropped(),
            versions,
            cursor: self.history.cursor() as u64,
            checkpoints,
        })
    }
}
