//! The anchor that the next records go to, and the free blocks that writes take next, are erased before, in steps.
ghost use Rattle.std.specs.Prelude.{◌≡◌, false, OnOk};
ghost use Rattle.bad_blocks.specs.Mode as mode;
ghost use Rattle.system.specs.Cleaning.{IsUndisturbed};
ghost use Rattle.system.specs.Preparing.{PreparesAhead, PreparesBlocksOn, PreparesItsAnchor, StepPrepares};
ghost use Rattle.system.specs.Systems.{IsSystem};

use crate::preparations::prepare_blocks;
use crate::systems::System;
use bad_blocks::is_read_only;
use flash_model::Flash;
use fs_types::Fault;

impl System {
    /// Erases ahead what records and writes go to next, in `budget` erases at most. First the anchor that
    /// comes after the newest record's, once few pages are left on that ([`Anchors::next_unprepared`]),
    /// if it was not erased since a record last went to another anchor. Then the free blocks that are taken
    /// next: of the first 64 in ring order after the last one taken those that no step erased since the
    /// mount, or that were taken since, blank or not. Whether all of these are prepared then. Where they
    /// are, nothing is asked of the flash.
    ///
    /// What a version, a checkpoint, the change group or the newest record reaches stays, and so do the
    /// newest record, the marking that goes on and the round of [`System::clean_step`]. No memory is asked
    /// for. [`Fault::PowerCut`] where a call answered that before; [`Fault::ReadOnly`] in read-only mode;
    /// [`Fault::PowerCut`] by the device; [`Fault::ReadOnly`] where the block of a failed erase is the
    /// 256th in the bad list, or the seventh anchor in it.
    pub fn prepare_step<F: Flash>(&mut self, flash: &mut F, budget: u64) -> Result<bool, Fault>
        requires { IsSystem (F.device flash.old) self.old }
        ensures system { IsSystem (F.device flash.new) self.new }
        ensures step { PreparesAhead (F.device flash.old) self.old budget result (F.device flash.new) self.new }
    {
        self.state.check_power()?;
        let is_done = self.prepare_on(flash, budget);
        self.state.remember_cut(is_done)
    }

    /// The same, where no call answered before that the power is off.
    fn prepare_on<F: Flash>(&mut self, flash: &mut F, budget: u64) -> Result<bool, Fault>
        requires system { IsSystem (F.device flash.old) self.old }
        requires is_on { self.old.state.is_off ≡ false }
        ensures system { IsSystem (F.device flash.new) self.new }
        ensures is_on { self.new.state.is_off ≡ false }
        ensures undisturbed { IsUndisturbed (F.device flash.old) self.old (F.device flash.new) self.new }
        ensures cleaned_to { self.new.cleaned_to ≡ self.old.cleaned_to }
        ensures prepares { StepPrepares (F.device flash.old) self.old budget result (F.device flash.new) self.new }
    {
        if is_read_only(&self.state.storage.bad) {
            return Err(Fault::ReadOnly);
        }
        let left = self.prepare_anchor(flash, budget)?;
        self.prepare_next_blocks(flash, left)
    }

    /// Prepares the anchor that the next records go to. Answers what is left of the budget.
    fn prepare_anchor<F: Flash>(&mut self, flash: &mut F, budget: u64) -> Result<u64, Fault>
        requires system { IsSystem (F.device flash.old) self.old }
        requires is_on { self.old.state.is_off ≡ false }
        requires open { mode.is_read_only self.old.state.storage.bad ≡ false }
        ensures system { IsSystem (F.device flash.new) self.new }
        ensures undisturbed { IsUndisturbed (F.device flash.old) self.old (F.device flash.new) self.new }
        ensures prepares { PreparesItsAnchor (F.device flash.old) self.old budget result (F.device flash.new) self.new }
        ensures open { OnOk result (mode.is_read_only self.new.state.storage.bad ≡ false) }
    {
        // The used blocks are data blocks, as their contract tells.
        let _blocks = self.state.storage.ring.blocks();
        self.anchors
            .prepare(flash, &mut self.state.storage.bad, budget)
    }

    /// Prepares the free blocks that are taken next, and answers whether all is prepared then, the anchor too.
    fn prepare_next_blocks<F: Flash>(&mut self, flash: &mut F, budget: u64) -> Result<bool, Fault>
        requires system { IsSystem (F.device flash.old) self.old }
        requires is_on { self.old.state.is_off ≡ false }
        requires open { mode.is_read_only self.old.state.storage.bad ≡ false }
        ensures system { IsSystem (F.device flash.new) self.new }
        ensures undisturbed { IsUndisturbed (F.device flash.old) self.old (F.device flash.new) self.new }
        ensures is_on { self.new.state.is_off ≡ false }
        ensures cleaned_to { self.new.cleaned_to ≡ self.old.cleaned_to }
        ensures prepares { PreparesBlocksOn (F.device flash.old) self.old budget result (F.device flash.new) self.new }
    {
        let is_done = prepare_blocks(flash, &mut self.state.storage, &mut self.prepared, budget)?;
        let anchor = self
            .anchors
            .next_unprepared(flash.geometry(), &self.state.storage.bad);
        Ok(is_done && anchor.is_none())
    }
}
