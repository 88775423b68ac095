//! Free blocks are erased in steps, before a write takes them.
ghost use Rattle.std.specs.Prelude.{◌≡◌, true, false};
ghost use Rattle.system.specs.Cleaning.{Cleans, IsUndisturbed, LeavesAnchors, StepCleans};
ghost use Rattle.system.specs.Systems.{IsSystem};

use crate::cleaning_rounds::clean_blocks;
use crate::systems::System;
use bad_blocks::is_read_only;
use flash_model::Flash;
use fs_types::Fault;

impl System {
    /// Goes on with a round over the data blocks that are free in the ring, neither used nor bad: looks at
    /// `budget` of them at most, reads the pages of each up to the first that is not erased, and erases the
    /// block where there is one; a page of which the read fails counts as not erased. Whether the round is
    /// over: the next step begins a new one then, and so does the first after a mount and after a refusal.
    ///
    /// What a version, a checkpoint, the change group or the newest record reaches stays, and so does the
    /// marking that goes on. No memory is asked for. [`Fault::PowerCut`] where a call answered that before;
    /// [`Fault::ReadOnly`] in read-only mode; [`Fault::PowerCut`] by the device; [`Fault::ReadOnly`] where
    /// the block of a failed erase is the 256th in the bad list.
    pub fn clean_step<F: Flash>(&mut self, flash: &mut F, budget: u64) -> Result<bool, Fault>
        requires { IsSystem (F.device flash.old) self.old }
        ensures system { IsSystem (F.device flash.new) self.new }
        ensures step { Cleans (F.device flash.old) self.old budget result (F.device flash.new) self.new }
    {
        self.state.check_power()?;
        let is_over = self.clean_on(flash, budget);
        self.state.remember_cut(is_over)
    }

    /// The same, where no call answered before that the power is off.
    fn clean_on<F: Flash>(&mut self, flash: &mut F, budget: u64) -> Result<bool, Fault>
        requires system { IsSystem (F.device flash.old) self.old }
        requires is_on { self.old.state.is_off ≡ false }
        ensures system { IsSystem (F.device flash.new) self.new }
        ensures is_on { self.new.state.is_off ≡ false }
        ensures undisturbed { IsUndisturbed (F.device flash.old) self.old (F.device flash.new) self.new }
        ensures anchors { LeavesAnchors (F.device flash.old) self.old (F.device flash.new) self.new }
        ensures prepared { self.new.prepared ≡ self.old.prepared }
        ensures cleans { StepCleans (F.device flash.old) self.old budget result (F.device flash.new) self.new }
    {
        let from = self.cleaned_to;
        self.cleaned_to = 0;
        if is_read_only(&self.state.storage.bad) {
            return Err(Fault::ReadOnly);
        }
        match clean_blocks(flash, &mut self.state.storage, from, budget)? {
            Some(next) => {
                self.cleaned_to = next;
                Ok(false)
            }
            None => Ok(true),
        }
    }
}
