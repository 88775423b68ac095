//! Room on a full flash: what was before a call is committed, and all that nothing keeps is free.
ghost use Rattle.std.specs.Prelude.{◌≡◌, false, Err};
ghost use Rattle.system.specs.Rooms.{MakesRoom};
ghost use Rattle.system.specs.Systems.{IsSystem};

use crate::systems::System;
use flash_model::Flash;
use fs_types::{Fault, Reply};
use std::alloc::Global;

impl System {
    /// Makes room for a second try of a call, where its first was answered [`Fault::FlashFull`]; whether
    /// that was so. The marking that goes on is dropped, the working history committed, which is as it
    /// was before the call, and then each block is free that neither it reaches nor the change group that
    /// is open.
    ///
    /// What the commit answers, and [`Fault::ReadFailed`]: then the call is not to be tried again.
    pub(crate) fn makes_room<F: Flash>(
        &mut self,
        alloc: Global,
        flash: &mut F,
        first: &Result<Reply, Fault>,
    ) -> Result<bool, Fault>
        requires system { IsSystem (F.device flash.old) self.old }
        requires is_on { first.now ≡ Err Fault.FlashFull → self.old.state.is_off ≡ false }
        ensures system { IsSystem (F.device flash.new) self.new }
        ensures room { MakesRoom first.now (F.device flash.old) self.old result (F.device flash.new) self.new }
    {
        if !matches!(first, Err(Fault::FlashFull)) {
            return Ok(false);
        }
        self.pass = None;
        self.commit(alloc, flash)?;
        self.reclaim_step(alloc, flash, u64::MAX)?;
        Ok(true)
    }
}
