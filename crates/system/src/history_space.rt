//! How many versions have to be forgotten for so many blocks to be free.
ghost use Rattle.std.specs.Prelude.{◌≡◌, ◌≢◌, ◌≤◌, ◌+◌, ℕ, false, length, reverse, IfOk, IfErr};
ghost use Rattle.fs_types.specs.declared.call.Call.{Call};
ghost use Rattle.fs_types.specs.declared.call.Reply.{Reply};
ghost use Rattle.flash_model.specs.Device.{Device};
ghost use Rattle.node_store.specs.NodePages.{node_of};
ghost use Rattle.mounting.specs.Costs.{AsksEach};
ghost use Rattle.mounting.specs.Records.{working_roots};
ghost use Rattle.working_state.specs.Moments.{moment};
ghost use Rattle.working_state.specs.Mounted.{IsMounted};
ghost use Rattle.working_state.specs.Worked.{IsLooked};
ghost use Rattle.tree_counts.specs.FirstRoots.{AreFirstRoots};
ghost use Rattle.system.specs.HistorySpace.{FreeAfter, Finds, FindsIn, ForgetsUntil, Looks, df_answer};
ghost use Rattle.system.specs.Steps.{SystemStep};
ghost use Rattle.system.specs.Systems.{IsSystem};

use crate::systems::System;
use flash_model::Flash;
use fs_types::{Fault, Request};
use mounting::{first_roots_on, list_working};
use std::alloc::{AllocError, Global};
use tree_counts::count_free;
use working_state::State;

impl System {
    /// Forgets the fewest of the oldest versions before the present one that leave `blocks` blocks free,
    /// as [`System::df`] shows them, and answers how many these are; none where so many are free. The
    /// nodes that are reached are read once.
    ///
    /// In order: [`Fault::PowerCut`] where a call answered that before; [`Fault::InGroup`] where a change
    /// group is open; what the reading meets, [`Fault::ReadFailed`], [`Fault::PowerCut`],
    /// [`Fault::NoMemory`]; [`Fault::FlashFull`] where all versions before the present one are not enough,
    /// and nothing is done; and, where any are to be forgotten, [`Fault::ReadOnly`] as for `forget`.
    pub fn forget_until_free<F: Flash>(
        &mut self,
        alloc: Global,
        flash: &mut F,
        blocks: u64,
    ) -> Result<u64, Fault>
        requires { IsSystem (F.device flash.old) self.old }
        ensures system { IsSystem (F.device flash.new) self.new }
        ensures step { ForgetsUntil (F.device flash.old) self.old blocks result (F.device flash.new) self.new }
    {
        self.state.check_power()?;
        self.state.check_outside()?;
        let count = self.find_count(alloc, flash, blocks)?;
        if count == 0 {
            return Ok(0);
        }
        self.call(alloc, flash, Request::Forget { count })?;
        Ok(count)
    }

    /// The fewest versions to forget so that so many blocks are free, where no call answered before that
    /// the power is off.
    fn find_count<F: Flash>(
        &mut self,
        alloc: Global,
        flash: &mut F,
        blocks: u64,
    ) -> Result<u64, Fault>
        requires system { IsSystem (F.device flash.old) self.old }
        requires is_on { self.old.state.is_off ≡ false }
        ensures system { IsSystem (F.device flash.new) self.new }
        ensures looks { Looks (F.device flash.old) self.old result (F.device flash.new) self.new }
        ensures finds { Finds (F.device flash.old) self.old.state blocks result (F.device flash.new) self.new.state }
        ensures asks { AsksEach (F.device flash.old) (working_roots self.old.state) (F.device flash.new) }
        ensures as_df { (reply : Reply) × SystemStep (F.device flash.old) self.old Call.Df (df_answer reply result) (F.device flash.new) self.new }
    {
        let found = find_least(&mut self.state, alloc, flash, blocks);
        self.state.remember_cut(found)
    }
}

/// The same, of the working state.
fn find_least<F: Flash>(
    state: &mut State,
    alloc: Global,
    flash: &mut F,
    blocks: u64,
) -> Result<u64, Fault>
    requires { IsMounted (F.device flash.old) state.old }
    ensures looked { IsLooked (moment (F.device flash.old) state.old) (moment (F.device flash.new) state.new) }
    ensures asks { AsksEach (F.device flash.old) (working_roots state.old) (F.device flash.new) }
    ensures finds { Finds (F.device flash.old) state.old blocks result (F.device flash.new) state.new }
{
    let roots = list_newest_first(alloc, state)?;
    let lasts = first_roots_on(alloc, flash, &mut state.storage, &roots)?;
    least_enough(state, &lasts, roots.len() as u8, blocks)
}

/// The roots of a state from the last one on: of its group, of its checkpoints, and of its versions,
/// the newest first.
pub(crate) fn list_newest_first(alloc: Global, state: &State) -> Result<Vec<u32>, AllocError>
    ensures listed { IfOk result (λ roots. roots.items ≡ reverse (working_roots state.now)) }
    ensures few { IfOk result (λ roots. length roots.items ≤ 255) }
{
    let mut roots = list_working(alloc, state)?;
    // There are 128 versions at most, as their contract tells.
    let _versions = state.history.versions();
    roots.reverse();
    Ok(roots)
}

/// The same, by the number of the first root that reaches each block, from the last root on.
fn least_enough(state: &State, lasts: &[u8], roots: u8, blocks: u64) -> Result<u64, Fault>
    requires roots { roots ≡ length (working_roots state.now) }
    requires sized { length lasts.now ≡ state.now.storage.ring.blocks }
    ensures { (d : Device) → IsMounted d state.now → AreFirstRoots (node_of d) (reverse (working_roots state.now)) lasts.now → FindsIn d state.now blocks result }
{
    for count in 0..roots {
        if state.history.cursor() < usize::from(count) {
            return Err(Fault::FlashFull);
        }
        if blocks <= free_after(state, lasts, roots, count) {
            return Ok(u64::from(count));
        }
    }
    Err(Fault::FlashFull)
}

/// How many blocks are free once the `count` oldest versions are forgotten.
fn free_after(state: &State, lasts: &[u8], roots: u8, count: u8) -> u64
    requires roots { roots ≡ length (working_roots state.now) }
    requires sized { length lasts.now ≡ state.now.storage.ring.blocks }
    requires count { count ≤ roots }
    ensures { (d : Device) → IsMounted d state.now → count ≤ state.now.history.cursor → AreFirstRoots (node_of d) (reverse (working_roots state.now)) lasts.now → FreeAfter d state.now count result }
{
    let blocks = state.storage.ring.blocks();
    u64::from(count_free(blocks, lasts, &state.storage.bad, roots - count))
}
