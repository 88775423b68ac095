//! How much of a flash is used.
ghost use Rattle.std.specs.Prelude.{◌≡◌, ◌-◌, ◌≤◌, ◌||◌, not, count_by, IfOk, IfErr};
ghost use Rattle.std.specs.FinSet as set;
ghost use Rattle.history_machine.specs.Machine.{Space, reply_of};
ghost use Rattle.fs_types.specs.declared.call.Call.{Call};
ghost use Rattle.fs_types.specs.declared.call.Reply.{Reply};
ghost use Rattle.block_ring.specs.Ring.{data_blocks};
ghost use Rattle.bad_blocks.specs.Mode as modes;
ghost use Rattle.working_state.specs.Moments.{moment, machine_at};
ghost use Rattle.working_state.specs.Mounted.{IsMounted};
ghost use Rattle.working_state.specs.Roots.{IsSpace};
ghost use Rattle.working_state.specs.Seen.{seen_on, machine_on};
ghost use Rattle.working_state.specs.Worked.{IsLooked, ReadCause};
ghost use Rattle.system.specs.Commits.{TriesOnce};
ghost use Rattle.mounting.specs.Costs.{AsksEach};
ghost use Rattle.mounting.specs.Records.{working_roots};
ghost use Rattle.system.specs.Systems.{IsSystem};

use crate::systems::System;
use bad_blocks::{BadBlocks, bad_anchors};
use block_ring::{Marks, count_bad};
use flash_model::Flash;
use fs_types::{ANCHORS, Fault, Reply};
use mounting::{list_working, marked_on};
use std::alloc::Global;
use working_state::State;

impl System {
    /// How much of the flash is used: [`Reply::Df`]. Free is a data block that is neither bad nor
    /// reached by a version, a checkpoint or the change group that is open. Their nodes are read, each
    /// once, and nothing is written.
    ///
    /// [`Fault::ReadFailed`], [`Fault::PowerCut`], [`Fault::NoMemory`].
    pub fn df<F: Flash>(&mut self, alloc: Global, flash: &mut F) -> Result<Reply, Fault>
        requires { IsSystem (F.device flash.old) self.old }
        ensures system { IsSystem (F.device flash.new) self.new }
        ensures step { TriesOnce (F.device flash.old) self.old Call.Df result (F.device flash.new) self.new }
        ensures asks { AsksEach (F.device flash.old) (working_roots self.old.state) (F.device flash.new) }
    {
        self.state.check_power()?;
        let space = measure(&mut self.state, alloc, flash);
        self.state.remember_cut(space)
    }
}

/// How much of a flash is used, where no call answered before that the power is off.
fn measure<F: Flash>(state: &mut State, alloc: Global, flash: &mut F) -> Result<Reply, Fault>
    requires { IsMounted (F.device flash.old) state.old }
    ensures looked { IsLooked (moment (F.device flash.old) state.old) (moment (F.device flash.new) state.new) }
    ensures asks { AsksEach (F.device flash.old) (working_roots state.old) (F.device flash.new) }
    ensures told { IfOk result (λ reply. (space : Space) × IsSpace (F.device flash.new) state.new space × (reply_of space (machine_on (F.device flash.old) state.old) Call.Df ≡ reply)) }
    ensures why { IfErr result (λ fault. ReadCause (seen_on (F.device flash.old) state.old) fault (seen_on (F.device flash.new) state.new)) }
{
    let roots = list_working(alloc, state)?;
    let reached = marked_on(alloc, flash, &mut state.storage, &roots)?;
    Ok(tell_space(&reached, &state.storage.bad))
}

/// The space that is left, where these blocks are reached.
fn tell_space(reached: &Marks, bad: &BadBlocks) -> Reply
    requires { ANCHORS ≤ reached.now.blocks }
    ensures { result ≡ Reply.Df (reached.now.blocks - ANCHORS) (count_by (set.contains bad.now) (data_blocks reached.now.blocks)) (count_by (λ b. not (set.contains bad.now b || set.contains reached.now.members b)) (data_blocks reached.now.blocks)) (ANCHORS - modes.bad_anchors bad.now) }
{
    let blocks = reached.blocks();
    Reply::Df {
        blocks: (blocks - ANCHORS) as u64,
        bad: u64::from(count_bad(blocks, bad)),
        free: u64::from(reached.free_count(bad)),
        anchors: ANCHORS as u64 - bad_anchors(bad) as u64,
    }
}
