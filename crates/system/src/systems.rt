//! A mounted system: its working state beside what is known of the newest record.
ghost use Rattle.std.specs.Prelude.{◌≡◌, ◌≢◌, ◌-◌, ◌^◌, true, false, Err, IfOk, OnOk, OnErr, IfErr};
ghost use Rattle.fs_types.specs.Requests.{call_of};
ghost use Rattle.fs_types.specs.declared.call.Call.{Call};
ghost use Rattle.fs_types.specs.declared.fault.Fault.{Fault};
ghost use Rattle.block_ring.specs.Ring.{AreDataBlocks};
ghost use Rattle.bad_blocks.specs.Mode.{is_read_only};
ghost use Rattle.record_format.specs.Payloads.{is_record};
ghost use Rattle.anchors.specs.Newest.{remembered};
ghost use Rattle.anchors.specs.Parts.{sequence_of};
ghost use Rattle.working_state.specs.Steps.{replied, empty};
ghost use Rattle.mounting.specs.Contents.{record_of};
ghost use Rattle.system.specs.Systems.{IsSystem};
ghost use Rattle.system.specs.Commits.{Saves, SaveCause, LacksSequence, CommitRefuses, TriesOnce};
ghost use Rattle.system.specs.Steps.{SystemStep};

use crate::prepared_blocks::PreparedBlocks;
use anchors::Anchors;
use bad_blocks::is_read_only;
use flash_model::{Flash, Geometry};
use fs_types::{Fault, Reply, Request};
use mounting::{list_roots, record_of};
use reclaim::Pass;
use record_format::Record;
use std::alloc::Global;
use working_state::{KnownBodies, State};

/// A mounted system: its working state, what is known of the newest record, the marking that goes on,
/// how far a round of cleaning has come, and which blocks are prepared.
#[derive(Drop)]
pub struct System {
    /// The versions and checkpoints, the change group that is open, if one is, what nodes are kept with,
    /// and the open files.
    pub state: State,
    /// What is known of the bodies of the open files.
    pub bodies: KnownBodies,
    /// The place of the newest record, so that a commit may follow.
    pub anchors: Anchors,
    /// The roots of the newest record's versions and checkpoints.
    pub record_roots: Vec<u32>,
    /// The marking of used blocks that goes on beside the calls, where one was begun.
    pub pass: Option<Pass>,
    /// The block at which a round of cleaning goes on; 0 where a new one begins.
    pub cleaned_to: u32,
    /// The blocks that were erased by a step of preparing since the mount. One that was taken since is
    /// forgotten before it is free again.
    pub prepared: PreparedBlocks,
}

impl System {
    /// Commits the whole working state: history, checkpoints, bad blocks, and the last block taken.
    /// A record is written each time, as [`Anchors::commit`] has it.
    ///
    /// [`Fault::PowerCut`] where an earlier call answered that; [`Fault::InGroup`] where a change group
    /// is open; [`Fault::ReadOnly`] in read-only mode, or where it is met since anchors fail;
    /// [`Fault::Overflow`] where the sequence of the newest record is the greatest number there is;
    /// [`Fault::PowerCut`]; [`Fault::NoMemory`]. After a refusal but `PowerCut` the newest record is the
    /// one it was.
    fn sync<F: Flash>(&mut self, alloc: Global, flash: &mut F) -> Result<(), Fault>
        requires { IsSystem (F.device flash.old) self.old }
        ensures system { IsSystem (F.device flash.new) self.new }
        ensures step { TriesOnce (F.device flash.old) self.old Call.Sync (replied empty result) (F.device flash.new) self.new }
    {
        self.state.check_power()?;
        self.state.check_outside()?;
        self.commit(alloc, flash)
    }

    /// The same, where the descriptor is of an open file; else [`Fault::BadDescriptor`], before
    /// [`Fault::InGroup`] (POSIX.1-2017 `fsync`, which speaks of one file).
    fn fsync<F: Flash>(
        &mut self,
        alloc: Global,
        flash: &mut F,
        descriptor: u64,
    ) -> Result<(), Fault>
        requires { IsSystem (F.device flash.old) self.old }
        ensures system { IsSystem (F.device flash.new) self.new }
        ensures step { TriesOnce (F.device flash.old) self.old (Call.Fsync descriptor) (replied empty result) (F.device flash.new) self.new }
    {
        self.state.check_power()?;
        if self.state.files.get(descriptor).is_none() {
            return Err(Fault::BadDescriptor);
        }
        self.state.check_outside()?;
        self.commit(alloc, flash)
    }

    /// Carries out a call, and answers its reply. Where it finds the flash full it is carried out once
    /// more, after [`System::makes_room`].
    pub fn call<F: Flash>(
        &mut self,
        alloc: Global,
        flash: &mut F,
        request: Request<'_>,
    ) -> Result<Reply, Fault>
        requires { IsSystem (F.device flash.old) self.old }
        ensures system { IsSystem (F.device flash.new) self.new }
        ensures step { SystemStep (F.device flash.old) self.old (call_of request.entry) result (F.device flash.new) self.new }
    {
        let first = self.try_call(alloc, flash, request);
        if !self.makes_room(alloc, flash, &first)? {
            return first;
        }
        self.try_call(alloc, flash, request)
    }

    /// Carries out a call once.
    fn try_call<F: Flash>(
        &mut self,
        alloc: Global,
        flash: &mut F,
        request: Request<'_>,
    ) -> Result<Reply, Fault>
        requires { IsSystem (F.device flash.old) self.old }
        ensures system { IsSystem (F.device flash.new) self.new }
        ensures step { TriesOnce (F.device flash.old) self.old (call_of request.entry) result (F.device flash.new) self.new }
    {
        match request {
            Request::Sync => self.sync(alloc, flash)?,
            Request::Fsync { descriptor } => self.fsync(alloc, flash, descriptor)?,
            Request::Df => return self.df(alloc, flash),
            _ => {
                return self
                    .state
                    .carry_out(alloc, flash, &mut self.bodies, request);
            }
        }
        Ok(Reply::Empty)
    }

    /// Commits the record of the working state, where no call answered before that the power is off.
    /// It has the history, and nothing of a change group that is open. Where the power goes in the commit
    /// that is remembered.
    pub(crate) fn commit<F: Flash>(&mut self, alloc: Global, flash: &mut F) -> Result<(), Fault>
        requires system { IsSystem (F.device flash.old) self.old }
        requires is_on { self.old.state.is_off ≡ false }
        ensures system { IsSystem (F.device flash.new) self.new }
        ensures saves { Saves (F.device flash.old) self.old result (F.device flash.new) self.new }
        ensures why { IfErr result (SaveCause (F.device flash.old) self.old (F.device flash.new) self.new) }
        ensures pass { self.new.pass ≡ self.old.pass }
        ensures prepared { self.new.prepared ≡ self.old.prepared }
        ensures last { LacksSequence (F.device flash.old) self.old → (result ≡ Err Fault.Overflow) × (F.device flash.new ≡ F.device flash.old) × (self.new ≡ self.old) }
    {
        self.check_commit()?;
        let saved = self.record(alloc, flash.geometry())?;
        let roots = list_roots(alloc, &self.state.history)?;
        let answer = self
            .anchors
            .commit(alloc, flash, &mut self.state.storage.bad, &saved);
        self.remember_roots(&answer, roots);
        self.state.remember_cut(answer)
    }

    /// These are the roots of the newest record, where it was committed.
    fn remember_roots(&mut self, answer: &Result<(), Fault>, roots: Vec<u32>)
        ensures same { self.new ≡ record self.old { record_roots = self.new.record_roots } }
        ensures newer { OnOk answer.now (self.new.record_roots ≡ roots) }
        ensures older { OnErr answer.now (self.new.record_roots ≡ self.old.record_roots) }
    {
        if answer.is_ok() {
            self.record_roots = roots;
        }
    }

    /// Whether a commit may come: [`Fault::ReadOnly`] in read-only mode, else [`Fault::Overflow`] where
    /// no sequence is left. No memory is asked for.
    fn check_commit(&self) -> Result<(), Fault>
        ensures writable { OnOk result (is_read_only self.now.state.storage.bad ≡ false) }
        ensures next { OnOk result (sequence_of (remembered self.now.anchors) ≢ 2 ^ 64 - 1) }
        ensures why { IfErr result (CommitRefuses self.now) }
    {
        if is_read_only(&self.state.storage.bad) {
            return Err(Fault::ReadOnly);
        }
        if !self.anchors.has_next_sequence() {
            return Err(Fault::Overflow);
        }
        Ok(())
    }

    /// The record of the working state.
    fn record(&self, alloc: Global, geometry: Geometry) -> Result<Record, Fault>
        requires { geometry.blocks ≡ self.now.state.storage.ring.blocks }
        ensures says { IfOk result (λ saved. saved ≡ record_of geometry self.now.state.history self.now.state.storage.ring.last) }
        ensures lawful { OnOk result (is_record (record_of geometry self.now.state.history self.now.state.storage.ring.last) ≡ true) }
        ensures used { OnOk result (AreDataBlocks self.now.state.storage.ring.blocks self.now.state.storage.ring.used) }
        ensures memory { IfErr result (λ fault. fault ≡ Fault.NoMemory) }
    {
        let State {
            history,
            storage,
            ..
        } = &self.state;
        // The used blocks are data blocks, as their contract tells.
        let _blocks = storage.ring.blocks();
        Ok(record_of(alloc, geometry, history, storage.ring.last())?)
    }
}
