//! The one way in for a call.
ghost use Rattle.std.specs.Prelude.{◌≡◌, ◌≢◌, ℕ, Some, None, true, false};
ghost use Rattle.history_machine.specs.History.{working_root};
ghost use Rattle.fs_types.specs.Requests.{call_of};
ghost use Rattle.working_state.specs.Facts.{group_refusal};
ghost use Rattle.working_state.specs.Moments.{IsAnswered, moment};
ghost use Rattle.working_state.specs.Mounted.{IsMounted, StateStep, KeepsPages};
ghost use Rattle.working_state.specs.OpenBodies.{nothing_known, kept_bodies, reads_open, KnowsBelow, KnowsBodies};
ghost use Rattle.working_state.specs.Steps.{replied, empty, is_sync, tells_space};

use crate::known_bodies::KnownBodies;
use crate::state::State;
use flash_model::Flash;
use fs_types::{Fault, Reply, Request};
use std::alloc::Global;

impl State {
    /// Carries out a call on the working state and its flash, and answers its reply. It is none of
    /// [`Request::Sync`], [`Request::Fsync`] and [`Request::Df`]. Checked in order: whether an earlier
    /// call answered that the power is off; whether a change group and the open files allow the call; its
    /// own refusals; and for a change, read-only mode and outside a group the greatest serial.
    ///
    /// The step says what each call does and leaves: one that changes no tree changes no page, and those
    /// on the history, those that begin or end a change group, `close` and `log` do no device operation.
    ///
    /// What is remembered of open files is what a look-up of their paths tells: a read by a descriptor
    /// remembers it, and it is forgotten where calls work on another tree then, and of a file that is closed.
    pub fn carry_out<F: Flash>(
        &mut self,
        alloc: Global,
        flash: &mut F,
        bodies: &mut KnownBodies,
        request: Request<'_>,
    ) -> Result<Reply, Fault>
        requires mounted { IsMounted (F.device flash.old) self.old }
        requires known { KnowsBodies (F.device flash.old) self.old bodies.old }
        requires unsynced { is_sync (call_of request) ≡ false }
        requires told { tells_space (call_of request) ≡ false }
        ensures mounted { IsMounted (F.device flash.new) self.new }
        ensures known { KnowsBodies (F.device flash.new) self.new bodies.new }
        ensures stopped { self.old.is_off ≡ true → bodies.new ≡ bodies.old }
        ensures step { StateStep (F.device flash.old) self.old (call_of request.entry) result (F.device flash.new) self.new }
        ensures pages { KeepsPages (F.device flash.old) self.old (F.device flash.new) }
    {
        self.check_power()?;
        self.check_group(request)?;
        let root = self.root();
        let answer = self.answer(alloc, flash, bodies, request);
        self.forget_bodies(bodies, root, request);
        self.remember_cut(answer)
    }

    /// Forgets what a call made untrue: all, where calls worked on another root before it, else what it closed.
    fn forget_bodies(&self, bodies: &mut KnownBodies, root: u32, request: Request<'_>)
        ensures same { working_root self.now.history self.now.group ≡ Some root → bodies.new ≡ kept_bodies (call_of request.entry) bodies.old }
        ensures other { (now : ℕ) → working_root self.now.history self.now.group ≡ Some now → now ≢ root → bodies.new ≡ nothing_known }
    {
        if self.root() != root {
            *bodies = KnownBodies::new();
        } else if let Request::Close { descriptor } = request {
            bodies.forget(descriptor);
        }
    }

    /// Does the work of a call that the power, the change group and the open files allow. What is known of
    /// open files is what look-ups of their paths tell, at the root that it began with.
    fn answer<F: Flash>(
        &mut self,
        alloc: Global,
        flash: &mut F,
        bodies: &mut KnownBodies,
        request: Request<'_>,
    ) -> Result<Reply, Fault>
        requires mounted { IsMounted (F.device flash.old) self.old }
        requires known { KnowsBodies (F.device flash.old) self.old bodies.old }
        requires on { self.old.is_off ≡ false }
        requires allowed { group_refusal self.old.group self.old.files (call_of request) ≡ None }
        requires unsynced { is_sync (call_of request) ≡ false }
        requires told { tells_space (call_of request) ≡ false }
        ensures answered { IsAnswered (moment (F.device flash.old) self.old) (call_of request.entry) result (moment (F.device flash.new) self.new) }
        ensures known { (root : ℕ) → working_root self.old.history self.old.group ≡ Some root → KnowsBelow (F.device flash.new) root self.old.files bodies.new }
    {
        match request {
            Request::Pread {
                descriptor,
                offset,
                count,
            } => self
                .read_open(alloc, flash, bodies, descriptor, offset, count)
                .map(Reply::Bytes),
            _ => self.work(alloc, flash, request),
        }
    }

    /// The same, of a call that reads no open file.
    fn work<F: Flash>(
        &mut self,
        alloc: Global,
        flash: &mut F,
        request: Request<'_>,
    ) -> Result<Reply, Fault>
        requires mounted { IsMounted (F.device flash.old) self.old }
        requires on { self.old.is_off ≡ false }
        requires allowed { group_refusal self.old.group self.old.files (call_of request) ≡ None }
        requires unsynced { is_sync (call_of request) ≡ false }
        requires told { tells_space (call_of request) ≡ false }
        requires unread { reads_open (call_of request) ≡ false }
        ensures { IsAnswered (moment (F.device flash.old) self.old) (call_of request.entry) result (moment (F.device flash.new) self.new) }
    {
        match request {
            Request::Open { path, flags } => self
                .open_file(alloc, flash, path, flags)
                .map(Reply::Fd),
            Request::Close { descriptor } => empty_reply(self.close(descriptor)),
            Request::Pwrite {
                descriptor,
                offset,
                bytes,
            } => self
                .write_open(alloc, flash, descriptor, offset, bytes)
                .map(Reply::Count),
            Request::Ftruncate { descriptor, length } => {
                empty_reply(self.resize_file(alloc, flash, descriptor, length))
            }
            Request::WriteFile { path, bytes } => {
                empty_reply(self.write_file(alloc, flash, path, bytes))
            }
            Request::WriteFiles { directory, files } => {
                empty_reply(self.write_files(alloc, flash, directory, files))
            }
            Request::Rename { old, new } => empty_reply(self.move_entry(alloc, flash, old, new)),
            Request::Unlink { path } => empty_reply(self.remove_file(alloc, flash, path)),
            Request::Mkdir { path } => empty_reply(self.add_directory(alloc, flash, path)),
            Request::Rmdir { path } => empty_reply(self.remove_directory(alloc, flash, path)),
            Request::Stat { view, path } => self.stat_view(flash, view, path).map(Reply::Stat),
            Request::List { view, path } => self
                .list_view(alloc, flash, view, path)
                .map(Reply::Names),
            Request::ReadAt {
                view,
                path,
                offset,
                count,
            } => self
                .read_view(alloc, flash, view, path, offset, count)
                .map(Reply::Bytes),
            Request::Entries {
                view,
                path,
                from,
                most,
            } => self
                .entries_view(alloc, flash, view, path, from, most)
                .map(Reply::Entries),
            Request::Log => self.log(alloc),
            Request::Undo => empty_reply(self.undo()),
            Request::Redo => empty_reply(self.redo()),
            Request::Goto { serial } => empty_reply(self.goto(serial)),
            Request::Rollback { name } => empty_reply(self.rollback(alloc, flash, name)),
            Request::Forget { count } => empty_reply(self.forget(count)),
            Request::Checkpoint { name } => empty_reply(self.checkpoint(name)),
            Request::RemoveCheckpoint { name } => empty_reply(self.remove_checkpoint(name)),
            Request::Begin => empty_reply(self.begin()),
            Request::End => empty_reply(self.end()),
            Request::Abandon => empty_reply(self.abandon()),
            Request::Pread { .. } | Request::Sync | Request::Fsync { .. } | Request::Df => {
                unreachable!()
            }
        }
    }
}

/// The answer of a call that tells nothing but that it was carried out.
fn empty_reply(answer: Result<(), Fault>) -> Result<Reply, Fault>
    ensures { result ≡ replied empty answer }
{
    answer?;
    Ok(Reply::Empty)
}
