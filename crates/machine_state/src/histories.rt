//! A bounded list of versions with a cursor, and checkpoints by name.
ghost use Rattle.std.specs.Prelude.{◌≡◌, ◌+◌, ◌<◌, ◌≤◌, Some, None, drop, length, vec_len, vec_capacity, unwrap_or, IfOk, IfErr, OnOk, OnErr};
ghost use Rattle.history_machine.specs.History.{fresh, changed, undo_refusal, undone, redo_refusal, redone, serial_refusal, gone_to, forget_refusal, forgotten, present_root, checkpoint_refusal, with_checkpoint, name_refusal, without_checkpoint};
ghost use Rattle.machine_state.specs.HistoryAnswers.{told_nothing};
ghost use Rattle.machine_state.specs.KeptHistories.{IsKept};
ghost use Rattle.fs_types.specs.declared.limits.TheConstants.{MIN_VERSIONS, MAX_VERSIONS};

mod checks;
mod readers;

use fs_types::{CpName, Fault, Version};
use std::alloc::{AllocError, Global};
use std::collections::BTreeMap;
use std::marker::Model;

/// A history over roots of any type: 1 to `limit` versions, oldest first, with a cursor at the present
/// one, and at most 16 checkpoints.
///
/// Undo, redo, goto, forget, a change and the removal of a checkpoint take no memory: there is room for
/// one version more than `limit`, and no call makes it larger.
#[derive(Debug, Drop)]
pub struct History<R> {
    versions: Vec<Version<R>>,
    cursor: usize,
    dropped: bool,
    next: u64,
    checkpoints: BTreeMap<CpName, R>,
    limit: usize,
}

impl<R> Model for History<R> {
    ghost use Rattle.std.specs.Prelude.{◌≡◌, ◌+◌, vec_capacity};
    ghost use Rattle.history_machine.specs.History.{Past};
    ghost use Rattle.machine_state.specs.KeptHistories.{IsKept};

    ghost Value = { Past R };

    ghost view = { λ h. record { versions = h.versions.items; cursor = h.cursor; dropped = h.dropped; next = h.next; checkpoints = h.checkpoints.entries; limit = h.limit } };

    ghost invariant = { λ h. IsKept (record { versions = h.versions.items; cursor = h.cursor; dropped = h.dropped; next = h.next; checkpoints = h.checkpoints.entries; limit = h.limit }) × (vec_capacity h.versions ≡ h.limit + 1) };
}

impl<R: Drop> History<R> {
    /// The history of a fresh system: one version, with serial 1, of which at most `limit` are kept.
    /// [`Fault::NoMemory`] where the room for `limit` versions and one more is not to be had.
    pub fn new(alloc: Global, limit: usize, root: R) -> Result<Self, Fault>
        requires at_least { MIN_VERSIONS ≤ limit }
        requires at_most { limit ≤ MAX_VERSIONS }
        ensures made { IfOk result (λ history. history ≡ fresh limit root) }
        ensures refused { IfErr result (λ fault. fault ≡ Fault.NoMemory) }
    {
        let mut versions = Vec::with_capacity(alloc, limit + 1)?;
        versions.push_reserved(Version { serial: 1, root });
        Ok(History {
            versions,
            cursor: 0,
            dropped: false,
            next: 2,
            checkpoints: BTreeMap::new(alloc),
            limit,
        })
    }

    /// A change: the versions after the present one are given up, and one with this root follows it.
    /// Where there are more than `limit` then, the oldest is dropped.
    pub fn push(&mut self, root: R)
        requires { self.old.next < u64.MAX }
        ensures { self.new ≡ changed self.old root }
    {
        self.versions.truncate(self.cursor + 1);
        self.versions.push_reserved(Version {
            serial: self.next,
            root,
        });
        self.cursor += 1;
        self.next += 1;
        if self.versions.len() > self.limit {
            drop_oldest(&mut self.versions, 1);
            self.cursor -= 1;
            self.dropped = true;
        }
    }

    /// The oldest `count` versions are dropped; [`Fault::Invalid`] where there are not as many before
    /// the present one.
    pub fn forget(&mut self, count: u64) -> Result<(), Fault>
        ensures answer { result ≡ told_nothing (forget_refusal self.old count) }
        ensures ok { OnOk result (self.new ≡ forgotten self.old count) }
        ensures err { OnErr result (self.new ≡ self.old) }
    {
        self.check_forget(count)?;
        let count = count as usize;
        drop_oldest(&mut self.versions, count);
        self.cursor -= count;
        self.dropped |= count > 0;
        Ok(())
    }

    /// The present root, of which this is a copy, is kept under a name. [`Fault::Exists`] where the name
    /// is there, [`Fault::CheckpointsFull`] where there are sixteen, [`Fault::NoMemory`] where memory is
    /// not to be had.
    pub fn checkpoint(&mut self, name: CpName, root: R) -> Result<(), Fault>
        requires { present_root self.old ≡ Some root }
        ensures lawful { OnOk result (checkpoint_refusal self.old name ≡ None) }
        ensures ok { OnOk result (self.new ≡ with_checkpoint self.old name) }
        ensures refused { IfErr result (λ fault. fault ≡ unwrap_or (checkpoint_refusal self.old name) Fault.NoMemory) }
        ensures err { OnErr result (self.new ≡ self.old) }
    {
        self.check_checkpoint(&name)?;
        self.checkpoints.insert(name, root)?;
        Ok(())
    }

    /// The checkpoint of this name is given up; [`Fault::NoSuchVersion`] where there is none.
    pub fn remove_checkpoint(&mut self, name: &CpName) -> Result<(), Fault>
        ensures answer { result ≡ told_nothing (name_refusal self.old name.now) }
        ensures ok { OnOk result (self.new ≡ without_checkpoint self.old name.now) }
        ensures err { OnErr result (self.new ≡ self.old) }
    {
        match self.checkpoints.remove(name) {
            Some(_) => Ok(()),
            None => Err(Fault::NoSuchVersion),
        }
    }

    /// The history of these parts, with room for one version more than `limit`.
    pub fn restore(
        alloc: Global,
        versions: Vec<Version<R>>,
        cursor: usize,
        dropped: bool,
        next: u64,
        checkpoints: BTreeMap<CpName, R>,
        limit: usize,
    ) -> Result<Self, AllocError>
        requires { IsKept (record { versions = versions.items; cursor = cursor; dropped = dropped; next = next; checkpoints = checkpoints.entries; limit = limit }) }
        ensures { IfOk result (λ history. history ≡ record { versions = versions.items; cursor = cursor; dropped = dropped; next = next; checkpoints = checkpoints.entries; limit = limit }) }
    {
        let versions = with_room(alloc, versions, limit)?;
        Ok(History {
            versions,
            cursor,
            dropped,
            next,
            checkpoints,
            limit,
        })
    }
}

impl<R> History<R> {
    /// The version before becomes the present one. Where there is none: [`Fault::TooOld`] if versions
    /// were dropped, else [`Fault::NothingToUndo`].
    pub fn undo(&mut self) -> Result<(), Fault>
        ensures answer { result ≡ told_nothing (undo_refusal self.old) }
        ensures ok { OnOk result (self.new ≡ undone self.old) }
        ensures err { OnErr result (self.new ≡ self.old) }
    {
        self.check_undo()?;
        self.cursor -= 1;
        Ok(())
    }

    /// The version after becomes the present one; [`Fault::NothingToRedo`] where there is none.
    pub fn redo(&mut self) -> Result<(), Fault>
        ensures answer { result ≡ told_nothing (redo_refusal self.old) }
        ensures ok { OnOk result (self.new ≡ redone self.old) }
        ensures err { OnErr result (self.new ≡ self.old) }
    {
        self.check_redo()?;
        self.cursor += 1;
        Ok(())
    }

    /// The version with this serial becomes the present one. [`Fault::TooOld`] for a serial below the
    /// kept ones, [`Fault::NoSuchVersion`] for one that was not given yet, and [`Fault::Discarded`] for
    /// one that a change gave up.
    pub fn goto(&mut self, serial: u64) -> Result<(), Fault>
        ensures answer { result ≡ told_nothing (serial_refusal self.old serial) }
        ensures ok { OnOk result (self.new ≡ gone_to self.old serial) }
        ensures err { OnErr result (self.new ≡ self.old) }
    {
        let place = self.place_of_serial(serial)?;
        self.cursor = place;
        Ok(())
    }
}

/// These versions, with room for one more than `limit`.
fn with_room<R: Drop>(
    alloc: Global,
    versions: Vec<Version<R>>,
    limit: usize,
) -> Result<Vec<Version<R>>, AllocError>
    requires few { vec_len versions ≤ limit }
    requires at_most { limit ≤ MAX_VERSIONS }
    ensures items { IfOk result (λ kept. kept.items ≡ versions.items) }
    ensures room { IfOk result (λ kept. vec_capacity kept ≡ limit + 1) }
{
    let mut kept = Vec::with_capacity(alloc, limit + 1)?;
    for version in versions {
        kept.push_reserved(version);
    }
    Ok(kept)
}

fn drop_oldest<R: Drop>(versions: &mut Vec<Version<R>>, count: usize)
    requires { count ≤ vec_len versions.old }
    ensures items { versions.new.items ≡ drop count versions.old.items }
    ensures capacity { vec_capacity versions.new ≡ vec_capacity versions.old }
{
    versions.rotate_left(count);
    versions.truncate(versions.len() - count);
}
