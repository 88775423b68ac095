//! What a history tells of itself.
ghost use Rattle.std.specs.Prelude.{◌≡◌, ◌+◌, ◌<◌, ◌==◌, Some, None, length, map, position, IfOk, MatchResult};
ghost use Rattle.history_machine.specs.History.{present_root, version_place, serial_refusal, checkpoint_root, name_refusal, view_refusal, view_root};
ghost use Rattle.machine_state.specs.KeptHistories.{IsKept};

use crate::histories::History;
use fs_types::{CpName, Fault, Sequence, Version, View};
use std::alloc::{AllocError, Global};
use std::collections::BTreeMap;

impl<R> History<R> {
    /// The kept versions, oldest first, 1 to `limit`.
    pub fn versions(&self) -> &[Version<R>]
        ensures versions { result.now ≡ self.now.versions }
        ensures kept { IsKept self.now }
    {
        self.versions.as_slice()
    }

    /// The place of the present version among the kept ones.
    pub fn cursor(&self) -> usize
        ensures { result ≡ self.now.cursor }
    {
        self.cursor
    }

    /// Whether a version was ever dropped from the front.
    pub fn has_dropped(&self) -> bool
        ensures { result ≡ self.now.dropped }
    {
        self.dropped
    }

    /// The serial of the next change.
    pub fn next_serial(&self) -> u64
        ensures { result ≡ self.now.next }
    {
        self.next
    }

    /// How many versions are kept at most, 2 to 128.
    pub fn limit(&self) -> usize
        ensures { result ≡ self.now.limit }
    {
        self.limit
    }

    /// How many versions there is room for: one more than are kept at most, whatever was called.
    pub fn room(&self) -> usize
        ensures { result ≡ self.now.limit + 1 }
    {
        self.versions.capacity()
    }

    /// The checkpoints with their roots, in byte order of their names, at most 16.
    pub fn checkpoints(&self) -> &BTreeMap<CpName, R>
        ensures { result.now.entries ≡ self.now.checkpoints }
    {
        &self.checkpoints
    }

    /// The root of the present version.
    pub fn root(&self) -> &R
        ensures { present_root self.now ≡ Some result.now }
    {
        &self.versions[self.cursor].root
    }

    /// The root that a checkpoint keeps; [`Fault::NoSuchVersion`] where there is none of this name.
    pub fn checkpoint_root(&self, name: &CpName) -> Result<&R, Fault>
        ensures { MatchResult result (λ root. checkpoint_root self.now name.now ≡ Some root.now)
            (λ fault. name_refusal self.now name.now ≡ Some fault) }
    {
        match self.checkpoints.get(name) {
            Some(root) => Ok(root),
            None => Err(Fault::NoSuchVersion),
        }
    }

    /// The root that a view looks at. A serial is refused as by `goto`, and a name that no checkpoint
    /// has by [`Fault::NoSuchVersion`].
    pub fn find(&self, view: &View) -> Result<&R, Fault>
        ensures { MatchResult result (λ root. (view_refusal self.now view.now ≡ None) × (view_root self.now view.now ≡ Some root.now))
            (λ fault. view_refusal self.now view.now ≡ Some fault) }
    {
        match view {
            View::Present => Ok(self.root()),
            View::Serial(serial) => {
                let place = self.place_of_serial(*serial)?;
                Ok(&self.versions[place].root)
            }
            View::Checkpoint(name) => self.checkpoint_root(name),
        }
    }

    /// The place of the version with this serial, which is refused as by `goto`.
    pub(crate) fn place_of_serial(&self, serial: u64) -> Result<usize, Fault>
        ensures { MatchResult result (λ place. (serial_refusal self.now serial ≡ None) × (version_place self.now serial ≡ Some place) × (place < length self.now.versions))
            (λ fault. serial_refusal self.now serial ≡ Some fault) }
    {
        if serial < self.versions[0].serial {
            return Err(Fault::TooOld);
        }
        if serial >= self.next {
            return Err(Fault::NoSuchVersion);
        }
        match position_of(&self.versions, serial) {
            Some(place) => Ok(place),
            None => Err(Fault::Discarded),
        }
    }

    /// The serials of the kept versions, oldest first.
    pub fn serials(&self, alloc: Global) -> Result<Sequence<u64>, AllocError>
        ensures { IfOk result (λ serials. serials ≡ map (λ v. v.serial) self.now.versions) }
    {
        let serials: Vec<u64> = self
            .versions
            .iter()
            .map(|version| version.serial)
            .collect(alloc)?;
        Ok(Sequence::from_vec(serials))
    }

    /// The names of the checkpoints, in byte order.
    pub fn checkpoint_names(&self, alloc: Global) -> Result<Sequence<CpName>, AllocError>
        ensures { IfOk result (λ names. names ≡ map (λ e. e.0) self.now.checkpoints) }
    {
        names_of(alloc, &self.checkpoints)
    }
}

fn position_of<R>(versions: &[Version<R>], serial: u64) -> Option<usize>
    ensures { result ≡ position (λ v. v.serial == serial) versions.now }
{
    versions.iter().position(|version| version.serial == serial)
}

fn names_of<R>(
    alloc: Global,
    checkpoints: &BTreeMap<CpName, R>,
) -> Result<Sequence<CpName>, AllocError>
    ensures { IfOk result (λ names. names ≡ map (λ e. e.0) checkpoints.now.entries) }
{
    let mut names = Sequence::new(alloc);
    for (name, _) in checkpoints {
        names.push(name.clone()?)?;
    }
    Ok(names)
}
