//! A commit as one value, and the order in which anchors are tried.
ghost use Rattle.std.specs.Prelude.{◌≡◌, ◌+◌, ◌<◌, ◌≤◌, false, IfOk};
ghost use Rattle.bad_blocks.specs.Mode as mode;
ghost use Rattle.anchors.specs.Drafts.{MayWrite};
ghost use Rattle.anchors.specs.Committing as spec;
ghost use Rattle.anchors.specs.Commit.{IsReady, IsSameCommit, MayStartAt, MayTry, IsStep, Tries, Writes, Ends, Stands, IsPassed};
ghost use Rattle.fs_types.specs.declared.limits.TheConstants.{ANCHORS};

use crate::anchor::{place_record, write_anchor};
use crate::best::Found;
use crate::draft::{Draft, payload_with};
use bad_blocks::{BadBlocks, is_read_only};
use flash_model::Flash;
use fs_types::{ANCHORS, Fault};
use record_format::Record;

/// A record that is committed with a sequence, and what that works on.
#[derive(Drop)]
pub(crate) struct Commit<'a, F: Flash> {
    pub(crate) flash: &'a mut F,
    pub(crate) bad: &'a mut BadBlocks,
    pub(crate) saved: &'a Record,
    pub(crate) sequence: u64,
    // room for a page: no memory is taken
    pub(crate) page: &'a mut Vec<u8>,
}

/// Where an attempt is made: from a place of an anchor on, or from the first page of one that is erased anew.
#[derive(Clone, Copy)]
pub(crate) struct Start {
    pub(crate) anchor: u32,
    pub(crate) place: u32,
    pub(crate) anew: bool,
}

impl Start {
    /// Of the attempts of a commit that begins at a place of its home: the first is made there, and
    /// each other on the next anchor in ring order, which is erased.
    fn of(home: u32, place: u32, step: u32) -> Start
        requires home { home < ANCHORS }
        requires step { step < ANCHORS }
        ensures { IsStep home place step result }
    {
        if step == 0 {
            return Start {
                anchor: home,
                place,
                anew: false,
            };
        }
        let anchor = (home + step) % ANCHORS;
        Start {
            anchor,
            place: 0,
            anew: true,
        }
    }
}

/// What an attempt answers: where the record stands, if it was written.
fn answered(done: Result<bool, Fault>, found: Found) -> Result<Option<Found>, Fault>
    ensures { result ≡ spec.answered done found }
{
    match done {
        Ok(true) => Ok(Some(found)),
        Ok(false) => Ok(None),
        Err(fault) => Err(fault),
    }
}

impl<F: Flash> Commit<'_, F> {
    /// Commits the record after the end of its home, where that is not bad and has room; else on the
    /// next anchor in ring order that is not bad and does not fail, which is erased first. Answers
    /// where. Those that fail enter the list, and the record holds the list as it then is.
    ///
    /// `ReadOnly` as soon as seven anchors or 256 blocks are in the list, `PowerCut` where power is off.
    pub(crate) fn after(&mut self, home: u32, place: u32) -> Result<Found, Fault>
        requires ready { IsReady F.device self.old }
        requires start { MayStartAt F.device self.old home place }

        // Each anchor is tried once at most.
        ensures same { IsSameCommit self.old self.new }
        ensures leaves { Ends F.device self.old self.new result }
        ensures stands { IfOk result (Stands F.device self.old self.new home place) }
    {
        for step in 0..ANCHORS {
            if is_read_only(self.bad) {
                return Err(Fault::ReadOnly);
            }
            let tried = self.on(Start::of(home, place, step))?;
            if let Some(found) = tried {
                return Ok(found);
            }
        }
        Err(Fault::ReadOnly)
    }

    /// Commits the record on one anchor, with the list as it is, and answers where. None where the
    /// anchor is in the list, or has no room from there on; it is put into the list where an operation failed.
    fn on(&mut self, start: Start) -> Result<Option<Found>, Fault>
        requires ready { IsReady F.device self.old }
        requires open { mode.is_read_only self.old.bad.now ≡ false }
        requires begin { MayTry F.device self.old start }

        // None only where the anchor is in the list then, or has no room.
        ensures same { IsSameCommit self.old self.new }
        ensures attempted { Tries F.device self.old self.new start result }
        ensures lacks { spec.OnNone result (IsPassed self.old self.new start) }
    {
        if self.bad.contains(start.anchor) {
            return Ok(None);
        }
        let geometry = self.saved.geometry;
        let payload = payload_with(self.saved, self.bad);
        let draft = Draft::new(geometry, self.sequence, payload.as_slice());
        if geometry.pages < start.place + draft.count as u32 {
            return Ok(None);
        }
        let found = draft.first_page(geometry, start.anchor, start.place);
        let done = self.write(start, &draft);
        answered(done, found)
    }

    /// Writes a draft of the record to an anchor that is not bad, and answers whether that was done.
    fn write(&mut self, start: Start, draft: &Draft<'_>) -> Result<bool, Fault>
        requires ready { IsReady F.device self.old }
        requires may { MayWrite self.old.saved.now.geometry (F.device self.old.flash.now).pages self.old.bad.now start.anchor draft.now }
        requires begin { MayTry F.device self.old start }
        requires in_block { start.place + draft.now.count ≤ self.old.saved.now.geometry.pages }
        ensures same { IsSameCommit self.old self.new }
        ensures wrote { Writes F.device self.old self.new start draft.now result }
    {
        let geometry = self.saved.geometry;
        if start.anew {
            return write_anchor(
                self.flash,
                self.bad,
                geometry,
                start.anchor,
                draft,
                self.page,
            );
        }
        place_record(
            self.flash,
            self.bad,
            geometry,
            start.anchor,
            start.place,
            draft,
            self.page,
        )
    }
}
