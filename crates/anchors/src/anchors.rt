//! The place of the newest record on the anchors, and the commit of the next one.
ghost use Rattle.std.specs.Prelude.{◌≡◌, ◌≢◌, ℕ, ◌+◌, ◌*◌, ◌<◌, ◌≤◌, false, None, IfOk, OnOk, OnErr, IfErr, MatchResult, ◌-◌, ◌^◌, ◌==◌, true, not, Err, vec_capacity, if◌then◌else◌};
ghost use Rattle.std.specs.Ordering.{nat_cmp};
ghost use Rattle.flash_model.specs.Geometry.{IsGeometry};
ghost use Rattle.flash_model.specs.Reading.{OnlyReads};
ghost use Rattle.anchors.specs.Anchored.{OnlyAnchors, IsPowerCut, Fades, AreErased};
ghost use Rattle.anchors.specs.Newest.{remembered, prepared_anchor, IsCleared, IsUncleared, KnowsEnd, IsNewestRecord, NewestCause};
ghost use Rattle.anchors.specs.Remembering.{MayCommit, BeginsAt, ReadsNone, IsPlaced, Remembers, TriesEach, RefusesLast, CommitCause};
ghost use Rattle.fs_types.specs.declared.limits.TheConstants.{ANCHORS, MAX_BAD_BLOCKS};
ghost use Rattle.bad_blocks.specs.Mode.{is_read_only};
ghost use Rattle.anchors.specs.Parts.{sequence_of, greatest_on};
ghost use Rattle.anchors.specs.Reading.{MayRead, ReadsFew};
ghost use Rattle.anchors.specs.Committing.{Suits, IsLowest, Commits, Untouched};
ghost use Rattle.anchors.specs.Commit.{IsReady, IsSameCommit, Ends};
ghost use Rattle.std.specs.FinSet as set;
ghost use Rattle.anchors.specs.Parts as spec;

use crate::anchor::erase_anchor;
use crate::best::Found;
use crate::commit::Commit;
use crate::newest::read_best;
use crate::scan::{find_best, find_greatest};
use bad_blocks::{BadBlocks, is_read_only};
use flash_model::{Flash, Geometry};
use fs_types::{ANCHORS, Fault};
use record_format::Record;
use std::alloc::Global;

/// The place of the newest record on the first eight blocks of a flash, where it is known.
#[derive(Drop)]
pub struct Anchors {
    pub(crate) newest: Option<Found>,
    // the place after the last page that is not erased, on the anchor of the newest record
    pub(crate) end: u32,
    pub(crate) cleared: bool,
    // the anchor that was erased ahead, where no record was committed off the newest one's anchor since
    pub(crate) prepared: Option<u32>,
}

impl Anchors {
    /// No place is known.
    pub fn new() -> Anchors
        ensures none { remembered result ≡ None }
        ensures uncleared { IsUncleared result }
        ensures unprepared { prepared_anchor result ≡ None }
    {
        Anchors {
            newest: None,
            end: 0,
            cleared: false,
            prepared: None,
        }
    }

    /// Reads each page of the eight anchors once, and those of the newest record once more, and answers
    /// that record, or None where no record is valid. Its place is remembered, so that a commit may follow; after a refusal none is.
    ///
    /// `Damaged` where two valid records have the greatest sequence; `Damaged` or `BadGeometry`
    /// where the payload of the newest is no record of a flash of these sizes; `ReadFailed` and
    /// `PowerCut` by the device; `NoMemory` where memory could not be had, before any read or for a
    /// newest record. Nothing is written.
    pub fn newest<F: Flash>(
        &mut self,
        alloc: Global,
        flash: &mut F,
    ) -> Result<Option<Record>, Fault>
        requires { IsGeometry (F.device flash.old).geometry }

        // The newest record, and what is remembered of it.
        ensures newest { IfOk result (IsNewestRecord (F.device flash.old)) }
        ensures remembers { OnOk result (remembered self.new ≡ spec.newest_at (F.device flash.old).geometry (spec.parts_on (F.device flash.old).geometry (F.device flash.old).pages)) }
        ensures end { OnOk result (KnowsEnd (F.device flash.old) self.new) }
        ensures ready { IfOk result (λ newest. newest ≢ None → (bad : set.FinSet nat_cmp) → MayCommit (F.device flash.new) bad self.new) }
        ensures forgets { OnErr result (remembered self.new ≡ None) }
        ensures uncleared { IsUncleared self.new }

        // By reads alone.
        ensures only_reads { OnlyReads (F.device flash.old) (F.device flash.new) }
        ensures operations { (F.device flash.new).operations ≤ (F.device flash.old).operations + (ANCHORS * (F.device flash.old).geometry.pages + spec.pages_of (spec.newest_at (F.device flash.old).geometry (spec.parts_on (F.device flash.old).geometry (F.device flash.old).pages))) }
        ensures why { IfErr result (NewestCause (F.device flash.old) (F.device flash.new)) }
    {
        *self = Anchors::new();
        let geometry = flash.geometry();
        let mut page = vec![in alloc; 0u8; geometry.page as usize]?;
        let (best, end) = find_best(flash, geometry, &mut page)?;
        let newest = read_best(alloc, flash, geometry, best, &mut page)?;
        self.newest = best.found;
        self.end = end;
        Ok(newest)
    }

    /// Erases the eight anchors, whatever they hold. Those of which the erase failed are put into
    /// the list of bad blocks. No place is remembered then, and a commit may follow.
    ///
    /// No anchor is in the list before, and it has room for eight blocks. `PowerCut` where power is
    /// off: each anchor may be erased then, or in part, and those that failed are in the list.
    pub fn clear<F: Flash>(&mut self, flash: &mut F, bad: &mut BadBlocks) -> Result<(), Fault>
        requires lawful { IsGeometry (F.device flash.old).geometry }
        requires good { (b : ℕ) → b < ANCHORS → set.contains bad.old b ≡ false }
        requires room { set.len bad.old + ANCHORS ≤ MAX_BAD_BLOCKS }

        // A commit may follow.
        ensures cleared { OnOk result (IsCleared self.new) }
        ensures ready { OnOk result (MayCommit (F.device flash.new) bad.new self.new) }
        ensures erased { OnOk result (AreErased (F.device flash.new) bad.new ANCHORS) }

        // Whatever is answered, no page has bytes that it had not, and no data block changes.
        ensures fades { Fades (F.device flash.old).pages (F.device flash.new).pages }
        ensures only_anchors { OnlyAnchors (F.device flash.old) bad.old (F.device flash.new) bad.new }
        ensures reads { (F.device flash.new).failed_reads ≡ (F.device flash.old).failed_reads }
        ensures forgets { remembered self.new ≡ None }

        // Each anchor is erased once, and nothing else is asked for.
        ensures operations { MatchResult result
            (λ _. (F.device flash.new).operations ≡ (F.device flash.old).operations + ANCHORS)
            (λ _. (F.device flash.new).operations ≤ (F.device flash.old).operations + ANCHORS) }
        ensures why { IfErr result (IsPowerCut (F.device flash.new)) }
    {
        *self = Anchors::new();
        for anchor in 0..ANCHORS {
            erase_anchor(flash, bad, anchor)?;
        }
        self.cleared = true;
        Ok(())
    }

    /// Whether a sequence is left for the record after the newest one, whose place is remembered.
    /// True where none is: the sequence is not known then.
    pub fn has_next_sequence(&self) -> bool
        ensures { result ≡ not (sequence_of (remembered self.now) == 2 ^ 64 - 1) }
    {
        match self.newest {
            Some(newest) => newest.head.sequence != u64::MAX,
            None => true,
        }
    }

    /// Commits a record: it is the newest one then, with the next sequence and the list as it is
    /// left. Its own sequence and bad list are not read. The anchors were read or cleared before,
    /// and no block of the list is past the end of the flash.
    ///
    /// It goes after the last page of the newest record's anchor that is not erased, where that
    /// block is not bad and has room to its end; else on the next anchor in ring order that is not
    /// bad, which is erased first. Anchors that fail enter the list, and the next one is tried with
    /// the list as it then is. After `clear` the lowest anchor that is not bad comes first, and is
    /// not erased again; the sequence is one more than the greatest of a valid record that is still
    /// on the anchors, or 1.
    ///
    /// `ReadOnly` as soon as seven anchors or 256 blocks are in the list; `Overflow` where the
    /// greatest sequence is the greatest number there is; `PowerCut` where power is off; `NoMemory`
    /// where room for a page could not be had, before any operation of the flash; `ReadFailed` only
    /// in the first commit after `clear`. Where no sequence is left `Overflow` comes before
    /// `NoMemory`, but in the first commit after `clear`, which has to read first. After a refusal the newest record is the one it was, and
    /// a commit may follow; after `PowerCut` it may be the new one, and `newest` or `clear` has to
    /// come first.
    pub fn commit<F: Flash>(
        &mut self,
        alloc: Global,
        flash: &mut F,
        bad: &mut BadBlocks,
        saved: &Record,
    ) -> Result<(), Fault>
        requires suits { Suits (F.device flash.old) bad.old saved.now }
        requires ready { MayCommit (F.device flash.old) bad.old self.old }

        // Where the record is then, and what was asked for.
        ensures commits { Commits (F.device flash.old).pages (F.device flash.new).pages saved.now (greatest_on saved.now.geometry (F.device flash.old).pages + 1) bad.new result }
        ensures placed { OnOk result ((reads : ℕ) × (ReadsNone bad.old self.old → reads ≡ 0) × (reads ≤ ANCHORS * saved.now.geometry.pages) × IsPlaced (F.device flash.old) bad.old self.old saved.now reads (F.device flash.new) bad.new) }
        ensures tries { TriesEach (F.device flash.old) bad.old self.old (F.device flash.new) }
        ensures only_anchors { OnlyAnchors (F.device flash.old) bad.old (F.device flash.new) bad.new }
        ensures untouched { IfErr result (λ fault. fault ≢ Fault.PowerCut → Untouched (F.device flash.old) bad.new (F.device flash.new)) }

        // A place that is remembered is forgotten by no answer; a commit may follow but where power went.
        ensures remembers { MatchResult result (λ _. Remembers self.new bad.new) (λ _. self.new ≡ self.old) }
        ensures ready { result ≢ Err Fault.PowerCut → MayCommit (F.device flash.new) bad.new self.new }

        // Read-only mode is met at once. Nothing is written where no sequence is left; where that is known before, nothing is asked.
        ensures at_once { is_read_only bad.old ≡ true → (result ≡ Err Fault.ReadOnly) × (F.device flash.new ≡ F.device flash.old) × (bad.new ≡ bad.old) }
        ensures last { greatest_on saved.now.geometry (F.device flash.old).pages ≡ 2 ^ 64 - 1 → RefusesLast (F.device flash.old) bad.old self.old (F.device flash.new) bad.new result }
        ensures why { IfErr result (CommitCause (F.device flash.old) bad.old self.old (F.device flash.new) bad.new) }
    {
        if is_read_only(bad) {
            return Err(Fault::ReadOnly);
        }
        let next = self.next_sequence(alloc, flash, bad, saved.geometry)?;
        let (sequence, mut page) = next;
        let mut commit = Commit {
            flash,
            bad,
            saved,
            sequence,
            page: &mut page,
        };
        self.commit_as(&mut commit)
    }

    /// The sequence of the next record, and room for a page.
    #[tactic(auto, using(flash_model::specs::Reading::OnlyReads_itself))]
    fn next_sequence<F: Flash>(
        &self,
        alloc: Global,
        flash: &mut F,
        bad: &BadBlocks,
        geometry: Geometry,
    ) -> Result<(u64, Vec<u8>), Fault>
        requires same { (F.device flash.old).geometry ≡ geometry }
        requires lawful { IsGeometry geometry }
        requires ready { MayCommit (F.device flash.old) bad.now self.now }

        // The sequence is above all. Where none is left and that is known, nothing is asked.
        ensures next { IfOk result (λ next. next.0 ≡ greatest_on geometry (F.device flash.old).pages + 1) }
        ensures left { IfOk result (λ next. next.0 < 2 ^ 64) }
        ensures room { IfOk result (λ next. geometry.page ≤ vec_capacity next.1) }
        ensures last { remembered self.now ≢ None → greatest_on geometry (F.device flash.old).pages ≡ 2 ^ 64 - 1
            → (result ≡ Err Fault.Overflow) × (F.device flash.new ≡ F.device flash.old) }
        ensures why { IfErr result (CommitCause (F.device flash.old) bad.now self.now (F.device flash.new) bad.now) }

        // Where the place of the newest record is known, or no anchor is bad, nothing is read.
        ensures only_reads { OnlyReads (F.device flash.old) (F.device flash.new) }
        ensures quiet { ReadsNone bad.now self.now → (F.device flash.new).operations ≡ (F.device flash.old).operations }
        ensures operations { (F.device flash.new).operations ≤ (F.device flash.old).operations + ANCHORS * geometry.pages }
    {
        if !self.has_next_sequence() {
            return Err(Fault::Overflow);
        }
        let mut page = vec![in alloc; 0u8; geometry.page as usize]?;
        let greatest = self.greatest(flash, bad, geometry, &mut page)?;
        if greatest == u64::MAX {
            return Err(Fault::Overflow);
        }
        Ok((greatest + 1, page))
    }

    /// The greatest sequence of a valid record, 0 where none is valid.
    fn greatest<F: Flash>(
        &self,
        flash: &mut F,
        bad: &BadBlocks,
        geometry: Geometry,
        page: &mut [u8],
    ) -> Result<u64, Fault>
        requires may { MayRead (F.device flash.old) geometry page.old }
        requires ready { MayCommit (F.device flash.old) bad.now self.now }

        // Where the place of the newest record is known, or no anchor is bad, nothing is read.
        ensures greatest { IfOk result (λ greatest. greatest ≡ greatest_on geometry (F.device flash.old).pages) }
        ensures none { IfErr result (λ fault. remembered self.now ≡ None) }
        ensures quiet { ReadsNone bad.now self.now → (F.device flash.new).operations ≡ (F.device flash.old).operations }
        ensures reads { ReadsFew (F.device flash.old) (F.device flash.new) (ANCHORS * geometry.pages) result }
    {
        match self.newest {
            Some(newest) => Ok(newest.head.sequence),
            None => find_greatest(flash, bad, geometry, page),
        }
    }

    /// The anchor on which a commit begins, and the place on it.
    fn start(&self, geometry: Geometry, bad: &BadBlocks) -> (u32, u32)
        requires lawful { IsGeometry geometry }
        requires open { is_read_only bad.now ≡ false }
        ensures begins { BeginsAt geometry bad.now self.now result.0 result.1 }
    {
        match self.newest {
            Some(newest) => (newest.page / geometry.pages, self.end),
            None => (lowest_good(bad), 0),
        }
    }

    /// Commits a record with a sequence that is above those of all valid records.
    fn commit_as<F: Flash>(&mut self, commit: &mut Commit<'_, F>) -> Result<(), Fault>
        requires ready { IsReady F.device commit.old }
        requires may { MayCommit (F.device commit.old.flash.now) commit.old.bad.now self.old }
        requires open { is_read_only commit.old.bad.now ≡ false }

        // Where the record is then, and what was asked for.
        ensures same { IsSameCommit commit.old commit.new }
        ensures leaves { Ends F.device commit.old commit.new result }
        ensures placed { OnOk result
            (IsPlaced (F.device commit.old.flash.now) commit.old.bad.now self.old commit.old.saved.now 0 (F.device commit.new.flash.now) commit.new.bad.now) }

        // A place that is remembered is forgotten by no answer; a commit may follow but where power went.
        ensures remembers { MatchResult result (λ _. Remembers self.new commit.new.bad.now) (λ _. self.new ≡ self.old) }
        ensures ready { result ≢ Err Fault.PowerCut → MayCommit (F.device commit.new.flash.now) commit.new.bad.now self.new }
    {
        let geometry = commit.saved.geometry;
        let (home, place) = self.start(geometry, commit.bad);
        let found = commit.after(home, place)?;
        let is_home = found.page / geometry.pages == home;
        self.end = found.page % geometry.pages + found.head.count as u32;
        self.newest = Some(found);
        self.cleared = false;
        self.prepared = kept_if(self.prepared, is_home);
        Ok(())
    }
}

/// The anchor that is erased ahead after a commit: the one before, where the record stands on the anchor
/// on which the commit began.
fn kept_if(prepared: Option<u32>, is_home: bool) -> Option<u32>
    ensures { result ≡ if is_home then prepared else None }
{
    if is_home { prepared } else { None }
}

/// The lowest anchor that is not in the list.
fn lowest_good(bad: &BadBlocks) -> u32
    requires { is_read_only bad.now ≡ false }
    ensures { IsLowest bad.now result }
{
    for anchor in 0..ANCHORS {
        if !bad.contains(anchor) {
            return anchor;
        }
    }
    unreachable!()
}
