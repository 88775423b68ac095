//! The anchor that records go to next is erased ahead, where the newest record's anchor is nearly full.
ghost use Rattle.std.specs.Prelude.{◌≡◌, ◌≢◌, ℕ, ◌<◌, None, Some, false, IfSome};
ghost use Rattle.std.specs.Bool.{OnTrue, OnFalse};
ghost use Rattle.flash_model.specs.Geometry.{IsGeometry};
ghost use Rattle.fs_types.specs.declared.limits.TheConstants.{ANCHORS};
ghost use Rattle.bad_blocks.specs.Mode.{is_read_only};
ghost use Rattle.anchors.specs.Committing.{IsNextAnchor};
ghost use Rattle.anchors.specs.Newest.{prepared_anchor};
ghost use Rattle.anchors.specs.Remembering.{MayCommit};
ghost use Rattle.anchors.specs.Preparing.{ErasesAhead, HasFewLeft, IsPrepared, IsWanted, IsWithin, PreparesAnchor};

use crate::anchor::erase_anchor;
use crate::anchors::Anchors;
use bad_blocks::{BadBlocks, is_read_only};
use flash_model::{Flash, Geometry};
use fs_types::{ANCHORS, Fault};

impl Anchors {
    /// The anchor that has to be erased ahead of the records that go to it: the next one in ring order
    /// after the newest record's that is not bad, where that is bad, or fewer pages are left on it than a
    /// quarter of its pages or than two records as long as the newest one take. None where it was erased
    /// ahead since a record was last committed off the newest one's anchor.
    pub fn next_unprepared(&self, geometry: Geometry, bad: &BadBlocks) -> Option<u32>
        requires lawful { IsGeometry geometry }
        requires within { IsWithin geometry self.now }
        ensures wanted { IfSome result (IsWanted geometry bad.now self.now) }
        ensures prepared { result ≡ None → IsPrepared geometry bad.now self.now }
    {
        let newest = self.newest?;
        let home = newest.page / geometry.pages;
        if !bad.contains(home) && !self.has_few_left(geometry, newest.head.count) {
            return None;
        }
        let anchor = next_good(bad, home)?;
        if self.is_prepared(anchor) {
            return None;
        }
        Some(anchor)
    }

    /// Whether few pages are left on the newest record's anchor.
    fn has_few_left(&self, geometry: Geometry, count: u16) -> bool
        ensures few { OnTrue result (HasFewLeft geometry self.now.end count) }
        ensures enough { OnFalse result (HasFewLeft geometry self.now.end count → ⊥) }
    {
        let left = geometry.pages.saturating_sub(self.end);
        left < geometry.pages / 4 || left < 2 * count as u32
    }

    /// Whether an anchor was erased ahead.
    fn is_prepared(&self, anchor: u32) -> bool
        ensures is { OnTrue result (prepared_anchor self.now ≡ Some anchor) }
        ensures other { OnFalse result (prepared_anchor self.now ≢ Some anchor) }
    {
        match self.prepared {
            Some(prepared) => prepared == anchor,
            None => false,
        }
    }

    /// Erases ahead the anchor that [`Anchors::next_unprepared`] tells, if it tells one, as one erase of
    /// `budget`. Answers what is left of the budget. With a budget of 0 nothing is done.
    ///
    /// The newest record stays, and the next one has the sequence that it had. Where the erase fails the
    /// anchor is put into the list, and the next step takes the one after it. [`Fault::ReadOnly`] where
    /// seven anchors or 256 blocks are in the list then; [`Fault::PowerCut`] by the device.
    pub fn prepare<F: Flash>(
        &mut self,
        flash: &mut F,
        bad: &mut BadBlocks,
        budget: u64,
    ) -> Result<u64, Fault>
        requires lawful { IsGeometry (F.device flash.old).geometry }
        requires ready { MayCommit (F.device flash.old) bad.old self.old }
        requires open { is_read_only bad.old ≡ false }
        ensures prepares { PreparesAnchor (F.device flash.old) bad.old self.old budget result (F.device flash.new) bad.new self.new }
        ensures ready { MayCommit (F.device flash.new) bad.new self.new }
    {
        let Some(anchor) = self.next_unprepared(flash.geometry(), bad) else {
            return Ok(budget);
        };
        if budget == 0 {
            return Ok(0);
        }
        self.erase_ahead(flash, bad, anchor)?;
        Ok(budget - 1)
    }

    /// Erases an anchor ahead.
    fn erase_ahead<F: Flash>(
        &mut self,
        flash: &mut F,
        bad: &mut BadBlocks,
        anchor: u32,
    ) -> Result<(), Fault>
        requires lawful { IsGeometry (F.device flash.old).geometry }
        requires ready { MayCommit (F.device flash.old) bad.old self.old }
        requires open { is_read_only bad.old ≡ false }
        requires wanted { IsWanted (F.device flash.old).geometry bad.old self.old anchor }
        ensures ahead { ErasesAhead (F.device flash.old) bad.old self.old anchor result (F.device flash.new) bad.new self.new }
        ensures ready { MayCommit (F.device flash.new) bad.new self.new }
    {
        if erase_anchor(flash, bad, anchor)? {
            self.prepared = Some(anchor);
            return Ok(());
        }
        if is_read_only(bad) {
            return Err(Fault::ReadOnly);
        }
        Ok(())
    }
}

/// The first anchor after one, in ring order, that is not in the list.
fn next_good(bad: &BadBlocks, home: u32) -> Option<u32>
    requires { home < ANCHORS }
    ensures next { IfSome result (IsNextAnchor bad.now home) }
    ensures none { result ≡ None → (anchor : ℕ) → IsNextAnchor bad.now home anchor → ⊥ }
{
    for step in 1..ANCHORS {
        let anchor = (home + step) % ANCHORS;
        if !bad.contains(anchor) {
            return Some(anchor);
        }
    }
    None
}
