//! All pages of all anchors, gone over once: the records on them, and the best one.
ghost use Rattle.std.specs.Prelude.{◌≡◌, ◌≤◌, ℕ, ◌+◌, ◌*◌, ◌<◌, IfOk, ◌≢◌, ◌/◌, Some, false};
ghost use Rattle.flash_model.specs.Geometry.{IsGeometry};
ghost use Rattle.fs_types.specs.declared.limits.TheConstants.{ANCHORS};
ghost use Rattle.record_format.specs.Pages.{used_bytes};
ghost use Rattle.std.specs.Option.{option_map};
ghost use Rattle.anchors.specs.Reading.{IsEnd, MayRead, ReadsFew};
ghost use Rattle.std.specs.Bool.{OnTrue, OnFalse};
ghost use Rattle.flash_model.specs.Device.{erased};
ghost use Rattle.anchors.specs.declared.best.Found.{Found};
ghost use Rattle.anchors.specs.Anchored.{AreErased};
ghost use Rattle.anchors.specs.Scanning as scanning;
ghost use Rattle.anchors.specs.Parts as spec;
ghost use Rattle.std.specs.FinSet as set;

use crate::best::{Best, Found};
use bad_blocks::BadBlocks;
use flash_model::{DevFault, Flash, Geometry, PageState};
use fs_types::{ANCHORS, Fault};
use record_format::{HEAD_SIZE, PageHead};

/// A record of which the first pages were met: where it begins, and how many they are.
#[derive(Clone, Copy)]
pub(crate) struct Run {
    pub(crate) found: Found,
    pub(crate) met: u16,
}

/// The record of greatest sequence among those that were met whole, and the one whose pages are
/// being met.
#[derive(Clone, Copy)]
pub(crate) struct Scan {
    pub(crate) best: Best,
    pub(crate) run: Option<Run>,
}

/// Whether the n-th page of `count` holds as many bytes as it must.
fn is_filled(geometry: Geometry, count: u16, n: u16, used: u16) -> bool
    requires { 20 ≤ geometry.page }
    ensures { result ≡ spec.is_filled geometry count n used }
{
    let room = geometry.page - HEAD_SIZE as u32;
    if n as u32 + 1 == count as u32 {
        0 < used && used as u32 <= room
    } else {
        used as u32 == room
    }
}

/// Whether a page is the n-th of the record whose first header is given.
fn is_part(geometry: Geometry, first: PageHead, n: u16, head: Option<PageHead>) -> bool
    requires { 20 ≤ geometry.page }
    ensures { result ≡ spec.is_part geometry first n head }
{
    let Some(head) = head else {
        return false;
    };
    head.sequence == first.sequence
        && head.count == first.count
        && head.index == n
        && is_filled(geometry, first.count, n, head.used)
}

/// The record of which this page is the first, if it may be one.
fn begun(geometry: Geometry, page: u32, head: Option<PageHead>) -> Option<Run>
    requires room { 20 ≤ geometry.page }
    requires lawful { IsGeometry geometry }
    ensures { result ≡ scanning.begun_run geometry page head }
{
    let first = head?;
    let fits = first.count > 0 && page % geometry.pages + first.count as u32 <= geometry.pages;
    if fits && is_part(geometry, first, 0, head) {
        let found = Found { page, head: first };
        Some(Run { found, met: 1 })
    } else {
        None
    }
}

/// The record whose pages are being met after one more page.
fn followed(geometry: Geometry, run: Option<Run>, page: u32, head: Option<PageHead>) -> Option<Run>
    requires room { 20 ≤ geometry.page }
    requires lawful { IsGeometry geometry }
    requires goes_on { scanning.LacksPages run }
    ensures { result ≡ scanning.followed geometry run page head }
{
    let Some(run) = run else {
        return begun(geometry, page, head);
    };
    if is_part(geometry, run.found.head, run.met, head) {
        Some(Run {
            found: run.found,
            met: run.met + 1,
        })
    } else {
        begun(geometry, page, head)
    }
}

/// The best record after a page: the one whose pages are being met counts once all of them were.
fn settled(best: Best, run: Option<Run>) -> Scan
    ensures { result ≡ scanning.settled best run }
{
    let Some(met) = run else {
        return Scan { best, run };
    };
    if met.met == met.found.head.count {
        let best = best.considered(met.found.page, Some(met.found.head));
        Scan { best, run: None }
    } else {
        Scan { best, run }
    }
}

impl Scan {
    /// After one more page with this header.
    pub(crate) fn next(self, geometry: Geometry, page: u32, head: Option<PageHead>) -> Scan
        requires room { 20 ≤ geometry.page }
        requires lawful { IsGeometry geometry }
        requires goes_on { scanning.LacksPages self.run }
        ensures { result ≡ scanning.scan_next geometry self page head }
    {
        let run = followed(geometry, self.run, page, head);
        settled(self.best, run)
    }
}

/// Reads a page of an anchor: the header of a part of a record, whose bytes are then in the buffer, or
/// None, and whether the page is erased.
pub(crate) fn read_page<F: Flash>(
    flash: &mut F,
    geometry: Geometry,
    page: u32,
    buffer: &mut [u8],
) -> Result<(Option<PageHead>, bool), Fault>
    requires may { MayRead (F.device flash.old) geometry buffer.old }
    requires in_range { page < ANCHORS * geometry.pages }

    // What the page holds.
    ensures part { IfOk result (λ read. option_map (λ head. record { head = head; bytes = used_bytes head buffer.new }) read.0
        ≡ spec.parts_on geometry (F.device flash.old).pages page) }
    ensures blank { IfOk result (λ read. OnTrue read.1 ((F.device flash.old).pages page ≡ erased)) }
    ensures other { IfOk result (λ read. OnFalse read.1 ((F.device flash.old).pages page ≢ erased)) }

    // By reads alone, and how many.
    ensures reads { ReadsFew (F.device flash.old) (F.device flash.new) 1 result }
{
    match flash.read(page, buffer) {
        Ok(PageState::Data) => Ok((PageHead::of(buffer), false)),
        Ok(PageState::Erased) => Ok((None, true)),
        Ok(PageState::Unreadable) => Ok((None, false)),
        Err(DevFault::Failed) => Err(Fault::ReadFailed),
        Err(DevFault::PowerCut) => Err(Fault::PowerCut),
    }
}

/// Reads each page of an anchor once: the best record, this anchor's among them, and the place after
/// the anchor's last page that is not erased.
fn scan_anchor<F: Flash>(
    flash: &mut F,
    geometry: Geometry,
    anchor: u32,
    best: Best,
    buffer: &mut [u8],
) -> Result<(Best, u32), Fault>
    requires may { MayRead (F.device flash.old) geometry buffer.old }
    requires anchor { anchor < ANCHORS }
    requires best { best ≡ spec.best_below geometry (spec.parts_on geometry (F.device flash.old).pages) (anchor * geometry.pages) }

    // The best record, and the anchor's end.
    ensures best { IfOk result (λ read. read.0 ≡ spec.best_below geometry (spec.parts_on geometry (F.device flash.old).pages) ((anchor + 1) * geometry.pages)) }
    ensures end { IfOk result (λ read. IsEnd geometry (F.device flash.old).pages anchor geometry.pages read.1) }

    // By reads alone, and how many.
    ensures reads { ReadsFew (F.device flash.old) (F.device flash.new) geometry.pages result }
{
    let mut scan = Scan { best, run: None };
    let mut end = 0;
    for place in 0..geometry.pages {
        let page = geometry.page_number(anchor, place);
        let (head, blank) = read_page(flash, geometry, page, buffer)?;
        scan = scan.next(geometry, page, head);
        if !blank {
            end = place + 1;
        }
    }
    Ok((scan.best, end))
}

/// Whether a record begins on this anchor.
fn is_on(geometry: Geometry, found: Option<Found>, anchor: u32) -> bool
    requires { geometry.pages ≢ 0 }
    ensures on { OnTrue result ((f : Found) → found ≡ Some f → f.page / geometry.pages ≡ anchor) }
    ensures apart { OnFalse result ((f : Found) → found ≡ Some f → f.page / geometry.pages ≢ anchor) }
{
    match found {
        Some(found) => found.page / geometry.pages == anchor,
        None => false,
    }
}

/// The valid record of greatest sequence on the anchors, whether another has its sequence, and the
/// place after the last page that is not erased on its anchor. Each page is read once.
pub(crate) fn find_best<F: Flash>(
    flash: &mut F,
    geometry: Geometry,
    buffer: &mut [u8],
) -> Result<(Best, u32), Fault>
    requires may { MayRead (F.device flash.old) geometry buffer.old }

    // The best record, and the end of its anchor.
    ensures best { IfOk result (λ read. read.0 ≡ spec.best_on geometry (spec.parts_on geometry (F.device flash.old).pages)) }
    ensures end { IfOk result (λ read. (found : Found) → read.0.found ≡ Some found → IsEnd geometry (F.device flash.old).pages (found.page / geometry.pages) geometry.pages read.1) }

    // By reads alone, and how many.
    ensures reads { ReadsFew (F.device flash.old) (F.device flash.new) (ANCHORS * geometry.pages) result }
{
    let mut best = Best {
        found: None,
        twice: false,
    };
    let mut end = 0;
    for anchor in 0..ANCHORS {
        let (next, anchor_end) = scan_anchor(flash, geometry, anchor, best, buffer)?;
        if is_on(geometry, next.found, anchor) {
            end = anchor_end;
        }
        best = next;
    }
    Ok((best, end))
}

/// The best record, those on an anchor among them. Each page of the anchor is read once where it is
/// in the list; else they are erased.
fn scan_left<F: Flash>(
    flash: &mut F,
    bad: &BadBlocks,
    geometry: Geometry,
    anchor: u32,
    best: Best,
    buffer: &mut [u8],
) -> Result<Best, Fault>
    requires may { MayRead (F.device flash.old) geometry buffer.old }
    requires anchor { anchor < ANCHORS }
    requires erased { AreErased (F.device flash.old) bad.now ANCHORS }
    requires best { best ≡ spec.best_below geometry (spec.parts_on geometry (F.device flash.old).pages) (anchor * geometry.pages) }

    // The best record, this anchor's among them.
    ensures best { IfOk result (λ next. next ≡ spec.best_below geometry (spec.parts_on geometry (F.device flash.old).pages) ((anchor + 1) * geometry.pages)) }

    // By reads alone, and how many.
    ensures reads { ReadsFew (F.device flash.old) (F.device flash.new) geometry.pages result }
    ensures quiet { set.contains bad.now anchor ≡ false → (F.device flash.new).operations ≡ (F.device flash.old).operations }
{
    if !bad.contains(anchor) {
        return Ok(best);
    }
    let (next, _end) = scan_anchor(flash, geometry, anchor, best, buffer)?;
    Ok(next)
}

/// The greatest sequence of a valid record on the anchors, 0 where none is valid. Only those in the
/// list are read, each page once; the others are erased.
pub(crate) fn find_greatest<F: Flash>(
    flash: &mut F,
    bad: &BadBlocks,
    geometry: Geometry,
    buffer: &mut [u8],
) -> Result<u64, Fault>
    requires may { MayRead (F.device flash.old) geometry buffer.old }
    requires erased { AreErased (F.device flash.old) bad.now ANCHORS }

    // The greatest sequence.
    ensures greatest { IfOk result (λ greatest. greatest ≡ spec.greatest_on geometry (F.device flash.old).pages) }

    // By reads alone, and how many.
    ensures reads { ReadsFew (F.device flash.old) (F.device flash.new) (ANCHORS * geometry.pages) result }
    ensures quiet { ((b : ℕ) → b < ANCHORS → set.contains bad.now b ≡ false) → (F.device flash.new).operations ≡ (F.device flash.old).operations }
{
    let mut best = Best {
        found: None,
        twice: false,
    };
    for anchor in 0..ANCHORS {
        best = scan_left(flash, bad, geometry, anchor, best, buffer)?;
    }
    Ok(best.sequence())
}
