//! One anchor: its erase, and the pages of a record that are programmed on it.
ghost use Rattle.std.specs.Prelude.{◌≡◌, ℕ, ◌+◌, ◌<◌, ◌≤◌, false, ◌*◌, vec_capacity};
ghost use Rattle.flash_model.specs.Geometry.{IsGeometry};
ghost use Rattle.flash_model.specs.Device.{erased};
ghost use Rattle.anchors.specs.Anchored.{ErasesAnchor, Touches};
ghost use Rattle.fs_types.specs.declared.limits.TheConstants.{MAX_BAD_BLOCKS, ANCHORS};
ghost use Rattle.anchors.specs.Commit.{Wrote};
ghost use Rattle.anchors.specs.Drafts.{IsDraft, MayWrite};
ghost use Rattle.anchors.specs.Keeping.{Spares};
ghost use Rattle.std.specs.FinSet as set;
ghost use Rattle.anchors.specs.Programming as spec;

use crate::draft::{Draft, piece_of};
use bad_blocks::BadBlocks;
use flash_model::{DevFault, Flash, Geometry};
use fs_types::Fault;
use record_format::{PageHead, page_laws, write_page};

/// Erases an anchor, and answers whether that was done. Where it failed, the anchor is put into the
/// list, which has room for it.
pub(crate) fn erase_anchor<F: Flash>(
    flash: &mut F,
    bad: &mut BadBlocks,
    anchor: u32,
) -> Result<bool, Fault>
    requires lawful { IsGeometry (F.device flash.old).geometry }
    requires anchor { anchor < ANCHORS }
    requires good { set.contains bad.old anchor ≡ false }
    requires room { set.len bad.old < MAX_BAD_BLOCKS }
    ensures { ErasesAnchor (F.device flash.old) bad.old (F.device flash.new) bad.new anchor result }
{
    match flash.erase(anchor) {
        Ok(()) => Ok(true),
        Err(DevFault::Failed) => {
            bad.add(anchor).unwrap();
            Ok(false)
        }
        Err(DevFault::PowerCut) => Err(Fault::PowerCut),
    }
}

/// Programs the pages of a record on erased pages of an anchor, from a place on. The room of `page`
/// serves: no memory is taken.
fn program_record<F: Flash>(
    flash: &mut F,
    geometry: Geometry,
    anchor: u32,
    place: u32,
    draft: &Draft<'_>,
    page: &mut Vec<u8>,
) -> Result<(), DevFault>
    requires same { (F.device flash.old).geometry ≡ geometry }
    requires is { IsDraft geometry draft.now }

    // Its place on the flash, and the room in memory for a page.
    requires anchor { anchor < ANCHORS }
    requires in_block { place + draft.now.count ≤ geometry.pages }
    requires blank { (m : ℕ) → m < draft.now.count → (F.device flash.old).pages (anchor * geometry.pages + place + m) ≡ erased }
    requires room { geometry.page ≤ vec_capacity page.old }

    // Its pages are programmed in order, and no page of another block changes.
    ensures programmed { (n : ℕ) × spec.EndsAt draft.now.count n result × spec.HasRecordPages geometry (F.device flash.old).pages (F.device flash.new).pages (anchor * geometry.pages + place) draft.now.sequence draft.now.payload.now draft.now.count n }
    ensures touches { Touches (F.device flash.old) anchor (F.device flash.new) result }
    ensures tries { spec.TriesPages (F.device flash.old) (F.device flash.new) draft.now.count result }
    ensures operations { (F.device flash.new).operations ≤ (F.device flash.old).operations + draft.now.count }
    ensures room { geometry.page ≤ vec_capacity page.new }
{
    for n in 0..draft.count {
        let piece = piece_of(geometry, draft.payload, n);
        let head = PageHead {
            sequence: draft.sequence,
            index: n,
            count: draft.count,
            used: piece.len() as u16,
        };
        write_page(page, geometry.page as usize, head, piece);
        flash.program(geometry.page_number(anchor, place + n as u32), page)?;
    }
    Ok(())
}

/// Writes a record to an anchor, of which all pages from a place on are erased, and answers whether that was done. Where it failed,
/// the anchor is put into the list, which has room for it.
pub(crate) fn place_record<F: Flash>(
    flash: &mut F,
    bad: &mut BadBlocks,
    geometry: Geometry,
    anchor: u32,
    place: u32,
    draft: &Draft<'_>,
    page: &mut Vec<u8>,
) -> Result<bool, Fault>
    requires same { (F.device flash.old).geometry ≡ geometry }
    requires may { MayWrite geometry (F.device flash.old).pages bad.old anchor draft.now }
    requires in_block { place + draft.now.count ≤ geometry.pages }
    requires blank { (m : ℕ) → place ≤ m → m < geometry.pages → (F.device flash.old).pages (anchor * geometry.pages + m) ≡ erased }
    requires room { geometry.page ≤ vec_capacity page.old }

    // The record stands at the end of the anchor, or the newest one is what it was.
    ensures wrote { Wrote geometry (F.device flash.old) bad.old (F.device flash.new) bad.new anchor place draft.now.count draft.now result }
    ensures room { geometry.page ≤ vec_capacity page.new }
{
    page_laws();
    match program_record(flash, geometry, anchor, place, draft, page) {
        Ok(()) => Ok(true),
        Err(DevFault::Failed) => {
            bad.add(anchor).unwrap();
            Ok(false)
        }
        Err(DevFault::PowerCut) => Err(Fault::PowerCut),
    }
}

/// Erases an anchor, and writes a record from its first page on. Answers whether that was done;
/// where an operation failed, the anchor is put into the list.
pub(crate) fn write_anchor<F: Flash>(
    flash: &mut F,
    bad: &mut BadBlocks,
    geometry: Geometry,
    anchor: u32,
    draft: &Draft<'_>,
    page: &mut Vec<u8>,
) -> Result<bool, Fault>
    requires same { (F.device flash.old).geometry ≡ geometry }
    requires may { MayWrite geometry (F.device flash.old).pages bad.old anchor draft.now }
    requires spares { Spares geometry (F.device flash.old).pages anchor }
    requires room { geometry.page ≤ vec_capacity page.old }

    // The record stands alone on the anchor, or the newest one is what it was.
    ensures wrote { Wrote geometry (F.device flash.old) bad.old (F.device flash.new) bad.new anchor 0 (1 + draft.now.count) draft.now result }
    ensures room { geometry.page ≤ vec_capacity page.new }
{
    if !erase_anchor(flash, bad, anchor)? {
        return Ok(false);
    }
    place_record(flash, bad, geometry, anchor, 0, draft, page)
}
