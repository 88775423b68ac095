//! Pages of a flash on a serial NOR part of the dense layout.
ghost use Rattle.std.specs.Prelude.{◌≡◌, ◌≢◌, ℕ, ◌+◌, ◌*◌, ◌<◌, ◌≤◌, ◌^◌, length, true};
ghost use Rattle.flash_model.specs.Device.{erased, ReportsPage, AfterProgram};
ghost use Rattle.nor_part.specs.Part as part_specs;
ghost use Rattle.dense_nor.specs.Layout.{mark_at, page_in};
ghost use Rattle.dense_nor.specs.Marks as marks_specs;
ghost use Rattle.dense_nor.specs.Parts.{AfterMark, LeavesTrace, MakesNoMark};

use crate::dense_layout::DenseLayout;
use crate::dense_nor::DenseNor;
use crate::entries::{BLANK, entry_of, program_entry, read_whole};
use crate::marks::{is_mark_of, mark_of};
use flash_model::{DevFault, PageState};

// Tells what a page holds, and puts its bytes into the buffer where it holds any. Its mark and its bytes are
// read into room of their own first.
pub(crate) fn read_page<P: DenseNor>(
    part: &mut P,
    layout: DenseLayout,
    page: usize,
    buffer: &mut [u8],
) -> Result<PageState, DevFault>
    requires in_part { mark_at layout.sectors page < P.count part.old }
    requires small { page < 2 ^ 32 }
    requires whole { length buffer.old ≡ 256 }
    ensures shows { ReportsPage (page_in layout.sectors (P.held part.old) page) buffer.old buffer.new result }
    ensures held { P.held part.new ≡ P.held part.old }
    ensures count { P.count part.new ≡ P.count part.old }
{
    let marks = read_whole(part, layout.mark_page(page))?;
    let bytes = read_whole(part, layout.data_page(page))?;
    let entry = entry_of(&marks, layout.place(page));
    if is_mark_of(entry, &bytes) {
        buffer.copy_from_slice(&bytes);
        return Ok(PageState::Data);
    }
    if is_blank(entry) && is_blank(&bytes) {
        return Ok(PageState::Erased);
    }
    Ok(PageState::Unreadable)
}

fn is_blank(bytes: &[u8]) -> bool
    ensures { result ≡ part_specs.is_blank bytes.now }
{
    bytes.iter().all(|byte| *byte == BLANK)
}

// Programs a page that is erased: its data, and then its mark. Where one of them was refused, 0 in the place
// of the mark tells that the page is spoilt.
pub(crate) fn write_page<P: DenseNor>(
    part: &mut P,
    layout: DenseLayout,
    page: usize,
    bytes: &[u8],
) -> Result<(), DevFault>
    requires in_part { mark_at layout.sectors page < P.count part.old }
    requires small { page < 2 ^ 32 }
    requires whole { length bytes.now ≡ 256 }
    requires blank { page_in layout.sectors (P.held part.old) page ≡ erased }
    ensures others { (q : ℕ) → q ≢ page → page_in layout.sectors (P.held part.new) q ≡ page_in layout.sectors (P.held part.old) q }
    ensures own { AfterProgram (page_in layout.sectors (P.held part.old) page) bytes.now (page_in layout.sectors (P.held part.new) page) result }
    ensures count { P.count part.new ≡ P.count part.old }
{
    let mark_page = layout.mark_page(page);
    let place = layout.place(page);
    match part.program(layout.data_page(page), bytes) {
        Ok(()) => write_mark(part, mark_page, place, bytes),
        Err(DevFault::Failed) => Err(spoil(part, mark_page, place)),
        Err(DevFault::PowerCut) => Err(DevFault::PowerCut),
    }
}

// Programs the mark of a page of these bytes. Where that was refused, 0 in its place tells that the page is
// spoilt.
fn write_mark<P: DenseNor>(
    part: &mut P,
    page: usize,
    place: usize,
    bytes: &[u8],
) -> Result<(), DevFault>
    requires in_part { page < P.count part.old }
    requires in_page { place < 32 }
    requires blank { part_specs.is_blank (marks_specs.entry_of (P.held part.old page) place) ≡ true }
    ensures others { (m : ℕ) → m ≢ page → P.held part.new m ≡ P.held part.old m }
    ensures beside { (i : ℕ) → i ≢ place → marks_specs.entry_of (P.held part.new page) i ≡ marks_specs.entry_of (P.held part.old page) i }
    ensures own { AfterMark bytes.now (P.held part.new) page place result }
    ensures count { P.count part.new ≡ P.count part.old }
{
    match program_entry(part, page, place, mark_of(bytes)) {
        Ok(()) => Ok(()),
        Err(DevFault::Failed) => Err(spoil(part, page, place)),
        Err(DevFault::PowerCut) => Err(DevFault::PowerCut),
    }
}

// Programs 0 in the place of a mark, since what came before it failed: that is told, or that power went.
fn spoil<P: DenseNor>(part: &mut P, page: usize, place: usize) -> DevFault
    requires in_part { page < P.count part.old }
    requires in_page { place < 32 }
    ensures others { (m : ℕ) → m ≢ page → P.held part.new m ≡ P.held part.old m }
    ensures beside { (i : ℕ) → i ≢ place → marks_specs.entry_of (P.held part.new page) i ≡ marks_specs.entry_of (P.held part.old page) i }
    ensures failed { result ≡ DevFault.Failed → LeavesTrace (P.held part.new) page place }
    ensures unmarked { MakesNoMark (P.held part.old) (P.held part.new) page place }
    ensures count { P.count part.new ≡ P.count part.old }
{
    match program_entry(part, page, place, [0; 8]) {
        Ok(()) => DevFault::Failed,
        Err(fault) => fault,
    }
}
