//! The flash that stands on a part.
ghost use Rattle.std.specs.Prelude.{◌≡◌, ◌⊎◌, ◌↔◌, ◌+◌, ◌*◌, ◌≤◌, Err, IfOk, IfErr, length};
ghost use Rattle.flash_model.specs.Contents.{IsWhole, shown_page};
ghost use Rattle.flash_simulation.specs.Simulation.{device_of};
ghost use Rattle.nor_part.specs.Layout as sure;
ghost use Rattle.nor_part.specs.Part as part;
ghost use Rattle.dense_nor.specs.Layout as dense;
ghost use Rattle.dense_nor.specs.Marks as marks;
ghost use Rattle.raw_part.specs.Layouts.{mark_page, page_in};
ghost use Rattle.raw_part.specs.Raws.{IsRawFlash, IsRawLength, held_in};

use crate::part_layout::PartLayout;
use dense_nor::{DenseLayout, is_mark_of};
use flash_model::PageView;
use flash_simulation::SimFlash;
use fs_types::Fault;
use std::alloc::Global;

/// A byte of the part that is erased.
const BLANK: u8 = 0xff;

/// The most blocks that are looked at: no flash has as many.
const MOST_BLOCKS: usize = 65_536;

/// The flash that stands on a serial NOR part of these bytes in this layout, with its power on and no block
/// worn. `BadGeometry` where they are no whole blocks, or fewer or more than a flash may have; else
/// `NoMemory`.
pub fn flash_of_raw(alloc: Global, bytes: &[u8], layout: PartLayout) -> Result<SimFlash, Fault>
    ensures ok { IfOk result (λ flash. IsRawFlash layout bytes.now (device_of flash)) }
    ensures length { (result ≡ Err Fault.BadGeometry) ↔ ¬ IsRawLength layout (length bytes.now) }
    ensures errors { IfErr result (λ fault. (fault ≡ Fault.BadGeometry) ⊎ (fault ≡ Fault.NoMemory)) }
{
    let size = layout.part_block();
    let blocks = bytes.len() / size;
    if bytes.len() % size != 0 || blocks > MOST_BLOCKS {
        return Err(Fault::BadGeometry);
    }
    let sizes = layout.sizes(blocks as u32);
    let mut flash = SimFlash::new(alloc, sizes, &[])?;
    for page in 0..sizes.page_count() as u32 {
        flash.set_page(page, page_at(bytes, layout, page));
    }
    Ok(flash)
}

/// What the page of a number shows.
fn page_at(bytes: &[u8], layout: PartLayout, page: u32) -> PageView<'_>
    requires { 256 * mark_page layout page + 256 ≤ length bytes.now }
    ensures shown { shown_page result ≡ page_in layout (held_in bytes.now) page }
    ensures whole { IsWhole 256 (shown_page result) }
{
    match layout {
        PartLayout::Sure => sure_page(bytes, page),
        PartLayout::Dense(dense) => dense_page(bytes, dense, page),
    }
}

/// The same in the layout `sure`.
fn sure_page(bytes: &[u8], page: u32) -> PageView<'_>
    requires { 256 * sure.mark_page page + 256 ≤ length bytes.now }
    ensures shown { shown_page result ≡ sure.page_in (held_in bytes.now) page }
    ensures whole { IsWhole 256 (shown_page result) }
{
    let number = page as usize + 16 * (page as usize / 16);
    let data = part_page(bytes, number);
    let mark = part_page(bytes, number + 16)[0];
    view_of(data, mark)
}

/// The same in the layout `dense`.
fn dense_page(bytes: &[u8], layout: DenseLayout, page: u32) -> PageView<'_>
    requires { 256 * dense.mark_at layout.sectors page + 256 ≤ length bytes.now }
    ensures shown { shown_page result ≡ dense.page_in layout.sectors (held_in bytes.now) page }
    ensures whole { IsWhole 256 (shown_page result) }
{
    let data = part_page(bytes, layout.data_page(page as usize));
    let marks = part_page(bytes, layout.mark_page(page as usize));
    dense_view_of(data, entry_of(marks, layout.place(page as usize)))
}

/// The eight bytes at a place of a page of marks.
fn entry_of(page: &[u8], place: usize) -> &[u8]
    requires { 8 * place + 8 ≤ length page.now }
    ensures entry { result.now ≡ marks.entry_of page.now place }
    ensures len { length result.now ≡ 8 }
{
    let first = 8 * place;
    &page[first..first + 8]
}

/// The page of a number of the part.
fn part_page(bytes: &[u8], number: usize) -> &[u8]
    requires { 256 * number + 256 ≤ length bytes.now }
    ensures bytes { result.now ≡ held_in bytes.now number }
    ensures len { length result.now ≡ 256 }
{
    let first = 256 * number;
    &bytes[first..first + 256]
}

/// What a page shows by its data and its mark in the layout `sure`.
fn view_of(data: &[u8], mark: u8) -> PageView<'_>
    requires { length data.now ≡ 256 }
    ensures shown { shown_page result ≡ sure.page_from data.now mark }
    ensures whole { IsWhole 256 (shown_page result) }
{
    if mark == 0 {
        return PageView::Data(data);
    }
    if mark == BLANK && is_blank(data) {
        return PageView::Erased;
    }
    PageView::Unreadable
}

/// What a page shows by its data and the eight bytes at its place in the layout `dense`.
fn dense_view_of<'a>(data: &'a [u8], entry: &[u8]) -> PageView<'a>
    requires data { length data.now ≡ 256 }
    requires entry { length entry.now ≡ 8 }
    ensures shown { shown_page result ≡ marks.page_from data.now entry.now }
    ensures whole { IsWhole 256 (shown_page result) }
{
    if is_mark_of(entry, data) {
        return PageView::Data(data);
    }
    if is_blank(entry) && is_blank(data) {
        return PageView::Erased;
    }
    PageView::Unreadable
}

/// Whether each byte is as an erase leaves it.
fn is_blank(bytes: &[u8]) -> bool
    ensures { result ≡ part.is_blank bytes.now }
{
    bytes.iter().all(|byte| *byte == BLANK)
}
