//! The bytes of the part on which a flash stands.
ghost use Rattle.std.specs.Prelude.{◌≡◌, ◌⊎◌, ◌↔◌, ◌+◌, ◌*◌, ◌<◌, ◌++◌, Err, IfOk, IfErr, OnOk};
ghost use Rattle.flash_simulation.specs.Images.{parts};
ghost use Rattle.flash_simulation.specs.Simulation.{device_of};
ghost use Rattle.flash_model.specs.Contents.{shown_page};
ghost use Rattle.dense_nor.specs.Layout.{data_pages};
ghost use Rattle.raw_part.specs.Layouts.{HasLayout, HasSizes, sectors_of};
ghost use Rattle.raw_part.specs.Raws as raws;
ghost use Rattle.raw_part.specs.declared.part_layout.PartLayout.{PartLayout};

use crate::part_layout::PartLayout;
use dense_nor::{DenseLayout, mark_of};
use flash_model::{Flash, PageView};
use flash_simulation::SimFlash;
use fs_types::Fault;
use std::alloc::{AllocError, Global};

/// Bytes of a page of the part.
const PAGE: usize = 256;

/// A byte of the part that is erased.
const BLANK: u8 = 0xff;

/// The bytes of the serial NOR part on which a flash stands, of the layout that has its pages in a block:
/// its pages and their marks, and else bytes that are erased. `BadGeometry` for a flash of other pages than
/// 256 bytes, or of blocks that no layout has; else `NoMemory`.
pub fn raw_of(alloc: Global, flash: &SimFlash) -> Result<Vec<u8>, Fault>
    ensures ok { IfOk result (λ bytes. raws.IsRawOf (device_of flash.now) bytes.items) }
    ensures sizes { (result ≡ Err Fault.BadGeometry) ↔ ¬ HasLayout (device_of flash.now).geometry }
    ensures errors { IfErr result (λ fault. (fault ≡ Fault.BadGeometry) ⊎ (fault ≡ Fault.NoMemory)) }
{
    let sizes = flash.geometry();
    if sizes.page != 256 {
        return Err(Fault::BadGeometry);
    }
    let Some(layout) = PartLayout::of_pages(sizes.pages) else {
        return Err(Fault::BadGeometry);
    };
    match part_bytes(alloc, flash, layout) {
        Ok(bytes) => Ok(bytes),
        Err(_) => Err(Fault::NoMemory),
    }
}

/// All pages of the part, one after the other.
fn part_bytes(alloc: Global, flash: &SimFlash, layout: PartLayout) -> Result<Vec<u8>, AllocError>
    requires { HasSizes layout (device_of flash.now).geometry }
    ensures { IfOk result (λ bytes. bytes.items ≡ parts (16 * sectors_of layout * (device_of flash.now).geometry.blocks) (raws.part_page layout (device_of flash.now))) }
{
    let count = 16 * layout.sectors() * flash.geometry().blocks as usize;
    let mut bytes = Vec::with_capacity(alloc, PAGE * count)?;
    for number in 0..count {
        push_page(&mut bytes, flash, layout, number)?;
    }
    Ok(bytes)
}

/// Appends a page of the part.
fn push_page(
    bytes: &mut Vec<u8>,
    flash: &SimFlash,
    layout: PartLayout,
    number: usize,
) -> Result<(), AllocError>
    requires sizes { HasSizes layout (device_of flash.now).geometry }
    requires in_range { number < 16 * sectors_of layout * (device_of flash.now).geometry.blocks }
    ensures { OnOk result (bytes.new.items ≡ bytes.old.items ++ raws.part_page layout (device_of flash.now) number) }
{
    let size = 16 * layout.sectors();
    let block = (number / size) as u32;
    let place = (number % size) as u32;
    match layout {
        PartLayout::Sure => push_sure(bytes, flash, block, place),
        PartLayout::Dense(dense) => push_dense(bytes, flash, dense, block, place),
    }
}

/// Appends a page of a block in the layout `sure`: one of data, or one that begins with a mark.
fn push_sure(
    bytes: &mut Vec<u8>,
    flash: &SimFlash,
    block: u32,
    place: u32,
) -> Result<(), AllocError>
    requires sizes { HasSizes PartLayout.Sure (device_of flash.now).geometry }
    requires in_range { block < (device_of flash.now).geometry.blocks }
    requires in_block { place < 32 }
    ensures { OnOk result (bytes.new.items ≡ bytes.old.items ++ raws.block_page PartLayout.Sure (device_of flash.now) block place) }
{
    if place < 16 {
        push_data(bytes, flash.page(16 * block + place))
    } else {
        push_mark(bytes, flash.page(16 * block + place - 16))
    }
}

/// Appends a page of a block in the layout `dense`: one of data, or one of marks.
fn push_dense(
    bytes: &mut Vec<u8>,
    flash: &SimFlash,
    layout: DenseLayout,
    block: u32,
    place: u32,
) -> Result<(), AllocError>
    requires sizes { HasSizes (PartLayout.Dense layout) (device_of flash.now).geometry }
    requires in_range { block < (device_of flash.now).geometry.blocks }
    ensures { OnOk result (bytes.new.items ≡ bytes.old.items ++ raws.block_page (PartLayout.Dense layout) (device_of flash.now) block place) }
{
    let pages = layout.data_pages() as u32;
    if place < pages {
        push_data(bytes, page_of(flash, layout, block, place))
    } else {
        push_marks(bytes, flash, layout, block, place - pages)
    }
}

/// Appends the marks of 32 pages of a block.
fn push_marks(
    bytes: &mut Vec<u8>,
    flash: &SimFlash,
    layout: DenseLayout,
    block: u32,
    number: u32,
) -> Result<(), AllocError>
    requires sizes { HasSizes (PartLayout.Dense layout) (device_of flash.now).geometry }
    requires in_range { block < (device_of flash.now).geometry.blocks }
    ensures { OnOk result (bytes.new.items ≡ bytes.old.items ++ raws.marks_text (data_pages layout.sectors) (λ place. (device_of flash.now).pages (data_pages layout.sectors * block + place)) number) }
{
    for i in 0..32 {
        push_place(bytes, flash, layout, block, 32 * number as usize + i)?;
    }
    Ok(())
}

/// Appends the mark at a place of a block; past its last page it is blank.
fn push_place(
    bytes: &mut Vec<u8>,
    flash: &SimFlash,
    layout: DenseLayout,
    block: u32,
    place: usize,
) -> Result<(), AllocError>
    requires sizes { HasSizes (PartLayout.Dense layout) (device_of flash.now).geometry }
    requires in_range { block < (device_of flash.now).geometry.blocks }
    ensures { OnOk result (bytes.new.items ≡ bytes.old.items ++ raws.place_text (data_pages layout.sectors) (λ place. (device_of flash.now).pages (data_pages layout.sectors * block + place)) place) }
{
    if place < layout.data_pages() {
        push_entry(bytes, page_of(flash, layout, block, place as u32))
    } else {
        bytes.extend_from_slice(&[BLANK; 8])
    }
}

/// The page at a place of a block in the layout `dense`.
fn page_of(flash: &SimFlash, layout: DenseLayout, block: u32, place: u32) -> PageView<'_>
    requires sizes { HasSizes (PartLayout.Dense layout) (device_of flash.now).geometry }
    requires in_range { block < (device_of flash.now).geometry.blocks }
    requires in_block { place < data_pages layout.sectors }
    ensures { shown_page result ≡ (device_of flash.now).pages (data_pages layout.sectors * block + place) }
{
    flash.page(layout.data_pages() as u32 * block + place)
}

/// Appends the mark of a page in the layout `dense`.
fn push_entry(bytes: &mut Vec<u8>, page: PageView<'_>) -> Result<(), AllocError>
    ensures { OnOk result (bytes.new.items ≡ bytes.old.items ++ raws.entry_text (shown_page page.entry)) }
{
    match page {
        PageView::Erased => bytes.extend_from_slice(&[BLANK; 8]),
        PageView::Data(content) => bytes.extend_from_slice(&mark_of(content)),
        PageView::Unreadable => bytes.extend_from_slice(&[0; 8]),
    }
}

/// Appends the data of a page.
fn push_data(bytes: &mut Vec<u8>, page: PageView<'_>) -> Result<(), AllocError>
    ensures { OnOk result (bytes.new.items ≡ bytes.old.items ++ raws.data_text (shown_page page.entry)) }
{
    match page {
        PageView::Data(content) => bytes.extend_from_slice(content),
        PageView::Erased | PageView::Unreadable => bytes.extend_from_slice(&[BLANK; 256]),
    }
}

/// Appends the mark of a page in the layout `sure`, and what stands after it on the part.
fn push_mark(bytes: &mut Vec<u8>, page: PageView<'_>) -> Result<(), AllocError>
    ensures { OnOk result (bytes.new.items ≡ bytes.old.items ++ raws.mark_text (shown_page page.entry)) }
{
    let mark = match page {
        PageView::Erased => BLANK,
        PageView::Data(_) => 0,
        PageView::Unreadable => 0x0f,
    };
    bytes.push(mark)?;
    bytes.extend_from_slice(&[BLANK; 255])
}
