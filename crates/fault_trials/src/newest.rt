//! What no server may do: the anchor of the newest record is erased to make room.
use flash_model::{DevFault, Flash, PageView};
use flash_simulation::SimFlash;
use fs_types::{ANCHORS, Fault};
use record_format::PageHead;
use std::alloc::Global;

/// Erases the anchor of the newest record, and writes that record at its beginning.
pub fn write_newest_anew(alloc: Global, flash: &mut SimFlash) -> Result<(), Fault> {
    let sequence = newest_sequence(flash);
    for block in 0..ANCHORS {
        let pages = pages_with(alloc, flash, block, sequence)?;
        if !pages.is_empty() {
            write_anew(flash, block, &pages)?;
        }
    }
    Ok(())
}

/// The greatest sequence of a page on the anchors.
fn newest_sequence(flash: &SimFlash) -> u64 {
    let mut newest = 0;
    for page in 0..first_data_page(flash) {
        newest = newest.max(sequence_at(flash, page).unwrap_or(0));
    }
    newest
}

fn first_data_page(flash: &SimFlash) -> u32 {
    ANCHORS.saturating_mul(flash.geometry().pages)
}

/// The sequence of the record of which a page is.
fn sequence_at(flash: &SimFlash, page: u32) -> Option<u64> {
    let bytes = data_at(flash, page)?;
    if bytes.len() < 20 {
        return None;
    }
    PageHead::of(bytes).map(|head| head.sequence)
}

/// The bytes of a page.
fn data_at(flash: &SimFlash, page: u32) -> Option<&[u8]> {
    if (page as usize) < flash.geometry().page_count() {
        if let PageView::Data(bytes) = flash.page(page) {
            return Some(bytes);
        }
    }
    None
}

/// The pages of a block that are of the record of a sequence.
fn pages_with(
    alloc: Global,
    flash: &SimFlash,
    block: u32,
    sequence: u64,
) -> Result<Vec<Vec<u8>>, Fault> {
    let mut pages = Vec::new(alloc);
    let count = flash.geometry().pages;
    for place in 0..count {
        let page = block.saturating_mul(count).saturating_add(place);
        if sequence_at(flash, page) == Some(sequence) {
            pages.push(copy_of(alloc, flash, page)?)?;
        }
    }
    Ok(pages)
}

fn copy_of(alloc: Global, flash: &SimFlash, page: u32) -> Result<Vec<u8>, Fault> {
    let mut copy = Vec::new(alloc);
    if let Some(bytes) = data_at(flash, page) {
        copy.extend_from_slice(bytes)?;
    }
    Ok(copy)
}

/// Erases a block, and programs these pages from its beginning on.
fn write_anew(flash: &mut SimFlash, block: u32, pages: &[Vec<u8>]) -> Result<(), Fault> {
    let sizes = flash.geometry();
    if sizes.blocks <= block {
        return Err(Fault::Invalid);
    }
    flash.erase(block).map_err(fault_of)?;
    let mut page = block.saturating_mul(sizes.pages);
    for bytes in pages {
        program(flash, page, bytes).map_err(fault_of)?;
        page = page.saturating_add(1);
    }
    Ok(())
}

/// Programs a page, where it is erased.
fn program(flash: &mut SimFlash, page: u32, bytes: &[u8]) -> Result<(), DevFault> {
    let sizes = flash.geometry();
    if (page as usize) < sizes.page_count() && bytes.len() == sizes.page as usize {
        if let PageView::Erased = flash.page(page) {
            return flash.program(page, bytes);
        }
    }
    Ok(())
}

fn fault_of(fault: DevFault) -> Fault {
    match fault {
        DevFault::Failed => Fault::ReadOnly,
        DevFault::PowerCut => Fault::PowerCut,
    }
}
