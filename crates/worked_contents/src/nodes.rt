//! Nodes as they are put on a flash, lawful or not.
use fields::push_u32;
use flash_model::{Flash, PageView};
use flash_simulation::SimFlash;
use fs_types::Fault;
use std::alloc::{AllocError, Global};

/// The data bytes of a body node that is full.
pub const FULL: u32 = 4016;

/// An entry of a directory, lawful or not.
#[derive(Clone, Copy)]
pub(crate) struct Entry<'a> {
    kind: u8,
    name: &'a [u8],
    head: u32,
    length: u32,
}

pub(crate) fn file(name: &[u8], head: u32, length: u32) -> Entry<'_> {
    Entry {
        kind: 1,
        name,
        head,
        length,
    }
}

pub(crate) fn folder(name: &[u8], block: u32) -> Entry<'_> {
    Entry {
        kind: 2,
        name,
        head: block,
        length: 0,
    }
}

fn push_length(out: &mut Vec<u8>, length: usize) -> Result<(), AllocError> {
    push_u32(out, u32::try_from(length).unwrap_or(0))
}

fn push_entry(out: &mut Vec<u8>, entry: &Entry<'_>) -> Result<(), AllocError> {
    out.push(entry.kind)?;
    out.push(u8::try_from(entry.name.len()).unwrap_or(0))?;
    out.extend_from_slice(entry.name)?;
    push_u32(out, entry.head)?;
    push_u32(out, entry.length)
}

/// The bytes of a directory node with these entries, in this order.
pub(crate) fn directory(alloc: Global, entries: &[Entry<'_>]) -> Result<Vec<u8>, AllocError> {
    let mut used = Vec::new(alloc);
    for entry in entries {
        push_entry(&mut used, entry)?;
    }
    let mut out = Vec::from_slice(alloc, b"UFND")?;
    push_length(&mut out, entries.len())?;
    push_length(&mut out, used.len())?;
    push_u32(&mut out, 0)?;
    out.extend_from_slice(&used)?;
    Ok(out)
}

/// The bytes of a body node with so many data bytes.
pub(crate) fn body(
    alloc: Global,
    index: u32,
    pointers: &[u32],
    used: u32,
) -> Result<Vec<u8>, AllocError> {
    let mut out = Vec::from_slice(alloc, b"UFNB")?;
    push_u32(&mut out, index)?;
    push_u32(&mut out, used)?;
    push_u32(&mut out, 0)?;
    for place in 0..16 {
        push_u32(&mut out, pointers.get(place).copied().unwrap_or(0))?;
    }
    out.resize(80_usize.saturating_add(used as usize), b'x')?;
    Ok(out)
}

/// Puts bytes into the first pages of a block, with zeros after them.
pub fn put(alloc: Global, flash: &mut SimFlash, block: u32, bytes: &[u8]) -> Result<(), Fault> {
    let sizes = flash.geometry();
    if sizes.page == 0 {
        return Err(Fault::BadGeometry);
    }
    let first = block.saturating_mul(sizes.pages) as usize;
    for (place, part) in bytes.chunks(sizes.page as usize).enumerate() {
        let mut page = Vec::from_slice(alloc, part)?;
        page.resize(sizes.page as usize, 0)?;
        put_page(flash, first.saturating_add(place), &page)?;
    }
    Ok(())
}

pub fn put_page(flash: &mut SimFlash, number: usize, page: &[u8]) -> Result<(), Fault> {
    let sizes = flash.geometry();
    let number = u32::try_from(number).map_err(|_| Fault::BadGeometry)?;
    if sizes.page_count() <= number as usize || sizes.page as usize != page.len() {
        return Err(Fault::BadGeometry);
    }
    flash.set_page(number, PageView::Data(page));
    Ok(())
}

/// Puts these nodes into the blocks from 8 on.
pub fn put_all(alloc: Global, flash: &mut SimFlash, nodes: &[Vec<u8>]) -> Result<(), Fault> {
    for (block, node) in (8..u32::MAX).zip(nodes) {
        put(alloc, flash, block, node)?;
    }
    Ok(())
}
