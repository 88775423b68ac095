//! A flash before its image is spelled.
use crate::low_bytes::push_word;
use std::alloc::{AllocError, Global};

/// What a page holds.
#[derive(Drop)]
enum Page {
    Erased,
    Data(Vec<u8>),
    Unreadable,
}

/// What each page of a flash holds, and which blocks are worn.
#[derive(Drop)]
pub struct Draft {
    /// The bytes of a page, the pages of a block, and the number of blocks.
    sizes: [u64; 3],
    pages: Vec<Page>,
    worn: Vec<bool>,
}

impl Draft {
    /// A flash of these sizes that is erased.
    pub fn new(alloc: Global, sizes: [u64; 3]) -> Result<Draft, AllocError> {
        let mut draft = Draft {
            sizes,
            pages: Vec::new(alloc),
            worn: Vec::new(alloc),
        };
        for _ in 0..sizes[2] {
            draft.worn.push(false)?;
        }
        for _ in 0..sizes[2].saturating_mul(sizes[1]) {
            draft.pages.push(Page::Erased)?;
        }
        Ok(draft)
    }

    /// The bytes of a page.
    pub fn page_bytes(&self) -> usize {
        self.sizes[0] as usize
    }

    /// The number of the first page of a block.
    pub fn first_page(&self, block: u64) -> usize {
        block.saturating_mul(self.sizes[1]) as usize
    }

    /// Puts bytes into pages from one on, with zeros after them. Pages that the flash has not are left
    /// out.
    pub fn put(&mut self, alloc: Global, first: usize, bytes: &[u8]) -> Result<(), AllocError> {
        let size = self.page_bytes();
        for (place, part) in bytes.chunks(size.max(1)).enumerate() {
            let mut page = Vec::from_slice(alloc, part)?;
            page.resize(size, 0)?;
            self.set(first.saturating_add(place), Page::Data(page));
        }
        Ok(())
    }

    /// Makes a page unreadable.
    pub fn tear(&mut self, page: usize) {
        self.set(page, Page::Unreadable);
    }

    /// Erases a page.
    pub fn erase(&mut self, page: usize) {
        self.set(page, Page::Erased);
    }

    fn set(&mut self, page: usize, holds: Page) {
        if let Some(old) = self.pages.get_mut(page) {
            *old = holds;
        }
    }

    /// Lets a block be worn.
    pub fn wear(&mut self, block: usize) {
        if let Some(worn) = self.worn.get_mut(block) {
            *worn = true;
        }
    }

    /// The image of the flash.
    pub fn image(&self, alloc: Global) -> Result<Vec<u8>, AllocError> {
        let mut out = Vec::from_slice(alloc, b"UFFSIMG1")?;
        for size in self.sizes {
            push_word(&mut out, size)?;
        }
        let pages = self.sizes[1] as usize;
        for (worn, block) in self.worn.iter().zip(self.pages.chunks(pages.max(1))) {
            out.push(if *worn { 1 } else { 0 })?;
            push_pages(&mut out, block)?;
        }
        Ok(out)
    }
}

/// Appends the pages of a block.
fn push_pages(out: &mut Vec<u8>, pages: &[Page]) -> Result<(), AllocError> {
    for page in pages {
        match page {
            Page::Erased => out.push(0)?,
            Page::Unreadable => out.push(2)?,
            Page::Data(bytes) => {
                out.push(1)?;
                out.extend_from_slice(bytes)?;
            }
        }
    }
    Ok(())
}
