//! What a flash holds, as far as rows speak of it.
use crate::error::RowError;
use crate::look::{Claim, Look};
use crate::row::{Row, Side};
use block_ring::Ring;
use flash_model::{Flash, PageView};
use flash_simulation::SimFlash;
use fs_types::ANCHORS;
use record_format::PageHead;
use std::alloc::Global;

/// A flash after the lines of a row, with its used blocks where a system is at hand that tells them.
#[derive(Clone, Copy)]
pub struct Sight<'a> {
    pub flash: &'a SimFlash,
    pub ring: Option<&'a Ring>,
}

impl Sight<'_> {
    /// Appends each line of a row that does not hold of the flash.
    pub fn append_missed(
        self,
        alloc: Global,
        differences: &mut String,
        row: &Row<'_>,
        side: Side,
    ) -> Result<(), RowError> {
        for look in &row.looks {
            if !self.shows(alloc, &row.looks, look.claim)? {
                writeln!(differences, "  {}: {}", side.name(), look.key)?;
            }
        }
        Ok(())
    }

    /// Whether a claim holds.
    fn shows(self, alloc: Global, looks: &[Look<'_>], claim: Claim<'_>) -> Result<bool, RowError> {
        match claim {
            Claim::Data { page, digits } => self.has_data(alloc, page, digits),
            Claim::Erased { page } => Ok(self.page(page) == Some(PageView::Erased)),
            Claim::Unreadable { page } => Ok(self.page(page) == Some(PageView::Unreadable)),
            Claim::OthersErased => Ok(self.has_no_other(looks)),
            Claim::Newest { sequence, page } => Ok(self.newest() == Some((sequence, page))),
            Claim::Used { blocks } => self.has_used(blocks),
        }
    }

    /// What the page of a number holds; none where the flash has no such page.
    fn page(&self, page: u32) -> Option<PageView<'_>> {
        if (page as usize) < self.flash.geometry().page_count() {
            Some(self.flash.page(page))
        } else {
            None
        }
    }

    /// Whether a page has data that begin with the bytes of these digits, with zeros to its end.
    fn has_data(self, alloc: Global, page: u32, digits: &str) -> Result<bool, RowError> {
        let front = hex::decode(alloc, digits)?;
        let Some(PageView::Data(bytes)) = self.page(page) else {
            return Ok(false);
        };
        let Some(rest) = bytes.strip_prefix(front.as_slice()) else {
            return Ok(false);
        };
        Ok(rest.iter().all(|byte| *byte == 0))
    }

    /// Whether each page that no line names is erased.
    fn has_no_other(self, looks: &[Look<'_>]) -> bool {
        (0..self.flash.geometry().page_count() as u32).all(|page| names(looks, page)
            || self.page(page) == Some(PageView::Erased))
    }

    /// The sequence and the first page of the newest record on the anchors.
    fn newest(self) -> Option<(u64, u32)> {
        let mut newest = None;
        for page in 0..self.flash.geometry().page_count() as u32 {
            if let Some(sequence) = self.record_at(page)
                && newest.is_none_or(|(greatest, _)| greatest < sequence)
            {
                newest = Some((sequence, page));
            }
        }
        newest
    }

    /// The sequence of the valid record that begins on a page of an anchor.
    fn record_at(self, first: u32) -> Option<u64> {
        let head = self.head_at(first)?;
        if head.index != 0 || ANCHORS <= self.block_of(first)? {
            return None;
        }
        for index in 1..head.count {
            let page = first.checked_add(u32::from(index))?;
            let other = self.head_at(page)?;
            let follows = other.index == index
                && other.count == head.count
                && other.sequence == head.sequence
                && self.block_of(page) == self.block_of(first);
            if !follows {
                return None;
            }
        }
        Some(head.sequence)
    }

    fn head_at(self, page: u32) -> Option<PageHead> {
        match self.page(page)? {
            PageView::Data(bytes) if bytes.len() >= 20 => PageHead::of(bytes),
            _ => None,
        }
    }

    fn block_of(self, page: u32) -> Option<u32> {
        page.checked_div(self.flash.geometry().pages)
    }

    /// Whether a system is at hand and tells that exactly these blocks are used.
    fn has_used(self, blocks: &str) -> Result<bool, RowError> {
        let Some(ring) = self.ring else {
            return Ok(false);
        };
        for block in 0..ring.blocks() {
            if ring.is_used(block) != has_word(blocks, block)? {
                return Ok(false);
            }
        }
        Ok(true)
    }
}

/// Whether a line names this page.
fn names(looks: &[Look<'_>], named: u32) -> bool {
    looks.iter().any(|look| match look.claim {
        Claim::Data { page, .. } | Claim::Erased { page } | Claim::Unreadable { page } => {
            page == named
        }
        _ => false,
    })
}

/// Whether a number is among those that are parted by spaces.
fn has_word(numbers: &str, wanted: u32) -> Result<bool, RowError> {
    for word in numbers.split(' ') {
        if word.parse::<u32>().map_err(|_| RowError::Layout)? == wanted {
            return Ok(true);
        }
    }
    Ok(false)
}
