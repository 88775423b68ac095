//! Commit records, lawful or not, by their fields.
use crate::low_bytes::{push_short, push_word};
use crate::numbers::Numbers;
use fields::push_u64;
use std::alloc::{AllocError, Global};

/// A record. Each number is cut to the bytes of its field.
#[derive(Drop)]
pub struct Record {
    pub sequence: u64,
    pub format: u64,
    /// The bytes of a page, the pages of a block, and the number of blocks.
    pub sizes: [u64; 3],
    pub limit: u64,
    pub cursor: u64,
    pub dropped: u8,
    /// Serials, each with the block of a root.
    pub versions: Vec<(u64, u64)>,
    /// Names, each with the block of a root.
    pub checkpoints: Vec<(&'static str, u64)>,
    pub bad: Vec<u64>,
    pub next: u64,
    pub last: u64,
}

impl Record {
    /// The record of a new file system on a flash of these sizes, with no version.
    pub fn new(alloc: Global, sizes: [u64; 3]) -> Record {
        Record {
            sequence: 1,
            format: 2,
            sizes,
            limit: 8,
            cursor: 0,
            dropped: 0,
            versions: Vec::new(alloc),
            checkpoints: Vec::new(alloc),
            bad: Vec::new(alloc),
            next: 2,
            last: 8,
        }
    }

    /// The bytes of its pages, each of which has so many.
    pub fn pages(&self, alloc: Global, page: usize) -> Result<Vec<Vec<u8>>, AllocError> {
        let payload = self.payload(alloc)?;
        let room = page.saturating_sub(20).max(1);
        let count = payload.len().div_ceil(room);
        let mut pages = Vec::new(alloc);
        for (index, part) in payload.chunks(room).enumerate() {
            pages.push(self.page(alloc, index, count, part)?)?;
        }
        Ok(pages)
    }

    fn page(
        &self,
        alloc: Global,
        index: usize,
        count: usize,
        part: &[u8],
    ) -> Result<Vec<u8>, AllocError> {
        let mut out = Vec::from_slice(alloc, b"UFCR")?;
        push_u64(&mut out, self.sequence)?;
        push_short(&mut out, index as u64)?;
        push_short(&mut out, count as u64)?;
        push_short(&mut out, part.len() as u64)?;
        push_short(&mut out, 0)?;
        out.extend_from_slice(part)?;
        Ok(out)
    }

    fn payload(&self, alloc: Global) -> Result<Vec<u8>, AllocError> {
        let mut out = self.front(alloc)?;
        for (serial, root) in &self.versions {
            push_u64(&mut out, *serial)?;
            push_word(&mut out, *root)?;
        }
        self.push_checkpoints(&mut out)?;
        self.push_bad(&mut out)?;
        Ok(out)
    }

    /// The first 40 bytes of the payload.
    fn front(&self, alloc: Global) -> Result<Vec<u8>, AllocError> {
        let mut out = Vec::new(alloc);
        push_word(&mut out, self.format)?;
        for size in self.sizes {
            push_word(&mut out, size)?;
        }
        push_short(&mut out, self.limit)?;
        push_short(&mut out, self.cursor)?;
        out.push(self.dropped)?;
        out.push(u8::try_from(self.versions.len()).unwrap_or(u8::MAX))?;
        out.push(u8::try_from(self.checkpoints.len()).unwrap_or(u8::MAX))?;
        out.push(0)?;
        push_short(&mut out, self.bad.len() as u64)?;
        push_short(&mut out, 0)?;
        push_u64(&mut out, self.next)?;
        push_word(&mut out, self.last)?;
        Ok(out)
    }

    fn push_checkpoints(&self, out: &mut Vec<u8>) -> Result<(), AllocError> {
        for (name, root) in &self.checkpoints {
            out.push(u8::try_from(name.len()).unwrap_or(u8::MAX))?;
            out.extend_from_slice(name.as_bytes())?;
            push_word(out, *root)?;
        }
        Ok(())
    }

    fn push_bad(&self, out: &mut Vec<u8>) -> Result<(), AllocError> {
        for block in &self.bad {
            push_word(out, *block)?;
        }
        Ok(())
    }

    /// Gives a field another value.
    pub fn change_field(&mut self, numbers: &mut Numbers) -> Result<(), AllocError> {
        let value = numbers.odd();
        match numbers.below(14) {
            0 => self.format = value,
            1 => self.change_size(numbers, value),
            2 => self.limit = value,
            3 => self.cursor = value,
            4 => self.dropped = numbers.byte(),
            5 => self.next = value,
            6 => self.last = value,
            7 => self.bad.push(value)?,
            8 => self.checkpoints.push(("v", value))?,
            9 => self.versions.push((value, 8))?,
            10 => self.change_version(numbers, value),
            11 => self.change_checkpoint(numbers, value),
            12 => self.sequence = value,
            _ => self.versions.clear(),
        }
        Ok(())
    }

    /// Tells another of the sizes.
    pub fn change_size(&mut self, numbers: &mut Numbers, value: u64) {
        if let Some(size) = self.sizes.get_mut(numbers.place(3)) {
            *size = value;
        }
    }

    /// Gives a version another serial, or another root.
    fn change_version(&mut self, numbers: &mut Numbers, value: u64) {
        let place = numbers.place(self.versions.len());
        match self.versions.get_mut(place) {
            Some(version) if numbers.hits(2) => version.0 = value,
            Some(version) => version.1 = value,
            None => {}
        }
    }

    /// Gives a checkpoint another name, or another root.
    fn change_checkpoint(&mut self, numbers: &mut Numbers, value: u64) {
        let place = numbers.place(self.checkpoints.len());
        match self.checkpoints.get_mut(place) {
            Some(checkpoint) if numbers.hits(2) => checkpoint.0 = numbers.pick(&NAMES, ""),
            Some(checkpoint) => checkpoint.1 = value,
            None => {}
        }
    }
}

/// Names that a checkpoint may be given: too short, too long, of a byte that no name has, and lawful.
const NAMES: [&str; 4] = ["", "0123456789abcdef0123456789abcdef", "a b", "w"];
