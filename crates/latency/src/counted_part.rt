//! A serial NOR part in memory that counts its erases.
ghost use Rattle.nor_part.specs.MemoryParts.{held_of, page_total};

use flash_model::DevFault;
use nor_part::{MemoryNor, Nor};
use std::cell::Cell;

/// A part in memory that counts the erases that are asked of it where its maker sees them. The count stays at
/// the greatest `u64`.
#[derive(Drop)]
pub struct CountedPart<'c> {
    part: MemoryNor,
    erases: &'c Cell<u64>,
}

impl<'c> CountedPart<'c> {
    /// Counts the erases of a part.
    pub fn new(part: MemoryNor, erases: &'c Cell<u64>) -> CountedPart<'c> {
        CountedPart { part, erases }
    }
}

impl<'c> Nor for CountedPart<'c> {
    ghost use Rattle.nor_part.specs.MemoryParts.{held_of, page_total, whole_of};

    ghost held = { λ counted. held_of counted.part };

    ghost count = { λ counted. page_total counted.part };

    ghost whole = { λ counted n. whole_of counted.part n };

    fn page_count(&self) -> usize {
        self.part.page_count()
    }

    fn read(&mut self, page: usize, buffer: &mut [u8]) -> Result<(), DevFault> {
        self.part.read(page, buffer)
    }

    fn program(&mut self, page: usize, bytes: &[u8]) -> Result<(), DevFault> {
        self.part.program(page, bytes)
    }

    fn erase(&mut self, sector: usize) -> Result<(), DevFault> {
        self.erases.set(self.erases.get().saturating_add(1));
        self.part.erase(sector)
    }

    fn power_on(&mut self) {
        self.part.power_on();
    }
}
