//! Parts by their data sheets: what an operation of the flash takes on them.
use crate::watched::Asked;
use flash_model::Geometry;

/// A part: the sizes of its flash, how many versions are kept on it, and the microseconds that a read, a
/// program and an erase of the flash take.
#[derive(Clone, Copy)]
pub struct Part {
    pub name: &'static str,
    pub sizes: Geometry,
    pub history: u32,
    pub read: u64,
    pub program: u64,
    pub erase: u64,
}

impl Part {
    /// How many microseconds this takes.
    pub fn time(&self, asked: Asked) -> u64 {
        let reads = asked.reads.saturating_mul(self.read);
        let programs = asked.programs.saturating_mul(self.program);
        let erases = asked.erases.saturating_mul(self.erase);
        reads.saturating_add(programs).saturating_add(erases)
    }
}

/// The parts. A W25Q64 reads a page in 6 us, programs one in 0.4 ms and erases a sector in 45 ms, and
/// `NorFlash` asks two of these for each operation of the flash: one for the data and one for the mark.
/// A raw NAND reads a page in 75 us, programs one in 0.25 ms and erases a block in 2 ms.
pub const PARTS: &[Part] = &[
    Part {
        name: "W25Q64",
        sizes: Geometry {
            page: 256,
            pages: 16,
            blocks: 512,
        },
        history: 4,
        read: 12,
        program: 800,
        erase: 90_000,
    },
    Part {
        name: "raw NAND",
        sizes: Geometry {
            page: 2048,
            pages: 64,
            blocks: 512,
        },
        history: 4,
        read: 75,
        program: 250,
        erase: 2_000,
    },
];
