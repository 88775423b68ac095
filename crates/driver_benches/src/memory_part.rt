//! A flash over a part in memory, with a name of its own.
use flash_model::{DevFault, Flash, Geometry, PageState};
use nor_part::{MemoryNor, NorFlash};

/// A flash over a part in memory.
#[derive(Drop)]
pub struct MemoryPart {
    pub flash: NorFlash<MemoryNor>,
}

impl Flash for MemoryPart {
    ghost use Rattle.nor_part.specs.Flashes.{nor_device, nor_of};
    ghost use Rattle.nor_part.specs.MemoryParts.{held_of, whole_of};
    ghost use Rattle.nor_part.specs.WholePages.{whole_part_pages_of};

    ghost device = { λ part. nor_device part.flash };

    ghost whole_pages = { λ part p bytes same. whole_part_pages_of (held_of (nor_of part.flash)) (whole_of (nor_of part.flash)) p bytes same };

    fn geometry(&self) -> Geometry {
        self.flash.geometry()
    }

    fn read(&mut self, page: u32, buffer: &mut [u8]) -> Result<PageState, DevFault> {
        self.flash.read(page, buffer)
    }

    fn program(&mut self, page: u32, bytes: &[u8]) -> Result<(), DevFault> {
        self.flash.program(page, bytes)
    }

    fn erase(&mut self, block: u32) -> Result<(), DevFault> {
        self.flash.erase(block)
    }

    fn power_on(&mut self) {
        self.flash.power_on();
    }
}
