//! A flash over a part in memory of the dense layout, with a name of its own.
use dense_nor::DenseNorFlash;
use flash_model::{DevFault, Flash, Geometry, PageState};
use nor_part::MemoryNor;

/// A flash over a part in memory of the dense layout, of blocks of two sectors.
#[derive(Drop)]
pub struct DensePart {
    pub flash: DenseNorFlash<MemoryNor>,
}

impl Flash for DensePart {
    ghost use Rattle.nor_part.specs.MemoryParts.{held_of, whole_of};
    ghost use Rattle.dense_nor.specs.Flashes.{dense_device, dense_of, sectors_of};
    ghost use Rattle.dense_nor.specs.WholePages.{whole_pages_of};

    ghost device = { λ part. dense_device part.flash };

    ghost whole_pages = { λ part p bytes same. whole_pages_of (sectors_of part.flash) (held_of (dense_of part.flash)) (whole_of (dense_of part.flash)) p bytes same };

    fn geometry(&self) -> Geometry {
        self.flash.geometry()
    }

    fn read(&mut self, page: u32, buffer: &mut [u8]) -> Result<PageState, DevFault> {
        self.flash.read(page, buffer)
    }

    fn program(&mut self, page: u32, bytes: &[u8]) -> Result<(), DevFault> {
        self.flash.program(page, bytes)
    }

    fn erase(&mut self, block: u32) -> Result<(), DevFault> {
        self.flash.erase(block)
    }

    fn power_on(&mut self) {
        self.flash.power_on();
    }
}
