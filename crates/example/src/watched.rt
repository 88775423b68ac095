//! A flash that counts what is asked of another one: how a driver wraps a driver.
use undofs::{DevFault, Flash, Geometry, PageState};

/// A flash with counts of what was asked of it. A count stays at the greatest `u64`.
#[derive(Drop)]
pub struct Watched<F: Flash + Drop> {
    /// The flash that is asked.
    pub flash: F,
    /// How often a page was read.
    pub reads: u64,
    /// How often a page was programmed.
    pub programs: u64,
    /// How often a block was erased.
    pub erases: u64,
}

impl<F: Flash + Drop> Watched<F> {
    /// A flash of which nothing was asked yet.
    pub fn new(flash: F) -> Watched<F> {
        Watched {
            flash,
            reads: 0,
            programs: 0,
            erases: 0,
        }
    }
}

impl<F: Flash + Drop> Flash for Watched<F> {
    ghost device = { λ watched. F.device watched.flash };

    ghost whole_pages = { λ watched p bytes same. F.whole_pages watched.flash p bytes same };

    fn geometry(&self) -> Geometry {
        self.flash.geometry()
    }

    fn read(&mut self, page: u32, buffer: &mut [u8]) -> Result<PageState, DevFault> {
        self.reads = self.reads.saturating_add(1);
        self.flash.read(page, buffer)
    }

    fn program(&mut self, page: u32, bytes: &[u8]) -> Result<(), DevFault> {
        self.programs = self.programs.saturating_add(1);
        self.flash.program(page, bytes)
    }

    fn erase(&mut self, block: u32) -> Result<(), DevFault> {
        self.erases = self.erases.saturating_add(1);
        self.flash.erase(block)
    }

    fn power_on(&mut self) {
        self.flash.power_on();
    }
}
