//! A planned flash that is not the one in memory.
use flash_model::{DevFault, FaultKind, Flash, Geometry, PageState, Planned};
use fs_types::Fault;

/// A planned flash, and how many operations were asked of it.
#[derive(Drop)]
pub(crate) struct CountedFlash<F: Planned + Drop> {
    /// The flash that is asked.
    pub(crate) flash: F,
    /// How many operations were asked. It stays at the greatest `u64`.
    pub(crate) asked: u64,
}

impl<F: Planned + Drop> CountedFlash<F> {
    /// A flash of which nothing was asked yet.
    pub(crate) fn new(flash: F) -> CountedFlash<F> {
        CountedFlash { flash, asked: 0 }
    }
}

impl<F: Planned + Drop> Flash for CountedFlash<F> {
    ghost device = { λ counted. F.device counted.flash };

    ghost whole_pages = { λ counted p bytes same. F.whole_pages counted.flash p bytes same };

    fn geometry(&self) -> Geometry {
        self.flash.geometry()
    }

    fn read(&mut self, page: u32, buffer: &mut [u8]) -> Result<PageState, DevFault> {
        self.asked = self.asked.saturating_add(1);
        self.flash.read(page, buffer)
    }

    fn program(&mut self, page: u32, bytes: &[u8]) -> Result<(), DevFault> {
        self.asked = self.asked.saturating_add(1);
        self.flash.program(page, bytes)
    }

    fn erase(&mut self, block: u32) -> Result<(), DevFault> {
        self.asked = self.asked.saturating_add(1);
        self.flash.erase(block)
    }

    fn power_on(&mut self) {
        self.flash.power_on();
    }
}

impl<F: Planned + Drop> Planned for CountedFlash<F> {
    ghost schedule = { λ counted. F.schedule counted.flash };

    fn plan_fault(&mut self, k: u64, kind: FaultKind) -> Result<(), Fault> {
        self.flash.plan_fault(k, kind)
    }

    fn read_as_planned(&mut self, page: u32, buffer: &mut [u8]) -> Result<PageState, DevFault> {
        self.asked = self.asked.saturating_add(1);
        self.flash.read_as_planned(page, buffer)
    }

    fn program_as_planned(&mut self, page: u32, bytes: &[u8]) -> Result<(), DevFault> {
        self.asked = self.asked.saturating_add(1);
        self.flash.program_as_planned(page, bytes)
    }

    fn erase_as_planned(&mut self, block: u32) -> Result<(), DevFault> {
        self.asked = self.asked.saturating_add(1);
        self.flash.erase_as_planned(block)
    }

    fn power_on_as_planned(&mut self) {
        self.flash.power_on_as_planned();
    }
}
