//! A flash in memory that tells what was asked of it.
ghost use Rattle.std.specs.Prelude.{◌≡◌, ◌<◌, ◌↔◌, true, false};
ghost use Rattle.flash_model.specs.Device.{erased};
ghost use Rattle.flash_model.specs.Geometry.{page_count};
ghost use Rattle.flash_simulation.specs.Simulation.{device_of};
ghost use Rattle.system.specs.CleaningRounds.{IsBlank};

use flash_model::{Counters, DevFault, Flash, Geometry, PageState, PageView};
use flash_simulation::SimFlash;

/// What was asked of a flash. A count stays at the greatest `u64`.
#[derive(Clone, Copy)]
pub struct Counts {
    pub reads: u64,
    pub programs: u64,
    pub erases: u64,
    /// Erases of blocks that were blank: each page was erased.
    pub blank: u64,
}

impl Counts {
    /// What was asked beyond what was asked before.
    pub fn beyond(self, before: Counts) -> Counts {
        Counts {
            reads: self.reads.saturating_sub(before.reads),
            programs: self.programs.saturating_sub(before.programs),
            erases: self.erases.saturating_sub(before.erases),
            blank: self.blank.saturating_sub(before.blank),
        }
    }

    /// What each of so many calls asked on the average, where a part counts as a whole.
    pub fn each_of(self, calls: u64) -> Counts {
        let calls = calls.max(1);
        Counts {
            reads: self.reads.div_ceil(calls),
            programs: self.programs.div_ceil(calls),
            erases: self.erases.div_ceil(calls),
            blank: self.blank.div_ceil(calls),
        }
    }
}

/// A flash in memory that counts the erases of blank blocks too.
#[derive(Drop)]
pub struct Watched {
    flash: SimFlash,
    blank: u64,
}

impl Watched {
    /// A flash of which no erase was asked yet.
    pub fn new(flash: SimFlash) -> Watched {
        Watched { flash, blank: 0 }
    }

    /// What was asked since the flash was made.
    pub fn counts(&self) -> Counts {
        let Counters {
            reads,
            programs,
            erases,
        } = self.flash.counts();
        Counts {
            reads,
            programs,
            erases,
            blank: self.blank,
        }
    }
}

impl Flash for Watched {
    ghost use Rattle.flash_simulation.specs.Simulation.{device_of};
    ghost use Rattle.flash_simulation.specs.WholePages.{whole_pages_of};

    ghost device = { λ watched. device_of watched.flash };

    ghost whole_pages = { λ watched p bytes same. whole_pages_of watched.flash p bytes same };

    fn geometry(&self) -> Geometry {
        self.flash.geometry()
    }

    fn read(&mut self, page: u32, buffer: &mut [u8]) -> Result<PageState, DevFault> {
        self.flash.read(page, buffer)
    }

    fn program(&mut self, page: u32, bytes: &[u8]) -> Result<(), DevFault> {
        self.flash.program(page, bytes)
    }

    fn erase(&mut self, block: u32) -> Result<(), DevFault> {
        if is_blank(&self.flash, block) {
            self.blank = self.blank.saturating_add(1);
        }
        self.flash.erase(block)
    }

    fn power_on(&mut self) {
        self.flash.power_on();
    }
}

/// Whether each page of a block is erased.
fn is_blank(flash: &SimFlash, block: u32) -> bool
    requires { block < (device_of flash.now).geometry.blocks }
    ensures blank { result ≡ true → IsBlank (device_of flash.now) block }
    ensures stale { result ≡ false → ¬ IsBlank (device_of flash.now) block }
{
    let sizes = flash.geometry();
    for place in 0..sizes.pages {
        if !is_erased(flash, sizes.page_number(block, place)) {
            return false;
        }
    }
    true
}

/// Whether a page is erased.
fn is_erased(flash: &SimFlash, page: u32) -> bool
    requires { page < page_count (device_of flash.now).geometry }
    ensures { (result ≡ true) ↔ ((device_of flash.now).pages page ≡ erased) }
{
    matches!(flash.page(page), PageView::Erased)
}
