//! A flash in memory that counts what it would ask of a part.
use flash_model::{DevFault, Flash, Geometry, PageState};
use flash_simulation::SimFlash;
use std::alloc::{AllocError, Global};

/// What was asked of a part. A count stays at the greatest `u64`.
#[derive(Clone, Copy, Default)]
pub struct Asked {
    pub reads: u64,
    pub programs: u64,
    pub erases: u64,
}

impl Asked {
    /// Both together.
    pub fn and(self, more: Asked) -> Asked {
        Asked {
            reads: self.reads.saturating_add(more.reads),
            programs: self.programs.saturating_add(more.programs),
            erases: self.erases.saturating_add(more.erases),
        }
    }

    /// What was asked beyond what was asked before.
    pub fn beyond(self, before: Asked) -> Asked {
        Asked {
            reads: self.reads.saturating_sub(before.reads),
            programs: self.programs.saturating_sub(before.programs),
            erases: self.erases.saturating_sub(before.erases),
        }
    }
}

/// A flash in memory that counts what it would ask of a part. As `NorFlash` does, it asks no erase of a
/// block that it erased itself and that was not programmed since.
#[derive(Drop)]
pub struct Watched {
    pub(crate) flash: SimFlash,
    clean: Vec<bool>,
    erases: u64,
}

impl Watched {
    /// A flash of which nothing was asked yet.
    pub fn new(alloc: Global, flash: SimFlash) -> Result<Watched, AllocError> {
        let blocks = flash.geometry().blocks as usize;
        Ok(Watched {
            flash,
            clean: vec![in alloc; false; blocks]?,
            erases: 0,
        })
    }

    /// What was asked since the flash was made.
    pub fn asked(&self) -> Asked {
        let counts = self.flash.counts();
        Asked {
            reads: counts.reads,
            programs: counts.programs,
            erases: self.erases,
        }
    }
}

impl Flash for Watched {
    ghost use Rattle.flash_simulation.specs.Simulation.{device_of};
    ghost use Rattle.flash_simulation.specs.WholePages.{whole_pages_of};

    ghost device = { λ watched. device_of watched.flash };

    ghost whole_pages = { λ watched p bytes same. whole_pages_of watched.flash p bytes same };

    fn geometry(&self) -> Geometry {
        self.flash.geometry()
    }

    fn read(&mut self, page: u32, buffer: &mut [u8]) -> Result<PageState, DevFault> {
        self.flash.read(page, buffer)
    }

    fn program(&mut self, page: u32, bytes: &[u8]) -> Result<(), DevFault> {
        let pages = self.flash.geometry().pages.max(1);
        note(&mut self.clean, page / pages, false);
        self.flash.program(page, bytes)
    }

    fn erase(&mut self, block: u32) -> Result<(), DevFault> {
        let done = self.flash.erase(block);
        if !note(&mut self.clean, block, done.is_ok()) {
            self.erases = self.erases.saturating_add(1);
        }
        done
    }

    fn power_on(&mut self) {
        self.flash.power_on();
    }
}

/// Notes whether a block is known to be clean, and tells whether it was.
fn note(clean: &mut Vec<bool>, block: u32, is_clean: bool) -> bool {
    let Some(noted) = clean.get_mut(block as usize) else {
        return false;
    };
    let was_clean = *noted;
    *noted = is_clean;
    was_clean
}
