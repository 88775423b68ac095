//! The system under load, with the flash that it is mounted on.
ghost use Rattle.flash_simulation.specs.Simulation.{device_of};
ghost use Rattle.system.specs.Props.{system-prop};
ghost use Rattle.system.specs.Systems.{IsSystem};

use flash_model::{FaultKind, Flash, Geometry, PageView, Planned};
use flash_simulation::SimFlash;
use fs_types::{ANCHORS, Call, Fault, Reply};
use std::alloc::Global;
use std::ops::Range;
use undofs::{HistorySpace, System, format, mount};

/// A small flash, with 56 data blocks of 4,096 bytes.
pub const SIZES: Geometry = Geometry {
    page: 256,
    pages: 16,
    blocks: 64,
};

/// How many versions are kept.
pub const HISTORY: usize = 8;

/// A system with its flash.
#[derive(Drop)]
pub struct Mounted {
    flash: SimFlash,
    system: System,
    ghost mounted: { IsSystem (device_of flash) system } by { system-prop (device_of flash) system },
}

/// What a call or a step took.
#[derive(Clone, Copy)]
pub struct Taken {
    /// Data blocks that were at hand before it: neither used nor bad.
    pub at_hand: u64,
    /// Blocks that went bad in it.
    pub bad: u64,
    /// Blocks that were erased in it.
    pub erased: u64,
    /// Pages that were programmed in it.
    pub programmed: u64,
    /// Pages that were read in it.
    pub read: u64,
}

impl Mounted {
    /// A new file system.
    pub fn new(alloc: Global) -> Result<Mounted, Fault> {
        let mut flash = SimFlash::new(alloc, SIZES, &[])?;
        format(alloc, &mut flash, HISTORY as u32)?;
        let system = mount(alloc, &mut flash)?;
        Ok(Mounted { flash, system })
    }

    /// Carries out a call.
    pub fn call(&mut self, alloc: Global, call: &Call) -> Result<Reply, Fault> {
        self.system.call(alloc, &mut self.flash, call.lend())
    }

    /// Carries out a call, and tells what it took.
    pub fn measure(&mut self, alloc: Global, call: &Call) -> (Result<Reply, Fault>, Taken) {
        let before = self.totals();
        let answer = self.call(alloc, call);
        (answer, self.taken_since(before))
    }

    /// Tells what the history keeps.
    pub fn space(&mut self, alloc: Global) -> Result<HistorySpace, Fault> {
        self.system.space_by_version(alloc, &mut self.flash)
    }

    /// Forgets the fewest versions that leave so many blocks free, and tells how many these are.
    pub fn forget_until_free(&mut self, alloc: Global, blocks: u64) -> Result<u64, Fault> {
        self.system
            .forget_until_free(alloc, &mut self.flash, blocks)
    }

    /// Takes a step of cleaning, and tells whether a round is over and what it took.
    pub fn clean(&mut self, budget: u64) -> Result<(bool, Taken), Fault> {
        let before = self.totals();
        let is_over = self.system.clean_step(&mut self.flash, budget)?;
        Ok((is_over, self.taken_since(before)))
    }

    /// Takes a step of reclaiming, and tells whether the marking ended and what it took.
    pub fn reclaim(&mut self, alloc: Global, budget: u64) -> Result<(bool, Taken), Fault> {
        let before = self.totals();
        let has_ended = self.system.reclaim_step(alloc, &mut self.flash, budget)?;
        Ok((has_ended, self.taken_since(before)))
    }

    /// The flash with a system that is mounted from it anew.
    pub fn mounted_anew(self, alloc: Global) -> Result<Mounted, Fault> {
        let mut flash = self.flash;
        let system = mount(alloc, &mut flash)?;
        Ok(Mounted { flash, system })
    }

    /// Plans that the next operation of the kind's class fails.
    pub fn plan_fault(&mut self, kind: FaultKind) -> Result<(), Fault> {
        self.flash.plan_fault(1, kind)
    }

    /// The blocks that are at hand, those that are bad, and what was done since the flash was made.
    fn totals(&self) -> Taken {
        let counts = self.flash.counts();
        Taken {
            at_hand: self.at_hand(),
            bad: self.bad(),
            erased: counts.erases,
            programmed: counts.programs,
            read: counts.reads,
        }
    }

    /// What was taken since the totals were these.
    fn taken_since(&self, before: Taken) -> Taken {
        let now = self.totals();
        Taken {
            at_hand: before.at_hand,
            bad: now.bad.saturating_sub(before.bad),
            erased: now.erased.saturating_sub(before.erased),
            programmed: now.programmed.saturating_sub(before.programmed),
            read: now.read.saturating_sub(before.read),
        }
    }

    /// How many data blocks are at hand.
    pub fn at_hand(&self) -> u64 {
        let storage = &self.system.state.storage;
        u64::from(storage.ring.free_count(&storage.bad))
    }

    /// Whether a data block is at hand.
    fn is_at_hand(&self, block: u32) -> bool {
        let storage = &self.system.state.storage;
        ANCHORS <= block && !storage.ring.is_used(block) && !storage.bad.contains(block)
    }

    /// Whether each page of the blocks that are at hand is erased.
    pub fn is_blank(&self) -> bool {
        for page in 0..SIZES.page_count() as u32 {
            if self.is_at_hand(page / SIZES.pages) && !self.is_erased(page) {
                return false;
            }
        }
        true
    }

    /// Whether a page is erased; false past the last one.
    fn is_erased(&self, page: u32) -> bool {
        if self.flash.geometry().page_count() <= page as usize {
            return false;
        }
        match self.flash.page(page) {
            PageView::Erased => true,
            PageView::Data(_) | PageView::Unreadable => false,
        }
    }

    /// How many of some blocks an operation failed in.
    pub fn worn(&self, blocks: Range<u32>) -> u64 {
        blocks.filter(|block| self.is_worn(*block)).count() as u64
    }

    fn is_worn(&self, block: u32) -> bool {
        block < self.flash.geometry().blocks && self.flash.is_worn(block)
    }

    fn bad(&self) -> u64 {
        self.system.state.storage.bad.len() as u64
    }

    /// How many blocks were erased since the flash was made, data blocks and anchors.
    pub fn erased(&self) -> u64 {
        self.flash.counts().erases
    }
}
