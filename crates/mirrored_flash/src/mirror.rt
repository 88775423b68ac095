//! A mirror in memory of a part.
ghost use Rattle.std.specs.Prelude.{◌≡◌, ◌<◌, length, Ok};
ghost use Rattle.flash_model.specs.Geometry.{page_count};
ghost use Rattle.flash_model.specs.Device.{ReportsPage};
ghost use Rattle.flash_simulation.specs.Simulation.{device_of};

use crate::shown_pages::{show_block, show_page};
use flash_model::{DevFault, Flash, Geometry, PageState, PageView};
use flash_simulation::SimFlash;
use fs_types::Count;

/// A mirror in memory of a part, with its power and what happened to it so far.
///
/// It is told how each program and erase of the part ended. A page whose program failed, and each page
/// of a block whose erase failed, is unreadable from then on, and the block is worn; where power went
/// what was shown before stays.
#[derive(Drop)]
pub struct Mirror {
    shown: SimFlash,
    powered: bool,
    failures: Count,
    cuts: Count,
    operations: Count,
}

impl Mirror {
    ghost use Rattle.std.specs.Prelude.{◌≡◌, ◌<◌, ◌+◌, ℕ, length, true};
    ghost use Rattle.flash_model.specs.Geometry.{page_count};
    ghost use Rattle.flash_model.specs.Device.{block_of, erased, Reads, Programs, Erases, LeavesBeside};
    ghost use Rattle.flash_simulation.specs.Simulation.{device_of};
    ghost use Rattle.mirrored_flash.specs.Shown.{page_after, erased_after};
    ghost use Rattle.mirrored_flash.specs.Mirrors.{mirror_device};

    /// A mirror of the pages and worn blocks of a flash, with power on.
    pub fn new(shown: SimFlash) -> Mirror
        ensures { mirror_device result ≡ record (device_of shown) { powered = true; failed_reads = 0; failures = 0; cuts = 0; operations = 0 } }
    {
        Mirror {
            shown,
            powered: true,
            failures: Count::zero(),
            cuts: Count::zero(),
            operations: Count::zero(),
        }
    }

    /// The sizes.
    pub fn geometry(&self) -> Geometry
        ensures { result ≡ (mirror_device self.now).geometry }
    {
        self.shown.geometry()
    }

    /// Whether power is on.
    pub fn is_powered(&self) -> bool
        ensures { result ≡ (mirror_device self.now).powered }
    {
        self.powered
    }

    /// Puts the power on.
    pub fn power_on(&mut self)
        ensures { mirror_device self.new ≡ record (mirror_device self.old) { powered = true } }
    {
        self.powered = true;
    }

    /// Tells what a page is shown as, and puts its bytes into the buffer where it has any. `PowerCut` with
    /// the power off.
    pub fn read(&mut self, page: u32, buffer: &mut [u8]) -> Result<PageState, DevFault>
        requires in_range { page < page_count (mirror_device self.old).geometry }
        requires whole { length buffer.old ≡ (mirror_device self.old).geometry.page }
        ensures { Reads (mirror_device self.old) page buffer.old (mirror_device self.new) buffer.new result }
    {
        if !self.powered {
            return Err(DevFault::PowerCut);
        }
        self.begin();
        Ok(read_page(&self.shown, page, buffer))
    }

    /// Is told how the program of an erased page ended, with power on.
    pub fn program(&mut self, page: u32, bytes: &[u8], done: Result<(), DevFault>)
        requires on { (mirror_device self.old).powered ≡ true }
        requires in_range { page < page_count (mirror_device self.old).geometry }
        requires whole { length bytes.now ≡ (mirror_device self.old).geometry.page }
        requires blank { (mirror_device self.old).pages page ≡ erased }
        ensures programs { Programs (mirror_device self.old) page bytes.now (mirror_device self.new) done }
        ensures shown { (mirror_device self.new).pages page ≡ page_after done ((mirror_device self.old).pages page) bytes.now }
    {
        self.begin();
        let block = page / self.shown.geometry().pages;
        show_page(&mut self.shown, page, bytes, done);
        self.end(block, done);
    }

    /// Is told how the erase of a block ended, with power on.
    pub fn erase(&mut self, block: u32, done: Result<(), DevFault>)
        requires on { (mirror_device self.old).powered ≡ true }
        requires in_range { block < (mirror_device self.old).geometry.blocks }
        ensures erases { Erases (mirror_device self.old) block (mirror_device self.new) done }
        ensures shown { (p : ℕ) → block_of (mirror_device self.old) p ≡ block
            → (mirror_device self.new).pages p ≡ erased_after done ((mirror_device self.old).pages p) }
    {
        self.begin();
        show_block(&mut self.shown, block, done);
        self.end(block, done);
    }

    // An operation begins.
    fn begin(&mut self)
        ensures { mirror_device self.new ≡ record (mirror_device self.old) { operations = (mirror_device self.old).operations + 1 } }
    {
        self.operations = self.operations.more();
    }

    // Ends a program or an erase in a block: a failure wears the block, and in a cut power goes.
    fn end(&mut self, block: u32, done: Result<(), DevFault>)
        requires in_range { block < (mirror_device self.old).geometry.blocks }
        requires on { (mirror_device self.old).powered ≡ true }
        ensures { LeavesBeside (mirror_device self.old) block (mirror_device self.new) done }
    {
        match done {
            Ok(()) => {}
            Err(DevFault::Failed) => {
                self.shown.set_worn(block, true);
                self.failures = self.failures.more();
            }
            Err(DevFault::PowerCut) => {
                self.powered = false;
                self.cuts = self.cuts.more();
            }
        }
    }
}

// Tells what a page is shown as, and puts its bytes into the buffer where it has any.
fn read_page(shown: &SimFlash, page: u32, buffer: &mut [u8]) -> PageState
    requires in_range { page < page_count (device_of shown.now).geometry }
    requires whole { length buffer.old ≡ (device_of shown.now).geometry.page }
    ensures { ReportsPage ((device_of shown.now).pages page) buffer.old buffer.new (Ok result) }
{
    match shown.page(page) {
        PageView::Erased => PageState::Erased,
        PageView::Data(bytes) => {
            buffer.copy_from_slice(bytes);
            PageState::Data
        }
        PageView::Unreadable => PageState::Unreadable,
    }
}
