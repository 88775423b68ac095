//! A flash whose driver is at the other end of two streams.
ghost use Rattle.mirrored_flash.specs.Mirrors.{mirror_device};
ghost use Rattle.remote_flash.specs.Attempts.{HasOrdered};
ghost use Rattle.remote_flash.specs.Drivers.{driver_streams};

use crate::driver::Driver;
use flash_model::{DevFault, Flash, Geometry, PageState};
use flash_simulation::SimFlash;
use mirrored_flash::Mirror;
use std::io::{Read, Write};

/// The byte that begins an order to program a page.
const PROGRAM: u8 = b'p';

/// The byte that begins an order to erase a block.
const ERASE: u8 = b'e';

/// A flash whose driver is at the other end of two streams, shown as a mirror in memory.
///
/// Each program and erase is ordered from the driver before it changes the mirror, and changes it by what
/// the driver answers. Reads ask the driver nothing. Once the driver's power is lost it is ordered nothing
/// more, and each program and erase is cut, after a `power_on` too: what the part holds is not known from
/// then on. All that the driver was given are the orders of programs and erases of the flash, whatever
/// was called meanwhile ([`ToldFlash::is_lost`]).
#[derive(Drop)]
pub struct ToldFlash<R: Read, W: Write> {
    mirror: Mirror,
    driver: Driver<R, W>,
    ghost ordered: { ∥ HasOrdered (mirror_device mirror).geometry W.contents (driver_streams R.remaining W.contents driver) ∥₁ },
}

impl<R: Read, W: Write> ToldFlash<R, W> {
    ghost use Rattle.std.specs.Prelude.{◌≡◌, List, ℕ, [], IfSome, true, false};
    ghost use Rattle.flash_simulation.specs.Simulation.{device_of};
    ghost use Rattle.remote_flash.specs.Attempts.{AreOrders, TellsAlways};
    ghost use Rattle.remote_flash.specs.Drivers.{driver_answers, driver_orders, driver_lost};
    ghost use Rattle.remote_flash.specs.Flashes.{told_device, driver_of};

    /// Whether the driver's power is lost for good. Its orders, all that it was given, are those of
    /// programs and erases, and whole where it is not.
    pub fn is_lost(&self) -> bool
        ensures lost { result ≡ driver_lost (driver_of self.now) }
        ensures orders { TellsAlways W.contents → IfSome (W.contents (driver_orders (driver_of self.now))) (λ bytes. ∥ AreOrders (told_device self.now).geometry result bytes ∥₁) }
    {
        self.driver.is_lost()
    }

    /// A flash that shows the pages and worn blocks of another, with power on.
    pub(crate) fn new(shown: SimFlash, answers: R, orders: W) -> ToldFlash<R, W>
        requires unused { IfSome (W.contents orders) (λ all. all ≡ []) }
        ensures device { told_device result ≡ record (device_of shown) { powered = true; failed_reads = 0; failures = 0; cuts = 0; operations = 0 } }
        ensures answers { driver_answers (driver_of result) ≡ answers }
        ensures orders { driver_orders (driver_of result) ≡ orders }
        ensures lost { driver_lost (driver_of result) ≡ false }
    {
        ToldFlash {
            mirror: Mirror::new(shown),
            driver: Driver::new(answers, orders),
        }
    }
}

impl<R: Read, W: Write> Flash for ToldFlash<R, W> {
    ghost use Rattle.std.specs.Prelude.{◌≡◌, ℕ, ◌<◌, true, false, length};
    ghost use Rattle.flash_model.specs.Geometry.{page_count};
    ghost use Rattle.flash_model.specs.Device.{block_of, erased, Reads, Programs, Erases};
    ghost use Rattle.remote_flash.specs.Orders.{program_order, erase_order};
    ghost use Rattle.remote_flash.specs.Streams.{Tells};
    ghost use Rattle.mirrored_flash.specs.Shown.{page_after, erased_after};
    ghost use Rattle.remote_flash.specs.Flashes.{told_device, told_streams, driver_of, whole_shown_pages};

    ghost device = { told_device };

    ghost whole_pages = { whole_shown_pages };

    fn geometry(&self) -> Geometry {
        self.mirror.geometry()
    }

    fn read(&mut self, page: u32, buffer: &mut [u8]) -> Result<PageState, DevFault>
        requires in_range { page < page_count (told_device self.old).geometry }
        requires whole { length buffer.old ≡ (told_device self.old).geometry.page }
        ensures reads { Reads (told_device self.old) page buffer.old (told_device self.new) buffer.new result }
        ensures driver { driver_of self.new ≡ driver_of self.old }
    {
        self.mirror.read(page, buffer)
    }

    fn program(&mut self, page: u32, bytes: &[u8]) -> Result<(), DevFault>
        requires in_range { page < page_count (told_device self.old).geometry }
        requires whole { length bytes.now ≡ (told_device self.old).geometry.page }
        requires blank { (told_device self.old).pages page ≡ erased }

        // What is programmed, and what is shown.
        ensures programs { Programs (told_device self.old) page bytes.now (told_device self.new) result }
        ensures shown { (told_device self.new).pages page ≡ page_after result ((told_device self.old).pages page) bytes.now }

        // What the driver is told, and what it answers.
        ensures told { (told_device self.old).powered ≡ true
            → Tells (told_streams R.remaining W.contents self.old) (program_order page bytes.now) (told_streams R.remaining W.contents self.new) result }
        ensures off { (told_device self.old).powered ≡ false → driver_of self.new ≡ driver_of self.old }
    {
        if !self.mirror.is_powered() {
            return Err(DevFault::PowerCut);
        }
        let done = self.driver.carry_out(PROGRAM, page, bytes);
        self.mirror.program(page, bytes, done);
        done
    }

    fn erase(&mut self, block: u32) -> Result<(), DevFault>
        requires { block < (told_device self.old).geometry.blocks }

        // What is erased, and what is shown.
        ensures erases { Erases (told_device self.old) block (told_device self.new) result }
        ensures shown { (p : ℕ) → block_of (told_device self.old) p ≡ block
            → (told_device self.new).pages p ≡ erased_after result ((told_device self.old).pages p) }

        // What the driver is told, and what it answers.
        ensures told { (told_device self.old).powered ≡ true
            → Tells (told_streams R.remaining W.contents self.old) (erase_order block) (told_streams R.remaining W.contents self.new) result }
        ensures off { (told_device self.old).powered ≡ false → driver_of self.new ≡ driver_of self.old }
    {
        if !self.mirror.is_powered() {
            return Err(DevFault::PowerCut);
        }
        let done = self.driver.carry_out(ERASE, block, &[]);
        self.mirror.erase(block, done);
        done
    }

    fn power_on(&mut self)
        ensures power { told_device self.new ≡ record (told_device self.old) { powered = true } }
        ensures driver { driver_of self.new ≡ driver_of self.old }
    {
        self.mirror.power_on();
    }
}
