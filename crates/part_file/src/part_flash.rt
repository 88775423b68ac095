//! A flash on a part in place in a flat file.
ghost use Rattle.std.specs.Prelude.{◌≡◌};
ghost use Rattle.mirrored_flash.specs.Mirrors.{mirror_device};
ghost use Rattle.part_file.specs.Pages.{HoldsPart};
ghost use Rattle.part_file.specs.Parts.{backing_of, driven_part, sizes_driven, is_lost};
ghost use Rattle.part_file.specs.Props.{held-prop};

use crate::file_driver::FileDriver;
use crate::part_contents::flash_of_part;
use crate::part_file::{PartFault, PartFile};
use flash_model::{DevFault, Flash, Geometry, PageState};
use host_interface::Backing;
use mirrored_flash::Mirror;
use std::alloc::Global;

/// A flash on a part in place in a flat file, of which it keeps a mirror in memory.
///
/// Each program and erase is written to the file before it changes the mirror. Reads ask nothing of the
/// file. Where a write fails, power goes for good: no more is written, after a `power_on` too, since what
/// the file holds is not known from then on. Until then the file is the part of what is shown, whatever
/// was called meanwhile ([`PartFlash::is_lost`]).
#[derive(Drop)]
pub struct PartFlash<B: Backing> {
    mirror: Mirror,
    driver: FileDriver<B>,
    ghost sizes: { sizes_driven driver ≡ (mirror_device mirror).geometry },
    pub ghost held: { HoldsPart (is_lost driver) (B.held (backing_of (driven_part driver))) (mirror_device mirror) } by { held-prop (is_lost driver) (B.held (backing_of (driven_part driver))) (mirror_device mirror) },
}

/// Bytes that give no part, and why.
#[derive(Drop)]
pub struct RefusedPart<B> {
    pub fault: PartFault,
    pub backing: B,
}

impl<B: Backing> PartFlash<B> {
    ghost use Rattle.std.specs.Prelude.{◌≡◌};
    ghost use Rattle.part_file.specs.Flashes.{part_device, driver_of, backing_behind};
    ghost use Rattle.part_file.specs.Pages.{HoldsPart};
    ghost use Rattle.part_file.specs.Parts.{is_lost};

    /// Whether power is lost for good. Where it is not, the file is the part of what is shown.
    pub fn is_lost(&self) -> bool
        ensures lost { result ≡ is_lost (driver_of self.now) }
        ensures held { HoldsPart result (B.held (backing_behind self.now)) (part_device self.now) }
    {
        self.driver.is_lost()
    }
}

impl<B: Backing> PartFlash<B> {
    ghost use Rattle.std.specs.Prelude.{◌≡◌, ℕ, IfOk, IfErr, IfSome, false};
    ghost use Rattle.flash_simulation.specs.Images.{IsFresh};
    ghost use Rattle.part_file.specs.Flashes.{part_device, driver_of, backing_behind};
    ghost use Rattle.part_file.specs.Pages.{IsPart};
    ghost use Rattle.part_file.specs.Parts.{is_lost};
    ghost use Rattle.part_file.specs.Reading.{IsPartFault};

    /// The flash of a part. Power is on, no block is worn, and nothing is written. Bytes that are refused are
    /// given back as they were.
    pub fn start(alloc: Global, mut backing: B) -> Result<PartFlash<B>, RefusedPart<B>>
        // What is shown.
        ensures shown { IfOk result (λ flash. IfSome (B.held backing) (IsPart (part_device flash))) }
        ensures fresh { IfOk result (λ flash. IsFresh (part_device flash)) }
        ensures unworn { IfOk result (λ flash. (b : ℕ) → (part_device flash).worn b ≡ false) }
        ensures live { IfOk result (λ flash. is_lost (driver_of flash) ≡ false) }

        // The bytes are as before.
        ensures same { IfOk result (λ flash. B.held (backing_behind flash) ≡ B.held backing) }
        ensures steps { IfOk result (λ flash. B.steps (backing_behind flash) ≡ B.steps backing) }
        ensures refused { IfErr result (λ refused. (B.held refused.backing ≡ B.held backing) × (B.steps refused.backing ≡ B.steps backing)) }
        ensures err { IfErr result (λ refused. IfSome (B.held backing) (IsPartFault refused.fault)) }
    {
        match flash_of_part(alloc, &mut backing) {
            Ok(shown) => {
                let part = PartFile::new(backing, shown.geometry());
                Ok(PartFlash {
                    mirror: Mirror::new(shown),
                    driver: FileDriver::new(part),
                })
            }
            Err(fault) => Err(RefusedPart { fault, backing }),
        }
    }
}

impl<B: Backing> Flash for PartFlash<B> {
    ghost use Rattle.std.specs.Prelude.{◌≡◌, ℕ, ◌<◌, ◌/◌, true, false, length, Err, OnOk, OnErr};
    ghost use Rattle.flash_model.specs.Geometry.{page_count};
    ghost use Rattle.flash_model.specs.Device.{block_of, erased, Reads, Programs, Erases};
    ghost use Rattle.part_file.specs.Flashes.{part_device, driver_of, backing_behind, whole_part_pages};
    ghost use Rattle.part_file.specs.Layout.{program_steps, erase_steps};
    ghost use Rattle.part_file.specs.Pages.{KeepsPart, KeepsOtherPages};
    ghost use Rattle.part_file.specs.Parts.{is_lost};
    ghost use Rattle.host_interface.specs.Steps.{Does};

    ghost device = { part_device };

    ghost whole_pages = { whole_part_pages };

    fn geometry(&self) -> Geometry {
        self.mirror.geometry()
    }

    fn read(&mut self, page: u32, buffer: &mut [u8]) -> Result<PageState, DevFault>
        requires in_range { page < page_count (part_device self.old).geometry }
        requires whole { length buffer.old ≡ (part_device self.old).geometry.page }
        ensures reads { Reads (part_device self.old) page buffer.old (part_device self.new) buffer.new result }
        ensures driver { driver_of self.new ≡ driver_of self.old }
    {
        self.mirror.read(page, buffer)
    }

    fn program(&mut self, page: u32, bytes: &[u8]) -> Result<(), DevFault>
        requires in_range { page < page_count (part_device self.old).geometry }
        requires whole { length bytes.now ≡ (part_device self.old).geometry.page }
        requires blank { (part_device self.old).pages page ≡ erased }

        ensures programs { Programs (part_device self.old) page bytes.now (part_device self.new) result }

        // What is written, and that the file is the part of what is shown.
        ensures done { OnOk result (Does (B.steps (backing_behind self.old)) (program_steps (part_device self.old).geometry page bytes.now) (B.steps (backing_behind self.new))) }
        ensures kept { OnOk result (KeepsPart (B.held (backing_behind self.old)) (part_device self.old) (B.held (backing_behind self.new)) (part_device self.new)) }

        // Where it fails, the head and all other pages of the file are as before. Once power went, nothing is written.
        ensures failed { OnErr result (KeepsOtherPages (part_device self.old).geometry (λ q. q ≡ page) (B.held (backing_behind self.old)) (B.held (backing_behind self.new))) }
        ensures off { (part_device self.old).powered ≡ false → driver_of self.new ≡ driver_of self.old }
        ensures lost { is_lost (driver_of self.old) ≡ true → (driver_of self.new ≡ driver_of self.old) × (result ≡ Err DevFault.PowerCut) }
    {
        if !self.mirror.is_powered() {
            return Err(DevFault::PowerCut);
        }
        let done = self.driver.program(page, bytes);
        self.mirror.program(page, bytes, done);
        done
    }

    fn erase(&mut self, block: u32) -> Result<(), DevFault>
        requires { block < (part_device self.old).geometry.blocks }

        ensures erases { Erases (part_device self.old) block (part_device self.new) result }

        // What is written, and that the file is the part of what is shown.
        ensures done { OnOk result (Does (B.steps (backing_behind self.old)) (erase_steps (part_device self.old).geometry block) (B.steps (backing_behind self.new))) }
        ensures kept { OnOk result (KeepsPart (B.held (backing_behind self.old)) (part_device self.old) (B.held (backing_behind self.new)) (part_device self.new)) }

        // Where it fails, the head and all pages of other blocks are as before. Once power went, nothing is written.
        ensures failed { OnErr result (KeepsOtherPages (part_device self.old).geometry (λ q. q / (part_device self.old).geometry.pages ≡ block) (B.held (backing_behind self.old)) (B.held (backing_behind self.new))) }
        ensures off { (part_device self.old).powered ≡ false → driver_of self.new ≡ driver_of self.old }
        ensures lost { is_lost (driver_of self.old) ≡ true → (driver_of self.new ≡ driver_of self.old) × (result ≡ Err DevFault.PowerCut) }
    {
        if !self.mirror.is_powered() {
            return Err(DevFault::PowerCut);
        }
        let done = self.driver.erase(block);
        self.mirror.erase(block, done);
        done
    }

    fn power_on(&mut self)
        ensures power { part_device self.new ≡ record (part_device self.old) { powered = true } }
        ensures driver { driver_of self.new ≡ driver_of self.old }
    {
        self.mirror.power_on();
    }
}
