//! A flash over a serial NOR part.
ghost use Rattle.std.specs.Prelude.{◌≡◌};
ghost use Rattle.flash_model.specs.Geometry.{IsGeometry};
ghost use Rattle.nor_part.specs.Cleaned.{AreClean};
ghost use Rattle.nor_part.specs.Layout.{part_sizes, blocks_of};
ghost use Rattle.nor_part.specs.States.{block_total, cleaned_of};

use crate::flash_state::FlashState;
use crate::memory_nor::{MemoryNor, Trouble};
use crate::nor::Nor;
use crate::paging::{erase_block, read_page, write_page};
use crate::sizes::sizes;
use flash_model::{DevFault, Flash, Geometry, PageState};
use fs_types::Fault;
use std::alloc::Global;

/// A flash over a serial NOR part: pages of 256 bytes, 16 in a block of two sectors, the first for
/// data and the second for marks.
///
/// The erase of a block that it erased itself, as was answered, and that was not programmed since is
/// answered at once: both its sectors are blank.
#[derive(Drop)]
pub struct NorFlash<P: Nor> {
    part: P,
    blocks: u32,
    state: FlashState,
    ghost lawful: { IsGeometry (part_sizes blocks) },
    ghost all_blocks: { block_total state ≡ blocks },
    ghost all_pages: { blocks_of (P.count part) ≡ blocks },
    ghost all_clean: { AreClean (P.held part) (cleaned_of state) },
}

impl<P: Nor + Drop> NorFlash<P> {
    ghost use Rattle.std.specs.Prelude.{◌↔◌, ◌⊎◌, IfOk, IfErr, Err};
    ghost use Rattle.nor_part.specs.Flashes.{nor_device, nor_of, IsOver};

    /// A flash over a part with power on. Its pages are those that the part holds. `BadGeometry` for a
    /// part of fewer than 16 blocks or more than 16,384, else `NoMemory`.
    pub fn new(alloc: Global, part: P) -> Result<NorFlash<P>, Fault>
        ensures over { IfOk result (λ flash. IsOver (P.held part) (P.count part) (nor_device flash)) }
        ensures part { IfOk result (λ flash. nor_of flash ≡ part) }
        ensures geometry { (result ≡ Err Fault.BadGeometry) ↔ ¬ IsGeometry (part_sizes (blocks_of (P.count part))) }
        ensures errors { IfErr result (λ fault. (fault ≡ Fault.BadGeometry) ⊎ (fault ≡ Fault.NoMemory)) }
    {
        let count = part.page_count() / 32;
        if count > 65_536 {
            return Err(Fault::BadGeometry);
        }
        let blocks = count as u32;
        if !sizes(blocks).is_lawful() {
            return Err(Fault::BadGeometry);
        }
        Ok(NorFlash {
            part,
            blocks,
            state: FlashState::new(alloc, blocks)?,
        })
    }

    /// Gives the part back.
    pub fn into_part(self) -> P
        ensures { result ≡ nor_of self }
    {
        self.part
    }

    /// A flash made anew over the part of this one, as after a restart: it shows the same pages.
    pub fn reopen(self, alloc: Global) -> Result<NorFlash<P>, Fault>
        ensures pages { IfOk result (λ again. (nor_device again).pages ≡ (nor_device self).pages) }
        ensures geometry { IfOk result (λ again. (nor_device again).geometry ≡ (nor_device self).geometry) }
        ensures errors { IfErr result (λ fault. fault ≡ Fault.NoMemory) }
    {
        NorFlash::new(alloc, self.into_part())
    }
}

impl NorFlash<MemoryNor> {
    ghost use Rattle.std.specs.Prelude.{◌≡◌, true};
    ghost use Rattle.nor_part.specs.Flashes.{nor_device, nor_of};
    ghost use Rattle.nor_part.specs.MemoryParts.{awaits_read};

    /// After so many programs and erases of the part more the next one is befallen by this, in the
    /// place of what was planned before.
    pub fn plan(&mut self, good: u64, trouble: Trouble)
        ensures { nor_device self.new ≡ nor_device self.old }
    {
        self.part.plan(good, trouble);
    }

    /// After so many reads of the part more the next one is refused with this, in the place of what was
    /// planned for a read before.
    pub fn plan_read(&mut self, good: u64, fault: DevFault)
        ensures device { nor_device self.new ≡ nor_device self.old }
        ensures awaits { awaits_read (nor_of self.new) ≡ true }
    {
        self.part.plan_read(good, fault);
    }

    /// Whether a read of the part is still to be refused by plan.
    pub fn awaits_read(&self) -> bool
        ensures { result ≡ awaits_read (nor_of self.now) }
    {
        self.part.awaits_read()
    }

    /// Takes back what was planned.
    pub fn forget_plan(&mut self)
        ensures { nor_device self.new ≡ nor_device self.old }
    {
        self.part.forget_plan();
    }
}

impl<P: Nor + Drop> Flash for NorFlash<P> {
    ghost use Rattle.std.specs.Prelude.{◌≡◌, ◌<◌, true, OnOk};
    ghost use Rattle.flash_model.specs.Device.{Erases};
    ghost use Rattle.nor_part.specs.Flashes.{nor_device, nor_of};
    ghost use Rattle.nor_part.specs.States.{is_cleaned};
    ghost use Rattle.nor_part.specs.WholePages.{whole_part_pages_of};

    ghost device = { nor_device };

    ghost whole_pages = { λ flash p bytes same. whole_part_pages_of (P.held flash.part) (P.whole flash.part) p bytes same };

    fn geometry(&self) -> Geometry {
        sizes(self.blocks)
    }

    fn read(&mut self, page: u32, buffer: &mut [u8]) -> Result<PageState, DevFault> {
        self.state.begin()?;
        let read = read_page(&mut self.part, page as usize, buffer);
        self.state.end_read(read)
    }

    fn program(&mut self, page: u32, bytes: &[u8]) -> Result<(), DevFault> {
        self.state.begin()?;
        self.state.note_cleaned(page / 16, false);
        let done = write_page(&mut self.part, page as usize, bytes);
        self.state.end(page / 16, done)
    }

    fn erase(&mut self, block: u32) -> Result<(), DevFault>
        requires { block < (nor_device self.old).geometry.blocks }
        ensures erases { Erases (nor_device self.old) block (nor_device self.new) result }

        // The part is not asked where the block is known to be clean, and it is once it was erased.
        ensures at_once { is_cleaned self.old.state block ≡ true → nor_of self.new ≡ nor_of self.old }
        ensures known { OnOk result (is_cleaned self.new.state block ≡ true) }
    {
        self.state.begin()?;
        if self.state.is_cleaned(block) {
            return Ok(());
        }
        let done = erase_block(&mut self.part, block as usize);
        self.state.note_cleaned(block, done.is_ok());
        self.state.end(block, done)
    }

    fn power_on(&mut self) {
        self.part.power_on();
        self.state.power_on();
    }
}
