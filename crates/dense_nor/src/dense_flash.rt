//! A flash over a serial NOR part of the dense layout.
ghost use Rattle.std.specs.Prelude.{◌≡◌};
ghost use Rattle.flash_model.specs.Geometry.{IsGeometry};
ghost use Rattle.nor_part.specs.States.{block_total, cleaned_of};
ghost use Rattle.dense_nor.specs.Cleaned.{AreClean};
ghost use Rattle.dense_nor.specs.Layout.{dense_sizes, blocks_of};

use crate::blocks::erase_block;
use crate::dense_layout::DenseLayout;
use crate::dense_nor::DenseNor;
use crate::paging::{read_page, write_page};
use flash_model::{DevFault, Flash, Geometry, PageState};
use fs_types::Fault;
use nor_part::{FlashState, MemoryNor, Trouble};
use std::alloc::Global;

/// A flash over a serial NOR part: pages of 256 bytes, and blocks of 2 to 64 sectors, whose last pages have
/// the marks of the others.
///
/// The erase of a block that it erased itself, as was answered, and that was not programmed since is
/// answered at once: all its sectors are blank.
#[derive(Drop)]
pub struct DenseNorFlash<P: DenseNor> {
    part: P,
    layout: DenseLayout,
    blocks: u32,
    state: FlashState,
    ghost lawful: { IsGeometry (dense_sizes layout.sectors blocks) },
    ghost all_blocks: { block_total state ≡ blocks },
    ghost all_pages: { blocks_of layout.sectors (P.count part) ≡ blocks },
    ghost all_clean: { AreClean layout.sectors (P.held part) (cleaned_of state) },
}

impl<P: DenseNor + Drop> DenseNorFlash<P> {
    ghost use Rattle.std.specs.Prelude.{◌↔◌, ◌⊎◌, IfOk, IfErr, Err};
    ghost use Rattle.dense_nor.specs.Flashes.{dense_device, dense_of, sectors_of, IsOver};

    /// A flash over a part with power on. Its pages are those that the part holds. `BadGeometry` for a part
    /// of fewer than 16 blocks, or of more than a flash may have, else `NoMemory`.
    pub fn new(alloc: Global, part: P, layout: DenseLayout) -> Result<DenseNorFlash<P>, Fault>
        ensures over { IfOk result (λ flash. IsOver layout.sectors (P.held part) (P.count part) (dense_device flash)) }
        ensures part { IfOk result (λ flash. dense_of flash ≡ part) }
        ensures sectors { IfOk result (λ flash. sectors_of flash ≡ layout.sectors) }
        ensures geometry { (result ≡ Err Fault.BadGeometry) ↔ ¬ IsGeometry (dense_sizes layout.sectors (blocks_of layout.sectors (P.count part))) }
        ensures errors { IfErr result (λ fault. (fault ≡ Fault.BadGeometry) ⊎ (fault ≡ Fault.NoMemory)) }
    {
        let count = layout.blocks_of(part.page_count());
        if count > 65_536 {
            return Err(Fault::BadGeometry);
        }
        let blocks = count as u32;
        if !layout.sizes(blocks).is_lawful() {
            return Err(Fault::BadGeometry);
        }
        Ok(DenseNorFlash {
            part,
            layout,
            blocks,
            state: FlashState::new(alloc, blocks)?,
        })
    }

    /// Gives the part back.
    pub fn into_part(self) -> P
        ensures { result ≡ dense_of self }
    {
        self.part
    }

    /// A flash made anew over the part of this one, as after a restart: it shows the same pages.
    pub fn reopen(self, alloc: Global) -> Result<DenseNorFlash<P>, Fault>
        ensures pages { IfOk result (λ again. (dense_device again).pages ≡ (dense_device self).pages) }
        ensures geometry { IfOk result (λ again. (dense_device again).geometry ≡ (dense_device self).geometry) }
        ensures errors { IfErr result (λ fault. fault ≡ Fault.NoMemory) }
    {
        let layout = self.layout;
        DenseNorFlash::new(alloc, self.into_part(), layout)
    }
}

impl DenseNorFlash<MemoryNor> {
    ghost use Rattle.std.specs.Prelude.{◌≡◌, true};
    ghost use Rattle.nor_part.specs.MemoryParts.{awaits_read};
    ghost use Rattle.dense_nor.specs.Flashes.{dense_device, dense_of};

    /// After so many programs and erases of the part more the next one is befallen by this, in the place of
    /// what was planned before.
    pub fn plan(&mut self, good: u64, trouble: Trouble)
        ensures { dense_device self.new ≡ dense_device self.old }
    {
        self.part.plan(good, trouble);
    }

    /// After so many reads of the part more the next one is refused with this, in the place of what was
    /// planned for a read before.
    pub fn plan_read(&mut self, good: u64, fault: DevFault)
        ensures device { dense_device self.new ≡ dense_device self.old }
        ensures awaits { awaits_read (dense_of self.new) ≡ true }
    {
        self.part.plan_read(good, fault);
    }

    /// Whether a read of the part is still to be refused by plan.
    pub fn awaits_read(&self) -> bool
        ensures { result ≡ awaits_read (dense_of self.now) }
    {
        self.part.awaits_read()
    }

    /// Takes back what was planned.
    pub fn forget_plan(&mut self)
        ensures { dense_device self.new ≡ dense_device self.old }
    {
        self.part.forget_plan();
    }
}

impl<P: DenseNor + Drop> Flash for DenseNorFlash<P> {
    ghost use Rattle.std.specs.Prelude.{◌≡◌, ◌<◌, true, OnOk};
    ghost use Rattle.flash_model.specs.Device.{Erases};
    ghost use Rattle.nor_part.specs.States.{is_cleaned};
    ghost use Rattle.dense_nor.specs.Flashes.{dense_device, dense_of};
    ghost use Rattle.dense_nor.specs.WholePages.{whole_pages_of};

    ghost device = { dense_device };

    ghost whole_pages = { λ flash p bytes same. whole_pages_of flash.layout.sectors (P.held flash.part) (P.whole flash.part) p bytes same };

    fn geometry(&self) -> Geometry {
        self.layout.sizes(self.blocks)
    }

    fn read(&mut self, page: u32, buffer: &mut [u8]) -> Result<PageState, DevFault> {
        self.state.begin()?;
        let read = read_page(&mut self.part, self.layout, page as usize, buffer);
        self.state.end_read(read)
    }

    fn program(&mut self, page: u32, bytes: &[u8]) -> Result<(), DevFault> {
        self.state.begin()?;
        let block = page / self.layout.data_pages() as u32;
        self.state.note_cleaned(block, false);
        let done = write_page(&mut self.part, self.layout, page as usize, bytes);
        self.state.end(block, done)
    }

    fn erase(&mut self, block: u32) -> Result<(), DevFault>
        requires { block < (dense_device self.old).geometry.blocks }
        ensures erases { Erases (dense_device self.old) block (dense_device self.new) result }

        // The part is not asked where the block is known to be clean, and it is once it was erased.
        ensures at_once { is_cleaned self.old.state block ≡ true → dense_of self.new ≡ dense_of self.old }
        ensures known { OnOk result (is_cleaned self.new.state block ≡ true) }
    {
        self.state.begin()?;
        if self.state.is_cleaned(block) {
            return Ok(());
        }
        let done = erase_block(&mut self.part, self.layout, block as usize);
        self.state.note_cleaned(block, done.is_ok());
        self.state.end(block, done)
    }

    fn power_on(&mut self) {
        self.part.power_on();
        self.state.power_on();
    }
}
