//! A part in place in a flat file.
ghost use Rattle.std.specs.Prelude.{◌≡◌};
ghost use Rattle.flash_model.specs.Geometry.{IsGeometry};

use crate::places::{data_place, state_place};
use flash_model::Geometry;
use fs_types::ANCHORS;
use host_interface::Backing;
use std::io;
use thiserror::Error;

/// The first bytes of a part in a file.
pub(crate) const MAGIC: [u8; 8] = *b"UFFSPART";

/// The state of a page with data.
const DATA: [u8; 1] = [1];

/// The states of as many erased pages as a block may have.
const ERASED: [u8; 1024] = [0; 1024];

/// Why there is no part.
#[derive(Clone, Copy, Debug, PartialEq, Eq, Error)]
pub enum PartFault {
    /// The head could not be read.
    #[error("the head cannot be read")]
    Read,
    /// This page, or its state, could not be read.
    #[error("page {0} cannot be read")]
    Page(u32),
    /// One of the first eight bytes is not that of a part.
    #[error("NotPart")]
    NotPart,
    /// The sizes are not lawful.
    #[error("BadGeometry")]
    BadGeometry,
    /// The state of a page is none of 0, 1 and 2.
    #[error("BadState")]
    BadState,
    /// Memory could not be had.
    #[error("out of memory")]
    Memory,
}

impl From<io::Error> for PartFault {
    ghost use Rattle.std.specs.Prelude.{◌≡◌};
    ghost use Rattle.part_file.specs.declared.part_file.PartFault.TheVariants.{Read};

    ghost from_gives = { λ _ fault. fault ≡ Read };

    fn from(_error: io::Error) -> PartFault {
        PartFault::Read
    }
}

/// A part in place in a flat file: a head with its sizes, a byte of state a page, and the pages.
///
/// Where a call fails, what the file holds of its operation is not known, and no other may follow. Its head
/// and all other pages are as before.
#[derive(Drop)]
pub struct PartFile<B> {
    backing: B,
    sizes: Geometry,
    ghost lawful: { IsGeometry sizes },
}

impl<B> PartFile<B> {
    ghost use Rattle.std.specs.Prelude.{◌≡◌};
    ghost use Rattle.flash_model.specs.Geometry.{IsGeometry};
    ghost use Rattle.part_file.specs.Parts.{sizes_of, backing_of};

    /// A part of these sizes, which its head tells.
    pub(crate) fn new(backing: B, sizes: Geometry) -> PartFile<B>
        requires { IsGeometry sizes }
        ensures { (sizes_of result ≡ sizes) × (backing_of result ≡ backing) }
    {
        PartFile { backing, sizes }
    }
}

impl<B: Backing> PartFile<B> {
    ghost use Rattle.std.specs.Prelude.{◌≡◌, ◌<◌, ◌/◌, OnOk, OnErr, length};
    ghost use Rattle.flash_model.specs.Geometry.{page_count};
    ghost use Rattle.part_file.specs.Layout as spec;
    ghost use Rattle.part_file.specs.Parts.{sizes_of, backing_of};
    ghost use Rattle.host_interface.specs.Steps.{Does, Becomes};
    ghost use Rattle.part_file.specs.Pages.{KeepsOtherPages};

    /// Programs a page, which is erased: its bytes, and then its state. On an anchor there is a barrier
    /// after each.
    pub fn program(&mut self, page: u32, bytes: &[u8]) -> io::Result<()>
        requires in_range { page < page_count (sizes_of self.old) }
        requires whole { length bytes.now ≡ (sizes_of self.old).page }
        ensures done { OnOk result (Does (B.steps (backing_of self.old)) (spec.program_steps (sizes_of self.old) page bytes.now) (B.steps (backing_of self.new))) }
        ensures bytes { OnOk result (Becomes (B.held (backing_of self.old)) (spec.program_steps (sizes_of self.old) page bytes.now) (B.held (backing_of self.new))) }
        ensures failed { OnErr result (KeepsOtherPages (sizes_of self.old) (λ q. q ≡ page) (B.held (backing_of self.old)) (B.held (backing_of self.new))) }
        ensures sizes { sizes_of self.new ≡ sizes_of self.old }
    {
        let block = page / self.sizes.pages;
        let place = data_place(self.sizes, page);
        self.backing.write_at(place, bytes)?;
        self.settle(block)?;
        self.backing.write_at(state_place(page), &DATA)?;
        self.settle(block)
    }

    /// Erases a block: the states of its pages. On an anchor there is a barrier before and after.
    pub fn erase(&mut self, block: u32) -> io::Result<()>
        requires { block < (sizes_of self.old).blocks }
        ensures done { OnOk result (Does (B.steps (backing_of self.old)) (spec.erase_steps (sizes_of self.old) block) (B.steps (backing_of self.new))) }
        ensures bytes { OnOk result (Becomes (B.held (backing_of self.old)) (spec.erase_steps (sizes_of self.old) block) (B.held (backing_of self.new))) }
        ensures failed { OnErr result (KeepsOtherPages (sizes_of self.old) (λ q. q / (sizes_of self.old).pages ≡ block) (B.held (backing_of self.old)) (B.held (backing_of self.new))) }
        ensures sizes { sizes_of self.new ≡ sizes_of self.old }
    {
        let states = &ERASED[..self.sizes.pages as usize];
        let place = state_place(self.sizes.page_number(block, 0));
        self.settle(block)?;
        self.backing.write_at(place, states)?;
        self.settle(block)
    }

    /// On an anchor, brings what was written to the medium.
    fn settle(&mut self, block: u32) -> io::Result<()>
        ensures done { OnOk result (Does (B.steps (backing_of self.old)) (spec.barrier_at block) (B.steps (backing_of self.new))) }
        ensures same { B.held (backing_of self.new) ≡ B.held (backing_of self.old) }
        ensures sizes { sizes_of self.new ≡ sizes_of self.old }
    {
        if block < ANCHORS {
            self.backing.barrier()
        } else {
            Ok(())
        }
    }
}
