//! What programs and erases a part in a flat file.
use crate::part_file::PartFile;
use flash_model::DevFault;
use host_interface::Backing;

/// A part in a flat file, until an operation on it fails: from then on it has no power, and nothing is
/// written any more, since what the file holds is not known.
#[derive(Drop)]
pub(crate) struct FileDriver<B> {
    part: PartFile<B>,
    is_lost: bool,
}

impl<B> FileDriver<B> {
    ghost use Rattle.std.specs.Prelude.{◌≡◌, false};
    ghost use Rattle.part_file.specs.Parts.{driven_part, is_lost};

    pub(crate) fn new(part: PartFile<B>) -> FileDriver<B>
        ensures part { driven_part result ≡ part }
        ensures lost { is_lost result ≡ false }
    {
        FileDriver {
            part,
            is_lost: false,
        }
    }

    pub(crate) fn is_lost(&self) -> bool
        ensures { result ≡ is_lost self.now }
    {
        self.is_lost
    }
}

impl<B: Backing> FileDriver<B> {
    ghost use Rattle.std.specs.Prelude.{◌≡◌, ◌<◌, ◌/◌, IfErr, OnOk, OnErr, Err, true, false, length};
    ghost use Rattle.flash_model.specs.Geometry.{page_count};
    ghost use Rattle.part_file.specs.Layout.{program_steps, erase_steps};
    ghost use Rattle.part_file.specs.Pages.{KeepsOtherPages};
    ghost use Rattle.part_file.specs.Parts.{sizes_of, backing_of, driven_part, is_lost};
    ghost use Rattle.host_interface.specs.Steps.{Does, Becomes};

    /// Programs a page, which is erased.
    pub(crate) fn program(&mut self, page: u32, bytes: &[u8]) -> Result<(), DevFault>
        requires in_range { page < page_count (sizes_of (driven_part self.old)) }
        requires whole { length bytes.now ≡ (sizes_of (driven_part self.old)).page }
        // What is written.
        ensures done { OnOk result (Does (B.steps (backing_of (driven_part self.old))) (program_steps (sizes_of (driven_part self.old)) page bytes.now) (B.steps (backing_of (driven_part self.new)))) }
        ensures bytes { OnOk result (Becomes (B.held (backing_of (driven_part self.old))) (program_steps (sizes_of (driven_part self.old)) page bytes.now) (B.held (backing_of (driven_part self.new)))) }
        ensures failed { OnErr result (KeepsOtherPages (sizes_of (driven_part self.old)) (λ q. q ≡ page) (B.held (backing_of (driven_part self.old))) (B.held (backing_of (driven_part self.new)))) }
        // Where it is lost.
        ensures live { OnOk result (is_lost self.new ≡ false) }
        ensures cut { IfErr result (λ fault. fault ≡ DevFault.PowerCut) }
        ensures lost { OnErr result (is_lost self.new ≡ true) }
        ensures same { is_lost self.old ≡ true → (self.new ≡ self.old) × (result ≡ Err DevFault.PowerCut) }
        ensures sizes { sizes_of (driven_part self.new) ≡ sizes_of (driven_part self.old) }
    {
        if self.is_lost {
            return Err(DevFault::PowerCut);
        }
        match self.part.program(page, bytes) {
            Ok(()) => Ok(()),
            Err(_) => {
                self.is_lost = true;
                Err(DevFault::PowerCut)
            }
        }
    }

    /// Erases a block.
    pub(crate) fn erase(&mut self, block: u32) -> Result<(), DevFault>
        requires { block < (sizes_of (driven_part self.old)).blocks }
        // What is written.
        ensures done { OnOk result (Does (B.steps (backing_of (driven_part self.old))) (erase_steps (sizes_of (driven_part self.old)) block) (B.steps (backing_of (driven_part self.new)))) }
        ensures bytes { OnOk result (Becomes (B.held (backing_of (driven_part self.old))) (erase_steps (sizes_of (driven_part self.old)) block) (B.held (backing_of (driven_part self.new)))) }
        ensures failed { OnErr result (KeepsOtherPages (sizes_of (driven_part self.old)) (λ q. q / (sizes_of (driven_part self.old)).pages ≡ block) (B.held (backing_of (driven_part self.old))) (B.held (backing_of (driven_part self.new)))) }
        // Where it is lost.
        ensures live { OnOk result (is_lost self.new ≡ false) }
        ensures cut { IfErr result (λ fault. fault ≡ DevFault.PowerCut) }
        ensures lost { OnErr result (is_lost self.new ≡ true) }
        ensures same { is_lost self.old ≡ true → (self.new ≡ self.old) × (result ≡ Err DevFault.PowerCut) }
        ensures sizes { sizes_of (driven_part self.new) ≡ sizes_of (driven_part self.old) }
    {
        if self.is_lost {
            return Err(DevFault::PowerCut);
        }
        match self.part.erase(block) {
            Ok(()) => Ok(()),
            Err(_) => {
                self.is_lost = true;
                Err(DevFault::PowerCut)
            }
        }
    }
}
