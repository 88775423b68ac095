//! The flash of a part in a flat file.
ghost use Rattle.std.specs.Prelude.{◌≡◌, IfOk, IfErr, IfSome};
ghost use Rattle.flash_simulation.specs.Simulation.{device_of};
ghost use Rattle.part_file.specs.Reading.{IsPartFlash, IsPartFault};
ghost use Rattle.image_words.specs.PartFlashes.{PartCause};

use flash_simulation::SimFlash;
use host_interface::{FileFault, Parts};
use image_jobs::Failure;
use part_file::{PartFault, flash_of_part};
use std::alloc::Global;

/// The flash of the part in the file of a name, which is claimed meanwhile. Nothing is written.
pub(crate) fn load_part<F: Parts>(files: &F, alloc: Global, name: &str) -> Result<SimFlash, Failure>
    ensures ok { IfOk result (λ flash. IsPartFlash (F.placed files.now name.now) (device_of flash)) }
    ensures err { IfErr result (PartCause (F.placed files.now name.now)) }
{
    match open_flash(files, alloc, name) {
        Ok(flash) => Ok(flash),
        Err(fault) => Err(Failure::of_part(fault)),
    }
}

/// The flash of the part in the file of a name. One that is not opened is not read.
fn open_flash<F: Parts>(files: &F, alloc: Global, name: &str) -> Result<SimFlash, PartFault>
    ensures ok { IfOk result (λ flash. IsPartFlash (F.placed files.now name.now) (device_of flash)) }
    ensures err { IfErr result (λ fault. IfSome (F.placed files.now name.now) (IsPartFault fault)) }
{
    match files.open_part(alloc, name) {
        Ok(mut backing) => flash_of_part(alloc, &mut backing),
        Err(FileFault::Memory) => Err(PartFault::Memory),
        Err(_) => Err(PartFault::Read),
    }
}
