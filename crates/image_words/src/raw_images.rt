//! Bytes of a serial NOR part that are made of an image, and images made of them.
ghost use Rattle.std.specs.Prelude.{◌≡◌, IfOk, IfErr, OnOk};
ghost use Rattle.flash_simulation.specs.Simulation.{device_of};
ghost use Rattle.host_interface.specs.Files.{KeepsOthers};
ghost use Rattle.raw_part.specs.Raws.{IsRawOf};
ghost use Rattle.image_words.specs.RawImages.{RawCause, RawEnds, FromRawEnds, IsRawFile, RawFileCause, WritesImage};

use crate::raw_sizes::{RawSizes, flash_of_taken, layout_asked};
use flash_simulation::SimFlash;
use fs_types::Fault;
use host_interface::{FileFault, ImageFiles};
use image_jobs::{Failure, claim, load, save_image, spare, write_image};
use raw_part::raw_of;
use std::alloc::Global;

/// Makes the bytes of a serial NOR part of what an image holds, in the place of what has a name, which is
/// claimed then. Refused at once where that takes the image away.
pub fn image_to_raw<F: ImageFiles>(
    files: &mut F,
    alloc: Global,
    image: &str,
    name: &str,
) -> Result<(), Failure>
    ensures ends { RawEnds image.now name.now (F.held files.old) (F.held files.new) result }
    ensures synced { OnOk result (F.synced files.new name.now) }
    ensures others { KeepsOthers name.now (F.held files.old) (F.held files.new) }
{
    match spare(files, alloc, name, image) {
        Ok(()) => {}
        Err(failure) => return Err(failure),
    }
    let flash = match load(files, alloc, image) {
        Ok(flash) => flash,
        Err(failure) => return Err(failure),
    };
    let bytes = match raw_bytes(alloc, &flash) {
        Ok(bytes) => bytes,
        Err(failure) => return Err(failure),
    };
    match claim(files, alloc, name) {
        Ok(()) => write_image(files, alloc, name, &bytes),
        Err(failure) => Err(failure),
    }
}

/// The bytes of the part on which a flash stands.
fn raw_bytes(alloc: Global, flash: &SimFlash) -> Result<Vec<u8>, Failure>
    ensures ok { IfOk result (λ bytes. IsRawOf (device_of flash.now) bytes.items) }
    ensures err { IfErr result (RawCause (device_of flash.now)) }
{
    match raw_of(alloc, flash) {
        Ok(bytes) => Ok(bytes),
        Err(fault) => Err(Failure::of_system(fault)),
    }
}

/// Makes an image of the part of which a file has the bytes, in the place of what has a name, which is
/// claimed then. Refused at once where that takes the file away. Pages of 256 bytes are to be asked for,
/// and blocks of as many pages as those of a layout have. Where a number of blocks is asked for the first
/// ones are taken, and what stands after them is not looked at.
pub fn raw_to_image<F: ImageFiles>(
    files: &mut F,
    alloc: Global,
    raw: &str,
    name: &str,
    sizes: RawSizes,
) -> Result<(), Failure>
    ensures ends { FromRawEnds sizes raw.now name.now (F.held files.old) (F.held files.new) result }
    ensures synced { OnOk result (F.synced files.new name.now) }
    ensures others { KeepsOthers name.now (F.held files.old) (F.held files.new) }
{
    match spare(files, alloc, name, raw) {
        Ok(()) => {}
        Err(failure) => return Err(failure),
    }
    let flash = match load_raw(files, alloc, raw, sizes) {
        Ok(flash) => flash,
        Err(failure) => return Err(failure),
    };
    match claim(files, alloc, name) {
        Ok(()) => save_flash(files, alloc, name, &flash),
        Err(failure) => Err(failure),
    }
}

/// The flash of the part of which a file has the bytes, as far as they are taken.
fn load_raw<F: ImageFiles>(
    files: &F,
    alloc: Global,
    name: &str,
    sizes: RawSizes,
) -> Result<SimFlash, Failure>
    ensures ok { IfOk result (λ flash. IsRawFile sizes (F.held files.now name.now) (device_of flash)) }
    ensures err { IfErr result (RawFileCause sizes (F.held files.now name.now)) }
{
    let Some(layout) = layout_asked(sizes) else {
        return Err(Failure::System(Fault::BadGeometry));
    };
    let bytes = match files.read(alloc, name) {
        Ok(bytes) => bytes,
        Err(FileFault::Memory) => return Err(Failure::Memory),
        Err(_) => return Err(Failure::CannotRead),
    };
    flash_of_taken(alloc, &bytes, layout, sizes.blocks)
}

/// Puts the image of a flash in the place of what has a claimed name.
fn save_flash<F: ImageFiles>(
    files: &mut F,
    alloc: Global,
    name: &str,
    flash: &SimFlash,
) -> Result<(), Failure>
    requires { F.claims files.old name.now }
    ensures ends { WritesImage (device_of flash.now) (F.held files.old name.now) (F.held files.new name.now) result }
    ensures synced { OnOk result (F.synced files.new name.now) }
    ensures others { KeepsOthers name.now (F.held files.old) (F.held files.new) }
{
    save_image(files, alloc, name, flash)
}
