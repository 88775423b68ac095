//! Parts in flat files that are made, and images made of them.
ghost use Rattle.std.specs.Prelude.{◌≡◌, false, OnOk};
ghost use Rattle.flash_simulation.specs.Simulation.{device_of};
ghost use Rattle.host_interface.specs.Files.{KeepsOthers};
ghost use Rattle.image_words.specs.PartFiles.{WritesPart, WritesImage, FormatPartEnds, ToPartEnds, FromPartEnds};

use crate::part_loads::load_part;
use flash_model::Geometry;
use flash_simulation::SimFlash;
use host_interface::{ImageFiles, Parts};
use image_jobs::{Failure, claim, formatted_flash, load, save_image, spare, write_image};
use part_file::spelled_part;
use std::alloc::Global;

/// Makes a part of a flash of these sizes with an empty file system that keeps so many versions, in the
/// place of what has the name, which is claimed first.
pub fn format_part<F: ImageFiles>(
    files: &mut F,
    alloc: Global,
    name: &str,
    sizes: Geometry,
    history: u32,
) -> Result<(), Failure>
    ensures ends { FormatPartEnds sizes history (F.held files.old name.now) (F.held files.new name.now) result }
    ensures synced { OnOk result (F.synced files.new name.now) }
    ensures others { KeepsOthers name.now (F.held files.old) (F.held files.new) }
{
    match claim(files, alloc, name) {
        Ok(()) => {}
        Err(failure) => return Err(failure),
    }
    match formatted_flash(alloc, sizes, history) {
        Ok(flash) => write_part(files, alloc, name, &flash),
        Err(failure) => Err(failure),
    }
}

/// Makes a part of what an image holds, in the place of what has a name, which is claimed then. Refused at
/// once where that takes the image away.
pub fn image_to_part<F: ImageFiles>(
    files: &mut F,
    alloc: Global,
    image: &str,
    name: &str,
) -> Result<(), Failure>
    ensures ends { ToPartEnds image.now name.now (F.held files.old) (F.held files.new) result }
    ensures synced { OnOk result (F.synced files.new name.now) }
    ensures others { KeepsOthers name.now (F.held files.old) (F.held files.new) }
{
    match spare(files, alloc, name, image) {
        Ok(()) => {}
        Err(failure) => return Err(failure),
    }
    let flash = match load(files, alloc, image) {
        Ok(flash) => flash,
        Err(failure) => return Err(failure),
    };
    match claim(files, alloc, name) {
        Ok(()) => write_part(files, alloc, name, &flash),
        Err(failure) => Err(failure),
    }
}

/// Makes an image of what a part holds, in the place of what has a name, which is claimed then. Refused at
/// once where that takes the part away. The part is claimed while it is read.
pub fn part_to_image<F: ImageFiles + Parts>(
    files: &mut F,
    alloc: Global,
    part: &str,
    name: &str,
) -> Result<(), Failure>
    ensures ends { FromPartEnds part.now name.now (F.placed files.old part.now) (F.held files.old) (F.held files.new) result }
    ensures synced { OnOk result (F.synced files.new name.now) }
    ensures others { KeepsOthers name.now (F.held files.old) (F.held files.new) }
{
    match spare(files, alloc, name, part) {
        Ok(()) => {}
        Err(failure) => return Err(failure),
    }
    let flash = match load_part(files, alloc, part) {
        Ok(flash) => flash,
        Err(failure) => return Err(failure),
    };
    match claim(files, alloc, name) {
        Ok(()) => save_flash(files, alloc, name, &flash),
        Err(failure) => Err(failure),
    }
}

/// Puts the part of a flash in the place of what has a claimed name.
fn write_part<F: ImageFiles>(
    files: &mut F,
    alloc: Global,
    name: &str,
    flash: &SimFlash,
) -> Result<(), Failure>
    requires { F.claims files.old name.now }
    ensures ends { WritesPart (device_of flash.now) (F.held files.old name.now) (F.held files.new name.now) result }
    ensures synced { OnOk result (F.synced files.new name.now) }
    ensures others { KeepsOthers name.now (F.held files.old) (F.held files.new) }
{
    match spelled_part(alloc, flash) {
        Ok(bytes) => write_image(files, alloc, name, &bytes),
        Err(_) => Err(Failure::Memory),
    }
}

/// Puts the image of a flash in the place of what has a claimed name.
fn save_flash<F: ImageFiles>(
    files: &mut F,
    alloc: Global,
    name: &str,
    flash: &SimFlash,
) -> Result<(), Failure>
    requires { F.claims files.old name.now }
    ensures ends { WritesImage (device_of flash.now) (F.held files.old name.now) (F.held files.new name.now) result }
    ensures synced { OnOk result (F.synced files.new name.now) }
    ensures others { KeepsOthers name.now (F.held files.old) (F.held files.new) }
{
    save_image(files, alloc, name, flash)
}
