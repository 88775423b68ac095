//! What stands at a path of an image becomes a file or a folder of the host.
ghost use Rattle.std.specs.Prelude.{◌≡◌};
ghost use Rattle.image_words.specs.ImageGets.{GetEnds, SaveEnds};
ghost use Rattle.flash_simulation.specs.Simulation.{device_of};

use crate::path_copies::{Copied, copy_out};
use flash_simulation::SimFlash;
use fs_types::{Path, View};
use host_interface::Folders;
use image_jobs::{Failure, load, path_of_word, save_bytes, spare, view_of_word};
use std::alloc::Global;

/// Puts the file at a path of an image into a file of the host, which is claimed then, or the directory
/// there into a folder, which is made whole or not at all. Refused at once where that takes the image away.
pub fn get_out<F: Folders>(
    files: &mut F,
    alloc: Global,
    name: &str,
    path: &str,
    view: Option<&str>,
    file: &str,
) -> Result<(), Failure>
    ensures { GetEnds path.now view.entry name.now file.now (F.made files.new file.now) (F.held files.old) (F.held files.new) result }
{
    match spare(files, alloc, file, name) {
        Ok(()) => {}
        Err(failure) => return Err(failure),
    }
    let path = match path_of_word(alloc, path) {
        Ok(path) => path,
        Err(failure) => return Err(failure),
    };
    let view = match view_of_word(alloc, view) {
        Ok(view) => view,
        Err(failure) => return Err(failure),
    };
    match load(files, alloc, name) {
        Ok(mut flash) => copy_to(files, alloc, &mut flash, &view, &path, file),
        Err(failure) => Err(failure),
    }
}

/// Puts what stands at a path of a flash into a file or a folder of the host.
fn copy_to<F: Folders>(
    files: &mut F,
    alloc: Global,
    flash: &mut SimFlash,
    view: &View,
    path: &Path,
    file: &str,
) -> Result<(), Failure>
    ensures { SaveEnds (device_of flash.old) view.now path.now file.now (F.made files.new file.now) (F.held files.old) (F.held files.new) result }
{
    match copy_out(alloc, flash, view, path, files, file) {
        Ok(copied) => match copied {
            Copied::File(bytes) => save_bytes(files, alloc, file, bytes.as_slice()),
            Copied::Folder => Ok(()),
        },
        Err(failure) => Err(failure),
    }
}
