//! The history of an image is copied to a new one.
ghost use Rattle.std.specs.Prelude.{◌≡◌, IfOk, OnOk, IfErr};
ghost use Rattle.flash_simulation.specs.Simulation.{device_of};
ghost use Rattle.mounting.specs.Formats.{IsFormatted};
ghost use Rattle.copies.specs.Copied.{IsCopied};
ghost use Rattle.host_interface.specs.Files.{KeepsOthers};
ghost use Rattle.script_runs.specs.Flashes.{IsMade};
ghost use Rattle.image_jobs.specs.Images.{FormatFailure};
ghost use Rattle.copy_jobs.specs.Copying.{CopyEnds, IsAskedCopy, IsMadeOf, SavesCopy, StopsCopy, UncopiedCause, UnmadeCause};

use crate::adding::with_rest;
use crate::asked_sizes::{AskedSizes, limit_of, of_sizes, sizes_of};
use crate::copy_messages::{tell_dropped, tell_uncopied, tell_unformatted, tell_unmounted};
use crate::failures::of_uncopied;
use crate::source::{Source, source_of};
use copies::copy_history;
use flash_model::{Flash, Geometry};
use flash_simulation::SimFlash;
use host_interface::ImageFiles;
use image_jobs::{Failure, claim, formatted_flash, load, save_image, spare};
use script_runs::mount_as_planned;
use std::alloc::Global;
use std::io::Write;

/// A copy on a flash, and whether all is on it that the image holds.
#[derive(Drop)]
pub(crate) struct MadeCopy {
    pub(crate) flash: SimFlash,
    pub(crate) is_whole: bool,
}

/// Makes an image that holds a copy of what an image holds, in the place of what has a name, which is
/// claimed then: each kept version for which there is room, each checkpoint, and the place of the present
/// version. Refused at once where that takes the image away.
///
/// Where it is to be salvaged a damaged image is copied as far as it is whole: its whole versions and
/// checkpoints, and where the present version is not whole what is left of it, as one more version, which is
/// the present one. Then [`Failure::Differs`] where something is lost, and the copy is made. The versions,
/// checkpoints and paths that are lost are told, the versions for which there is no room, and what is
/// refused.
pub fn copy_image<F: ImageFiles, E: Write>(
    files: &mut F,
    alloc: Global,
    image: &str,
    name: &str,
    asked: AskedSizes,
    salvages: bool,
    err: &mut E,
) -> Result<(), Failure>
    ensures ends { CopyEnds asked salvages image.now name.now (F.held files.old) (F.held files.new) result }
    ensures synced { OnOk result (F.synced files.new name.now) }
    ensures others { KeepsOthers name.now (F.held files.old) (F.held files.new) }
{
    match spare(files, alloc, name, image) {
        Ok(()) => {}
        Err(failure) => return Err(failure),
    }
    let flash = match load(files, alloc, image) {
        Ok(flash) => flash,
        Err(failure) => return Err(failure),
    };
    let copy = match make_copy(alloc, flash, asked, salvages, err) {
        Ok(copy) => copy,
        Err(failure) => return Err(failure),
    };
    match claim(files, alloc, name) {
        Ok(()) => save_copy(files, alloc, name, &copy),
        Err(failure) => Err(failure),
    }
}

/// A copy of what is copied of a flash, and what is left of its present version after it.
fn make_copy<E: Write>(
    alloc: Global,
    flash: SimFlash,
    asked: AskedSizes,
    salvages: bool,
    err: &mut E,
) -> Result<MadeCopy, Failure>
    ensures ok { IfOk result (IsMadeOf asked salvages flash) }
    ensures err { IfErr result (UnmadeCause asked salvages flash) }
{
    let source = match source_of(alloc, flash, asked, salvages, err) {
        Ok(source) => source,
        Err(failure) => return Err(failure),
    };
    let Source {
        flash,
        rest,
        is_whole,
    } = source;
    let mut first = flash;
    let copy = match copy_of(alloc, &mut first, asked, rest.is_some(), err) {
        Ok(copy) => copy,
        Err(failure) => return Err(failure),
    };
    match with_rest(alloc, copy, rest, err) {
        Ok(flash) => Ok(MadeCopy { flash, is_whole }),
        Err(failure) => Err(failure),
    }
}

/// Puts the image of a copy in the place of what has a claimed name, and tells whether something is lost.
fn save_copy<F: ImageFiles>(
    files: &mut F,
    alloc: Global,
    name: &str,
    copy: &MadeCopy,
) -> Result<(), Failure>
    requires { F.claims files.old name.now }
    ensures ends { SavesCopy copy.now (F.held files.old name.now) (F.held files.new name.now) result }
    ensures synced { OnOk result (F.synced files.new name.now) }
    ensures others { KeepsOthers name.now (F.held files.old) (F.held files.new) }
{
    match save_image(files, alloc, name, &copy.flash) {
        Ok(()) => {}
        Err(failure) => return Err(failure),
    }
    if copy.is_whole {
        Ok(())
    } else {
        Err(Failure::Differs)
    }
}

/// A new flash with a copy of what a flash holds. It is told which versions are dropped, with the one for which
/// one more makes no room, where one is to come.
fn copy_of<E: Write>(
    alloc: Global,
    first: &mut SimFlash,
    asked: AskedSizes,
    adds: bool,
    err: &mut E,
) -> Result<SimFlash, Failure>
    ensures ok { IfOk result (IsAskedCopy asked first.old) }
    ensures err { IfErr result (UncopiedCause asked first.old) }
{
    let system = match mount_as_planned(alloc, first) {
        Ok(system) => system,
        Err(fault) => {
            let failure = Failure::of_system(fault);
            tell_unmounted(failure, err);
            return Err(failure);
        }
    };
    let history = &system.state.history;
    let versions = history.versions();
    let limit = limit_of(asked, history.limit());
    let second = match new_flash(alloc, sizes_of(asked, first.geometry()), limit, err) {
        Ok(flash) => flash,
        Err(failure) => return Err(failure),
    };
    match copy_to(alloc, first, second, limit, err) {
        Ok(copy) => {
            tell_dropped(versions, history.cursor(), limit as usize, adds, err);
            Ok(copy)
        }
        Err(failure) => Err(failure),
    }
}

/// A new flash for a copy that keeps so many versions. What is refused is told.
fn new_flash<E: Write>(
    alloc: Global,
    sizes: Geometry,
    history: u32,
    err: &mut E,
) -> Result<SimFlash, Failure>
    ensures ok { IfOk result (IsMade sizes history) }
    ensures err { IfErr result (FormatFailure sizes history) }
{
    match formatted_flash(alloc, sizes, history) {
        Ok(flash) => Ok(flash),
        Err(failure) => {
            tell_unformatted(alloc, failure, sizes, history, err);
            Err(failure)
        }
    }
}

/// Copies what a flash holds to a new one that keeps so many versions. What is refused is told.
fn copy_to<E: Write>(
    alloc: Global,
    first: &mut SimFlash,
    second: SimFlash,
    history: u32,
    err: &mut E,
) -> Result<SimFlash, Failure>
    requires { IsFormatted history (device_of second) }
    ensures ok { IfOk result (λ copy. IsCopied history (device_of first.old) (device_of copy)) }
    ensures sizes { IfOk result (λ copy. (device_of copy).geometry ≡ (device_of second).geometry) }
    ensures err { IfErr result (StopsCopy history first.old second) }
{
    let sizes = second.geometry();
    match copied(alloc, first, second, history) {
        Ok(copy) => Ok(copy),
        Err(failure) => {
            tell_uncopied(alloc, failure, sizes, err);
            Err(failure)
        }
    }
}

/// A new flash that keeps so many versions, once what another one holds is copied to it. Its sizes are looked
/// at then.
fn copied(
    alloc: Global,
    first: &mut SimFlash,
    second: SimFlash,
    history: u32,
) -> Result<SimFlash, Failure>
    requires { IsFormatted history (device_of second) }
    ensures ok { IfOk result (λ copy. IsCopied history (device_of first.old) (device_of copy)) }
    ensures sizes { IfOk result (λ copy. (device_of copy).geometry ≡ (device_of second).geometry) }
    ensures err { IfErr result (StopsCopy history first.old second) }
{
    let sizes = second.geometry();
    let mut copy = second;
    match copy_history(alloc, first, &mut copy, history as usize) {
        Ok(()) => of_sizes(copy, sizes),
        Err(why) => Err(of_uncopied(why)),
    }
}
