//! What is done with the file of an image.
ghost use Rattle.std.specs.Prelude.{◌≡◌, ℕ, IfOk, OnOk, IfErr, IfSome, take, codes};
ghost use Rattle.std.specs.Io.KnownBytes.{Appends};
ghost use Rattle.flash_simulation.specs.Simulation.{device_of};
ghost use Rattle.flash_simulation.specs.Images.{image_of};
ghost use Rattle.host_interface.specs.Files.{KeepsOthers, KeepsOrSyncs, AreBytesRead, ReadsClaimed};
ghost use Rattle.script_runs.specs.Flashes.{IsDecoded, IsMade};
ghost use Rattle.image_jobs.specs.Images.{DecodeCause, IsUnclaimed, IsUnread, IsSpelledFlash, LoadCause, FaultRead, IsImageFile, Unsaved, SavesChange, ChangeUnsaved, FormatEnds, FormatFailure, PlaysBy, host_at, RunEnds, CheckEnds, LookEnds};
ghost use Rattle.script_runs.specs.Scripts.{streams_at};

use crate::failure::Failure;
use crate::image_bytes::{claim, read_image, take_image, write_image};
use flash_model::Geometry;
use flash_simulation::{SimFlash, decode, encode};
use host_interface::ImageFiles;
use script::write_out;
use script_runs::{format_as_planned, mount_as_planned, run_script_until};
use std::alloc::Global;
use std::io::{Read, Write};

/// Makes an image of a flash of these sizes with an empty file system that keeps so many versions,
/// in the place of what has the name, which is claimed first.
pub fn format_image<F: ImageFiles>(
    files: &mut F,
    alloc: Global,
    name: &str,
    sizes: Geometry,
    history: u32,
) -> Result<(), Failure>
    ensures ends { FormatEnds sizes history (F.held files.old name.now) (F.held files.new name.now) result }
    ensures synced { OnOk result (F.synced files.new name.now) }
    ensures others { KeepsOthers name.now (F.held files.old) (F.held files.new) }
{
    match claim(files, alloc, name) {
        Ok(()) => make_image(files, alloc, name, sizes, history),
        Err(failure) => Err(failure),
    }
}

/// Makes an image in the place of what has a claimed name.
fn make_image<F: ImageFiles>(
    files: &mut F,
    alloc: Global,
    name: &str,
    sizes: Geometry,
    history: u32,
) -> Result<(), Failure>
    requires { F.claims files.old name.now }
    ensures ends { FormatEnds sizes history (F.held files.old name.now) (F.held files.new name.now) result }
    ensures synced { OnOk result (F.synced files.new name.now) }
    ensures others { KeepsOthers name.now (F.held files.old) (F.held files.new) }
{
    match formatted_flash(alloc, sizes, history) {
        Ok(flash) => save_image(files, alloc, name, &flash),
        Err(failure) => Err(failure),
    }
}

/// A new flash of these sizes with an empty file system that keeps so many versions.
pub fn formatted_flash(alloc: Global, sizes: Geometry, history: u32) -> Result<SimFlash, Failure>
    ensures ok { IfOk result (IsMade sizes history) }
    ensures err { IfErr result (FormatFailure sizes history) }
{
    let mut flash = match SimFlash::new(alloc, sizes, &[]) {
        Ok(flash) => flash,
        Err(fault) => return Err(Failure::of_system(fault)),
    };
    match format_as_planned(alloc, &mut flash, history) {
        Ok(()) => Ok(flash),
        Err(fault) => Err(Failure::of_system(fault)),
    }
}

/// Runs a script on an image, which is claimed first, up to the first refused line where it is to stop
/// there. The image is written back where the script ran to its end, unless it is as it was.
pub fn run_image<F: ImageFiles, R: Read, W: Write>(
    files: &mut F,
    alloc: Global,
    name: &str,
    stop: bool,
    reader: &mut R,
    out: &mut W,
) -> Result<(), Failure>
    ensures others { KeepsOthers name.now (F.held files.old) (F.held files.new) }
    ensures synced { OnOk result (KeepsOrSyncs (F.held files.old) (F.held files.new) (F.synced files.new name.now)) }
    ensures ends { RunEnds stop name.now (ReadsClaimed F.claims F.reads name.now) (host_at (F.held files.old) (R.remaining reader.old) (W.contents out.old)) result (host_at (F.held files.new) (R.remaining reader.new) (W.contents out.new)) }
{
    let bytes = take_image(files, alloc, name)?;
    match play(alloc, &bytes, stop, reader, out) {
        Ok(flash) => save_changed(files, alloc, name, &bytes, &flash),
        Err(failure) => Err(failure),
    }
}

/// Mounts an image, and writes `ok` where it is mounted.
pub fn check_image<F: ImageFiles, W: Write>(
    files: &F,
    alloc: Global,
    name: &str,
    out: &mut W,
) -> Result<(), Failure>
    ensures { CheckEnds (F.held files.now name.now) result (W.contents out.old) (W.contents out.new) }
{
    let mut flash = load(files, alloc, name)?;
    match mount_as_planned(alloc, &mut flash) {
        Ok(_) => write_ok(out),
        Err(fault) => Err(Failure::of_system(fault)),
    }
}

/// Writes the replies to a script on an image, which stays as it is.
pub fn look_at_image<F: ImageFiles, W: Write>(
    files: &F,
    alloc: Global,
    name: &str,
    script: &[u8],
    out: &mut W,
) -> Result<(), Failure>
    ensures { LookEnds script.now (F.held files.now name.now) result (W.contents out.old) (W.contents out.new) }
{
    let bytes = read_image(files, alloc, name)?;
    let mut reader = script;
    match play(alloc, &bytes, false, &mut reader, out) {
        Ok(_) => Ok(()),
        Err(failure) => Err(failure),
    }
}

/// Runs a script on the flash that bytes spell, up to the first refused line where it is to stop there,
/// and gives the flash as it is left.
fn play<R: Read, W: Write>(
    alloc: Global,
    bytes: &[u8],
    stop: bool,
    reader: &mut R,
    out: &mut W,
) -> Result<SimFlash, Failure>
    ensures { PlaysBy stop (IsDecoded bytes.now) (DecodeCause bytes.now) (streams_at (R.remaining reader.old) (W.contents out.old)) result (streams_at (R.remaining reader.new) (W.contents out.new)) }
{
    let mut flash = flash_of(alloc, bytes)?;
    match run_script_until(alloc, reader, out, &mut flash, stop) {
        Ok(None) => Ok(flash),
        Ok(Some(stop)) => Err(Failure::Stopped(stop)),
        Err(fault) => Err(Failure::of_script(fault)),
    }
}

/// The flash of an image.
pub fn load<F: ImageFiles>(files: &F, alloc: Global, name: &str) -> Result<SimFlash, Failure>
    ensures ok { IfOk result (IsSpelledFlash (F.held files.now name.now)) }
    ensures now { IfOk result (λ flash. F.reads files.now name.now (image_of (device_of flash))) }
    ensures err { IfErr result (LoadCause (F.held files.now name.now)) }
    ensures faulty { IfErr result (FaultRead (F.reads files.now name.now)) }
{
    match read_image(files, alloc, name) {
        Ok(bytes) => flash_of(alloc, &bytes),
        Err(failure) => Err(failure),
    }
}

/// The flash that bytes spell.
pub fn flash_of(alloc: Global, bytes: &[u8]) -> Result<SimFlash, Failure>
    ensures ok { IfOk result (IsDecoded bytes.now) }
    ensures err { IfErr result (DecodeCause bytes.now) }
{
    match decode(alloc, bytes) {
        Ok(flash) => Ok(flash),
        Err(fault) => Err(Failure::of_image(fault)),
    }
}

/// Puts the image of a flash in the place of what has a claimed name.
pub fn save_image<F: ImageFiles>(
    files: &mut F,
    alloc: Global,
    name: &str,
    flash: &SimFlash,
) -> Result<(), Failure>
    requires { F.claims files.old name.now }
    ensures ok { OnOk result (IsImageFile (F.held files.new name.now) flash.now) }
    ensures synced { OnOk result (F.synced files.new name.now) }
    ensures err { IfErr result (Unsaved (F.held files.old name.now) (F.held files.new name.now) (image_of (device_of flash.now))) }
    ensures others { KeepsOthers name.now (F.held files.old) (F.held files.new) }
{
    match encode(alloc, flash) {
        Ok(image) => write_image(files, alloc, name, &image),
        Err(_) => Err(Failure::Memory),
    }
}

/// Puts the image of a flash in the place of a claimed one of these bytes, which were read since then,
/// unless it is the same.
pub fn save_changed<F: ImageFiles>(
    files: &mut F,
    alloc: Global,
    name: &str,
    bytes: &[u8],
    flash: &SimFlash,
) -> Result<(), Failure>
    requires claimed { F.claims files.old name.now }
    requires read { F.reads files.old name.now bytes.now }
    ensures ok { OnOk result (SavesChange name.now (F.held files.old) (F.held files.new) bytes.now (image_of (device_of flash.now))) }
    ensures synced { OnOk result (KeepsOrSyncs (F.held files.old) (F.held files.new) (F.synced files.new name.now)) }
    ensures err { IfErr result (ChangeUnsaved name.now (F.held files.old) (F.held files.new) bytes.now (image_of (device_of flash.now))) }
    ensures others { KeepsOthers name.now (F.held files.old) (F.held files.new) }
{
    let image = match encode(alloc, flash) {
        Ok(image) => image,
        Err(_) => return Err(Failure::Memory),
    };
    let is_same = image.as_slice() == bytes;
    if is_same {
        return Ok(());
    }
    write_image(files, alloc, name, &image)
}

fn write_ok<W: Write>(out: &mut W) -> Result<(), Failure>
    ensures ok { OnOk result (Appends (W.contents out.old) (W.contents out.new) (codes "ok\n")) }
    ensures err { IfErr result (λ failure. (failure ≡ Failure.Output) × ((n : ℕ) × Appends (W.contents out.old) (W.contents out.new) (take n (codes "ok\n")))) }
{
    match write_out(out, b"ok\n") {
        Ok(()) => Ok(()),
        Err(_) => Err(Failure::Output),
    }
}
