//! The script that brings the tree of one image to that of another.
ghost use Rattle.std.specs.Prelude.{◌≡◌, IfOk, IfErr};
ghost use Rattle.image_words.specs.ImageUpdates.{IsUpdateTold, UpdateEnds, UpdateUntold, manner_asked};

use fs_types::Bytes;
use host_interface::ImageFiles;
use image_jobs::{Failure, load, of_ask};
use script::write_out;
use std::alloc::Global;
use std::io::Write;
use updates::{Manner, ask_update};

/// Writes the lines that bring the present tree of an image to that of another one: a file of both whole, or
/// only what differs.
pub fn tell_update<F: ImageFiles, W: Write>(
    files: &F,
    alloc: Global,
    name: &str,
    other: &str,
    changes: bool,
    out: &mut W,
) -> Result<(), Failure>
    ensures { UpdateEnds (manner_asked changes) (F.held files.now name.now) (F.held files.now other.now) result (W.contents out.old) (W.contents out.new) }
{
    let bytes = match update_of(files, alloc, name, other, manner_asked(changes)) {
        Ok(bytes) => bytes,
        Err(failure) => return Err(failure),
    };
    match write_out(out, bytes.as_slice()) {
        Ok(()) => Ok(()),
        Err(_) => Err(Failure::Output),
    }
}

/// The lines that bring the present tree of an image to that of another one.
fn update_of<F: ImageFiles>(
    files: &F,
    alloc: Global,
    name: &str,
    other: &str,
    manner: Manner,
) -> Result<Bytes, Failure>
    ensures ok { IfOk result (IsUpdateTold manner (F.held files.now name.now) (F.held files.now other.now)) }
    ensures err { IfErr result (UpdateUntold (F.held files.now name.now) (F.held files.now other.now)) }
{
    let mut first = match load(files, alloc, name) {
        Ok(flash) => flash,
        Err(failure) => return Err(failure),
    };
    let mut second = match load(files, alloc, other) {
        Ok(flash) => flash,
        Err(failure) => return Err(failure),
    };
    match ask_update(alloc, &mut first, &mut second, manner) {
        Ok(bytes) => Ok(bytes),
        Err(fault) => Err(of_ask(fault)),
    }
}

/// How a file that two trees have is written.
fn manner_asked(changes: bool) -> Manner
    ensures { result ≡ manner_asked changes }
{
    if changes {
        Manner::Patched
    } else {
        Manner::Whole
    }
}
