//! What an image answers to a script, which leaves it as it is.
ghost use Rattle.std.specs.Prelude.{◌≡◌, true};
ghost use Rattle.flash_simulation.specs.Simulation.{device_of};
ghost use Rattle.script_runs.specs.Scripts.{streams_at};
ghost use Rattle.image_jobs.specs.Images.{Plays};
ghost use Rattle.image_words.specs.ScriptReplies.{RepliesEnd};

use crate::history_changes::unprinted;
use flash_simulation::SimFlash;
use host_interface::ImageFiles;
use image_jobs::{Failure, load};
use script::write_out;
use script_runs::run_script_until;
use std::alloc::Global;
use std::io::{Read, Write};

/// Writes the replies to a script on an image, which stays as it is. Where a line is refused nothing is
/// written.
pub fn tell_replies<F: ImageFiles, W: Write>(
    files: &F,
    alloc: Global,
    name: &str,
    script: &[u8],
    out: &mut W,
) -> Result<(), Failure>
    ensures { RepliesEnd script.now (F.held files.now name.now) result (W.contents out.old) (W.contents out.new) }
{
    let mut reader = script;
    let mut replies = Vec::new(alloc);
    match play(files, alloc, name, &mut reader, &mut replies) {
        Ok(_) => {}
        Err(failure) => return Err(unprinted(failure)),
    }
    match write_out(out, replies.as_slice()) {
        Ok(()) => Ok(()),
        Err(_) => Err(Failure::Output),
    }
}

/// Runs a script on the flash of an image up to its first refused line, and gives the flash as it is left.
fn play<F: ImageFiles, R: Read, W: Write>(
    files: &F,
    alloc: Global,
    name: &str,
    reader: &mut R,
    out: &mut W,
) -> Result<SimFlash, Failure>
    ensures { Plays true (F.held files.now name.now) (streams_at (R.remaining reader.old) (W.contents out.old)) result (streams_at (R.remaining reader.new) (W.contents out.new)) }
{
    let mut flash = match load(files, alloc, name) {
        Ok(flash) => flash,
        Err(failure) => return Err(failure),
    };
    match run_script_until(alloc, reader, out, &mut flash, true) {
        Ok(None) => Ok(flash),
        Ok(Some(stop)) => Err(Failure::Stopped(stop)),
        Err(fault) => Err(Failure::of_script(fault)),
    }
}
