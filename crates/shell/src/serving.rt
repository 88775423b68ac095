//! Scripts on the part of a driver in another process.
ghost use Rattle.std.specs.Prelude.{◌≡◌, IfErr};
ghost use Rattle.script_runs.specs.Scripts.{streams_at};
ghost use Rattle.shell.specs.Tools.{ServeEnds, IsUnreached, of_start, history_given, word_given};

use crate::program::word_given;
use command_line::Job;
use host_interface::{Channels, FileFault};
use image_jobs::Failure;
use image_words::of_session;
use remote_flash::{StartFault, ToldFlash};
use remote_sessions::serve_script;
use std::alloc::Global;
use std::io::{Read, Write};

/// Opens the two streams of a driver, and runs the script on its part.
pub(crate) fn serve_part<F: Channels, R: Read, W: Write>(
    files: &F,
    alloc: Global,
    job: Job<'_>,
    reader: &mut R,
    out: &mut W,
) -> Result<(), Failure>
    ensures { ServeEnds (history_given job.entry) (F.written files.now (word_given job.entry.answers)) (streams_at (R.remaining reader.old) (W.contents out.old)) result (streams_at (R.remaining reader.new) (W.contents out.new)) }
{
    let answers = match files.open_incoming(word_given(job.answers)) {
        Ok(answers) => answers,
        Err(fault) => return Err(unreached(fault, Failure::CannotRead)),
    };
    let orders = match files.open_outgoing(alloc, word_given(job.orders)) {
        Ok(orders) => orders,
        Err(fault) => return Err(unreached(fault, Failure::CannotWrite)),
    };
    let mut flash = match ToldFlash::start(alloc, answers, orders) {
        Ok(flash) => flash,
        Err(fault) => return Err(of_start(fault)),
    };
    match serve_script(alloc, &mut flash, history_given(job), reader, out) {
        Ok(()) => Ok(()),
        Err(fault) => Err(of_session(fault)),
    }
}

/// By why there is no flash.
fn of_start(fault: StartFault) -> Failure
    ensures { result ≡ of_start fault }
{
    match fault {
        StartFault::Read => Failure::CannotRead,
        StartFault::Image(fault) => Failure::of_image(fault),
    }
}

/// Why a driver is not reached.
fn unreached(fault: FileFault, failed: Failure) -> Failure
    requires { IsUnreached failed }
    ensures { IsUnreached result }
{
    match fault {
        FileFault::Memory => Failure::Memory,
        _ => failed,
    }
}

/// How many versions are kept by the file system that is made first, where one is.
pub(crate) fn history_given(job: Job<'_>) -> Option<u32>
    ensures { result ≡ history_given job.entry }
{
    if job.is_history_given {
        Some(job.history)
    } else {
        None
    }
}
