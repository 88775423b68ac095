//! A script on a flash.
ghost use Rattle.std.specs.Prelude.{MatchResult};
ghost use Rattle.script_runs.specs.Scripts.{streams_at};
ghost use Rattle.remote_flash.specs.Flashes.{told_device};
ghost use Rattle.remote_sessions.specs.Sessions.{SessionEnds, MakesReady, IsNotReady};

use crate::session_fault::SessionFault;
use flash_model::Flash;
use fs_types::Fault;
use remote_flash::ToldFlash;
use script_runs::run_script_on;
use std::alloc::Global;
use std::io::{Read, Write};
use undofs::format;

/// Makes an empty file system on a flash where it is given how many versions are kept, mounts it, and carries
/// out the lines of the reader, each of which is answered by a line of the writer before the next is read.
/// Lines and replies are those of docs/scripts.md; a line `fault` has no form of a line.
pub fn serve_on<F: Flash, R: Read, W: Write>(
    alloc: Global,
    flash: &mut F,
    history: Option<u32>,
    reader: &mut R,
    writer: &mut W,
) -> Result<(), SessionFault>
    ensures ends { SessionEnds history (F.device flash.old) (F.device flash.new) (streams_at (R.remaining reader.old) (W.contents writer.old)) result (streams_at (R.remaining reader.new) (W.contents writer.new)) }
{
    match make_ready(alloc, flash, history) {
        Ok(()) => {}
        Err(fault) => return Err(SessionFault::Format(fault)),
    }
    match run_script_on(alloc, reader, writer, flash) {
        Ok(()) => Ok(()),
        Err(fault) => Err(SessionFault::Script(fault)),
    }
}

/// [`serve_on`] on the flash of a driver at the other end of two streams.
///
/// Each program and erase is an order to the driver, and changes the flash by what the driver answers
/// ([`ToldFlash`]). Once power went no order is given any more.
pub fn serve_script<A: Read, O: Write, R: Read, W: Write>(
    alloc: Global,
    flash: &mut ToldFlash<A, O>,
    history: Option<u32>,
    reader: &mut R,
    writer: &mut W,
) -> Result<(), SessionFault>
    ensures ends { SessionEnds history (told_device flash.old) (told_device flash.new) (streams_at (R.remaining reader.old) (W.contents writer.old)) result (streams_at (R.remaining reader.new) (W.contents writer.new)) }
{
    serve_on(alloc, flash, history, reader, writer)
}

/// Makes an empty file system where it is given how many versions are kept.
fn make_ready<F: Flash>(alloc: Global, flash: &mut F, history: Option<u32>) -> Result<(), Fault>
    ensures { MatchResult result (λ _. MakesReady history (F.device flash.old) (F.device flash.new)) (λ fault. IsNotReady history (F.device flash.old) fault (F.device flash.new)) }
{
    match history {
        Some(limit) => format(alloc, flash, limit),
        None => Ok(()),
    }
}
