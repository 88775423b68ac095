//! Scripts on a part in place in a flat file.
ghost use Rattle.std.specs.Prelude.{◌≡◌};
ghost use Rattle.script_runs.specs.Scripts.{streams_at};
ghost use Rattle.image_jobs.specs.Images.{IsUnclaimed};
ghost use Rattle.image_words.specs.PartServing.{ServePartEnds, of_session};

use crate::part_sessions::serve_part;
use host_interface::{FileFault, Parts};
use image_jobs::Failure;
use part_file::PartFlash;
use remote_sessions::SessionFault;
use std::alloc::Global;
use std::io::{Read, Write};

/// Opens the file of a name in place, claimed to the end, and runs the script on the part in it, on which
/// an empty file system is made first where it is given how many versions are kept.
pub fn serve_part_file<F: Parts, R: Read, W: Write>(
    files: &F,
    alloc: Global,
    name: &str,
    history: Option<u32>,
    reader: &mut R,
    out: &mut W,
) -> Result<(), Failure>
    ensures { ServePartEnds history (F.placed files.now name.now) (streams_at (R.remaining reader.old) (W.contents out.old)) result (streams_at (R.remaining reader.new) (W.contents out.new)) }
{
    let backing = match files.open_part(alloc, name) {
        Ok(backing) => backing,
        Err(fault) => return Err(unopened(fault)),
    };
    let mut flash = match PartFlash::start(alloc, backing) {
        Ok(flash) => flash,
        Err(refused) => return Err(Failure::of_part(refused.fault)),
    };
    match serve_part(alloc, &mut flash, history, reader, out) {
        Ok(()) => Ok(()),
        Err(fault) => Err(of_session(fault)),
    }
}

/// By why the file of a part is not opened.
fn unopened(fault: FileFault) -> Failure
    ensures { IsUnclaimed result }
{
    match fault {
        FileFault::Memory => Failure::Memory,
        _ => Failure::Unavailable,
    }
}

/// By why a script on a flash ended.
pub fn of_session(fault: SessionFault) -> Failure
    ensures { result ≡ of_session fault }
{
    match fault {
        SessionFault::Format(fault) => Failure::of_system(fault),
        SessionFault::Script(fault) => Failure::of_script(fault),
    }
}
