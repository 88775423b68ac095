//! What the present version of an image has otherwise than the one before it.
ghost use Rattle.std.specs.Prelude.{◌≡◌, Some, None, IfOk, IfErr};
ghost use Rattle.history_machine.specs.History.{undo_refusal};
ghost use Rattle.image_jobs.specs.LastChanges.{HasNoneBefore, IsBefore, LastChangeEnds, serial_before};

use crate::failure::Failure;
use crate::images::load;
use crate::inquiries_told::tell_with_status;
use fs_types::{Fault, View};
use host_interface::ImageFiles;
use inquiries::Inquiry;
use machine_state::History;
use script_runs::{Refusal, mount_as_planned};
use std::alloc::Global;
use std::io::Write;

/// Writes a line for each path at which the present tree of an image differs from that of the version
/// before. Refused as an undo is where there is none. Where the status is to tell it the job fails if
/// there is a line.
pub fn tell_last_change<F: ImageFiles, W: Write>(
    files: &F,
    alloc: Global,
    name: &str,
    exit_code: bool,
    out: &mut W,
) -> Result<(), Failure>
    ensures { LastChangeEnds exit_code (F.held files.now name.now) result (W.contents out.old) (W.contents out.new) }
{
    let before = version_before(files, alloc, name)?;
    let inquiry = Inquiry::Differences {
        old: View::Serial(before),
        new: View::Present,
    };
    tell_with_status(files, alloc, name, &inquiry, exit_code, out)
}

/// The serial of the version of an image to which an undo goes back.
fn version_before<F: ImageFiles>(files: &F, alloc: Global, name: &str) -> Result<u64, Failure>
    ensures ok { IfOk result (IsBefore (F.held files.now name.now)) }
    ensures err { IfErr result (HasNoneBefore (F.held files.now name.now)) }
{
    let mut flash = load(files, alloc, name)?;
    let system = match mount_as_planned(alloc, &mut flash) {
        Ok(system) => system,
        Err(fault) => return Err(Failure::of_system(fault)),
    };
    match serial_before(&system.state.history) {
        Ok(serial) => Ok(serial),
        Err(fault) => Err(Failure::of_refusal(Refusal::Fault(fault))),
    }
}

/// The serial of the version to which an undo goes back. Refused as an undo is.
fn serial_before(history: &History<u32>) -> Result<u64, Fault>
    ensures accepted { IfOk result (λ _. undo_refusal history.now ≡ None) }
    ensures ok { IfOk result (λ serial. serial_before history.now ≡ Some serial) }
    ensures err { IfErr result (λ fault. undo_refusal history.now ≡ Some fault) }
{
    history.check_undo()?;
    let versions = history.versions();
    Ok(versions[history.cursor() - 1].serial)
}
