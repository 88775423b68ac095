//! The archive of a view of an image.
ghost use Rattle.std.specs.Prelude.{◌≡◌, Ok, IfOk, IfErr};
ghost use Rattle.image_jobs.specs.InquiryWords.{view_spelled, IsMisspelled};
ghost use Rattle.archive_jobs.specs.Tars.{of_unarchived, of_unwritten, TarEnds};

use crate::archive_messages::tell_unwritten;
use crate::archiving::write_archive;
use crate::interruption::Interruption;
use crate::unarchived::Unarchived;
use crate::unwritten::Unwritten;
use flash_model::Flash;
use fs_types::{Fault, View};
use host_interface::ImageFiles;
use image_jobs::{Failure, load, view_of_word};
use job_messages::tell_refusal;
use script_runs::Refusal;
use std::alloc::Global;
use std::io::Write;

/// Writes the archive of all that stands in a view of an image, an entry at a time. What is refused is told.
/// Nothing is written where there is no archive; what is met later leaves a first part of it.
pub fn tell_archive<F: ImageFiles, W: Write, E: Write>(
    files: &F,
    alloc: Global,
    name: &str,
    view: Option<&str>,
    out: &mut W,
    err: &mut E,
) -> Result<(), Failure>
    ensures { TarEnds view.entry (F.held files.now name.now) result (W.contents out.old) (W.contents out.new) }
{
    let view = match told_view(alloc, view, err) {
        Ok(view) => view,
        Err(failure) => return Err(failure),
    };
    let mut flash = match load(files, alloc, name) {
        Ok(flash) => flash,
        Err(failure) => return Err(failure),
    };
    match write_archive(alloc, &mut flash, &view, out) {
        Ok(()) => Ok(()),
        Err(why) => {
            tell_unwritten(alloc, &why, flash.geometry(), err);
            Err(of_unwritten(&why))
        }
    }
}

/// The view that a word spells. A refused one is told.
fn told_view<E: Write>(alloc: Global, word: Option<&str>, err: &mut E) -> Result<View, Failure>
    ensures ok { IfOk result (λ view. view_spelled word.entry ≡ Ok view) }
    ensures err { IfErr result (IsMisspelled (view_spelled word.entry)) }
{
    match view_of_word(alloc, word) {
        Ok(view) => Ok(view),
        Err(failure) => {
            if let Failure::Refused(refusal) = failure {
                tell_refusal(refusal, word.unwrap_or(""), err);
            }
            Err(failure)
        }
    }
}

/// By why an archive is not written to its end.
fn of_unwritten(why: &Unwritten) -> Failure
    ensures { result ≡ of_unwritten why.now }
{
    match why {
        Unwritten::Unarchived(why) => of_unarchived(why),
        Unwritten::Interrupted(Interruption::Met(fault)) => {
            Failure::of_refusal(Refusal::Fault(*fault))
        }
        Unwritten::Interrupted(Interruption::Output) => Failure::Output,
    }
}

/// By why there is no archive.
fn of_unarchived(why: &Unarchived) -> Failure
    ensures { result ≡ of_unarchived why.now }
{
    match why {
        Unarchived::Unmounted(fault) => Failure::of_system(*fault),
        Unarchived::Refused(fault) => Failure::of_refusal(Refusal::Fault(*fault)),
        Unarchived::TooMuch => Failure::TooManyLines,
        Unarchived::NoRoom(_) => Failure::Refused(Refusal::Fault(Fault::NameTooLong)),
    }
}
