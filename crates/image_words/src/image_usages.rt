//! What is told of the blocks that what stands in a directory of an image takes.
ghost use Rattle.std.specs.Prelude.{◌≡◌, IfOk, IfErr};
ghost use Rattle.image_jobs.specs.InquiryWords.{place_spelled};
ghost use Rattle.image_words.specs.ImageUsages.{AreUsagesIn, IsUsageText, UncountedCause, UsageEnds, UntoldCause, of_report};

use crate::usage_lines::usage_text;
use block_usage::{ReportFault, UsageList, report_usages};
use fs_types::{Path, View};
use host_interface::ImageFiles;
use image_jobs::{Failure, load, place_of_words};
use script::write_out;
use script_runs::Refusal;
use std::alloc::Global;
use std::io::Write;

/// Writes how many blocks each entry of a directory of an image reaches, or a file, and how many of these no
/// other version and no checkpoint reaches. Without a path it is the root; a word alone that begins with `@`
/// or `=` is the view.
pub fn tell_usages<F: ImageFiles, W: Write>(
    files: &F,
    alloc: Global,
    name: &str,
    path: Option<&str>,
    view: Option<&str>,
    out: &mut W,
) -> Result<(), Failure>
    ensures { UsageEnds (place_spelled path.entry view.entry) (F.held files.now name.now) result (W.contents out.old) (W.contents out.new) }
{
    let text = match text_of_image(files, alloc, name, path, view) {
        Ok(text) => text,
        Err(failure) => return Err(failure),
    };
    match write_out(out, text.as_slice()) {
        Ok(()) => Ok(()),
        Err(_) => Err(Failure::Output),
    }
}

/// What is told of what these words spell.
fn text_of_image<F: ImageFiles>(
    files: &F,
    alloc: Global,
    name: &str,
    path: Option<&str>,
    view: Option<&str>,
) -> Result<Vec<u8>, Failure>
    ensures ok { IfOk result (λ text. IsUsageText (place_spelled path.entry view.entry) (F.held files.now name.now) text.items) }
    ensures err { IfErr result (UntoldCause (place_spelled path.entry view.entry) (F.held files.now name.now)) }
{
    let (view, path) = match place_of_words(alloc, path, view) {
        Ok(place) => place,
        Err(failure) => return Err(failure),
    };
    let list = match usages_of_image(files, alloc, name, &view, &path) {
        Ok(list) => list,
        Err(failure) => return Err(failure),
    };
    match usage_text(alloc, &list) {
        Ok(text) => Ok(text),
        Err(_) => Err(Failure::Memory),
    }
}

/// How many blocks what stands at a path of an image takes.
fn usages_of_image<F: ImageFiles>(
    files: &F,
    alloc: Global,
    name: &str,
    view: &View,
    path: &Path,
) -> Result<UsageList, Failure>
    ensures ok { IfOk result (AreUsagesIn (F.held files.now name.now) view.now path.now) }
    ensures err { IfErr result (UncountedCause (F.held files.now name.now) view.now path.now) }
{
    let mut flash = match load(files, alloc, name) {
        Ok(flash) => flash,
        Err(failure) => return Err(failure),
    };
    match report_usages(alloc, &mut flash, view, path) {
        Ok(list) => Ok(list),
        Err(fault) => Err(of_report(fault)),
    }
}

/// By why nothing is told.
fn of_report(fault: ReportFault) -> Failure
    ensures { result ≡ of_report fault }
{
    match fault {
        ReportFault::Unmounted(fault) => Failure::of_system(fault),
        ReportFault::Refused(fault) => Failure::of_refusal(Refusal::Fault(fault)),
        ReportFault::TooManyBlocks => Failure::TooManyLines,
    }
}
