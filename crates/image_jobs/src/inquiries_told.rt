//! What is asked of an image.
ghost use Rattle.std.specs.Prelude.{◌≡◌, Ok, IfOk, IfErr};
ghost use Rattle.image_jobs.specs.InquiryWords.{file_spelled, tree_spelled, list_spelled, path_history_spelled, differences_spelled, of_ask, IsMisspelled};
ghost use Rattle.image_jobs.specs.Tellings.{DiffEnds, status_of_told, IsTold, UntoldCause, TellEnds};

use crate::failure::Failure;
use crate::images::load;
use crate::path_word::path_of_word;
use crate::place_words::{history_inquiry, list_inquiry};
use crate::planned_inquiries::ask_as_planned;
use crate::view_word::view_of_word;
use fs_types::Bytes;
use host_interface::ImageFiles;
use inquiries::{AskFault, Inquiry};
use script::write_out;
use script_runs::Refusal;
use std::alloc::Global;
use std::io::Write;

/// Writes the bytes of the file at a path of an image.
pub fn tell_file<F: ImageFiles, W: Write>(
    files: &F,
    alloc: Global,
    name: &str,
    path: &str,
    view: Option<&str>,
    out: &mut W,
) -> Result<(), Failure>
    ensures { TellEnds (file_spelled path.now view.entry) (F.held files.now name.now) result (W.contents out.old) (W.contents out.new) }
{
    match file_inquiry(alloc, path, view) {
        Ok(inquiry) => tell_image(files, alloc, name, &inquiry, out),
        Err(failure) => Err(failure),
    }
}

/// Writes a line for each directory and each file of an image.
pub fn tell_tree<F: ImageFiles, W: Write>(
    files: &F,
    alloc: Global,
    name: &str,
    view: Option<&str>,
    out: &mut W,
) -> Result<(), Failure>
    ensures { TellEnds (tree_spelled view.entry) (F.held files.now name.now) result (W.contents out.old) (W.contents out.new) }
{
    match tree_inquiry(alloc, view) {
        Ok(inquiry) => tell_image(files, alloc, name, &inquiry, out),
        Err(failure) => Err(failure),
    }
}

/// Writes a line for each entry of a directory of an image, or for a file. Without a path it is the root; a
/// word alone that begins with `@` or `=` is the view.
pub fn tell_list<F: ImageFiles, W: Write>(
    files: &F,
    alloc: Global,
    name: &str,
    path: Option<&str>,
    view: Option<&str>,
    out: &mut W,
) -> Result<(), Failure>
    ensures { TellEnds (list_spelled path.entry view.entry) (F.held files.now name.now) result (W.contents out.old) (W.contents out.new) }
{
    match list_inquiry(alloc, path, view) {
        Ok(inquiry) => tell_image(files, alloc, name, &inquiry, out),
        Err(failure) => Err(failure),
    }
}

/// Writes what stands at a path of an image in its first kept version, in each in which that is other than in
/// the version before, and in each checkpoint.
pub fn tell_path_history<F: ImageFiles, W: Write>(
    files: &F,
    alloc: Global,
    name: &str,
    path: &str,
    out: &mut W,
) -> Result<(), Failure>
    ensures { TellEnds (path_history_spelled path.now) (F.held files.now name.now) result (W.contents out.old) (W.contents out.new) }
{
    match history_inquiry(alloc, path) {
        Ok(inquiry) => tell_image(files, alloc, name, &inquiry, out),
        Err(failure) => Err(failure),
    }
}

/// Writes a line for each path at which two trees of an image differ. Where the status is to tell it the
/// job fails if there is one.
pub fn tell_differences<F: ImageFiles, W: Write>(
    files: &F,
    alloc: Global,
    name: &str,
    view: Option<&str>,
    other: Option<&str>,
    exit_code: bool,
    out: &mut W,
) -> Result<(), Failure>
    ensures { DiffEnds exit_code (differences_spelled view.entry other.entry) (F.held files.now name.now) result (W.contents out.old) (W.contents out.new) }
{
    match difference_inquiry(alloc, view, other) {
        Ok(inquiry) => tell_with_status(files, alloc, name, &inquiry, exit_code, out),
        Err(failure) => Err(failure),
    }
}

/// Writes what is told of an image. Where the status is to tell it the job fails if there is something.
pub(crate) fn tell_with_status<F: ImageFiles, W: Write>(
    files: &F,
    alloc: Global,
    name: &str,
    inquiry: &Inquiry,
    exit_code: bool,
    out: &mut W,
) -> Result<(), Failure>
    ensures { DiffEnds exit_code (Ok inquiry.now) (F.held files.now name.now) result (W.contents out.old) (W.contents out.new) }
{
    let bytes = ask_image(files, alloc, name, inquiry)?;
    let told = bytes.as_slice();
    match write_out(out, told) {
        Ok(()) => status_of_told(exit_code, told),
        Err(_) => Err(Failure::Output),
    }
}

/// Fails where the status is to tell that trees differ, and something is told.
fn status_of_told(exit_code: bool, bytes: &[u8]) -> Result<(), Failure>
    ensures { result ≡ status_of_told exit_code bytes.now }
{
    match bytes {
        [_, ..] if exit_code => Err(Failure::Differs),
        _ => Ok(()),
    }
}

/// Writes a line for each version and each checkpoint of an image.
pub fn tell_versions<F: ImageFiles, W: Write>(
    files: &F,
    alloc: Global,
    name: &str,
    out: &mut W,
) -> Result<(), Failure>
    ensures { TellEnds (Ok Inquiry.Versions) (F.held files.now name.now) result (W.contents out.old) (W.contents out.new) }
{
    tell_image(files, alloc, name, &Inquiry::Versions, out)
}

/// Writes what is told of an image.
fn tell_image<F: ImageFiles, W: Write>(
    files: &F,
    alloc: Global,
    name: &str,
    inquiry: &Inquiry,
    out: &mut W,
) -> Result<(), Failure>
    ensures { TellEnds (Ok inquiry.now) (F.held files.now name.now) result (W.contents out.old) (W.contents out.new) }
{
    let bytes = ask_image(files, alloc, name, inquiry)?;
    match write_out(out, bytes.as_slice()) {
        Ok(()) => Ok(()),
        Err(_) => Err(Failure::Output),
    }
}

/// The inquiry for the bytes of a file.
fn file_inquiry(alloc: Global, path: &str, view: Option<&str>) -> Result<Inquiry, Failure>
    ensures ok { IfOk result (λ inquiry. file_spelled path.now view.entry ≡ Ok inquiry) }
    ensures err { IfErr result (IsMisspelled (file_spelled path.now view.entry)) }
{
    let path = path_of_word(alloc, path)?;
    match view_of_word(alloc, view) {
        Ok(view) => Ok(Inquiry::File { view, path }),
        Err(failure) => Err(failure),
    }
}

/// The inquiry for a tree.
fn tree_inquiry(alloc: Global, view: Option<&str>) -> Result<Inquiry, Failure>
    ensures ok { IfOk result (λ inquiry. tree_spelled view.entry ≡ Ok inquiry) }
    ensures err { IfErr result (IsMisspelled (tree_spelled view.entry)) }
{
    match view_of_word(alloc, view) {
        Ok(view) => Ok(Inquiry::Tree { view }),
        Err(failure) => Err(failure),
    }
}

/// The inquiry for what differs between two trees.
fn difference_inquiry(
    alloc: Global,
    view: Option<&str>,
    other: Option<&str>,
) -> Result<Inquiry, Failure>
    ensures ok { IfOk result (λ inquiry. differences_spelled view.entry other.entry ≡ Ok inquiry) }
    ensures err { IfErr result (IsMisspelled (differences_spelled view.entry other.entry)) }
{
    let old = view_of_word(alloc, view)?;
    match view_of_word(alloc, other) {
        Ok(new) => Ok(Inquiry::Differences { old, new }),
        Err(failure) => Err(failure),
    }
}

/// What is told of an image.
fn ask_image<F: ImageFiles>(
    files: &F,
    alloc: Global,
    name: &str,
    inquiry: &Inquiry,
) -> Result<Bytes, Failure>
    ensures ok { IfOk result (IsTold (F.held files.now name.now) inquiry.now) }
    ensures err { IfErr result (UntoldCause (F.held files.now name.now) inquiry.now) }
{
    let mut flash = load(files, alloc, name)?;
    match ask_as_planned(alloc, &mut flash, inquiry) {
        Ok(bytes) => Ok(bytes),
        Err(fault) => Err(of_ask(fault)),
    }
}

/// By why nothing is told.
pub fn of_ask(fault: AskFault) -> Failure
    ensures { result ≡ of_ask fault }
{
    match fault {
        AskFault::Unmounted(fault) => Failure::of_system(fault),
        AskFault::Refused(fault) => Failure::of_refusal(Refusal::Fault(fault)),
        AskFault::TooManyLines => Failure::TooManyLines,
    }
}
