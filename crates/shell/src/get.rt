//! What stands at a path of an image for a file or a folder of the host, or for the output.
ghost use Rattle.std.specs.Prelude.{◌≡◌, ℕ, Option, List};
ghost use Rattle.image_jobs.specs.Images.{host_at};
ghost use Rattle.shell.specs.Tools.{GetsTo, is_stream, word_given};

use crate::program::word_given;
use command_line::Job;
use host_interface::Folders;
use image_jobs::{Failure, tell_file};
use image_words::get_out;
use std::alloc::Global;
use std::io::Write;

/// Puts what stands at a path of an image into a file or a folder of the host, or writes a file where that
/// is `-`.
pub(crate) fn get_to<F: Folders, W: Write>(
    files: &mut F,
    alloc: Global,
    job: Job<'_>,
    name: &str,
    out: &mut W,
) -> Result<(), Failure>
    ensures { (input : Option (List ℕ)) → GetsTo (is_stream (word_given job.entry.file)) job.entry name.now (host_at (F.held files.old) input (W.contents out.old)) result (host_at (F.held files.new) input (W.contents out.new)) }
{
    let path = word_given(job.path);
    let file = word_given(job.file);
    if is_stream(file) {
        tell_file(files, alloc, name, path, job.view, out)
    } else {
        get_out(files, alloc, name, path, job.view, file)
    }
}

/// Whether a word means a standard stream in the place of a file.
pub(crate) fn is_stream(file: &str) -> bool
    ensures { result ≡ is_stream file.now }
{
    file == "-"
}
