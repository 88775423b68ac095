//! The history of an image is copied to a new one, as a job asks for it.
ghost use Rattle.std.specs.Prelude.{◌≡◌};
ghost use Rattle.host_interface.specs.Files.{KeepsOthers};
ghost use Rattle.copy_jobs.specs.Copying.{CopyEnds};
ghost use Rattle.shell.specs.Tools.{number_given, sizes_asked, word_given};

use crate::program::word_given;
use command_line::Job;
use copy_jobs::{AskedSizes, copy_image};
use host_interface::ImageFiles;
use image_jobs::Failure;
use std::alloc::Global;
use std::io::Write;

/// Copies the history of an image to a new image, in the place of the file of a job.
pub(crate) fn copy_to<F: ImageFiles, E: Write>(
    files: &mut F,
    alloc: Global,
    job: Job<'_>,
    name: &str,
    err: &mut E,
) -> Result<(), Failure>
    ensures ends { CopyEnds (sizes_asked job.entry) job.entry.salvage name.now (word_given job.entry.file) (F.held files.old) (F.held files.new) result }
    ensures others { KeepsOthers (word_given job.entry.file) (F.held files.old) (F.held files.new) }
{
    let file = word_given(job.file);
    let asked = sizes_asked(job);
    copy_image(files, alloc, name, file, asked, job.salvage, err)
}

/// What a job asks that a copy has.
fn sizes_asked(job: Job<'_>) -> AskedSizes
    ensures { result ≡ sizes_asked job.entry }
{
    AskedSizes {
        page: number_given(job.page, job.is_page_given),
        pages: number_given(job.pages, job.is_pages_given),
        blocks: number_given(job.blocks, job.is_blocks_given),
        history: number_given(job.history, job.is_history_given),
    }
}

/// A number, where a word gives it.
pub(crate) fn number_given(number: u32, is_given: bool) -> Option<u32>
    ensures { result ≡ number_given number is_given }
{
    if is_given { Some(number) } else { None }
}
