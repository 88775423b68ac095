//! undofs for C: a file system on an image in a buffer of the caller. tools/c/undofs.h declares these
//! functions.
//!
//! Each answers 0, or the number of why nothing was done: then every buffer and length is as it was.
//! No two of the buffers and lengths of a call overlap, and none is null, one of no bytes neither.
#![tactic(auto)]

ghost use Rattle.image_buffer.specs.Buffers.{buffers};
ghost use Rattle.undofs_c.specs.Calls.{FormatAnswers, CheckAnswers, RunAnswers, flash_sizes, lengths};

use flash_model::Geometry;
use image_buffer::{check_buffer, format_buffer, run_buffer};
use std::alloc::Global;

/// Makes the image of a flash with an empty file system at the front of a buffer: `page` bytes a page,
/// `pages` a block, `blocks` in all; `history` versions are kept. `length` is how many bytes the image
/// has.
#[unsafe(no_mangle)]
pub extern "C" fn undofs_format(
    alloc: Global,
    page: u32,
    pages: u32,
    blocks: u32,
    history: u32,
    image: &mut [u8],
    length: &mut usize,
) -> u32
    ensures { FormatAnswers (flash_sizes page pages blocks) history image.old length.old result image.new length.new }
{
    let sizes = Geometry {
        page,
        pages,
        blocks,
    };
    match format_buffer(alloc, sizes, history, image) {
        Ok(count) => {
            *length = count;
            0
        }
        Err(fault) => fault.number(),
    }
}

/// Mounts an image.
#[unsafe(no_mangle)]
pub extern "C" fn undofs_check(alloc: Global, image: &[u8]) -> u32
    ensures { CheckAnswers image.now result }
{
    match check_buffer(alloc, image) {
        Ok(()) => 0,
        Err(fault) => fault.number(),
    }
}

/// Runs a script, of one line or more, on the image of `length` bytes at the front of a buffer, and puts
/// the image that is left in its place, and the replies at the front of theirs. `length` and `replied`
/// are how many bytes these have. What was not synced is not found by the next script.
#[unsafe(no_mangle)]
pub extern "C" fn undofs_run(
    alloc: Global,
    image: &mut [u8],
    length: &mut usize,
    script: &[u8],
    replies: &mut [u8],
    replied: &mut usize,
) -> u32
    ensures { RunAnswers (buffers image.old replies.old) (lengths length.old replied.old) script.now result (buffers image.new replies.new) (lengths length.new replied.new) }
{
    match run_buffer(alloc, image, *length, script, replies) {
        Ok(written) => {
            *length = written.image;
            *replied = written.replies;
            0
        }
        Err(fault) => fault.number(),
    }
}
