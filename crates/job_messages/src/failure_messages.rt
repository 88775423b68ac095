//! What is told on standard error, where a job did not run to its end.
ghost use Rattle.std.specs.Prelude.{◌<◌};

use crate::refused_words::tell_refused_words;
use command_line::{Job, Task};
use flash_model::{Flash, Geometry};
use fs_types::{Fault, MAX_VERSIONS, MIN_BLOCK_BYTES, MIN_VERSIONS, Path};
use host_interface::{ImageFiles, Source, UnreadCause, takes_away};
use image_jobs::{Failure, SourceFault, explain_refusal, explain_unread, load};
use image_sizes::recorded_sizes;
use raw_part::PartLayout;
use script::print_name;
use script_runs::{Refusal, mount_as_planned};
use std::alloc::{AllocError, Global};
use std::io;
use std::io::Write;

/// Bytes of the largest block.
const MAX_BLOCK_BYTES: usize = 262_144;

/// Bytes of a node of a file before its data.
const NODE_HEADER: usize = 80;

/// Bytes of the largest flash.
const MAX_FLASH_BYTES: usize = 67_108_864;

/// Tells why a job did not run to its end, unless that was told before: a put, an archive and a copy tell by
/// themselves what was refused. Why an image is refused is told by one more look at it, where the failure does
/// not tell it.
pub fn tell_failure<F: ImageFiles, E: Write>(
    files: &F,
    alloc: Global,
    job: Job<'_>,
    failure: Failure,
    err: &mut E,
) {
    let _ = match failure {
        Failure::Refused(_) if tells_refusals(job.command) => Ok(()),
        Failure::System(_) if job.command == Task::Copy => Ok(()),
        Failure::System(fault) if has_sizes(job.command) => {
            tell_refused_sizes(alloc, job, fault, err)
        }
        Failure::NoFolder if job.command == Task::Create => {
            writeln!(err, "uffs: {} is no folder", word_given(job.file))
        }
        Failure::CannotRead if job.command == Task::Update => tell_unread_of_two(files, job, err),
        Failure::Image(_) | Failure::System(_) if job.command == Task::Update => {
            tell_refused_of_two(files, alloc, job, failure, err)
        }
        Failure::System(Fault::BadGeometry) => tell_other_sizes(files, alloc, job, err),
        Failure::Refused(refusal) => tell_refused_words(files, alloc, job, refusal, err),
        Failure::Unavailable | Failure::CannotWrite => tell_unwritten(files, alloc, job, err),
        _ => {
            let read = read_by(job);
            failure.explain(read, unread_cause(files, job, read), written_by(job), err);
            Ok(())
        }
    };
}

/// Whether a task tells by itself what is refused.
fn tells_refusals(command: Task) -> bool {
    matches!(
        command,
        Task::Put | Task::Create | Task::Tar | Task::Untar | Task::Copy
    )
}

/// Whether a task is given sizes.
fn has_sizes(command: Task) -> bool {
    matches!(
        command,
        Task::Format | Task::FormatPart | Task::Create | Task::ToRaw | Task::FromRaw
    )
}

/// A word of a job; the empty one where it has none.
fn word_given(word: Option<&str>) -> &str {
    word.unwrap_or("")
}

/// Tells which of two images cannot be read, by a look at each; where that tells nothing, that one of them
/// cannot.
fn tell_unread_of_two<F: ImageFiles, E: Write>(
    files: &F,
    job: Job<'_>,
    err: &mut E,
) -> io::Result<()> {
    let first = word_given(job.image);
    let second = word_given(job.file);
    match (files.unread_cause(first), files.unread_cause(second)) {
        (None, None) => writeln!(err, "uffs: cannot read {first} or {second}"),
        (None, cause) => explain_unread(second, cause, err),
        (cause, _) => explain_unread(first, cause, err),
    }
}

/// Tells which of two images is refused, by a look at the first: the second one, where that is not refused so.
fn tell_refused_of_two<F: ImageFiles, E: Write>(
    files: &F,
    alloc: Global,
    job: Job<'_>,
    failure: Failure,
    err: &mut E,
) -> io::Result<()> {
    let first = word_given(job.image);
    let name = if is_refused_so(files, alloc, first, failure) {
        first
    } else {
        word_given(job.file)
    };
    match failure {
        Failure::Image(fault) => writeln!(err, "uffs: image {fault}: {name}"),
        Failure::System(fault) => explain_refusal(Refusal::Fault(fault), Some(name), err),
        _ => Ok(()),
    }
}

/// Whether an image is refused so, or its mount.
fn is_refused_so<F: ImageFiles>(files: &F, alloc: Global, name: &str, failure: Failure) -> bool {
    let mut flash = match load(files, alloc, name) {
        Ok(flash) => flash,
        Err(found) => return found == failure,
    };
    match mount_as_planned(alloc, &mut flash) {
        Ok(_) => false,
        Err(fault) => Failure::of_system(fault) == failure,
    }
}

/// Tells that an image is refused for its sizes, with those that its newest record tells, where a look at
/// the image finds them.
fn tell_other_sizes<F: ImageFiles, E: Write>(
    files: &F,
    alloc: Global,
    job: Job<'_>,
    err: &mut E,
) -> io::Result<()> {
    let refusal = Refusal::Fault(Fault::BadGeometry);
    match recorded_text(files, alloc, word_given(job.image)) {
        Some(text) => explain_refusal(refusal, Some(text.as_str()), err),
        None => explain_refusal(refusal, None, err),
    }
}

/// What the newest record of an image tells of the sizes of its flash, if it tells others.
fn recorded_text<F: ImageFiles>(files: &F, alloc: Global, name: &str) -> Option<String> {
    let flash = load(files, alloc, name).ok()?;
    let sizes = flash.geometry();
    let recorded = recorded_sizes(&flash)?;
    if recorded == sizes {
        return None;
    }
    let Geometry {
        page,
        pages,
        blocks,
    } = recorded;
    let text = if page == sizes.page && pages == sizes.pages {
        format!(in alloc; "the record is of {blocks} blocks")
    } else {
        format!(in alloc; "the record is of {blocks} blocks of {pages} pages of {page} bytes")
    };
    text.ok()
}

/// Tells that what a job writes cannot be written, with why where that is known: the orders of a driver are
/// no file.
fn tell_unwritten<F: ImageFiles, E: Write>(
    files: &F,
    alloc: Global,
    job: Job<'_>,
    err: &mut E,
) -> io::Result<()> {
    let name = written_by(job);
    if has_two_names(job.command) && would_take_away(files, alloc, name, read_by(job)) {
        return writeln!(
            err,
            "uffs: cannot write {name}: that would take {} away",
            read_by(job)
        );
    }
    let cause = match job.command {
        Task::Serve => None,
        _ => files.unwritten_cause(alloc, name),
    };
    match cause {
        Some(cause) => writeln!(err, "uffs: cannot write {name}: {cause}"),
        None => writeln!(err, "uffs: cannot write {name}"),
    }
}

/// Whether a task reads one file and writes another.
fn has_two_names(command: Task) -> bool {
    matches!(
        command,
        Task::Get
            | Task::MapPage
            | Task::ToPart
            | Task::FromPart
            | Task::ToRaw
            | Task::FromRaw
            | Task::Copy
    )
}

/// Whether to write the file of a name takes the one of another name away, by the names or by a look.
fn would_take_away<F: ImageFiles>(files: &F, alloc: Global, name: &str, other: &str) -> bool {
    matches!(takes_away(alloc, name, other), Ok(true))
        || matches!(files.takes_away(alloc, name, other), Ok(true))
}

/// The name of what a job reads.
fn read_by(job: Job<'_>) -> &str {
    match job.command {
        Task::Serve => word_given(job.answers),
        Task::ServePart => word_given(job.part),
        Task::FromPart | Task::FromRaw => word_given(job.file),
        _ => word_given(job.image),
    }
}

/// The name of what a job writes.
fn written_by(job: Job<'_>) -> &str {
    match job.command {
        Task::Get | Task::MapPage | Task::ToPart | Task::ToRaw | Task::Copy => {
            word_given(job.file)
        }
        Task::Serve => word_given(job.orders),
        Task::ServePart | Task::FormatPart => word_given(job.part),
        _ => word_given(job.image),
    }
}

/// Why what a job reads cannot be read, where that is known: the answers of a driver are no file.
fn unread_cause<F: ImageFiles>(files: &F, job: Job<'_>, name: &str) -> Option<UnreadCause> {
    match job.command {
        Task::Serve => None,
        _ => files.unread_cause(name),
    }
}

/// Tells why sizes are refused, with the number that they are refused for.
fn tell_refused_sizes<E: Write>(
    alloc: Global,
    job: Job<'_>,
    fault: Fault,
    err: &mut E,
) -> io::Result<()> {
    let refusal = Refusal::Fault(fault);
    match refused_number(alloc, job, fault) {
        Ok(Some(number)) => explain_refusal(refusal, Some(number.as_str()), err),
        _ => explain_refusal(refusal, None, err),
    }
}

/// The number that a job is refused for, if it is one, with what it may be.
fn refused_number(alloc: Global, job: Job<'_>, fault: Fault) -> Result<Option<String>, AllocError> {
    let text = match (fault, job.command) {
        (Fault::BadGeometry, Task::ToRaw) => {
            String::from_str(
                alloc,
                "its pages are not 256 bytes, 16, 31, 46, 62 .. 992 in a block",
            )?
        }
        (Fault::BadGeometry, Task::FromRaw) => refused_raw(alloc, job)?,
        _ => return format_number(alloc, sizes_of(job), job.history, fault),
    };
    Ok(Some(text))
}

/// Tells why a format for these sizes and so many versions is refused, with the number that it is refused
/// for.
pub fn tell_refused_format<E: Write>(
    alloc: Global,
    sizes: Geometry,
    history: u32,
    fault: Fault,
    err: &mut E,
) {
    let refusal = Refusal::Fault(fault);
    let _ = match format_number(alloc, sizes, history, fault) {
        Ok(Some(number)) => explain_refusal(refusal, Some(number.as_str()), err),
        _ => explain_refusal(refusal, None, err),
    };
}

/// The number that a format is refused for, if it is one, with what it may be.
fn format_number(
    alloc: Global,
    sizes: Geometry,
    history: u32,
    fault: Fault,
) -> Result<Option<String>, AllocError> {
    let text = match fault {
        Fault::BadGeometry => refused_size(alloc, sizes)?,
        Fault::Invalid => {
            format!(in alloc; "--history {history} is not {MIN_VERSIONS} to {MAX_VERSIONS}")?
        }
        _ => return Ok(None),
    };
    Ok(Some(text))
}

fn sizes_of(job: Job<'_>) -> Geometry {
    Geometry {
        page: job.page,
        pages: job.pages,
        blocks: job.blocks,
    }
}

/// The first of the sizes for the bytes of a part that is none, or that their length is none.
fn refused_raw(alloc: Global, job: Job<'_>) -> Result<String, AllocError> {
    let page = job.page;
    let pages = job.pages;
    if page != 256 {
        return format!(in alloc; "--page {page} is not 256");
    }
    let Some(layout) = PartLayout::of_pages(pages) else {
        return format!(in alloc; "--pages {pages} is not 16, 31, 46, 62 .. 992");
    };
    let bytes = layout.part_block();
    let most = most_blocks(pages);
    if job.is_blocks_given {
        return refused_first_blocks(alloc, job.blocks, bytes, most);
    }
    format!(in alloc; "it has not {bytes} bytes for each of 16 to {most} blocks")
}

/// The most blocks of so many pages of 256 bytes.
fn most_blocks(pages: u32) -> usize {
    MAX_FLASH_BYTES / (256 * (pages as usize).max(1))
}

/// Why so many first blocks of the bytes of a part are refused, of which each has so many bytes there.
fn refused_first_blocks(
    alloc: Global,
    blocks: u32,
    bytes: usize,
    most: usize,
) -> Result<String, AllocError> {
    if blocks < 16 || most < blocks as usize {
        return format!(in alloc; "--blocks {blocks} is not 16 to {most}");
    }
    format!(in alloc; "it has not {bytes} bytes for each of {blocks} blocks")
}

/// The first of the sizes that is none, with what it may be beside those before it.
fn refused_size(alloc: Global, sizes: Geometry) -> Result<String, AllocError> {
    let Geometry {
        page,
        pages,
        blocks,
    } = sizes;
    if !matches!(page, 256 | 512 | 1024 | 2048 | 4096) {
        return format!(in alloc; "--page {page} is not 256, 512, 1024, 2048 or 4096");
    }
    let bytes = sizes.block_bytes();
    if bytes < MIN_BLOCK_BYTES || bytes > MAX_BLOCK_BYTES {
        let least = MIN_BLOCK_BYTES / page as usize;
        let most = MAX_BLOCK_BYTES / page as usize;
        return format!(in alloc; "--pages {pages} is not {least} to {most} for this page");
    }
    let most = MAX_FLASH_BYTES / bytes;
    format!(in alloc; "--blocks {blocks} is not 16 to {most} for these blocks")
}

/// Tells why what stands at a name of the host is not put.
pub fn tell_misplaced<F: ImageFiles, E: Write>(
    files: &F,
    failure: Failure,
    source: &Source,
    err: &mut E,
) {
    let name = source.name.as_str();
    match failure {
        Failure::Source(SourceFault::Unreadable) => {
            tell_unread(name, files.unread_cause(name), err);
        }
        Failure::Source(fault) => tell_fault(fault, name, err),
        _ => {}
    }
}

/// Tells that what is to be put cannot be read, with why: a folder may be one.
fn tell_unread<E: Write>(name: &str, cause: Option<UnreadCause>, err: &mut E) {
    let _ = match cause {
        Some(UnreadCause::Folder) => writeln!(
            err,
            "uffs: cannot read {name}: it may not be listed, or a name in it is not UTF-8"
        ),
        _ => explain_unread(name, cause, err),
    };
}

/// Tells that a link is left out.
pub fn tell_left_out<E: Write>(name: &str, err: &mut E) {
    let _ = writeln!(err, "uffs: left out {name}: it is a link");
}

/// Tells why what has a name is not put.
pub fn tell_fault<E: Write>(fault: SourceFault, name: &str, err: &mut E) {
    let _ = writeln!(err, "uffs: cannot put {name}: {fault}");
}

/// Tells that something is refused, which is named so.
pub fn tell_refusal<E: Write>(refusal: Refusal, what: &str, err: &mut E) {
    let named = if what.is_empty() { None } else { Some(what) };
    let _ = explain_refusal(refusal, named, err);
}

/// Tells that a file of so many bytes, or a directory, is refused at a path. Where the flash is full that
/// says how many blocks the bytes take.
pub fn tell_refused<E: Write>(
    alloc: Global,
    refusal: Refusal,
    place: &Path,
    bytes: u64,
    sizes: Geometry,
    err: &mut E,
) {
    match refused_text(alloc, refusal, place, bytes, sizes) {
        Ok(text) => tell_refusal(refusal, text.as_str(), err),
        Err(_) => tell_refusal(refusal, "", err),
    }
}

/// What is told of a path that is refused.
fn refused_text(
    alloc: Global,
    refusal: Refusal,
    place: &Path,
    bytes: u64,
    sizes: Geometry,
) -> Result<String, AllocError> {
    let mut text = place_text(alloc, place)?;
    if refusal == Refusal::Fault(Fault::FlashFull) && bytes > 0 {
        let blocks = blocks_for(bytes, sizes);
        write!(text, ", blocks for its bytes: {blocks}")?;
    }
    Ok(text)
}

/// How many blocks so many bytes of a file take.
fn blocks_for(bytes: u64, sizes: Geometry) -> u64
    requires { 0 < bytes }
{
    let room = sizes.block_bytes().saturating_sub(NODE_HEADER).max(1);
    (bytes - 1) / room as u64 + 1
}

/// A path, spelled as in a script.
fn place_text(alloc: Global, place: &Path) -> Result<String, AllocError> {
    let mut bytes = Vec::new(alloc);
    if place.names().is_empty() {
        bytes.push(b'/')?;
    }
    for name in place.names() {
        bytes.push(b'/')?;
        print_name(&mut bytes, name.as_bytes())?;
    }
    match String::from_utf8(bytes) {
        Ok(text) => Ok(text),
        Err(_) => Ok(String::new(alloc)),
    }
}
