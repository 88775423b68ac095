//! What the program `uffs` does with its words.
ghost use Rattle.std.specs.Prelude.{◌≡◌, IsTrue, map, string_bytes};
ghost use Rattle.clap.specs.Words.{kind_of};
ghost use Rattle.host_interface.specs.Files.{ReadsClaimed, ReadsBeside};
ghost use Rattle.script_runs.specs.Scripts.{streams_at};
ghost use Rattle.image_jobs.specs.Images.{host_at};
ghost use Rattle.shell.specs.Tools.{known_by, image_asked, EndsAlone, EndsOn, JobEnds, MemoryEnds, ToolEnds, MemoryBy, history_word, raw_asked, sizes_of, word_given, refused_status, is_memory};

use crate::about::{tell_help, tell_version};
use crate::copy::{copy_to, number_given};
use crate::explanations::explain;
use crate::get::get_to;
use crate::nearest::tell_unexplained;
use crate::put_from::put_from;
use crate::serving::{history_given, serve_part};
use archive_jobs::{put_archive, tell_archive};
use clap::Error;
use clap::error::ErrorKind;
use command_line::{HistoryCall, Job, Task, job};
use flash_model::Geometry;
use host_interface::{Channels, Folders, ImageFiles, Parts, Sources};
use image_jobs::{
    Failure, check_image, format_image, run_image, tell_differences, tell_file, tell_last_change,
    tell_list, tell_path_history, tell_tree, tell_versions,
};
use image_words::{
    Creation, NewImage, RawSizes, change_history, create_image, format_part, image_to_part,
    image_to_raw, part_to_image, raw_to_image, save_map_page, serve_part_file, tell_map,
    tell_replies, tell_update, tell_usages, trim_image,
};
use job_messages::tell_failure;
use put_jobs::Order;
use script_runs::run_in_memory;
use std::alloc::Global;
use std::io::{Read, Write};

/// Carries out the words that follow the program's name, and answers the status.
///
/// The subcommands, what each reads and writes, and the lines on `err` are those of docs/program.md.
/// Status 0: the job ran to its end, whatever the replies to a script. 1: the image, the part, the input,
/// the output or memory failed. 2: the words were refused, also where they want a folder and what is put
/// is none, or help was asked for. 3: the image, the part, a format or a mount was refused. 4: what was
/// asked for was refused, or a line of a script that is to stop there. 5: trees differ, where the status
/// is to tell it, or something of an image that was salvaged is lost. Where it is 1 to 4, `err` says why.
pub fn tool<F: Folders + Sources + Channels + Parts, R: Read, W: Write, E: Write>(
    files: &mut F,
    alloc: Global,
    words: &[String],
    reader: &mut R,
    out: &mut W,
    err: &mut E,
) -> u8
    ensures ends { ToolEnds (map string_bytes words.now) (known_by (ReadsClaimed F.claims F.reads) (ReadsBeside F.claims F.reads_source) (F.gathered files.old) (F.written files.old) (F.placed files.old)) (host_at (F.held files.old) (R.remaining reader.old) (W.contents out.old)) result (host_at (F.held files.new) (R.remaining reader.new) (W.contents out.new)) }
    // The word `memory` is understood.
    ensures memory { IsTrue (is_memory (map string_bytes words.now)) → MemoryBy (streams_at (R.remaining reader.old) (W.contents out.old)) result (streams_at (R.remaining reader.new) (W.contents out.new)) }
{
    let job = match job(alloc, words) {
        Ok(job) => job,
        Err(error) => return refuse(&error, err),
    };
    match carry_out(files, alloc, job, reader, out, err) {
        Ok(()) => 0,
        Err(failure) => {
            tell_why(files, alloc, job, failure, err);
            failure.status()
        }
    }
}

/// Says why a job did not run to its end.
fn tell_why<F: ImageFiles, E: Write>(
    files: &F,
    alloc: Global,
    job: Job<'_>,
    failure: Failure,
    err: &mut E,
) {
    match (job.command, failure) {
        (Task::Explain, Failure::Refused(_)) => {
            tell_unexplained(alloc, word_given(job.refusal), err);
        }
        _ => tell_failure(files, alloc, job, failure, err),
    }
}

/// Says why the words are refused, or gives the help that they ask for, and answers the status.
fn refuse<E: Write>(error: &Error, err: &mut E) -> u8
    ensures { result ≡ refused_status (kind_of error.now) }
{
    match error.kind() {
        ErrorKind::OutOfMemory => {
            Failure::Memory.explain("", None, "", err);
            1
        }
        _ => {
            let _ = write!(err, "{error}");
            2
        }
    }
}

/// Does a job.
fn carry_out<F: Folders + Sources + Channels + Parts, R: Read, W: Write, E: Write>(
    files: &mut F,
    alloc: Global,
    job: Job<'_>,
    reader: &mut R,
    out: &mut W,
    err: &mut E,
) -> Result<(), Failure>
    ensures { JobEnds job.entry (known_by (ReadsClaimed F.claims F.reads) (ReadsBeside F.claims F.reads_source) (F.gathered files.old) (F.written files.old) (F.placed files.old)) (host_at (F.held files.old) (R.remaining reader.old) (W.contents out.old)) result (host_at (F.held files.new) (R.remaining reader.new) (W.contents out.new)) }
{
    match job.image {
        Some(name) => do_task(files, alloc, job, name, reader, out, err),
        None => do_alone(files, alloc, job, reader, out),
    }
}

/// Does a task that is done on no image.
fn do_alone<F: Folders + Channels + Sources + Parts, R: Read, W: Write>(
    files: &mut F,
    alloc: Global,
    job: Job<'_>,
    reader: &mut R,
    out: &mut W,
) -> Result<(), Failure>
    ensures { EndsAlone job.entry.command job.entry (known_by (ReadsClaimed F.claims F.reads) (ReadsBeside F.claims F.reads_source) (F.gathered files.old) (F.written files.old) (F.placed files.old)) (host_at (F.held files.old) (R.remaining reader.old) (W.contents out.old)) result (host_at (F.held files.new) (R.remaining reader.new) (W.contents out.new)) }
{
    match job.command {
        Task::Serve => serve_part(files, alloc, job, reader, out),
        Task::ServePart => {
            let part = word_given(job.part);
            serve_part_file(files, alloc, part, history_given(job), reader, out)
        }
        Task::FormatPart => {
            let part = word_given(job.part);
            format_part(files, alloc, part, sizes_of(job), job.history)
        }
        Task::Explain => explain(alloc, word_given(job.refusal), out),
        Task::Help => tell_help(alloc, job.word, out),
        Task::Version => tell_version(alloc, out),
        _ => play_in_memory(alloc, reader, out),
    }
}

/// Does a task on an image.
fn do_task<F: Folders + Sources + Channels + Parts, R: Read, W: Write, E: Write>(
    files: &mut F,
    alloc: Global,
    job: Job<'_>,
    name: &str,
    reader: &mut R,
    out: &mut W,
    err: &mut E,
) -> Result<(), Failure>
    ensures { EndsOn job.entry name.now (known_by (ReadsClaimed F.claims F.reads) (ReadsBeside F.claims F.reads_source) (F.gathered files.old) (F.written files.old) (F.placed files.old)) (host_at (F.held files.old) (R.remaining reader.old) (W.contents out.old)) result (host_at (F.held files.new) (R.remaining reader.new) (W.contents out.new)) }
{
    match job.command {
        Task::Format => format_image(files, alloc, name, sizes_of(job), job.history),
        Task::Run => run_image(files, alloc, name, job.stop, reader, out),
        Task::Put => put_from(files, alloc, name, order_of(job), reader, err),
        Task::Create => create_image(files, alloc, name, creation_of(job), err),
        Task::Copy => copy_to(files, alloc, job, name, err),
        Task::History(call) => {
            let word = history_word(call, job);
            change_history(files, alloc, name, call, word, job.count)
        }
        Task::Trim => trim_image(files, alloc, name),
        Task::Get => get_to(files, alloc, job, name, out),
        Task::Cat => tell_file(files, alloc, name, word_given(job.path), job.view, out),
        Task::Tree => tell_tree(files, alloc, name, job.view, out),
        Task::List => tell_list(files, alloc, name, job.path, job.view, out),
        Task::Usage => tell_usages(files, alloc, name, job.path, job.view, out),
        Task::PathHistory => tell_path_history(files, alloc, name, word_given(job.path), out),
        Task::Diff => {
            let exit_code = job.exit_code;
            tell_differences(files, alloc, name, job.view, job.other, exit_code, out)
        }
        Task::LastChange => tell_last_change(files, alloc, name, job.exit_code, out),
        Task::Versions => tell_versions(files, alloc, name, out),
        Task::Update => {
            let other = word_given(job.file);
            tell_update(files, alloc, name, other, job.changes, out)
        }
        Task::Tar => tell_archive(files, alloc, name, job.view, out, err),
        Task::Untar => {
            let path = word_given(job.path);
            put_archive(files, alloc, name, path, job.skip_links, reader, err)
        }
        Task::Check => check_image(files, alloc, name, out),
        Task::Log => tell_replies(files, alloc, name, b"log\n", out),
        Task::Df => tell_replies(files, alloc, name, b"df\n", out),
        Task::Map => tell_map(files, alloc, name, out),
        Task::MapPage => save_map_page(files, alloc, name, word_given(job.file)),
        Task::ToPart => image_to_part(files, alloc, name, word_given(job.file)),
        Task::FromPart => part_to_image(files, alloc, word_given(job.file), name),
        Task::ToRaw => image_to_raw(files, alloc, name, word_given(job.file)),
        Task::FromRaw => raw_to_image(files, alloc, word_given(job.file), name, raw_asked(job)),
        Task::Memory | Task::Serve | Task::ServePart | Task::FormatPart => {
            do_alone(files, alloc, job, reader, out)
        }
        Task::Explain | Task::Help | Task::Version => do_alone(files, alloc, job, reader, out),
    }
}

fn order_of(job: Job<'_>) -> Order<'_>
    ensures file { result.file.now ≡ word_given job.entry.file }
    ensures path { result.path.now ≡ word_given job.entry.path }
    ensures mirror { result.mirror ≡ job.entry.mirror }
    ensures skips { result.skip_links ≡ job.entry.skip_links }
{
    Order {
        file: word_given(job.file),
        path: word_given(job.path),
        mirror: job.mirror,
        skip_links: job.skip_links,
        progress: job.progress,
    }
}

/// What an image is made of.
fn creation_of(job: Job<'_>) -> Creation<'_>
    ensures folder { result.folder.now ≡ word_given job.entry.file }
    ensures image { result.image ≡ image_asked job.entry }
    ensures skips { result.skip_links ≡ job.entry.skip_links }
{
    Creation {
        folder: word_given(job.file),
        image: image_asked(job),
        skip_links: job.skip_links,
        progress: job.progress,
    }
}

/// What a new image is to have.
fn image_asked(job: Job<'_>) -> NewImage
    ensures { result ≡ image_asked job.entry }
{
    NewImage {
        page: job.page,
        pages: job.pages,
        blocks: if job.is_blocks_given {
            Some(job.blocks)
        } else {
            None
        },
        history: job.history,
    }
}

/// What is asked of the bytes of a part.
fn raw_asked(job: Job<'_>) -> RawSizes
    ensures { result ≡ raw_asked job.entry }
{
    RawSizes {
        page: job.page,
        pages: job.pages,
        blocks: number_given(job.blocks, job.is_blocks_given),
    }
}

/// The word of a call of the history: the serial of a version, or the name of a checkpoint.
fn history_word<'a>(call: HistoryCall, job: Job<'a>) -> &'a str
    ensures { result.now ≡ history_word call job.entry }
{
    match call {
        HistoryCall::Goto => word_given(job.serial),
        _ => word_given(job.checkpoint),
    }
}

/// A word of a job; the empty one where it has none.
pub(crate) fn word_given(word: Option<&str>) -> &str
    ensures { result.now ≡ word_given word.entry }
{
    match word {
        Some(word) => word,
        None => "",
    }
}

fn sizes_of(job: Job<'_>) -> Geometry
    ensures { result ≡ sizes_of job.entry }
{
    Geometry {
        page: job.page,
        pages: job.pages,
        blocks: job.blocks,
    }
}

fn play_in_memory<R: Read, W: Write>(
    alloc: Global,
    reader: &mut R,
    out: &mut W,
) -> Result<(), Failure>
    ensures { MemoryEnds (streams_at (R.remaining reader.old) (W.contents out.old)) result (streams_at (R.remaining reader.new) (W.contents out.new)) }
{
    match run_in_memory(alloc, reader, out) {
        Ok(()) => Ok(()),
        Err(fault) => Err(Failure::of_script(fault)),
    }
}
