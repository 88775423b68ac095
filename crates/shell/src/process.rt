//! The program as a process of the host.
use crate::program::tool;
use crate::streams::{fill_closed_streams, is_output};
use command_line::{Task, job};
use host_files::HostFiles;
use std::env::Env;
use std::fs::File;
use std::io::{BufReader, Error, ErrorKind, Write};
use std::rt::Files;
use std::{env, io};

/// Carries out the words of the process, with the files of the host, its input and its output, and
/// answers the status, as [`tool`] does. 2 where a word is not UTF-8, and 1 for memory and where the
/// output is an image that the words name, each with its line. A standard stream that is closed fails
/// where it is used, and no file takes its place. A new file that was left and is removed is told.
pub fn run_process<R, E>(rt: &R, err: &mut E) -> u8
where
    R: Files<File = File> + Env + Input + Print + AllocGlobal,
    E: Write,
{
    let filled = match fill_closed_streams(rt, rt.alloc()) {
        Ok(filled) => filled,
        Err(error) => return refuse_streams(&error, err),
    };
    let status = match carry_out_words(rt, err) {
        Ok(status) => status,
        Err(error) => refuse(&error, err),
    };
    drop(filled);
    status
}

/// Refused where a word is not UTF-8, and for memory.
fn carry_out_words<R, E>(rt: &R, err: &mut E) -> io::Result<u8>
where
    R: Files<File = File> + Env + Input + Print + AllocGlobal,
    E: Write,
{
    let words: Vec<String> = env::args(rt)?.skip(1).collect(rt.alloc())?;
    if let Some(name) = output_named(rt, words.as_slice()) {
        let _ = writeln!(err, "uffs: output is {name}");
        return Ok(1);
    }
    let mut files = HostFiles::new(rt);
    let mut reader = BufReader::new(rt.alloc(), rt.reader())?;
    let mut out = io::writer(rt);
    let status = tool(
        &mut files,
        rt.alloc(),
        words.as_slice(),
        &mut reader,
        &mut out,
        err,
    );
    if let Some(name) = files.removed() {
        let _ = writeln!(err, "uffs: removed {name}");
    }
    Ok(status)
}

/// The image or the part that words name, where the output is that file: what is told would be written
/// into it.
fn output_named<'a, R: Files + AllocGlobal>(rt: &R, words: &'a [String]) -> Option<&'a str> {
    let Ok(job) = job(rt.alloc(), words) else {
        return None;
    };
    let other = match job.command {
        Task::Update => job.file,
        _ => job.part,
    };
    match (job.image, other) {
        (Some(name), _) if is_output(rt, name) => Some(name),
        (_, Some(name)) if is_output(rt, name) => Some(name),
        _ => None,
    }
}

/// Says why the standard streams are not to be had, and answers the status.
fn refuse_streams<E: Write>(error: &Error, err: &mut E) -> u8 {
    let _ = match error.kind() {
        ErrorKind::OutOfMemory => writeln!(err, "uffs: ENOMEM 25"),
        _ => writeln!(err, "uffs: input"),
    };
    1
}

/// Says why nothing was carried out, and answers the status.
fn refuse<E: Write>(error: &Error, err: &mut E) -> u8 {
    if error.kind() == ErrorKind::OutOfMemory {
        let _ = writeln!(err, "uffs: ENOMEM 25");
        return 1;
    }
    let _ = writeln!(err, "error: a word is not UTF-8\n\nUsage: uffs <COMMAND>");
    2
}
