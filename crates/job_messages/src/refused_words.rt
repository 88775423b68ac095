//! What is told where what the words of a job name was refused.
use command_line::{HistoryCall, Job, Task};
use fs_types::Fault;
use host_interface::ImageFiles;
use image_jobs::{explain_refusal, look_at_image};
use script_runs::Refusal;
use std::alloc::{AllocError, Global};
use std::io;
use std::io::Write;

/// Tells that something was refused, with how it is spelled or which names there are, where that helps.
pub(crate) fn tell_refused_words<F: ImageFiles, E: Write>(
    files: &F,
    alloc: Global,
    job: Job<'_>,
    refusal: Refusal,
    err: &mut E,
) -> io::Result<()> {
    match advice(files, alloc, job, refusal) {
        Ok(Some(text)) => explain_refusal(refusal, Some(text.as_str()), err),
        _ => explain_refusal(refusal, None, err),
    }
}

/// What helps who gave the words that were refused, if something does.
fn advice<F: ImageFiles>(
    files: &F,
    alloc: Global,
    job: Job<'_>,
    refusal: Refusal,
) -> Result<Option<String>, AllocError> {
    match (job.command, refusal) {
        (
            Task::History(HistoryCall::Rollback | HistoryCall::RemoveCheckpoint),
            Refusal::Fault(Fault::NoSuchVersion),
        ) => advise_checkpoints(files, alloc, job),
        (Task::History(HistoryCall::Goto), Refusal::Syntax) => {
            let text = String::from_str(alloc, "SERIAL is a number, as log tells it")?;
            Ok(Some(text))
        }
        (_, Refusal::Syntax) => advise_versions(alloc, job),
        _ => Ok(None),
    }
}

/// That the name of a job is of no checkpoint, with those that there are.
fn advise_checkpoints<F: ImageFiles>(
    files: &F,
    alloc: Global,
    job: Job<'_>,
) -> Result<Option<String>, AllocError> {
    let name = job.checkpoint.unwrap_or("");
    let text = match checkpoint_names(files, alloc, job.image.unwrap_or(""))? {
        None => return Ok(None),
        Some(names) if names.is_empty() => format!(in alloc;
            "{name} is no checkpoint, and there is none"
        )?,
        Some(names) => format!(in alloc; "{name} is no checkpoint; there are {names}")?,
    };
    Ok(Some(text))
}

/// The names of the checkpoints of an image, with commas between them, as `log` tells them; none where
/// that fails.
fn checkpoint_names<F: ImageFiles>(
    files: &F,
    alloc: Global,
    image: &str,
) -> Result<Option<String>, AllocError> {
    let mut reply = Vec::new(alloc);
    if look_at_image(files, alloc, image, b"log\n", &mut reply).is_err() {
        return Ok(None);
    }
    let Ok(reply) = String::from_utf8(reply) else {
        return Ok(None);
    };
    match reply.as_str().split_once(" checkpoints") {
        Some((_versions, names)) => Ok(Some(names.trim().replace(alloc, " ", ", ")?)),
        None => Ok(None),
    }
}

/// How versions are spelled, where a view of a job is a number alone.
fn advise_versions(alloc: Global, job: Job<'_>) -> Result<Option<String>, AllocError> {
    let view = job.view.unwrap_or("");
    let other = job.other.unwrap_or("");
    let text = match (is_number(view), is_number(other)) {
        (true, true) => format!(in alloc; "versions are spelled @{view} and @{other}")?,
        (true, false) => format!(in alloc; "a version is spelled @{view}")?,
        (false, true) => format!(in alloc; "a version is spelled @{other}")?,
        (false, false) => return Ok(None),
    };
    Ok(Some(text))
}

/// Whether a word is digits alone.
fn is_number(word: &str) -> bool {
    !word.is_empty() && word.as_bytes().iter().all(|byte| byte.is_ascii_digit())
}
