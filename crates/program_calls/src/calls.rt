//! Calls of the program, as its `main` makes them, over any files.
use host_interface::{Channels, Folders, Parts, Sources};
use shell::tool;
use std::alloc::{AllocError, Global};

/// The words, each owned.
pub fn words_of(alloc: Global, words: &[&str]) -> Result<Vec<String>, AllocError> {
    let mut all = Vec::new(alloc);
    for word in words {
        all.push(String::from_str(alloc, word)?)?;
    }
    Ok(all)
}

/// What a call of the program gave. Bytes that are no text are shown as U+FFFD.
#[derive(Debug, Drop)]
pub struct Outcome {
    /// Its status.
    pub status: u8,
    /// What it wrote.
    pub out: String,
    /// What it wrote on standard error.
    pub err: String,
}

/// Calls the program with words and an input.
pub fn call<F: Folders + Sources + Channels + Parts>(
    files: &mut F,
    alloc: Global,
    words: &[&str],
    script: &str,
) -> Result<Outcome, AllocError> {
    let words = words_of(alloc, words)?;
    let mut reader = script.as_bytes();
    let mut out: Vec<u8> = Vec::new(alloc);
    let mut err: Vec<u8> = Vec::new(alloc);
    let status = tool(files, alloc, &words, &mut reader, &mut out, &mut err);
    Ok(Outcome {
        status,
        out: String::from_utf8_lossy(alloc, &out)?,
        err: String::from_utf8_lossy(alloc, &err)?,
    })
}

/// A call of the program that is tried: its words, its input, and the status, output and messages that
/// are wanted.
pub type Wanted<'a> = (&'a [&'a str], &'a str, (u8, &'a str, &'a str));

/// Makes calls of the program one after the other: what the first one gave that did not give what is
/// wanted. None is made after it.
pub fn first_other<F: Folders + Sources + Channels + Parts>(
    files: &mut F,
    alloc: Global,
    calls: &[Wanted<'_>],
) -> Result<Option<Outcome>, AllocError> {
    for (words, script, wanted) in calls {
        let given = call(files, alloc, words, script)?;
        if (given.status, given.out.as_str(), given.err.as_str()) != *wanted {
            return Ok(Some(given));
        }
    }
    Ok(None)
}
