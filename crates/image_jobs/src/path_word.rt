//! A path that a word of the program spells.
ghost use Rattle.std.specs.Prelude.{◌≡◌, ◌++◌, codes, Ok, IfOk, OnOk, IfErr};
ghost use Rattle.script.specs.Lines.{line_of};
ghost use Rattle.image_jobs.specs.PathWords.{path_escaped, path_spelled, path_of_line, path_of_call, SpellingCause};

use crate::failure::Failure;
use fs_types::{Ask, Call, Event, Path};
use script::{Line, print_name, read_line};
use script_runs::Refusal;
use std::alloc::{AllocError, Global};

/// The path that a word spells: with a `%` as the line `mkdir` of a script takes it, else each of its
/// bytes is meant. Refused as that line is.
pub fn path_of_word(alloc: Global, word: &str) -> Result<Path, Failure>
    ensures ok { IfOk result (λ path. path_spelled word.now ≡ Ok path) }
    ensures err { IfErr result (SpellingCause word.now) }
{
    match line_of_word(alloc, word) {
        Ok(line) => path_of_line(line),
        Err(_) => Err(Failure::Memory),
    }
}

/// The line `mkdir` with a word after it.
fn line_of_word(alloc: Global, word: &str) -> Result<Line, AllocError>
    ensures { IfOk result (λ line. line ≡ line_of (codes "mkdir " ++ path_escaped word.now)) }
{
    let mut bytes = Vec::new(alloc);
    bytes.extend_from_slice(b"mkdir ")?;
    add_path(&mut bytes, word.as_bytes())?;
    read_line(alloc, &bytes)
}

/// Appends a path, spelled as in a script: as it is where it has a `%`, else with its escapes.
fn add_path(bytes: &mut Vec<u8>, word: &[u8]) -> Result<(), AllocError>
    ensures { OnOk result (bytes.new.items ≡ bytes.old.items ++ path_escaped word.now) }
{
    if word.contains(&b'%') {
        bytes.extend_from_slice(word)
    } else {
        print_name(bytes, word)
    }
}

/// The path that a line `mkdir` names.
fn path_of_line(line: Line) -> Result<Path, Failure>
    ensures { result ≡ path_of_line line }
{
    match line {
        Line::Ask(Ask::Event(Event::Call(call))) => path_of_call(call),
        Line::Refused(fault) => Err(Failure::Refused(Refusal::Fault(fault))),
        _ => Err(Failure::Refused(Refusal::Syntax)),
    }
}

fn path_of_call(call: Call) -> Result<Path, Failure>
    ensures { result ≡ path_of_call call }
{
    match call {
        Call::Mkdir { path } => Ok(path),
        _ => Err(Failure::Refused(Refusal::Syntax)),
    }
}
