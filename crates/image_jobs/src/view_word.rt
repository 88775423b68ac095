//! A view of an image that a word of the program spells.
ghost use Rattle.std.specs.Prelude.{◌≡◌, ◌++◌, codes, Ok, IfOk, IfErr};
ghost use Rattle.script.specs.Lines.{line_of};
ghost use Rattle.image_jobs.specs.InquiryWords.{view_spelled, view_of_line, view_of_call, IsMisspelled};

use crate::failure::Failure;
use fs_types::{Ask, Call, Event, View};
use script::{Line, read_line};
use script_runs::Refusal;
use std::alloc::{AllocError, Global};

/// The view that a word spells, as the line `stat` of a script takes it, and the present version where
/// there is no word. Refused as that line is.
pub fn view_of_word(alloc: Global, word: Option<&str>) -> Result<View, Failure>
    ensures ok { IfOk result (λ view. view_spelled word.entry ≡ Ok view) }
    ensures err { IfErr result (IsMisspelled (view_spelled word.entry)) }
{
    let word = match word {
        Some(word) => word,
        None => return Ok(View::Present),
    };
    match line_with_view(alloc, word) {
        Ok(line) => view_of_line(line),
        Err(_) => Err(Failure::Memory),
    }
}

/// The line `stat` of the root, with a word after it.
fn line_with_view(alloc: Global, word: &str) -> Result<Line, AllocError>
    ensures { IfOk result (λ line. line ≡ line_of (codes "stat / " ++ word.now)) }
{
    let mut bytes = Vec::new(alloc);
    bytes.extend_from_slice(b"stat / ")?;
    bytes.extend_from_slice(word.as_bytes())?;
    read_line(alloc, &bytes)
}

/// The view that a line `stat` names.
fn view_of_line(line: Line) -> Result<View, Failure>
    ensures { result ≡ view_of_line line }
{
    match line {
        Line::Ask(Ask::Event(Event::Call(call))) => view_of_call(call),
        Line::Refused(fault) => Err(Failure::Refused(Refusal::Fault(fault))),
        _ => Err(Failure::Refused(Refusal::Syntax)),
    }
}

fn view_of_call(call: Call) -> Result<View, Failure>
    ensures { result ≡ view_of_call call }
{
    match call {
        Call::Stat { view, path: _path } => Ok(view),
        _ => Err(Failure::Refused(Refusal::Syntax)),
    }
}
