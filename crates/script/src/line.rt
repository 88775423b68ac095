//! Lines, read from their bytes.
ghost use Rattle.std.specs.Prelude.{◌≡◌, ◌≢◌, ◌==◌, Ok, Err, IfOk, IfErr, map};
ghost use Rattle.std.specs.List.{slice_split};
ghost use Rattle.script.specs.declared.misread.Misread.TheVariants.{NoMemory};
ghost use Rattle.script.specs.Lines.{alone, asked, call_line, event_line, line_of, line_of_words};

use crate::arguments::no_words;
use crate::forms::{
    entries, fault, ftruncate, list, only_name, only_number, only_path, open, pread, pwrite, read,
    rename, stat, write_file,
};
use crate::misread::Misread;
use crate::verb::{Verb, verb_of};
use flash_model::FaultKind;
use fs_types::{Ask, Call, Event, Fault};
use std::alloc::{AllocError, Global};

/// The most bytes of a line, its LF left out.
pub const LINE_LIMIT: usize = 65_536;

/// What a line asks.
#[derive(Debug, Drop)]
pub enum Line {
    /// Something is asked: a call, a step, a restart, or what the history holds.
    Ask(Ask),
    /// The `k`-th operation of the kind's class from now on, counted from 1, fails so. Who plans
    /// it refuses 0.
    PlanFault { k: u64, kind: FaultKind },
    /// A path or a name in the line is refused.
    Refused(Fault),
    /// The line has no form of a line.
    Syntax,
}

/// The line that asks for an event.
pub(crate) fn event_line(event: Event) -> Line
    ensures { result ≡ event_line event }
{
    Line::Ask(Ask::Event(event))
}

/// The line that asks for a call.
pub(crate) fn call_line(call: Call) -> Line
    ensures { result ≡ call_line call }
{
    event_line(Event::Call(call))
}

/// This line, where no word follows.
fn line_without_words(words: &[&[u8]], line: Line) -> Result<Line, Misread>
    ensures { result ≡ alone line (map (λ w. w.now) words.now) }
{
    no_words(words)?;
    Ok(line)
}

/// What the words after a verb ask.
fn line_by_verb(alloc: Global, verb: Verb, words: &[&[u8]]) -> Result<Line, Misread>
    ensures ok { IfOk result (λ line. asked verb (map (λ w. w.now) words.now) ≡ Ok line) }
    ensures err { IfErr result (λ e. e ≢ NoMemory → asked verb (map (λ w. w.now) words.now) ≡ Err e) }
{
    match verb {
        Verb::Open => open(alloc, words),
        Verb::Close => only_number(words).map(|descriptor| call_line(Call::Close { descriptor })),
        Verb::Pread => pread(words),
        Verb::Pwrite => pwrite(alloc, words),
        Verb::Ftruncate => ftruncate(words),
        Verb::Write => write_file(alloc, words),
        Verb::Rename => rename(alloc, words),
        Verb::Unlink => only_path(alloc, words).map(|path| call_line(Call::Unlink { path })),
        Verb::Mkdir => only_path(alloc, words).map(|path| call_line(Call::Mkdir { path })),
        Verb::Rmdir => only_path(alloc, words).map(|path| call_line(Call::Rmdir { path })),
        Verb::Fsync => only_number(words).map(|descriptor| call_line(Call::Fsync { descriptor })),
        Verb::Sync => line_without_words(words, call_line(Call::Sync)),
        Verb::Stat => stat(alloc, words),
        Verb::Ls => list(alloc, words),
        Verb::Read => read(alloc, words),
        Verb::Entries => entries(alloc, words),
        Verb::Undo => line_without_words(words, call_line(Call::Undo)),
        Verb::Redo => line_without_words(words, call_line(Call::Redo)),
        Verb::Goto => only_number(words).map(|serial| call_line(Call::Goto { serial })),
        Verb::Rollback => only_name(alloc, words).map(|name| call_line(Call::Rollback { name })),
        Verb::Forget => only_number(words).map(|count| call_line(Call::Forget { count })),
        Verb::ForgetFree => only_number(words).map(|blocks| Line::Ask(Ask::ForgetFree(blocks))),
        Verb::Checkpoint => only_name(alloc, words).map(|name| call_line(Call::Checkpoint {
            name,
        })),
        Verb::Rmcheckpoint => only_name(alloc, words).map(|name| call_line(Call::RemoveCheckpoint {
            name,
        })),
        Verb::Begin => line_without_words(words, call_line(Call::Begin)),
        Verb::End => line_without_words(words, call_line(Call::End)),
        Verb::Abandon => line_without_words(words, call_line(Call::Abandon)),
        Verb::Log => line_without_words(words, call_line(Call::Log)),
        Verb::Df => line_without_words(words, call_line(Call::Df)),
        Verb::Space => line_without_words(words, Line::Ask(Ask::Space)),
        Verb::Reclaim => only_number(words).map(|budget| event_line(Event::ReclaimStep(budget))),
        Verb::Clean => only_number(words).map(|budget| event_line(Event::CleanStep(budget))),
        Verb::Prepare => only_number(words).map(|budget| event_line(Event::PrepareStep(budget))),
        Verb::Restart => line_without_words(words, event_line(Event::Restart)),
        Verb::PlanFault => fault(words),
    }
}

/// What words ask, the first of which is a verb.
fn line_of_words(alloc: Global, words: &[&[u8]]) -> Result<Line, AllocError>
    ensures { IfOk result (λ line. line ≡ line_of_words (map (λ w. w.now) words.now)) }
{
    let [first, words @ ..] = words else {
        return Ok(Line::Syntax);
    };
    let Some(verb) = verb_of(first) else {
        return Ok(Line::Syntax);
    };
    match line_by_verb(alloc, verb, words) {
        Ok(line) => Ok(line),
        Err(Misread::Syntax) => Ok(Line::Syntax),
        Err(Misread::Refused(fault)) => Ok(Line::Refused(fault)),
        Err(Misread::NoMemory) => Err(AllocError),
    }
}

/// The words of a line: what stands between its spaces.
fn split_words(alloc: Global, bytes: &[u8]) -> Result<Vec<&[u8]>, AllocError>
    ensures { IfOk result (λ words. map (λ w. w.now) words.items ≡ slice_split (λ b. b == 32) bytes.now) }
{
    bytes.split(|b| *b == b' ').collect(alloc)
}

/// Reads a line, its LF left out. Words are parted by one space.
pub fn read_line(alloc: Global, bytes: &[u8]) -> Result<Line, AllocError>
    ensures { IfOk result (λ line. line ≡ line_of bytes.now) }
{
    if bytes.len() > LINE_LIMIT {
        return Ok(Line::Syntax);
    }
    let words = split_words(alloc, bytes)?;
    line_of_words(alloc, words.as_slice())
}
