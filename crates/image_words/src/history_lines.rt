//! The script of a call of the history.
ghost use Rattle.std.specs.Prelude.{◌≡◌, Ok, Err, IfOk, IfErr, OnOk, string_bytes};
ghost use Rattle.script.specs.Lines.{line_of};
ghost use Rattle.image_words.specs.Histories.{Unspelled, history_line, history_script, history_spelled, line_count, refusal_of_ask, refusal_of_event, refusal_of_line};

use command_line::HistoryCall;
use fs_types::{Ask, Event, MAX_VERSIONS};
use image_jobs::Failure;
use script::{Line, read_line};
use script_runs::Refusal;
use std::alloc::{AllocError, Global};

/// The script of a call of the history, with its word: its line, as often as it is asked for, and
/// `sync`. Refused as its line is.
pub(crate) fn history_script(
    alloc: Global,
    call: HistoryCall,
    word: &str,
    count: u32,
) -> Result<String, Failure>
    ensures ok { IfOk result (λ script. history_spelled call word.now count ≡ Ok (string_bytes script)) }
    ensures err { IfErr result (Unspelled (history_spelled call word.now count)) }
{
    let line = match history_line(alloc, call, word, count) {
        Ok(line) => line,
        Err(_) => return Err(Failure::Memory),
    };
    match refusal_of_line(alloc, &line) {
        Ok(None) => {}
        Ok(Some(refusal)) => return Err(Failure::Refused(refusal)),
        Err(_) => return Err(Failure::Memory),
    }
    match script_of_lines(alloc, &line, line_count(call, count)) {
        Ok(script) => Ok(script),
        Err(_) => Err(Failure::Memory),
    }
}

/// The line of a script that asks for a call of the history.
fn history_line(
    alloc: Global,
    call: HistoryCall,
    word: &str,
    count: u32,
) -> Result<String, AllocError>
    ensures { IfOk result (λ line. string_bytes line ≡ history_line call word.now count) }
{
    match call {
        HistoryCall::Undo => format!(in alloc; "undo"),
        HistoryCall::Redo => format!(in alloc; "redo"),
        HistoryCall::Goto => format!(in alloc; "goto {word}"),
        HistoryCall::Rollback => format!(in alloc; "rollback {word}"),
        HistoryCall::Checkpoint => format!(in alloc; "checkpoint {word}"),
        HistoryCall::RemoveCheckpoint => format!(in alloc; "rmcheckpoint {word}"),
        HistoryCall::Forget => format!(in alloc; "forget {count}"),
        HistoryCall::ForgetFree => format!(in alloc; "forgetfree {count}"),
    }
}

/// How often a line is asked for.
fn line_count(call: HistoryCall, count: u32) -> usize
    ensures { result ≡ line_count call count }
{
    match call {
        HistoryCall::Undo | HistoryCall::Redo => count.min(u32::from(MAX_VERSIONS)) as usize,
        _ => 1,
    }
}

/// How a line is refused before a call is carried out, if it is.
fn refusal_of_line(alloc: Global, line: &str) -> Result<Option<Refusal>, AllocError>
    ensures { IfOk result (λ refusal. refusal ≡ refusal_of_line (line_of line.now)) }
{
    match read_line(alloc, line.as_bytes())? {
        Line::Ask(ask) => Ok(refusal_of_ask(ask)),
        Line::Refused(fault) => Ok(Some(Refusal::Fault(fault))),
        _ => Ok(Some(Refusal::Syntax)),
    }
}

/// The same of what a line asks for.
fn refusal_of_ask(ask: Ask) -> Option<Refusal>
    ensures { result ≡ refusal_of_ask ask }
{
    match ask {
        Ask::Event(event) => refusal_of_event(event),
        Ask::ForgetFree(_) => None,
        Ask::Space => Some(Refusal::Syntax),
    }
}

/// The same of an event: a call is carried out.
fn refusal_of_event(event: Event) -> Option<Refusal>
    ensures { result ≡ refusal_of_event event }
{
    match event {
        Event::Call(_) => None,
        _ => Some(Refusal::Syntax),
    }
}

/// The script of a line, so many times, and `sync`.
fn script_of_lines(alloc: Global, line: &str, count: usize) -> Result<String, AllocError>
    ensures { IfOk result (λ script. string_bytes script ≡ history_script line.now count) }
{
    let ended = format!(in alloc; "{line}\n")?;
    let mut script = ended.as_str().repeat(alloc, count)?;
    script.push_str("sync\n")?;
    Ok(script)
}
