//! A script run on a flash.
ghost use Rattle.std.specs.Prelude.{◌≡◌, IfSome, Some, None, if◌then◌else◌};
ghost use Rattle.system.specs.Systems.{IsSystem};
ghost use Rattle.script_runs.specs.Scripts.{EndsOnFlash, ScriptEndsOn, ground_at, with_plan, unplanned, streams_at, refusal_of, Tells};
ghost use Rattle.script_runs.specs.Turns.{Asks, Gets, seat_at, Does, Writes, LinesEnd};

use crate::planning::{Followed, Planning, Unplanned};
use crate::space_lines::answer_space;
use flash_model::{Flash, Planned};
use fs_types::{Answer, Ask, Fault};
use script::{Line, LineAnswer, LineReader, Taken, print_answer, read_line, write_out};
use std::alloc::Global;
use std::io::{Read, Write};
use thiserror::Error;
use undofs::{System, Told};

/// Why a script did not run to its end.
#[derive(Clone, Copy, Debug, PartialEq, Eq, Error)]
pub enum ScriptFault {
    /// The system was refused. Nothing was read or written.
    #[error("no system: {0}")]
    Mount(Fault),
    /// The reader failed. The replies to all lines that were carried out are written.
    #[error("input failed")]
    Read,
    /// The writer failed. A beginning of the replies is written.
    #[error("output failed")]
    Write,
    /// Memory could not be had. The replies to all lines that were carried out are written, or to
    /// all of them but the last.
    #[error("out of memory")]
    Memory,
}

/// How a line was refused.
#[derive(Clone, Copy, Debug, PartialEq, Eq)]
pub enum Refusal {
    /// By a fault.
    Fault(Fault),
    /// It is no line of a script.
    Syntax,
    /// No system is mounted.
    Unmounted,
}

/// Where a script stopped.
#[derive(Clone, Copy, Debug, PartialEq, Eq)]
pub struct Stop {
    /// The number of the line, from 1 on.
    pub line: u64,
    /// How it was refused.
    pub refusal: Refusal,
}

/// Mounts what the newest record of a flash holds, runs a script on it, and writes a reply for each
/// line as it is carried out. The lines and their replies are those of docs/scripts.md. A line `fault`
/// adds to the plan of the flash, from which each operation takes what comes due.
///
/// It keeps one line in memory at a time. The flash stands as after the lines that were carried out.
pub fn run_script<F: Planned, R: Read, W: Write>(
    alloc: Global,
    reader: &mut R,
    writer: &mut W,
    flash: &mut F,
) -> Result<(), ScriptFault>
    ensures ends { EndsOnFlash (with_plan (F.device flash.old) (F.schedule flash.old)) (with_plan (F.device flash.new) (F.schedule flash.new)) (streams_at (R.remaining reader.old) (W.contents writer.old)) result (streams_at (R.remaining reader.new) (W.contents writer.new)) }
{
    match run_script_until(alloc, reader, writer, flash, false) {
        Ok(_) => Ok(()),
        Err(fault) => Err(fault),
    }
}

/// The same on any flash. No fault can be planned for it: a line `fault` has no form of a line, and is
/// answered `err SYNTAX`.
pub fn run_script_on<F: Flash, R: Read, W: Write>(
    alloc: Global,
    reader: &mut R,
    writer: &mut W,
    flash: &mut F,
) -> Result<(), ScriptFault>
    ensures ends { EndsOnFlash (unplanned (F.device flash.old)) (unplanned (F.device flash.new)) (streams_at (R.remaining reader.old) (W.contents writer.old)) result (streams_at (R.remaining reader.new) (W.contents writer.new)) }
{
    match run_until::<F, Unplanned, R, W>(alloc, reader, writer, flash, false) {
        Ok(_) => Ok(()),
        Err(fault) => Err(fault),
    }
}

/// Runs a script as [`run_script`] does. Where it is to `stop` it ends at the first line that is
/// refused, whose reply is written too, and answers where that was.
pub fn run_script_until<F: Planned, R: Read, W: Write>(
    alloc: Global,
    reader: &mut R,
    writer: &mut W,
    flash: &mut F,
    stop: bool,
) -> Result<Option<Stop>, ScriptFault>
    ensures ends { ScriptEndsOn stop (with_plan (F.device flash.old) (F.schedule flash.old)) (with_plan (F.device flash.new) (F.schedule flash.new)) (streams_at (R.remaining reader.old) (W.contents writer.old)) result (streams_at (R.remaining reader.new) (W.contents writer.new)) }
{
    run_until::<F, Followed, R, W>(alloc, reader, writer, flash, stop)
}

/// The same on any flash, with account of its plan of faults.
fn run_until<F: Flash, P: Planning<F>, R: Read, W: Write>(
    alloc: Global,
    reader: &mut R,
    writer: &mut W,
    flash: &mut F,
    stop: bool,
) -> Result<Option<Stop>, ScriptFault>
    ensures ends { ScriptEndsOn stop (ground_at (F.device flash.old) (P.plan flash.old)) (ground_at (F.device flash.new) (P.plan flash.new)) (streams_at (R.remaining reader.old) (W.contents writer.old)) result (streams_at (R.remaining reader.new) (W.contents writer.new)) }
{
    let mut system = match P::mount(alloc, flash) {
        Ok(mounted) => Some(mounted),
        Err(fault) => return Err(ScriptFault::Mount(fault)),
    };
    run_lines::<F, P, R, W>(alloc, reader, writer, flash, &mut system, stop)
}

/// Carries out the lines of the reader on a flash and on the system that is mounted on it, if one is,
/// and writes their answers, up to the first refused one where it is to stop there.
fn run_lines<F: Flash, P: Planning<F>, R: Read, W: Write>(
    alloc: Global,
    reader: &mut R,
    writer: &mut W,
    flash: &mut F,
    system: &mut Option<System>,
    stop: bool,
) -> Result<Option<Stop>, ScriptFault>
    requires { IfSome system.old (IsSystem (F.device flash.old)) }
    ensures mounted { IfSome system.new (IsSystem (F.device flash.new)) }
    ensures ends { LinesEnd stop (seat_at (F.device flash.old) system.old (P.plan flash.old)) (streams_at (R.remaining reader.old) (W.contents writer.old)) result (streams_at (R.remaining reader.new) (W.contents writer.new)) (seat_at (F.device flash.new) system.new (P.plan flash.new)) }
{
    let mut lines = match LineReader::new(alloc) {
        Ok(lines) => lines,
        Err(_) => return Err(ScriptFault::Memory),
    };
    let mut text = Vec::new(alloc);
    for carried in 0..u64::MAX {
        let line = match next(alloc, &mut lines, reader) {
            Ok(Some(line)) => line,
            Ok(None) => return Ok(None),
            Err(fault) => return Err(fault),
        };
        let answer = carry_out_on::<F, P>(alloc, flash, system, line);
        match write_answer(writer, &mut text, &answer) {
            Ok(()) => {}
            Err(fault) => return Err(fault),
        }
        if let Some(refusal) = stops(stop, &answer) {
            return Ok(Some(Stop {
                line: carried + 1,
                refusal,
            }));
        }
    }
    Err(ScriptFault::Read)
}

/// How an answer refuses its line, where that is to stop the script.
fn stops(stop: bool, answer: &LineAnswer) -> Option<Refusal>
    ensures { result ≡ (if stop then refusal_of answer.now else None) }
{
    if stop { refusal_of(answer) } else { None }
}

/// How an answer refuses its line; `None` where it does not.
fn refusal_of(answer: &LineAnswer) -> Option<Refusal>
    ensures { result ≡ refusal_of answer.now }
{
    match answer {
        LineAnswer::Told(Answer::Refused(fault)) => Some(Refusal::Fault(*fault)),
        LineAnswer::Told(Answer::Unmounted) => Some(Refusal::Unmounted),
        LineAnswer::Told(_) | LineAnswer::Space(_) | LineAnswer::Forgot(_) => None,
        LineAnswer::Syntax => Some(Refusal::Syntax),
    }
}

/// What the next line asks; `None` at the end.
fn next<R: Read>(
    alloc: Global,
    lines: &mut LineReader,
    reader: &mut R,
) -> Result<Option<Line>, ScriptFault>
    ensures { Gets (R.remaining reader.old) (R.remaining reader.new) result }
{
    match lines.next_line(reader) {
        Ok(Taken::Line) => match read_line(alloc, lines.line()) {
            Ok(line) => Ok(Some(line)),
            Err(_) => Err(ScriptFault::Memory),
        },
        Ok(Taken::TooLong) => Ok(Some(Line::Syntax)),
        Ok(Taken::End) => Ok(None),
        Err(_) => Err(ScriptFault::Read),
    }
}

/// Carries out what a line asks, on a planned flash and on what is mounted on it, if anything is.
pub fn carry_out<F: Planned>(
    alloc: Global,
    flash: &mut F,
    system: &mut Option<System>,
    line: Line,
) -> LineAnswer
    requires { IfSome system.old (IsSystem (F.device flash.old)) }
    ensures mounted { IfSome system.new (IsSystem (F.device flash.new)) }
    ensures does { Does line (seat_at (F.device flash.old) system.old (Some (F.schedule flash.old))) result (seat_at (F.device flash.new) system.new (Some (F.schedule flash.new))) }
{
    carry_out_on::<F, Followed>(alloc, flash, system, line)
}

/// The same on any flash, with account of its plan of faults.
fn carry_out_on<F: Flash, P: Planning<F>>(
    alloc: Global,
    flash: &mut F,
    system: &mut Option<System>,
    line: Line,
) -> LineAnswer
    requires { IfSome system.old (IsSystem (F.device flash.old)) }
    ensures mounted { IfSome system.new (IsSystem (F.device flash.new)) }
    ensures does { Does line (seat_at (F.device flash.old) system.old (P.plan flash.old)) result (seat_at (F.device flash.new) system.new (P.plan flash.new)) }
{
    match line {
        Line::Ask(asked) => ask::<F, P>(alloc, flash, system, asked),
        Line::Refused(fault) => LineAnswer::Told(Answer::Refused(fault)),
        Line::PlanFault { k, kind } => P::plan_fault(flash, k, kind),
        Line::Syntax => LineAnswer::Syntax,
    }
}

/// Does what is asked, and answers the line with what is told.
fn ask<F: Flash, P: Planning<F>>(
    alloc: Global,
    flash: &mut F,
    system: &mut Option<System>,
    ask: Ask,
) -> LineAnswer
    requires { IfSome system.old (IsSystem (F.device flash.old)) }
    ensures mounted { IfSome system.new (IsSystem (F.device flash.new)) }
    ensures asks { Asks ask (seat_at (F.device flash.old) system.old (P.plan flash.old)) result (seat_at (F.device flash.new) system.new (P.plan flash.new)) }
{
    let told = P::serve(alloc, flash, system, &ask);
    answer_of(alloc, system, told)
}

/// The answer to a line of which this is told.
fn answer_of(alloc: Global, system: &Option<System>, told: Told) -> LineAnswer
    ensures { Tells system.now told result }
{
    match told {
        Told::Answer(answer) => LineAnswer::Told(answer),
        Told::Forgot(count) => LineAnswer::Forgot(count),
        Told::Space(space) => answer_space(alloc, system, &space),
    }
}

/// Writes the text of an answer, which is made in a buffer.
fn write_answer<W: Write>(
    writer: &mut W,
    text: &mut Vec<u8>,
    answer: &LineAnswer,
) -> Result<(), ScriptFault>
    ensures { Writes (W.contents writer.old) (W.contents writer.new) answer.now result }
{
    text.clear();
    match print_answer(text, answer) {
        Ok(()) => {}
        Err(_) => return Err(ScriptFault::Memory),
    }
    match write_out(writer, text) {
        Ok(()) => Ok(()),
        Err(_) => Err(ScriptFault::Write),
    }
}
