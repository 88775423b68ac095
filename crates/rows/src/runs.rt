//! What a row writes on the plain machine, on a flash in memory, and by the program on an image: a
//! line for each of its own.
use crate::error::RowError;
use crate::row::{Row, Side};
use crate::sight::Sight;
use crate::tool_calls::append_given;
use flash_simulation::{SimFlash, decode};
use fs_types::{Answer, Ask, Event, Fault, Reply};
use host_interface::{Channels, Folders, ImageFiles, Parts, Sources};
use plain_machine::{PlainMachine, Space};
use script::{Line, LineAnswer, print_answer, read_line};
use script_runs::run_script;
use shell::tool;
use std::alloc::{AllocError, Global};
use undofs::format;

/// What the plain machine knows nothing of: `df` is not run on it.
const NO_SPACE: Space = Space {
    blocks: 0,
    bad: 0,
    free: 0,
    anchors: 0,
};

/// Runs a row on the plain machine.
pub fn run_plain(alloc: Global, row: &Row<'_>) -> Result<String, RowError> {
    let history = row.history as usize;
    if history < 2 || 128 < history {
        return Err(RowError::Layout);
    }
    let mut machine = PlainMachine::new(alloc, history)?;
    run_lines(alloc, &mut machine, row)
}

fn run_lines(alloc: Global, machine: &mut PlainMachine, row: &Row<'_>) -> Result<String, RowError> {
    let mut written = Vec::new(alloc);
    for step in &row.steps {
        run_line(alloc, machine, step.line, &mut written)?;
    }
    text_of(written)
}

/// Carries out a line on the plain machine, and writes its answer.
fn run_line(
    alloc: Global,
    machine: &mut PlainMachine,
    line: &str,
    written: &mut Vec<u8>,
) -> Result<(), AllocError> {
    let line = read_line(alloc, line.as_bytes())?;
    print_answer(written, &answer_of(alloc, machine, &line))
}

fn answer_of(alloc: Global, machine: &mut PlainMachine, line: &Line) -> LineAnswer {
    match line {
        Line::Ask(Ask::Event(Event::Call(call))) => told(machine.step(alloc, NO_SPACE, call)),
        Line::Refused(fault) => told(Err(*fault)),
        _ => LineAnswer::Syntax,
    }
}

/// What is told of a call or a step.
fn told(outcome: Result<Reply, Fault>) -> LineAnswer {
    match outcome {
        Ok(reply) => LineAnswer::Told(Answer::Done(reply)),
        Err(fault) => LineAnswer::Told(Answer::Refused(fault)),
    }
}

/// The flash that a row begins on: that of an image, or else one that is formatted.
pub fn first_flash(
    alloc: Global,
    row: &Row<'_>,
    image: Option<&[u8]>,
) -> Result<SimFlash, RowError> {
    if let Some(bytes) = image {
        return Ok(decode(alloc, bytes)?);
    }
    let mut flash = SimFlash::new(alloc, row.geometry, &row.plan)?;
    format(alloc, &mut flash, row.history)?;
    Ok(flash)
}

/// Runs a row on a flash in memory, as one script, and looks at the flash.
pub fn run_on_flash(
    alloc: Global,
    row: &Row<'_>,
    image: Option<&[u8]>,
    differences: &mut String,
) -> Result<String, RowError> {
    let mut flash = first_flash(alloc, row, image)?;
    let written = run_as_script(alloc, row, &mut flash)?;
    look_at(alloc, row, Side::Flash, &flash, differences)?;
    Ok(written)
}

/// Looks at a flash on which no system is at hand.
fn look_at(
    alloc: Global,
    row: &Row<'_>,
    side: Side,
    flash: &SimFlash,
    differences: &mut String,
) -> Result<(), RowError> {
    let sight = Sight { flash, ring: None };
    sight.append_missed(alloc, differences, row, side)
}

/// Runs the lines of a row as one script.
fn run_as_script(alloc: Global, row: &Row<'_>, flash: &mut SimFlash) -> Result<String, RowError> {
    let script = script_of(alloc, row)?;
    let mut reader = script.as_bytes();
    let mut written: Vec<u8> = Vec::new(alloc);
    run_script(alloc, &mut reader, &mut written, flash).map_err(|_| RowError::Ended)?;
    text_of(written)
}

/// The lines of a row, each ended by LF.
fn script_of(alloc: Global, row: &Row<'_>) -> Result<String, AllocError> {
    let mut script = String::new(alloc);
    for step in &row.steps {
        script.push_str(step.line)?;
        script.push('\n')?;
    }
    Ok(script)
}

/// Runs a row by the program on an image of this name, which is put there or which the program makes
/// first, makes the calls that come after its lines, and looks at the flash of the image.
pub fn run_on_image<F: Folders + Sources + Channels + Parts>(
    files: &mut F,
    alloc: Global,
    name: &str,
    row: &Row<'_>,
    image: Option<&[u8]>,
    differences: &mut String,
) -> Result<String, RowError> {
    match image {
        Some(bytes) => put_image(files, alloc, name, bytes)?,
        None => make_image(files, alloc, name, row)?,
    }
    let words = words_of(alloc, "run", name)?;
    let script = script_of(alloc, row)?;
    let written = call(files, alloc, &words, script.as_str())?;
    make_calls(files, alloc, name, row, differences)?;
    let bytes = files.read(alloc, name)?;
    let flash = decode(alloc, &bytes)?;
    look_at(alloc, row, Side::Image, &flash, differences)?;
    Ok(written)
}

fn put_image<F: ImageFiles>(
    files: &mut F,
    alloc: Global,
    name: &str,
    bytes: &[u8],
) -> Result<(), RowError> {
    files.claim(alloc, name)?;
    files.replace(alloc, name, bytes)?;
    Ok(())
}

/// Makes an image of the sizes of a row.
fn make_image<F: Folders + Sources + Channels + Parts>(
    files: &mut F,
    alloc: Global,
    name: &str,
    row: &Row<'_>,
) -> Result<(), RowError> {
    let mut words = words_of(alloc, "format", name)?;
    add_sizes(alloc, &mut words, row)?;
    call(files, alloc, &words, "")?;
    Ok(())
}

/// The words that ask something of an image.
fn words_of(alloc: Global, verb: &str, name: &str) -> Result<Vec<String>, AllocError> {
    let mut words = Vec::new(alloc);
    words.push(verb.to_string(alloc)?)?;
    words.push(name.to_string(alloc)?)?;
    Ok(words)
}

/// Adds the sizes of a row to words.
fn add_sizes(alloc: Global, words: &mut Vec<String>, row: &Row<'_>) -> Result<(), AllocError> {
    let geometry = row.geometry;
    add_size(alloc, words, "--page", geometry.page)?;
    add_size(alloc, words, "--pages", geometry.pages)?;
    add_size(alloc, words, "--blocks", geometry.blocks)?;
    add_size(alloc, words, "--history", row.history)
}

fn add_size(
    alloc: Global,
    words: &mut Vec<String>,
    option: &str,
    size: u32,
) -> Result<(), AllocError> {
    words.push(option.to_string(alloc)?)?;
    words.push(size.to_string(alloc)?)?;
    Ok(())
}

/// Makes the calls of the program that a row has after its lines, and appends what they give and the
/// row does not want.
fn make_calls<F: Folders + Sources + Channels + Parts>(
    files: &mut F,
    alloc: Global,
    name: &str,
    row: &Row<'_>,
    differences: &mut String,
) -> Result<(), RowError> {
    for call in &row.calls {
        let words = call.words(alloc, name)?;
        let input = call.input(alloc)?;
        let given = give(files, alloc, &words, input.as_str())?;
        call.append_difference(differences, given.as_str())?;
    }
    Ok(())
}

/// Calls the program, and spells what it gives.
fn give<F: Folders + Sources + Channels + Parts>(
    files: &mut F,
    alloc: Global,
    words: &[String],
    input: &str,
) -> Result<String, RowError> {
    let mut reader = input.as_bytes();
    let mut written: Vec<u8> = Vec::new(alloc);
    let mut told: Vec<u8> = Vec::new(alloc);
    let status = tool(files, alloc, words, &mut reader, &mut written, &mut told);
    let written = text_of(written)?;
    let told = text_of(told)?;
    let mut given = String::new(alloc);
    append_given(&mut given, written.as_str(), told.as_str(), status)?;
    Ok(given)
}

/// Calls the program, which has to run to its end, and gives what it writes.
fn call<F: Folders + Sources + Channels + Parts>(
    files: &mut F,
    alloc: Global,
    words: &[String],
    script: &str,
) -> Result<String, RowError> {
    let mut reader = script.as_bytes();
    let mut written: Vec<u8> = Vec::new(alloc);
    let mut told: Vec<u8> = Vec::new(alloc);
    let status = tool(files, alloc, words, &mut reader, &mut written, &mut told);
    if status != 0 {
        return Err(RowError::Ended);
    }
    text_of(written)
}

pub fn text_of(written: Vec<u8>) -> Result<String, RowError> {
    String::from_utf8(written).map_err(|_| RowError::Layout)
}

/// Appends the first line that was not answered as the row says, with its answer.
pub fn append_difference(
    differences: &mut String,
    row: &Row<'_>,
    side: Side,
    written: &str,
) -> Result<(), AllocError> {
    let mut answers = written.lines();
    for step in &row.steps {
        let answer = answers.next().unwrap_or("");
        if answer != step.reply {
            return writeln!(differences, "  {}: {} -> {answer}", side.name(), step.line);
        }
    }
    Ok(())
}
