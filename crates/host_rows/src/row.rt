//! A row: calls of the program, and steps on files between them.
use crate::call::ToolCall;
use anyhow::{Result, bail};
use std::alloc::Global;

/// A step on a file: `VERB: NAME`, with more words after the name.
#[derive(Clone, Copy)]
pub struct FileStep<'a> {
    pub verb: &'a str,
    pub name: &'a str,
    /// What stands after the name and a space.
    pub rest: &'a str,
}

/// A step of a row.
#[derive(Drop)]
pub enum Step<'a> {
    Call(ToolCall<'a>),
    File(FileStep<'a>),
}

/// Reads the text of a row. Lines that begin with `about: ` are for readers alone, and nothing but those is
/// left out.
pub fn read_steps<'a>(alloc: Global, text: &'a str) -> Result<Vec<Step<'a>>> {
    let mut steps = Vec::new(alloc);
    for line in text.lines() {
        add_line(alloc, &mut steps, line)?;
    }
    Ok(steps)
}

fn add_line<'a>(alloc: Global, steps: &mut Vec<Step<'a>>, line: &'a str) -> Result<()> {
    if line.starts_with("about: ") {
        return Ok(());
    }
    if let Some(words) = line.strip_prefix("$ ") {
        steps.push(Step::Call(ToolCall::new(alloc, words)))?;
    } else if line.starts_with('$') {
        add_of_call(steps, line)?;
    } else {
        steps.push(Step::File(file_step(line)?))?;
    }
    Ok(())
}

/// Takes a line of the call before it.
fn add_of_call<'a>(steps: &mut Vec<Step<'a>>, line: &'a str) -> Result<()> {
    match steps.last_mut() {
        Some(Step::Call(call)) => call.add(line),
        _ => bail!("no call before {line}"),
    }
}

fn file_step<'a>(line: &'a str) -> Result<FileStep<'a>> {
    let Some((verb, words)) = line.split_once(": ") else {
        bail!("no line of a row: {line}");
    };
    let (name, rest) = words.split_once(" ").unwrap_or((words, ""));
    Ok(FileStep { verb, name, rest })
}
