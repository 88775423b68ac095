//! Scripts as files give them: a line of settings each, then lines after `> ` and replies after `< `.
use crate::write_files_line::write_files_of;
use flash_model::Geometry;
use fs_types::{Event, Fault};
use script::{DEFAULT_SIZES, DEFAULT_VERSIONS, Line, read_line};
use std::alloc::Global;
use undofs::Ask;

/// A line, and the reply that is expected of it.
#[derive(Clone, Copy)]
pub struct ScriptLine<'a> {
    pub text: &'a str,
    pub reply: &'a str,
}

/// A script, with the sizes of the flash that it runs on and how many versions are kept.
#[derive(Drop)]
pub struct Script<'a> {
    pub geometry: Geometry,
    pub history: u32,
    pub lines: Vec<ScriptLine<'a>>,
}

impl<'a> Script<'a> {
    /// Reads a script. [`Fault::Invalid`] where the text is none, else [`Fault::NoMemory`].
    pub fn read(alloc: Global, text: &'a str) -> Result<Self, Fault> {
        let mut script = Script {
            geometry: DEFAULT_SIZES,
            history: DEFAULT_VERSIONS,
            lines: Vec::new(alloc),
        };
        script.take(text)?;
        Ok(script)
    }

    fn take(&mut self, text: &'a str) -> Result<(), Fault> {
        let mut line = None;
        for text_line in text.lines() {
            if let Some(command) = text_line.strip_prefix("> ") {
                line = Some(command);
            } else if let Some(reply) = text_line.strip_prefix("< ") {
                let text = line.take().ok_or(Fault::Invalid)?;
                self.lines.push(ScriptLine { text, reply })?;
            } else {
                self.set(text_line)?;
            }
        }
        Ok(())
    }

    /// Takes a setting; other lines tell a reader something.
    fn set(&mut self, text_line: &str) -> Result<(), Fault> {
        let Some((key, value)) = text_line.split_once(": ") else {
            return Ok(());
        };
        match key {
            "page" => self.geometry.page = number(value)?,
            "pages" => self.geometry.pages = number(value)?,
            "blocks" => self.geometry.blocks = number(value)?,
            "history" => self.history = number(value)?,
            _ => {}
        }
        Ok(())
    }

    /// Its lines that ask something of a system: not its restarts and faults, nor those that are refused
    /// before they come to one.
    pub fn served_lines(&self, alloc: Global) -> Result<Vec<&'a str>, Fault> {
        let mut lines = Vec::new(alloc);
        for line in &self.lines {
            if ask_of(alloc, line.text)?.is_some() {
                lines.push(line.text)?;
            }
        }
        Ok(lines)
    }
}

/// What a line asks. Beside the lines of scripts there is `files DIRECTORY NAME DATA NAME DATA ..`, which
/// asks `write_files`.
pub fn line_of(alloc: Global, line: &str) -> Result<Line, Fault> {
    match line.strip_prefix("files ") {
        Some(words) => Ok(Line::Ask(Ask::Event(Event::Call(write_files_of(alloc, words)?)))),
        None => Ok(read_line(alloc, line.as_bytes())?),
    }
}

/// What a line asks of a mounted system, if it does.
pub fn ask_of(alloc: Global, line: &str) -> Result<Option<Ask>, Fault> {
    Ok(match line_of(alloc, line)? {
        Line::Ask(Ask::Event(Event::Restart)) => None,
        Line::Ask(ask) => Some(ask),
        _ => None,
    })
}

/// What lines ask of a mounted system.
pub fn asks_of(alloc: Global, lines: &[&str]) -> Result<Vec<Ask>, Fault> {
    let mut asks = Vec::new(alloc);
    for line in lines {
        if let Some(ask) = ask_of(alloc, line)? {
            asks.push(ask)?;
        }
    }
    Ok(asks)
}

fn number(text: &str) -> Result<u32, Fault> {
    text.parse::<u32>().map_err(|_| Fault::Invalid)
}
