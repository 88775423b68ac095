//! A call of the program, and what is wanted of it.
use anyhow::{Result, bail};
use host_interface::{Channels, Folders, Parts, Sources};
use shell::tool;
use std::alloc::{AllocError, Global};

/// What is wanted of a stream.
#[derive(Drop)]
enum Wanted<'a> {
    /// These lines, each ended by LF.
    Lines(String),
    /// This text, somewhere.
    Part(&'a str),
}

/// A call of the program: its words, its input, and what is wanted of it.
#[derive(Drop)]
pub struct ToolCall<'a> {
    words: &'a str,
    input: String,
    is_unread: bool,
    out: Wanted<'a>,
    err: Wanted<'a>,
    status: u8,
}

/// What a call gave.
#[derive(Drop)]
struct Given {
    status: u8,
    out: String,
    err: String,
    is_unread: bool,
}

impl<'a> ToolCall<'a> {
    /// A call that has no input and writes nothing, with status 0.
    pub fn new(alloc: Global, words: &'a str) -> ToolCall<'a> {
        ToolCall {
            words,
            input: String::new(alloc),
            is_unread: false,
            out: Wanted::Lines(String::new(alloc)),
            err: Wanted::Lines(String::new(alloc)),
            status: 0,
        }
    }

    /// Takes a line of a row after the words.
    pub fn add(&mut self, text_line: &'a str) -> Result<()> {
        match text_line.split_once(" ") {
            Some(("$<", line)) => push_line(&mut self.input, line)?,
            Some(("$>", line)) => self.out.add(line)?,
            Some(("$!", line)) => self.err.add(line)?,
            Some(("$=", status)) => self.status = status.parse::<u8>()?,
            _ => self.add_mark(text_line)?,
        }
        Ok(())
    }

    fn add_mark(&mut self, text_line: &'a str) -> Result<()> {
        match text_line.split_once(" ") {
            Some(("$>*", part)) => self.out = Wanted::Part(part),
            Some(("$!*", part)) => self.err = Wanted::Part(part),
            Some(("$-", "unread")) => self.is_unread = true,
            _ => bail!("no line of a call: {text_line}"),
        }
        Ok(())
    }

    /// Makes the call on these files, and appends what it gives where that is not wanted.
    pub fn run<F: Folders + Sources + Channels + Parts>(
        &self,
        files: &mut F,
        alloc: Global,
        differences: &mut String,
    ) -> Result<()> {
        let given = self.given(files, alloc)?;
        if !self.wants(&given) {
            append_given(differences, self.words, &given)?;
        }
        Ok(())
    }

    fn given<F: Folders + Sources + Channels + Parts>(
        &self,
        files: &mut F,
        alloc: Global,
    ) -> Result<Given, AllocError> {
        let words = words_of(alloc, self.words)?;
        let mut reader = self.input.as_bytes();
        let mut out: Vec<u8> = Vec::new(alloc);
        let mut err: Vec<u8> = Vec::new(alloc);
        let status = tool(files, alloc, &words, &mut reader, &mut out, &mut err);
        Ok(Given {
            status,
            out: String::from_utf8_lossy(alloc, &out)?,
            err: String::from_utf8_lossy(alloc, &err)?,
            is_unread: !reader.is_empty() && reader.len() == self.input.len(),
        })
    }

    fn wants(&self, given: &Given) -> bool {
        self.status == given.status
            && self.is_unread == given.is_unread
            && self.out.wants(given.out.as_str())
            && self.err.wants(given.err.as_str())
    }
}

impl Wanted<'_> {
    fn add(&mut self, line: &str) -> Result<()> {
        match self {
            Wanted::Lines(lines) => push_line(lines, line)?,
            Wanted::Part(_) => bail!("a line and a part of one stream: {line}"),
        }
        Ok(())
    }

    fn wants(&self, given: &str) -> bool {
        match self {
            Wanted::Lines(lines) => lines.as_str() == given,
            Wanted::Part(part) => given.contains(*part),
        }
    }
}

/// The words of a call, in each of which `SPACE` stands for a space.
fn words_of(alloc: Global, text: &str) -> Result<Vec<String>, AllocError> {
    let mut words = Vec::new(alloc);
    if text.is_empty() {
        return Ok(words);
    }
    for word in text.split(' ') {
        words.push(word.replace(alloc, "SPACE", " ")?)?;
    }
    Ok(words)
}

fn push_line(text: &mut String, line: &str) -> Result<(), AllocError> {
    text.push_str(line)?;
    text.push('\n')
}

/// Appends what a call gave.
fn append_given(differences: &mut String, words: &str, given: &Given) -> Result<(), AllocError> {
    let status = given.status;
    let read = if given.is_unread { ", unread" } else { "" };
    writeln!(differences, "  {words}: status {status}{read}")?;
    append_lines(differences, "$>", given.out.as_str())?;
    append_lines(differences, "$!", given.err.as_str())
}

fn append_lines(differences: &mut String, mark: &str, text: &str) -> Result<(), AllocError> {
    for line in text.lines() {
        writeln!(differences, "    {mark} {line}")?;
    }
    Ok(())
}
