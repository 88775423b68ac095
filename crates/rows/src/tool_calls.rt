//! A call of the program after the lines of a row.
use std::alloc::{AllocError, Global};

/// A call of the program: its words, its input, and what is wanted of it.
#[derive(Drop)]
pub struct ToolCall<'a> {
    /// The words, parted by one space; IMAGE, FILE, FOLDER and OTHER stand for names of the host.
    pub words: &'a str,
    /// The lines of its input.
    input: Vec<&'a str>,
    /// What it gives, as [`append_given`] spells it.
    wanted: Vec<&'a str>,
}

impl<'a> ToolCall<'a> {
    /// A call that has no input and writes nothing, with status 0.
    pub fn new(alloc: Global, words: &'a str) -> ToolCall<'a> {
        ToolCall {
            words,
            input: Vec::new(alloc),
            wanted: Vec::new(alloc),
        }
    }

    /// Takes a line of a row after the words: `$< ` and a line of the input, or a line that is wanted.
    pub fn add(&mut self, text_line: &'a str) -> Result<(), AllocError> {
        match text_line.strip_prefix("$< ") {
            Some(line) => self.input.push(line)?,
            None => self.wanted.push(text_line)?,
        }
        Ok(())
    }

    /// The words, with names in the place of IMAGE, FILE, FOLDER and OTHER.
    pub fn words(&self, alloc: Global, image: &str) -> Result<Vec<String>, AllocError> {
        let mut words = Vec::new(alloc);
        for word in self.words.split(' ') {
            words.push(named(alloc, word, image)?)?;
        }
        Ok(words)
    }

    /// The input.
    pub fn input(&self, alloc: Global) -> Result<String, AllocError> {
        let mut input = String::new(alloc);
        for line in &self.input {
            input.push_str(line)?;
            input.push('\n')?;
        }
        Ok(input)
    }

    /// Appends the first line that was given and not wanted.
    pub fn append_difference(
        &self,
        differences: &mut String,
        given: &str,
    ) -> Result<(), AllocError> {
        let mut wanted = self.wanted.iter();
        for line in given.lines() {
            let expected = wanted.next().copied().unwrap_or("");
            if expected != line {
                return writeln!(differences, "  image: {} -> {line}", self.words);
            }
        }
        match wanted.next() {
            Some(line) => writeln!(differences, "  image: {} gives no {line}", self.words),
            None => Ok(()),
        }
    }
}

/// The name that a word stands for.
fn named(alloc: Global, word: &str, image: &str) -> Result<String, AllocError> {
    match word {
        "IMAGE" => String::from_str(alloc, image),
        "FILE" => format!(in alloc; "{image}.file"),
        "FOLDER" => format!(in alloc; "{image}.folder"),
        "OTHER" => format!(in alloc; "{image}.other"),
        word => String::from_str(alloc, word),
    }
}

/// Spells what a call gives: `$> ` and each line that it writes, `$! ` and the first line on standard
/// error, and `$= ` and the status where it is not 0.
pub fn append_given(
    given: &mut String,
    written: &str,
    told: &str,
    status: u8,
) -> Result<(), AllocError> {
    for line in written.lines() {
        writeln!(given, "$> {line}")?;
    }
    if let Some(line) = told.lines().next() {
        writeln!(given, "$! {line}")?;
    }
    if status != 0 {
        writeln!(given, "$= {status}")?;
    }
    Ok(())
}
