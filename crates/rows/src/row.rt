//! A row: a script with the replies that are expected, and what it runs on.
use crate::error::RowError;
use crate::look::{Claim, Look};
use crate::tool_calls::ToolCall;
use flash_model::{FaultKind, Geometry, PlannedFault};
use script::{DEFAULT_SIZES, DEFAULT_VERSIONS, kind_of};
use std::alloc::Global;

/// Where a row is run.
#[derive(Clone, Copy)]
pub enum Side {
    /// On the plain machine.
    Plain,
    /// On a flash in memory, with as many nodes in memory as a mount has.
    Flash,
    /// On a flash in memory, with so many nodes in memory.
    Nodes(usize),
    /// By the program, on an image that it made. A plan of faults is no part of an image, so a row
    /// with one has no line here.
    Image,
}

impl Side {
    /// How the side is named.
    pub fn name(self) -> &'static str {
        match self {
            Side::Plain => "plain",
            Side::Flash => "flash",
            Side::Nodes(1) => "1 node",
            Side::Nodes(_) => "64 nodes",
            Side::Image => "image",
        }
    }

    /// Whether this can be looked at here: the plain machine has no flash, and used blocks are told
    /// where a system is at hand.
    fn shows(self, claim: Claim<'_>) -> bool {
        match (self, claim) {
            (Side::Plain, _) => false,
            (Side::Nodes(_), _) => true,
            (_, Claim::Used { .. }) => false,
            _ => true,
        }
    }
}

/// A line of a script, with its reply.
#[derive(Drop)]
pub struct Step<'a> {
    pub line: &'a str,
    pub reply: &'a str,
}

/// A row as it is run on one side: as far as that side goes by now.
#[derive(Drop)]
pub struct Row<'a> {
    pub geometry: Geometry,
    pub history: u32,
    /// The file of the image that the row begins on, in place of a new file system.
    pub image: Option<&'a str>,
    pub plan: Vec<PlannedFault>,
    pub steps: Vec<Step<'a>>,
    /// The calls of the program that come after the lines, on an image alone.
    pub calls: Vec<ToolCall<'a>>,
    /// What is looked at on the flash afterwards.
    pub looks: Vec<Look<'a>>,
}

impl<'a> Row<'a> {
    /// Reads the text of a row as far as it runs on a side.
    pub fn read(alloc: Global, text: &'a str, side: Side) -> Result<Self, RowError> {
        let mut row = Row {
            geometry: DEFAULT_SIZES,
            history: DEFAULT_VERSIONS,
            image: None,
            plan: Vec::new(alloc),
            steps: Vec::new(alloc),
            calls: Vec::new(alloc),
            looks: Vec::new(alloc),
        };
        row.take(alloc, text, side)?;
        Ok(row)
    }

    fn take(&mut self, alloc: Global, text: &'a str, side: Side) -> Result<(), RowError> {
        let mut line = None;
        let mut is_skipped = false;
        for text_line in text.lines() {
            if waits(text_line, side) {
                return Ok(());
            }
            is_skipped = is_skipped || skips(text_line, side);
            if let Some(command) = text_line.strip_prefix("> ") {
                line = Some(command);
            } else if let Some(reply) = text_line.strip_prefix("< ") {
                self.add(line.take(), reply, is_skipped)?;
                is_skipped = false;
            } else if text_line.starts_with('$') {
                self.add_of_call(alloc, text_line, side)?;
            } else {
                self.set(text_line, side)?;
            }
        }
        Ok(())
    }

    fn add(
        &mut self,
        line: Option<&'a str>,
        reply: &'a str,
        is_skipped: bool,
    ) -> Result<(), RowError> {
        let line = line.ok_or(RowError::Layout)?;
        if !is_skipped {
            self.steps.push(Step { line, reply })?;
        }
        Ok(())
    }

    /// Takes a line of a call of the program, which is made on an image alone.
    fn add_of_call(
        &mut self,
        alloc: Global,
        text_line: &'a str,
        side: Side,
    ) -> Result<(), RowError> {
        if !matches!(side, Side::Image) {
            return Ok(());
        }
        if let Some(words) = text_line.strip_prefix("$ ") {
            self.calls.push(ToolCall::new(alloc, words))?;
            return Ok(());
        }
        match self.calls.last_mut() {
            Some(call) => Ok(call.add(text_line)?),
            None => Err(RowError::Layout),
        }
    }

    /// Takes a setting, or a look at the flash; other lines tell a reader something.
    fn set(&mut self, text_line: &'a str, side: Side) -> Result<(), RowError> {
        let Some((key, value)) = text_line.split_once(": ") else {
            return Ok(());
        };
        if let Some(look) = Look::read(key, value)?
            && side.shows(look.claim)
        {
            self.looks.push(look)?;
        }
        match key {
            "page" => self.geometry.page = number(value)?,
            "pages" => self.geometry.pages = number(value)?,
            "blocks" => self.geometry.blocks = number(value)?,
            "history" => self.history = number(value)?,
            "image" => self.image = Some(value),
            "plan" => self.set_plan(value)?,
            _ => {}
        }
        Ok(())
    }

    /// Plans a run of failures.
    fn set_plan(&mut self, value: &str) -> Result<(), RowError> {
        let (kind, first, last) = failures_of(value).ok_or(RowError::Layout)?;
        for number in first..=last {
            self.plan.push(PlannedFault {
                number: u128::from(number),
                kind,
            })?;
        }
        Ok(())
    }
}

/// A run of failures: the kind, the first number and the last.
fn failures_of(value: &str) -> Option<(FaultKind, u32, u32)> {
    let (kind, range) = value.split_once(" ")?;
    let (first, last) = range.split_once(" ")?;
    let kind = kind_of(kind.as_bytes())?;
    Some((kind, first.parse().ok()?, last.parse().ok()?))
}

/// Whether the side does not go past this line yet. A row that counts reads says with how many nodes
/// in memory, and runs on a flash with so many alone.
fn waits(text_line: &str, side: Side) -> bool {
    match side {
        Side::Plain => text_line.starts_with("plain waits for: "),
        Side::Flash => text_line.starts_with("flash waits for: ") || text_line == "nodes: 1",
        Side::Nodes(nodes) => {
            text_line.starts_with("flash waits for: ") || nodes != 1 && text_line == "nodes: 1"
        }
        Side::Image => {
            text_line.starts_with("flash waits for: ")
                || text_line.starts_with("plan: ")
                || text_line == "nodes: 1"
        }
    }
}

/// Whether the side leaves out the step after this line.
fn skips(text_line: &str, side: Side) -> bool {
    matches!(side, Side::Plain) && text_line.starts_with("plain skips: ")
}

fn number(text: &str) -> Result<u32, RowError> {
    text.parse::<u32>().map_err(|_| RowError::Layout)
}
