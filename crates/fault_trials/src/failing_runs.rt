//! Runs of lines on the flash of an image, with an operation that fails.
ghost use Rattle.std.specs.Prelude.{IfSome};
ghost use Rattle.flash_simulation.specs.Simulation.{device_of};
ghost use Rattle.session_oracle.specs.Props.{seat-prop};
ghost use Rattle.system.specs.Systems.{IsSystem};

use flash_model::{Counters, FaultKind, Planned};
use flash_simulation::SimFlash;
use fs_types::{Answer, Ask, Event, Fault};
use script::{Line, LineAnswer, print_answer};
use script_runs::carry_out;
use session_oracle::{flash_of, line_of};
use std::alloc::{AllocError, Global};
use undofs::System;

/// A failure: how, and of which operation of its class.
#[derive(Clone, Copy)]
pub struct Failure {
    pub kind: FaultKind,
    pub number: u64,
}

impl Failure {
    /// Plans the failure for the operations after now. [`Fault::Invalid`] for number 0.
    fn plan(self, flash: &mut SimFlash) -> Result<(), Fault> {
        if self.number == 0 {
            return Err(Fault::Invalid);
        }
        flash.plan_fault(self.number, self.kind)
    }
}

/// A flash, with the system that is mounted on it, if one is.
#[derive(Drop)]
struct Session {
    flash: SimFlash,
    system: Option<System>,
    ghost mounted: { IfSome system (IsSystem (device_of flash)) } by { seat-prop (device_of flash) system },
}

impl Session {
    /// The flash of an image of which an operation will fail, if one is to. Nothing is mounted.
    fn new(alloc: Global, image: &[u8], failure: Option<Failure>) -> Result<Session, Fault> {
        let mut flash = flash_of(alloc, image)?;
        if let Some(failure) = failure {
            failure.plan(&mut flash)?;
        }
        Ok(Session {
            flash,
            system: None,
        })
    }

    /// How many operations there were since the flash was made.
    fn counts(&self) -> Counters {
        self.flash.counts()
    }

    /// Mounts, and tells what lines are answered then; none where no system could be mounted for a failed
    /// read.
    fn replies(&mut self, alloc: Global, lines: &str) -> Result<Option<String>, Fault> {
        match self.carry_out(alloc, Line::Ask(Ask::Event(Event::Restart))) {
            LineAnswer::Told(Answer::Mounted) => Ok(Some(self.replies_to(alloc, lines)?)),
            LineAnswer::Told(Answer::Refused(Fault::ReadFailed)) => Ok(None),
            LineAnswer::Told(Answer::Refused(fault)) => Err(fault),
            _ => Err(Fault::Invalid),
        }
    }

    fn replies_to(&mut self, alloc: Global, lines: &str) -> Result<String, Fault> {
        let mut written = Vec::new(alloc);
        for line in lines.lines() {
            let line = line_of(alloc, line)?;
            print_answer(&mut written, &self.carry_out(alloc, line))?;
        }
        String::from_utf8(written).map_err(|_| Fault::Invalid)
    }

    fn carry_out(&mut self, alloc: Global, line: Line) -> LineAnswer {
        carry_out(alloc, &mut self.flash, &mut self.system, line)
    }
}

/// What lines are answered where an operation fails; none where no system could be mounted for a failed
/// read.
pub fn replies_with(
    alloc: Global,
    image: &[u8],
    failure: Failure,
    lines: &str,
) -> Result<Option<String>, Fault> {
    let mut session = Session::new(alloc, image, Some(failure))?;
    session.replies(alloc, lines)
}

/// The same, where a first mount that a failed read refused is asked again; and whether it was.
pub fn replies_at_last(
    alloc: Global,
    image: &[u8],
    failure: Failure,
    lines: &str,
) -> Result<(Option<String>, bool), Fault> {
    let mut session = Session::new(alloc, image, Some(failure))?;
    replies_or_again(alloc, &mut session, lines)
}

fn replies_or_again(
    alloc: Global,
    session: &mut Session,
    lines: &str,
) -> Result<(Option<String>, bool), Fault> {
    match session.replies(alloc, lines)? {
        Some(told) => Ok((Some(told), false)),
        None => Ok((session.replies(alloc, lines)?, true)),
    }
}

/// How many operations lines ask where none fails, and what they are answered.
pub fn count(alloc: Global, image: &[u8], lines: &str) -> Result<(Counters, String), Fault> {
    let mut session = Session::new(alloc, image, None)?;
    match session.replies(alloc, lines)? {
        Some(told) => Ok((session.counts(), told)),
        None => Err(Fault::ReadFailed),
    }
}

/// Appends a line.
pub fn push_line(out: &mut String, line: &str) -> Result<(), AllocError> {
    out.push_str(line)?;
    out.push('\n')
}
