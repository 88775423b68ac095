//! Each read of a script fails once.
use crate::failing_runs::{Failure, count, push_line, replies_at_last, replies_with};
use flash_model::FaultKind;
use fs_types::Fault;
use session_oracle::{Script, new_image};
use std::alloc::{AllocError, Global};

/// What a line is answered in which a read failed.
const FAILED: &str = "err EIO 23";

/// What came of the reads of a script.
#[derive(Clone, Copy, Default)]
pub struct ReadTally {
    /// Reads that failed, each in a run of its own.
    pub runs: u64,
    /// First mounts that were asked again, and lines.
    pub mounts: u64,
    pub lines: u64,
    /// Runs that were answered otherwise, and the read that failed in the first of them.
    pub wrong: u64,
    pub first_wrong: u64,
}

/// How a run went.
#[derive(Clone, Copy)]
enum Went {
    /// As the script says, with the first mount asked again.
    MountAgain,
    /// As the script says, with a line asked again.
    LineAgain,
    /// As the script says.
    Well,
    /// Otherwise.
    Wrong,
}

impl ReadTally {
    fn add(&mut self, number: u64, went: Went) {
        self.runs = self.runs.saturating_add(1);
        match went {
            Went::MountAgain => self.mounts = self.mounts.saturating_add(1),
            Went::LineAgain => self.lines = self.lines.saturating_add(1),
            Went::Well => {}
            Went::Wrong => {
                if self.wrong == 0 {
                    self.first_wrong = number;
                }
                self.wrong = self.wrong.saturating_add(1);
            }
        }
    }
}

/// Fails each read of a script once.
pub fn fail_reads(alloc: Global, script: &Script<'_>) -> Result<ReadTally, Fault> {
    let image = new_image(alloc, script)?;
    let lines = lines_of(alloc, script, None)?;
    let (counts, _) = count(alloc, &image, &lines)?;
    let mut tally = ReadTally::default();
    for number in 1..=counts.reads {
        let went = fail_read(alloc, script, &image, &lines, number)?;
        tally.add(number, went);
    }
    Ok(tally)
}

/// Fails the read of a number.
fn fail_read(
    alloc: Global,
    script: &Script<'_>,
    image: &[u8],
    lines: &str,
    number: u64,
) -> Result<Went, Fault> {
    let failure = Failure {
        kind: FaultKind::ReadFail,
        number,
    };
    let (told, is_again) = replies_at_last(alloc, image, failure, lines)?;
    let Some(told) = told else {
        return Ok(Went::Wrong);
    };
    if is_again {
        return judge(alloc, script, None, &told, Went::MountAgain);
    }
    match refused_place(script, &told) {
        Some(place) => fail_line(alloc, script, image, failure, place),
        None => judge(alloc, script, None, &told, Went::Well),
    }
}

/// Fails the same read where the line that met it is asked again.
fn fail_line(
    alloc: Global,
    script: &Script<'_>,
    image: &[u8],
    failure: Failure,
    place: usize,
) -> Result<Went, Fault> {
    let again = lines_of(alloc, script, Some(place))?;
    match replies_with(alloc, image, failure, &again)? {
        Some(told) => judge(alloc, script, Some(place), &told, Went::LineAgain),
        None => Ok(Went::Wrong),
    }
}

/// This, where the replies are those of the script, one of them after that of a failed read.
fn judge(
    alloc: Global,
    script: &Script<'_>,
    twice: Option<usize>,
    told: &str,
    right: Went,
) -> Result<Went, Fault> {
    let wanted = replies_of(alloc, script, twice)?;
    Ok(if told == wanted.as_str() {
        right
    } else {
        Went::Wrong
    })
}

/// The place of the first line that was refused for a failed read where the script says otherwise.
fn refused_place(script: &Script<'_>, told: &str) -> Option<usize> {
    for ((place, line), reply) in script.lines.iter().enumerate().zip(told.lines()) {
        if reply == FAILED && line.reply != FAILED {
            return Some(place);
        }
    }
    None
}

/// The lines of a script, one of them twice.
fn lines_of(
    alloc: Global,
    script: &Script<'_>,
    twice: Option<usize>,
) -> Result<String, AllocError> {
    let mut lines = String::new(alloc);
    for (place, line) in script.lines.iter().enumerate() {
        if twice == Some(place) {
            push_line(&mut lines, line.text)?;
        }
        push_line(&mut lines, line.text)?;
    }
    Ok(lines)
}

/// The replies of a script, one of them after that of a failed read.
fn replies_of(
    alloc: Global,
    script: &Script<'_>,
    twice: Option<usize>,
) -> Result<String, AllocError> {
    let mut lines = String::new(alloc);
    for (place, line) in script.lines.iter().enumerate() {
        if twice == Some(place) {
            push_line(&mut lines, FAILED)?;
        }
        push_line(&mut lines, line.reply)?;
    }
    Ok(lines)
}
