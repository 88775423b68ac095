//! Each program and each erase of a script fails once.
use crate::failing_runs::{Failure, count, push_line, replies_with};
use flash_model::FaultKind;
use fs_types::Fault;
use session_oracle::{Script, new_image};
use std::alloc::{AllocError, Global};

/// What came of the programs and erases of a script.
#[derive(Clone, Copy, Default)]
pub struct WriteTally {
    /// Programs and erases that failed, each in a run of its own.
    pub programs: u64,
    pub erases: u64,
    /// Runs that were answered otherwise, and the number of the operation that failed in the first.
    pub wrong: u64,
    pub first_wrong: u64,
}

/// Lines on an image, and what they are answered where no operation fails.
#[derive(Clone, Copy)]
struct Base<'a> {
    image: &'a [u8],
    lines: &'a str,
    wanted: &'a str,
}

/// Fails each program and each erase of a script once, its own faults left out.
pub fn fail_writes(alloc: Global, script: &Script<'_>) -> Result<WriteTally, Fault> {
    let image = new_image(alloc, script)?;
    let lines = lines_without_faults(alloc, script)?;
    let (counts, wanted) = count(alloc, &image, &lines)?;
    let base = Base {
        image: &image,
        lines: &lines,
        wanted: &wanted,
    };
    let mut tally = WriteTally {
        programs: counts.programs,
        erases: counts.erases,
        ..WriteTally::default()
    };
    fail_each(
        alloc,
        &base,
        FaultKind::ProgramFail,
        counts.programs,
        &mut tally,
    )?;
    fail_each(
        alloc,
        &base,
        FaultKind::EraseFail,
        counts.erases,
        &mut tally,
    )?;
    Ok(tally)
}

/// Fails each operation of a class.
fn fail_each(
    alloc: Global,
    base: &Base<'_>,
    kind: FaultKind,
    count: u64,
    tally: &mut WriteTally,
) -> Result<(), Fault> {
    for number in 1..=count {
        if !is_same_with(alloc, base, Failure { kind, number })? {
            if tally.wrong == 0 {
                tally.first_wrong = number;
            }
            tally.wrong = tally.wrong.saturating_add(1);
        }
    }
    Ok(())
}

/// Whether the lines are answered as they should with this failure.
fn is_same_with(alloc: Global, base: &Base<'_>, failure: Failure) -> Result<bool, Fault> {
    match replies_with(alloc, base.image, failure, base.lines)? {
        Some(told) => Ok(are_same(&told, base.wanted)),
        None => Ok(false),
    }
}

/// Whether replies are the same, but for the numbers of `df`.
fn are_same(told: &str, wanted: &str) -> bool {
    told.lines().count() == wanted.lines().count()
        && told.lines().zip(wanted.lines()).all(|(told, wanted)| told == wanted
            || is_df(told) && is_df(wanted))
}

fn is_df(reply: &str) -> bool {
    reply.starts_with("df data ")
}

fn lines_without_faults(alloc: Global, script: &Script<'_>) -> Result<String, AllocError> {
    let mut lines = String::new(alloc);
    for line in &script.lines {
        if !line.text.starts_with("fault ") {
            push_line(&mut lines, line.text)?;
        }
    }
    Ok(lines)
}
