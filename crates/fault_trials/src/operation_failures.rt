//! Fails each device operation of scripts once. Where a read fails, the line is answered as in the
//! script or `err EIO 23`, and then the same line once more as in the script; a mount that failed is
//! asked again. Where a program or an erase fails, all is answered as if none had, but for the
//! numbers of `df`; the faults of a script itself are left out there.
use crate::failed_reads::{ReadTally, fail_reads};
use crate::failed_writes::{WriteTally, fail_writes};
use anyhow::{Context, Result};
use session_oracle::Script;
use std::fs;
use std::rt::Files;

/// Fails each device operation of the script of a file once, and prints how many failed. A run that is
/// answered otherwise is told. Answers how many runs went wrong.
pub fn fail_operations<R: Files + AllocGlobal + Print>(rt: &R, name: &str) -> Result<u64> {
    let text = fs::read_to_string(rt, name).context(format_args!("reading {name}"))?;
    let script = Script::read(rt.alloc(), text.as_str())?;
    let reads = fail_reads(rt.alloc(), &script)?;
    tell_reads(rt, name, reads)?;
    if is_only_read(name) {
        return Ok(reads.wrong);
    }
    let writes = fail_writes(rt.alloc(), &script)?;
    tell_writes(rt, name, writes)?;
    Ok(reads.wrong.saturating_add(writes.wrong))
}

/// Whether only reads of a script fail: what it is answered tells how many blocks are free.
fn is_only_read(name: &str) -> bool {
    matches!(
        name,
        "full_flash.row"
            | "undo_redo.row"
            | "group_makes_room.row"
            | "free_blocks_are_cleaned.row"
            | "forget_until_free.row"
    )
}

fn tell_reads<R: Print>(rt: &R, name: &str, tally: ReadTally) -> Result<()> {
    println!(rt;
        "{name}: {} reads failed, {} mounts and {} lines asked again",
        tally.runs, tally.mounts, tally.lines
    )?;
    if tally.wrong != 0 {
        println!(rt;
            "  {} runs wrong, the first of read {}",
            tally.wrong, tally.first_wrong
        )?;
    }
    Ok(())
}

fn tell_writes<R: Print>(rt: &R, name: &str, tally: WriteTally) -> Result<()> {
    println!(rt;
        "{name}: {} programs and {} erases failed",
        tally.programs, tally.erases
    )?;
    if tally.wrong != 0 {
        println!(rt;
            "  {} runs wrong, the first of operation {}",
            tally.wrong, tally.first_wrong
        )?;
    }
    Ok(())
}
