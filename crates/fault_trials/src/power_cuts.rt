//! Cuts the power in each device operation of scripts, in each way that there is. The lines after a
//! cut are left out; a restart, and what is done from there, follow. The oracle of sessions judges
//! each answer, and all that is shown after each restart. Two servers that are wrong on purpose have to
//! be seen, too.
use crate::pairs::cut_twice;
use crate::replies::count_wrong;
use crate::servers::Server;
use crate::sweeps::{Tally, cut_each};
use crate::trials::Trial;
use anyhow::{Context, Result};
use session_oracle::Script;
use std::fs;
use std::rt::Files;

/// Cuts the power in each device operation of the script of a file, and prints how many runs and cuts there
/// were. A run that is none by the oracle is told, and so is a reply that is not the script's where no cut
/// comes. Answers how many of these there were, and how many wrong servers were not seen.
pub fn cut_power<R: Files + AllocGlobal + Print>(rt: &R, name: &str) -> Result<u64> {
    let text = fs::read_to_string(rt, name).context(format_args!("reading {name}"))?;
    let script = Script::read(rt.alloc(), text.as_str())?;
    let trial = Trial::new(rt.alloc(), &script)?;
    let wrong = check_replies(rt, name, &script, &trial)?;
    Ok(wrong.saturating_add(try_script(rt, name, &trial)?))
}

/// Carries a script out with no cut, and answers how many of its replies are not what it tells.
fn check_replies<R: AllocGlobal + Print>(
    rt: &R,
    name: &str,
    script: &Script<'_>,
    trial: &Trial,
) -> Result<u64> {
    let wrong = count_wrong(rt.alloc(), script, trial)?;
    if wrong != 0 {
        println!(rt; "{name}: {wrong} lines are answered otherwise")?;
    }
    Ok(wrong)
}

fn try_script<R: AllocGlobal + Print>(rt: &R, name: &str, trial: &Trial) -> Result<u64> {
    let tally = cut_each(rt.alloc(), trial, Server::Right)?;
    tell(rt, name, tally)?;
    let mut faults = tally.wrong;
    if name == "full_flash.row" {
        let pairs = cut_twice(rt.alloc(), trial)?;
        tell(rt, "full_flash.row, and once more after the restart", pairs)?;
        faults = faults.saturating_add(pairs.wrong);
    }
    if name == "torn_commit.row" {
        let unseen = try_wrong_servers(rt, trial)?;
        faults = faults.saturating_add(unseen);
    }
    Ok(faults)
}

/// Tries the wrong servers, and answers how many were not seen.
fn try_wrong_servers<R: AllocGlobal + Print>(rt: &R, trial: &Trial) -> Result<u64> {
    let mut unseen = 0u64;
    for (server, what) in [
        (Server::SyncsNothing, "a sync that programs nothing"),
        (
            Server::ErasesNewest,
            "a sync that erases the newest record's anchor",
        ),
    ] {
        let tally = cut_each(rt.alloc(), trial, server)?;
        println!(rt; "{what}: {} of {} runs refused", tally.wrong, tally.runs)?;
        if tally.wrong == 0 {
            unseen = unseen.saturating_add(1);
        }
    }
    Ok(unseen)
}

/// Tells what came of runs.
fn tell<R: Print>(rt: &R, name: &str, tally: Tally) -> Result<()> {
    println!(rt; "{name}: {} runs, {} cuts", tally.runs, tally.cuts)?;
    if tally.wrong != 0 {
        println!(rt; "  {} are no runs", tally.wrong)?;
    }
    if let Some(cut) = tally.first_wrong {
        println!(rt;
            "  the first with {:?} in operation {}",
            cut.kind, cut.number
        )?;
    }
    Ok(())
}
