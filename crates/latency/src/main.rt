//! Tells how long calls wait for a flash: what single calls of a mixed work ask of it, each with its sync,
//! and how long that takes by the times of a part. A share of the flash is filled before. Between two calls
//! no step is taken; one of reclaiming and one of cleaning with a budget, or both until nothing is left to do;
//! or one of reclaiming, with a budget or to its end, and one of preparing the four blocks that are taken next.
//! An argument tells how many calls each line measures, 2,000 where there is none. At the end it tells how many
//! of 300 calls after a restart ask a serial NOR part for an erase.
#![tactic(auto)]

mod counted_part;
mod error;
mod filling;
mod mounted;
mod part;
mod restarts;
mod row;
mod samples;
mod trial;
mod watched;
mod work;
mod worked;

use anyhow::{Context, Result};
use error::LatencyError;
use part::{PARTS, Part};
use restarts::{CALLS_AFTER, count_waiting};
use row::{Row, tell_asked, tell_taken};
use std::alloc::Global;
use std::rt::Env;
use trial::{Trial, measure};
use worked::Steps;

/// How many calls are measured where no argument tells it.
const CALLS: u64 = 2_000;

/// How many of a hundred data blocks are used before the calls.
const SHARES: [u64; 3] = [50, 80, 95];

/// The steps between two calls, and what they are called.
const STEPS: [(&str, Steps); 6] = [
    ("no steps", Steps::None),
    ("steps of 4", Steps::Budget(4)),
    ("steps of 16", Steps::Budget(16)),
    ("all steps", Steps::All),
    ("4 ahead", Steps::Ahead(4, 4)),
    ("all and 4 ahead", Steps::Ahead(u64::MAX, 4)),
];

/// The steps between two calls after a restart, and what they are called. Before the first call come those of
/// preparing until all is prepared, or, where those of cleaning are taken, a whole round.
const STEPS_AFTER: [(&str, Steps); 4] = [
    ("steps of 16", Steps::Budget(16)),
    ("no steps", Steps::None),
    ("4 ahead", Steps::Ahead(4, 4)),
    ("all and 4 ahead", Steps::Ahead(u64::MAX, 4)),
];

fn main(rt: HostRuntime) -> Result<()> {
    let calls = calls_asked(&rt)?;
    for part in PARTS {
        let rows = rows_of(rt.alloc(), part, calls).context(part.name)?;
        tell_asked(&rt, part.name, &rows)?;
        tell_taken(&rt, part.name, &rows)?;
    }
    tell_waiting(&rt)
}

/// Tells how many calls after a restart ask a serial NOR part for an erase.
fn tell_waiting<R: Print + AllocGlobal>(rt: &R) -> Result<()> {
    let part = PARTS.first().context("no part")?;
    println!(rt; "calls that wait for an erase, of {CALLS_AFTER} after a restart")?;
    for percent in SHARES {
        for (name, steps) in STEPS_AFTER {
            let waiting = count_waiting(rt.alloc(), part, percent, steps).context(name)?;
            println!(rt; "NorFlash, {percent} %, {name:<18}{waiting:>5}")?;
        }
    }
    Ok(())
}

/// How many calls are to be measured.
fn calls_asked<R: Env + AllocGlobal>(rt: &R) -> Result<u64> {
    match std::env::args(rt)?.nth(1) {
        Some(word) => word.as_str().parse().context("a count of calls"),
        None => Ok(CALLS),
    }
}

/// What is found on a part, by shares and steps.
fn rows_of(alloc: Global, part: &Part, calls: u64) -> Result<Vec<Row>, LatencyError> {
    let mut rows = Vec::new(alloc);
    for percent in SHARES {
        for (steps_name, steps) in STEPS {
            let trial = Trial {
                part,
                percent,
                steps,
                calls,
            };
            let found = measure(alloc, trial)?;
            rows.push(Row {
                percent,
                steps_name,
                found,
            })?;
        }
    }
    Ok(rows)
}
