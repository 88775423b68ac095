//! Runs a file system under load: calls, questions what the history keeps, versions that are forgotten for
//! their blocks and steps of cleaning by a fixed plan on a small flash, some of whose operations fail, each
//! call beside the plain machine. A step of reclaiming follows each, and a sync each fiftieth. It prints two
//! lines of counts. Where the two sides answer differently, a call takes more blocks than it may, or finds
//! the flash full where it is not, where a step or a sync does more or less than it may, or where what is told
//! of blocks may not be, it ends with an error that tells the line. At the end a mount has to find as many
//! blocks at hand.
#![tactic(auto)]

mod load;
mod mounted;
mod plan;

use anyhow::{Context, Result};
use load::{Counts, Load};
use plan::Plan;
use std::alloc::Global;

/// How many lines of the plan are carried out.
const LINES: u64 = 20_000;

fn main(rt: HostRuntime) -> Result<()> {
    let mut load = Load::new(rt.alloc())?;
    run(&rt, &mut load)?;
    load.check_mount(rt.alloc())
}

/// Carries out the plan, and tells what came of it.
fn run<R: AllocGlobal + Print>(rt: &R, load: &mut Load) -> Result<()> {
    carry_out(rt.alloc(), load)?;
    let space = load.space(rt.alloc())?;
    tell(rt, load.counts(), space.as_str())
}

/// Carries out the lines of the plan.
fn carry_out(alloc: Global, load: &mut Load) -> Result<()> {
    let mut plan = Plan::new();
    for number in 1..=LINES {
        let line = plan.next_line(alloc, number)?;
        turn(alloc, load, number, line.as_str())?;
    }
    Ok(())
}

/// Carries out the line of a number; an error tells which it was.
fn turn(alloc: Global, load: &mut Load, number: u64, line: &str) -> Result<()> {
    load.turn(alloc, number, line)
        .context(format_args!("line {number}: {line}"))
}

/// Tells what was counted, and what is bad and free at the end.
fn tell<R: Print>(rt: &R, counts: Counts, space: &str) -> Result<()> {
    println!(rt;
        "accepted {}, refused {}, full {}; nodes written {} of {} needed, fewer blocks at hand in {} calls; blocks erased {}, {} of them in {} steps of cleaning; free {} to {}; {}",
        counts.accepted,
        counts.refused,
        counts.full,
        counts.written,
        counts.needed,
        counts.tight,
        counts.erased,
        counts.cleaned,
        counts.steps,
        counts.least_free,
        counts.most_free,
        space.trim_end()
    )?;
    println!(rt;
        "what the history keeps told {} times; {} versions forgotten in {} lines for their blocks, {} of them refused",
        counts.told, counts.forgotten, counts.forgetting, counts.kept
    )?;
    Ok(())
}
