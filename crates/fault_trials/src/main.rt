//! Cuts the power in each device operation of scripts, and fails each once. Each argument is
//! `cuts/FILE` or `failures/FILE`. What goes wrong is told, and then the status is 1.
#![tactic(auto)]

mod cut_runs;
mod failed_reads;
mod failed_writes;
mod failing_runs;
mod newest;
mod operation_failures;
mod pairs;
mod planned;
mod power_cuts;
mod replies;
mod servers;
mod sessions;
mod sweeps;
mod trials;

use crate::operation_failures::fail_operations;
use crate::power_cuts::cut_power;
use anyhow::{Result, bail};
use std::process::ExitCode;
use std::rt::Files;

fn main(rt: HostRuntime) -> Result<ExitCode> {
    let mut wrong = 0u64;
    for word in std::env::args(&rt)?.skip(1) {
        wrong = wrong.saturating_add(run(&rt, word.as_str())?);
    }
    Ok(ExitCode::from(if wrong == 0 { 0 } else { 1 }))
}

/// Tries what an argument names, and answers how much went wrong.
fn run<R: Files + AllocGlobal + Print>(rt: &R, word: &str) -> Result<u64> {
    match word.split_once("/") {
        Some(("cuts", name)) => cut_power(rt, name),
        Some(("failures", name)) => fail_operations(rt, name),
        _ => bail!("an argument names no trial"),
    }
}
