//! Runs the script of its input on a file system in memory, and prints the replies: what `run.sh` tries with no
//! proof. `uffs memory` does the same.
#![tactic(auto)]

use anyhow::{Context, Result};
use script_runs::run_in_memory;
use std::io;
use std::io::BufReader;

fn main(rt: HostRuntime) -> Result<()> {
    run_script(&rt)
}

/// Carries out the lines of the input.
fn run_script<R: AllocGlobal + Input + Print>(rt: &R) -> Result<()> {
    let mut reader = BufReader::new(rt.alloc(), rt.reader())?;
    let mut out = io::writer(rt);
    run_in_memory(rt.alloc(), &mut reader, &mut out).context("the script")?;
    Ok(())
}
