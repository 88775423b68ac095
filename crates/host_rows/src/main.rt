//! Runs worked rows on files of the host: calls of the program `uffs`, each with what it has to give, and
//! between them what is done to files and what is seen of them. Each row has a folder of its own. A row that
//! does not go as it says is told with what was otherwise, and the status is 1.
#![tactic(auto)]

mod bytes;
mod call;
mod changes;
mod looks;
mod makes;
mod row;
mod runs;

use anyhow::{Context, Result};
use row::read_steps;
use runs::run_steps;
use std::fs::File;
use std::process::ExitCode;
use std::rt::{Env, Files};
use std::{fs, process};

fn main(rt: HostRuntime) -> Result<ExitCode> {
    let mut failed = 0u32;
    for name in std::env::args(&rt)?.skip(1) {
        if !run_in_folder(&rt, name.as_str())? {
            failed = failed.saturating_add(1);
        }
    }
    Ok(ExitCode::from(if failed == 0 { 0 } else { 1 }))
}

/// Runs the row of a file, with a new folder for its files, and tells whether it went as it says.
fn run_in_folder(rt: &HostRuntime, name: &str) -> Result<bool> {
    let folder = folder_name(rt, process::id(rt.process()), name)?;
    fs::create_dir(rt, folder.as_str())?;
    let is_right = run(rt, folder.as_str(), name).context(format_args!("{name}"))?;
    fs::remove_dir_all(rt, folder.as_str())?;
    Ok(is_right)
}

/// The name of the folder for the files of a row, which is this process's alone.
fn folder_name<R: Env + AllocGlobal>(rt: &R, id: u32, row: &str) -> Result<String> {
    let folder = std::env::temp_dir(rt)?;
    let folder = folder.as_str();
    Ok(format!(in rt.alloc(); "{folder}/{id}-{row}")?)
}

/// Runs the row of a file, and tells how many steps it has, and below that what was otherwise.
fn run<R: Files<File = File> + AllocGlobal + Print>(
    rt: &R,
    folder: &str,
    name: &str,
) -> Result<bool> {
    let text = fs::read_to_string(rt, name)?;
    let text = text.as_str().replace(rt.alloc(), "HERE", folder)?;
    let steps = read_steps(rt.alloc(), text.as_str())?;
    let mut differences = String::new(rt.alloc());
    run_steps(rt, &steps, &mut differences)?;
    let count = steps.len();
    println!(rt; "{name}: {count} steps")?;
    print!(rt; "{differences}")?;
    Ok(differences.is_empty())
}
