//! Runs worked rows: scripts with the replies that are expected of them, each on the plain machine,
//! on a flash in memory that was formatted, with 8, 1 and 64 nodes in memory, as far as these go by
//! now, and by the program `uffs` on an image that it made, in a folder of its own. A row may begin
//! on a stored image instead. A row that does
//! not give its replies is told with what it gave, and the status is 1.
#![tactic(auto)]

mod counted_nodes;
mod error;
mod look;
mod row;
mod runs;
mod sight;
mod tool_calls;

use anyhow::{Context, Result};
use counted_nodes::run_with_nodes;
use error::RowError;
use host_files::HostFiles;
use host_interface::ImageFiles;
use row::{Row, Side};
use runs::{append_difference, run_on_flash, run_on_image, run_plain};
use std::fs::File;
use std::process::ExitCode;
use std::rt::{Env, Files};
use std::{fs, process};

fn main(rt: HostRuntime) -> Result<ExitCode> {
    let mut failed = 0u32;
    for name in std::env::args(&rt)?.skip(1) {
        if !run_in_folder(&rt, name.as_str())? {
            failed = failed.saturating_add(1);
        }
    }
    Ok(ExitCode::from(if failed == 0 { 0 } else { 1 }))
}

/// Runs the row of a file, with a new folder for its image, and tells whether it gave its replies.
fn run_in_folder(rt: &HostRuntime, name: &str) -> Result<bool> {
    let folder = folder_name(rt, process::id(rt.process()), name)?;
    fs::create_dir(rt, folder.as_str())?;
    let is_right = run(rt, folder.as_str(), name)?;
    fs::remove_dir_all(rt, folder.as_str())?;
    Ok(is_right)
}

/// The name of the folder for the image of a row, which is this process's alone.
fn folder_name<R: Env + AllocGlobal>(rt: &R, id: u32, row: &str) -> Result<String> {
    let folder = std::env::temp_dir(rt)?;
    let folder = folder.as_str();
    Ok(format!(in rt.alloc(); "{folder}/{id}-{row}")?)
}

/// A row as its file gives it, and the name of its image.
#[derive(Clone, Copy)]
struct Source<'a> {
    name: &'a str,
    text: &'a str,
    image: &'a str,
}

/// Runs the row of a file, with its image in a folder, and tells whether it gave its replies.
fn run<R: Files<File = File> + AllocGlobal + Print>(
    rt: &R,
    folder: &str,
    name: &str,
) -> Result<bool> {
    let text = fs::read_to_string(rt, name).context(format_args!("reading {name}"))?;
    let image = format!(in rt.alloc(); "{folder}/image")?;
    let source = Source {
        name,
        text: text.as_str(),
        image: image.as_str(),
    };
    run_sides(rt, &source)
}

/// Runs a row on all sides, and tells whether it gave its replies.
fn run_sides<R: Files<File = File> + AllocGlobal + Print>(
    rt: &R,
    source: &Source<'_>,
) -> Result<bool> {
    let mut differences = String::new(rt.alloc());
    let plain = run_side(rt, source, Side::Plain, &mut differences)?;
    let flash = run_side(rt, source, Side::Flash, &mut differences)?;
    let one = run_side(rt, source, Side::Nodes(1), &mut differences)?;
    let many = run_side(rt, source, Side::Nodes(64), &mut differences)?;
    let image = run_side(rt, source, Side::Image, &mut differences)?;
    let name = source.name;
    println!(rt;
        "{name}: plain {plain}, flash {flash}, 1 node {one}, 64 nodes {many}, image {image}"
    )?;
    print!(rt; "{differences}")?;
    Ok(differences.is_empty())
}

/// Runs a row on a side, and answers how many lines it ran, those that look at the flash afterwards
/// among them. A difference is appended, and an error tells the row and the side.
fn run_side<R: Files<File = File> + AllocGlobal>(
    rt: &R,
    source: &Source<'_>,
    side: Side,
    differences: &mut String,
) -> Result<usize> {
    try_side(rt, source, side, differences).context(format_args!("{} {}", source.name, side.name()))
}

fn try_side<R: Files<File = File> + AllocGlobal>(
    rt: &R,
    source: &Source<'_>,
    side: Side,
    differences: &mut String,
) -> Result<usize, RowError> {
    let row = Row::read(rt.alloc(), source.text, side)?;
    let first = first_image(rt, &row)?;
    let image = first.as_ref().map(|bytes| bytes.as_slice());
    let written = written_on(rt, source.image, &row, image, side, differences)?;
    append_difference(differences, &row, side, written.as_str())?;
    let lines = row.steps.len().saturating_add(row.calls.len());
    Ok(lines.saturating_add(row.looks.len()))
}

/// The bytes of the image that a row begins on; none for a new file system.
fn first_image<R: Files<File = File> + AllocGlobal>(
    rt: &R,
    row: &Row<'_>,
) -> Result<Option<Vec<u8>>, RowError> {
    match row.image {
        Some(name) => Ok(Some(HostFiles::new(rt).read(rt.alloc(), name)?)),
        None => Ok(None),
    }
}

/// What a row writes on a side. What it says of the flash and is not so is appended.
fn written_on<R: Files<File = File> + AllocGlobal>(
    rt: &R,
    name: &str,
    row: &Row<'_>,
    image: Option<&[u8]>,
    side: Side,
    differences: &mut String,
) -> Result<String, RowError> {
    let alloc = rt.alloc();
    match side {
        Side::Plain => run_plain(alloc, row),
        Side::Flash => run_on_flash(alloc, row, image, differences),
        Side::Nodes(nodes) => run_with_nodes(alloc, row, image, nodes, differences),
        Side::Image => {
            let files = &mut HostFiles::new(rt);
            run_on_image(files, alloc, name, row, image, differences)
        }
    }
}
