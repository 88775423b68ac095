//! Steps that make files.
use crate::bytes::bytes_of;
use crate::row::FileStep;
use anyhow::Result;
use std::fs;
use std::os::unix::fs::symlink;
use std::rt::Files;

/// Makes what a step asks for; answers whether it is such a step.
pub fn make<R: Files + AllocGlobal>(rt: &R, step: FileStep<'_>) -> Result<bool> {
    let FileStep { verb, name, rest } = step;
    match verb {
        "folder" => fs::create_dir(rt, name)?,
        "file" => fs::write(rt, name, bytes_of(rt.alloc(), rest)?.as_slice())?,
        "files" => make_files(rt, name, rest)?,
        "copy" => fs::write(rt, rest, fs::read(rt, name)?.as_slice())?,
        "link" => symlink(rt, rest, name)?,
        "hard link" => fs::hard_link(rt, rest, name)?,
        _ => return Ok(false),
    }
    Ok(true)
}

/// Makes so many files in a folder, `file0000` first: each holds its number in decimal digits, or these bytes.
fn make_files<R: Files + AllocGlobal>(rt: &R, folder: &str, rest: &str) -> Result<()> {
    let (count, bytes) = rest.split_once(" ").unwrap_or((rest, ""));
    for number in 0..count.parse::<u32>()? {
        let name = format!(in rt.alloc(); "{folder}/file{number:04}")?;
        match bytes {
            "number" => fs::write(rt, name.as_str(), number.to_string(rt.alloc())?.as_str())?,
            bytes => fs::write(rt, name.as_str(), bytes_of(rt.alloc(), bytes)?.as_slice())?,
        }
    }
    Ok(())
}
