//! Steps that look at files.
use crate::row::FileStep;
use anyhow::{Result, bail};
use std::fs;
use std::os::unix::fs::{MetadataExt, PermissionsExt};
use std::rt::Files;

/// Whether it is as a step says.
pub fn holds<R: Files + AllocGlobal>(rt: &R, step: FileStep<'_>) -> Result<bool> {
    let FileStep { verb, name, rest } = step;
    match verb {
        "is" => Ok(kind_at(rt, name) == rest),
        "same" => Ok(fs::read(rt, name)?.as_slice() == fs::read(rt, rest)?.as_slice()),
        "same mode" => Ok(mode_of(rt, name)? == mode_of(rt, rest)?),
        "same file" => Ok(fs::metadata(rt, name)?.ino() == fs::metadata(rt, rest)?.ino()),
        "size" => Ok(fs::metadata(rt, name)?.len() == rest.parse::<u64>()?),
        verb => bail!("no step is named {verb}"),
    }
}

/// What stands at a name.
fn kind_at<R: Files>(rt: &R, name: &str) -> &'static str {
    match fs::symlink_metadata(rt, name) {
        Ok(found) if found.is_symlink() => "link",
        Ok(found) if found.is_dir() => "folder",
        Ok(found) if found.is_file() => "file",
        Ok(_) => "special",
        Err(_) => "nothing",
    }
}

fn mode_of<R: Files>(rt: &R, name: &str) -> Result<u32> {
    Ok(fs::metadata(rt, name)?.permissions().mode())
}
