//! Steps that change files.
use crate::bytes::bytes_of;
use crate::row::FileStep;
use anyhow::{Result, bail};
use std::fs;
use std::fs::{File, OpenOptions, Permissions};
use std::os::unix::fs::{FileExt, PermissionsExt};
use std::rt::Files;

/// Changes what a step asks for; answers whether it is such a step.
pub fn change<R: Files<File = File> + AllocGlobal>(rt: &R, step: FileStep<'_>) -> Result<bool> {
    let FileStep { verb, name, rest } = step;
    match verb {
        "change" => change_bytes(rt, name, rest)?,
        "length" => open(rt, name)?.set_len(rest.parse::<u64>()?)?,
        "mode" => set_mode(rt, name, rest)?,
        "move" => fs::rename(rt, name, rest)?,
        "remove" => remove(rt, name)?,
        _ => return Ok(false),
    }
    Ok(true)
}

fn open<R: Files<File = File>>(rt: &R, name: &str) -> Result<File> {
    Ok(OpenOptions::new().write(true).open(rt, name)?)
}

/// Puts bytes at a place of a file: `PLACE BYTES`.
fn change_bytes<R: Files<File = File> + AllocGlobal>(rt: &R, name: &str, rest: &str) -> Result<()> {
    let Some((place, bytes)) = rest.split_once(" ") else {
        bail!("no place with bytes: {rest}");
    };
    let bytes = bytes_of(rt.alloc(), bytes)?;
    open(rt, name)?.write_all_at(&bytes, place.parse::<u64>()?)?;
    Ok(())
}

/// Gives a file or folder a mode, in octal digits.
fn set_mode<R: Files>(rt: &R, name: &str, digits: &str) -> Result<()> {
    let mode = u32::from_str_radix(digits, 8)?;
    fs::set_permissions(rt, name, Permissions::from_mode(mode))?;
    Ok(())
}

/// Removes a file, a link, or a folder with all that stands in it.
fn remove<R: Files + AllocGlobal>(rt: &R, name: &str) -> Result<()> {
    if fs::symlink_metadata(rt, name)?.is_dir() {
        fs::remove_dir_all(rt, name)?;
    } else {
        fs::remove_file(rt, name)?;
    }
    Ok(())
}
