//! Makes an image with some folders and files, and writes the archive that the program gives of it, 32
//! bytes in a line as hexadecimal digits; then puts that archive into a new image, and writes what the
//! program tells of its tree. `tools/check_tar.py` knows the bytes by the table of POSIX alone.
#![tactic(auto)]

use anyhow::{Result, bail};
use host_files::HostFiles;
use program_calls::words_of;
use shell::tool;
use std::alloc::{AllocError, Global};
use std::fs::File;
use std::rt::Files;
use std::{fs, process};

/// The lines that make what stands in the image, but for its two longer files.
const SCRIPT: &str = "mkdir /a
mkdir /a/dddddddddddddddddddddddddddddddddddddddddddddddddddddddddddddddd
write /a/dddddddddddddddddddddddddddddddddddddddddddddddddddddddddddddddd/ffffffffffffffffffffffffffffffffffffffffffffffffffffffffffffffff 6c6f6e67
open /a/empty 6
close 0
write /a/one 31
write /b%20c 7769746820612073706163650a
";

fn main(rt: HostRuntime) -> Result<()> {
    let alloc = rt.alloc();
    let id = process::id(rt.process());
    let folder = std::env::temp_dir(&rt)?;
    let folder = format!(in alloc; "{}/{id}-archive_sample", folder.as_str())?;
    fs::create_dir(&rt, folder.as_str())?;
    let done = tell_sample(&rt, folder.as_str());
    fs::remove_dir_all(&rt, folder.as_str())?;
    done
}

/// Writes the archive of an image that is made in a folder, and the tree into which that is put.
fn tell_sample<R: Files<File = File> + AllocGlobal + Print>(rt: &R, folder: &str) -> Result<()> {
    let alloc = rt.alloc();
    let first = format!(in alloc; "{folder}/first")?;
    let second = format!(in alloc; "{folder}/second")?;
    call(rt, &["format", first.as_str()], b"")?;
    let script = script_of(alloc)?;
    call(rt, &["run", first.as_str(), "--stop"], script.as_bytes())?;
    let archive = call(rt, &["tar", first.as_str()], b"")?;
    for line in archive.chunks(32) {
        tell(rt, line)?;
    }
    call(rt, &["format", second.as_str()], b"")?;
    call(rt, &["untar", second.as_str(), "/new"], &archive)?;
    let tree = call(rt, &["tree", second.as_str()], b"")?;
    print!(rt; "{}", String::from_utf8_lossy(alloc, &tree)?)?;
    Ok(())
}

/// The lines that make what stands in the image.
fn script_of(alloc: Global) -> Result<String, AllocError> {
    let mut script = String::from_str(alloc, SCRIPT)?;
    add_file(&mut script, "whole", "77", 512)?;
    add_file(&mut script, "more", "6d", 513)?;
    script.push_str("sync\n")?;
    Ok(script)
}

/// Adds the line that writes a file of so many equal bytes.
fn add_file(script: &mut String, name: &str, byte: &str, count: u32) -> Result<(), AllocError> {
    script.push_str("write /a/")?;
    script.push_str(name)?;
    script.push(' ')?;
    for _ in 0..count {
        script.push_str(byte)?;
    }
    script.push('\n')
}

/// What the program writes, called with words and an input.
fn call<R: Files<File = File> + AllocGlobal>(
    rt: &R,
    words: &[&str],
    input: &[u8],
) -> Result<Vec<u8>> {
    let alloc = rt.alloc();
    let words = words_of(alloc, words)?;
    let mut reader = input;
    let mut out = Vec::new(alloc);
    let mut err = Vec::new(alloc);
    let files = &mut HostFiles::new(rt);
    let status = tool(files, alloc, &words, &mut reader, &mut out, &mut err);
    if status != 0 {
        bail!("the program refused something");
    }
    Ok(out)
}

/// Writes bytes as a line of hexadecimal digits.
fn tell<R: Print>(rt: &R, bytes: &[u8]) -> Result<()> {
    for byte in bytes {
        print!(rt; "{byte:02x}")?;
    }
    println!(rt)?;
    Ok(())
}
