//! The standard streams of the process.
use std::alloc::Global;
use std::fs::{File, Metadata};
use std::os::fd::AsRawFd;
use std::os::unix::fs::MetadataExt;
use std::rt::Files;
use std::{fs, io};

/// The numbers of the standard streams are 0 to this one.
const LAST_STREAM: i32 = 2;

/// What stands in the place of a closed stream: a folder, which is neither read nor written, so that
/// the stream fails as a closed one does.
const STAND_IN: &str = "/";

/// The name that the host gives to standard output.
const OUTPUT: &str = "/proc/self/fd/1";

/// Takes the number of each standard stream that is closed, until what is given is dropped: else the
/// next file that is opened has that number, and what is written to the stream is written to the file.
pub(crate) fn fill_closed_streams<R: Files<File = File>>(
    rt: &R,
    alloc: Global,
) -> io::Result<Vec<File>> {
    let mut filled = Vec::new(alloc);
    for _ in 0..=LAST_STREAM {
        let file = fs::open(rt, STAND_IN)?;
        if file.as_raw_fd() > LAST_STREAM {
            break;
        }
        filled.push(file)?;
    }
    Ok(filled)
}

/// Whether standard output is the plain file that a name leads to, where the host gives open files names.
pub(crate) fn is_output<R: Files>(rt: &R, name: &str) -> bool {
    match (fs::metadata(rt, OUTPUT), fs::metadata(rt, name)) {
        (Ok(output), Ok(named)) => output.is_file() && is_same(&output, &named),
        _ => false,
    }
}

/// Whether two looks were at one file: they tell one device, and one number there.
fn is_same(first: &Metadata, second: &Metadata) -> bool {
    first.dev() == second.dev() && first.ino() == second.ino()
}
