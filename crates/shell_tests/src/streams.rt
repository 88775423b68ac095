//! Streams that fail: what stands written where a script does not run to its end, and what the program tells.
use crate::failing_files::FailingFiles;
use crate::flashes::{SIZES, formatted};
use program_calls::{Wanted, first_other, fresh_image, words_of};
use script_runs::{ScriptFault, run_script};
use shell::tool;
use std::alloc::Global;
use std::io;
use std::io::{ErrorKind, Read, Write};
use std::process::Abort;
use std::test::Fail;

/// A reader that gives its bytes and then fails.
#[derive(Drop)]
struct Broken<'a> {
    bytes: &'a [u8],
}

impl Read for Broken<'_> {
    fn read(&mut self, buffer: &mut [u8]) -> io::Result<usize> {
        if self.bytes.is_empty() {
            return Err(io::Error::from(ErrorKind::Other));
        }
        self.bytes.read(buffer)
    }
}

/// A writer that takes so many bytes and then fails.
#[derive(Drop)]
struct Full {
    bytes: Vec<u8>,
    room: usize,
}

impl Full {
    fn new(alloc: Global, room: usize) -> Full {
        Full {
            bytes: Vec::new(alloc),
            room,
        }
    }
}

impl Write for Full {
    fn write(&mut self, bytes: &[u8]) -> io::Result<usize> {
        if self.bytes.len() >= self.room {
            return Err(io::Error::from(ErrorKind::Other));
        }
        match bytes {
            [first, ..] => {
                self.bytes.push(*first)?;
                Ok(1)
            }
            [] => Ok(0),
        }
    }

    fn flush(&mut self) -> io::Result<()> {
        Ok(())
    }
}

/// A reader that fails leaves all replies.
fn assert_failed_reader<R: Abort>(rt: &R, alloc: Global) -> Result<(), Fail> {
    let mut flash = formatted(alloc, SIZES, 8)?;
    let mut script = Broken {
        bytes: b"mkdir /a\nls /\nundo",
    };
    let mut out: Vec<u8> = Vec::new(alloc);
    let ended = run_script(alloc, &mut script, &mut out, &mut flash);
    assert_eq!(rt; ended, Err(ScriptFault::Read));
    assert_eq!(rt; out.as_slice(), &b"ok\nentries 1 a/\n"[..]);
    Ok(())
}

/// A writer that fails leaves a beginning.
fn assert_failed_writer<R: Abort>(rt: &R, alloc: Global) -> Result<(), Fail> {
    let mut flash = formatted(alloc, SIZES, 8)?;
    let mut script: &[u8] = b"mkdir /a\nls /\nundo\n";
    let mut out = Full::new(alloc, 10);
    let ended = run_script(alloc, &mut script, &mut out, &mut flash);
    assert_eq!(rt; ended, Err(ScriptFault::Write));
    assert_eq!(rt; out.bytes.as_slice(), &b"ok\nentries"[..]);
    Ok(())
}

/// Asserts that the program ends with status 1 and this on standard error, and leaves the image.
fn assert_broken_off<P: Abort, R: Read, W: Write>(
    rt: &P,
    alloc: Global,
    reader: &mut R,
    out: &mut W,
    told: &str,
) -> Result<(), Fail> {
    let mut files = FailingFiles {
        bytes: fresh_image(alloc)?,
    };
    let words = words_of(alloc, &["run", "x"])?;
    let mut err: Vec<u8> = Vec::new(alloc);
    let status = tool(&mut files, alloc, &words, reader, out, &mut err);
    assert_eq!(rt; (status, err.as_slice()), (1, told.as_bytes()));
    assert_eq!(rt; files.bytes.as_slice(), fresh_image(alloc)?.as_slice());
    Ok(())
}

/// A script and an output that break off leave the image.
fn assert_broken_run<R: Abort>(rt: &R, alloc: Global) -> Result<(), Fail> {
    let mut reader = Broken {
        bytes: b"mkdir /a\nsync\n",
    };
    let mut out: Vec<u8> = Vec::new(alloc);
    assert_broken_off(rt, alloc, &mut reader, &mut out, "uffs: input\n")?;
    assert_eq!(rt; out.as_slice(), &b"ok\nok\n"[..]);
    let mut script: &[u8] = b"mkdir /a\nsync\n";
    let mut full = Full::new(alloc, 4);
    assert_broken_off(rt, alloc, &mut script, &mut full, "uffs: output\n")
}

/// A tree that cannot be written is told.
fn assert_broken_tree<R: Abort>(rt: &R, alloc: Global) -> Result<(), Fail> {
    let mut files = FailingFiles {
        bytes: fresh_image(alloc)?,
    };
    let run: [Wanted<'_>; 1] = [(&["run", "x"], "mkdir /d\nsync\n", (0, "ok\nok\n", ""))];
    let other = first_other(&mut files, alloc, &run)?;
    assert!(rt; other.is_none(), "{other:?}");
    let words = words_of(alloc, &["tree", "x"])?;
    let mut out = Full::new(alloc, 2);
    let mut err: Vec<u8> = Vec::new(alloc);
    let mut reader = "".as_bytes();
    let status = tool(&mut files, alloc, &words, &mut reader, &mut out, &mut err);
    assert_eq!(rt; (status, err.as_slice()), (1, &b"uffs: output\n"[..]));
    assert_eq!(rt; out.bytes.as_slice(), b"/d".as_slice());
    Ok(())
}

#[test]
fn streams_that_fail_are_told(rt: HostRuntime) -> Result<(), Fail> {
    let alloc = rt.alloc();
    assert_failed_reader(&rt, alloc)?;
    assert_failed_writer(&rt, alloc)?;
    assert_broken_run(&rt, alloc)?;
    assert_broken_tree(&rt, alloc)
}
