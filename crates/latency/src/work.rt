//! The work: calls of many kinds on a few small files, drawn by a generator.
use crate::error::LatencyError;
use bitflags::Flags;
use fs_types::{Bytes, Call, OpenFlags, Path, Sequence, View};
use std::alloc::{AllocError, Global};

/// How many directories the work has, and how many files it writes in each.
const DIRECTORIES: u64 = 4;

const FILES: u64 = 8;

/// The most bytes that are written into a file, and those that are put at the end of the log.
const MOST_BYTES: u64 = 3_000;

const MOST_LOGGED: u64 = 200;

/// How long the log grows before it is begun anew.
const LONG_LOG: u64 = 12_000;

/// The calls of the work, from the first on: of twenty 9 write a file, 4 put bytes at the end of a log that
/// is open, 1 moves a file and 1 removes one, 2 make a directory or remove it, and 3 read.
#[derive(Drop)]
pub struct Work {
    state: u64,
    logged: u64,
    has_directory: bool,
}

impl Work {
    /// The work from its beginning. A log is open under descriptor 0 that is to be begun anew.
    pub fn new() -> Work {
        Work {
            state: 2_026,
            logged: LONG_LOG,
            has_directory: false,
        }
    }

    /// The next call.
    pub fn next_call(&mut self, alloc: Global) -> Result<Call, LatencyError> {
        match self.below(20) {
            0..=8 => self.write(alloc),
            9..=12 => Ok(self.put_at_end(alloc)?),
            13 => Ok(Call::Rename {
                old: self.file(alloc)?,
                new: self.file(alloc)?,
            }),
            14 => Ok(Call::Unlink {
                path: self.file(alloc)?,
            }),
            15 | 16 => self.change_directory(alloc),
            _ => Ok(Call::ReadAt {
                view: View::Present,
                path: self.file(alloc)?,
                offset: 0,
                count: 512,
            }),
        }
    }

    /// Writes a file.
    fn write(&mut self, alloc: Global) -> Result<Call, LatencyError> {
        Ok(Call::WriteFile {
            path: self.file(alloc)?,
            bytes: self.bytes(alloc, MOST_BYTES)?,
        })
    }

    /// Puts bytes at the end of the log, or begins it anew.
    fn put_at_end(&mut self, alloc: Global) -> Result<Call, AllocError> {
        if self.logged >= LONG_LOG {
            self.logged = 0;
            return Ok(Call::Ftruncate {
                descriptor: 0,
                length: 0,
            });
        }
        let offset = self.logged;
        let bytes = self.bytes(alloc, MOST_LOGGED)?;
        self.logged = self.logged.saturating_add(bytes.as_slice().len() as u64);
        Ok(Call::Pwrite {
            descriptor: 0,
            offset,
            bytes,
        })
    }

    /// Makes a directory, or removes it.
    fn change_directory(&mut self, alloc: Global) -> Result<Call, LatencyError> {
        let path = Path::parse(alloc, b"/d0/d")?;
        self.has_directory = !self.has_directory;
        if self.has_directory {
            Ok(Call::Mkdir { path })
        } else {
            Ok(Call::Rmdir { path })
        }
    }

    /// One of the files.
    fn file(&mut self, alloc: Global) -> Result<Path, LatencyError> {
        let directory = self.below(DIRECTORIES);
        let file = self.below(FILES);
        path_of(alloc, directory, file)
    }

    /// Some bytes, at least one.
    fn bytes(&mut self, alloc: Global, most: u64) -> Result<Bytes, AllocError> {
        let byte = (self.below(256) & 0xff) as u8;
        let count = self.below(most).saturating_add(1);
        Ok(Sequence::from_vec(vec![in alloc; byte; count as usize]?))
    }

    /// A number below a bound (Marsaglia's xorshift of 64 bits).
    fn below(&mut self, bound: u64) -> u64 {
        let mut state = self.state;
        state ^= state << 13;
        state ^= state >> 7;
        state ^= state << 17;
        self.state = state;
        (state >> 20) % bound.max(1)
    }
}

/// The path of a file of the work.
fn path_of(alloc: Global, directory: u64, file: u64) -> Result<Path, LatencyError> {
    let path = format!(in alloc; "/d{directory}/f{file}")?;
    Ok(Path::parse(alloc, path.as_bytes())?)
}

/// The calls that make what the work needs: its directories, its files, and the log, which stays open. The files
/// and the log are as long as they get, or nearly.
pub fn opening(alloc: Global) -> Result<Vec<Call>, LatencyError> {
    let mut calls = Vec::new(alloc);
    for directory in 0..DIRECTORIES {
        let path = format!(in alloc; "/d{directory}")?;
        calls.push(Call::Mkdir {
            path: Path::parse(alloc, path.as_bytes())?,
        })?;
    }
    for number in 0..DIRECTORIES * FILES {
        let path = path_of(alloc, number % DIRECTORIES, number / DIRECTORIES)?;
        calls.push(write_whole(alloc, path, MOST_BYTES)?)?;
    }
    let log = Path::parse(alloc, b"/log")?;
    calls.push(write_whole(alloc, log, LONG_LOG)?)?;
    calls.push(open_log(alloc)?)?;
    Ok(calls)
}

/// The call that opens the log, which is the first file that is open.
pub fn open_log(alloc: Global) -> Result<Call, LatencyError> {
    Ok(Call::Open {
        path: Path::parse(alloc, b"/log")?,
        flags: OpenFlags::from_bits_retain(7),
    })
}

/// Writes a file of so many bytes.
pub fn write_whole(alloc: Global, path: Path, count: u64) -> Result<Call, LatencyError> {
    Ok(Call::WriteFile {
        path,
        bytes: Sequence::from_vec(vec![in alloc; b'A'; count as usize]?),
    })
}
