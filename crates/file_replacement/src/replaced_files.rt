//! A file of the host that is replaced whole.
use crate::calls::FolderCalls;
use crate::claims::{Claim, MOST_TURNS, leads_to, open_left};
use crate::replacement::{Unreplaced, replace};
use host_interface::new_name;
use std::alloc::Global;
use std::fs::{File, OpenOptions, TryLockError};
use std::io::{ErrorKind, Write};
use std::os::unix::fs::OpenOptionsExt;
use std::path::Path;
use std::rt::Files;
use std::{fs, io};

/// The mode of a new file that takes the place of none, less what the host's mask takes away.
const NEW_MODE: u32 = 0o666;

/// The mode of a new file until it has that of the file that it replaces.
const PRIVATE_MODE: u32 = 0o600;

/// Puts a file of these bytes in the place of a claimed one, and brings both to the disk. Refused where it
/// may not be written. Where something was removed that stood at the name of the new file, its name is left
/// in `removed`.
pub fn replace_file<R: Files<File = File>>(
    rt: &R,
    alloc: Global,
    claim: &Claim,
    bytes: &[u8],
    removed: &mut Option<String>,
) -> Result<(), Unreplaced> {
    let mut calls = match Replacing::of(rt, alloc, claim) {
        Ok(calls) => calls,
        Err(error) => return Err(Unreplaced::Unmade(error)),
    };
    let result = replace(&mut calls, bytes);
    let Replacing {
        new_path,
        is_instead,
        ..
    } = calls;
    if is_instead {
        *removed = Some(new_path);
    }
    result
}

/// The calls by which the file of a claim is replaced.
#[derive(Drop)]
struct Replacing<'a, R> {
    rt: &'a R,
    claim: &'a Claim,
    folder: File,
    new_path: String,
    /// The new file, until it has the name.
    new_file: Option<File>,
    /// Whether something was removed that stood at the name of the new file.
    is_instead: bool,
}

impl<'a, R: Files<File = File>> Replacing<'a, R> {
    /// Those of a claim whose file may be written.
    fn of(rt: &'a R, alloc: Global, claim: &'a Claim) -> io::Result<Replacing<'a, R>> {
        claim.refuse_unwritable()?;
        let folder = fs::open(rt, folder_of(claim.path()))?;
        let new_path = new_name(alloc, claim.path())?;
        Ok(Replacing {
            rt,
            claim,
            folder,
            new_path,
            new_file: None,
            is_instead: false,
        })
    }

    /// The new file, which was made.
    fn made(&mut self) -> io::Result<&mut File> {
        match &mut self.new_file {
            Some(file) => Ok(file),
            None => Err(io::Error::from(ErrorKind::NotFound)),
        }
    }
}

impl<R: Files<File = File>> FolderCalls for Replacing<'_, R> {
    ghost use Rattle.std.specs.Prelude.{None};

    ghost folder = { λ _. None };

    fn make(&mut self) -> io::Result<()> {
        let made = make_new(self.rt, self.claim, self.new_path.as_str())?;
        self.is_instead = made.is_instead;
        self.new_file = Some(made.file);
        Ok(())
    }

    fn write(&mut self, bytes: &[u8]) -> io::Result<usize> {
        let file = self.made()?;
        for _ in 0..u64::MAX {
            match file.write(bytes) {
                Err(error) if error.kind() == ErrorKind::Interrupted => {}
                written => return written,
            }
        }
        Err(io::Error::from(ErrorKind::Interrupted))
    }

    /// Gives the new file the mode of the claimed one. Refused where the claimed name had no file and has one
    /// by now.
    fn take_mode(&mut self) -> io::Result<()> {
        match self.claim.file() {
            Some(file) => {
                let mode = file.metadata()?.permissions();
                self.made()?.set_permissions(mode)
            }
            None => refuse_standing(self.rt, self.claim.path()),
        }
    }

    fn sync_file(&mut self) -> io::Result<()> {
        self.made()?.sync_all()
    }

    fn rename(&mut self) -> io::Result<()> {
        fs::rename(self.rt, self.new_path.as_str(), self.claim.path())?;
        self.new_file = None;
        Ok(())
    }

    fn remove(&mut self) -> io::Result<()> {
        fs::remove_file(self.rt, self.new_path.as_str())
    }

    fn sync_folder(&mut self) -> io::Result<()> {
        self.folder.sync_all()
    }
}

/// The name of the folder that a file stands in.
pub fn folder_of(path: &str) -> &str {
    match Path::new(path).parent() {
        Some(folder) if !folder.as_str().is_empty() => folder.as_str(),
        _ => ".",
    }
}

/// A new file that is locked.
#[derive(Drop)]
struct Made {
    file: File,
    /// Whether something was removed that stood at its name.
    is_instead: bool,
}

/// Makes the new file anew, and locks it. What stands at its name is removed first, and never written
/// to; refused where that is a folder, or the new file of another program.
fn make_new<R: Files<File = File>>(rt: &R, claim: &Claim, path: &str) -> io::Result<Made> {
    let mode = match claim.file() {
        Some(_) => PRIVATE_MODE,
        None => NEW_MODE,
    };
    let mut is_instead = false;
    for _ in 0..MOST_TURNS {
        if remove_left(rt, path)? {
            is_instead = true;
        }
        if let Some(file) = make_once(rt, path, mode)? {
            return Ok(Made { file, is_instead });
        }
    }
    Err(io::Error::from(ErrorKind::WouldBlock))
}

/// Makes and locks a file where there is none. `None` where another program was there first.
fn make_once<R: Files<File = File>>(rt: &R, path: &str, mode: u32) -> io::Result<Option<File>> {
    let mut options = OpenOptions::new();
    options.write(true).create_new(true).mode(mode);
    let file = match options.open(rt, path) {
        Ok(file) => file,
        Err(error) if error.kind() == ErrorKind::AlreadyExists => return Ok(None),
        Err(error) => return Err(error),
    };
    match file.try_lock() {
        Ok(()) => {}
        // Another program has it already, which removes it.
        Err(TryLockError::WouldBlock) => return Ok(None),
        Err(TryLockError::Error(error)) => return Err(remove_new(rt, path, error)),
    }
    match leads_to(rt, path, &file) {
        Ok(true) => Ok(Some(file)),
        Ok(false) => Ok(None),
        Err(error) => Err(remove_new(rt, path, error)),
    }
}

/// Removes the new file, for which an error came.
fn remove_new<R: Files>(rt: &R, path: &str, error: io::Error) -> io::Error {
    let _ = fs::remove_file(rt, path);
    error
}

/// Removes what stands at the name of the new file, unless another program has it, and answers whether
/// there was something.
fn remove_left<R: Files<File = File>>(rt: &R, path: &str) -> io::Result<bool> {
    let left = open_left(rt, path);
    if let Some(file) = &left {
        file.try_lock()?;
        if !leads_to(rt, path, file)? {
            return Ok(false);
        }
    }
    match fs::remove_file(rt, path) {
        Ok(()) => Ok(true),
        Err(error) if error.kind() == ErrorKind::NotFound => Ok(false),
        Err(error) => Err(error),
    }
}

/// Refused where anything stands at a name.
pub fn refuse_standing<R: Files>(rt: &R, path: &str) -> io::Result<()> {
    match fs::symlink_metadata(rt, path) {
        Ok(_) => Err(io::Error::from(ErrorKind::AlreadyExists)),
        Err(error) if error.kind() == ErrorKind::NotFound => Ok(()),
        Err(error) => Err(error),
    }
}
