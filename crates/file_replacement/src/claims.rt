//! A name of the host that one program has to itself.
use crate::identity::Identity;
use crate::opening::{Opened, open_looked, refuse_special};
use std::alloc::Global;
use std::fs::File;
use std::io::ErrorKind;
use std::path::Path;
use std::rt::Files;
use std::{fs, io};

/// So often a name is looked up, each time with another file found under it by then, before it
/// counts as in use.
pub(crate) const MOST_TURNS: u32 = 100;

/// So many links are followed from a name, as by the host.
const MOST_LINKS: u32 = 40;

/// A claimed name: the file that it leads to is open and locked, until this is dropped. A name that no
/// file has, or one whose file may not be opened, is claimed with no file.
#[derive(Drop)]
pub struct Claim {
    name: String,
    path: String,
    file: Option<Opened>,
}

impl Claim {
    /// Claims a name. Refused where what it leads to is no plain file, or another program has it.
    pub fn of<R: Files<File = File>>(rt: &R, alloc: Global, name: &str) -> io::Result<Claim> {
        for _ in 0..MOST_TURNS {
            if let Some(claim) = try_claim(rt, alloc, name)? {
                return Ok(claim);
            }
        }
        Err(io::Error::from(ErrorKind::WouldBlock))
    }

    /// The name, as it was given.
    pub fn name(&self) -> &str {
        self.name.as_str()
    }

    /// The name of the file itself, past all links.
    pub fn path(&self) -> &str {
        self.path.as_str()
    }

    /// The file.
    pub fn file(&self) -> Option<&File> {
        self.file.as_ref().map(|opened| &opened.file)
    }

    /// Refused where a file is claimed that may not be written: it did not open for that, or its mode
    /// lets nobody write.
    pub fn refuse_unwritable(&self) -> io::Result<()> {
        match &self.file {
            Some(opened) => refuse_unwritable(opened),
            None => Ok(()),
        }
    }
}

fn refuse_unwritable(opened: &Opened) -> io::Result<()> {
    let is_readonly = opened.file.metadata()?.permissions().readonly();
    if is_readonly || !opened.is_written {
        return Err(io::Error::from(ErrorKind::InvalidInput));
    }
    Ok(())
}

/// Claims a name. `None` where the name leads to another file once the lock is had.
fn try_claim<R: Files<File = File>>(
    rt: &R,
    alloc: Global,
    name: &str,
) -> io::Result<Option<Claim>> {
    let path = past_links(rt, alloc, name)?;
    let file = open_plain(rt, path.as_str())?;
    if let Some(opened) = &file {
        opened.file.try_lock()?;
        if !leads_to(rt, name, &opened.file)? {
            return Ok(None);
        }
    }
    let name = String::from_str(alloc, name)?;
    Ok(Some(Claim { name, path, file }))
}

/// The name of the file that a name leads to: each link is followed, also where it leads to no file.
pub(crate) fn past_links<R: Files>(rt: &R, alloc: Global, name: &str) -> io::Result<String> {
    let mut path = String::from_str(alloc, name)?;
    for _ in 0..MOST_LINKS {
        match fs::symlink_metadata(rt, path.as_str()) {
            Ok(found) if found.is_symlink() => path = next_path(rt, alloc, path.as_str())?,
            _ => return Ok(path),
        }
    }
    Err(io::Error::from(ErrorKind::FilesystemLoop))
}

/// What a link leads to, by a name as the host reads it: from the folder of the link.
fn next_path<R: Files>(rt: &R, alloc: Global, link: &str) -> io::Result<String> {
    let target = rt.read_link(alloc, link)?;
    let folder = Path::new(link).parent().unwrap_or(Path::new(""));
    let path = folder.join(alloc, target.as_path())?;
    Ok(path.into_string())
}

/// Opens a plain file, for writing too where that is allowed, since some hosts lock no other. `None`
/// where it is missing or may not be opened; anything but a plain file is refused, and not opened.
fn open_plain<R: Files<File = File>>(rt: &R, path: &str) -> io::Result<Option<Opened>> {
    match fs::symlink_metadata(rt, path) {
        Ok(found) => refuse_special(&found)?,
        Err(_) => return Ok(None),
    }
    match open_looked(rt, path) {
        Ok(opened) => Ok(Some(opened)),
        Err(error) if is_missing(&error) => Ok(None),
        Err(error) => Err(error),
    }
}

/// Whether an error says that there is no file, or none that may be opened.
fn is_missing(error: &io::Error) -> bool {
    matches!(
        error.kind(),
        ErrorKind::NotFound | ErrorKind::PermissionDenied
    )
}

/// Opens what is left of a plain file at a name, if it can be.
pub(crate) fn open_left<R: Files<File = File>>(rt: &R, path: &str) -> Option<File> {
    match open_plain(rt, path) {
        Ok(Some(opened)) => Some(opened.file),
        _ => None,
    }
}

/// Whether a name leads to an open file.
pub(crate) fn leads_to<R: Files<File = File>>(rt: &R, name: &str, file: &File) -> io::Result<bool> {
    let own = Identity::of(&file.metadata()?);
    match fs::metadata(rt, name) {
        Ok(named) => Ok(Identity::of(&named) == own),
        Err(_) => Ok(false),
    }
}
