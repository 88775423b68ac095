//! The files of the host.
ghost use Rattle.std.specs.Prelude.{◌≡◌, take, IfSome, IfOk};

mod folder_tree;
mod gathered;
mod gathering;
mod host_part;
mod new_folder;
mod opened_folder;

use file_replacement::{
    Claim, Failed, Identity, Opened, Replaced, Unreplaced, open_looked, refuse_special,
    replace_file, unwritten_cause,
};
use gathered::Gathered;
use gathering::gather;
use host_interface::{
    Channels, FileFault, Folders, ImageFiles, MOST_BYTES, Parts, Source, Sources, UnreadCause,
    UnwrittenCause,
};
pub use host_part::HostPart;
use new_folder::NewFolder;
use std::alloc::{AllocError, Global};
use std::cell::{Cell, RefCell};
use std::fs::{File, OpenOptions};
use std::io::{BufWriter, ErrorKind, Read};
use std::rt::Files;
use std::{fs, io};

/// The files of the host, of whose bytes no contract speaks.
///
/// A name is claimed by a lock on the file that it leads to, through links: so two programs that claim
/// one file are kept apart, and any other program is not. A file is replaced by a new one that is
/// written beside it under its name with `.new` after it, has its mode, is brought to the disk and
/// renamed; then the folder is brought to the disk. Where that fails, the new file is removed again. These
/// calls are made by [`file_replacement::replace`], which proves their order. What a
/// program left of one that a signal ended is removed before. One
/// that may not be written is not replaced. A folder is made in the same way, but where something stands
/// at its name or at that of the new one it is refused: between the last look and the renaming another
/// program may put an empty folder there, which is replaced. What stands in a folder is gathered, read and
/// made by the open folder, so no link is followed that takes a folder's place meanwhile.
#[derive(Drop)]
pub struct HostFiles<'a, R> {
    rt: &'a R,
    claim: Option<Claim>,
    folder: Option<NewFolder>,
    gathered: RefCell<Gathered>,
    removed: Option<String>,
    failed: Cell<Option<Failed>>,
}

impl<'a, R: Files<File = File>> HostFiles<'a, R> {
    /// The files that a runtime reaches. No name is claimed, and no folder is begun.
    pub fn new(rt: &'a R) -> HostFiles<'a, R> {
        HostFiles {
            rt,
            claim: None,
            folder: None,
            gathered: RefCell::new(Gathered::Nothing),
            removed: None,
            failed: Cell::new(None),
        }
    }

    /// The name of a new file that was there already, as what a signal leaves, and was removed before a
    /// file was replaced. No clause says what it answers.
    pub fn removed(&self) -> Option<&str> {
        match &self.removed {
            Some(name) => Some(name.as_str()),
            None => None,
        }
    }

    /// The fault by how a file was not written, which is kept.
    fn unwritten(&self, error: &io::Error) -> FileFault {
        self.keep_failed(error, false)
    }

    /// The fault by how a folder was not made, which is kept.
    fn unmade(&self, error: &io::Error) -> FileFault {
        self.keep_failed(error, true)
    }

    fn keep_failed(&self, error: &io::Error, is_folder: bool) -> FileFault {
        let kind = error.kind();
        self.failed.set(Some(Failed { kind, is_folder }));
        fault_of(error)
    }
}

impl<R: Files<File = File>> ImageFiles for HostFiles<'_, R> {
    fn claim(&mut self, alloc: Global, name: &str) -> Result<(), FileFault> {
        self.claim = None;
        match Claim::of(self.rt, alloc, name) {
            Ok(claim) => {
                self.claim = Some(claim);
                Ok(())
            }
            Err(error) => Err(self.unwritten(&error)),
        }
    }

    fn read(&self, alloc: Global, name: &str) -> Result<Vec<u8>, FileFault> {
        read_file(self.rt, alloc, name).map_err(|error| fault_of(&error))
    }

    fn read_source(&self, alloc: Global, name: &str) -> Result<Vec<u8>, FileFault> {
        let Ok(mut gathered) = self.gathered.try_borrow_mut() else {
            return Err(FileFault::Failed);
        };
        match gathered.open_source(self.rt, alloc, name) {
            Ok(file) => read_opened(alloc, file).map_err(|error| fault_of(&error)),
            Err(error) => Err(fault_of(&error)),
        }
    }

    fn takes_away(&self, alloc: Global, name: &str, other: &str) -> Result<bool, FileFault> {
        match Replaced::of(self.rt, alloc, name) {
            Ok(replaced) => Ok(is_among(self.rt, replaced, other)),
            Err(error) => Err(fault_of(&error)),
        }
    }

    fn unread_cause(&self, name: &str) -> Option<UnreadCause> {
        unread_cause(self.rt, name)
    }

    fn unwritten_cause(&self, alloc: Global, name: &str) -> Option<UnwrittenCause> {
        let failed = self.failed.get()?;
        match unwritten_cause(self.rt, alloc, name, failed) {
            Ok(cause) => cause,
            Err(_) => None,
        }
    }

    fn replace(&mut self, alloc: Global, name: &str, bytes: &[u8]) -> Result<(), FileFault> {
        let Some(claim) = self.claim.take() else {
            return Err(FileFault::Failed);
        };
        if claim.name() != name {
            return Err(FileFault::Failed);
        }
        match replace_file(self.rt, alloc, &claim, bytes, &mut self.removed) {
            Ok(()) => Ok(()),
            Err(Unreplaced::Unsynced(_)) => Err(FileFault::Unsynced),
            Err(Unreplaced::Unmade(error) | Unreplaced::Failed(error)) => {
                Err(self.unwritten(&error))
            }
        }
    }
}

impl<R: Files<File = File>> Folders for HostFiles<'_, R> {
    fn begin_folder(&mut self, alloc: Global, name: &str) -> Result<(), FileFault> {
        match NewFolder::begin(self.rt, alloc, name) {
            Ok(folder) => {
                self.folder = Some(folder);
                Ok(())
            }
            Err(error) => Err(self.unmade(&error)),
        }
    }

    fn make_folder(&mut self, alloc: Global, name: &str, way: &str) -> Result<(), FileFault> {
        let made = match &mut self.folder {
            Some(folder) if folder.is_named(name) => folder.make_folder(self.rt, alloc, way),
            _ => return Err(FileFault::Failed),
        };
        made.map_err(|error| self.unmade(&error))
    }

    fn make_file(
        &mut self,
        alloc: Global,
        name: &str,
        way: &str,
        bytes: &[u8],
    ) -> Result<(), FileFault> {
        let made = match &mut self.folder {
            Some(folder) if folder.is_named(name) => folder.make_file(self.rt, alloc, way, bytes),
            _ => return Err(FileFault::Failed),
        };
        made.map_err(|error| self.unmade(&error))
    }

    fn finish_folder(&mut self, alloc: Global, name: &str) -> Result<(), FileFault> {
        let Some(mut folder) = self.folder.take() else {
            return Err(FileFault::Failed);
        };
        if !folder.is_named(name) {
            folder.remove(self.rt, alloc);
            return Err(FileFault::Failed);
        }
        match folder.finish(self.rt, alloc) {
            Ok(above) => above.sync_all().map_err(|_| FileFault::Unsynced),
            Err(error) => {
                folder.remove(self.rt, alloc);
                Err(self.unmade(&error))
            }
        }
    }

    fn give_up_folder(&mut self, alloc: Global, _name: &str) {
        if let Some(folder) = self.folder.take() {
            folder.remove(self.rt, alloc);
        }
    }
}

impl<R: Files<File = File> + AllocGlobal> Sources for HostFiles<'_, R> {
    fn gather(&self, alloc: Global, name: &str, image: &str) -> Result<Vec<Source>, AllocError> {
        let own = match Replaced::of(self.rt, alloc, image) {
            Ok(replaced) => replaced,
            Err(error) if error.kind() == ErrorKind::OutOfMemory => return Err(AllocError),
            Err(_) => Replaced::none(),
        };
        let (sources, gathered) = gather(self.rt, alloc, name, own)?;
        let _ = self.gathered.try_replace(gathered);
        Ok(sources)
    }
}

impl<R: Files<File = File>> Channels for HostFiles<'_, R> {
    type Incoming = File;

    type Outgoing = BufWriter<File>;

    fn open_incoming(&self, name: &str) -> Result<File, FileFault> {
        fs::open(self.rt, name).map_err(|error| fault_of(&error))
    }

    fn open_outgoing(&self, alloc: Global, name: &str) -> Result<BufWriter<File>, FileFault> {
        open_buffered(self.rt, alloc, name).map_err(|error| fault_of(&error))
    }
}

impl<R: Files<File = File>> Parts for HostFiles<'_, R> {
    type Part = HostPart;

    fn open_part(&self, alloc: Global, name: &str) -> Result<HostPart, FileFault> {
        match HostPart::open(self.rt, alloc, name) {
            Ok(part) => Ok(part),
            Err(error) => Err(self.unwritten(&error)),
        }
    }
}

/// The file of a name, of which what is written is handed on where it is flushed.
fn open_buffered<R: Files<File = File>>(
    rt: &R,
    alloc: Global,
    name: &str,
) -> io::Result<BufWriter<File>> {
    let file = OpenOptions::new().write(true).open(rt, name)?;
    BufWriter::new(alloc, file)
}

fn fault_of(error: &io::Error) -> FileFault {
    match error.kind() {
        ErrorKind::OutOfMemory => FileFault::Memory,
        _ => FileFault::Failed,
    }
}

/// Whether what a name leads to is among what is taken away.
fn is_among<R: Files>(rt: &R, replaced: Replaced, name: &str) -> bool {
    match fs::metadata(rt, name) {
        Ok(found) => replaced.has(Identity::of(&found)),
        Err(_) => false,
    }
}

/// The bytes of the plain file that a name leads to. Any other is refused before it is opened.
fn read_file<R: Files<File = File>>(rt: &R, alloc: Global, name: &str) -> io::Result<Vec<u8>> {
    refuse_special(&fs::metadata(rt, name)?)?;
    let Opened { file, .. } = open_looked(rt, name)?;
    read_opened(alloc, file)
}

/// The bytes of a plain file that is open.
fn read_opened(alloc: Global, file: File) -> io::Result<Vec<u8>> {
    let len = file.metadata()?.len();
    read_front(alloc, file, len)
}

/// Why a name gives no bytes, if it gives none.
fn unread_cause<R: Files<File = File>>(rt: &R, name: &str) -> Option<UnreadCause> {
    match fs::metadata(rt, name) {
        Ok(found) if found.is_dir() => Some(UnreadCause::Folder),
        Ok(found) if !found.is_file() => Some(UnreadCause::Special),
        Ok(_) => match open_looked(rt, name) {
            Ok(_) => None,
            Err(error) => cause_of(&error),
        },
        Err(error) => cause_of(&error),
    }
}

fn cause_of(error: &io::Error) -> Option<UnreadCause> {
    match error.kind() {
        ErrorKind::NotFound | ErrorKind::NotADirectory => Some(UnreadCause::Missing),
        ErrorKind::PermissionDenied => Some(UnreadCause::Denied),
        _ => None,
    }
}

/// The bytes of a reader, the first [`MOST_BYTES`] where it has more. The room is made at once for
/// so many bytes as it is said to have, and one more.
fn read_front<R: Read + Drop>(alloc: Global, reader: R, len: u64) -> io::Result<Vec<u8>>
    ensures { IfOk result (λ bytes. IfSome (R.remaining reader) (λ all. bytes.items ≡ take MOST_BYTES all)) }
{
    let room = if len < MOST_BYTES {
        len + 1
    } else {
        MOST_BYTES
    };
    let mut bytes = Vec::with_capacity(alloc, room as usize)?;
    reader.take(MOST_BYTES).read_to_end(&mut bytes)?;
    Ok(bytes)
}
