//! Plain files that are opened.
use crate::identity::{Identity, refuse_another};
use std::fs::{File, Metadata, OpenOptions};
use std::io::ErrorKind;
use std::rt::Files;
use std::{fs, io};

/// A plain file that is open.
#[derive(Drop)]
pub struct Opened {
    pub file: File,
    /// Whether it is open for writing too.
    pub(crate) is_written: bool,
}

/// Opens what a name leads to, which was looked at and was a plain file. It is opened for writing too where
/// that is allowed, since the host then waits for no fifo that took its place. One that may only be read is
/// looked at once more, and opened for reading. Refused where it is no plain file by now.
pub fn open_looked<R: Files<File = File>>(rt: &R, path: &str) -> io::Result<Opened> {
    let opened = match OpenOptions::new().read(true).write(true).open(rt, path) {
        Ok(file) => Opened {
            file,
            is_written: true,
        },
        Err(error) if is_for_readers(&error) => {
            refuse_special(&fs::metadata(rt, path)?)?;
            Opened {
                file: fs::open(rt, path)?,
                is_written: false,
            }
        }
        Err(error) => return Err(error),
    };
    refuse_special(&opened.file.metadata()?)?;
    Ok(opened)
}

/// Opens the plain file of a name that is no link. The host opens a link too, so what was opened has to be
/// the file that was looked at before.
pub fn open_unlinked<R: Files<File = File>>(rt: &R, path: &str) -> io::Result<File> {
    let looked = fs::symlink_metadata(rt, path)?;
    refuse_special(&looked)?;
    let Opened { file, .. } = open_looked(rt, path)?;
    let found = Identity::of(&file.metadata()?);
    refuse_another(file, found, Identity::of(&looked))
}

/// Whether an error says that a file may not be written, and perhaps be read.
fn is_for_readers(error: &io::Error) -> bool {
    matches!(
        error.kind(),
        ErrorKind::PermissionDenied | ErrorKind::ReadOnlyFilesystem | ErrorKind::ExecutableFileBusy
    )
}

/// Refused where it is no plain file.
pub fn refuse_special(found: &Metadata) -> io::Result<()> {
    if found.is_file() {
        return Ok(());
    }
    Err(io::Error::from(ErrorKind::InvalidInput))
}
