//! A file that is replaced whole.
ghost use Rattle.std.specs.Prelude.{◌≡◌, true, OnOk, OnErr};
ghost use Rattle.file_replacement.specs.Folder.{Leads, HasNew, HasEmptyNew};
ghost use Rattle.file_replacement.specs.Outcomes.{HasWritten, IsReplaced, StaysBeside, Shows, LeavesNew, IsOnDisk, KeepsOthers, AddsOnly, HasFailed};

use crate::calls::FolderCalls;
use std::io;
use std::io::ErrorKind;

/// Why a file was not replaced, or not for certain.
#[derive(Debug, Drop)]
pub enum Unreplaced {
    /// The new file was not made.
    Unmade(io::Error),
    /// The new file was made, and did not get the name.
    Failed(io::Error),
    /// The file was replaced, and may be the old one again after a power cut.
    Unsynced(io::Error),
}

/// Puts a file of these bytes in the place of the one of the name. Where that fails the file stays as it
/// was, and the new one is removed again; where it is `Unsynced` it is the new one. A power cut at any
/// moment leaves what it could have left at the name before, or a file of exactly these bytes.
#[tactic(auto, using(crate::proofs::Filling::newest_last))]
pub fn replace<C: FolderCalls>(calls: &mut C, bytes: &[u8]) -> Result<(), Unreplaced>
    ensures shown { Leads (Shows result bytes.now) (C.folder calls.old) (C.folder calls.new) }
    ensures synced { OnOk result (Leads (IsOnDisk bytes.now) (C.folder calls.old) (C.folder calls.new)) }
    ensures gone { Leads (LeavesNew result) (C.folder calls.old) (C.folder calls.new) }
    ensures others { Leads KeepsOthers (C.folder calls.old) (C.folder calls.new) }
    ensures any_moment { Leads (AddsOnly bytes.now) (C.folder calls.old) (C.folder calls.new) }
    ensures cause { OnErr result (Leads HasFailed (C.folder calls.old) (C.folder calls.new)) }
{
    if let Err(error) = calls.make() {
        return Err(Unreplaced::Unmade(error));
    }
    if let Err(error) = fill_and_rename(calls, bytes) {
        let _ = calls.remove();
        return Err(Unreplaced::Failed(error));
    }
    if let Err(error) = calls.sync_folder() {
        return Err(Unreplaced::Unsynced(error));
    }
    Ok(())
}

/// Writes the bytes to the new file, gives it the mode of the old one, brings it to the disk, and gives it
/// the name.
fn fill_and_rename<C: FolderCalls>(calls: &mut C, bytes: &[u8]) -> io::Result<()>
    requires { HasEmptyNew (C.folder calls.old) }
    ensures ok { OnOk result (Leads (IsReplaced bytes.now) (C.folder calls.old) (C.folder calls.new)) }
    ensures err { OnErr result (Leads StaysBeside (C.folder calls.old) (C.folder calls.new)) }
{
    write_all(calls, bytes)?;
    calls.take_mode()?;
    calls.sync_file()?;
    calls.rename()?;
    Ok(())
}

/// Writes all bytes at the end of the new file.
fn write_all<C: FolderCalls>(calls: &mut C, bytes: &[u8]) -> io::Result<()>
    requires { HasNew (C.folder calls.old) }
    ensures ok { OnOk result (Leads (HasWritten bytes.now) (C.folder calls.old) (C.folder calls.new)) }
    ensures err { OnErr result (Leads StaysBeside (C.folder calls.old) (C.folder calls.new)) }
{
    let mut rest = bytes;
    while !rest.is_empty() {
        let count = calls.write(rest)?;
        if count == 0 {
            return Err(io::Error::from(ErrorKind::WriteZero));
        }
        rest = &rest[count..];
    }
    Ok(())
}
