//! Why a name of the host was not written.
use crate::claims::past_links;
use crate::opening::open_looked;
use crate::replaced_files::folder_of;
use host_interface::{UnwrittenCause, new_name};
use std::alloc::Global;
use std::fs::{File, TryLockError};
use std::io::ErrorKind;
use std::rt::Files;
use std::{fs, io};

/// How a call of the host failed that was to write.
#[derive(Clone, Copy)]
pub struct Failed {
    pub kind: ErrorKind,
    /// Whether a folder was to be made, and no file replaced.
    pub is_folder: bool,
}

/// Why a name was not written, as a look tells, or else as the call tells that failed.
pub fn unwritten_cause<R: Files<File = File>>(
    rt: &R,
    alloc: Global,
    name: &str,
    failed: Failed,
) -> io::Result<Option<UnwrittenCause>> {
    let looked = if failed.is_folder {
        cause_of_folder(rt, alloc, name.trim_end_matches('/'))?
    } else {
        cause_of_file(rt, alloc, past_links(rt, alloc, name)?.as_str())?
    };
    match looked {
        Some(cause) => Ok(Some(cause)),
        None => Ok(cause_of_kind(failed.kind)),
    }
}

/// Why a folder is not made.
fn cause_of_folder<R: Files>(
    rt: &R,
    alloc: Global,
    path: &str,
) -> io::Result<Option<UnwrittenCause>> {
    let beside = new_name(alloc, path)?;
    if path.is_empty() || fs::symlink_metadata(rt, path).is_ok() {
        return Ok(Some(UnwrittenCause::Standing));
    }
    if fs::symlink_metadata(rt, beside.as_str()).is_ok() {
        return Ok(Some(UnwrittenCause::NewName(beside)));
    }
    Ok(cause_above(rt, path))
}

/// Why a file past all links is not replaced.
fn cause_of_file<R: Files<File = File>>(
    rt: &R,
    alloc: Global,
    path: &str,
) -> io::Result<Option<UnwrittenCause>> {
    if let Some(cause) = cause_at(rt, path) {
        return Ok(Some(cause));
    }
    let beside = new_name(alloc, path)?;
    match fs::symlink_metadata(rt, beside.as_str()) {
        Ok(found) if found.is_dir() => Ok(Some(UnwrittenCause::NewName(beside))),
        Ok(found) if found.is_file() && is_locked(rt, beside.as_str()) => {
            Ok(Some(UnwrittenCause::InUse))
        }
        _ => Ok(cause_above(rt, path)),
    }
}

/// Why what stands at a name is not replaced.
fn cause_at<R: Files<File = File>>(rt: &R, path: &str) -> Option<UnwrittenCause> {
    let found = fs::symlink_metadata(rt, path).ok()?;
    if found.is_dir() {
        return Some(UnwrittenCause::Folder);
    }
    if !found.is_file() {
        return Some(UnwrittenCause::Special);
    }
    if is_locked(rt, path) {
        return Some(UnwrittenCause::InUse);
    }
    match open_looked(rt, path) {
        Ok(opened) if opened.is_written && !found.permissions().readonly() => None,
        _ => Some(UnwrittenCause::Denied),
    }
}

/// Whether another program has a file.
fn is_locked<R: Files<File = File>>(rt: &R, path: &str) -> bool {
    match open_looked(rt, path) {
        Ok(opened) => matches!(opened.file.try_lock(), Err(TryLockError::WouldBlock)),
        Err(_) => false,
    }
}

/// Why nothing stands in the folder above a name: it is missing, or is none.
fn cause_above<R: Files>(rt: &R, path: &str) -> Option<UnwrittenCause> {
    match fs::metadata(rt, folder_of(path)) {
        Ok(found) if found.is_dir() => None,
        Ok(_) => Some(UnwrittenCause::NoFolder),
        Err(error) if error.kind() == ErrorKind::NotFound => Some(UnwrittenCause::NoFolder),
        Err(_) => None,
    }
}

/// Why a call failed, where its error tells it.
fn cause_of_kind(kind: ErrorKind) -> Option<UnwrittenCause> {
    match kind {
        ErrorKind::StorageFull | ErrorKind::QuotaExceeded => Some(UnwrittenCause::Full),
        ErrorKind::FileTooLarge => Some(UnwrittenCause::TooLarge),
        ErrorKind::PermissionDenied | ErrorKind::ReadOnlyFilesystem => {
            Some(UnwrittenCause::FolderDenied)
        }
        ErrorKind::NotADirectory => Some(UnwrittenCause::NoFolder),
        ErrorKind::AlreadyExists => Some(UnwrittenCause::Standing),
        ErrorKind::WouldBlock => Some(UnwrittenCause::InUse),
        _ => None,
    }
}
