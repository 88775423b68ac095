//! What is told of an archive on standard error.
use crate::interruption::Interruption;
use crate::unarchived::Unarchived;
use crate::unwritten::Unwritten;
use archives::{ArchiveFault, UnreadArchive};
use flash_model::Geometry;
use fs_types::{Bytes, Fault, Path};
use image_jobs::SourceFault;
use job_messages::{tell_fault, tell_refusal, tell_refused};
use script::print_name;
use script_runs::Refusal;
use std::alloc::{AllocError, Global};
use std::io::Write;
use tar_format::HeaderFault;

/// Tells why the archive of an image is not written to its end, where that is a refusal.
pub(crate) fn tell_unwritten<E: Write>(
    alloc: Global,
    why: &Unwritten,
    sizes: Geometry,
    err: &mut E,
) {
    match why {
        Unwritten::Unarchived(why) => tell_unarchived(alloc, why, sizes, err),
        Unwritten::Interrupted(Interruption::Met(fault)) => tell_met(*fault, err),
        Unwritten::Interrupted(Interruption::Output) => {}
    }
}

/// Tells why there is no archive of an image, where that is a refusal.
fn tell_unarchived<E: Write>(alloc: Global, why: &Unarchived, sizes: Geometry, err: &mut E) {
    match why {
        Unarchived::Unmounted(_) | Unarchived::TooMuch => {}
        Unarchived::Refused(fault) => tell_met(*fault, err),
        Unarchived::NoRoom(path) => {
            tell_refused(
                alloc,
                Refusal::Fault(Fault::NameTooLong),
                path,
                0,
                sizes,
                err,
            );
        }
    }
}

/// Tells a refusal, but no want of memory.
fn tell_met<E: Write>(fault: Fault, err: &mut E) {
    match fault {
        Fault::NoMemory => {}
        fault => tell_refusal(Refusal::Fault(fault), "", err),
    }
}

/// Tells why an archive is not put, with the name of what stands there.
pub(crate) fn tell_unread<E: Write>(alloc: Global, unread: &UnreadArchive, err: &mut E) {
    let Ok(name) = name_text(alloc, unread.name.as_slice()) else {
        return;
    };
    let name = name.as_str();
    match &unread.fault {
        ArchiveFault::Memory => {}
        ArchiveFault::Unsupported(b'1' | b'2') => tell_fault(SourceFault::Link, name, err),
        ArchiveFault::Unsupported(_) => tell_fault(SourceFault::Special, name, err),
        ArchiveFault::Unread(HeaderFault::TooLong) => tell_fault(SourceFault::TooBig, name, err),
        ArchiveFault::Name(Fault::NameTooLong) => tell_fault(SourceFault::TooLong, name, err),
        ArchiveFault::Name(_) => tell_fault(SourceFault::BadName, name, err),
        ArchiveFault::Keyword(keyword) => tell_keyword(alloc, name, keyword.as_slice(), err),
        fault => {
            let _ = writeln!(err, "uffs: cannot read -: {fault}");
        }
    }
}

/// Tells that what has a name is not put for a keyword of an extended header before it.
fn tell_keyword<E: Write>(alloc: Global, name: &str, keyword: &[u8], err: &mut E) {
    if let Ok(keyword) = name_text(alloc, keyword) {
        let keyword = keyword.as_str();
        let _ = writeln!(
            err,
            "uffs: cannot put {name}: a pax header before it has the keyword {keyword}"
        );
    }
}

/// Tells the names of what is left out.
pub(crate) fn tell_left_out<E: Write>(alloc: Global, names: &[Bytes], err: &mut E) {
    for name in names {
        if let Ok(name) = name_text(alloc, name.as_slice()) {
            let name = name.as_str();
            let _ = writeln!(
                err,
                "uffs: left out {name}: it is neither a folder nor a plain file"
            );
        }
    }
}

/// Tells that a path has too many names below the one that all is put to.
pub(crate) fn tell_too_deep<E: Write>(alloc: Global, path: &Path, err: &mut E) {
    if let Ok(name) = path_text(alloc, path) {
        tell_fault(SourceFault::TooLong, name.as_str(), err);
    }
}

/// A name with its escapes.
fn name_text(alloc: Global, name: &[u8]) -> Result<String, AllocError> {
    let mut bytes = Vec::new(alloc);
    print_name(&mut bytes, name)?;
    text_of(alloc, bytes)
}

/// The names of a path, with a slash between two.
fn path_text(alloc: Global, path: &Path) -> Result<String, AllocError> {
    let mut bytes = Vec::new(alloc);
    for (place, name) in path.names().iter().enumerate() {
        if place > 0 {
            bytes.push(b'/')?;
        }
        print_name(&mut bytes, name.as_bytes())?;
    }
    text_of(alloc, bytes)
}

fn text_of(alloc: Global, bytes: Vec<u8>) -> Result<String, AllocError> {
    match String::from_utf8(bytes) {
        Ok(text) => Ok(text),
        Err(_) => String::from_str(alloc, "?"),
    }
}
