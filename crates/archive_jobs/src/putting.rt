//! An archive that is put into an image.
ghost use Rattle.std.specs.Prelude.{◌≡◌, ◌≤◌, ℕ, Option, List, All, true, vec_len, IfOk, IfErr, OnOk};
ghost use Rattle.host_interface.specs.Files.{KeepsOthers, KeepsOrSyncs, ReadsClaimed};
ghost use Rattle.image_jobs.specs.Images.{host_at};
ghost use Rattle.put_jobs.specs.Inputs.{IsWholeInput};
ghost use Rattle.put_lots.specs.Lots.{lots_of};
ghost use Rattle.archives.specs.Things.{fits, things_below};
ghost use Rattle.archive_jobs.specs.Untars.{of_fault, of_input, is_link, AreLots, ArePut, IsUnplaced, IsUnreadArchive, IsUnputArchive, UntarEnds};

use crate::archive_messages::{tell_left_out, tell_too_deep, tell_unread};
use archives::{ArchiveEntry, ArchiveFault, lots_of, read_archive, things_below, too_deep};
use fs_types::{Fault, Path};
use host_interface::ImageFiles;
use image_jobs::{Failure, SourceFault};
use put_jobs::{put_lots, read_input, told_path};
use put_lots::Thing;
use std::alloc::{AllocError, Global};
use std::io::{Read, Write};
use tar_format::HeaderFault;

/// The most bytes of an archive that is put into an image.
pub const MAX_ARCHIVE_BYTES: usize = 268_435_456;

/// The typeflags of a hard link and of a symbolic one.
const HARD_LINK: u8 = b'1';

const SYMBOLIC_LINK: u8 = b'2';

/// Puts the folders and plain files of the archive that is the input into an image, which is claimed then,
/// below the path that a word spells, as one version. What else stands in it is refused, or left out. The
/// image is written back where all of it was put.
pub fn put_archive<F: ImageFiles, R: Read, E: Write>(
    files: &mut F,
    alloc: Global,
    name: &str,
    word: &str,
    skip_links: bool,
    reader: &mut R,
    err: &mut E,
) -> Result<(), Failure>
    ensures ends { (out : Option (List ℕ)) → UntarEnds skip_links name.now word.now (ReadsClaimed F.claims F.reads name.now) (host_at (F.held files.old) (R.remaining reader.old) out) result (host_at (F.held files.new) (R.remaining reader.new) out) }
    ensures synced { OnOk result (KeepsOrSyncs (F.held files.old) (F.held files.new) (F.synced files.new name.now)) }
    ensures others { KeepsOthers name.now (F.held files.old) (F.held files.new) }
{
    let base = match told_path(alloc, word, err) {
        Ok(base) => base,
        Err(failure) => return Err(failure),
    };
    let bytes = match archive_input(alloc, reader) {
        Ok(bytes) => bytes,
        Err(failure) => return Err(failure),
    };
    match lots_of_archive(alloc, skip_links, &base, bytes, err) {
        Ok(lots) => put_lots(files, alloc, name, lots, err),
        Err(failure) => Err(failure),
    }
}

/// All bytes of the input, where it has no more than an archive may have.
fn archive_input<R: Read>(alloc: Global, reader: &mut R) -> Result<Vec<u8>, Failure>
    ensures ok { IfOk result (λ bytes. IsWholeInput (R.remaining reader.old) bytes.items (R.remaining reader.new)) }
    ensures short { IfOk result (λ bytes. vec_len bytes ≤ MAX_ARCHIVE_BYTES) }
    ensures err { IfErr result (IsUnreadArchive (R.remaining reader.old) (R.remaining reader.new)) }
{
    match read_input(alloc, reader, MAX_ARCHIVE_BYTES) {
        Ok(bytes) => Ok(bytes),
        Err(failure) => Err(of_input(failure)),
    }
}

/// By why the input is not had whole: more than an archive may have is too much.
fn of_input(failure: Failure) -> Failure
    ensures { result ≡ of_input failure }
{
    match failure {
        Failure::Source(_) => Failure::TooManyLines,
        _ => failure,
    }
}

/// What the archive of these bytes is put as below a path, in lots. What is refused of it is told, and what
/// is left out.
fn lots_of_archive<E: Write>(
    alloc: Global,
    skip_links: bool,
    base: &Path,
    bytes: Vec<u8>,
    err: &mut E,
) -> Result<Vec<Thing>, Failure>
    ensures ok { IfOk result (λ lots. ArePut skip_links base.now bytes.items lots.items) }
    ensures err { IfErr result (IsUnputArchive skip_links base.now bytes.items) }
{
    let archive = match read_archive(alloc, skip_links, &bytes) {
        Ok(archive) => archive,
        Err(unread) => {
            tell_unread(alloc, &unread, err);
            return Err(of_fault(unread.fault));
        }
    };
    tell_left_out(alloc, &archive.left_out, err);
    lots_of_entries(alloc, base, archive.entries, err)
}

/// By why an archive is not read.
fn of_fault(fault: ArchiveFault) -> Failure
    ensures { result ≡ of_fault fault }
{
    match fault {
        ArchiveFault::Memory => Failure::Memory,
        ArchiveFault::Unsupported(typeflag) => Failure::Source(if is_link(typeflag) {
            SourceFault::Link
        } else {
            SourceFault::Special
        }),
        ArchiveFault::Unread(HeaderFault::TooLong) => Failure::Source(SourceFault::TooBig),
        ArchiveFault::Name(Fault::NameTooLong) => Failure::Source(SourceFault::TooLong),
        ArchiveFault::Name(_) => Failure::Source(SourceFault::BadName),
        _ => Failure::Source(SourceFault::Unreadable),
    }
}

/// Whether a typeflag is that of a link.
fn is_link(typeflag: u8) -> bool
    ensures { result ≡ is_link typeflag }
{
    typeflag == HARD_LINK || typeflag == SYMBOLIC_LINK
}

/// What the entries of an archive are put as below a path, in lots. One that has no place there is told.
fn lots_of_entries<E: Write>(
    alloc: Global,
    base: &Path,
    entries: Vec<ArchiveEntry>,
    err: &mut E,
) -> Result<Vec<Thing>, Failure>
    ensures ok { IfOk result (λ lots. AreLots base.now entries.items lots.items) }
    ensures err { IfErr result (IsUnplaced base.now entries.items) }
{
    if let Some(entry) = too_deep(base, &entries) {
        tell_too_deep(alloc, &entry.path, err);
        return Err(Failure::Source(SourceFault::TooLong));
    }
    match placed_lots(alloc, base, entries) {
        Ok(lots) => Ok(lots),
        Err(_) => Err(Failure::Memory),
    }
}

/// What the entries of an archive are put as below a path, where each has a place, in lots.
fn placed_lots(
    alloc: Global,
    base: &Path,
    entries: Vec<ArchiveEntry>,
) -> Result<Vec<Thing>, AllocError>
    requires { All (λ entry. fits base.now entry ≡ true) entries.items }
    ensures { IfOk result (λ lots. lots.items ≡ lots_of (things_below base.now entries.items)) }
{
    let things = things_below(alloc, base, entries)?;
    lots_of(alloc, things)
}
