//! Files that are put one after the other, in lots.
ghost use Rattle.std.specs.Prelude.{◌≡◌, ◌+◌, ◌<◌, true, Some, length, nat_le, IfOk};
ghost use Rattle.std.specs.Option.{option_copied};
ghost use Rattle.fs_types.specs.Names.{is_path};
ghost use Rattle.plain_trees.specs.Contents.{parent_of};
ghost use Rattle.put_lots.specs.declared.thing.Thing.{Thing};
ghost use Rattle.put_lots.specs.Lots as spec;

use crate::thing::Thing;
use fs_types::{Bytes, Name, NamedFile, Path, Sequence, is_after};
use plain_trees::parent;
use std::alloc::{AllocError, Global};

/// The most files in a lot: as many as a directory may have entries.
pub const MOST_FILES: usize = 1_024;

/// The most bytes in the files of a lot, where it has more than one.
pub const MOST_BYTES: usize = 1_048_576;

/// What is to be put now, if anything is, and what waits for the things after it.
#[derive(Debug, Drop)]
pub struct Taken {
    pub ready: Option<Thing>,
    pub last: Thing,
}

/// Takes a thing after those that wait: a file goes into the lot that waits where it may, and else what
/// waited is ready.
pub fn take_in(alloc: Global, last: Option<Thing>, thing: Thing) -> Result<Taken, AllocError>
    ensures { IfOk result (λ taken. taken ≡ spec.taken_in last thing) }
{
    match thing {
        Thing::File(path, bytes) => take_path(alloc, last, path, bytes),
        Thing::Directory(path) => Ok(Taken {
            ready: last,
            last: Thing::Directory(path),
        }),
        Thing::Files(directory, files) => Ok(Taken {
            ready: last,
            last: Thing::Files(directory, files),
        }),
    }
}

/// Takes the file at a path; none stands at the root, so that this one is put alone and refused.
fn take_path(
    alloc: Global,
    last: Option<Thing>,
    path: Path,
    bytes: Bytes,
) -> Result<Taken, AllocError>
    ensures { IfOk result (λ taken. taken ≡ spec.taken_in last (Thing.File path bytes)) }
{
    if path.is_root() {
        return Ok(Taken {
            ready: last,
            last: Thing::File(path, bytes),
        });
    }
    let directory = directory_of(alloc, path.names())?;
    let name = last_name(path.names())?;
    take_file(alloc, last, directory, NamedFile { name, bytes })
}

/// The directory that a path stands in.
fn directory_of(alloc: Global, names: &[Name]) -> Result<Path, AllocError>
    requires { is_path names.now ≡ true }
    ensures { IfOk result (λ path. path ≡ parent_of names.now) }
{
    let parents = parent(names);
    let mut path = Path::root(alloc);
    for name in parents {
        path = path.join(name)?;
    }
    Ok(path)
}

/// The name that a path ends in.
fn last_name(names: &[Name]) -> Result<Name, AllocError>
    requires { 0 < length names.now }
    ensures { IfOk result (λ name. name ≡ spec.last_name names.now) }
{
    names[names.len() - 1].clone()
}

/// Takes a file of a directory.
fn take_file(
    alloc: Global,
    last: Option<Thing>,
    directory: Path,
    file: NamedFile,
) -> Result<Taken, AllocError>
    ensures { IfOk result (λ taken. taken ≡ spec.taken_file last directory file) }
{
    match last {
        Some(Thing::Files(lot, files)) => add_file(alloc, lot, files, directory, file),
        _ => start_lot(alloc, last, directory, file),
    }
}

/// Adds a file to a lot where it may join it; else that is ready, and another begins.
fn add_file(
    alloc: Global,
    lot: Path,
    files: Sequence<NamedFile>,
    directory: Path,
    file: NamedFile,
) -> Result<Taken, AllocError>
    ensures { IfOk result (λ taken. taken ≡ spec.taken_file (Some (Thing.Files lot files)) directory file) }
{
    if !joins(&lot, files.as_slice(), &directory, &file) {
        return start_lot(alloc, Some(Thing::Files(lot, files)), directory, file);
    }
    let mut files = files;
    files.push(file)?;
    Ok(Taken {
        ready: None,
        last: Thing::Files(lot, files),
    })
}

/// A lot begins with a file, and what waited is ready.
fn start_lot(
    alloc: Global,
    ready: Option<Thing>,
    directory: Path,
    file: NamedFile,
) -> Result<Taken, AllocError>
    ensures { IfOk result (λ taken. taken ≡ spec.lot_started ready directory file) }
{
    let mut files = Sequence::new(alloc);
    files.push(file)?;
    Ok(Taken {
        ready,
        last: Thing::Files(directory, files),
    })
}

/// Whether a file of a directory may join a lot of another: it is the same directory, the name comes after
/// the lot's last one, and together they are not too many and not too long.
fn joins(lot: &Path, files: &[NamedFile], directory: &Path, file: &NamedFile) -> bool
    ensures { result ≡ spec.joins lot.now files.now directory.now file.now }
{
    if lot != directory {
        return false;
    }
    if !is_after(name_of_last(files), file.name.as_bytes()) {
        return false;
    }
    files.len() < MOST_FILES && has_room(files, file)
}

/// The name of the last of some files.
fn name_of_last(files: &[NamedFile]) -> Option<&Name>
    ensures { option_copied result ≡ spec.name_of_last files.now }
{
    match files.split_last() {
        Some((last, _)) => Some(&last.name),
        None => None,
    }
}

/// Whether files and one more have at most [`MOST_BYTES`] together.
fn has_room(files: &[NamedFile], file: &NamedFile) -> bool
    ensures { result ≡ nat_le (spec.bytes_in files.now + length file.now.bytes) MOST_BYTES }
{
    let mut room = MOST_BYTES;
    for one in files {
        let count = one.bytes.as_slice().len();
        if count > room {
            return false;
        }
        room -= count;
    }
    file.bytes.as_slice().len() <= room
}
