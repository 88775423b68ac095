//! What the entries of an archive are put as, below a path.
ghost use Rattle.std.specs.Prelude.{◌≡◌, true, ◌+◌, ◌≤◌, ◌++◌, length, not, find, All, option_copied, IfOk, OnOk};
ghost use Rattle.fs_types.specs.declared.limits.TheConstants.{MAX_NAMES};
ghost use Rattle.archives.specs.Things as spec;

use crate::archive_entry::{ArchiveEntry, Contents};
use fs_types::{MAX_NAMES, Name, Path};
use put_lots::Thing;
use std::alloc::{AllocError, Global};

/// The first entry that has no place below a path: together they have more names than a path may have.
pub fn too_deep<'a>(base: &Path, entries: &'a [ArchiveEntry]) -> Option<&'a ArchiveEntry>
    ensures { option_copied result ≡ find (λ entry. not (spec.fits base.now entry)) entries.now }
{
    let room = MAX_NAMES - base.names().len();
    entries.iter().find(|entry| entry.path.names().len() > room)
}

/// What the entries of an archive are put as below a path: that path is a directory, and each stands
/// below it, in their order.
pub fn things_below(
    alloc: Global,
    base: &Path,
    entries: Vec<ArchiveEntry>,
) -> Result<Vec<Thing>, AllocError>
    requires { All (λ entry. spec.fits base.now entry ≡ true) entries.items }
    ensures { IfOk result (λ things. things.items ≡ spec.things_below base.now entries.items) }
{
    let mut things = vec![in alloc; Thing::Directory(base.clone()?)]?;
    for entry in entries {
        things.push(thing_below(alloc, base, entry)?)?;
    }
    Ok(things)
}

/// What an entry is put as below a path.
fn thing_below(alloc: Global, base: &Path, entry: ArchiveEntry) -> Result<Thing, AllocError>
    requires { spec.fits base.now entry ≡ true }
    ensures { IfOk result (λ thing. thing ≡ spec.thing_below base.now entry) }
{
    let ArchiveEntry {
        path: way,
        contents,
    } = entry;
    let path = join(alloc, base, &way)?;
    match contents {
        Contents::Folder => Ok(Thing::Directory(path)),
        Contents::File(bytes) => Ok(Thing::File(path, bytes)),
    }
}

/// The path of the names of two paths.
fn join(alloc: Global, first: &Path, second: &Path) -> Result<Path, AllocError>
    requires { length first.now + length second.now ≤ MAX_NAMES }
    ensures { IfOk result (λ path. path ≡ first.now ++ second.now) }
{
    let mut names = Vec::new(alloc);
    append_names(&mut names, first.names())?;
    append_names(&mut names, second.names())?;
    Ok(Path::from_names(names))
}

fn append_names(names: &mut Vec<Name>, more: &[Name]) -> Result<(), AllocError>
    ensures { OnOk result (names.new.items ≡ names.old.items ++ more.now) }
{
    for name in more {
        names.push(name.clone()?)?;
    }
    Ok(())
}
