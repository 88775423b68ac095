//! Files that are written together, by their names in one directory.
ghost use Rattle.std.specs.Prelude.{◌≡◌, ◌<◌, length, IfOk};
ghost use Rattle.fs_types.specs.NamedFiles as spec;

use crate::fault::Fault;
use crate::limits::MAX_NAMES;
use crate::name::{Name, is_after};
use crate::path::Path;
use crate::sequence::Bytes;
use std::alloc::AllocError;

/// A file of a directory: its name there, and all of its bytes.
#[derive(Debug, Drop)]
pub struct NamedFile {
    pub name: Name,
    pub bytes: Bytes,
}

impl NamedFile {
    /// The path of the file in a directory whose path has room for a name.
    pub fn path_in(&self, directory: &Path) -> Result<Path, AllocError>
        requires { length directory.now < MAX_NAMES }
        ensures { IfOk result (λ path. path ≡ spec.path_in directory.now self.now) }
    {
        directory.join(&self.name)
    }
}

/// Why files cannot be written together in a directory, whatever stands there.
///
/// [`Fault::Invalid`] where their names do not ascend in byte order, so where one stands twice; else
/// [`Fault::NameTooLong`] for one file or more where the directory's path has 16 names.
pub fn files_refusal(directory: &Path, files: &[NamedFile]) -> Option<Fault>
    ensures { result ≡ spec.files_refusal directory.now files.now }
{
    if !do_ascend(files) {
        return Some(Fault::Invalid);
    }
    if !files.is_empty() && directory.names().len() >= MAX_NAMES {
        return Some(Fault::NameTooLong);
    }
    None
}

/// Whether each name comes after the one before it in byte order.
fn do_ascend(files: &[NamedFile]) -> bool
    ensures { result ≡ spec.ascend_from None files.now }
{
    let mut last = None;
    for file in files {
        if !is_after(last, file.name.as_bytes()) {
            return false;
        }
        last = Some(&file.name);
    }
    true
}
