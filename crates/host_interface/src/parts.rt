//! Files that are written in place.
use crate::backing::Backing;
use crate::image_files::FileFault;
use std::alloc::Global;

/// Files that are written in place, by their names.
pub trait Parts {
    ghost use Rattle.std.specs.Prelude.{◌≡◌, None, Some, IfSome, IfOk};
    ghost use Rattle.host_interface.specs.Files.{Held};

    /// A file that is open in place, and claimed until it is dropped.
    type Part: Backing + Drop;

    // The bytes of the file of a name, where they are known.
    ghost placed: { Self → Held } = { λ _ _. None };

    /// Opens the file of a name in place. Refused where it is no plain file, may not be written, or another
    /// program has claimed it. One that is missing is opened, and cannot be read.
    fn open_part(&self, alloc: Global, name: &str) -> Result<Self::Part, FileFault>
        ensures { IfOk result (λ part. IfSome (placed self.now name.now) (λ all. Self.Part.held part ≡ Some all)) };
}
