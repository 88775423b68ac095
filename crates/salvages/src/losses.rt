//! What is lost of a tree.
ghost use Rattle.std.specs.Prelude.{◌≡◌};
ghost use Rattle.fs_types.specs.declared.fault.Fault.TheVariants.{NoMemory};
ghost use Rattle.salvages.specs.declared.losses.LossFault.TheVariants.{Refused};

use fs_types::{Bytes, Fault};
use std::alloc::AllocError;

/// What is lost at a path.
#[derive(Clone, Copy, Debug, PartialEq, Eq)]
pub enum LossKind {
    /// A file: it is no whole body.
    File,
    /// A directory: its first node is none.
    Directory,
    /// Entries of a directory, whose names nobody knows, or whose paths would have too many names.
    Entries,
}

/// Something that a tree has lost.
#[derive(Debug, Drop)]
pub struct Loss {
    pub kind: LossKind,
    /// The names of the path, each after a slash; no byte for the root.
    pub path: Bytes,
}

/// Why what is lost is not told.
#[derive(Clone, Copy, Debug, PartialEq, Eq)]
pub enum LossFault {
    /// The flash is not read, or memory was wanted.
    Refused(Fault),
    /// There is too much to look at, or to tell.
    TooManyLines,
}

impl From<Fault> for LossFault {
    ghost from_gives = { λ fault told. told ≡ Refused fault };

    fn from(fault: Fault) -> LossFault {
        LossFault::Refused(fault)
    }
}

impl From<AllocError> for LossFault {
    ghost from_gives = { λ _ told. told ≡ Refused NoMemory };

    fn from(_error: AllocError) -> LossFault {
        LossFault::Refused(Fault::NoMemory)
    }
}
