//! Why what is asked of a file system is not told.
ghost use Rattle.std.specs.Prelude.{◌≡◌};
ghost use Rattle.fs_types.specs.declared.fault.Fault.TheVariants.{NoMemory};
ghost use Rattle.inquiries.specs.declared.tell_fault.TellFault.TheVariants.{Refused};

use fs_types::Fault;
use std::alloc::AllocError;
use thiserror::Error;

/// The most lines that are told of a tree, and the most entries that are looked at for those that differ.
pub const MAX_LINES: u64 = 1_048_576;

/// The most bytes that the paths of all that stands in a tree may have together, with a `/` before each name,
/// where all of them are kept before a line is told.
pub const MAX_PATH_BYTES: u64 = 67_108_864;

/// The most directories and files with bytes that a tree may have of which all is listed: as many as a flash
/// has blocks. In a tree that calls made each has a block of its own.
pub const MAX_OWNERS: u64 = 16_384;

/// Why what is asked of a file system is not told.
#[derive(Clone, Copy, Debug, PartialEq, Eq, Error)]
pub enum TellFault {
    /// What is asked is refused.
    #[error("refused: {0}")]
    Refused(Fault),
    /// More lines would be told than [`MAX_LINES`], or as many entries would have to be looked at; or their
    /// paths have over [`MAX_PATH_BYTES`], or over [`MAX_OWNERS`] of them have a block of their own.
    #[error("too many lines")]
    TooManyLines,
}

impl From<Fault> for TellFault {
    ghost from_gives = { λ fault told. told ≡ Refused fault };

    fn from(fault: Fault) -> TellFault {
        TellFault::Refused(fault)
    }
}

impl From<AllocError> for TellFault {
    ghost from_gives = { λ _ told. told ≡ Refused NoMemory };

    fn from(_error: AllocError) -> TellFault {
        TellFault::Refused(Fault::NoMemory)
    }
}
