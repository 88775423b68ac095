//! Why a line asks nothing.
use fs_types::Fault;
use hex::FromHexError;
use std::alloc::{AllocError, AllocFailed};

/// Why a line asks nothing, or why that cannot be told.
#[derive(Clone, Copy, Debug)]
pub enum Misread {
    /// The line has no form of a line.
    Syntax,
    /// A path or a name in it is refused.
    Refused(Fault),
    /// Memory could not be had.
    NoMemory,
}

impl From<AllocError> for Misread {
    ghost use Rattle.std.specs.Prelude.{◌≡◌};
    ghost use Rattle.script.specs.declared.misread.Misread.TheVariants.{NoMemory};

    ghost from_gives = { λ _ misread. misread ≡ NoMemory };

    fn from(_error: AllocError) -> Misread {
        Misread::NoMemory
    }
}

impl<T: Drop> From<AllocFailed<T>> for Misread {
    ghost use Rattle.std.specs.Prelude.{◌≡◌};
    ghost use Rattle.script.specs.declared.misread.Misread.TheVariants.{NoMemory};

    ghost from_gives = { λ _ misread. misread ≡ NoMemory };

    fn from(_failed: AllocFailed<T>) -> Misread {
        Misread::NoMemory
    }
}

impl From<FromHexError> for Misread {
    ghost use Rattle.std.specs.Prelude.{◌≡◌};
    ghost use Rattle.script.specs.Misreads.{misread_of};

    ghost from_gives = { λ error misread. misread ≡ misread_of error };

    fn from(error: FromHexError) -> Misread {
        match error {
            FromHexError::OutOfMemory => Misread::NoMemory,
            _ => Misread::Syntax,
        }
    }
}
