//! Why it is not told how many blocks entries reach.
ghost use Rattle.std.specs.Prelude.{◌≡◌};
ghost use Rattle.fs_types.specs.declared.fault.Fault.TheVariants.{NoMemory};
ghost use Rattle.block_usage.specs.declared.usage_fault.UsageFault.TheVariants.{Refused};

use fs_types::Fault;
use std::alloc::AllocError;
use thiserror::Error;

/// The most blocks that the entries of a directory reach together, those that several reach counted for
/// each: 16 times as many as a flash has. No two entries that calls made reach the same block.
pub const MAX_USAGE_BLOCKS: u64 = 262_144;

/// Why it is not told how many blocks entries reach.
#[derive(Clone, Copy, Debug, PartialEq, Eq, Error)]
pub enum UsageFault {
    /// The path is refused, or by what the reading met.
    #[error("refused: {0}")]
    Refused(Fault),
    /// The entries reach over [`MAX_USAGE_BLOCKS`] blocks together.
    #[error("too many blocks")]
    TooManyBlocks,
}

impl From<Fault> for UsageFault {
    ghost from_gives = { λ fault told. told ≡ Refused fault };

    fn from(fault: Fault) -> UsageFault {
        UsageFault::Refused(fault)
    }
}

impl From<AllocError> for UsageFault {
    ghost from_gives = { λ _ told. told ≡ Refused NoMemory };

    fn from(_error: AllocError) -> UsageFault {
        UsageFault::Refused(Fault::NoMemory)
    }
}
