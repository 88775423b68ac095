//! Why nothing could be measured.
use fs_types::Fault;
use std::alloc::{AllocError, AllocFailed};
use thiserror::Error;

/// Why nothing could be measured.
#[derive(Debug, Drop, Error)]
pub enum LatencyError {
    /// A call or a step was refused.
    #[error("refused: {0}")]
    Refused(Fault),
    /// A reply was none of the call.
    #[error("another reply")]
    Reply,
    /// Memory could not be had.
    #[error("out of memory")]
    Memory,
}

impl From<AllocError> for LatencyError {
    fn from(_error: AllocError) -> LatencyError {
        LatencyError::Memory
    }
}

impl<T: Drop> From<AllocFailed<T>> for LatencyError {
    fn from(_failed: AllocFailed<T>) -> LatencyError {
        LatencyError::Memory
    }
}

impl From<Fault> for LatencyError {
    fn from(fault: Fault) -> LatencyError {
        LatencyError::Refused(fault)
    }
}
