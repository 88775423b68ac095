//! Why a call could not be measured.
use fs_types::Fault;
use std::alloc::{AllocError, AllocFailed};
use thiserror::Error;

/// Why a call could not be measured.
#[derive(Debug, Drop, Error)]
pub enum MeasureError {
    /// The line asks no call.
    #[error("no call: line {0}")]
    Line(usize),
    /// A call was refused.
    #[error("refused: {0}")]
    Refused(Fault),
    /// Memory could not be had.
    #[error("out of memory")]
    Memory,
}

impl From<AllocError> for MeasureError {
    fn from(_error: AllocError) -> MeasureError {
        MeasureError::Memory
    }
}

impl<T: Drop> From<AllocFailed<T>> for MeasureError {
    fn from(_failed: AllocFailed<T>) -> MeasureError {
        MeasureError::Memory
    }
}

impl From<Fault> for MeasureError {
    fn from(fault: Fault) -> MeasureError {
        MeasureError::Refused(fault)
    }
}
