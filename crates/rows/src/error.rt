//! Why a row could not be run.
use flash_simulation::ImageFault;
use fs_types::Fault;
use hex::FromHexError;
use host_interface::FileFault;
use std::alloc::{AllocError, AllocFailed};
use thiserror::Error;

/// Why a row could not be run.
#[derive(Debug, Drop, Error)]
pub enum RowError {
    /// The file is no row.
    #[error("not laid out as a row")]
    Layout,
    /// The system could not be made.
    #[error("refused: {0}")]
    Refused(Fault),
    /// The file of the image was not read.
    #[error("the image was not read: {0}")]
    Unread(FileFault),
    /// The file of the image spells no flash.
    #[error("no image: {0}")]
    Image(ImageFault),
    /// The script did not run to its end.
    #[error("the script did not run to its end")]
    Ended,
    /// Memory could not be had.
    #[error("out of memory")]
    Memory,
}

impl From<AllocError> for RowError {
    fn from(_error: AllocError) -> RowError {
        RowError::Memory
    }
}

impl<T: Drop> From<AllocFailed<T>> for RowError {
    fn from(_failed: AllocFailed<T>) -> RowError {
        RowError::Memory
    }
}

impl From<Fault> for RowError {
    fn from(fault: Fault) -> RowError {
        RowError::Refused(fault)
    }
}

impl From<FileFault> for RowError {
    fn from(fault: FileFault) -> RowError {
        RowError::Unread(fault)
    }
}

impl From<ImageFault> for RowError {
    fn from(fault: ImageFault) -> RowError {
        RowError::Image(fault)
    }
}

impl From<FromHexError> for RowError {
    fn from(error: FromHexError) -> RowError {
        match error {
            FromHexError::OutOfMemory => RowError::Memory,
            _ => RowError::Layout,
        }
    }
}
