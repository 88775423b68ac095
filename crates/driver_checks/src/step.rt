//! What a bench is asked to do.
use flash_model::{DevFault, Operation};

/// What a bench was asked to do beside reads, and what it answered.
#[derive(Clone, Copy, Debug)]
pub enum Step {
    /// A program of a page, with the answer.
    Programs(u32, Result<(), DevFault>),
    /// An erase of a block, with the answer.
    Erases(u32, Result<(), DevFault>),
    /// A fault planned for the next operation, of this class, at this moment of it.
    Plans(Operation, DevFault, u8),
    /// A restart.
    Restarts,
}
