//! What befalls a flash with a system on it, and what is answered.
use crate::call::{Call, Reply};
use crate::fault::Fault;

/// An event of a run.
#[derive(Debug, Drop)]
pub enum Event {
    /// A call.
    Call(Call),
    /// A step of reclaiming, which reads so many blocks at most.
    ReclaimStep(u64),
    /// A step of cleaning, which looks at so many free blocks at most.
    CleanStep(u64),
    /// A step of preparing, which erases so many of the blocks that are taken next at most.
    PrepareStep(u64),
    /// The power is put on, and the system is mounted anew.
    Restart,
}

/// The answer to an event.
#[derive(Debug, Drop)]
pub enum Answer {
    /// The call was carried out.
    Done(Reply),
    /// It was refused, or no system could be mounted.
    Refused(Fault),
    /// The system is mounted.
    Mounted,
    /// No system is mounted.
    Unmounted,
}
