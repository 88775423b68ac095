//! What goes otherwise than it may.
use fs_types::Fault;
use std::alloc::AllocError;

/// What went otherwise than it may with an image.
#[derive(Clone, Copy, Debug)]
pub enum Wrong {
    /// The mount was refused, or not, otherwise than the newest record lets it.
    Mount(Option<Fault>),
    /// A tree that is mounted is not whole.
    Tree(Fault),
    /// The call of a number, from 1 on, was answered otherwise.
    Call(u64),
    /// What is shown after the calls is another history.
    Shown,
    /// What is shown after a restart is another history.
    Restart,
    /// Something was refused that may not be.
    Refused(Fault),
}

impl From<Fault> for Wrong {
    fn from(fault: Fault) -> Wrong {
        Wrong::Refused(fault)
    }
}

impl From<AllocError> for Wrong {
    fn from(_: AllocError) -> Wrong {
        Wrong::Refused(Fault::NoMemory)
    }
}
