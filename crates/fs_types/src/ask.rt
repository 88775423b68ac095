//! What may be asked of a flash and of the system on it.
use crate::event::Event;

/// What is asked of a flash and of the system on it.
#[derive(Debug, Drop)]
pub enum Ask {
    /// An event.
    Event(Event),
    /// What each version and each checkpoint keeps.
    Space,
    /// The fewest of the oldest versions are to be forgotten that leave so many blocks free.
    ForgetFree(u64),
}
