//! Why the archive of a tree is not written to its end.
use crate::interruption::Interruption;
use crate::unarchived::Unarchived;

/// Why the archive of the tree of a view is not written to its end.
#[derive(Debug, Drop)]
pub enum Unwritten {
    /// There is none. Nothing is written.
    Unarchived(Unarchived),
    /// A first part of it is written.
    Interrupted(Interruption),
}
