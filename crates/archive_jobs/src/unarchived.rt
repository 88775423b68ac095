//! Why there is no archive of a tree.
use fs_types::{Fault, Path};

/// Why there is no archive of the tree of a view.
#[derive(Debug, Drop)]
pub enum Unarchived {
    /// No system is mounted.
    Unmounted(Fault),
    /// The view is refused, or the work met something.
    Refused(Fault),
    /// The tree has more than is copied out of one.
    TooMuch,
    /// The format of archives has no room for this path.
    NoRoom(Path),
}
