//! What `log` tells.
use fs_types::{CpName, Sequence};

/// The history of a file system, without its trees.
#[derive(Debug, Drop)]
pub struct Log {
    /// The serial of the next version.
    pub next: u64,
    /// Whether versions were dropped.
    pub dropped: bool,
    /// The serials of the kept versions, the oldest first.
    pub versions: Sequence<u64>,
    /// The place of the present version among them.
    pub cursor: u64,
    /// The names of the checkpoints, in byte order.
    pub checkpoints: Sequence<CpName>,
}
