//! What ends the writing of an archive before its end.
use fs_types::Fault;

/// What ends the writing of an archive before its end.
#[derive(Clone, Copy, Debug, PartialEq, Eq)]
pub enum Interruption {
    /// The work met this at an entry. Those before it are written, each whole.
    Met(Fault),
    /// The output failed. A first part of the archive is written.
    Output,
}
