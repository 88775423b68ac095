//! Views as lines name them.
use fs_types::Bytes;

/// A view as a line names it: the name of a checkpoint may still be refused.
#[derive(Debug, Drop)]
pub enum NamedView {
    /// No view: the present version.
    Now,
    /// `@` and a serial.
    AtSerial(u64),
    /// `=` and a name.
    AtName(Bytes),
}
