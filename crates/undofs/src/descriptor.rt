//! Descriptors of open files.

/// The descriptor of an open file, as [`Fs::open`](crate::Fs::open) answers it: 0 to 15. Any other
/// number is of no open file, and a call on it is refused by
/// [`Fault::BadDescriptor`](crate::Fault::BadDescriptor).
#[derive(Clone, Copy, Debug, PartialEq, Eq)]
pub struct Descriptor {
    /// Its number, which is that of calls and replies in scripts.
    pub number: u8,
}
