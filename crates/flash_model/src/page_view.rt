//! What a page of a flash in memory holds.

/// What a page holds, with its bytes where it holds any.
#[derive(Clone, Copy, Debug, PartialEq, Eq)]
pub enum PageView<'a> {
    /// Nothing since the last erase.
    Erased,
    /// The bytes that were programmed.
    Data(&'a [u8]),
    /// Neither.
    Unreadable,
}
