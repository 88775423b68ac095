//! How a file that two trees have gets its new bytes.

/// How a file that both trees have gets the bytes of the second.
#[derive(Clone, Copy, Debug, PartialEq, Eq)]
pub enum Manner {
    /// It is written whole, whatever it has.
    Whole,
    /// It has the bytes of the first tree, and is written from the first one on that differs.
    Edited,
    /// It has the bytes of the first tree, and what differs is put over them, in no call more than
    /// [`tree_differences::PIECE_BYTES`].
    Patched,
}
