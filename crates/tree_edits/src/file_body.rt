//! What names a file's body.

/// A file's body: the block of its last node (0 where it is empty), and its length in bytes.
#[derive(Clone, Copy, Debug)]
pub struct Body {
    pub head: u32,
    pub length: u32,
}
