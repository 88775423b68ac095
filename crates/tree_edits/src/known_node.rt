//! A node of a body whose block is known.

/// A node of a body: its index in it, and its block.
#[derive(Clone, Copy, Debug)]
pub struct KnownNode {
    pub index: u32,
    pub block: u32,
}
