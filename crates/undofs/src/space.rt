//! What `df` tells.

/// How much of a flash is used.
#[derive(Clone, Copy, Debug, PartialEq, Eq)]
pub struct Space {
    /// The data blocks.
    pub blocks: u64,
    /// How many of them are bad.
    pub bad: u64,
    /// How many of them are free: neither bad nor reached by what is kept.
    pub free: u64,
    /// The anchors that work, 0 to 8.
    pub anchors: u64,
}
