//! How much of a flash is used.

/// How much of a flash is used, which a machine in memory does not know.
#[derive(Clone, Copy, Debug)]
pub struct Space {
    /// Data blocks.
    pub blocks: u64,
    /// Bad ones among them.
    pub bad: u64,
    /// Free ones among them.
    pub free: u64,
    /// Anchors that work.
    pub anchors: u64,
}
