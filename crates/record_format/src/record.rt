//! What a commit record says.
use arrayvec::ArrayVec;
use flash_model::Geometry;
use fs_types::{CpName, Sequence, Version};

/// The bytes of the longest payload: 40 in front, and 12 for each version, 36 for each checkpoint
/// and 4 for each bad block.
pub const LONGEST_PAYLOAD: usize = 3176;

/// The bytes of a payload. They take no memory.
pub type Payload = ArrayVec<u8, LONGEST_PAYLOAD>;

/// A checkpoint: its name, and the root of its tree.
#[derive(Debug, Drop)]
pub struct Checkpoint {
    /// The name.
    pub name: CpName,
    /// The block of the root.
    pub root: u32,
}

/// A commit record.
#[derive(Debug, Drop)]
pub struct Record {
    /// The sequence number: of two records the one with the greater number is newer.
    pub sequence: u64,
    /// The format, 1 or 2, as it was read. 2 is written whatever stands here.
    pub format: u32,
    /// The sizes of the flash.
    pub geometry: Geometry,
    /// How many versions are kept at most, 2 to 128; in format 1, 2 to 64.
    pub limit: u16,
    /// The place of the present version, from 0.
    pub cursor: u16,
    /// Whether versions were dropped.
    pub dropped: bool,
    /// The kept versions, at least one: serials ascend, from 1 on.
    pub versions: Sequence<Version<u32>>,
    /// The checkpoints, at most 16: names ascend.
    pub checkpoints: Sequence<Checkpoint>,
    /// The bad blocks, at most 256: they ascend.
    pub bad: Sequence<u32>,
    /// The next serial, above all others.
    pub next: u64,
    /// The last block taken, a data block.
    pub last: u32,
}
