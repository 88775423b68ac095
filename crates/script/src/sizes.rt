//! The flash and the file system of a script where no other sizes are asked.
use flash_model::Geometry;

/// 32 blocks of 16 pages of 256 bytes.
pub const DEFAULT_SIZES: Geometry = Geometry {
    page: 256,
    pages: 16,
    blocks: 32,
};

/// How many versions the file system keeps.
pub const DEFAULT_VERSIONS: u32 = 8;
