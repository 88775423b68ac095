//! The sizes of a flash.
ghost use Rattle.std.specs.Prelude.{◌≡◌, ◌*◌, ◌+◌, ◌<◌, ◌≤◌, ◌^◌, ◌↔◌, IsTrue};
ghost use Rattle.flash_model.specs.Geometry.{IsGeometry, is_page_size, block_bytes, page_count};

use fs_types::MIN_BLOCK_BYTES;

/// The sizes of a flash: bytes of a page, pages of an erase block, number of blocks.
///
/// Page `j` of block `b` has the number `b * pages + j`.
#[derive(Clone, Copy, Debug, PartialEq, Eq)]
pub struct Geometry {
    /// Bytes of a page.
    pub page: u32,
    /// Pages of a block.
    pub pages: u32,
    /// Number of blocks.
    pub blocks: u32,
}

impl Geometry {
    /// Whether the sizes are within the limits: a page has 256, 512, 1024, 2048 or 4096 bytes, a
    /// block 4,096 to 262,144 bytes in at least one page, and there are 16 to 65,536 blocks of at
    /// most 67,108,864 bytes together.
    pub fn is_lawful(self) -> bool
        ensures { IsTrue result ↔ IsGeometry self }
    {
        let block = self.block_bytes();
        self.has_page_size()
            && 1 <= self.pages
            && MIN_BLOCK_BYTES <= block
            && block <= 262_144
            && 16 <= self.blocks
            && self.blocks <= 65_536
            && self.blocks as usize * block <= 67_108_864
    }

    fn has_page_size(self) -> bool
        ensures { result ≡ is_page_size self.page }
    {
        matches!(self.page, 256 | 512 | 1024 | 2048 | 4096)
    }

    /// Bytes of a block.
    pub fn block_bytes(self) -> usize
        ensures { result ≡ block_bytes self }
    {
        self.pages as usize * self.page as usize
    }

    /// Pages of the whole flash.
    pub fn page_count(self) -> usize
        ensures { result ≡ page_count self }
    {
        self.blocks as usize * self.pages as usize
    }

    /// The number of the page at a place of a block.
    pub fn page_number(self, block: u32, place: u32) -> u32
        requires in_flash { block < self.blocks }
        requires in_block { place < self.pages }
        requires fits { page_count self ≤ 2 ^ 32 }
        ensures value { result ≡ block * self.pages + place }
        ensures in_range { result < page_count self }
    {
        place + block * self.pages
    }
}
