//! The layouts of a serial NOR part, as the pages of a block tell them.
use dense_nor::DenseLayout;
use flash_model::Geometry;

/// The layout of a serial NOR part on which a flash stands.
#[derive(Clone, Copy, Debug, PartialEq, Eq)]
pub enum PartLayout {
    /// The data of a block in one sector, and its marks in the next: 16 pages in a block.
    Sure,
    /// The marks of a block in the last pages of its own sectors: 31 pages in a block, 46, 62 and so on.
    Dense(DenseLayout),
}

impl PartLayout {
    ghost use Rattle.std.specs.Prelude.{◌≡◌, ◌≢◌, ◌<◌, ◌≤◌, IfSome, IfNone};
    ghost use Rattle.raw_part.specs.Layouts as layouts;
    ghost use Rattle.raw_part.specs.declared.part_layout.PartLayout.{PartLayout};

    /// The layout with blocks of so many pages. None where no layout has such blocks.
    pub fn of_pages(pages: u32) -> Option<PartLayout>
        ensures some { IfSome result (λ layout. layouts.pages_of layout ≡ pages) }
        ensures none { IfNone result ((layout : PartLayout) → layouts.pages_of layout ≢ pages) }
    {
        if pages == 16 {
            return Some(PartLayout::Sure);
        }
        match DenseLayout::of_pages(pages) {
            Some(layout) => Some(PartLayout::Dense(layout)),
            None => None,
        }
    }

    /// Sectors of a block.
    pub fn sectors(self) -> usize
        ensures sectors { result ≡ layouts.sectors_of self }
        ensures some { 2 ≤ result }
        ensures few { result ≤ 64 }
    {
        match self {
            PartLayout::Sure => 2,
            PartLayout::Dense(layout) => layout.sectors as usize,
        }
    }

    /// Bytes of the part for a block.
    pub fn part_block(self) -> usize
        ensures bytes { result ≡ layouts.part_block self }
        ensures some { 0 < result }
        ensures few { result ≤ 262144 }
    {
        4096 * self.sectors()
    }

    /// The sizes of a flash of so many blocks.
    pub fn sizes(self, blocks: u32) -> Geometry
        ensures { result ≡ layouts.sizes_of self blocks }
    {
        match self {
            PartLayout::Sure => Geometry {
                page: 256,
                pages: 16,
                blocks,
            },
            PartLayout::Dense(layout) => layout.sizes(blocks),
        }
    }
}
