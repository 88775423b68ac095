//! How many sectors a block has, and where its pages stand.
ghost use Rattle.std.specs.Prelude.{◌≡◌, ℕ, ◌≤◌, ◌^◌, ◌<◌};
ghost use Rattle.dense_nor.specs.Layout.{IsDense};

use flash_model::Geometry;

/// The blocks of a flash on a part: so many sectors each, 2 to 64.
#[derive(Clone, Copy, Debug, PartialEq, Eq)]
pub struct DenseLayout {
    /// Sectors of a block.
    pub sectors: u32,
    ghost dense: { IsDense sectors },
}

impl DenseLayout {
    ghost use Rattle.std.specs.Prelude.{◌≡◌, ◌≢◌, ℕ, ◌+◌, ◌*◌, ◌<◌, ◌^◌, ◌↔◌, IsSome, IfSome, IfNone};
    ghost use Rattle.dense_nor.specs.Layout as layout;

    /// Blocks of so many sectors. None where a block may not have so many.
    pub fn of(sectors: u32) -> Option<DenseLayout>
        ensures some { IsSome result ↔ layout.IsDense sectors }
        ensures sectors { IfSome result (λ of. of.sectors ≡ sectors) }
    {
        if sectors < 2 || 64 < sectors {
            return None;
        }
        Some(DenseLayout { sectors })
    }

    /// Blocks of so many pages of data. None where no block has so many.
    pub fn of_pages(pages: u32) -> Option<DenseLayout>
        ensures some { IfSome result (λ of. layout.data_pages of.sectors ≡ pages) }
        ensures none { IfNone result ((n : ℕ) → layout.IsDense n → layout.data_pages n ≢ pages) }
    {
        for sectors in 2..65 {
            let layout = DenseLayout { sectors };
            if layout.data_pages() == pages as usize {
                return Some(layout);
            }
        }
        None
    }

    /// Pages of marks of a block.
    #[tactic(auto, unfolding(crate::specs::Layout::mark_pages))]
    pub fn mark_pages(self) -> usize
        ensures pages { result ≡ layout.mark_pages self.sectors }
        ensures few { result < 33 }
        ensures some { 0 < result }
    {
        (16 * self.sectors as usize + 32) / 33
    }

    /// Pages of data of a block.
    #[tactic(auto, unfolding(crate::specs::Layout::data_pages, crate::specs::Layout::mark_pages))]
    pub fn data_pages(self) -> usize
        ensures pages { result ≡ layout.data_pages self.sectors }
        ensures few { result < 1024 }
        ensures some { 0 < result }
    {
        16 * self.sectors as usize - self.mark_pages()
    }

    /// The sizes of a flash of so many blocks.
    pub fn sizes(self, blocks: u32) -> Geometry
        ensures { result ≡ layout.dense_sizes self.sectors blocks }
    {
        Geometry {
            page: 256,
            pages: self.data_pages() as u32,
            blocks,
        }
    }

    /// How many blocks a part of so many pages has.
    #[tactic(auto, unfolding(crate::specs::Layout::blocks_of))]
    pub fn blocks_of(self, count: usize) -> usize
        ensures { result ≡ layout.blocks_of self.sectors count }
    {
        count / (16 * self.sectors as usize)
    }

    /// The page of the part that has the data of a page.
    #[tactic(auto, unfolding(crate::specs::Layout::data_at))]
    pub fn data_page(self, page: usize) -> usize
        requires { page < 2 ^ 32 }
        ensures { result ≡ layout.data_at self.sectors page }
    {
        let pages = self.data_pages();
        16 * self.sectors as usize * (page / pages) + page % pages
    }

    /// The page of the part that has the mark of a page.
    #[tactic(auto, unfolding(crate::specs::Layout::mark_at))]
    pub fn mark_page(self, page: usize) -> usize
        requires { page < 2 ^ 32 }
        ensures { result ≡ layout.mark_at self.sectors page }
    {
        let pages = self.data_pages();
        16 * self.sectors as usize * (page / pages) + pages + page % pages / 32
    }

    /// The place of the mark of a page there.
    #[tactic(auto, unfolding(crate::specs::Layout::place_of))]
    pub fn place(self, page: usize) -> usize
        ensures place { result ≡ layout.place_of self.sectors page }
        ensures few { result < 32 }
    {
        page % self.data_pages() % 32
    }
}
