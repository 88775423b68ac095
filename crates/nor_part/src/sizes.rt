//! Sizes and wear of a flash over a part, and which of its blocks were cleaned.
ghost use Rattle.std.specs.Prelude.{◌≡◌, ◌≢◌, ℕ, ◌<◌, vec_len, slice_index_or, true, false};
ghost use Rattle.nor_part.specs.Layout.{part_sizes};

use flash_model::Geometry;

pub(crate) fn sizes(blocks: u32) -> Geometry
    ensures { result ≡ part_sizes blocks }
{
    Geometry {
        page: 256,
        pages: 16,
        blocks,
    }
}

// Whether a block was erased by this flash and not programmed since, from now on.
pub(crate) fn note(cleaned: &mut Vec<bool>, block: usize, is_clean: bool)
    requires { block < vec_len cleaned.old }
    ensures own { slice_index_or cleaned.new.items block false ≡ is_clean }
    ensures others { (b : ℕ) → b ≢ block → slice_index_or cleaned.new.items b false ≡ slice_index_or cleaned.old.items b false }
    ensures len { vec_len cleaned.new ≡ vec_len cleaned.old }
{
    cleaned[block] = is_clean;
}

// A block is worn from now on.
pub(crate) fn wear(worn: &mut Vec<bool>, block: usize)
    requires { block < vec_len worn.old }
    ensures own { slice_index_or worn.new.items block false ≡ true }
    ensures others { (b : ℕ) → b ≢ block → slice_index_or worn.new.items b false ≡ slice_index_or worn.old.items b false }
    ensures len { vec_len worn.new ≡ vec_len worn.old }
{
    worn[block] = true;
}
