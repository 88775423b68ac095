//! Where the pages of a part and their states stand.
ghost use Rattle.std.specs.Prelude.{◌≡◌, ◌<◌};
ghost use Rattle.flash_model.specs.Geometry.{IsGeometry, page_count};
ghost use Rattle.part_file.specs.Layout as spec;

use flash_model::Geometry;

/// The bytes before the states, and what the states are filled up to.
const HEAD: u64 = 4096;

/// Where the byte of a page's state stands.
pub(crate) fn state_place(page: u32) -> u64
    ensures { result ≡ spec.state_place page }
{
    HEAD + page as u64
}

/// Where the bytes of a page begin.
pub(crate) fn data_place(sizes: Geometry, page: u32) -> u64
    requires lawful { IsGeometry sizes }
    requires in_range { page < page_count sizes }
    ensures { result ≡ spec.data_place sizes page }
{
    let states = (sizes.page_count() as u64).div_ceil(HEAD) * HEAD;
    HEAD + states + page as u64 * sizes.page as u64
}
