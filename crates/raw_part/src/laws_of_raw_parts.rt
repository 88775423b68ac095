//! The laws of bytes of a part. The functions do nothing: their contracts are the laws.
ghost use Rattle.std.specs.Prelude.{◌≡◌, ℕ, ◌*◌, ◌<◌, List};
ghost use Rattle.flash_model.specs.Device.{Device};
ghost use Rattle.flash_model.specs.Geometry.{page_count};
ghost use Rattle.flash_simulation.specs.Images.{image_of};
ghost use Rattle.nor_part.specs.Flashes as sure;
ghost use Rattle.dense_nor.specs.Flashes as dense;
ghost use Rattle.dense_nor.specs.declared.dense_layout.DenseLayout.{DenseLayout};
ghost use Rattle.part_file.specs.Reading.{without_wear};
ghost use Rattle.raw_part.specs.Layouts.{pages_of};
ghost use Rattle.raw_part.specs.Raws.{IsRaw, IsRawFlash, held_in};
ghost use Rattle.raw_part.specs.declared.part_layout.PartLayout.{PartLayout};

/// An image that becomes the bytes of a part, of which an image of the same pages in a block is made, is the
/// same again, but for the blocks that are worn: it tells none. So the sizes, the states of all pages and
/// their bytes stay.
pub fn round_trip_law()
    ensures { (first second : PartLayout) (d e : Device) (bytes : List ℕ) → pages_of second ≡ pages_of first → IsRaw first d bytes → IsRawFlash second bytes e → image_of e ≡ image_of (without_wear d) }
{}

/// A flash over a part that holds these bytes has the sizes and shows the pages of the flash whose bytes
/// they are.
pub fn part_law()
    ensures sizes { (d e : Device) (bytes : List ℕ) → IsRaw PartLayout.Sure d bytes → sure.IsOver (held_in bytes) (32 * d.geometry.blocks) e → e.geometry ≡ d.geometry }
    ensures pages { (d e : Device) (bytes : List ℕ) → IsRaw PartLayout.Sure d bytes → sure.IsOver (held_in bytes) (32 * d.geometry.blocks) e → (p : ℕ) → p < page_count d.geometry → e.pages p ≡ d.pages p }
    ensures dense_sizes { (layout : DenseLayout) (d e : Device) (bytes : List ℕ) → IsRaw (PartLayout.Dense layout) d bytes → dense.IsOver layout.sectors (held_in bytes) (16 * layout.sectors * d.geometry.blocks) e → e.geometry ≡ d.geometry }
    ensures dense_pages { (layout : DenseLayout) (d e : Device) (bytes : List ℕ) → IsRaw (PartLayout.Dense layout) d bytes → dense.IsOver layout.sectors (held_in bytes) (16 * layout.sectors * d.geometry.blocks) e → (p : ℕ) → p < page_count d.geometry → e.pages p ≡ d.pages p }
{}
