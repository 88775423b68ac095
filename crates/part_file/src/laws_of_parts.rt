//! The law of the round trip. The function does nothing: its contract is the law.
ghost use Rattle.std.specs.Prelude.{◌≡◌, ℕ, List, Some};
ghost use Rattle.flash_model.specs.Device.{Device};
ghost use Rattle.flash_simulation.specs.Images.{image_of};
ghost use Rattle.part_file.specs.Pages.{IsPart};
ghost use Rattle.part_file.specs.Reading.{IsPartFlash, without_wear};

/// An image that is made a part, of which an image is made, is the same again, but for the blocks that are
/// worn: it tells none. So the sizes, the states of all pages and their bytes stay.
pub fn round_trip_law()
    ensures { (d e : Device) (bytes : List ℕ) → IsPart d bytes → IsPartFlash (Some bytes) e → image_of e ≡ image_of (without_wear d) }
{}
