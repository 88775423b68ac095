//! How much of a file is read.
ghost use Rattle.std.specs.Prelude.{◌≡◌};

use crate::image_files::MOST_BYTES;

/// The limit as its number.
pub fn read_limit_law()
    ensures { MOST_BYTES ≡ 134217729 }
{}
