//! Why there is no image, or no flash.
ghost use Rattle.std.specs.Prelude.{◌≡◌};
ghost use Rattle.flash_simulation.specs.declared.image_fault.ImageFault.TheVariants.{Memory};

use std::alloc::{AllocError, AllocFailed};
use std::error::Error;
use std::fmt;

/// Why there is no image, or no flash. Faults of the bytes are found from left to right.
#[derive(Clone, Copy, Debug, PartialEq, Eq)]
pub enum ImageFault {
    /// One of the first eight bytes is not that of an image.
    NotImage,
    /// The sizes of the flash are not lawful.
    BadGeometry,
    /// A block is neither worn nor not worn, or a page has no known state.
    BadState,
    /// The bytes end inside the image.
    Truncated,
    /// Bytes stand after the last page.
    Trailing,
    /// Memory could not be had.
    Memory,
}

impl ImageFault {
    /// What it means, in words.
    fn text(self) -> &'static str {
        match self {
            ImageFault::NotImage => "NotImage",
            ImageFault::BadGeometry => "BadGeometry",
            ImageFault::BadState => "BadState",
            ImageFault::Truncated => "Truncated",
            ImageFault::Trailing => "Trailing",
            ImageFault::Memory => "Memory",
        }
    }
}

impl From<AllocError> for ImageFault {
    ghost from_gives = { λ _ fault. fault ≡ Memory };

    fn from(_error: AllocError) -> ImageFault {
        ImageFault::Memory
    }
}

impl<T: Drop> From<AllocFailed<T>> for ImageFault {
    ghost from_gives = { λ _ fault. fault ≡ Memory };

    fn from(_failed: AllocFailed<T>) -> ImageFault {
        ImageFault::Memory
    }
}

impl fmt::Display for ImageFault {
    fn fmt<W: fmt::Write>(&self, f: &mut fmt::Formatter<W>) -> fmt::Result {
        f.write_str(self.text())
    }
}

impl Error for ImageFault {}
