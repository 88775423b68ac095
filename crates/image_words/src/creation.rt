//! What an image is made of, and what it is to have.
ghost use Rattle.std.specs.Prelude.{◌≡◌, map};
ghost use Rattle.host_interface.specs.Sources.{source_found};
ghost use Rattle.image_words.specs.Creations as spec;

use flash_model::Geometry;
use host_interface::Source;
use image_sizes::blocks_for;

/// What a new image is to have.
#[derive(Clone, Copy)]
pub struct NewImage {
    /// Bytes of a page.
    pub page: u32,
    /// Pages of a block.
    pub pages: u32,
    /// Blocks of the flash; none where they are as many as what is put wants, up to the most there may be.
    pub blocks: Option<u32>,
    /// Versions that are kept.
    pub history: u32,
}

/// What an image is made of.
#[derive(Clone, Copy)]
pub struct Creation<'a> {
    /// The folder of the host.
    pub folder: &'a str,
    /// What the image is to have.
    pub image: NewImage,
    /// Whether links are left out.
    pub skip_links: bool,
    /// Whether progress is told.
    pub progress: bool,
}

/// The sizes of a new image for these sources.
pub(crate) fn sizes_of(image: NewImage, sources: &[Source]) -> Geometry
    ensures { result ≡ spec.sizes_of image (map source_found sources.now) }
{
    let sizes = Geometry {
        page: image.page,
        pages: image.pages,
        blocks: 0,
    };
    let blocks = match image.blocks {
        Some(blocks) => blocks,
        None => blocks_for(sizes, image.history, sources),
    };
    Geometry { blocks, ..sizes }
}
