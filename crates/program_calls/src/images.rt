//! The bytes of images, written out by hand from docs/format.md.
use flash_model::Geometry;
use std::alloc::{AllocError, Global};

/// The sizes that a flash has unless told.
pub const SIZES: Geometry = Geometry {
    page: 256,
    pages: 16,
    blocks: 32,
};

/// The header of an image of these sizes.
pub const HEADER: [u8; 20] = [
    0x55, 0x46, 0x46, 0x53, 0x49, 0x4d, 0x47, 0x31, 0x00, 0x01, 0x00, 0x00, 0x10, 0x00, 0x00, 0x00,
    0x20, 0x00, 0x00, 0x00,
];

/// The first bytes of page 0 of a formatted flash, after which it has 184 bytes of 0.
pub const RECORD: [u8; 72] = [
    0x55, 0x46, 0x43, 0x52, 0x01, 0x00, 0x00, 0x00, 0x00, 0x00, 0x00, 0x00, 0x00, 0x00, 0x01, 0x00,
    0x34, 0x00, 0x00, 0x00, 0x02, 0x00, 0x00, 0x00, 0x00, 0x01, 0x00, 0x00, 0x10, 0x00, 0x00, 0x00,
    0x20, 0x00, 0x00, 0x00, 0x08, 0x00, 0x00, 0x00, 0x00, 0x01, 0x00, 0x00, 0x00, 0x00, 0x00, 0x00,
    0x02, 0x00, 0x00, 0x00, 0x00, 0x00, 0x00, 0x00, 0x08, 0x00, 0x00, 0x00, 0x01, 0x00, 0x00, 0x00,
    0x00, 0x00, 0x00, 0x00, 0x08, 0x00, 0x00, 0x00,
];

/// The first bytes of page 128 of a formatted flash, after which it has 252 bytes of 0.
pub const NODE: [u8; 4] = [0x55, 0x46, 0x4e, 0x45];

/// A page that begins with these bytes and goes on with 0.
pub fn padded(front: &[u8]) -> [u8; 256] {
    let mut page = [0; 256];
    for (place, byte) in page.iter_mut().zip(front) {
        *place = *byte;
    }
    page
}

/// Adds so many bytes of one kind.
fn push_many(image: &mut Vec<u8>, byte: u8, count: usize) -> Result<(), AllocError> {
    for _ in 0..count {
        image.push(byte)?;
    }
    Ok(())
}

/// The image of a formatted flash as it is written out: no block worn, page 0 and page 128 with data, all
/// others erased.
pub fn fresh_image(alloc: Global) -> Result<Vec<u8>, AllocError> {
    let mut image = Vec::new(alloc);
    image.extend_from_slice(&HEADER)?;
    push_many(&mut image, 0, 1)?;
    push_many(&mut image, 1, 1)?;
    image.extend_from_slice(&padded(&RECORD))?;
    push_many(&mut image, 0, 15)?;
    push_many(&mut image, 0, 7 * 17)?;
    push_many(&mut image, 0, 1)?;
    push_many(&mut image, 1, 1)?;
    image.extend_from_slice(&padded(&NODE))?;
    push_many(&mut image, 0, 15)?;
    push_many(&mut image, 0, 23 * 17)?;
    Ok(image)
}

/// The image of a flash of 16 blocks of 16 pages of 256 bytes, all erased.
pub fn erased_image(alloc: Global) -> Result<Vec<u8>, AllocError> {
    let mut image = Vec::new(alloc);
    image.extend_from_slice(&HEADER[..16])?;
    image.extend_from_slice(&[0x10, 0x00, 0x00, 0x00])?;
    push_many(&mut image, 0, 16 * 17)?;
    Ok(image)
}
