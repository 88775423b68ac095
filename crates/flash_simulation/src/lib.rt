//! A flash in memory that fails as planned, and image files: the one spelling of each such flash as bytes.
//!
//! An image is `UFFSIMG1`, the bytes of a page, the pages of a block and the number of blocks, four
//! bytes each, the lowest first; then for each block a byte, 1 where it is worn and 0 where not, and
//! its pages. A page is the byte 0 where it is erased, the byte 1 and its bytes where it holds data,
//! and the byte 2 where it is unreadable. Plan and power are not kept.
#![tactic(auto)]

mod image_decoding;
mod image_encoding;
mod image_fault;
mod laws_of_images;
mod plan;
mod sim_flash;
mod sim_pages;

pub use image_decoding::decode;
pub use image_encoding::encode;
pub use image_fault::ImageFault;
pub use laws_of_images::{
    each_flash_has_an_image, faults_are_told_apart, images_are_short, images_are_told_apart,
};
pub use sim_flash::SimFlash;
