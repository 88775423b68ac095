//! The image of a flash.
ghost use Rattle.std.specs.Prelude.{◌≡◌, ◌≤◌, ◌<◌, [], ◌∷◌, ◌++◌, length, IfOk, IfErr, OnOk};
ghost use Rattle.flash_model.specs.Contents.{shown_page};
ghost use Rattle.flash_simulation.specs.Simulation.{device_of};
ghost use Rattle.flash_simulation.specs.Images.{header, page_text, worn_text, block_text, image_of};

use crate::image_fault::ImageFault;
use crate::sim_flash::SimFlash;
use fields::push_u32;
use flash_model::{Flash, Geometry, PageView};
use std::alloc::{AllocError, Global};

/// The first bytes of an image.
pub(crate) const MAGIC: [u8; 8] = *b"UFFSIMG1";

/// The bytes before the first block.
const HEADER: usize = 20;

/// The image of the flash: its sizes, its worn blocks and its pages. `Memory` alone.
///
/// The room is made at once, as many bytes as the image has.
pub fn encode(alloc: Global, flash: &SimFlash) -> Result<Vec<u8>, ImageFault>
    ensures spelled { IfOk result (λ image. image.items ≡ image_of (device_of flash.now)) }
    ensures memory { IfErr result (λ fault. fault ≡ ImageFault.Memory) }
{
    let sizes = flash.geometry();
    let mut image = Vec::with_capacity(alloc, image_len(flash))?;
    push_header(&mut image, sizes)?;
    for block in 0..sizes.blocks {
        push_block(&mut image, flash, block)?;
    }
    Ok(image)
}

fn push_header(image: &mut Vec<u8>, sizes: Geometry) -> Result<(), AllocError>
    ensures { OnOk result (image.new.items ≡ image.old.items ++ header sizes) }
{
    image.extend_from_slice(&MAGIC)?;
    push_u32(image, sizes.page)?;
    push_u32(image, sizes.pages)?;
    push_u32(image, sizes.blocks)?;
    Ok(())
}

fn push_block(image: &mut Vec<u8>, flash: &SimFlash, block: u32) -> Result<(), AllocError>
    requires { block < (device_of flash.now).geometry.blocks }
    ensures { OnOk result (image.new.items ≡ image.old.items ++ block_text (device_of flash.now) block) }
{
    let sizes = flash.geometry();
    image.push(worn_byte(flash.is_worn(block)))?;
    for place in 0..sizes.pages {
        push_page(image, flash.page(sizes.page_number(block, place)))?;
    }
    Ok(())
}

fn worn_byte(is_worn: bool) -> u8
    ensures { result ∷ [] ≡ worn_text is_worn }
{
    if is_worn { 1 } else { 0 }
}

fn push_page(image: &mut Vec<u8>, page: PageView<'_>) -> Result<(), AllocError>
    ensures { OnOk result (image.new.items ≡ image.old.items ++ page_text (shown_page page.entry)) }
{
    match page {
        PageView::Erased => image.push(0)?,
        PageView::Data(bytes) => {
            image.push(1)?;
            image.extend_from_slice(bytes)?;
        }
        PageView::Unreadable => image.push(2)?,
    }
    Ok(())
}

/// How many bytes the image has.
fn image_len(flash: &SimFlash) -> usize
    ensures { result ≡ length (image_of (device_of flash.now)) }
{
    let mut len = HEADER;
    for block in 0..flash.geometry().blocks {
        len += block_len(flash, block);
    }
    len
}

fn block_len(flash: &SimFlash, block: u32) -> usize
    requires { block < (device_of flash.now).geometry.blocks }
    ensures len { result ≡ length (block_text (device_of flash.now) block) }
    ensures most { result ≤ 4195329 }
{
    let sizes = flash.geometry();
    let mut len = 1;
    for place in 0..sizes.pages {
        len += page_len(flash.page(sizes.page_number(block, place)));
    }
    len
}

fn page_len(page: PageView<'_>) -> usize
    ensures { result ≡ length (page_text (shown_page page.entry)) }
{
    match page {
        PageView::Data(bytes) => 1 + bytes.len(),
        PageView::Erased | PageView::Unreadable => 1,
    }
}
