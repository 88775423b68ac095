//! The flash that an image spells.
ghost use Rattle.std.specs.Prelude.{◌≡◌, ◌⊎◌, ◌*◌, ◌<◌, ◌++◌, [], length, IfOk, IfErr, IfSome, IfNone, OnOk, OnErr, MatchResult, true};
ghost use Rattle.flash_model.specs.Geometry.{IsGeometry};
ghost use Rattle.flash_model.specs.Device.{Device};
ghost use Rattle.flash_model.specs.Contents.{IsWhole, shown_page};
ghost use Rattle.flash_simulation.specs.Simulation.{IsNew, device_of, plan_of};
ghost use Rattle.flash_model.specs.Plan.{plan_of_entries};
ghost use Rattle.flash_simulation.specs.Images.{magic, header, parts, page_text, worn_text, place_text, block_text, blocks_text, image_of, AreSizes, HasImage, IsFault, HoldsTheSame, IsFresh};
ghost use Rattle.flash_simulation.specs.declared.image_fault.ImageFault.{ImageFault};
ghost use Rattle.flash_simulation.specs.ImageReading.{WornFault, PageFault, PagesFault, BlockFault, BlocksFault, FillsPages, FillsBlocks};

use crate::image_encoding::MAGIC;
use crate::image_fault::ImageFault;
use crate::sim_flash::SimFlash;
use fields::read_u32;
use flash_model::{Flash, Geometry, PageView};
use fs_types::Fault;
use std::alloc::Global;

/// The bytes after the first eight of an image.
fn after_magic(bytes: &[u8]) -> Result<&[u8], ImageFault>
    ensures ok { IfOk result (λ rest. bytes.now ≡ magic ++ rest.now) }
    ensures err { IfErr result (λ fault. IsFault fault bytes.now) }
{
    if bytes.starts_with(&MAGIC) {
        Ok(&bytes[MAGIC.len()..])
    } else if MAGIC.starts_with(bytes) {
        Err(ImageFault::Truncated)
    } else {
        Err(ImageFault::NotImage)
    }
}

/// The sizes of the flash, and the bytes after them. None where they are not whole.
fn sizes_at(bytes: &[u8]) -> Option<(Geometry, &[u8])>
    ensures found { IfSome result (λ x. magic ++ bytes.now ≡ header x.0 ++ x.1.now) }
    ensures fit { IfSome result (λ x. AreSizes x.0) }
    ensures none { IfNone result (length bytes.now < 12) }
{
    let (page, rest) = read_u32(bytes)?;
    let (pages, rest) = read_u32(rest)?;
    let (blocks, rest) = read_u32(rest)?;
    let sizes = Geometry {
        page,
        pages,
        blocks,
    };
    Some((sizes, rest))
}

/// A flash of these sizes in which all pages are erased.
fn fresh(alloc: Global, sizes: Geometry) -> Result<SimFlash, ImageFault>
    ensures new { IfOk result (λ flash. IsNew sizes (device_of flash)) }
    ensures plan { IfOk result (λ flash. plan_of flash ≡ plan_of_entries []) }
    ensures lawful { OnOk result (IsGeometry sizes) }
    ensures err { IfErr result (λ fault. (fault ≡ ImageFault.Memory) ⊎ ((fault ≡ ImageFault.BadGeometry) × (¬ IsGeometry sizes))) }
{
    match SimFlash::new(alloc, sizes, &[]) {
        Ok(flash) => Ok(flash),
        Err(Fault::BadGeometry) => Err(ImageFault::BadGeometry),
        Err(_) => Err(ImageFault::Memory),
    }
}

/// Whether a block is worn, and the bytes after it.
fn worn_at(bytes: &[u8]) -> Result<(bool, &[u8]), ImageFault>
    ensures ok { IfOk result (λ x. bytes.now ≡ worn_text x.0 ++ x.1.now) }
    ensures err { IfErr result (λ fault. WornFault fault bytes.now) }
{
    match bytes {
        [] => Err(ImageFault::Truncated),
        [0, rest @ ..] => Ok((false, rest)),
        [1, rest @ ..] => Ok((true, rest)),
        [_, ..] => Err(ImageFault::BadState),
    }
}

/// A page of so many bytes, and the bytes after it.
fn page_at(size: usize, bytes: &[u8]) -> Result<(PageView<'_>, &[u8]), ImageFault>
    ensures ok { IfOk result (λ x. bytes.now ≡ page_text (shown_page x.0) ++ x.1.now) }
    ensures whole { IfOk result (λ x. IsWhole size (shown_page x.0)) }
    ensures err { IfErr result (λ fault. PageFault size fault bytes.now) }
{
    match bytes {
        [] => Err(ImageFault::Truncated),
        [0, rest @ ..] => Ok((PageView::Erased, rest)),
        [1, rest @ ..] => {
            if rest.len() < size {
                return Err(ImageFault::Truncated);
            }
            let (data, rest) = rest.split_at(size);
            Ok((PageView::Data(data), rest))
        }
        [2, rest @ ..] => Ok((PageView::Unreadable, rest)),
        [_, ..] => Err(ImageFault::BadState),
    }
}

/// Puts the pages of a block into the flash, and gives the bytes after them.
fn read_pages<'a>(flash: &mut SimFlash, block: u32, bytes: &'a [u8]) -> Result<&'a [u8], ImageFault>
    requires { block < (device_of flash.old).geometry.blocks }
    ensures ok { IfOk result (λ rest. bytes.now ≡ parts (device_of flash.new).geometry.pages (place_text (device_of flash.new) block) ++ rest.now) }
    ensures err { IfErr result (λ fault. PagesFault (device_of flash.new) block fault bytes.now) }
    ensures fills { FillsPages (device_of flash.old) (block * (device_of flash.old).geometry.pages) (device_of flash.new) }
    ensures plan { plan_of flash.new ≡ plan_of flash.old }
{
    let sizes = flash.geometry();
    let mut rest = bytes;
    for place in 0..sizes.pages {
        let (page, after) = page_at(sizes.page as usize, rest)?;
        flash.set_page(sizes.page_number(block, place), page);
        rest = after;
    }
    Ok(rest)
}

/// Puts a block into the flash, and gives the bytes after it.
fn read_block<'a>(flash: &mut SimFlash, block: u32, bytes: &'a [u8]) -> Result<&'a [u8], ImageFault>
    requires { block < (device_of flash.old).geometry.blocks }
    ensures ok { IfOk result (λ rest. bytes.now ≡ block_text (device_of flash.new) block ++ rest.now) }
    ensures err { IfErr result (λ fault. BlockFault (device_of flash.new) block fault bytes.now) }
    ensures fills { FillsBlocks (device_of flash.old) block (device_of flash.new) }
    ensures plan { plan_of flash.new ≡ plan_of flash.old }
{
    let (is_worn, rest) = worn_at(bytes)?;
    flash.set_worn(block, is_worn);
    read_pages(flash, block, rest)
}

/// Puts all blocks into the flash, and gives the bytes after them.
fn read_blocks<'a>(flash: &mut SimFlash, bytes: &'a [u8]) -> Result<&'a [u8], ImageFault>
    ensures ok { IfOk result (λ rest. bytes.now ≡ blocks_text (device_of flash.new) ++ rest.now) }
    ensures err { IfErr result (λ fault. BlocksFault (device_of flash.new) fault bytes.now) }
    ensures fills { FillsBlocks (device_of flash.old) 0 (device_of flash.new) }
    ensures plan { plan_of flash.new ≡ plan_of flash.old }
{
    let mut rest = bytes;
    for block in 0..flash.geometry().blocks {
        rest = read_block(flash, block, rest)?;
    }
    Ok(rest)
}

/// The flash that the bytes spell, or what is wrong with them.
fn read_image(alloc: Global, bytes: &[u8]) -> Result<SimFlash, ImageFault>
    ensures spelled { IfOk result (λ flash. bytes.now ≡ image_of (device_of flash)) }
    ensures ready { IfOk result (λ flash. IsFresh (device_of flash)) }
    ensures plan { IfOk result (λ flash. plan_of flash ≡ plan_of_entries []) }
    ensures fault { IfErr result (λ fault. (fault ≡ ImageFault.Memory) ⊎ IsFault fault bytes.now) }
{
    let rest = after_magic(bytes)?;
    let Some((sizes, rest)) = sizes_at(rest) else {
        return Err(ImageFault::Truncated);
    };
    let mut flash = fresh(alloc, sizes)?;
    let rest = read_blocks(&mut flash, rest)?;
    if !rest.is_empty() {
        return Err(ImageFault::Trailing);
    }
    Ok(flash)
}

/// The flash that the bytes spell, with its sizes, pages and worn blocks. Its power is on, no fault is
/// planned, and nothing has happened to it yet.
///
/// It has the room of `SimFlash::new`: for all pages, and for a plan of 64 entries. Of what is wrong
/// with the bytes the first fault from the left is told.
pub fn decode(alloc: Global, bytes: &[u8]) -> Result<SimFlash, ImageFault>
    // What is read is spelled so.
    ensures spelled { IfOk result (λ flash. bytes.now ≡ image_of (device_of flash)) }
    // What is spelled so is read, unless memory could not be had.
    ensures read { (d : Device) → HasImage d → bytes.now ≡ image_of d
        → MatchResult result (λ flash. HoldsTheSame d (device_of flash)) (λ fault. fault ≡ ImageFault.Memory) }
    ensures ready { IfOk result (λ flash. IsFresh (device_of flash)) }
    ensures plan { IfOk result (λ flash. plan_of flash ≡ plan_of_entries []) }
    // Which fault it is.
    ensures fault { IfErr result (λ fault. (fault ≡ ImageFault.Memory) ⊎ IsFault fault bytes.now) }
    // Bytes with a fault are not read, and it is the fault that is told, unless memory could not be had.
    ensures found { (fault : ImageFault) → IsFault fault bytes.now
        → MatchResult result (λ _. ⊥) (λ found. (found ≡ ImageFault.Memory) ⊎ (found ≡ fault)) }
{
    read_image(alloc, bytes)
}
