//! What is taken of the bytes of a serial NOR part.
ghost use Rattle.std.specs.Prelude.{◌≡◌, ◌⊎◌, ℕ, List, IfSome, IfNone, IfOk, IfErr};
ghost use Rattle.flash_simulation.specs.Simulation.{device_of};
ghost use Rattle.image_words.specs.RawImages.{AsksLayout, IsTaken, IsTakenFlash, TakenCause};
ghost use Rattle.raw_part.specs.declared.part_layout.PartLayout.{PartLayout};

use flash_simulation::SimFlash;
use fs_types::Fault;
use image_jobs::Failure;
use raw_part::{PartLayout, flash_of_raw};
use std::alloc::Global;

/// The sizes that are asked for of the flash on a part.
#[derive(Clone, Copy)]
pub struct RawSizes {
    /// Bytes of a page.
    pub page: u32,
    /// Pages of a block.
    pub pages: u32,
    /// Blocks, the first ones of the part; none where all are taken.
    pub blocks: Option<u32>,
}

/// The layout that has the sizes that are asked for; none where no layout has them.
pub(crate) fn layout_asked(sizes: RawSizes) -> Option<PartLayout>
    ensures some { IfSome result (AsksLayout sizes) }
    ensures none { IfNone result ((layout : PartLayout) → ¬ AsksLayout sizes layout) }
{
    if sizes.page != 256 {
        return None;
    }
    PartLayout::of_pages(sizes.pages)
}

/// The flash on the first blocks of the part that bytes are of, or on all of it. `BadGeometry` where there
/// are fewer blocks, or not as many as a flash may have.
pub(crate) fn flash_of_taken(
    alloc: Global,
    bytes: &[u8],
    layout: PartLayout,
    blocks: Option<u32>,
) -> Result<SimFlash, Failure>
    ensures ok { IfOk result (λ flash. IsTakenFlash layout blocks bytes.now (device_of flash)) }
    ensures err { IfErr result (TakenCause layout blocks bytes.now) }
{
    let part = match take_blocks(bytes, layout, blocks) {
        Some(part) => part,
        None => return Err(Failure::System(Fault::BadGeometry)),
    };
    match flash_of_raw(alloc, part, layout) {
        Ok(flash) => Ok(flash),
        Err(fault) => Err(Failure::of_system(fault)),
    }
}

/// The bytes of the first blocks, or all where no number is asked for; none where there are fewer.
fn take_blocks(bytes: &[u8], layout: PartLayout, blocks: Option<u32>) -> Option<&[u8]>
    ensures some { IfSome result (λ part. IsTaken layout blocks bytes.now part.now) }
    ensures none { IfNone result ((part : List ℕ) → IsTaken layout blocks bytes.now part → ⊥) }
{
    let Some(blocks) = blocks else {
        return Some(bytes);
    };
    let count = layout.part_block() * blocks as usize;
    if bytes.len() < count {
        return None;
    }
    Some(&bytes[..count])
}
