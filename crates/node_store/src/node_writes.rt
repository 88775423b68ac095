//! Writing bytes to a block: its erase, and the programs of the pages that the bytes need.
ghost use Rattle.std.specs.Prelude.{◌≡◌, ℕ, ◌+◌, ◌*◌, ◌≤◌, ◌<◌, ◌++◌, length, take, replicate, vec_len};
ghost use Rattle.flash_model.specs.Device.{erased};
ghost use Rattle.flash_model.specs.Geometry.{IsGeometry, block_bytes};
ghost use Rattle.nodes.specs.PageCounts.{pages_for};
ghost use Rattle.node_store.specs.Writing.{WritesBlock};

use flash_model::{DevFault, Flash};

/// Fills a page with bytes, as many as there are and fit, and with zeros behind them.
fn fill_page(page: &mut [u8], bytes: &[u8])
    ensures filled { page.new ≡ take (length page.old) (bytes.now ++ replicate (length page.old) 0) }
{
    let count = bytes.len().min(page.len());
    page[..count].copy_from_slice(&bytes[..count]);
    page[count..].fill(0);
}

/// Programs the pages that the bytes need, from place 0 of the block on.
fn write_pages<F: Flash>(
    flash: &mut F,
    block: u32,
    page: &mut Vec<u8>,
    bytes: &[u8],
) -> Result<(), DevFault>
    requires lawful { IsGeometry (F.device flash.old).geometry }
    requires in_range { block < (F.device flash.old).geometry.blocks }
    requires whole { vec_len page.old ≡ (F.device flash.old).geometry.page }
    requires fits { length bytes.now ≤ block_bytes (F.device flash.old).geometry }

    // The pages are erased, and are programmed.
    requires blank { (j : ℕ) → j < (F.device flash.old).geometry.pages → (F.device flash.old).pages (block * (F.device flash.old).geometry.pages + j) ≡ erased }
    ensures writes { WritesBlock (F.device flash.old) block bytes.now (F.device flash.new) result }
    ensures page { vec_len page.new ≡ vec_len page.old }
    ensures operations { (F.device flash.new).operations ≤ (F.device flash.old).operations + pages_for (F.device flash.old).geometry.page (length bytes.now) }
{
    let geometry = flash.geometry();
    let count = bytes.len().div_ceil(geometry.page as usize);
    for place in 0..count {
        fill_page(page, &bytes[place * geometry.page as usize..]);
        flash.program(geometry.page_number(block, place as u32), page)?;
    }
    Ok(())
}

/// Erases a block and writes bytes to it: one erase, and one program for each page that they need.
pub fn write_block<F: Flash>(
    flash: &mut F,
    block: u32,
    page: &mut Vec<u8>,
    bytes: &[u8],
) -> Result<(), DevFault>
    requires lawful { IsGeometry (F.device flash.old).geometry }
    requires in_range { block < (F.device flash.old).geometry.blocks }
    requires whole { vec_len page.old ≡ (F.device flash.old).geometry.page }
    requires fits { length bytes.now ≤ block_bytes (F.device flash.old).geometry }
    ensures writes { WritesBlock (F.device flash.old) block bytes.now (F.device flash.new) result }
    ensures page { vec_len page.new ≡ vec_len page.old }
    ensures operations { (F.device flash.new).operations ≤ (F.device flash.old).operations + (1 + pages_for (F.device flash.old).geometry.page (length bytes.now)) }
{
    flash.erase(block)?;
    write_pages(flash, block, page, bytes)
}
