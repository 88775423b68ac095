//! Reading a part of the node of a block: the pages that hold it, one at a time.
ghost use Rattle.std.specs.Prelude.{◌≡◌, ◌≢◌, ℕ, ◌+◌, ◌-◌, ◌*◌, ◌≤◌, ◌<◌, List, [], length, take, drop, Some, Err, OnOk, IfErr, vec_len};
ghost use Rattle.flash_model.specs.Geometry.{IsGeometry, page_count, block_bytes};
ghost use Rattle.flash_model.specs.Reading.{OnlyReads};
ghost use Rattle.node_store.specs.NodeCache.{node_in};
ghost use Rattle.node_store.specs.Caching.{Fetches};
ghost use Rattle.node_store.specs.Fitting.{Fits, StillFits};
ghost use Rattle.node_store.specs.NodePages.{joined, node_of};
ghost use Rattle.nodes.specs.PageCounts.{pages_for, pages_of_range};
ghost use Rattle.node_store.specs.Parts.{RefusesPart, ReadsPart};
ghost use Rattle.nodes.specs.Parts.{HasPart};
ghost use Rattle.node_store.specs.Reading.{Brings};

use crate::cached_reads::fetch_node;
use crate::node_reads::read_page;
use crate::storage::Storage;
use flash_model::Flash;
use fs_types::{ANCHORS, Fault};

/// Copies the bytes of a page, the first of which is the byte `begin` of its block, to their places in
/// the bytes of the block from an offset on.
fn copy_page(page: &[u8], begin: usize, offset: usize, out: &mut [u8])
    requires before { begin ≤ offset + length out.old }
    requires behind { offset ≤ begin + length page.now }
    ensures { (all : List ℕ) → page.now ≡ take (length page.now) (drop begin all) → offset + length out.old ≤ length all
        → take (begin - offset) out.old ≡ take (begin - offset) (take (length out.old) (drop offset all))
        → take (begin + length page.now - offset) out.new ≡ take (begin + length page.now - offset) (take (length out.old) (drop offset all)) }
{
    let done = begin.saturating_sub(offset);
    let skip = offset.saturating_sub(begin);
    let count = (page.len() - skip).min(out.len() - done);
    out[done..done + count].copy_from_slice(&page[skip..skip + count]);
}

/// Fills a slice with the bytes of a block, the first page of which has this number, from an offset on.
fn read_pages<F: Flash>(
    flash: &mut F,
    first: u32,
    offset: u32,
    page: &mut Vec<u8>,
    out: &mut [u8],
) -> Result<(), Fault>
    requires lawful { IsGeometry (F.device flash.old).geometry }
    requires in_range { first + (F.device flash.old).geometry.pages ≤ page_count (F.device flash.old).geometry }
    requires within { offset + length out.old ≤ block_bytes (F.device flash.old).geometry }
    requires whole { vec_len page.old ≡ (F.device flash.old).geometry.page }

    // The bytes, where all pages up to the last of theirs have data, or why not.
    ensures copied { OnOk result ((n : ℕ) (all : List ℕ) → joined (F.device flash.old).pages first n ≡ Some all → offset + length out.old ≤ length all → out.new ≡ take (length out.old) (drop offset all)) }
    ensures refuses { IfErr result (λ fault. Brings (F.device flash.old) (F.device flash.new) (joined (F.device flash.old).pages first (pages_for (F.device flash.old).geometry.page (offset + length out.old))) [] (Err fault)) }

    // Each page that holds them is read once.
    ensures only_reads { OnlyReads (F.device flash.old) (F.device flash.new) }
    ensures page { vec_len page.new ≡ vec_len page.old }
    ensures operations { (F.device flash.new).operations ≤ (F.device flash.old).operations + pages_of_range (F.device flash.old).geometry.page offset (length out.old) }
{
    let size = flash.geometry().page;
    let end = offset + out.len() as u32;
    for place in offset / size..end.div_ceil(size) {
        read_page(flash, first + place, page)?;
        copy_page(page, (place * size) as usize, offset as usize, out);
    }
    Ok(())
}

/// Fills a slice with the bytes of the node of a block from an offset on: each page that holds them is
/// read once.
pub fn read_part<F: Flash>(
    flash: &mut F,
    block: u32,
    offset: u32,
    page: &mut Vec<u8>,
    out: &mut [u8],
) -> Result<(), Fault>
    requires lawful { IsGeometry (F.device flash.old).geometry }
    requires within { offset + length out.old ≤ block_bytes (F.device flash.old).geometry }
    requires whole { vec_len page.old ≡ (F.device flash.old).geometry.page }

    // The bytes, or why not.
    ensures copied { OnOk result (HasPart (node_of (F.device flash.old) block) offset (length out.old) out.new) }
    ensures refuses { IfErr result (RefusesPart (F.device flash.old) (F.device flash.new) (node_of (F.device flash.old) block) offset (length out.old)) }

    // Each page that holds them is read once.
    ensures only_reads { OnlyReads (F.device flash.old) (F.device flash.new) }
    ensures page { vec_len page.new ≡ vec_len page.old }
    ensures operations { (F.device flash.new).operations ≤ (F.device flash.old).operations + pages_of_range (F.device flash.old).geometry.page offset (length out.old) }
{
    let geometry = flash.geometry();
    if block < ANCHORS || geometry.blocks <= block {
        return Err(Fault::Damaged);
    }
    read_pages(flash, geometry.page_number(block, 0), offset, page, out)
}

/// Fills a slice with the bytes of a node from an offset on, where it has so many.
pub fn copy_part(node: &[u8], offset: u32, out: &mut [u8])
    ensures { HasPart (Some node.now) offset (length out.old) out.new }
{
    let from = offset as usize;
    if from <= node.len() && out.len() <= node.len() - from {
        out.copy_from_slice(&node[from..from + out.len()]);
    }
}

/// Reads the node of a block that is not listed, lists it first, and fills a slice with its bytes from an
/// offset on.
fn fetch_part<F: Flash>(
    flash: &mut F,
    storage: &mut Storage,
    block: u32,
    offset: u32,
    out: &mut [u8],
) -> Result<(), Fault>
    requires lawful { IsGeometry (F.device flash.old).geometry }
    requires fits { Fits (F.device flash.old) storage.old }
    requires unlisted { node_in storage.old.cache block ≡ None }

    // The bytes, or why not, and what is listed.
    ensures copied { OnOk result (HasPart (node_of (F.device flash.old) block) offset (length out.old) out.new) }
    ensures refuses { IfErr result (RefusesPart (F.device flash.old) (F.device flash.new) (node_of (F.device flash.old) block) offset (length out.old)) }
    ensures fetches { Fetches (F.device flash.old) storage.old.cache block (F.device flash.new) storage.new.cache result }
    ensures fits { StillFits (F.device flash.old) storage.old (F.device flash.new) storage.new }

    // What stays, and that no more pages are read than a block has.
    ensures only_reads { OnlyReads (F.device flash.old) (F.device flash.new) }
    ensures bad { storage.new.bad ≡ storage.old.bad }
    ensures ring { storage.new.ring ≡ storage.old.ring }
    ensures partly { storage.new.partly ≡ storage.old.partly }
    ensures most { (F.device flash.new).operations ≤ (F.device flash.old).operations + (F.device flash.old).geometry.pages }
{
    fetch_node(flash, storage, block)?;
    copy_part(storage.cache.first(), offset, out);
    Ok(())
}

/// Fills a slice with the bytes of the node of a block from an offset on. A listed node goes first and is
/// answered without the device, and a block of which a part was read last is read whole and listed. Of
/// another block only the pages that hold the bytes are read.
pub fn bring_part<F: Flash>(
    flash: &mut F,
    storage: &mut Storage,
    block: u32,
    offset: u32,
    out: &mut [u8],
) -> Result<(), Fault>
    requires lawful { IsGeometry (F.device flash.old).geometry }
    requires within { offset + length out.old ≤ block_bytes (F.device flash.old).geometry }
    requires fits { Fits (F.device flash.old) storage.old }

    // The bytes, or why not, and what is listed.
    ensures copied { OnOk result (HasPart (node_of (F.device flash.old) block) offset (length out.old) out.new) }
    ensures refuses { IfErr result (RefusesPart (F.device flash.old) (F.device flash.new) (node_of (F.device flash.old) block) offset (length out.old)) }
    ensures reads { ReadsPart (F.device flash.old) storage.old block (F.device flash.new) storage.new result }
    ensures fits { StillFits (F.device flash.old) storage.old (F.device flash.new) storage.new }

    // What stays.
    ensures only_reads { OnlyReads (F.device flash.old) (F.device flash.new) }
    ensures bad { storage.new.bad ≡ storage.old.bad }
    ensures ring { storage.new.ring ≡ storage.old.ring }

    // Each page that holds the bytes is read once, and no more than a block has.
    ensures operations { storage.old.partly ≢ block → (F.device flash.new).operations ≤ (F.device flash.old).operations + pages_of_range (F.device flash.old).geometry.page offset (length out.old) }
    ensures most { (F.device flash.new).operations ≤ (F.device flash.old).operations + (F.device flash.old).geometry.pages }
{
    if storage.cache.promote(block) {
        copy_part(storage.cache.first(), offset, out);
        return Ok(());
    }
    if storage.partly == block {
        storage.partly = 0;
        return fetch_part(flash, storage, block, offset, out);
    }
    storage.partly = block;
    read_part(flash, block, offset, &mut storage.page, out)
}
