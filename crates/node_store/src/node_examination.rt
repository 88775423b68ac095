//! Examining the node of a block: each of its pages is read, and one of a body is not kept.
ghost use Rattle.std.specs.Prelude.{◌≡◌, ℕ, ◌+◌, ◌-◌, ◌≤◌, ◌<◌, ◌==◌, true, false, List, [], length, Some, Err, OnOk, IfOk, IfErr, IfSome, IfNone, vec_len};
ghost use Rattle.flash_model.specs.Geometry.{IsGeometry, block_bytes, page_count};
ghost use Rattle.flash_model.specs.Reading.{OnlyReads};
ghost use Rattle.node_store.specs.NodeCache.{first_bytes};
ghost use Rattle.node_format.specs.Headers.{field, body_magic, body_header, node_size};
ghost use Rattle.node_store.specs.Caching.{BringsOrWants};
ghost use Rattle.nodes.specs.PageCounts.{most_pages, pages_for};
ghost use Rattle.nodes.specs.Parts.{HasBodyHeader};
ghost use Rattle.node_store.specs.Fitting.{Fits, StillFits};
ghost use Rattle.node_store.specs.Fronts.{first_page};
ghost use Rattle.node_store.specs.NodePages.{joined, bytes_at, node_of};
ghost use Rattle.node_store.specs.Reading.{Brings};

use crate::node_reads::{finish_node, read_page, read_size};
use crate::storage::Storage;
use fields::u32_at;
use flash_model::Flash;
use fs_types::Fault;
use std::alloc::Global;

/// The first bytes of a node of a body.
const BODY_MAGIC: [u8; 4] = *b"UFNB";

/// Whether a node that begins so is one of a body.
fn begins_body(front: &[u8]) -> bool
    ensures { result ≡ (field front.now 0 == body_magic) }
{
    u32_at(front, 0) == u32::from_le_bytes(BODY_MAGIC)
}

/// Reads the pages of a node of this size behind its first one, which is read, and keeps none of them.
fn check_sized<F: Flash>(
    flash: &mut F,
    first: u32,
    size: u32,
    page: &mut Vec<u8>,
) -> Result<(), Fault>
    // The pages that the node needs are in the flash, and the first one is read.
    requires lawful { IsGeometry (F.device flash.old).geometry }
    requires in_range { first + pages_for (F.device flash.old).geometry.page size ≤ page_count (F.device flash.old).geometry }
    requires whole { vec_len page.old ≡ (F.device flash.old).geometry.page }
    requires begun { joined (F.device flash.old).pages first 1 ≡ Some page.old.items }
    requires some { 0 < pages_for (F.device flash.old).geometry.page size }

    // They have data, or why that is not told.
    ensures there { OnOk result ((bytes : List ℕ) × (bytes_at (F.device flash.old).geometry (F.device flash.old).pages first size ≡ Some bytes)) }
    ensures refuses { IfErr result (λ fault. Brings (F.device flash.old) (F.device flash.new) (bytes_at (F.device flash.old).geometry (F.device flash.old).pages first size) [] (Err fault)) }

    // Each other page is read once at most.
    ensures only_reads { OnlyReads (F.device flash.old) (F.device flash.new) }
    ensures page { vec_len page.new ≡ vec_len page.old }
    ensures operations { (F.device flash.new).operations ≤ (F.device flash.old).operations + (pages_for (F.device flash.old).geometry.page size - 1) }
{
    let count = size.div_ceil(flash.geometry().page);
    for place in 1..count {
        read_page(flash, first + place, page)?;
    }
    Ok(())
}

/// Reads the rest of the node of a block, whose first page tells this size, and keeps none of it.
fn check_rest<F: Flash>(
    flash: &mut F,
    block: u32,
    size: u32,
    page: &mut Vec<u8>,
) -> Result<(), Fault>
    requires lawful { IsGeometry (F.device flash.old).geometry }
    requires whole { vec_len page.old ≡ (F.device flash.old).geometry.page }
    requires begun { first_page (F.device flash.old) block ≡ Some page.old.items }
    requires size { node_size (block_bytes (F.device flash.old).geometry) page.old.items ≡ Some size }

    // There is a node, or why that is not told.
    ensures there { OnOk result ((bytes : List ℕ) × (node_of (F.device flash.old) block ≡ Some bytes)) }
    ensures refuses { IfErr result (λ fault. Brings (F.device flash.old) (F.device flash.new) (node_of (F.device flash.old) block) [] (Err fault)) }

    // Each other page is read once at most.
    ensures only_reads { OnlyReads (F.device flash.old) (F.device flash.new) }
    ensures page { vec_len page.new ≡ vec_len page.old }
    ensures operations { (F.device flash.new).operations ≤ (F.device flash.old).operations + (pages_for (F.device flash.old).geometry.page size - 1) }
{
    let first = flash.geometry().page_number(block, 0);
    check_sized(flash, first, size, page)
}

/// Reads the node of a block: each of its pages once. One of a body is not kept, and its header is
/// copied out; any other is answered.
fn read_unless_body<F: Flash>(
    flash: &mut F,
    block: u32,
    page: &mut Vec<u8>,
    header: &mut [u8],
    alloc: Global,
) -> Result<Option<Vec<u8>>, Fault>
    requires lawful { IsGeometry (F.device flash.old).geometry }
    requires whole { vec_len page.old ≡ (F.device flash.old).geometry.page }
    requires sized { length header.old ≡ body_header }

    // The node, or the header of one of a body, or why there is none.
    ensures node { IfOk result (λ found. IfSome found (λ node. node_of (F.device flash.old) block ≡ Some node.items)) }
    ensures header { IfOk result (λ found. IfNone found (HasBodyHeader (node_of (F.device flash.old) block) header.new)) }
    ensures refuses { IfErr result (λ fault. (shown : List ℕ) → BringsOrWants (F.device flash.old) (F.device flash.new) (node_of (F.device flash.old) block) shown (Err fault)) }

    // Each page is read once at most.
    ensures only_reads { OnlyReads (F.device flash.old) (F.device flash.new) }
    ensures page { vec_len page.new ≡ vec_len page.old }
    ensures operations { (F.device flash.new).operations ≤ (F.device flash.old).operations + most_pages (F.device flash.old).geometry.page (block_bytes (F.device flash.old).geometry) (node_of (F.device flash.old) block) }
{
    let size = read_size(flash, block, page)?;
    if begins_body(page) {
        header.copy_from_slice(&page[..header.len()]);
        check_rest(flash, block, size, page)?;
        return Ok(None);
    }
    let node = finish_node(flash, block, size, page, alloc)?;
    Ok(Some(node))
}

/// Examines the node of a block, and answers whether it is listed first then. A listed one is answered
/// without the device. Of another each page is read, and it is listed unless it is one of a body, of which
/// the header is copied out.
pub fn examine_node<F: Flash>(
    flash: &mut F,
    storage: &mut Storage,
    block: u32,
    header: &mut [u8],
) -> Result<bool, Fault>
    requires lawful { IsGeometry (F.device flash.old).geometry }
    requires fits { Fits (F.device flash.old) storage.old }
    requires sized { length header.old ≡ body_header }

    // What is brought, or why not.
    ensures listed { IfOk result (λ is_listed. is_listed ≡ true → node_of (F.device flash.old) block ≡ Some (first_bytes storage.new.cache.entries)) }
    ensures header { IfOk result (λ is_listed. is_listed ≡ false → HasBodyHeader (node_of (F.device flash.old) block) header.new × (storage.new.cache ≡ storage.old.cache)) }
    ensures refuses { IfErr result (λ fault. (shown : List ℕ) → BringsOrWants (F.device flash.old) (F.device flash.new) (node_of (F.device flash.old) block) shown (Err fault)) }

    // What stays, and that each page is read once at most.
    ensures fits { StillFits (F.device flash.old) storage.old (F.device flash.new) storage.new }
    ensures only_reads { OnlyReads (F.device flash.old) (F.device flash.new) }
    ensures bad { storage.new.bad ≡ storage.old.bad }
    ensures ring { storage.new.ring ≡ storage.old.ring }
    ensures operations { (F.device flash.new).operations ≤ (F.device flash.old).operations + most_pages (F.device flash.old).geometry.page (block_bytes (F.device flash.old).geometry) (node_of (F.device flash.old) block) }
    ensures most { (F.device flash.new).operations ≤ (F.device flash.old).operations + (F.device flash.old).geometry.pages }
{
    if storage.cache.promote(block) {
        return Ok(true);
    }
    let alloc = *storage.page.allocator();
    let found = read_unless_body(flash, block, &mut storage.page, header, alloc)?;
    let Some(node) = found else {
        return Ok(false);
    };
    storage.cache.list(block, node)?;
    Ok(true)
}
