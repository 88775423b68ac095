//! Reading the node of a block: its pages, one at a time, joined in memory of its own.
ghost use Rattle.std.specs.Prelude.{◌≡◌, ℕ, ◌+◌, ◌-◌, ◌≤◌, ◌<◌, ◌++◌, List, [], length, min, take, Some, Err, OnOk, IfOk, IfErr, vec_len, vec_capacity};
ghost use Rattle.flash_model.specs.Geometry.{IsGeometry, block_bytes, page_count};
ghost use Rattle.node_format.specs.Headers.{node_size};
ghost use Rattle.flash_model.specs.Reading.{OnlyReads};
ghost use Rattle.node_store.specs.Caching.{BringsOrWants};
ghost use Rattle.node_store.specs.Fronts.{first_page};
ghost use Rattle.node_store.specs.NodePages.{and_page, joined, bytes_at, node_of};
ghost use Rattle.nodes.specs.PageCounts.{pages_for};
ghost use Rattle.node_store.specs.Reading.{Brings};

use flash_model::{DevFault, Flash, PageState};
use fs_types::{ANCHORS, Fault};
use node_format::node_size;
use std::alloc::Global;

/// Reads a page that has data.
pub fn read_page<F: Flash>(flash: &mut F, number: u32, page: &mut Vec<u8>) -> Result<(), Fault>
    requires in_range { number < page_count (F.device flash.old).geometry }
    requires whole { vec_len page.old ≡ (F.device flash.old).geometry.page }
    ensures brings { Brings (F.device flash.old) (F.device flash.new) (and_page (Some []) ((F.device flash.old).pages number)) page.new.items result }
    ensures only_reads { OnlyReads (F.device flash.old) (F.device flash.new) }
    ensures page { vec_len page.new ≡ vec_len page.old }
    ensures operations { (F.device flash.new).operations ≤ (F.device flash.old).operations + 1 }
{
    match flash.read(number, page) {
        Ok(PageState::Data) => Ok(()),
        Ok(_) => Err(Fault::Damaged),
        Err(DevFault::Failed) => Err(Fault::ReadFailed),
        Err(DevFault::PowerCut) => Err(Fault::PowerCut),
    }
}

/// Reads the first page of a data block.
pub fn read_first_page<F: Flash>(flash: &mut F, block: u32, page: &mut Vec<u8>) -> Result<(), Fault>
    requires lawful { IsGeometry (F.device flash.old).geometry }
    requires whole { vec_len page.old ≡ (F.device flash.old).geometry.page }
    ensures brings { Brings (F.device flash.old) (F.device flash.new) (first_page (F.device flash.old) block) page.new.items result }
    ensures only_reads { OnlyReads (F.device flash.old) (F.device flash.new) }
    ensures page { vec_len page.new ≡ vec_len page.old }
    ensures operations { (F.device flash.new).operations ≤ (F.device flash.old).operations + 1 }
{
    let geometry = flash.geometry();
    if block < ANCHORS || geometry.blocks <= block {
        return Err(Fault::Damaged);
    }
    read_page(flash, geometry.page_number(block, 0), page)
}

/// Appends to the bytes of a node of this size those that a page has of it.
fn append_part(page: &[u8], size: usize, node: &mut Vec<u8>)
    requires within { length node.old.items ≤ size }
    requires room { size ≤ vec_capacity node.old }
    ensures part { node.new.items ≡ node.old.items ++ take (size - length node.old.items) page.now }
    ensures len { vec_len node.new ≡ min size (vec_len node.old + length page.now) }
    ensures room { vec_capacity node.old ≤ vec_capacity node.new }
{
    let count = page.len().min(size - node.len());
    node.extend_from_slice(&page[..count]).unwrap();
}

/// Reads the node of this size whose first page is read, into memory that is empty and has room for it.
fn read_sized<F: Flash>(
    flash: &mut F,
    first: u32,
    size: u32,
    page: &mut Vec<u8>,
    node: &mut Vec<u8>,
) -> Result<(), Fault>
    // The pages that the node needs are in the flash, and the first one is read.
    requires lawful { IsGeometry (F.device flash.old).geometry }
    requires in_range { first + pages_for (F.device flash.old).geometry.page size ≤ page_count (F.device flash.old).geometry }
    requires whole { vec_len page.old ≡ (F.device flash.old).geometry.page }
    requires begun { joined (F.device flash.old).pages first 1 ≡ Some page.old.items }
    requires some { 0 < pages_for (F.device flash.old).geometry.page size }

    // The memory.
    requires empty { node.old.items ≡ [] }
    requires room { size ≤ vec_capacity node.old }

    // What is brought, and at what cost.
    ensures brings { Brings (F.device flash.old) (F.device flash.new) (bytes_at (F.device flash.old).geometry (F.device flash.old).pages first size) node.new.items result }
    ensures only_reads { OnlyReads (F.device flash.old) (F.device flash.new) }
    ensures page { vec_len page.new ≡ vec_len page.old }
    ensures len { OnOk result (vec_len node.new ≡ size) }
    ensures operations { (F.device flash.new).operations ≤ (F.device flash.old).operations + (pages_for (F.device flash.old).geometry.page size - 1) }
{
    let count = size.div_ceil(flash.geometry().page);
    append_part(page, size as usize, node);
    for place in 1..count {
        read_page(flash, first + place, page)?;
        append_part(page, size as usize, node);
    }
    Ok(())
}

/// Reads the first page of the node of a block, which tells its size.
pub fn read_size<F: Flash>(flash: &mut F, block: u32, page: &mut Vec<u8>) -> Result<u32, Fault>
    requires lawful { IsGeometry (F.device flash.old).geometry }
    requires whole { vec_len page.old ≡ (F.device flash.old).geometry.page }

    // The page and the size, or why there is none.
    ensures begins { OnOk result (first_page (F.device flash.new) block ≡ Some page.new.items) }
    ensures size { IfOk result (λ size. node_size (block_bytes (F.device flash.new).geometry) page.new.items ≡ Some size) }
    ensures refuses { IfErr result (λ fault. Brings (F.device flash.old) (F.device flash.new) (node_of (F.device flash.old) block) [] (Err fault)) }

    // One page is read.
    ensures only_reads { OnlyReads (F.device flash.old) (F.device flash.new) }
    ensures page { vec_len page.new ≡ vec_len page.old }
    ensures operations { (F.device flash.new).operations ≤ (F.device flash.old).operations + 1 }
{
    let geometry = flash.geometry();
    read_first_page(flash, block, page)?;
    let Some(size) = node_size(geometry.block_bytes() as u32, page) else {
        return Err(Fault::Damaged);
    };
    Ok(size)
}

/// Reads the rest of the node of a block, whose first page tells this size, into memory of its own.
pub fn finish_node<F: Flash>(
    flash: &mut F,
    block: u32,
    size: u32,
    page: &mut Vec<u8>,
    alloc: Global,
) -> Result<Vec<u8>, Fault>
    requires lawful { IsGeometry (F.device flash.old).geometry }
    requires whole { vec_len page.old ≡ (F.device flash.old).geometry.page }
    requires begun { first_page (F.device flash.old) block ≡ Some page.old.items }
    requires size { node_size (block_bytes (F.device flash.old).geometry) page.old.items ≡ Some size }

    // The node, or why there is none.
    ensures brings { IfOk result (λ node. (node_of (F.device flash.old) block ≡ Some node.items) × (length node.items ≡ size)) }
    ensures refuses { IfErr result (λ fault. (shown : List ℕ) → BringsOrWants (F.device flash.old) (F.device flash.new) (node_of (F.device flash.old) block) shown (Err fault)) }

    // Each other page is read once at most.
    ensures only_reads { OnlyReads (F.device flash.old) (F.device flash.new) }
    ensures page { vec_len page.new ≡ vec_len page.old }
    ensures operations { (F.device flash.new).operations ≤ (F.device flash.old).operations + (pages_for (F.device flash.old).geometry.page size - 1) }
{
    let first = flash.geometry().page_number(block, 0);
    let mut node = Vec::with_capacity(alloc, size as usize)?;
    read_sized(flash, first, size, page, &mut node)?;
    Ok(node)
}

/// Reads the node of a block into memory of its own: each of its pages once.
pub fn read_node<F: Flash>(
    flash: &mut F,
    block: u32,
    page: &mut Vec<u8>,
    alloc: Global,
) -> Result<Vec<u8>, Fault>
    requires lawful { IsGeometry (F.device flash.old).geometry }
    requires whole { vec_len page.old ≡ (F.device flash.old).geometry.page }

    // The node, or why there is none.
    ensures brings { IfOk result (λ node. node_of (F.device flash.old) block ≡ Some node.items) }
    ensures refuses { IfErr result (λ fault. (shown : List ℕ) → BringsOrWants (F.device flash.old) (F.device flash.new) (node_of (F.device flash.old) block) shown (Err fault)) }
    ensures only_reads { OnlyReads (F.device flash.old) (F.device flash.new) }
    ensures page { vec_len page.new ≡ vec_len page.old }

    // Each page is read once, and no more than a block has, whatever is answered.
    ensures operations { IfOk result (λ node. (F.device flash.new).operations ≤ (F.device flash.old).operations + pages_for (F.device flash.old).geometry.page (length node.items)) }
    ensures most { (F.device flash.new).operations ≤ (F.device flash.old).operations + (F.device flash.old).geometry.pages }
{
    let size = read_size(flash, block, page)?;
    finish_node(flash, block, size, page, alloc)
}
