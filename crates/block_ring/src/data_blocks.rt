//! The data blocks of a flash, and how many of them are bad.
ghost use Rattle.std.specs.Prelude.{◌≡◌, ◌&&◌, count_by, nat_le, nat_lt};
ghost use Rattle.std.specs.FinSet as set;
ghost use Rattle.std.specs.Slice.Iter.{iter_rest};
ghost use Rattle.block_ring.specs.Ring.{data_blocks};

use bad_blocks::BadBlocks;
use fs_types::ANCHORS;
use std::slice;

/// How many data blocks of a flash of `blocks` blocks are bad.
pub fn count_bad(blocks: u32, bad: &BadBlocks) -> u32
    ensures { result ≡ count_by (set.contains bad.now) (data_blocks blocks) }
{
    count_listed(blocks, bad.iter()) as u32
}

/// Whether `block` is a data block of a flash of `blocks` blocks.
pub(crate) fn is_data_block(blocks: u32, block: u32) -> bool
    ensures { result ≡ (nat_le ANCHORS block && nat_lt block blocks) }
{
    ANCHORS <= block && block < blocks
}

// How many of the blocks that are listed are data blocks of a flash of `blocks` blocks.
fn count_listed(blocks: u32, listed: slice::Iter<'_, u32>) -> usize
    ensures { result ≡ count_by (λ b. nat_le ANCHORS b && nat_lt b blocks) (iter_rest listed.entry) }
{
    listed
        .filter(|block| is_data_block(blocks, **block))
        .count()
}
