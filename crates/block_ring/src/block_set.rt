//! A set of blocks, with a bit for each block of the flash.
ghost use Rattle.std.specs.Prelude.{◌≡◌, ℕ, ◌*◌, ◌^◌, ◌-◌, ◌<◌, ◌≤◌, ◌↔◌, ◌&&◌, ◌||◌, not, nat_le, nat_lt, IsTrue, IfOk, IfErr, count_by, length, replicate, slice_index};
ghost use Rattle.std.specs.FinSet as set;
ghost use Rattle.std.specs.Int.RustNames.{bit_or};
ghost use Rattle.std.specs.List.{range_with_len};
ghost use Rattle.std.specs.Slice.Iter.{iter_rest};
ghost use Rattle.block_ring.specs.Ring.{AreDataBlocks, data_blocks};

use crate::data_blocks::is_data_block;
use bad_blocks::BadBlocks;
use fs_types::{ANCHORS, Fault};
use std::alloc::Global;
use std::marker::Model;
use std::slice;

/// A set of blocks of one flash.
#[derive(Drop)]
pub struct BlockSet {
    blocks: u32,
    words: Vec<u64>,
}

impl Model for BlockSet {
    ghost use Rattle.std.specs.Prelude.{◌*◌, ◌≤◌};
    ghost use Rattle.std.specs.Vec.{vec_len};
    ghost use Rattle.block_ring.specs.BlockSet.{BlockSet as Blocks, block_set_code};
    ghost use Rattle.block_ring.specs.Bits.{members_of};

    ghost Value = { Blocks };

    ghost coded = { block_set_code };

    ghost view = { λ s. record { blocks = s.blocks; members = members_of s.blocks s.words.items } };

    ghost invariant = { λ s. s.blocks ≤ 64 * vec_len s.words };
}

impl BlockSet {
    /// The empty set for a flash of `blocks` blocks. It has the room for all of them.
    pub fn new(alloc: Global, blocks: u32) -> Result<BlockSet, Fault>
        ensures ok { IfOk result (λ s. s ≡ record { blocks = blocks; members = set.empty }) }
        ensures err { IfErr result (λ fault. fault ≡ Fault.NoMemory) }
    {
        let words = vec![in alloc; 0; blocks.div_ceil(64) as usize]?;
        Ok(BlockSet { blocks, words })
    }

    /// Whether no block is in the set.
    pub fn is_empty(&self) -> bool
        ensures { IsTrue result ↔ (self.now.members ≡ set.empty) }
    {
        for place in 0..self.blocks.div_ceil(64) {
            let word = self.words[place as usize];
            if word != 0 {
                let lowest = 64 * u64::from(place) + u64::from(word.trailing_zeros());
                if lowest < u64::from(self.blocks) {
                    return false;
                }
            }
        }
        true
    }

    /// How many blocks are in the set.
    pub(crate) fn len(&self) -> u32
        ensures { result ≡ count_by (set.contains self.now.members) (range_with_len 0 self.now.blocks) }
    {
        let whole = self.blocks / 64;
        self.count_in_words(whole) + self.count_from(64 * whole)
    }

    // How many of the blocks from `first` on are in the set.
    fn count_from(&self, first: u32) -> u32
        ensures { result ≡ count_by (set.contains self.now.members) (range_with_len first (self.now.blocks - first)) }
    {
        (first..self.blocks)
            .filter(|block| self.contains(*block))
            .count() as u32
    }

    // How many of the blocks of the first `whole` words are in the set.
    fn count_in_words(&self, whole: u32) -> u32
        requires within { 64 * whole ≤ self.now.blocks }
        requires fits { 64 * whole < 2 ^ 32 }
        ensures { result ≡ count_by (set.contains self.now.members) (range_with_len 0 (64 * whole)) }
    {
        let mut ones = 0;
        for place in 0..whole {
            ones += self.words[place as usize].count_ones();
        }
        ones
    }

    /// How many data blocks are neither in the set, which has data blocks alone, nor bad.
    pub(crate) fn free_count(&self, bad: &BadBlocks) -> u32
        requires size { ANCHORS ≤ self.now.blocks }
        requires data_blocks { AreDataBlocks self.now.blocks self.now.members }
        ensures { result ≡ count_by (λ b. not (set.contains self.now.members b || set.contains bad.now b)) (data_blocks self.now.blocks) }
    {
        let listed = bad.iter();
        self.blocks - ANCHORS - self.len() - self.count_beside(listed) as u32
    }

    // How many of these blocks are data blocks that are not in the set.
    fn count_beside(&self, blocks: slice::Iter<'_, u32>) -> usize
        ensures { result ≡ count_by (λ b. nat_le ANCHORS b && nat_lt b self.now.blocks && not (set.contains self.now.members b)) (iter_rest blocks.entry) }
    {
        blocks.filter(|block| self.is_beside(**block)).count()
    }

    // Whether `block` is a data block that is not in the set.
    fn is_beside(&self, block: u32) -> bool
        ensures { result ≡ (nat_le ANCHORS block && nat_lt block self.now.blocks && not (set.contains self.now.members block)) }
    {
        is_data_block(self.blocks, block) && !self.contains(block)
    }

    /// How many blocks the flash has.
    pub fn blocks(&self) -> u32
        ensures { result ≡ self.now.blocks }
    {
        self.blocks
    }

    /// Whether `block` is in the set. A block that the flash does not have is not.
    pub fn contains(&self, block: u32) -> bool
        ensures { result ≡ set.contains self.now.members block }
    {
        block < self.blocks && self.words[block as usize / 64] >> (block % 64) & 1 == 1
    }

    /// Puts `block` into the set.
    pub fn insert(&mut self, block: u32)
        requires { block < self.old.blocks }
        ensures { self.new ≡ record self.old { members = set.insert self.old.members block } }
    {
        self.words[block as usize / 64] |= 1 << (block % 64);
    }

    /// Takes all blocks out.
    pub fn clear(&mut self)
        ensures { self.new ≡ record self.old { members = set.empty } }
    {
        clear_words(&mut self.words);
    }

    /// Puts the blocks of another set of the same flash into the set.
    pub fn join(&mut self, other: &BlockSet)
        requires { other.now.blocks ≡ self.old.blocks }
        ensures { self.new ≡ record self.old { members = set.union self.old.members other.now.members } }
    {
        join_words(&mut self.words, &other.words);
    }
}

fn clear_words(words: &mut [u64])
    ensures { words.new ≡ replicate (length words.old) 0 }
{
    for word in words.iter_mut() {
        *word = 0;
    }
}

// Sets the bits that `more` has too, in the words that both have.
fn join_words(words: &mut [u64], more: &[u64])
    ensures { (k : ℕ) → k < length words.old → k < length more.now
        → slice_index words.new k ≡ bit_or (slice_index words.old k) (slice_index more.now k) }
{
    for place in 0..words.len().min(more.len()) {
        words[place] |= more[place];
    }
}
