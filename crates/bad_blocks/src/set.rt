//! The set, in a list of fixed room that ascends.
ghost use Rattle.std.specs.Prelude.{◌≡◌, ℕ, ◌+◌, ◌≤◌, ◌↔◌, false, length, IsTrue, IsErr, OnOk, OnErr};
ghost use Rattle.std.specs.List.Sorted.{IsStrictlyIncreasing};
ghost use Rattle.std.specs.Ordering.{nat_cmp};
ghost use Rattle.std.specs.FinSet as set;
ghost use Rattle.std.specs.Iterator.Adapters.{IterYieldsInOrder};
ghost use Rattle.std.specs.Slice.Iter.{iter_rest};
ghost use Rattle.fs_types.specs.declared.limits.TheConstants.{MAX_BAD_BLOCKS};

use arrayvec::ArrayVec;
use fs_types::MAX_BAD_BLOCKS;
use std::marker::Model;
use std::slice;
use thiserror::Error;

/// The block is new, and 256 are in the set.
#[derive(Clone, Copy, Debug, PartialEq, Eq, Error)]
#[error("256 blocks are bad already")]
pub struct Full;

/// A set of at most 256 block numbers. No call of it takes memory.
#[derive(Drop)]
pub struct BadBlocks {
    blocks: ArrayVec<u32, MAX_BAD_BLOCKS>,
}

impl Model for BadBlocks {
    ghost use Rattle.std.specs.List.Sorted.{IsStrictlyIncreasing};
    ghost use Rattle.std.specs.Ordering.{nat_cmp};
    ghost use Rattle.std.specs.FinSet as set;
    ghost use Rattle.std.specs.Coded.{coded_ℕ};

    ghost Value = { set.FinSet nat_cmp };

    ghost coded = { set.code coded_ℕ };

    ghost view = { λ s. set.from_list s.blocks.items };

    ghost invariant = { λ s. IsStrictlyIncreasing s.blocks.items };
}

impl BadBlocks {
    /// The empty set.
    pub fn new() -> Self
        ensures { result ≡ set.empty }
    {
        BadBlocks {
            blocks: ArrayVec::new(),
        }
    }

    /// How many blocks are in the set, from 0 to 256.
    pub fn len(&self) -> usize
        ensures len { result ≡ set.len self.now }
        ensures limit { result ≤ MAX_BAD_BLOCKS }
    {
        self.blocks.len()
    }

    /// Whether no block is in the set.
    pub fn is_empty(&self) -> bool
        ensures { IsTrue result ↔ (set.len self.now ≡ 0) }
    {
        self.len() == 0
    }

    /// Whether 256 blocks are in the set, so that `add` of a new one is refused.
    pub fn is_full(&self) -> bool
        ensures full { IsTrue result ↔ (set.len self.now ≡ MAX_BAD_BLOCKS) }
        ensures limit { set.len self.now ≤ MAX_BAD_BLOCKS }
    {
        self.len() == MAX_BAD_BLOCKS
    }

    /// Whether `block` is in the set.
    pub fn contains(&self, block: u32) -> bool
        ensures { result ≡ set.contains self.now block }
    {
        self.blocks.binary_search(&block).is_ok()
    }

    /// The blocks in ascending order.
    pub fn iter(&self) -> slice::Iter<'_, u32>
        ensures blocks { set.from_list (iter_rest result) ≡ self.now }
        ensures ascending { IsStrictlyIncreasing (iter_rest result) }
        ensures len { length (iter_rest result) ≡ set.len self.now }
        ensures runs { IterYieldsInOrder ℕ }
    {
        self.blocks.iter()
    }

    /// Puts `block` into the set. Fails where 256 others are in it, and leaves it as it was then.
    pub fn add(&mut self, block: u32) -> Result<(), Full>
        ensures ok { OnOk result (self.new ≡ set.insert self.old block) }
        ensures grows { OnOk result (set.contains self.old block ≡ false
            → set.len self.new ≡ set.len self.old + 1) }
        ensures err { OnErr result (self.new ≡ self.old) }

        // It fails where the set is full and the block is new, and only there.
        ensures full { OnErr result (set.len self.old ≡ MAX_BAD_BLOCKS) }
        ensures new_block { OnErr result (set.contains self.old block ≡ false) }
        ensures refused { set.len self.old ≡ MAX_BAD_BLOCKS → set.contains self.old block ≡ false → IsErr result }
    {
        match self.blocks.binary_search(&block) {
            Ok(_) => Ok(()),
            Err(_) if self.blocks.is_full() => Err(Full),
            Err(place) => {
                self.blocks.insert(place, block);
                Ok(())
            }
        }
    }
}
