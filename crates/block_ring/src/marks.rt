//! What a marking found: the data blocks that are in use.
ghost use Rattle.std.specs.Prelude.{◌≡◌, ℕ, ◌≤◌, ◌||◌, true, not, count_by, IfOk, IfErr};
ghost use Rattle.std.specs.FinSet as set;
ghost use Rattle.block_ring.specs.Ring.{IsDataBlock, AreDataBlocks, data_blocks};

use crate::block_set::BlockSet;
use bad_blocks::BadBlocks;
use fs_types::{ANCHORS, Fault};
use std::alloc::Global;
use std::marker::Model;

/// A set of data blocks of one flash, for a ring to hold as its used ones.
#[derive(Drop)]
pub struct Marks {
    set: BlockSet,
}

impl Model for Marks {
    ghost use Rattle.block_ring.specs.BlockSet.{BlockSet as Blocks, block_set_code};
    ghost use Rattle.block_ring.specs.Ring.{AreDataBlocks};

    ghost Value = { Blocks };

    ghost coded = { block_set_code };

    ghost view = { λ m. m.set };

    ghost invariant = { λ m. AreDataBlocks m.set.blocks m.set.members };
}

impl Marks {
    /// No block is marked, of a flash of `blocks` blocks. The room for all of them is made here.
    pub fn new(alloc: Global, blocks: u32) -> Result<Marks, Fault>
        ensures ok { IfOk result (λ m. m ≡ record { blocks = blocks; members = set.empty }) }
        ensures err { IfErr result (λ fault. fault ≡ Fault.NoMemory) }
    {
        let set = BlockSet::new(alloc, blocks)?;
        Ok(Marks { set })
    }

    /// How many blocks the flash has, anchors included.
    pub fn blocks(&self) -> u32
        ensures value { result ≡ self.now.blocks }
        ensures data_blocks { AreDataBlocks self.now.blocks self.now.members }
    {
        self.set.blocks()
    }

    /// Whether `block` is marked.
    pub fn contains(&self, block: u32) -> bool
        ensures { result ≡ set.contains self.now.members block }
    {
        self.set.contains(block)
    }

    /// How many data blocks are neither bad nor marked.
    pub fn free_count(&self, bad: &BadBlocks) -> u32
        requires { ANCHORS ≤ self.now.blocks }
        ensures { result ≡ count_by (λ b. not (set.contains bad.now b || set.contains self.now.members b)) (data_blocks self.now.blocks) }
    {
        self.set.free_count(bad)
    }

    /// Marks `block`, which is a data block.
    pub fn insert(&mut self, block: u32)
        requires { IsDataBlock self.old.blocks block }
        ensures { self.new ≡ record self.old { members = set.insert self.old.members block } }
    {
        self.set.insert(block);
    }

    /// The marked blocks, and those of a set of the same flash.
    pub(crate) fn and(self, others: &BlockSet) -> BlockSet
        requires { others.now.blocks ≡ self.blocks }
        ensures value { result ≡ record self { members = set.union self.members others.now.members } }
        ensures data_blocks { AreDataBlocks self.blocks self.members }
    {
        let mut set = self.set;
        set.join(others);
        set
    }
}
