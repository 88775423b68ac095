//! The blocks of a flash that are prepared for a write, with a bit for each block.
ghost use Rattle.std.specs.Prelude.{◌≡◌, ◌<◌, IfOk, IfErr};
ghost use Rattle.std.specs.FinSet as set;

use block_ring::Ring;
use fs_types::Fault;
use std::alloc::Global;
use std::marker::Model;

/// The blocks of one flash that were erased for a later write and were not taken since.
#[derive(Drop)]
pub struct PreparedBlocks {
    blocks: u32,
    words: Vec<u64>,
}

impl Model for PreparedBlocks {
    ghost use Rattle.std.specs.Prelude.{◌*◌, ◌≤◌};
    ghost use Rattle.std.specs.Vec.{vec_len};
    ghost use Rattle.block_ring.specs.BlockSet.{BlockSet as Blocks, block_set_code};
    ghost use Rattle.block_ring.specs.Bits.{members_of};

    ghost Value = { Blocks };

    ghost coded = { block_set_code };

    ghost view = { λ s. record { blocks = s.blocks; members = members_of s.blocks s.words.items } };

    ghost invariant = { λ s. s.blocks ≤ 64 * vec_len s.words };
}

impl PreparedBlocks {
    /// No block is prepared, of a flash of `blocks` blocks. The room for all of them is made here.
    pub fn new(alloc: Global, blocks: u32) -> Result<PreparedBlocks, Fault>
        ensures ok { IfOk result (λ s. s ≡ record { blocks = blocks; members = set.empty }) }
        ensures err { IfErr result (λ fault. fault ≡ Fault.NoMemory) }
    {
        let words = vec![in alloc; 0; blocks.div_ceil(64) as usize]?;
        Ok(PreparedBlocks { blocks, words })
    }

    /// Whether `block` is prepared. A block that the flash does not have is not.
    pub fn contains(&self, block: u32) -> bool
        ensures { result ≡ set.contains self.now.members block }
    {
        block < self.blocks && self.words[block as usize / 64] >> (block % 64) & 1 == 1
    }

    /// From now on `block` is prepared.
    pub fn insert(&mut self, block: u32)
        requires { block < self.old.blocks }
        ensures { self.new ≡ record self.old { members = set.insert self.old.members block } }
    {
        self.words[block as usize / 64] |= 1 << (block % 64);
    }

    /// From now on `block` is not prepared.
    pub fn remove(&mut self, block: u32)
        requires { block < self.old.blocks }
        ensures { self.new ≡ record self.old { members = set.remove self.old.members block } }
    {
        self.words[block as usize / 64] &= !(1 << (block % 64));
    }

    /// From now on none of the used blocks of a ring of the same flash is prepared.
    pub fn forget_used(&mut self, ring: &Ring)
        requires { ring.now.blocks ≡ self.old.blocks }
        ensures { self.new ≡ record self.old { members = set.difference self.old.members ring.now.used } }
    {
        for block in 0..ring.blocks() {
            if ring.is_used(block) {
                self.remove(block);
            }
        }
    }
}
