//! A byte for each block of a flash.
ghost use Rattle.std.specs.Prelude.{◌≡◌, ℕ, ◌+◌, ◌<◌, OnOk, OnErr, IfOk, IfErr, length, replicate, slice_index, slice_set};

use crate::sparse_words::SparseWords;
use fs_types::Fault;
use std::alloc::Global;
use std::marker::Model;

/// A byte for each block of one flash, 0 where none was put. Four stand in a word.
#[derive(Drop)]
pub struct SparseBytes {
    blocks: u32,
    words: SparseWords,
}

impl Model for SparseBytes {
    ghost use Rattle.std.specs.Prelude.{ℕ, List, ◌*◌, ◌≤◌, length};
    ghost use Rattle.block_ring.specs.SparseBytes.{bytes_of};

    ghost Value = { List ℕ };

    ghost view = { λ s. bytes_of s.blocks s.words };

    ghost invariant = { λ s. s.blocks ≤ 4 * length s.words };
}

impl SparseBytes {
    /// Bytes of a flash of `blocks` blocks, of which none was put.
    pub fn new(alloc: Global, blocks: u32) -> SparseBytes
        ensures { result ≡ replicate blocks 0 }
    {
        let words = SparseWords::new(alloc, blocks.div_ceil(4));
        SparseBytes { blocks, words }
    }

    /// How many blocks the flash has.
    pub fn blocks(&self) -> u32
        ensures { result ≡ length self.now }
    {
        self.blocks
    }

    /// The byte of a block; 0 where the flash has no such block.
    pub fn get(&self, block: u32) -> u8
        ensures { result ≡ slice_index self.now block }
    {
        if block >= self.blocks {
            return 0;
        }
        let bytes = self.words.get(block / 4).to_le_bytes();
        bytes[block as usize % 4]
    }

    /// Puts the byte of a block. Where it is refused for want of memory no byte is another.
    pub fn set(&mut self, block: u32, byte: u8) -> Result<(), Fault>
        requires { block < length self.old }
        ensures put { OnOk result (self.new ≡ slice_set self.old block byte) }
        ensures same { OnErr result (self.new ≡ self.old) }
        ensures memory { IfErr result (λ fault. fault ≡ Fault.NoMemory) }
    {
        let mut bytes = self.words.get(block / 4).to_le_bytes();
        bytes[block as usize % 4] = byte;
        self.words.set(block / 4, u32::from_le_bytes(bytes))
    }
}
