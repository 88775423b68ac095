//! A word for each block of a flash.
ghost use Rattle.std.specs.Prelude.{◌≡◌, ℕ, ◌+◌, ◌<◌, ◌≤◌, OnOk, OnErr, IfOk, IfErr, length, map, replicate, slice_index, slice_set};
ghost use Rattle.block_ring.specs.SparseWords.{AreChunked, word_in, lists_of};

use fs_types::Fault;
use std::alloc::Global;
use std::marker::Model;

/// How many words a chunk has.
const CHUNK: usize = 64;

/// A word for each block of one flash, 0 where none was put. Words stand in chunks of 64, and a chunk takes memory from
/// when a word other than 0 is first put into it. Where none was put nothing takes memory.
#[derive(Drop)]
pub struct SparseWords {
    blocks: u32,
    /// For each chunk 0 where it was not made, else one more than its index in `chunks`; none before the first is made.
    places: Vec<u32>,
    chunks: Vec<Box<[u32; CHUNK]>>,
}

impl Model for SparseWords {
    ghost use Rattle.std.specs.Prelude.{ℕ, List, ◌*◌, ◌<◌, ◌≤◌, length};
    ghost use Rattle.block_ring.specs.SparseWords.{AreChunked, words_of, lists_of};

    ghost Value = { List ℕ };

    ghost view = { λ s. words_of s.blocks s.places.items (lists_of s.chunks.items) };

    ghost invariant = { λ s. (0 < length s.places.items → s.blocks ≤ 64 * length s.places.items) × AreChunked s.places.items (lists_of s.chunks.items) };
}

/// So many places of chunks of which none was made, where there are no places yet.
fn make_places(places: &mut Vec<u32>, count: usize) -> Result<(), Fault>
    requires { 0 < length places.old.items → count ≤ length places.old.items }
    ensures count { OnOk result (count ≤ length places.new.items) }
    ensures same { (i : ℕ) → slice_index places.new.items i ≡ slice_index places.old.items i }
    ensures unchanged { OnErr result (places.new ≡ places.old) }
    ensures memory { IfErr result (λ fault. fault ≡ Fault.NoMemory) }
{
    if !places.is_empty() {
        return Ok(());
    }
    let made = vec![in *places.allocator(); 0; count]?;
    *places = made;
    Ok(())
}

/// A place; 0 where there are no places yet.
fn place_of(places: &[u32], at: usize) -> u32
    ensures { result ≡ slice_index places.now at }
{
    if at >= places.len() {
        return 0;
    }
    places[at]
}

/// The index of a chunk in a list of chunks, into which it is put where it was not made.
fn made_chunk(
    places: &mut [u32],
    chunks: &mut Vec<Box<[u32; CHUNK]>>,
    at: usize,
) -> Result<usize, Fault>
    requires within { at < length places.old }
    requires chunked { AreChunked places.old (lists_of chunks.old.items) }

    // Where the chunk is, and no word is another.
    ensures there { IfOk result (λ index. slice_index places.new at ≡ index + 1) }
    ensures chunked { AreChunked places.new (lists_of chunks.new.items) }
    ensures words { (b : ℕ) → word_in places.new (lists_of chunks.new.items) b ≡ word_in places.old (lists_of chunks.old.items) b }

    // Why not.
    ensures memory { IfErr result (λ fault. fault ≡ Fault.NoMemory) }
{
    let place = places[at];
    if place != 0 {
        return Ok(place as usize - 1);
    }
    let index = chunks.len();
    if index >= u32::MAX as usize {
        return Err(Fault::NoMemory);
    }
    let chunk = Box::new(*chunks.allocator(), [0; CHUNK])?;
    chunks.push(chunk)?;
    places[at] = index as u32 + 1;
    Ok(index)
}

impl SparseWords {
    /// Words of a flash of `blocks` blocks, of which none was put.
    pub fn new(alloc: Global, blocks: u32) -> SparseWords
        ensures { result ≡ replicate blocks 0 }
    {
        SparseWords {
            blocks,
            places: Vec::new(alloc),
            chunks: Vec::new(alloc),
        }
    }

    /// How many blocks the flash has.
    pub fn blocks(&self) -> u32
        ensures { result ≡ length self.now }
    {
        self.blocks
    }

    /// The word of a block; 0 where the flash has no such block.
    pub fn get(&self, block: u32) -> u32
        ensures { result ≡ slice_index self.now block }
    {
        if block >= self.blocks {
            return 0;
        }
        let place = place_of(&self.places, block as usize / CHUNK);
        if place == 0 {
            return 0;
        }
        let chunk = &self.chunks[place as usize - 1];
        chunk[block as usize % CHUNK]
    }

    /// Puts the word of a block. Where it is refused for want of memory no word is another.
    pub fn set(&mut self, block: u32, word: u32) -> Result<(), Fault>
        requires { block < length self.old }
        ensures put { OnOk result (self.new ≡ slice_set self.old block word) }
        ensures same { OnErr result (self.new ≡ self.old) }
        ensures memory { IfErr result (λ fault. fault ≡ Fault.NoMemory) }
    {
        if self.get(block) == word {
            return Ok(());
        }
        let count = self.blocks.div_ceil(64) as usize;
        make_places(&mut self.places, count)?;
        let index = made_chunk(&mut self.places, &mut self.chunks, block as usize / CHUNK)?;
        let chunk = &mut self.chunks[index];
        chunk[block as usize % CHUNK] = word;
        Ok(())
    }
}
