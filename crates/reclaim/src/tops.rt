//! What the nodes of bodies have at their last slots, as nodes tell of one another.
ghost use Rattle.std.specs.Prelude.{◌≡◌, ◌<◌, ℕ, ◌+◌, ◌||◌, ◌==◌, [], ◌∷◌, length, List, OnOk, IfOk, IfErr, slice_index, slice_set};
ghost use Rattle.std.specs.FinSet as set;
ghost use Rattle.node_format.specs.declared.headers.TheConstants.{SLOTS};
ghost use Rattle.reclaim.specs.Tops as spec;

use crate::slots::has_pointer;
use block_ring::{BlockSet, SparseWords};
use fs_types::Fault;
use node_format::SLOTS;
use std::alloc::Global;

/// What stands at the last slot of an index; 0 where there is no index, or it has no slot.
fn top_in(pointers: &[u32], index: Option<u32>) -> u32
    requires { length pointers.now ≡ SLOTS }
    ensures { result ≡ spec.top_by (slice_index pointers.now) index }
{
    let Some(index) = index else {
        return 0;
    };
    let mut top = 0;
    for slot in 0..SLOTS {
        if has_pointer(index, slot) {
            top = pointers[slot];
        }
    }
    top
}

/// Which block each node of a body names at the last slot of its index. Of a block that was read the word is
/// what its node has there, 0 where it has no slot; of another it is what a node told of it, 0 where none did.
/// A bit a block, and four bytes for each of the blocks near those of which something was told.
///
/// Where a node has a slot x + 1, the last slot of the node that its slot x names is x, and names the same
/// block. A node tells this of each of its slots, so none is read to see where the slots of another one lead.
///
/// Where a note is refused for want of memory it may have been taken in by half.
#[derive(Drop)]
pub struct Tops {
    pub words: SparseWords,
    /// Which blocks were read.
    pub read: BlockSet,
}

impl Tops {
    /// Those of a flash of `blocks` blocks of which none was read.
    pub fn new(alloc: Global, blocks: u32) -> Result<Tops, Fault>
        ensures sized { IfOk result (spec.HasSize blocks) }
        ensures words { IfOk result (λ t. (b : ℕ) → slice_index t.words b ≡ 0) }
        ensures none { IfOk result (λ t. t.read.members ≡ set.empty) }
        ensures memory { IfErr result (λ fault. fault ≡ Fault.NoMemory) }
    {
        let words = SparseWords::new(alloc, blocks);
        let read = BlockSet::new(alloc, blocks)?;
        Ok(Tops { words, read })
    }

    /// Takes in the node in a block: its index, and what stands in its slots. False where its last slot names another
    /// block than a node told, or it tells of a node what is not so.
    pub fn take_in(
        &mut self,
        block: u32,
        index: Option<u32>,
        pointers: &[u32],
    ) -> Result<bool, Fault>
        requires sized { spec.HasSize self.old.read.blocks self.old }
        requires within { block < self.old.read.blocks }
        requires count { length pointers.now ≡ SLOTS }
        ensures sized { OnOk result (spec.HasSize self.old.read.blocks self.new) }
        ensures tops { IfOk result (λ good. let pointer = slice_index pointers.now in spec.TakesTop block (spec.top_by pointer index) (spec.steps_by pointer index) self.old self.new good) }
        ensures memory { IfErr result (λ fault. fault ≡ Fault.NoMemory) }
    {
        let is_told = self.note_top(block, top_in(pointers, index))?;
        let are_told = self.note_steps(index, pointers)?;
        Ok(is_told && are_told)
    }

    /// Notes what the node in a block has at its last slot, which was read; false where another block was told.
    fn note_top(&mut self, block: u32, top: u32) -> Result<bool, Fault>
        requires sized { spec.HasSize self.old.read.blocks self.old }
        requires within { block < self.old.read.blocks }
        ensures exact { IfOk result (λ good. good ≡ ((slice_index self.old.words block == 0) || (slice_index self.old.words block == top))) }
        ensures words { OnOk result (self.new.words ≡ slice_set self.old.words block top) }
        ensures read { OnOk result (self.new.read ≡ record self.old.read { members = set.insert self.old.read.members block }) }
        ensures memory { IfErr result (λ fault. fault ≡ Fault.NoMemory) }
    {
        let told = self.words.get(block);
        self.words.set(block, top)?;
        self.read.insert(block);
        Ok(told == 0 || told == top)
    }

    /// Notes what the slots of an index tell; false where it cannot be so.
    fn note_steps(&mut self, index: Option<u32>, pointers: &[u32]) -> Result<bool, Fault>
        requires sized { spec.HasSize self.old.read.blocks self.old }
        requires count { length pointers.now ≡ SLOTS }
        ensures sized { OnOk result (spec.HasSize self.old.read.blocks self.new) }
        ensures tops { IfOk result (λ good. spec.TakesSteps (spec.steps_by (slice_index pointers.now) index) self.old self.new good) }
        ensures memory { IfErr result (λ fault. fault ≡ Fault.NoMemory) }
    {
        let Some(index) = index else {
            return Ok(true);
        };
        for slot in 0..SLOTS - 1 {
            if has_pointer(index, slot + 1) {
                let is_told = self.note_step(pointers[slot], pointers[slot + 1])?;
                if !is_told {
                    return Ok(false);
                }
            }
        }
        Ok(true)
    }

    /// Notes that the last slot of the node in a block names a block; false where that cannot be so.
    fn note_step(&mut self, block: u32, top: u32) -> Result<bool, Fault>
        requires { spec.HasSize self.old.read.blocks self.old }
        ensures sized { OnOk result (spec.HasSize self.old.read.blocks self.new) }
        ensures tops { IfOk result (λ good. spec.TakesSteps ((block, top) ∷ []) self.old self.new good) }
        ensures memory { IfErr result (λ fault. fault ≡ Fault.NoMemory) }
    {
        if top == 0 {
            return Ok(false);
        }
        if block >= self.read.blocks() {
            return Ok(false);
        }
        let word = self.words.get(block);
        if self.read.contains(block) {
            return Ok(word == top);
        }
        if word == 0 {
            self.words.set(block, top)?;
            return Ok(true);
        }
        Ok(word == top)
    }
}
