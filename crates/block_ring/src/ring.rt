//! The used blocks of a flash, and the order in which free ones are taken.
ghost use Rattle.std.specs.Prelude.{◌≡◌, ℕ, ◌+◌, ◌≤◌, true, false, not, find, IfOk, IfErr, IfSome, IfNone};
ghost use Rattle.std.specs.FinSet as set;
ghost use Rattle.std.specs.Ordering.{nat_cmp};
ghost use Rattle.block_ring.specs.Ring.{IsDataBlock, is_busy, free_count as free_blocks, ring_order, next_free, IsFirstFree, IsTaken};

use crate::block_set::BlockSet;
use crate::marks::Marks;
use bad_blocks::BadBlocks;
use fs_types::{ANCHORS, Count, Fault};
use std::alloc::Global;
use std::marker::Model;

/// The used blocks of a flash, and the last block taken. The next one is looked for after it, and
/// after the last block of the flash from the first data block on, so that all data blocks wear alike.
///
/// The note has each block that became used since the last `watch`, so that a marking that began there
/// can be installed.
///
/// The takes since the ring was made are counted in its facts alone, and take no bytes.
#[derive(Drop)]
pub struct Ring {
    used: BlockSet,
    note: BlockSet,
    last: u32,
    takes: Count,
}

impl Model for Ring {
    ghost use Rattle.block_ring.specs.Ring.{Ring as Blocks, ring_code, IsRing, IsNote};

    ghost Value = { Blocks };

    ghost coded = { ring_code };

    ghost view = { λ r. record {
      blocks = r.used.blocks;
      used = r.used.members;
      note = r.note.members;
      last = r.last;
      takes = r.takes.n;
    } };

    ghost invariant = { λ r. IsRing r.used.blocks r.used.members r.last × IsNote r.used.blocks r.note };
}

impl Ring {
    /// No block is used, of a flash of `blocks` blocks, 16 to 65,536, and `last` counts as the last
    /// one taken. The room for all blocks is made here.
    pub fn new(alloc: Global, blocks: u32, last: u32) -> Result<Ring, Fault>
        requires size { (16 ≤ blocks) × (blocks ≤ 65536) }
        requires last { IsDataBlock blocks last }
        ensures ok { IfOk result (λ r. r ≡ record {
          blocks = blocks;
          used = set.empty;
          note = set.empty;
          last = last;
          takes = 0;
        }) }
        ensures err { IfErr result (λ fault. fault ≡ Fault.NoMemory) }
    {
        let used = BlockSet::new(alloc, blocks)?;
        let note = BlockSet::new(alloc, blocks)?;
        Ok(Ring {
            used,
            note,
            last,
            takes: Count::zero(),
        })
    }

    /// How many blocks the flash has, anchors included.
    pub fn blocks(&self) -> u32
        ensures value { result ≡ self.now.blocks }
        ensures size { (16 ≤ result) × (result ≤ 65536) }
        ensures used { (b : ℕ) → set.contains self.now.used b ≡ true → IsDataBlock self.now.blocks b }
    {
        self.used.blocks()
    }

    /// The last block taken.
    pub fn last(&self) -> u32
        ensures value { result ≡ self.now.last }
        ensures data_block { IsDataBlock self.now.blocks result }
    {
        self.last
    }

    /// Whether `block` is used.
    pub fn is_used(&self, block: u32) -> bool
        ensures { result ≡ set.contains self.now.used block }
    {
        self.used.contains(block)
    }

    /// How many data blocks are neither used nor bad.
    pub fn free_count(&self, bad: &BadBlocks) -> u32
        ensures { result ≡ free_blocks self.now bad.now }
    {
        self.used.free_count(bad)
    }

    /// Makes `block` used and notes it, which is a data block.
    pub fn mark_used(&mut self, block: u32)
        requires { IsDataBlock self.old.blocks block }
        ensures { self.new ≡ record self.old {
          used = set.insert self.old.used block;
          note = set.insert self.old.note block;
        } }
    {
        self.used.insert(block);
        self.note.insert(block);
    }

    /// Empties the note. A marking that begins here and now may be installed later.
    pub fn watch(&mut self)
        ensures { self.new ≡ record self.old { note = set.empty } }
    {
        self.note.clear();
    }

    /// Makes exactly those blocks used that are marked, or that became used since the last `watch`.
    pub fn install(&mut self, marks: Marks)
        requires { marks.blocks ≡ self.old.blocks }
        ensures { self.new ≡ record self.old { used = set.union marks.members self.old.note } }
    {
        self.used = marks.and(&self.note);
    }

    /// The first data block in ring order after the last one taken that is neither used nor bad: the
    /// one that `take` would take. `None` where there is none.
    pub fn next_free(&self, bad: &BadBlocks) -> Option<u32>
        ensures next { result ≡ next_free self.now bad.now }
        ensures first { IsFirstFree (is_busy self.now bad.now) self.now.blocks self.now.last result }
    {
        self.first_free(bad, self.last)
    }

    /// Takes the first data block in ring order after the last one taken that is neither used nor
    /// bad, and answers it; it is used from then on. `None` where there is none.
    pub fn take(&mut self, bad: &BadBlocks) -> Option<u32>
        ensures next { result ≡ next_free self.old bad.now }
        ensures taken { IfSome result (λ b. IsTaken self.old bad.now b self.new) }
        ensures none { IfNone result (self.new ≡ self.old) }
    {
        let next = self.next_free(bad)?;
        self.take_at(next);
        Some(next)
    }

    /// Takes the block that `next_free` found with a list of bad blocks, as `take` with that list, and
    /// looks for none.
    pub fn take_at(&mut self, next: u32)
        requires { (bad : set.FinSet nat_cmp) × (next_free self.old bad ≡ Some next) }
        ensures { (bad : set.FinSet nat_cmp) → next_free self.old bad ≡ Some next → IsTaken self.old bad next self.new }
    {
        self.used.insert(next);
        self.note.insert(next);
        self.last = next;
        self.takes = self.takes.more();
    }

    // The first free block in ring order after `last`.
    fn first_free(&self, bad: &BadBlocks, last: u32) -> Option<u32>
        requires { IsDataBlock self.now.blocks last }
        ensures { result ≡ find (λ b. not (is_busy self.now bad.now b))
            (ring_order self.now.blocks last) }
    {
        let end = self.used.blocks();
        (last + 1..end)
            .chain(ANCHORS..last + 1)
            .find(|block| self.is_free(*block, bad))
    }

    fn is_free(&self, block: u32, bad: &BadBlocks) -> bool
        ensures { result ≡ not (is_busy self.now bad.now block) }
    {
        !self.used.contains(block) && !bad.contains(block)
    }
}
