//! How deep directories stand, as their nodes tell it in the order of a marking.
ghost use Rattle.std.specs.Prelude.{◌≡◌, ◌≢◌, ℕ, ◌+◌, ◌≤◌, ◌<◌, true, Some, None, OnOk, IfErr, Contains, length};
ghost use Rattle.reclaim.specs.Levels as spec;

use block_ring::SparseBytes;
use fs_types::{Fault, MAX_NAMES};
use std::alloc::Global;

/// For each block the level of the directory of which it holds a node: 1 for a root, and one more for what
/// it names; 0 where none was told. They hold where each node that was taken in stands above the
/// directories that it names and no node after it higher. One byte for each of the blocks near those that have a level.
#[derive(Drop)]
pub struct Levels {
    pub found: SparseBytes,
    pub hold: bool,
}

impl Levels {
    /// The levels of a flash of `blocks` blocks of which no node was taken in.
    pub fn new(alloc: Global, blocks: u32) -> Levels
        ensures none { (b : ℕ) → spec.level result b ≡ 0 }
        ensures hold { result.hold ≡ true }
    {
        let found = SparseBytes::new(alloc, blocks);
        Levels { found, hold: true }
    }

    /// Takes in a node: the block of the node after it, where it is one of a directory, whether it has no
    /// entry, and the blocks of the directories that it names.
    pub fn take_in(
        &mut self,
        block: u32,
        next: Option<u32>,
        is_empty: bool,
        directories: &[u32],
    ) -> Result<(), Fault>
        ensures goes { OnOk result (spec.GoesOn self.old self.new) }
        ensures still { OnOk result ((n : ℕ) → next ≡ Some n → self.old.hold ≡ true → spec.GoesWith self.old block n is_empty directories.now → self.new.hold ≡ true) }
        ensures same { OnOk result (next ≡ None → self.new ≡ self.old) }
        ensures stands { OnOk result ((n : ℕ) → next ≡ Some n → self.new.hold ≡ true → spec.Stands self.new block n is_empty directories.now) }
        ensures memory { IfErr result (λ fault. fault ≡ Fault.NoMemory) }
    {
        let Some(next) = next else {
            return Ok(());
        };
        self.put(block, 1)?;
        if !self.hold {
            return Ok(());
        }
        let own = self.found.get(block);
        if own as usize > MAX_NAMES {
            self.hold = is_empty
                && next == 0
                && directories.is_empty()
                && own as usize == MAX_NAMES + 1;
            return Ok(());
        }
        if next != 0 {
            self.put(next, own)?;
        }
        self.put_all(directories, own + 1)
    }

    /// Puts blocks on a level, those that have none.
    fn put_all(&mut self, list: &[u32], least: u8) -> Result<(), Fault>
        requires { 0 < least }
        ensures goes { OnOk result (spec.GoesOn self.old self.new) }
        ensures still { OnOk result (self.old.hold ≡ true → ((b : ℕ) → Contains list.now b → spec.MayStand self.old b least) → self.new.hold ≡ true) }
        ensures all { OnOk result (self.new.hold ≡ true → (b : ℕ) → Contains list.now b → least ≤ spec.level self.new b) }
        ensures memory { IfErr result (λ fault. fault ≡ Fault.NoMemory) }
    {
        for block in list {
            self.put(*block, least)?;
        }
        Ok(())
    }

    /// Puts a block on a level, where it has none; they do not hold where it has a higher one.
    fn put(&mut self, block: u32, least: u8) -> Result<(), Fault>
        requires { 0 < least }
        ensures goes { OnOk result (spec.GoesOn self.old self.new) }
        ensures still { OnOk result (self.old.hold ≡ true → spec.MayStand self.old block least → self.new.hold ≡ true) }
        ensures others { OnOk result ((b : ℕ) → b ≢ block → spec.level self.new b ≡ spec.level self.old b) }
        ensures own { OnOk result (spec.level self.old block ≡ 0 → block < length self.old.found → spec.level self.new block ≡ least) }
        ensures size { length self.new.found ≡ length self.old.found }
        ensures put { OnOk result (self.new.hold ≡ true → least ≤ spec.level self.new block) }
        ensures memory { IfErr result (λ fault. fault ≡ Fault.NoMemory) }
    {
        if block >= self.found.blocks() {
            self.hold = false;
            return Ok(());
        }
        let level = self.found.get(block);
        if level == 0 {
            return self.found.set(block, least);
        }
        if level < least {
            self.hold = false;
        }
        Ok(())
    }
}
