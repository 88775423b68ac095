//! What a verification keeps of the nodes that it read.
ghost use Rattle.std.specs.Prelude.{◌≡◌, ◌≢◌, ◌↔◌, ℕ, ◌+◌, ◌*◌, ◌<◌, ◌≤◌, ◌&&◌, ◌||◌, ◌==◌, ◌++◌, [], ◌∷◌, true, false, is_some, length, List, All, IsTrue, OnOk, IfOk, IfErr, Contains, slice_index, slice_set, if◌then◌else◌};
ghost use Rattle.std.specs.FinSet as set;
ghost use Rattle.std.specs.Option.{option_map, option_map_or};
ghost use Rattle.node_format.specs.declared.headers.TheConstants.{SLOTS};
ghost use Rattle.node_format.specs.declared.place.Place.{Place};
ghost use Rattle.node_format.specs.declared.place.Place.TheVariants.{File};
ghost use Rattle.nodes.specs.Chains.{most_after};
ghost use Rattle.reclaim.specs.Heads as heads;
ghost use Rattle.reclaim.specs.Passes.{AreNoted};
ghost use Rattle.reclaim.specs.Tables as spec;

use crate::edge::next_in;
use crate::looks::Parts;
use crate::pass::add_blocks;
use block_ring::{BlockSet, SparseWords};
use fs_types::{CHAIN_NODES, Fault, MAX_FILE_BYTES};
use node_format::Place;
use std::alloc::Global;

/// Whether a file of a length ends in the same node as one of a greater length.
fn fits(capacity: u32, length: u32, most: u32) -> bool
    requires capacity { 0 < capacity }
    requires some { 0 < length }
    ensures { result ≡ heads.fits capacity length most }
{
    length <= most && (length - 1) / capacity == (most - 1) / capacity
}

/// The greatest length of a file whose last node has an index and so many data bytes; 0 where there is
/// no index, and where four bytes cannot hold it.
fn longest_in(capacity: u32, index: Option<u32>, used: u32) -> u32
    ensures { result ≡ heads.longest_by capacity index used }
{
    let Some(index) = index else {
        return 0;
    };
    let longest = index as u64 * capacity as u64 + used as u64;
    if longest <= u32::MAX as u64 {
        longest as u32
    } else {
        0
    }
}

/// The bytes of full nodes before the node of an index, where a file can have so many; else 0.
fn length_before(capacity: u32, index: Option<u32>) -> u32
    ensures { result ≡ heads.length_before capacity index }
{
    let Some(index) = index else {
        return 0;
    };
    let length = index as u64 * capacity as u64;
    if length < MAX_FILE_BYTES as u64 {
        length as u32
    } else {
        0
    }
}

/// What nodes said that were read. Of a node of a directory the word is the block of the node after it.
/// Of another block it is the greatest length that was told of a file with its head there, by an entry or by
/// the next node of a body; from when that block was read it is the greatest length that its node allows.
/// Four bits a block, and four bytes for each of the blocks near those of which something was told.
///
/// Where a note is refused for want of memory it may have been taken in by half.
#[derive(Drop)]
pub struct Table {
    pub words: SparseWords,
    /// Which blocks hold nodes of directories.
    pub links: BlockSet,
    /// Which blocks are named as directories.
    pub named: BlockSet,
    /// Which nodes of directories name none.
    pub quiet: BlockSet,
    /// Which blocks were read.
    pub read: BlockSet,
}

impl Table {
    /// The table of a flash of `blocks` blocks of which none was read.
    pub fn new(alloc: Global, blocks: u32) -> Result<Table, Fault>
        ensures sized { IfOk result (λ t. spec.IsSized blocks t) }
        ensures words { IfOk result (λ t. (b : ℕ) → slice_index t.words b ≡ 0) }
        ensures none { IfOk result (λ t. (t.links.members ≡ set.empty) × (t.named.members ≡ set.empty) × (t.quiet.members ≡ set.empty) × (t.read.members ≡ set.empty)) }
        ensures memory { IfErr result (λ fault. fault ≡ Fault.NoMemory) }
    {
        let words = SparseWords::new(alloc, blocks);
        let links = BlockSet::new(alloc, blocks)?;
        let named = BlockSet::new(alloc, blocks)?;
        let quiet = BlockSet::new(alloc, blocks)?;
        let read = BlockSet::new(alloc, blocks)?;
        Ok(Table {
            words,
            links,
            named,
            quiet,
            read,
        })
    }

    /// Takes in what the node in a block says, which these are parts of, and the blocks that it names as
    /// directories. False where a file, of this node or of one before, is longer than its head allows, or
    /// has no head; so of the bytes before a node of a body.
    pub fn take_in(
        &mut self,
        capacity: u32,
        block: u32,
        parts: &Parts,
        directories: &[u32],
    ) -> Result<bool, Fault>
        requires sized { spec.IsSized self.old.links.blocks self.old }
        requires within { block < self.old.links.blocks }
        requires capacity { 0 < capacity }
        requires count { length parts.now.pointers.items ≡ SLOTS }

        // What is noted.
        ensures noted { OnOk result (spec.TakesIn self.old block parts.now directories.now self.new) }

        // What is answered.
        ensures heads { IfOk result (λ good. heads.TakesNode capacity block parts.now self.old self.new good) }
        ensures memory { IfErr result (λ fault. fault ≡ Fault.NoMemory) }
    {
        let longest = longest_in(capacity, parts.index, parts.used);
        let is_head = self.note_longest(capacity, block, longest)?;
        self.note(block, next_in(&parts.edge), directories)?;
        let have_heads = self.note_heads(capacity, parts)?;
        Ok(is_head && have_heads)
    }

    /// Notes the greatest length that the node in a block allows, which was read; false where an entry told
    /// of a longer file, or of one that ends in another node.
    fn note_longest(&mut self, capacity: u32, block: u32, longest: u32) -> Result<bool, Fault>
        requires sized { spec.IsSized self.old.links.blocks self.old }
        requires within { block < self.old.links.blocks }
        requires capacity { 0 < capacity }
        ensures exact { IfOk result (λ good. good ≡ ((slice_index self.old.words block == 0) || heads.fits capacity (slice_index self.old.words block) longest)) }
        ensures words { OnOk result (self.new.words ≡ slice_set self.old.words block longest) }
        ensures read { OnOk result (self.new.read ≡ record self.old.read { members = set.insert self.old.read.members block }) }
        ensures same { OnOk result (self.new ≡ record self.old { words = self.new.words; read = self.new.read }) }
        ensures memory { IfErr result (λ fault. fault ≡ Fault.NoMemory) }
    {
        let told = self.words.get(block);
        self.words.set(block, longest)?;
        self.read.insert(block);
        Ok(told == 0 || fits(capacity, told, longest))
    }

    /// Notes what the node in a block says: the block of the node after it, where it is one of a
    /// directory, and the blocks that it names as directories.
    fn note(&mut self, block: u32, next: Option<u32>, directories: &[u32]) -> Result<(), Fault>
        requires sized { spec.IsSized self.old.links.blocks self.old }
        requires within { block < self.old.links.blocks }
        ensures sized { OnOk result (spec.IsSized self.old.links.blocks self.new) }
        ensures links { OnOk result (self.new.links.members ≡ (if is_some next then set.insert self.old.links.members block else self.old.links.members)) }
        ensures words { OnOk result (self.new.words ≡ option_map_or (λ n. slice_set self.old.words block n) next self.old.words) }
        ensures named { OnOk result (AreNoted self.old.named.members directories.now self.old.links.blocks self.new.named.members) }
        ensures quiet { OnOk result (self.new.quiet.members ≡ (if is_some next && (length directories.now == 0) then set.insert self.old.quiet.members block else self.old.quiet.members)) }
        ensures read { OnOk result (self.new.read ≡ self.old.read) }
        ensures memory { IfErr result (λ fault. fault ≡ Fault.NoMemory) }
    {
        add_blocks(&mut self.named, directories);
        let Some(next) = next else {
            return Ok(());
        };
        self.words.set(block, next)?;
        self.links.insert(block);
        if directories.is_empty() {
            self.quiet.insert(block);
        }
        Ok(())
    }

    /// Notes what a node tells of heads: its entries of those of their files, and a node of a body of the node
    /// before it; false where one cannot be so.
    fn note_heads(&mut self, capacity: u32, parts: &Parts) -> Result<bool, Fault>
        requires sized { spec.IsSized self.old.links.blocks self.old }
        requires capacity { 0 < capacity }
        requires count { length parts.now.pointers.items ≡ SLOTS }

        // Words of heads alone change.
        ensures same { OnOk result (heads.KeepsLinks self.old self.new) }

        // What is answered.
        ensures heads { IfOk result (λ good. heads.TakesHeads capacity (heads.told_in capacity parts.now) self.old self.new good) }
        ensures memory { IfErr result (λ fault. fault ≡ Fault.NoMemory) }
    {
        let have_places = self.note_places(capacity, &parts.places)?;
        if !have_places {
            return Ok(false);
        }
        let length = length_before(capacity, parts.index);
        self.note_before(capacity, parts.pointers[0], length)
    }

    /// Notes the bytes of full nodes up to the one in a block; false where it cannot be so, and true where there are
    /// none.
    fn note_before(&mut self, capacity: u32, before: u32, length: u32) -> Result<bool, Fault>
        requires sized { spec.IsSized self.old.links.blocks self.old }
        requires capacity { 0 < capacity }

        // The word of the block alone changes.
        ensures same { OnOk result (heads.KeepsLinks self.old self.new) }

        // What is answered.
        ensures heads { IfOk result (λ good. heads.TakesHeads capacity (heads.before_told before length) self.old self.new good) }
        ensures memory { IfErr result (λ fault. fault ≡ Fault.NoMemory) }
    {
        if length == 0 {
            return Ok(true);
        }
        self.note_head(capacity, before, length)
    }

    /// Notes what entries tell of the heads of their files; false where one cannot be so.
    fn note_places(&mut self, capacity: u32, places: &[Place]) -> Result<bool, Fault>
        requires sized { spec.IsSized self.old.links.blocks self.old }
        requires capacity { 0 < capacity }

        // Words of heads alone change.
        ensures same { OnOk result (heads.KeepsLinks self.old self.new) }

        // What is answered.
        ensures heads { IfOk result (λ good. heads.TakesHeads capacity places.now self.old self.new good) }
        ensures memory { IfErr result (λ fault. fault ≡ Fault.NoMemory) }
    {
        for place in places {
            let is_noted = self.note_place(capacity, *place)?;
            if !is_noted {
                return Ok(false);
            }
        }
        Ok(true)
    }

    /// Notes what an entry tells of the head of its file; false where it cannot be so.
    fn note_place(&mut self, capacity: u32, place: Place) -> Result<bool, Fault>
        requires sized { spec.IsSized self.old.links.blocks self.old }
        requires capacity { 0 < capacity }

        // The word of its head alone changes.
        ensures same { OnOk result (heads.KeepsLinks self.old self.new) }

        // What is answered.
        ensures heads { IfOk result (λ good. heads.TakesHeads capacity (place ∷ []) self.old self.new good) }
        ensures memory { IfErr result (λ fault. fault ≡ Fault.NoMemory) }
    {
        match place {
            Place::Dir { block: _ } => Ok(true),
            Place::File { head, length: 0 } => Ok(head == 0),
            Place::File { head, length } => self.note_head(capacity, head, length),
        }
    }

    /// Notes the length of a file with its head in a block; false where that block cannot be its head.
    fn note_head(&mut self, capacity: u32, head: u32, length: u32) -> Result<bool, Fault>
        requires sized { spec.IsSized self.old.links.blocks self.old }
        requires capacity { 0 < capacity }
        requires some { 0 < length }

        // The word of the head alone changes.
        ensures same { OnOk result (heads.KeepsLinks self.old self.new) }

        // What is answered.
        ensures heads { IfOk result (λ good. heads.TakesHeads capacity (File head length ∷ []) self.old self.new good) }
        ensures memory { IfErr result (λ fault. fault ≡ Fault.NoMemory) }
    {
        if head >= self.links.blocks() || self.links.contains(head) {
            return Ok(false);
        }
        let word = self.words.get(head);
        if self.read.contains(head) {
            return Ok(fits(capacity, length, word));
        }
        if word == 0 || fits(capacity, word, length) {
            self.words.set(head, length)?;
            return Ok(true);
        }
        Ok(fits(capacity, length, word))
    }

    /// Whether nodes of directories follow one another from a block on, 31 at most, to a last one; true
    /// at 0, which names none.
    fn ends(&self, first: u32) -> bool
        requires { spec.IsSized self.now.links.blocks self.now }
        ensures { result ≡ spec.ends_from most_after (spec.has_link self.now) (slice_index self.now.words) first }
    {
        let mut at = first;
        for node in 1..CHAIN_NODES {
            if at == 0 {
                return true;
            }
            if !self.has_link(at) {
                return false;
            }
            at = self.words.get(at);
        }
        at == 0
    }

    /// Whether a block is known to hold a node of a directory.
    fn has_link(&self, block: u32) -> bool
        ensures exact { result ≡ spec.has_link self.now block }
        ensures within { result ≡ true → block < self.now.links.blocks }
    {
        block < self.links.blocks() && self.links.contains(block)
    }

    /// Whether a directory begins in a block, or none is named there.
    fn is_whole_at(&self, block: u32) -> bool
        requires sized { spec.IsSized self.now.links.blocks self.now }
        requires within { block < self.now.links.blocks }
        ensures { result ≡ spec.is_whole_at self.now block }
    {
        if self.has_link(block) {
            return self.ends(self.words.get(block));
        }
        !self.named.contains(block)
    }

    /// Whether a directory begins in each block that holds a node of one, and in each that is named so.
    pub fn is_whole(&self) -> bool
        requires { spec.IsSized self.now.links.blocks self.now }
        ensures { IsTrue result ↔ ((b : ℕ) → b < self.now.links.blocks → spec.is_whole_at self.now b ≡ true) }
    {
        for block in 0..self.links.blocks() {
            if !self.is_whole_at(block) {
                return false;
            }
        }
        true
    }

    /// Which nodes of directories name none, and the words.
    pub fn into_quiet(self) -> (BlockSet, SparseWords)
        ensures { (result.0 ≡ self.quiet) × (result.1 ≡ self.words) }
    {
        (self.quiet, self.words)
    }

    /// Whether all of some blocks are known to hold nodes of directories.
    pub fn has_links(&self, list: &[u32]) -> bool
        ensures { IsTrue result ↔ All (λ b. spec.has_link self.now b ≡ true) list.now }
    {
        for block in list {
            if !self.has_link(*block) {
                return false;
            }
        }
        true
    }
}
