//! A marking of the blocks that roots reach, in steps of so many reads.
ghost use Rattle.std.specs.Prelude.{◌≡◌, ◌≢◌, ◌↔◌, ℕ, ◌+◌, ◌-◌, ◌^◌, ◌<◌, ◌≤◌, [], ◌∷◌, true, false, length, slice_index, Contains, OnOk, IfOk, IfErr, IfSome, IfNone, IsErrOf, None, Ok, Err};
ghost use Rattle.std.specs.FinSet as set;
ghost use Rattle.block_ring.specs.Ring.{IsDataBlock};
ghost use Rattle.nodes.specs.Bodies.{Blocks};
ghost use Rattle.nodes.specs.Reached.{Reached, Names};
ghost use Rattle.nodes.specs.Trees.{IsRoot};
ghost use Rattle.node_format.specs.Headers.{body_header};
ghost use Rattle.nodes.specs.Faults.{IsReadFault};
ghost use Rattle.nodes.specs.Words.{LooksWithin};
ghost use Rattle.reclaim.specs.Calls.{LooksAtCost, MarksOn};
ghost use Rattle.reclaim.specs.Kinds.{Knows};
ghost use Rattle.reclaim.specs.MoreRoots.{AddsRoot};
ghost use Rattle.reclaim.specs.Passes.{IsMarked, IsPass, IsFinished, HasRead, HasReached, LacksNode, IsMarkFault, Begins, Advances, HasStepped, AreNoted};

use crate::named::{Named, read_named};
use block_ring::{BlockSet, Marks};
use fs_types::{ANCHORS, Fault};
use nodes::Nodes;
use std::alloc::Global;
use std::marker::Model;

/// A marking of the blocks that roots reach. The marked blocks are kept in the order of marking, and
/// are read in that order: what a block names is marked when it is read. Blocks that are named as those
/// of bodies are noted: of these the first page alone is read, which has their pointers.
///
/// Between steps nodes may be written, as long as those that the roots reach stay as they are.
#[derive(Drop)]
pub struct Pass {
    alloc: Global,
    marks: Marks,
    roots: Vec<u32>,
    order: Vec<u32>,
    next: usize,
    bodies: BlockSet,
}

impl Model for Pass {
    ghost use Rattle.std.specs.Prelude.{◌≡◌};
    ghost use Rattle.reclaim.specs.Passes.{Pass as Marking, pass_code, IsOrder};

    ghost Value = { Marking };

    ghost coded = { pass_code };

    ghost view = { λ p. record {
      blocks = p.marks.blocks;
      roots = p.roots.items;
      order = p.order.items;
      next = p.next;
      bodies = p.bodies.members;
    } };

    ghost invariant = { λ p. IsOrder p.marks p.order.items p.next × (p.bodies.blocks ≡ p.marks.blocks) };
}

impl Pass {
    /// A pass that has read nothing, of a flash of `blocks` blocks, over roots that are data blocks.
    pub fn start(alloc: Global, blocks: u32, roots: &[u32]) -> Result<Pass, Fault>
        requires { (b : ℕ) → Contains roots.now b → IsDataBlock blocks b }
        ensures pass { IfOk result (λ p. (f : Blocks) → IsPass f p) }
        ensures begun { IfOk result (λ p. (p.blocks ≡ blocks) × (p.roots ≡ roots.now) × (p.next ≡ 0)) }
        ensures none { IfOk result (λ p. p.bodies ≡ set.empty) }
        ensures first { IfOk result (λ p. (b : ℕ) → Contains p.order b ↔ Contains roots.now b) }
        ensures memory { IfErr result (λ fault. fault ≡ Fault.NoMemory) }
    {
        let marks = Marks::new(alloc, blocks)?;
        let bodies = BlockSet::new(alloc, blocks)?;
        let own = roots.to_vec(alloc)?;
        let mut pass = Pass {
            alloc,
            marks,
            roots: own,
            order: Vec::new(alloc),
            next: 0,
            bodies,
        };
        pass.mark_all(roots)?;
        Ok(pass)
    }

    /// Marks one root more, which is a data block: the pass goes on from it too. After a refusal it is of
    /// no use, as after a step's.
    pub fn add_root(&mut self, root: u32) -> Result<(), Fault>
        requires { IsDataBlock self.old.blocks root }
        ensures added { OnOk result (AddsRoot self.old root self.new) }
        ensures pass { (f : Blocks) → IsPass f self.old → OnOk result (IsPass f self.new) }
        ensures known { (limit : ℕ) (f : Blocks) → IsRoot (limit - body_header) f root → Knows limit f self.old → OnOk result (Knows limit f self.new) }
        ensures memory { IfErr result (λ fault. fault ≡ Fault.NoMemory) }
    {
        self.roots.push(root)?;
        self.mark_all(&[root])
    }

    /// The blocks that are marked so far, in the order of marking. They are data blocks.
    pub fn marked(&self) -> &[u32]
        ensures listed { result.now ≡ self.now.order }
        ensures data_blocks { (b : ℕ) → Contains self.now.order b → IsDataBlock self.now.blocks b }
    {
        // The marks are data blocks, as their contract tells.
        let _blocks = self.marks.blocks();
        &self.order
    }

    /// Reads `budget` blocks that this pass had not read, or all that remain; whether none remains. One
    /// page is asked at most for each node of a body: the roots are known to have trees.
    ///
    /// What is said of a pass holds where this is one over these nodes ([`Pass::start`], and a step that
    /// was not refused). After a refusal it is of no use: no step may follow.
    pub fn step<N: Nodes>(&mut self, nodes: &mut N, budget: u64) -> Result<bool, Fault>
        requires sound { N.is_sound nodes.old }
        requires blocks { self.old.blocks ≡ N.blocks nodes.old }
        requires known { Knows (N.limit nodes.old) (N.node nodes.old) self.old }

        // The pass goes on: so many blocks are read, each for the first time.
        ensures on { Advances self.old self.new }
        ensures ends { HasStepped budget self.old self.new result }
        ensures read { OnOk result (MarksOn N.Nodes nodes.old nodes.new self.old self.new) }

        // Whatever is answered, each read was of another block that the roots reach; Damaged where one of these has no node, and
        // only there.
        ensures reached { IsPass (N.node nodes.old) self.old → HasReached (N.node nodes.old) self.old result (N.reads nodes.old) (N.reads nodes.new) }
        ensures calls { LooksWithin N.Nodes IsReadFault budget nodes.old result nodes.new }
    {
        for done in 0..budget {
            if self.is_finished() {
                return Ok(true);
            }
            self.read_next(nodes)?;
        }
        // The list fits in memory, so it has fewer blocks than the greatest budget.
        let _ = &self.order;
        Ok(self.is_finished())
    }

    /// Reads all blocks that remain. One page is asked at most for each node of a body.
    pub fn read_all<N: Nodes>(&mut self, nodes: &mut N) -> Result<(), Fault>
        requires sound { N.is_sound nodes.old }
        requires blocks { self.old.blocks ≡ N.blocks nodes.old }
        requires pass { IsPass (N.node nodes.old) self.old }
        requires known { Knows (N.limit nodes.old) (N.node nodes.old) self.old }

        // The pass ends, and what it reads.
        ensures on { Advances self.old self.new }
        ensures read { OnOk result (IsFinished self.new × MarksOn N.Nodes nodes.old nodes.new self.old self.new) }

        // Why not, and what is read whatever is answered.
        ensures damaged { IsErrOf result Fault.Damaged → LacksNode (N.node nodes.old) self.old.roots }
        ensures calls { LooksAtCost N.Nodes IsReadFault (HasRead (N.node nodes.old) self.old) nodes.old result nodes.new }
    {
        // A step of so many reads leaves no block to be read.
        let _is_finished = self.step(nodes, u64::MAX)?;
        Ok(())
    }

    /// The block that is read next; None where no marked block is left to be read.
    pub(crate) fn next_block(&self) -> Option<u32>
        ensures left { IfSome result (λ block. (self.now.next < length self.now.order) × (block ≡ slice_index self.now.order self.now.next) × (self.now.next < 2 ^ 64)) }
        ensures finished { IfNone result (IsFinished self.now) }
    {
        if self.is_finished() {
            return None;
        }
        Some(self.order[self.next])
    }

    /// Marks what the node of the block that is read next names, which counts as read then.
    pub(crate) fn mark_next(&mut self, names: &[u32]) -> Result<(), Fault>
        requires { self.old.next < length self.old.order }

        // The pass goes on.
        ensures pass { (f : Blocks) → IsPass f self.old → f (slice_index self.old.order self.old.next) ≢ None → ((b : ℕ) → Contains names.now b ↔ Names (f (slice_index self.old.order self.old.next)) b) → OnOk result (IsPass f self.new) }
        ensures on { Advances self.old self.new }
        ensures next { OnOk result ((self.new.next ≡ self.old.next + 1) × IsMarked self.old.order names.now self.new.order) }
        ensures why { IfErr result (IsMarkFault self.old.blocks names.now) }
    {
        self.mark_all(names)?;
        self.next += 1;
        Ok(())
    }

    /// The marked blocks: exactly those that the roots reach. No marked block is left to be read.
    pub fn finish(self) -> Marks
        requires { IsFinished self }
        ensures blocks { result.blocks ≡ self.blocks }
        ensures listed { result.members ≡ set.from_list self.order }
        ensures exact { (f : Blocks) → IsPass f self → (b : ℕ) → (set.contains result.members b ≡ true) ↔ Reached f self.roots b }
    {
        self.marks
    }

    // Whether no marked block is left to be read.
    fn is_finished(&self) -> bool
        ensures finished { result ≡ true → IsFinished self.now }
        ensures left { result ≡ false → self.now.next < length self.now.order }
    {
        self.next == self.order.len()
    }

    // Reads the next marked block, marks what it names, and notes the bodies.
    fn read_next<N: Nodes>(&mut self, nodes: &mut N) -> Result<(), Fault>
        requires sound { N.is_sound nodes.old }
        requires blocks { self.old.blocks ≡ N.blocks nodes.old }
        requires left { self.old.next < length self.old.order }
        requires known { Knows (N.limit nodes.old) (N.node nodes.old) self.old }

        // The pass goes on, and what it reads.
        ensures on { Advances self.old self.new }
        ensures read { OnOk result ((self.new.next ≡ self.old.next + 1) × MarksOn N.Nodes nodes.old nodes.new self.old self.new) }

        // Why not.
        ensures damaged { IsPass (N.node nodes.old) self.old → IsErrOf result Fault.Damaged → LacksNode (N.node nodes.old) self.old.roots }
        ensures calls { LooksWithin N.Nodes IsReadFault 1 nodes.old result nodes.new }
        ensures reads { N.reads nodes.new ≡ N.reads nodes.old + 1 }
    {
        let block = self.order[self.next];
        let is_body = self.has_front(block);
        let named = read_named(self.alloc, nodes, block, is_body)?;
        self.mark_all(&named.blocks)?;
        self.note(&named);
        self.next += 1;
        Ok(())
    }

    // Whether the first page alone is read of a block.
    fn has_front(&self, block: u32) -> bool
        ensures { result ≡ set.contains self.now.bodies block }
    {
        self.bodies.contains(block)
    }

    // Notes the blocks that a node names as those of bodies.
    fn note(&mut self, named: &Named)
        ensures noted { AreNoted self.old.bodies named.now.bodies.items self.old.blocks self.new.bodies }
        ensures same { self.new ≡ record self.old { bodies = self.new.bodies } }
    {
        add_blocks(&mut self.bodies, &named.bodies);
    }

    // Marks blocks, each where it was not marked.
    fn mark_all(&mut self, names: &[u32]) -> Result<(), Fault>
        ensures marked { OnOk result (IsMarked self.old.order names.now self.new.order) }
        ensures same { self.new ≡ record self.old { order = self.new.order } }
        ensures begins { Begins self.old.order self.new.order }
        ensures why { IfErr result (IsMarkFault self.old.blocks names.now) }
    {
        for name in names {
            self.mark(*name)?;
        }
        Ok(())
    }

    // Marks a block, where it was not marked. Damaged where it is no data block.
    fn mark(&mut self, block: u32) -> Result<(), Fault>
        ensures marked { OnOk result (IsMarked self.old.order (block ∷ []) self.new.order) }
        ensures same { self.new ≡ record self.old { order = self.new.order } }
        ensures begins { Begins self.old.order self.new.order }
        ensures why { IfErr result (IsMarkFault self.old.blocks (block ∷ [])) }
    {
        if block < ANCHORS || block >= self.marks.blocks() {
            return Err(Fault::Damaged);
        }
        if !self.marks.contains(block) {
            self.order.push(block)?;
            self.marks.insert(block);
        }
        Ok(())
    }
}

/// Puts blocks of a list into a set, but those past its last block.
pub(crate) fn add_blocks(found: &mut BlockSet, list: &[u32])
    ensures noted { AreNoted found.old.members list.now found.old.blocks found.new.members }
    ensures size { found.new.blocks ≡ found.old.blocks }
{
    for block in list {
        if *block < found.blocks() {
            found.insert(*block);
        }
    }
}
