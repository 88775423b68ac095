//! The trait of what keeps nodes in blocks.
ghost use Rattle.std.specs.Prelude.{◌≡◌, ◌≢◌, ℕ, ◌+◌, ◌≤◌, ◌<◌, Bool, true, false, List, length, Option, Some, None, OnOk, IfOk, IfErr, IsErrOf};
ghost use Rattle.fs_types.specs.declared.fault.Fault.{Fault};
ghost use Rattle.fs_types.specs.declared.fault.Fault.TheVariants.{NoMemory, Damaged};
ghost use Rattle.fs_types.specs.declared.limits.TheConstants.{ANCHORS, MIN_BLOCK_BYTES};
ghost use Rattle.node_format.specs.Headers.{IsNode};
ghost use Rattle.nodes.specs.Faults.{IsLookFault, IsReadFault, IsWriteFault};
ghost use Rattle.nodes.specs.Frames.{OnlyLooks, Works};
ghost use Rattle.nodes.specs.Parts.{IsFront, HasPart, LacksPart};
ghost use Rattle.nodes.specs.PageCounts.{pages_for, pages_of_range};

use fs_types::Fault;

/// What keeps nodes in blocks: a node is read by its block, and written to a block that was not
/// kept. A kept block stays kept, and keeps its node, whatever is called.
///
/// `follows` says that one state came of another by calls, and `causes` why a refusal may come
/// between two states, so that code over any such type hands on what it cannot see.
pub trait Nodes {
    // the bytes of the node in a block, none where it holds none
    ghost node: { Self → ℕ → Option (List ℕ) };

    // the blocks that no write takes
    ghost kept: { Self → ℕ → Bool };

    // the bytes that `lent` gives, and whether it may be called
    ghost shown: { Self → List ℕ };

    ghost lends: { Self → Type 0 };

    // the bytes that `fronted` gives, and whether it may be called
    ghost beginning: { Self → List ℕ };

    ghost lends_front: { Self → Type 0 };

    // the block of which a part was read last, which is read whole next; 0 where there is none
    ghost partly: { Self → ℕ };

    // how many reads and writes were asked, refused ones too; a front is a read
    ghost reads: { Self → ℕ };

    ghost writes: { Self → ℕ };

    // how many pages were asked of the flash
    ghost asked: { Self → ℕ };

    // the bytes of a page and of a block, and the number of blocks
    ghost page: { Self → ℕ };

    ghost limit: { Self → ℕ };

    ghost blocks: { Self → ℕ };

    // what calls ask of the state, and leave
    ghost is_sound: { Self → Type 0 };

    // the second state came of the first by calls
    ghost follows: { Self → Self → Type 0 };

    // a refusal may come between the two states
    ghost causes: { Self → Self → Fault → Type 0 };

    /// The bytes of a block: no node has more.
    fn block_bytes(&self) -> u32
        requires { is_sound self.now }
        ensures value { result ≡ limit self.now }
        ensures least { MIN_BLOCK_BYTES ≤ result }
        ensures most { result ≤ 262144 };

    /// The number of blocks, anchors included.
    fn block_count(&self) -> u32
        ensures { result ≡ blocks self.now };

    /// Brings the node in a block, for `lent` to lend. Any number may be asked: `Damaged` where the
    /// block holds no node, anchors and numbers past the last block among them.
    fn read(&mut self, block: u32) -> Result<(), Fault>
        requires { is_sound self.old }
        ensures shown { OnOk result (node self.old block ≡ Some (shown self.new)) }
        ensures lends { OnOk result (lends self.new) }

        // Damaged where there is no node, and only there.
        ensures damaged { IsErrOf result Fault.Damaged → node self.old block ≡ None }
        ensures why { IfErr result (λ fault. fault ≢ Fault.Damaged → causes self.old self.new fault) }
        ensures faults { IfErr result IsReadFault }

        // Whatever is answered, no block changes.
        ensures looks { OnlyLooks node kept writes follows is_sound limit blocks self.old self.new }
        ensures reads { reads self.new ≡ reads self.old + 1 }

        // Each page of the node is asked once, and no more than a block has, whatever is answered.
        ensures asks { OnOk result (asked self.new ≤ asked self.old + pages_for (page self.old) (length (shown self.new))) }
        ensures asks_most { asked self.new ≤ asked self.old + pages_for (page self.old) (limit self.old) };

    /// The bytes of the node that the last read brought. A read answered Ok before, and no read or
    /// write came since.
    fn lent(&self) -> &[u8]
        requires { lends self.now }
        ensures { result.now ≡ shown self.now };

    /// Brings the beginning of the node in a block, for `fronted` to lend: its first page, or more of
    /// it. Any number may be asked; where the block holds no node, what is brought may be anything.
    fn front(&mut self, block: u32) -> Result<(), Fault>
        requires { is_sound self.old }
        ensures begins { OnOk result ((bytes : List ℕ) → node self.old block ≡ Some bytes → IsFront (page self.old) (beginning self.new) bytes) }
        ensures lends { OnOk result (lends_front self.new) }
        ensures partly { partly self.new ≡ partly self.old }

        // Damaged only where there is no node.
        ensures damaged { IsErrOf result Fault.Damaged → node self.old block ≡ None }
        ensures why { IfErr result (λ fault. fault ≢ Fault.Damaged → causes self.old self.new fault) }
        ensures faults { IfErr result IsReadFault }

        // Whatever is answered, no block changes, and one page is asked at most.
        ensures looks { OnlyLooks node kept writes follows is_sound limit blocks self.old self.new }
        ensures reads { reads self.new ≡ reads self.old + 1 }
        ensures asks { asked self.new ≤ asked self.old + 1 };

    /// The bytes that the last front brought. A front answered Ok before, and no read, front or write
    /// came since.
    fn fronted(&self) -> &[u8]
        requires { lends_front self.now }
        ensures { result.now ≡ beginning self.now };

    /// Fills `out` with the bytes of the node in a block, from an offset on. Any number may be asked;
    /// where the node has not so many bytes, or there is none, `out` may then hold anything.
    ///
    /// Only the pages that hold these bytes are asked, unless a part of the block was read last: then
    /// the node is read whole. Nothing may be lent after it.
    fn read_at(&mut self, block: u32, offset: u32, out: &mut [u8]) -> Result<(), Fault>
        requires sound { is_sound self.old }
        requires within { offset + length out.old ≤ limit self.old }
        ensures copied { OnOk result (HasPart (node self.old block) offset (length out.old) out.new) }

        // Damaged only where the node has not so many bytes, or there is none.
        ensures damaged { IsErrOf result Fault.Damaged → LacksPart (node self.old block) offset (length out.old) }
        ensures why { IfErr result (λ fault. fault ≢ Fault.Damaged → causes self.old self.new fault) }
        ensures faults { IfErr result IsReadFault }

        // Whatever is answered, no block changes.
        ensures looks { OnlyLooks node kept writes follows is_sound limit blocks self.old self.new }
        ensures reads { reads self.new ≡ reads self.old + 1 }

        // Each page that holds the bytes is asked once, and no more than a block has, whatever is answered.
        ensures asks { partly self.old ≢ block → asked self.new ≤ asked self.old + pages_of_range (page self.old) offset (length out.old) }
        ensures asks_most { asked self.new ≤ asked self.old + pages_for (page self.old) (limit self.old) };

    /// Takes a node out of memory that is not read again soon, as one whose successor is written next.
    /// Nothing may be lent then, and no block changes.
    fn supersede(&mut self, block: u32)
        requires { is_sound self.old }
        ensures looks { OnlyLooks node kept writes follows is_sound limit blocks self.old self.new }
        ensures reads { reads self.new ≡ reads self.old }
        ensures asks { asked self.new ≡ asked self.old };

    /// How many new nodes of a file stay in memory where it is written, from its last one back.
    fn staying_count(&self) -> usize;

    /// Writes a node to a block that was not kept, and answers the block.
    fn write(&mut self, bytes: &[u8]) -> Result<u32, Fault>
        requires sound { is_sound self.old }
        requires whole { IsNode (limit self.old) bytes.now }
        ensures fresh { IfOk result (λ block. kept self.old block ≡ false) }
        ensures kept { IfOk result (λ block. kept self.new block ≡ true) }
        ensures written { IfOk result (λ block. node self.new block ≡ Some bytes.now) }
        ensures why { IfErr result (λ fault. causes self.old self.new fault) }
        ensures faults { IfErr result IsWriteFault }

        // Whatever is answered, each block that was kept stays so, with its node: the laws of `follows` say so.
        ensures works { Works follows is_sound limit blocks self.old self.new }
        ensures reads { reads self.new ≡ reads self.old }
        ensures writes { writes self.new ≡ writes self.old + 1 };

    /// The same with bytes that move into memory.
    fn write_owned(&mut self, bytes: Vec<u8>) -> Result<u32, Fault>
        requires sound { is_sound self.old }
        requires whole { IsNode (limit self.old) bytes.items }

        // The block, or why there is none.
        ensures fresh { IfOk result (λ block. kept self.old block ≡ false) }
        ensures kept { IfOk result (λ block. kept self.new block ≡ true) }
        ensures written { IfOk result (λ block. node self.new block ≡ Some bytes.items) }
        ensures why { IfErr result (λ fault. causes self.old self.new fault) }
        ensures faults { IfErr result IsWriteFault }

        // Whatever is answered, each block that was kept stays so, with its node.
        ensures works { Works follows is_sound limit blocks self.old self.new }
        ensures reads { reads self.new ≡ reads self.old }
        ensures writes { writes self.new ≡ writes self.old + 1 };

    ghost follows_itself: { (s : Self) → follows s s };

    ghost follows_on: { (s t u : Self) → follows s t → follows t u → follows s u };

    // calls one after the other; a call that only reads is one that may write
    ghost looks_on: { (s t u : Self) → OnlyLooks node kept writes follows is_sound limit blocks s t → OnlyLooks node kept writes follows is_sound limit blocks t u → OnlyLooks node kept writes follows is_sound limit blocks s u };

    ghost works_on: { (s t u : Self) → Works follows is_sound limit blocks s t → Works follows is_sound limit blocks t u → Works follows is_sound limit blocks s u };

    ghost looks_works: { (s t : Self) → OnlyLooks node kept writes follows is_sound limit blocks s t → Works follows is_sound limit blocks s t };

    ghost causes_on: { (s t u : Self) (fault : Fault) → follows s t → causes t u fault → causes s u fault };

    // a call may want memory at any time
    ghost memory_may_want: { (s t : Self) → causes s t NoMemory };

    ghost stays_sound: { (s t : Self) → follows s t → is_sound s → is_sound t };

    ghost same_page: { (s t : Self) → follows s t → page t ≡ page s };

    // a page has room for the header of each node
    ghost least_page: { (s : Self) → is_sound s → 256 ≤ page s };

    ghost same_limit: { (s t : Self) → follows s t → limit t ≡ limit s };

    ghost same_blocks: { (s t : Self) → follows s t → blocks t ≡ blocks s };

    ghost stays_kept: { (s t : Self) (b : ℕ) → follows s t → kept s b ≡ true → kept t b ≡ true };

    // a block that is not kept later was not kept before
    ghost was_fresh: { (s t : Self) (b : ℕ) → follows s t → kept t b ≡ false → kept s b ≡ false };

    ghost same_node: { (s t : Self) (b : ℕ) → is_sound s → follows s t → kept s b ≡ true → node t b ≡ node s b };

    // what a block holds are the bytes of one node
    ghost whole: { (s : Self) (b : ℕ) (bytes : List ℕ) → is_sound s → node s b ≡ Some bytes → IsNode (limit s) bytes };

    // anchors, and numbers past the last block, hold no node
    ghost none_below: { (s : Self) (b : ℕ) → b < ANCHORS → node s b ≡ None };

    ghost none_beyond: { (s : Self) (b : ℕ) → blocks s ≤ b → node s b ≡ None };
}

/// Brings the node in a block, for `lent` to lend; whether there is one.
pub fn brings<N: Nodes>(nodes: &mut N, block: u32) -> Result<bool, Fault>
    requires { N.is_sound nodes.old }
    ensures shown { IfOk result (λ brought. brought ≡ true → N.node nodes.old block ≡ Some (N.shown nodes.new)) }
    ensures lends { IfOk result (λ brought. brought ≡ true → N.lends nodes.new) }
    ensures none { IfOk result (λ brought. brought ≡ false → N.node nodes.old block ≡ None) }
    ensures why { IfErr result (λ fault. N.causes nodes.old nodes.new fault) }
    ensures faults { IfErr result IsLookFault }
    ensures looks { OnlyLooks N.node N.kept N.writes N.follows N.is_sound N.limit N.blocks nodes.old nodes.new }
    ensures reads { N.reads nodes.new ≡ N.reads nodes.old + 1 }
    // Each page of the node is asked once, and no more than a block has, whatever is answered.
    ensures asks { IfOk result (λ brought. brought ≡ true → N.asked nodes.new ≤ N.asked nodes.old + pages_for (N.page nodes.old) (length (N.shown nodes.new))) }
    ensures asks_most { N.asked nodes.new ≤ N.asked nodes.old + pages_for (N.page nodes.old) (N.limit nodes.old) }
{
    match nodes.read(block) {
        Ok(()) => Ok(true),
        Err(Fault::Damaged) => Ok(false),
        Err(fault) => Err(fault),
    }
}
