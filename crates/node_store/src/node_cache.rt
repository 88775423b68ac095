//! A bounded list of blocks with their nodes, the one that was used last first.
ghost use Rattle.std.specs.Prelude.{◌≡◌, ◌≢◌, ◌↔◌, ◌⊎◌, ◌<◌, ℕ, List, [], true, false, is_some, length, drop, find, not, Some, Err, IfOk, IfErr, OnOk, OnErr};
ghost use Rattle.std.specs.FinSet as set;
ghost use Rattle.std.specs.Map.{keys_of};
ghost use Rattle.node_store.specs.NodeCache.{node_in, with_first, without, with_blocks, first_bytes, IsBounded};

use block_ring::Ring;
use fs_types::Fault;
use lru::LruCache;
use std::alloc::Global;
use std::marker::Model;
use std::num::NonZeroUsize;

/// The most nodes that are kept.
pub const MAX_CACHED_NODES: usize = 64;

/// Blocks with the bytes of their nodes, the one that was used last first, and as many at most as
/// there is room for.
#[derive(Drop)]
pub struct NodeCache {
    nodes: LruCache<u32, Vec<u8>>,
}

impl Model for NodeCache {
    ghost use Rattle.node_store.specs.NodeCache.{NodeCache as Cache, cache_code, entries_as_bytes};

    ghost Value = { Cache };

    ghost coded = { cache_code };

    ghost view = { λ c. record { entries = entries_as_bytes c.nodes.entries; room = c.nodes.cap } };
}

impl NodeCache {
    /// No block is listed, and there is room for `room`; [`Fault::Invalid`] where this is not 1 to [`MAX_CACHED_NODES`].
    pub fn new(alloc: Global, room: usize) -> Result<NodeCache, Fault>
        ensures ok { IfOk result (λ c. c ≡ record { entries = []; room = room }) }
        ensures room { (result ≡ Err Fault.Invalid) ↔ ((room < 1) ⊎ (MAX_CACHED_NODES < room)) }
        ensures most { MAX_CACHED_NODES ≡ 64 }
        ensures err { IfErr result (λ fault. fault ≢ Fault.Invalid → fault ≡ Fault.NoMemory) }
    {
        if MAX_CACHED_NODES < room {
            return Err(Fault::Invalid);
        }
        let room = NonZeroUsize::new(room).ok_or(Fault::Invalid)?;
        let nodes = LruCache::new(alloc, room)?;
        Ok(NodeCache { nodes })
    }

    /// How many blocks are listed.
    pub fn len(&self) -> usize
        ensures value { result ≡ length self.now.entries }
        ensures bounded { IsBounded self.now }
    {
        self.nodes.len()
    }

    /// How many blocks there is room for.
    pub fn room(&self) -> usize
        ensures { result ≡ self.now.room }
    {
        self.nodes.cap().get()
    }

    /// The bytes of the node that is listed first; none where no block is listed.
    pub fn first(&self) -> &[u8]
        ensures { result.now ≡ first_bytes self.now.entries }
    {
        match self.nodes.peek_mru() {
            Some((_, node)) => node,
            None => &[],
        }
    }

    /// Moves a block to the front where it is listed, and answers whether it is.
    pub fn promote(&mut self, block: u32) -> bool
        ensures value { result ≡ is_some (node_in self.old block) }
        ensures moved { (bytes : List ℕ) → node_in self.old block ≡ Some bytes → self.new ≡ with_first self.old block bytes }
        ensures stays { result ≡ false → self.new ≡ self.old }
        ensures bounded { IsBounded self.old }
    {
        // No block is listed twice, nor more than there is room for, as its contract tells.
        let _ = self.nodes.len();
        self.nodes.promote(&block)
    }

    /// Lists a block first with its node, which moves in.
    pub fn list(&mut self, block: u32, node: Vec<u8>) -> Result<(), Fault>
        ensures listed { OnOk result (self.new ≡ with_first self.old block node.items) }
        ensures same { OnErr result (self.new ≡ self.old) }
        ensures err { IfErr result (λ fault. fault ≡ Fault.NoMemory) }
        ensures bounded { IsBounded self.old }
    {
        // No block is listed twice, nor more than there is room for, as its contract tells.
        let _ = self.nodes.len();
        self.nodes.put(block, node)?;
        Ok(())
    }

    /// Takes the block out that is listed first, and hands its node out; none where no block is listed.
    pub fn take_first(&mut self) -> Vec<u8>
        ensures node { result.items ≡ first_bytes self.old.entries }
        ensures rest { self.new ≡ record self.old { entries = drop 1 self.old.entries } }
    {
        let Some((_, node)) = self.nodes.pop_mru() else {
            return Vec::new(*self.nodes.allocator());
        };
        node
    }

    /// Takes a block out.
    pub fn forget(&mut self, block: u32)
        ensures taken { self.new ≡ without self.old block }
        ensures bounded { IsBounded self.old }
    {
        // No block is listed twice, nor more than there is room for, as its contract tells.
        let _ = self.nodes.len();
        self.nodes.pop(&block);
    }

    /// Takes all blocks out.
    pub fn clear(&mut self)
        ensures { self.new ≡ record self.old { entries = [] } }
    {
        self.nodes.clear();
    }

    /// Takes out each block that the ring does not have as used.
    pub fn forget_unused(&mut self, ring: &Ring)
        ensures { self.new ≡ record self.old { entries = with_blocks (set.contains ring.now.used) self.old.entries } }
    {
        'unused: loop {
            let Some(block) = self.first_unused(ring) else {
                return;
            };
            self.forget(block);
        }
    }

    // The first listed block that the ring does not have as used.
    fn first_unused(&self, ring: &Ring) -> Option<u32>
        ensures { result ≡ find (λ b. not (set.contains ring.now.used b)) (keys_of self.now.entries) }
    {
        let (block, _) = self.nodes.iter().find(|(block, _)| !ring.is_used(**block))?;
        Some(*block)
    }
}
