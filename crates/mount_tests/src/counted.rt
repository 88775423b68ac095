//! Nodes that count how many reads they are asked.
ghost use Rattle.std.specs.Prelude.{◌≡◌};

use fs_types::Fault;
use node_store::{Examines, Nodes};

/// Other nodes, and how many reads were asked of them.
#[derive(Drop)]
pub(crate) struct Counted<N> {
    nodes: N,
    asked: u64,
}

impl<N> Counted<N> {
    /// Nodes of which no read was asked yet.
    pub(crate) fn new(nodes: N) -> Counted<N>
        ensures { result.nodes ≡ nodes }
    {
        Counted { nodes, asked: 0 }
    }

    /// How many reads were asked, refused ones too.
    pub(crate) fn asked(&self) -> u64 {
        self.asked
    }
}

impl<N: Nodes> Nodes for Counted<N> {
    ghost use Rattle.node_store.specs.FrameLaws.{Looks_on, Works_on, Looks_works};

    ghost node = { λ s. N.node s.nodes };

    ghost kept = { λ s. N.kept s.nodes };

    ghost shown = { λ s. N.shown s.nodes };

    ghost lends = { λ s. N.lends s.nodes };

    ghost beginning = { λ s. N.beginning s.nodes };

    ghost lends_front = { λ s. N.lends_front s.nodes };

    ghost partly = { λ s. N.partly s.nodes };

    ghost reads = { λ s. N.reads s.nodes };

    ghost writes = { λ s. N.writes s.nodes };

    ghost asked = { λ s. N.asked s.nodes };

    ghost page = { λ s. N.page s.nodes };

    ghost limit = { λ s. N.limit s.nodes };

    ghost blocks = { λ s. N.blocks s.nodes };

    ghost is_sound = { λ s. N.is_sound s.nodes };

    ghost follows = { λ s t. N.follows s.nodes t.nodes };

    ghost causes = { λ s t. N.causes s.nodes t.nodes };

    fn block_bytes(&self) -> u32 {
        self.nodes.block_bytes()
    }

    fn block_count(&self) -> u32 {
        self.nodes.block_count()
    }

    fn read(&mut self, block: u32) -> Result<(), Fault> {
        self.asked = self.asked.saturating_add(1);
        self.nodes.read(block)
    }

    fn lent(&self) -> &[u8] {
        self.nodes.lent()
    }

    fn front(&mut self, block: u32) -> Result<(), Fault> {
        self.asked = self.asked.saturating_add(1);
        self.nodes.front(block)
    }

    fn fronted(&self) -> &[u8] {
        self.nodes.fronted()
    }

    fn read_at(&mut self, block: u32, offset: u32, out: &mut [u8]) -> Result<(), Fault> {
        self.asked = self.asked.saturating_add(1);
        self.nodes.read_at(block, offset, out)
    }

    fn supersede(&mut self, block: u32) {
        self.nodes.supersede(block);
    }

    fn staying_count(&self) -> usize {
        self.nodes.staying_count()
    }

    fn write(&mut self, bytes: &[u8]) -> Result<u32, Fault> {
        self.nodes.write(bytes)
    }

    fn write_owned(&mut self, bytes: Vec<u8>) -> Result<u32, Fault> {
        self.nodes.write_owned(bytes)
    }

    ghost follows_itself = { λ s. N.follows_itself s.nodes };

    ghost follows_on = { λ s t u. N.follows_on s.nodes t.nodes u.nodes };

    ghost looks_on = { Looks_on (λ s t u. N.follows_on s.nodes t.nodes u.nodes) };

    ghost works_on = { Works_on (λ s t u. N.follows_on s.nodes t.nodes u.nodes) };

    ghost looks_works = { Looks_works };

    ghost causes_on = { λ s t u. N.causes_on s.nodes t.nodes u.nodes };

    ghost memory_may_want = { λ s t. N.memory_may_want s.nodes t.nodes };

    ghost stays_sound = { λ s t. N.stays_sound s.nodes t.nodes };

    ghost same_page = { λ s t. N.same_page s.nodes t.nodes };

    ghost least_page = { λ s. N.least_page s.nodes };

    ghost same_limit = { λ s t. N.same_limit s.nodes t.nodes };

    ghost same_blocks = { λ s t. N.same_blocks s.nodes t.nodes };

    ghost stays_kept = { λ s t. N.stays_kept s.nodes t.nodes };

    ghost was_fresh = { λ s t. N.was_fresh s.nodes t.nodes };

    ghost same_node = { λ s t. N.same_node s.nodes t.nodes };

    ghost whole = { λ s. N.whole s.nodes };

    ghost none_below = { λ s. N.none_below s.nodes };

    ghost none_beyond = { λ s. N.none_beyond s.nodes };
}

impl<N: Examines> Examines for Counted<N> {
    fn examine(&mut self, block: u32, header: &mut [u8]) -> Result<bool, Fault> {
        self.asked = self.asked.saturating_add(1);
        self.nodes.examine(block, header)
    }

    ghost asks_each = { λ s t. N.asks_each s.nodes t.nodes };
}
