//! Nodes in the data blocks of a flash.
use crate::added_nodes::{write_node, write_owned_node};
use crate::cached_reads::read_first;
use crate::fronts::bring_front;
use crate::node_parts::bring_part;
use crate::storage::Storage;
use flash_model::Flash;
use fs_types::{Count, Fault, MAX_NAMES};
use nodes::Nodes;

/// Keeps nodes in the data blocks of a lent flash. The kept blocks are those that the ring has as
/// used.
///
/// A node is lent from the cache of those that were used last: a listed block is read without the
/// device, and one that is read or written goes first. Of a node that is not listed a part is read by the
/// pages that hold it, and whole where a part of it was read last: so no more pages are asked for the
/// parts of a node one after the other than for the node and a part of it.
///
/// A write takes a block, erases it and programs its pages. A block of which an operation failed
/// goes into the bad list, and the next one is taken.
#[derive(Drop)]
pub struct Store<'a, F: Flash> {
    /// The flash.
    pub flash: &'a mut F,
    /// The bad and the used blocks, and the nodes that were used last.
    pub storage: &'a mut Storage,
    /// How many reads were asked.
    pub reads: Count,
    /// How many writes were asked.
    pub writes: Count,
    /// Whether the front that was brought last stands in the page.
    pub in_page: bool,
}

impl<'a, F: Flash> Store<'a, F> {
    ghost use Rattle.std.specs.Prelude.{◌≡◌};

    /// The nodes on a flash, of which no read and no write was asked yet.
    pub fn new(flash: &'a mut F, storage: &'a mut Storage) -> Store<'a, F>
        ensures flash { result.flash ≡ flash.entry }
        ensures storage { result.storage ≡ storage.entry }
        ensures reads { result.reads.n ≡ 0 }
        ensures writes { result.writes.n ≡ 0 }
    {
        Store {
            flash,
            storage,
            reads: Count::zero(),
            writes: Count::zero(),
            in_page: false,
        }
    }
}

impl<F: Flash> Nodes for Store<'_, F> {
    ghost use Rattle.std.specs.Prelude.{◌≡◌, ◌≢◌, ℕ, ◌+◌, ◌-◌, ◌≤◌, max, List, length, Some, None, OnOk, IfErr, IsErrOf};
    ghost use Rattle.node_store.specs.Caching.{Fetches};
    ghost use Rattle.nodes.specs.Faults.{IsReadFault};
    ghost use Rattle.nodes.specs.Frames.{OnlyLooks};
    ghost use Rattle.node_store.specs.Fronts.{Fronts, front_in};
    ghost use Rattle.nodes.specs.Parts.{IsFront, HasPart, LacksPart};
    ghost use Rattle.std.proofs.Common.{ap};
    ghost use Rattle.std.specs.FinSet as set;
    ghost use Rattle.flash_model.specs.Geometry.{block_bytes as bytes_of_block};
    ghost use Rattle.node_store.specs.NodeCache.{first_bytes, without};
    ghost use Rattle.node_store.specs.NodePages.{node_of};
    ghost use Rattle.nodes.specs.PageCounts.{pages_for, pages_of_range};
    ghost use Rattle.node_store.specs.NodeLaws.{lawful_has_room, node_of-whole, node_of-anchor, node_of-beyond};
    ghost use Rattle.node_store.specs.Parts.{ReadsPart};
    ghost use Rattle.node_store.specs.StorageLaws.{Evolved_fresh};
    ghost use Rattle.node_store.specs.Stores.{parts, IsSoundStore, Follows, Causes};
    ghost use Rattle.nodes.specs.FrameLaws.{Looks_on, Works_on, Looks_works};
    ghost use Rattle.node_store.specs.StoreLaws.{Evolved_node, Follows_itself, Follows_on, Causes_on, Sound_on};

    ghost node = { λ s. node_of (F.device s.flash.now) };

    ghost kept = { λ s. set.contains s.storage.now.ring.used };

    ghost shown = { λ s. first_bytes s.storage.now.cache.entries };

    ghost lends = { λ _. Unit {0} };

    ghost beginning = { λ s. front_in s.in_page s.storage.now };

    ghost lends_front = { λ _. Unit {0} };

    ghost partly = { λ s. s.storage.now.partly };

    ghost reads = { λ s. s.reads.n };

    ghost writes = { λ s. s.writes.n };

    ghost asked = { λ s. (F.device s.flash.now).operations };

    ghost page = { λ s. (F.device s.flash.now).geometry.page };

    ghost limit = { λ s. bytes_of_block (F.device s.flash.now).geometry };

    ghost blocks = { λ s. (F.device s.flash.now).geometry.blocks };

    ghost is_sound = { IsSoundStore F.device };

    ghost follows = { Follows F.device };

    ghost causes = { Causes F.device };

    fn block_bytes(&self) -> u32 {
        self.flash.geometry().block_bytes() as u32
    }

    fn block_count(&self) -> u32 {
        self.flash.geometry().blocks
    }

    fn read(&mut self, block: u32) -> Result<(), Fault>
        requires { IsSoundStore F.device self.old }
        ensures shown { OnOk result (node_of (F.device self.old.flash.now) block ≡ Some (first_bytes self.new.storage.now.cache.entries)) }
        ensures lends { OnOk result (Unit {0}) }
        ensures damaged { IsErrOf result Fault.Damaged → node_of (F.device self.old.flash.now) block ≡ None }
        ensures why { IfErr result (λ fault. fault ≢ Fault.Damaged → Causes F.device self.old self.new fault) }
        ensures faults { IfErr result IsReadFault }
        ensures looks { OnlyLooks (λ s. node_of (F.device s.flash.now)) (λ s. set.contains s.storage.now.ring.used) (λ s. s.writes.n) (Follows F.device) (IsSoundStore F.device) (λ s. bytes_of_block (F.device s.flash.now).geometry) (λ s. (F.device s.flash.now).geometry.blocks) self.old self.new }
        ensures reads { self.new.reads.n ≡ self.old.reads.n + 1 }
        ensures asks { OnOk result ((F.device self.new.flash.now).operations ≤ (F.device self.old.flash.now).operations + pages_for (F.device self.old.flash.now).geometry.page (length (first_bytes self.new.storage.now.cache.entries))) }
        ensures asks_most { (F.device self.new.flash.now).operations ≤ (F.device self.old.flash.now).operations + pages_for (F.device self.old.flash.now).geometry.page (bytes_of_block (F.device self.old.flash.now).geometry) }

        // A listed block is answered without the device, and after Ok the block is listed first.
        ensures fetches { Fetches (F.device self.old.flash.now) self.old.storage.now.cache block (F.device self.new.flash.now) self.new.storage.now.cache result }
    {
        self.reads = self.reads.more();
        read_first(self.flash, self.storage, block)
    }

    fn lent(&self) -> &[u8] {
        self.storage.cache.first()
    }

    fn front(&mut self, block: u32) -> Result<(), Fault>
        requires { IsSoundStore F.device self.old }
        ensures begins { OnOk result ((bytes : List ℕ) → node_of (F.device self.old.flash.now) block ≡ Some bytes → IsFront (F.device self.old.flash.now).geometry.page (front_in self.new.in_page self.new.storage.now) bytes) }
        ensures lends { OnOk result (Unit {0}) }
        ensures partly { self.new.storage.now.partly ≡ self.old.storage.now.partly }
        ensures damaged { IsErrOf result Fault.Damaged → node_of (F.device self.old.flash.now) block ≡ None }
        ensures why { IfErr result (λ fault. fault ≢ Fault.Damaged → Causes F.device self.old self.new fault) }
        ensures faults { IfErr result IsReadFault }
        ensures looks { OnlyLooks (λ s. node_of (F.device s.flash.now)) (λ s. set.contains s.storage.now.ring.used) (λ s. s.writes.n) (Follows F.device) (IsSoundStore F.device) (λ s. bytes_of_block (F.device s.flash.now).geometry) (λ s. (F.device s.flash.now).geometry.blocks) self.old self.new }
        ensures reads { self.new.reads.n ≡ self.old.reads.n + 1 }
        ensures asks { (F.device self.new.flash.now).operations ≤ (F.device self.old.flash.now).operations + 1 }

        // A listed node is lent whole without the device and goes first, and of another block the first page is.
        ensures fronts { Fronts (F.device self.old.flash.now) self.old.storage.now.cache block (F.device self.new.flash.now) self.new.storage.now.cache (front_in self.new.in_page self.new.storage.now) result }
    {
        self.reads = self.reads.more();
        self.in_page = bring_front(self.flash, self.storage, block)?;
        Ok(())
    }

    fn fronted(&self) -> &[u8] {
        if self.in_page {
            return &self.storage.page;
        }
        self.storage.cache.first()
    }

    fn read_at(&mut self, block: u32, offset: u32, out: &mut [u8]) -> Result<(), Fault>
        requires sound { IsSoundStore F.device self.old }
        requires within { offset + length out.old ≤ bytes_of_block (F.device self.old.flash.now).geometry }
        ensures copied { OnOk result (HasPart (node_of (F.device self.old.flash.now) block) offset (length out.old) out.new) }
        ensures damaged { IsErrOf result Fault.Damaged → LacksPart (node_of (F.device self.old.flash.now) block) offset (length out.old) }
        ensures why { IfErr result (λ fault. fault ≢ Fault.Damaged → Causes F.device self.old self.new fault) }
        ensures faults { IfErr result IsReadFault }
        ensures looks { OnlyLooks (λ s. node_of (F.device s.flash.now)) (λ s. set.contains s.storage.now.ring.used) (λ s. s.writes.n) (Follows F.device) (IsSoundStore F.device) (λ s. bytes_of_block (F.device s.flash.now).geometry) (λ s. (F.device s.flash.now).geometry.blocks) self.old self.new }
        ensures reads { self.new.reads.n ≡ self.old.reads.n + 1 }
        ensures asks { self.old.storage.now.partly ≢ block → (F.device self.new.flash.now).operations ≤ (F.device self.old.flash.now).operations + pages_of_range (F.device self.old.flash.now).geometry.page offset (length out.old) }
        ensures asks_most { (F.device self.new.flash.now).operations ≤ (F.device self.old.flash.now).operations + pages_for (F.device self.old.flash.now).geometry.page (bytes_of_block (F.device self.old.flash.now).geometry) }

        // A listed node goes first, one of which a part was read last is listed, and of another only the part is read.
        ensures part { ReadsPart (F.device self.old.flash.now) self.old.storage.now block (F.device self.new.flash.now) self.new.storage.now result }
    {
        self.reads = self.reads.more();
        bring_part(self.flash, self.storage, block, offset, out)
    }

    fn supersede(&mut self, block: u32)
        requires { IsSoundStore F.device self.old }
        ensures looks { OnlyLooks (λ s. node_of (F.device s.flash.now)) (λ s. set.contains s.storage.now.ring.used) (λ s. s.writes.n) (Follows F.device) (IsSoundStore F.device) (λ s. bytes_of_block (F.device s.flash.now).geometry) (λ s. (F.device s.flash.now).geometry.blocks) self.old self.new }
        ensures reads { self.new.reads.n ≡ self.old.reads.n }
        ensures asks { (F.device self.new.flash.now).operations ≡ (F.device self.old.flash.now).operations }

        // The block is taken out of the cache, the one that was read in part last stays that, and the device is not asked.
        ensures device { F.device self.new.flash.now ≡ F.device self.old.flash.now }
        ensures forgets { self.new.storage.now.cache ≡ without self.old.storage.now.cache block }
        ensures partly { self.new.storage.now.partly ≡ self.old.storage.now.partly }
    {
        self.storage.cache.forget(block);
    }

    fn staying_count(&self) -> usize
        ensures { result ≡ max 1 (self.now.storage.now.cache.room - (MAX_NAMES + 2)) }
    {
        let room = self.storage.cache.room();
        // The rest is for the directories of the longest path, a new node and an old one.
        room.saturating_sub(MAX_NAMES + 2).max(1)
    }

    fn write(&mut self, bytes: &[u8]) -> Result<u32, Fault> {
        self.writes = self.writes.more();
        write_node(self.flash, self.storage, bytes)
    }

    fn write_owned(&mut self, bytes: Vec<u8>) -> Result<u32, Fault> {
        self.writes = self.writes.more();
        write_owned_node(self.flash, self.storage, bytes)
    }

    ghost follows_itself = { Follows_itself F.device };

    ghost follows_on = { Follows_on F.device };

    ghost looks_on = { Looks_on (Follows_on F.device) };

    ghost works_on = { Works_on (Follows_on F.device) };

    ghost looks_works = { Looks_works };

    ghost causes_on = { Causes_on F.device };

    ghost memory_may_want = { λ s t. record { reason = tt } };

    ghost stays_sound = { Sound_on F.device };

    ghost same_page = { λ s t f. ap (λ g. g.page) f.evolved.geometry };

    ghost least_page = { λ s sound. (lawful_has_room (F.device s.flash.now).geometry sound.lawful).page };

    ghost same_limit = { λ s t f. ap bytes_of_block f.evolved.geometry };

    ghost same_blocks = { λ s t f. ap (λ g. g.blocks) f.evolved.geometry };

    ghost stays_kept = { λ s t b f kept. f.evolved.kept b kept };

    ghost was_fresh = { λ s t b f. Evolved_fresh (parts F.device s) (parts F.device t) b f.evolved };

    ghost same_node = { λ s t b sound f. Evolved_node (parts F.device s) (parts F.device t) b sound.lawful f.evolved };

    ghost whole = { λ s b bytes sound. node_of-whole (F.device s.flash.now) b bytes sound.lawful (F.whole_pages s.flash.now) };

    ghost none_below = { λ s. node_of-anchor (F.device s.flash.now) };

    ghost none_beyond = { λ s. node_of-beyond (F.device s.flash.now) };
}
