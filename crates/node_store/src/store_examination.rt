//! A store examines nodes, and keeps none of bodies.
ghost use Rattle.std.specs.Prelude.{◌≡◌, ◌≢◌, ◌+◌, ◌≤◌, true, false, length, Some, None, IfOk, IfErr, IsErrOf};
ghost use Rattle.fs_types.specs.declared.fault.Fault.TheVariants.{Damaged};
ghost use Rattle.node_format.specs.Headers.{body_header};
ghost use Rattle.nodes.specs.PageCounts.{most_pages};
ghost use Rattle.nodes.specs.Parts.{HasBodyHeader};
ghost use Rattle.nodes.specs.Faults.{IsReadFault};
ghost use Rattle.nodes.specs.Frames.{OnlyLooks};

use crate::node_examination::examine_node;
use crate::store::Store;
use flash_model::Flash;
use fs_types::Fault;
use nodes::Examines;

impl<F: Flash> Examines for Store<'_, F> {
    ghost use Rattle.std.specs.FinSet as set;
    ghost use Rattle.flash_model.specs.Geometry.{block_bytes as bytes_of_block};
    ghost use Rattle.node_store.specs.NodeCache.{first_bytes};
    ghost use Rattle.node_store.specs.NodePages.{node_of};
    ghost use Rattle.node_store.specs.Stores.{IsSoundStore, Follows, Causes};
    ghost use Rattle.node_store.specs.ExaminingLaws.{Asks_each};

    ghost asks_each = { Asks_each F.device };

    fn examine(&mut self, block: u32, header: &mut [u8]) -> Result<bool, Fault>
        requires sound { IsSoundStore F.device self.old }
        requires sized { length header.old ≡ body_header }
        ensures shown { IfOk result (λ is_lent. is_lent ≡ true → (node_of (F.device self.old.flash.now) block ≡ Some (first_bytes self.new.storage.now.cache.entries)) × Unit {0}) }
        ensures header { IfOk result (λ is_lent. is_lent ≡ false → HasBodyHeader (node_of (F.device self.old.flash.now) block) header.new) }
        ensures damaged { IsErrOf result Fault.Damaged → node_of (F.device self.old.flash.now) block ≡ None }
        ensures why { IfErr result (λ fault. fault ≢ Fault.Damaged → Causes F.device self.old self.new fault) }
        ensures faults { IfErr result IsReadFault }
        ensures looks { OnlyLooks (λ s. node_of (F.device s.flash.now)) (λ s. set.contains s.storage.now.ring.used) (λ s. s.writes.n) (Follows F.device) (IsSoundStore F.device) (λ s. bytes_of_block (F.device s.flash.now).geometry) (λ s. (F.device s.flash.now).geometry.blocks) self.old self.new }
        ensures reads { self.new.reads.n ≡ self.old.reads.n + 1 }
        ensures asks { (F.device self.new.flash.now).operations ≤ (F.device self.old.flash.now).operations + most_pages (F.device self.old.flash.now).geometry.page (bytes_of_block (F.device self.old.flash.now).geometry) (node_of (F.device self.old.flash.now) block) }

        // A node of a body that was not listed is not listed then.
        ensures keeps { IfOk result (λ is_lent. is_lent ≡ false → self.new.storage.now.cache ≡ self.old.storage.now.cache) }
    {
        self.reads = self.reads.more();
        examine_node(self.flash, self.storage, block, header)
    }
}
