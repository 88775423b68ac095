//! A store shows parts of nodes that are wanted once.
ghost use Rattle.std.specs.Prelude.{◌≡◌, ◌≢◌, ◌+◌, ◌≤◌, length, None, OnOk, IfErr, IsErrOf};
ghost use Rattle.fs_types.specs.declared.fault.Fault.TheVariants.{Damaged};
ghost use Rattle.flash_model.specs.Geometry.{IsGeometry, block_bytes};
ghost use Rattle.flash_model.specs.Reading.{OnlyReads};
ghost use Rattle.node_store.specs.NodeCache.{node_in};
ghost use Rattle.nodes.specs.Faults.{IsReadFault};
ghost use Rattle.node_store.specs.Fitting.{Fits, StillFits};
ghost use Rattle.nodes.specs.Frames.{OnlyLooks};
ghost use Rattle.node_store.specs.NodePages.{node_of};
ghost use Rattle.node_store.specs.Parts.{RefusesPart};
ghost use Rattle.nodes.specs.PageCounts.{pages_of_range};
ghost use Rattle.nodes.specs.Parts.{HasPart, LacksPart};

use crate::node_parts::{copy_part, read_part};
use crate::storage::Storage;
use crate::store::Store;
use flash_model::Flash;
use fs_types::Fault;
use nodes::Peeks;

/// Fills a slice with the bytes of the node of a block from an offset on. A listed node goes first and is
/// answered without the device. Of another block only the pages that hold the bytes are read, and what is
/// listed stays.
fn peek_part<F: Flash>(
    flash: &mut F,
    storage: &mut Storage,
    block: u32,
    offset: u32,
    out: &mut [u8],
) -> Result<(), Fault>
    requires lawful { IsGeometry (F.device flash.old).geometry }
    requires within { offset + length out.old ≤ block_bytes (F.device flash.old).geometry }
    requires fits { Fits (F.device flash.old) storage.old }

    // The bytes, or why not.
    ensures copied { OnOk result (HasPart (node_of (F.device flash.old) block) offset (length out.old) out.new) }
    ensures refuses { IfErr result (RefusesPart (F.device flash.old) (F.device flash.new) (node_of (F.device flash.old) block) offset (length out.old)) }

    // What stays.
    ensures fits { StillFits (F.device flash.old) storage.old (F.device flash.new) storage.new }
    ensures only_reads { OnlyReads (F.device flash.old) (F.device flash.new) }
    ensures bad { storage.new.bad ≡ storage.old.bad }
    ensures ring { storage.new.ring ≡ storage.old.ring }
    ensures partly { storage.new.partly ≡ storage.old.partly }
    ensures unlisted { node_in storage.old.cache block ≡ None → storage.new.cache ≡ storage.old.cache }

    // Each page that holds the bytes is read once, and no more than a block has.
    ensures operations { (F.device flash.new).operations ≤ (F.device flash.old).operations + pages_of_range (F.device flash.old).geometry.page offset (length out.old) }
    ensures most { (F.device flash.new).operations ≤ (F.device flash.old).operations + (F.device flash.old).geometry.pages }
{
    if storage.cache.promote(block) {
        copy_part(storage.cache.first(), offset, out);
        return Ok(());
    }
    read_part(flash, block, offset, &mut storage.page, out)
}

impl<F: Flash> Peeks for Store<'_, F> {
    ghost use Rattle.std.specs.FinSet as set;
    ghost use Rattle.flash_model.specs.Geometry.{block_bytes as bytes_of_block};
    ghost use Rattle.node_store.specs.Stores.{IsSoundStore, Follows, Causes};

    fn page_bytes(&self) -> u32 {
        self.flash.geometry().page
    }

    fn peek_at(&mut self, block: u32, offset: u32, out: &mut [u8]) -> Result<(), Fault>
        requires sound { IsSoundStore F.device self.old }
        requires within { offset + length out.old ≤ bytes_of_block (F.device self.old.flash.now).geometry }
        ensures copied { OnOk result (HasPart (node_of (F.device self.old.flash.now) block) offset (length out.old) out.new) }
        ensures damaged { IsErrOf result Fault.Damaged → LacksPart (node_of (F.device self.old.flash.now) block) offset (length out.old) }
        ensures why { IfErr result (λ fault. fault ≢ Fault.Damaged → Causes F.device self.old self.new fault) }
        ensures faults { IfErr result IsReadFault }
        ensures looks { OnlyLooks (λ s. node_of (F.device s.flash.now)) (λ s. set.contains s.storage.now.ring.used) (λ s. s.writes.n) (Follows F.device) (IsSoundStore F.device) (λ s. bytes_of_block (F.device s.flash.now).geometry) (λ s. (F.device s.flash.now).geometry.blocks) self.old self.new }
        ensures reads { self.new.reads.n ≡ self.old.reads.n + 1 }
        ensures partly { self.new.storage.now.partly ≡ self.old.storage.now.partly }
        ensures asks { (F.device self.new.flash.now).operations ≤ (F.device self.old.flash.now).operations + pages_of_range (F.device self.old.flash.now).geometry.page offset (length out.old) }

        // A node that was not listed is not listed then.
        ensures unlisted { node_in self.old.storage.now.cache block ≡ None → self.new.storage.now.cache ≡ self.old.storage.now.cache }
    {
        self.reads = self.reads.more();
        peek_part(self.flash, self.storage, block, offset, out)
    }
}
