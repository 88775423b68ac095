//! The blocks that are bad, or that other roots reach.
ghost use Rattle.std.specs.Prelude.{◌≡◌, ◌⊎◌, ◌↔◌, ℕ, true, IfOk, IfErr};
ghost use Rattle.std.specs.FinSet as set;
ghost use Rattle.flash_model.specs.Geometry.{block_bytes};
ghost use Rattle.flash_model.specs.Reading.{OnlyReads};
ghost use Rattle.block_ring.specs.Ring.{IsDataBlock};
ghost use Rattle.node_store.specs.NodePages.{node_of};
ghost use Rattle.reclaim.specs.Verified.{AreRoots};
ghost use Rattle.block_usage.specs.Maps.{IsReady, ReadsCause};
ghost use Rattle.block_usage.specs.UsageReports.{AreApart};

use bad_blocks::BadBlocks;
use block_ring::Marks;
use flash_model::Flash;
use fs_types::{ANCHORS, Fault};
use mounting::marked_on;
use node_store::Storage;
use std::alloc::Global;

/// The data blocks of a flash that are bad or that some roots reach, each of which is known to have a tree.
pub(crate) fn mark_apart<F: Flash>(
    alloc: Global,
    flash: &mut F,
    storage: &mut Storage,
    others: &[u32],
) -> Result<Marks, Fault>
    requires ready { IsReady (F.device flash.old) storage.old }
    requires trees { AreRoots (block_bytes (F.device flash.old).geometry) (node_of (F.device flash.old)) others.now }
    ensures apart { IfOk result (λ marks. AreApart (F.device flash.old) others.now storage.old.bad marks.members) }
    ensures only_reads { OnlyReads (F.device flash.old) (F.device flash.new) }
    ensures ready { IsReady (F.device flash.new) storage.new }
    ensures bad { storage.new.bad ≡ storage.old.bad }
    ensures why { IfErr result (ReadsCause (F.device flash.old) (F.device flash.new)) }
{
    let mut marks = marked_on(alloc, flash, storage, others)?;
    add_bad(&mut marks, &storage.bad);
    Ok(marks)
}

/// Marks the data blocks that are bad too.
fn add_bad(marks: &mut Marks, bad: &BadBlocks)
    ensures { (b : ℕ) → IsDataBlock marks.old.blocks b → (set.contains marks.new.members b ≡ true) ↔ ((set.contains marks.old.members b ≡ true) ⊎ (set.contains bad.now b ≡ true)) }
{
    for block in ANCHORS..marks.blocks() {
        if bad.contains(block) {
            marks.insert(block);
        }
    }
}
