//! What is known of the blocks of a flash before their pages are looked at.
ghost use Rattle.std.specs.Prelude.{◌≡◌, ◌<◌, ℕ, length, IfOk, IfErr};
ghost use Rattle.std.specs.FinSet as set;
ghost use Rattle.flash_model.specs.Device.{Device};
ghost use Rattle.flash_model.specs.Geometry.{block_bytes};
ghost use Rattle.flash_model.specs.Reading.{OnlyReads};
ghost use Rattle.history_machine.specs.History.{Past};
ghost use Rattle.node_store.specs.NodePages.{node_of};
ghost use Rattle.reclaim.specs.Verified.{AreRoots};
ghost use Rattle.block_usage.specs.Kinds.{checkpoint_roots, other_roots, present_roots, version_roots};
ghost use Rattle.block_usage.specs.Maps.{AreMarked, IsKnownKind, IsReady, Knows, ReadsCause, reached_kind};

use crate::block_kind::BlockKind;
use bad_blocks::BadBlocks;
use block_ring::Marks;
use flash_model::Flash;
use fs_types::{ANCHORS, Fault};
use machine_state::History;
use mounting::marked_on;
use node_store::Storage;
use std::alloc::{AllocError, Global};

/// The anchor of the newest record, and the blocks that the present version reaches, other versions, and
/// checkpoints.
#[derive(Drop)]
pub(crate) struct Facts {
    pub(crate) newest: u32,
    pub(crate) present: Marks,
    pub(crate) others: Marks,
    pub(crate) checkpoints: Marks,
}

impl Facts {
    /// The kind of a block, where its pages need not be looked at; none where it is free.
    pub(crate) fn kind_of(&self, bad: &BadBlocks, block: u32) -> Option<BlockKind>
        ensures { (d : Device) (h : Past ℕ) → Knows d h self.now → IsKnownKind d h bad.now block result }
    {
        if block == self.newest {
            return Some(BlockKind::NewestAnchor);
        }
        if block < ANCHORS {
            return Some(BlockKind::Anchor);
        }
        if bad.contains(block) {
            return Some(BlockKind::Bad);
        }
        self.reached_kind(block)
    }

    /// The kind of a block that versions or checkpoints reach.
    fn reached_kind(&self, block: u32) -> Option<BlockKind>
        ensures { result ≡ reached_kind (set.contains self.now.present.members block) (set.contains self.now.others.members block) (set.contains self.now.checkpoints.members block) }
    {
        let is_other = self.others.contains(block);
        let is_checkpoint = self.checkpoints.contains(block);
        match (self.present.contains(block), is_other, is_checkpoint) {
            (true, false, false) => Some(BlockKind::Present),
            (true, _, _) => Some(BlockKind::Shared),
            (false, true, _) => Some(BlockKind::Other),
            (false, false, true) => Some(BlockKind::Checkpoint),
            (false, false, false) => None,
        }
    }
}

/// The roots of a history: of the present version, of the others, and of the checkpoints.
#[derive(Drop)]
pub(crate) struct Roots {
    present: Vec<u32>,
    others: Vec<u32>,
    checkpoints: Vec<u32>,
}

impl Roots {
    /// Those of a history.
    pub(crate) fn of(alloc: Global, history: &History<u32>) -> Result<Roots, AllocError>
        ensures present { IfOk result (λ roots. roots.present.items ≡ present_roots history.now) }
        ensures others { IfOk result (λ roots. roots.others.items ≡ other_roots history.now) }
        ensures checkpoints { IfOk result (λ roots. roots.checkpoints.items ≡ checkpoint_roots history.now) }
    {
        let versions = version_roots(alloc, history)?;
        let cursor = history.cursor();
        let mut present = Vec::new(alloc);
        present.extend_from_slice(&versions[cursor..cursor + 1])?;
        let mut others = Vec::new(alloc);
        others.extend_from_slice(&versions[..cursor])?;
        others.extend_from_slice(&versions[cursor + 1..])?;
        Ok(Roots {
            present,
            others,
            checkpoints: checkpoint_roots(alloc, history)?,
        })
    }
}

/// The roots of the versions, the oldest first.
fn version_roots(alloc: Global, history: &History<u32>) -> Result<Vec<u32>, AllocError>
    ensures roots { IfOk result (λ roots. roots.items ≡ version_roots history.now) }
    ensures cursor { IfOk result (λ roots. history.now.cursor < length roots.items) }
{
    let versions = history.versions();
    versions.iter().map(|version| version.root).collect(alloc)
}

/// The roots of the checkpoints, in byte order of their names.
fn checkpoint_roots(alloc: Global, history: &History<u32>) -> Result<Vec<u32>, AllocError>
    ensures { IfOk result (λ roots. roots.items ≡ checkpoint_roots history.now) }
{
    let mut roots = Vec::new(alloc);
    for (_name, root) in history.checkpoints() {
        roots.push(*root)?;
    }
    Ok(roots)
}

/// The facts of the blocks of a flash on which these roots stand, where the newest record begins on this
/// anchor. Each node that versions and checkpoints reach is read, by each of the three kinds of roots once.
///
/// [`Fault::ReadFailed`], [`Fault::PowerCut`], [`Fault::NoMemory`].
pub(crate) fn find_facts<F: Flash>(
    alloc: Global,
    flash: &mut F,
    storage: &mut Storage,
    roots: &Roots,
    newest: u32,
) -> Result<Facts, Fault>
    requires ready { IsReady (F.device flash.old) storage.old }
    requires present { AreRoots (block_bytes (F.device flash.old).geometry) (node_of (F.device flash.old)) roots.now.present.items }
    requires others { AreRoots (block_bytes (F.device flash.old).geometry) (node_of (F.device flash.old)) roots.now.others.items }
    requires checkpoints { AreRoots (block_bytes (F.device flash.old).geometry) (node_of (F.device flash.old)) roots.now.checkpoints.items }

    // The facts.
    ensures newest { IfOk result (λ facts. facts.newest ≡ newest) }
    ensures present { IfOk result (λ facts. AreMarked (F.device flash.old) roots.now.present.items facts.present.members) }
    ensures others { IfOk result (λ facts. AreMarked (F.device flash.old) roots.now.others.items facts.others.members) }
    ensures checkpoints { IfOk result (λ facts. AreMarked (F.device flash.old) roots.now.checkpoints.items facts.checkpoints.members) }

    // By reads alone.
    ensures only_reads { OnlyReads (F.device flash.old) (F.device flash.new) }
    ensures bad { storage.new.bad ≡ storage.old.bad }
    ensures why { IfErr result (ReadsCause (F.device flash.old) (F.device flash.new)) }
{
    let present = mark(alloc, flash, storage, &roots.present)?;
    let others = mark(alloc, flash, storage, &roots.others)?;
    let checkpoints = mark(alloc, flash, storage, &roots.checkpoints)?;
    Ok(Facts {
        newest,
        present,
        others,
        checkpoints,
    })
}

/// The blocks that roots reach, each of which is known to have a tree.
fn mark<F: Flash>(
    alloc: Global,
    flash: &mut F,
    storage: &mut Storage,
    roots: &[u32],
) -> Result<Marks, Fault>
    requires ready { IsReady (F.device flash.old) storage.old }
    requires trees { AreRoots (block_bytes (F.device flash.old).geometry) (node_of (F.device flash.old)) roots.now }
    ensures marked { IfOk result (λ marks. AreMarked (F.device flash.old) roots.now marks.members) }
    ensures only_reads { OnlyReads (F.device flash.old) (F.device flash.new) }
    ensures ready { IsReady (F.device flash.new) storage.new }
    ensures bad { storage.new.bad ≡ storage.old.bad }
    ensures why { IfErr result (ReadsCause (F.device flash.old) (F.device flash.new)) }
{
    marked_on(alloc, flash, storage, roots)
}
