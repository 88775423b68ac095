//! The working state: all that a mounted system keeps in memory, apart from the flash.
ghost use Rattle.std.specs.Prelude.{◌≡◌, ℕ, ◌<◌, ◌≤◌, true, Some, [], IfOk, IfErr};
ghost use Rattle.std.specs.FinSet as set;
ghost use Rattle.history_machine.specs.History.{working_root};
ghost use Rattle.fs_types.specs.declared.limits.TheConstants.{ANCHORS, MAX_VERSIONS, MIN_VERSIONS};
ghost use Rattle.fs_types.specs.declared.fault.Fault.{Fault};
ghost use Rattle.flash_model.specs.Geometry.{IsGeometry};
ghost use Rattle.block_ring.specs.Ring.{IsDataBlock};
ghost use Rattle.node_format.specs.Links.{chain_bytes};
ghost use Rattle.node_store.specs.Fitting.{Fits};
ghost use Rattle.node_store.specs.NodePages.{node_of};
ghost use Rattle.node_store.specs.Storage as parts;
ghost use Rattle.nodes.specs.Trees.{entries_in};
ghost use Rattle.working_state.specs.Leaves.{HasWritten};
ghost use Rattle.working_state.specs.Fresh.{IsBegun, AsksForRoot, BeginCause, RootCause};
ghost use Rattle.working_state.specs.Moments.{moment};
ghost use Rattle.working_state.specs.Seen.{IsLaterFlash};

use bad_blocks::BadBlocks;
use block_ring::Ring;
use flash_model::{Flash, Geometry};
use fs_types::{Fault, Group};
use machine_state::{History, OpenFiles};
use node_format::empty_directory;
use node_store::{NodeCache, Storage, write_node};
use std::alloc::Global;

/// All that a mounted system keeps in memory.
#[derive(Drop)]
pub struct State {
    /// The versions and checkpoints, by the blocks of their roots.
    pub history: History<u32>,
    /// The change group that is open, by the block of its root.
    pub group: Option<Group<u32>>,
    /// What nodes are kept with: the bad and the used blocks, and room for a page and for a node.
    pub storage: Storage,
    /// The open files, each a file of the tree that calls work on.
    pub files: OpenFiles,
    /// Whether a call answered that the power is off; each later one does too.
    pub is_off: bool,
}

impl State {
    /// The root of the tree that calls work on.
    pub(crate) fn root(&self) -> u32
        ensures { working_root self.now.history self.now.group ≡ Some result }
    {
        root_of(&self.history, &self.group)
    }

    /// The working state of a fresh system on a flash of lawful sizes, of which these anchors are bad
    /// and nothing is used: an empty root is written, and is its version of serial 1. At most `limit`
    /// versions are kept, 2 to 128.
    ///
    /// [`Fault::FlashFull`] where an operation failed in each data block, [`Fault::ReadOnly`] where 256
    /// blocks are bad, [`Fault::PowerCut`], [`Fault::NoMemory`].
    pub fn with_empty_root<F: Flash>(
        alloc: Global,
        flash: &mut F,
        bad: BadBlocks,
        limit: u32,
    ) -> Result<State, Fault>
        requires lawful { IsGeometry (F.device flash.old).geometry }
        requires at_least { MIN_VERSIONS ≤ limit }
        requires at_most { limit ≤ MAX_VERSIONS }
        requires anchors { (b : ℕ) → set.contains bad b ≡ true → b < ANCHORS }

        // What is begun, what was asked for, and why not.
        ensures later { IsLaterFlash (F.device flash.old) (F.device flash.new) }
        ensures begun { IfOk result (λ state. IsBegun (F.device flash.old) bad limit (moment (F.device flash.new) state)) }
        ensures asks { AsksForRoot (F.device flash.old) (F.device flash.new) }
        ensures why { IfErr result (λ fault. BeginCause (F.device flash.old) bad fault (F.device flash.new)) }
    {
        let geometry = flash.geometry();
        let cache = NodeCache::new(alloc, 1)?;
        let mut storage = Storage::unused(alloc, geometry, bad, geometry.blocks - 1, cache)?;
        let root = write_root(flash, &mut storage)?;
        let history = History::new(alloc, limit as usize, root)?;
        Ok(State {
            history,
            group: None,
            storage,
            files: OpenFiles::new(),
            is_off: false,
        })
    }
}

/// The root of the tree that calls work on: the group's, where one is open, else the present one.
pub(crate) fn root_of(history: &History<u32>, group: &Option<Group<u32>>) -> u32
    ensures { working_root history.now group.now ≡ Some result }
{
    match group {
        Some(group) => group.root,
        None => *history.root(),
    }
}

/// Writes an empty directory, and answers its block: the next one that is neither used nor bad.
fn write_root<F: Flash>(flash: &mut F, storage: &mut Storage) -> Result<u32, Fault>
    requires lawful { IsGeometry (F.device flash.old).geometry }
    requires ring_blocks { storage.old.ring.blocks ≡ (F.device flash.old).geometry.blocks }
    requires fits { Fits (F.device flash.old) storage.old }

    // What is left.
    ensures written { HasWritten (F.device flash.old) storage.old 1 (F.device flash.new) storage.new }

    // The root.
    ensures kept { IfOk result (λ root. set.contains storage.new.ring.used root ≡ true) }
    ensures node { IfOk result (λ root. node_of (F.device flash.new) root ≡ Some (chain_bytes 0 [])) }
    ensures empty { IfOk result (λ root. entries_in (node_of (F.device flash.new)) root ≡ Some []) }
    ensures next { IfOk result (λ root. parts.IsNextBlock (parts.storage (F.device flash.old) storage.old.bad storage.old.ring) (parts.storage (F.device flash.new) storage.new.bad storage.new.ring) root) }

    // What was asked for, and why not.
    ensures asks { AsksForRoot (F.device flash.old) (F.device flash.new) }
    ensures data_blocks { (b : ℕ) → set.contains storage.new.ring.used b ≡ true → IsDataBlock storage.new.ring.blocks b }
    ensures why { IfErr result (λ fault. RootCause (parts.storage (F.device flash.old) storage.old.bad storage.old.ring) fault (parts.storage (F.device flash.new) storage.new.bad storage.new.ring)) }
{
    let root = write_node(flash, storage, &empty_directory());
    // The used blocks are data blocks, as its contract tells.
    let _ = storage.ring.blocks();
    root
}
