//! Reclaiming in steps: blocks that nothing keeps are used again.
ghost use Rattle.std.specs.Prelude.{◌≡◌, ◌≢◌, ◌≤◌, ◌+◌, ◌*◌, ◌++◌, ℕ, false, None, Contains, OnOk, IfOk, IfErr, IsErrOf};
ghost use Rattle.std.specs.FinSet as set;
ghost use Rattle.flash_model.specs.Geometry.{IsGeometry, block_bytes};
ghost use Rattle.block_ring.specs.Ring.{IsDataBlock};
ghost use Rattle.nodes.specs.Bodies.{Blocks};
ghost use Rattle.nodes.specs.Reached.{Reached};
ghost use Rattle.node_store.specs.Fitting.{Fits};
ghost use Rattle.node_store.specs.NodePages.{node_of};
ghost use Rattle.node_store.specs.Stores.{IsSoundStore, Follows};
ghost use Rattle.reclaim.specs.Kinds.{Knows};
ghost use Rattle.reclaim.specs.Passes.{IsPass};
ghost use Rattle.working_state.specs.Leaves.{HasLooked};
ghost use Rattle.working_state.specs.Seen.{seen_of};
ghost use Rattle.working_state.specs.Worked.{ReadCause};
ghost use Rattle.system.specs.Reclaiming.{AsksForRest, AsksToStep};
ghost use Rattle.mounting.specs.Records.{working_roots};
ghost use Rattle.system.specs.Reclaiming.{GoesOnFrom, Advances, ReadsOn, StepEnds, Stays, Reclaims, marking_of};
ghost use Rattle.system.specs.Systems.{IsSystem};

use crate::systems::System;
use flash_model::Flash;
use fs_types::Fault;
use mounting::list_working;
use node_store::{Nodes, Storage, Store};
use reclaim::Pass;
use std::alloc::Global;

impl System {
    /// Reads `budget` blocks more of those that a version or a checkpoint reaches, of the working
    /// history or of the newest record, or the change group that is open, or all that remain; whether
    /// none remains. Then each block that was not met is free, but those taken since the first of these
    /// steps, and none that was used is prepared. Nothing is written.
    ///
    /// The marking goes on beside the calls. [`Fault::ReadFailed`], [`Fault::PowerCut`],
    /// [`Fault::NoMemory`]: the next step begins anew.
    pub fn reclaim_step<F: Flash>(
        &mut self,
        alloc: Global,
        flash: &mut F,
        budget: u64,
    ) -> Result<bool, Fault>
        requires { IsSystem (F.device flash.old) self.old }
        ensures system { IsSystem (F.device flash.new) self.new }
        ensures step { Reclaims (F.device flash.old) self.old budget result (F.device flash.new) self.new }
    {
        self.state.check_power()?;
        let is_done = self.step_pass(alloc, flash, budget);
        self.state.remember_cut(is_done)
    }

    /// The same, where no call answered before that the power is off.
    fn step_pass<F: Flash>(
        &mut self,
        alloc: Global,
        flash: &mut F,
        budget: u64,
    ) -> Result<bool, Fault>
        requires system { IsSystem (F.device flash.old) self.old }
        requires is_on { self.old.state.is_off ≡ false }
        ensures system { IsSystem (F.device flash.new) self.new }
        ensures is_on { self.new.state.is_off ≡ false }
        ensures stays { Stays (F.device flash.old) self.old (F.device flash.new) self.new }
        ensures ends { StepEnds (F.device flash.old) self.old budget result (F.device flash.new) self.new }
        ensures asks { AsksToStep (F.device flash.old) (marking_of self.old) budget (F.device flash.new) }
    {
        let mut pass = self.take_pass(alloc)?;
        if !step_on(flash, &mut self.state.storage, &mut pass, budget)? {
            self.pass = Some(pass);
            return Ok(false);
        }
        // The used blocks are data blocks, as their contract tells.
        let _blocks = self.state.storage.ring.blocks();
        self.prepared.forget_used(&self.state.storage.ring);
        self.state.storage.install(pass.finish());
        Ok(true)
    }

    /// The marking that goes on, which is none of the system's any more; else a new one.
    fn take_pass(&mut self, alloc: Global) -> Result<Pass, Fault>
        requires { (b : ℕ) → Contains (working_roots self.old.state ++ self.old.record_roots.items) b → IsDataBlock self.old.state.storage.ring.blocks b }
        ensures from { IfOk result (λ pass. GoesOnFrom self.old pass self.new.state.storage.ring.note) }
        ensures begun { IfOk result (λ pass. self.old.pass ≡ None → (pass.blocks ≡ self.old.state.storage.ring.blocks) × ((f : Blocks) → IsPass f pass)) }
        ensures first { IfOk result (λ pass. self.old.pass ≡ None → ((b : ℕ) → Contains pass.order b → Contains pass.roots b) × (pass.bodies ≡ set.empty)) }
        ensures same { self.new ≡ record self.old {
          state = record self.old.state {
            storage = record self.old.state.storage {
              ring = record self.old.state.storage.ring { note = self.new.state.storage.ring.note };
            };
          };
          pass = None;
        } }
        ensures memory { IfErr result (λ fault. fault ≡ Fault.NoMemory) }
    {
        if let Some(pass) = self.pass.take() {
            return Ok(pass);
        }
        let blocks = self.state.storage.ring.blocks();
        self.state.storage.ring.watch();
        let mut roots = list_working(alloc, &self.state)?;
        roots.extend_from_slice(&self.record_roots)?;
        Pass::start(alloc, blocks, &roots)
    }
}

/// A step of a marking on a flash.
fn step_on<F: Flash>(
    flash: &mut F,
    storage: &mut Storage,
    pass: &mut Pass,
    budget: u64,
) -> Result<bool, Fault>
    requires lawful { IsGeometry (F.device flash.old).geometry }
    requires ring_blocks { storage.old.ring.blocks ≡ (F.device flash.old).geometry.blocks }
    requires fits { Fits (F.device flash.old) storage.old }
    requires blocks { pass.old.blocks ≡ (F.device flash.old).geometry.blocks }
    requires known { Knows (block_bytes (F.device flash.old).geometry) (node_of (F.device flash.old)) pass.old }

    // The marking went on, and is none where its reads found damage.
    ensures pass { (IsPass (node_of (F.device flash.old)) pass.old → OnOk result (IsPass (node_of (F.device flash.old)) pass.new)) × OnOk result (Knows (block_bytes (F.device flash.old).geometry) (node_of (F.device flash.old)) pass.new) }
    ensures on { Advances pass.old pass.new }
    ensures reads_on { ReadsOn budget pass.old result pass.new }
    ensures damaged { IsPass (node_of (F.device flash.old)) pass.old → IsErrOf result Fault.Damaged → (b : ℕ) × Reached (node_of (F.device flash.old)) pass.old.roots b × (node_of (F.device flash.old) b ≡ None) }

    // Nodes were read alone, and how many.
    ensures looked { HasLooked (F.device flash.old) storage.old (F.device flash.new) storage.new }
    ensures asks { ((F.device flash.new).operations ≤ (F.device flash.old).operations + budget * (F.device flash.old).geometry.pages) × (IsPass (node_of (F.device flash.old)) pass.old → AsksForRest (F.device flash.old) pass.old (F.device flash.new)) }
    ensures why { IfErr result (λ fault. fault ≢ Fault.Damaged → ReadCause (seen_of (F.device flash.old) storage.old) fault (seen_of (F.device flash.new) storage.new)) }
{
    let mut store = Store::new(flash, storage);
    step_in(&mut store, pass, budget)
}

/// The same, over a store.
fn step_in<F: Flash>(store: &mut Store<'_, F>, pass: &mut Pass, budget: u64) -> Result<bool, Fault>
    requires sound { IsSoundStore F.device store.old }
    requires blocks { pass.old.blocks ≡ (F.device store.old.flash.now).geometry.blocks }
    requires known { Knows (block_bytes (F.device store.old.flash.now).geometry) (node_of (F.device store.old.flash.now)) pass.old }

    // The marking went on, and is none where its reads found damage.
    ensures pass { (IsPass (node_of (F.device store.old.flash.now)) pass.old → OnOk result (IsPass (node_of (F.device store.old.flash.now)) pass.new)) × OnOk result (Knows (block_bytes (F.device store.old.flash.now).geometry) (node_of (F.device store.old.flash.now)) pass.new) }
    ensures on { Advances pass.old pass.new }
    ensures reads_on { ReadsOn budget pass.old result pass.new }
    ensures damaged { IsPass (node_of (F.device store.old.flash.now)) pass.old → IsErrOf result Fault.Damaged → (b : ℕ) × Reached (node_of (F.device store.old.flash.now)) pass.old.roots b × (node_of (F.device store.old.flash.now) b ≡ None) }

    // Nodes were read alone, and how many.
    ensures follows { Follows F.device store.old store.new }
    ensures looked { HasLooked (F.device store.old.flash.now) store.old.storage.now (F.device store.new.flash.now) store.new.storage.now }
    ensures reads { store.new.reads.n ≤ store.old.reads.n + budget }
    ensures asks { ((F.device store.new.flash.now).operations ≤ (F.device store.old.flash.now).operations + budget * (F.device store.old.flash.now).geometry.pages) × (IsPass (node_of (F.device store.old.flash.now)) pass.old → AsksForRest (F.device store.old.flash.now) pass.old (F.device store.new.flash.now)) }
    ensures why { IfErr result (λ fault. fault ≢ Fault.Damaged → ReadCause (seen_of (F.device store.old.flash.now) store.old.storage.now) fault (seen_of (F.device store.new.flash.now) store.new.storage.now)) }
{
    pass.step(store, budget)
}
