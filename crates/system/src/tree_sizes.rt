//! How much stands in the tree of a view.
ghost use Rattle.std.specs.Prelude.{◌≡◌, [], ◌∷◌, false, Some, None, IfOk, IfErr};
ghost use Rattle.history_machine.specs.History.{view_refusal, seen_root};
ghost use Rattle.mounting.specs.Costs.{AsksEach};
ghost use Rattle.system.specs.HistorySpace.{Looks};
ghost use Rattle.system.specs.Systems.{IsSystem};
ghost use Rattle.system.specs.TreeSizes.{FindsSize, TellsSize, ShowRoots, RefusesRoots};

use crate::systems::System;
use flash_model::Flash;
use fs_types::{Fault, View};
use mounting::tree_size_on;
use std::alloc::Global;
use tree_counts::TreeSize;

impl System {
    /// How many directories and files stand in the tree of a view below its root, and how many bytes these
    /// files have. The nodes of the directories that the root reaches are read once, whatever number of
    /// paths leads to each; memory is some forty bytes a block.
    ///
    /// In order: [`Fault::PowerCut`] where a call answered that before; the refusal of the view, as of a
    /// listing of its root; what the reading meets, [`Fault::ReadFailed`], [`Fault::PowerCut`],
    /// [`Fault::NoMemory`].
    pub fn count_tree<F: Flash>(
        &mut self,
        alloc: Global,
        flash: &mut F,
        view: &View,
    ) -> Result<TreeSize, Fault>
        requires { IsSystem (F.device flash.old) self.old }
        ensures system { IsSystem (F.device flash.new) self.new }
        ensures step { TellsSize (F.device flash.old) self.old view.now result (F.device flash.new) self.new }
    {
        self.state.check_power()?;
        let root = self.state.seen(view)?;
        self.count_below(alloc, flash, view, root)
    }

    /// The same, of the root that a view shows, where no call answered before that the power is off.
    fn count_below<F: Flash>(
        &mut self,
        alloc: Global,
        flash: &mut F,
        view: &View,
        root: u32,
    ) -> Result<TreeSize, Fault>
        requires system { IsSystem (F.device flash.old) self.old }
        requires is_on { self.old.state.is_off ≡ false }
        requires fine { view_refusal self.old.state.history view.now ≡ None }
        requires shown { seen_root self.old.state.history self.old.state.group view.now ≡ Some root }
        ensures system { IsSystem (F.device flash.new) self.new }
        ensures looks { Looks (F.device flash.old) self.old result (F.device flash.new) self.new }
        ensures finds { FindsSize (F.device flash.old) self.old.state view.now result (F.device flash.new) self.new.state }
        ensures asks { AsksEach (F.device flash.old) (root ∷ []) (F.device flash.new) }
    {
        let size = tree_size_on(alloc, flash, &mut self.state.storage, root);
        self.state.remember_cut(size)
    }

    /// Whether two views show the same root, so that their trees are the same. No page is read.
    ///
    /// In order: [`Fault::PowerCut`] where a call answered that before; the refusal of the first view; that
    /// of the second.
    pub fn show_same_root(&self, view: &View, other: &View) -> Result<bool, Fault>
        ensures shown { IfOk result (λ same. ShowRoots self.now.state view.now other.now same) }
        ensures err { IfErr result (RefusesRoots self.now.state view.now other.now) }
    {
        self.state.check_power()?;
        let first = self.state.seen(view)?;
        let second = self.state.seen(other)?;
        Ok(first == second)
    }
}
