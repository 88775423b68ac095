//! Where the trees of two views differ.
ghost use Rattle.std.specs.Prelude.{◌≡◌, false, Some, None};
ghost use Rattle.history_machine.specs.History.{view_refusal, seen_root};
ghost use Rattle.system.specs.HistorySpace.{Looks};
ghost use Rattle.system.specs.Systems.{IsSystem};
ghost use Rattle.system.specs.DifferingTrees.{FindsDiffering, TellsDiffering};

use crate::stored_differences::differing_paths_on;
use crate::systems::System;
use flash_model::Flash;
use fs_types::{Fault, Path, Sequence, View};
use std::alloc::Global;

impl System {
    /// The paths of the tree of a view at which the root of another one leads elsewhere: to nothing, to what
    /// is of another kind, or to a file of another last node or length. A directory's comes before those of
    /// what stands in it, and names are in byte order. At each path that is not told both trees have the same;
    /// a file that is told may have the same bytes. A directory that both have in one block is not read, and
    /// each other one is read once on each side.
    ///
    /// In order: [`Fault::PowerCut`] where a call answered that before; the refusal of the first view; that of
    /// the second; what the reading meets, [`Fault::ReadFailed`], [`Fault::PowerCut`], [`Fault::NoMemory`].
    pub fn differing_paths<F: Flash>(
        &mut self,
        alloc: Global,
        flash: &mut F,
        view: &View,
        other: &View,
    ) -> Result<Sequence<Path>, Fault>
        requires { IsSystem (F.device flash.old) self.old }
        ensures system { IsSystem (F.device flash.new) self.new }
        ensures step { TellsDiffering (F.device flash.old) self.old view.now other.now result (F.device flash.new) self.new }
    {
        self.state.check_power()?;
        let root = self.state.seen(view)?;
        let beside = self.state.seen(other)?;
        self.compare_roots(alloc, flash, view, root, other, beside)
    }

    /// The same, of the roots that the views show, where no call answered before that the power is off.
    fn compare_roots<F: Flash>(
        &mut self,
        alloc: Global,
        flash: &mut F,
        view: &View,
        root: u32,
        other: &View,
        beside: u32,
    ) -> Result<Sequence<Path>, Fault>
        // Two roots of the system.
        requires system { IsSystem (F.device flash.old) self.old }
        requires is_on { self.old.state.is_off ≡ false }
        requires fine { view_refusal self.old.state.history view.now ≡ None }
        requires shown { seen_root self.old.state.history self.old.state.group view.now ≡ Some root }
        requires other_fine { view_refusal self.old.state.history other.now ≡ None }
        requires other_shown { seen_root self.old.state.history self.old.state.group other.now ≡ Some beside }

        // What is found.
        ensures system { IsSystem (F.device flash.new) self.new }
        ensures looks { Looks (F.device flash.old) self.old result (F.device flash.new) self.new }
        ensures finds { FindsDiffering (F.device flash.old) self.old.state view.now root beside result (F.device flash.new) self.new.state }
    {
        let paths = differing_paths_on(alloc, flash, &mut self.state.storage, root, beside);
        self.state.remember_cut(paths)
    }
}
