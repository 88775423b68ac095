//! What stands at a path of a tree, on the working state and the flash.
ghost use Rattle.std.specs.Prelude.{◌≡◌, ◌==◌, false, None, Some, List, length, IfOk, IfErr, IsErrOf};
ghost use Rattle.fs_types.specs.declared.call.Call.{Call};
ghost use Rattle.fs_types.specs.declared.call.Reply.{Reply};
ghost use Rattle.fs_types.specs.declared.fault.Fault.TheVariants.{Damaged};
ghost use Rattle.node_format.specs.Items.{Item};
ghost use Rattle.node_store.specs.Faults.{IsReadFault};
ghost use Rattle.node_store.specs.NodePages.{node_of};
ghost use Rattle.nodes.specs.Chains.{chain};
ghost use Rattle.nodes.specs.Trees.{entries_in};
ghost use Rattle.directory.specs.Lookups.{is_path_fault};
ghost use Rattle.working_state.specs.Mounted.{IsMounted};
ghost use Rattle.working_state.specs.Steps.{replied};
ghost use Rattle.working_state.specs.Worked.{IsLooked, WorkCause};
ghost use Rattle.working_state.specs.Looking.{AsksBlocks};
ghost use Rattle.working_state.specs.Moments.{IsAnswered, moment, seen_at};

use crate::lookups::find_path;
use crate::state::State;
use directory::{Found, entry_count, is_empty};
use flash_model::Flash;
use fs_types::{Fault, Path, Stat, View};
use node_store::Store;

impl State {
    /// What stands at a path of the tree that a view shows.
    pub(crate) fn stat_view<F: Flash>(
        &mut self,
        flash: &mut F,
        view: &View,
        path: &Path,
    ) -> Result<Stat, Fault>
        requires { IsMounted (F.device flash.old) self.old }
        ensures { IsAnswered (moment (F.device flash.old) self.old) (Call.Stat view.now path.now) (replied Reply.Stat result) (moment (F.device flash.new) self.new) }
    {
        let root = self.seen(view)?;
        let (found, _trail) = find_path(flash, &mut self.storage, root, path)?;
        match found {
            Found::Missing { .. } => Err(Fault::NoEntry),
            Found::File { length, .. } => Ok(Stat::File(length as u64)),
            Found::Dir { block } => Ok(Stat::Dir(self.count_in(flash, block)? as u64)),
        }
    }

    /// The number of entries in the directory that begins in a block.
    pub(crate) fn count_in<F: Flash>(&mut self, flash: &mut F, block: u32) -> Result<usize, Fault>
        requires { IsMounted (F.device flash.old) self.old }

        // Nodes were read alone, and how many.
        ensures looked { IsLooked (moment (F.device flash.old) self.old) (moment (F.device flash.new) self.new) }
        ensures asks { AsksBlocks (F.device flash.old) (length (chain (node_of (F.device flash.old)) block)) (F.device flash.new) }
        ensures nodes { node_of (F.device flash.new) ≡ node_of (F.device flash.old) }

        // What was counted, and why not.
        ensures count { IfOk result (λ count. (items : List Item) → entries_in (node_of (F.device flash.old)) block ≡ Some items → count ≡ length items) }
        ensures damaged { IsErrOf result Damaged → entries_in (node_of (F.device flash.old)) block ≡ None }
        ensures why { IfErr result (λ fault. is_path_fault fault ≡ false → WorkCause (seen_at (moment (F.device flash.old) self.old)) fault (seen_at (moment (F.device flash.new) self.new))) }
        ensures faults { IfErr result IsReadFault }
    {
        let mut store = Store::new(flash, &mut self.storage);
        entry_count(&mut store, block)
    }

    /// Whether the directory that begins in a block has no entries: one node is read.
    pub(crate) fn is_empty_directory<F: Flash>(
        &mut self,
        flash: &mut F,
        block: u32,
    ) -> Result<bool, Fault>
        requires { IsMounted (F.device flash.old) self.old }
        ensures looked { IsLooked (moment (F.device flash.old) self.old) (moment (F.device flash.new) self.new) }
        ensures nodes { node_of (F.device flash.new) ≡ node_of (F.device flash.old) }
        ensures empty { IfOk result (λ empty. (items : List Item) → entries_in (node_of (F.device flash.old)) block ≡ Some items → empty ≡ (length items == 0)) }
        ensures damaged { IsErrOf result Damaged → entries_in (node_of (F.device flash.old)) block ≡ None }
        ensures why { IfErr result (λ fault. is_path_fault fault ≡ false → WorkCause (seen_at (moment (F.device flash.old) self.old)) fault (seen_at (moment (F.device flash.new) self.new))) }
        ensures faults { IfErr result IsReadFault }
    {
        let mut store = Store::new(flash, &mut self.storage);
        is_empty(&mut store, block)
    }
}
