//! Directories made and listed, on the working state and the flash. Each call checks in order: its own
//! refusals; read-only mode; outside a change group the greatest serial; and then it works.
ghost use Rattle.std.specs.Prelude.{◌≡◌, true, false, None, Some, List, length, Ok, Err, IfOk, IfErr, OnOk, IsErrOf};
ghost use Rattle.history_machine.specs.History.{working_root};
ghost use Rattle.fs_types.specs.Names.{is_path};
ghost use Rattle.history_machine.specs.Machine.{refusal};
ghost use Rattle.fs_types.specs.declared.call.Call.{Call};
ghost use Rattle.fs_types.specs.declared.call.Reply.{Reply};
ghost use Rattle.fs_types.specs.declared.fault.Fault.TheVariants.{Damaged};
ghost use Rattle.node_format.specs.Items.{Item};
ghost use Rattle.node_store.specs.Faults.{IsReadFault};
ghost use Rattle.node_store.specs.NodePages.{node_of};
ghost use Rattle.nodes.specs.Chains.{chain};
ghost use Rattle.nodes.specs.Trees.{entries_in, names_of};
ghost use Rattle.directory.specs.declared.lookups.Found.TheVariants.{Missing};
ghost use Rattle.directory.specs.Lookups.{look_up, is_path_fault};
ghost use Rattle.directory.specs.Trails.{IsTrail};
ghost use Rattle.working_state.specs.Looking.{AsksBlocks};
ghost use Rattle.working_state.specs.Mounted.{IsMounted};
ghost use Rattle.working_state.specs.Steps.{replied, empty, Refuses};
ghost use Rattle.working_state.specs.Worked.{IsLooked, WorkCause};
ghost use Rattle.working_state.specs.Moments.{IsAnswered, IsRefused, moment, seen_at, machine_at};

use crate::changes::change;
use crate::lookups::find_path;
use crate::state::State;
use directory::{Found, Trail, names};
use flash_model::Flash;
use fs_types::{Fault, Name, Path, Sequence, View};
use node_store::Store;
use std::alloc::Global;
use tree_edits::Edit;

impl State {
    /// The names in a directory of the tree that a view shows.
    pub(crate) fn list_view<F: Flash>(
        &mut self,
        alloc: Global,
        flash: &mut F,
        view: &View,
        path: &Path,
    ) -> Result<Sequence<(Name, bool)>, Fault>
        requires { IsMounted (F.device flash.old) self.old }
        ensures { IsAnswered (moment (F.device flash.old) self.old) (Call.List view.now path.now) (replied Reply.Names result) (moment (F.device flash.new) self.new) }
    {
        let root = self.seen(view)?;
        let (found, _trail) = find_path(flash, &mut self.storage, root, path)?;
        match found {
            Found::Missing { .. } => Err(Fault::NoEntry),
            Found::File { .. } => Err(Fault::NotDirectory),
            Found::Dir { block } => self.names_in(alloc, flash, block),
        }
    }

    /// Makes an empty directory.
    pub(crate) fn add_directory<F: Flash>(
        &mut self,
        alloc: Global,
        flash: &mut F,
        path: &Path,
    ) -> Result<(), Fault>
        requires { IsMounted (F.device flash.old) self.old }
        ensures { IsAnswered (moment (F.device flash.old) self.old) (Call.Mkdir path.now) (replied empty result) (moment (F.device flash.new) self.new) }
    {
        let root = self.root();
        let trail = self.check_missing(flash, root, path)?;
        let edit = Edit::MakeDirectory {
            path,
            trail: &trail,
        };
        change(
            alloc,
            flash,
            &mut self.history,
            &mut self.group,
            &mut self.storage,
            edit,
        )
    }

    /// Refuses the root, a path where something stands, and a new name in a full directory. Answers
    /// the directories that the path goes through.
    fn check_missing<F: Flash>(
        &mut self,
        flash: &mut F,
        root: u32,
        path: &Path,
    ) -> Result<Trail, Fault>
        requires mounted { IsMounted (F.device flash.old) self.old }
        requires working { working_root self.old.history self.old.group ≡ Some root }

        // Nodes were read alone.
        ensures looked { IsLooked (moment (F.device flash.old) self.old) (moment (F.device flash.new) self.new) }

        // Where it may be made.
        ensures lawful { OnOk result (is_path path.now ≡ true) }
        ensures way { IfOk result (IsTrail (node_of (F.device flash.new)) root path.now) }
        ensures missing { OnOk result (look_up (node_of (F.device flash.new)) root path.now ≡ Ok (Missing false)) }

        // What the machine says of the call.
        ensures accepted { OnOk result (refusal (machine_at (moment (F.device flash.old) self.old)) (Call.Mkdir path.now) ≡ None) }
        ensures refused { IfErr result (λ fault. IsRefused (moment (F.device flash.old) self.old) (Call.Mkdir path.now) fault (moment (F.device flash.new) self.new)) }
    {
        if path.names().is_empty() {
            return Err(Fault::Exists);
        }
        let (found, trail) = find_path(flash, &mut self.storage, root, path)?;
        match found {
            Found::Missing { is_full: false } => Ok(trail),
            Found::Missing { is_full: true } => Err(Fault::DirectoryFull),
            Found::File { .. } => Err(Fault::Exists),
            Found::Dir { .. } => Err(Fault::Exists),
        }
    }

    /// The names in the directory that begins in a block.
    fn names_in<F: Flash>(
        &mut self,
        alloc: Global,
        flash: &mut F,
        block: u32,
    ) -> Result<Sequence<(Name, bool)>, Fault>
        requires { IsMounted (F.device flash.old) self.old }
        ensures looked { IsLooked (moment (F.device flash.old) self.old) (moment (F.device flash.new) self.new) }
        ensures asks { AsksBlocks (F.device flash.old) (length (chain (node_of (F.device flash.old)) block)) (F.device flash.new) }
        ensures names { IfOk result (λ names. (items : List Item) → entries_in (node_of (F.device flash.old)) block ≡ Some items → names ≡ names_of items) }
        ensures damaged { IsErrOf result Damaged → entries_in (node_of (F.device flash.old)) block ≡ None }
        ensures why { IfErr result (λ fault. is_path_fault fault ≡ false → WorkCause (seen_at (moment (F.device flash.old) self.old)) fault (seen_at (moment (F.device flash.new) self.new))) }
        ensures faults { IfErr result IsReadFault }
    {
        let mut store = Store::new(flash, &mut self.storage);
        names(alloc, &mut store, block)
    }
}
