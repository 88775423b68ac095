//! Entries taken out of the tree that calls work on, on the working state and the flash. Each call
//! checks in order: its own refusals; read-only mode; outside a change group the greatest serial; and
//! then it works.
ghost use Rattle.std.specs.Prelude.{◌≡◌, ◌<◌, ℕ, true, length, None, Some, [], Ok, Err, IfOk, IfErr, OnOk};
ghost use Rattle.history_machine.specs.History.{working_root};
ghost use Rattle.history_machine.specs.Machine.{refusal};
ghost use Rattle.fs_types.specs.Names.{is_path};
ghost use Rattle.fs_types.specs.declared.call.Call.{Call};
ghost use Rattle.node_store.specs.NodePages.{node_of};
ghost use Rattle.nodes.specs.Trees.{entries_in};
ghost use Rattle.directory.specs.declared.lookups.Found.TheVariants as found;
ghost use Rattle.directory.specs.Lookups.{look_up};
ghost use Rattle.directory.specs.Trails.{IsTrail};
ghost use Rattle.working_state.specs.Mounted.{IsMounted};
ghost use Rattle.working_state.specs.Steps.{replied, empty, Refuses};
ghost use Rattle.working_state.specs.Worked.{IsLooked};
ghost use Rattle.working_state.specs.Moments.{IsAnswered, IsRefused, moment, machine_at};

use crate::changes::change;
use crate::lookups::find_path;
use crate::state::State;
use directory::{Found, Trail};
use flash_model::Flash;
use fs_types::{Fault, Path};
use std::alloc::Global;
use tree_edits::Edit;

impl State {
    /// Removes an empty directory.
    pub(crate) fn remove_directory<F: Flash>(
        &mut self,
        alloc: Global,
        flash: &mut F,
        path: &Path,
    ) -> Result<(), Fault>
        requires { IsMounted (F.device flash.old) self.old }
        ensures { IsAnswered (moment (F.device flash.old) self.old) (Call.Rmdir path.now) (replied empty result) (moment (F.device flash.new) self.new) }
    {
        let root = self.root();
        let trail = self.check_empty(flash, root, path)?;
        let edit = Edit::Remove {
            path,
            trail: &trail,
        };
        change(
            alloc,
            flash,
            &mut self.history,
            &mut self.group,
            &mut self.storage,
            edit,
        )
    }

    /// Refuses the root, a path where no directory stands, and that of a directory with entries.
    /// Answers the directories that the path goes through.
    fn check_empty<F: Flash>(
        &mut self,
        flash: &mut F,
        root: u32,
        path: &Path,
    ) -> Result<Trail, Fault>
        requires mounted { IsMounted (F.device flash.old) self.old }
        requires working { working_root self.old.history self.old.group ≡ Some root }

        // Nodes were read alone.
        ensures looked { IsLooked (moment (F.device flash.old) self.old) (moment (F.device flash.new) self.new) }

        // What may be removed.
        ensures lawful { OnOk result (is_path path.now ≡ true) }
        ensures below { OnOk result (0 < length path.now) }
        ensures way { IfOk result (IsTrail (node_of (F.device flash.new)) root path.now) }
        ensures empty { OnOk result ((block : ℕ) × (look_up (node_of (F.device flash.new)) root path.now ≡ Ok (found.Dir block)) × (entries_in (node_of (F.device flash.new)) block ≡ Some [])) }

        // What the machine says of the call.
        ensures accepted { OnOk result (refusal (machine_at (moment (F.device flash.old) self.old)) (Call.Rmdir path.now) ≡ None) }
        ensures refused { IfErr result (λ fault. IsRefused (moment (F.device flash.old) self.old) (Call.Rmdir path.now) fault (moment (F.device flash.new) self.new)) }
    {
        if path.names().is_empty() {
            return Err(Fault::Busy);
        }
        let (found, trail) = find_path(flash, &mut self.storage, root, path)?;
        match found {
            Found::Missing { .. } => Err(Fault::NoEntry),
            Found::File { .. } => Err(Fault::NotDirectory),
            Found::Dir { block } => {
                let empty = self.is_empty_directory(flash, block)?;
                if !empty {
                    return Err(Fault::NotEmpty);
                }
                Ok(trail)
            }
        }
    }

    /// Removes a file.
    pub(crate) fn remove_file<F: Flash>(
        &mut self,
        alloc: Global,
        flash: &mut F,
        path: &Path,
    ) -> Result<(), Fault>
        requires { IsMounted (F.device flash.old) self.old }
        ensures { IsAnswered (moment (F.device flash.old) self.old) (Call.Unlink path.now) (replied empty result) (moment (F.device flash.new) self.new) }
    {
        let root = self.root();
        let trail = self.check_file(flash, root, path)?;
        let edit = Edit::Remove {
            path,
            trail: &trail,
        };
        change(
            alloc,
            flash,
            &mut self.history,
            &mut self.group,
            &mut self.storage,
            edit,
        )
    }

    /// Refuses a path where no file stands, and that of an open file. Answers the directories that the
    /// path goes through.
    fn check_file<F: Flash>(
        &mut self,
        flash: &mut F,
        root: u32,
        path: &Path,
    ) -> Result<Trail, Fault>
        requires mounted { IsMounted (F.device flash.old) self.old }
        requires working { working_root self.old.history self.old.group ≡ Some root }

        // Nodes were read alone.
        ensures looked { IsLooked (moment (F.device flash.old) self.old) (moment (F.device flash.new) self.new) }

        // What may be removed.
        ensures lawful { OnOk result (is_path path.now ≡ true) }
        ensures way { IfOk result (IsTrail (node_of (F.device flash.new)) root path.now) }
        ensures found { OnOk result ((head size : ℕ) × (look_up (node_of (F.device flash.new)) root path.now ≡ Ok (found.File head size))) }

        // What the machine says of the call.
        ensures accepted { OnOk result (refusal (machine_at (moment (F.device flash.old) self.old)) (Call.Unlink path.now) ≡ None) }
        ensures refused { IfErr result (λ fault. IsRefused (moment (F.device flash.old) self.old) (Call.Unlink path.now) fault (moment (F.device flash.new) self.new)) }
    {
        let (found, trail) = find_path(flash, &mut self.storage, root, path)?;
        match found {
            Found::Missing { .. } => Err(Fault::NoEntry),
            Found::Dir { .. } => Err(Fault::NotPermitted),
            Found::File { .. } => {
                if self.files.is_open(path) {
                    return Err(Fault::Busy);
                }
                Ok(trail)
            }
        }
    }
}
