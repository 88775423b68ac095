//! What stands at a path moved to another, on the working state and the flash. Checked in order: the
//! call's own refusals; read-only mode; outside a change group the greatest serial; and then the work.
ghost use Rattle.std.specs.Prelude.{◌≡◌, ◌⊎◌, ◌≤◌, ◌-◌, ◌&&◌, ◌||◌, true, false, not, length, None, Some, Option, Ok, Err, IfOk, IfErr, OnOk};
ghost use Rattle.plain_trees.specs.Contents.{Entry, is_dir, begins, parent_of};
ghost use Rattle.history_machine.specs.Descriptors.{is_open, is_open_within};
ghost use Rattle.history_machine.specs.History.{working_root};
ghost use Rattle.history_machine.specs.Machine.{refusal, found_refusal, rename_refusal, working_tree};
ghost use Rattle.fs_types.specs.declared.limits.TheConstants.{MAX_NAMES};
ghost use Rattle.fs_types.specs.Names.{is_path, same_path};
ghost use Rattle.fs_types.specs.declared.call.Call.{Call};
ghost use Rattle.fs_types.specs.declared.fault.Fault.TheVariants as faults;
ghost use Rattle.node_format.specs.Items.{is_place};
ghost use Rattle.node_format.specs.declared.place.Place.{Place};
ghost use Rattle.node_format.specs.declared.place.Place.TheVariants.{Dir};
ghost use Rattle.node_store.specs.NodePages.{node_of};
ghost use Rattle.nodes.specs.TreeLaws.{IsShallow};
ghost use Rattle.nodes.specs.Trees.{leads, is_dir_place};
ghost use Rattle.node_store.specs.Faults.{IsLookFault};
ghost use Rattle.directory.specs.Depths.{IsDeeper};
ghost use Rattle.directory.specs.Lookups.{look_up, LeadsToDirectories};
ghost use Rattle.directory.specs.Trails.{IsTrail, has_room};
ghost use Rattle.working_state.specs.Mounted.{IsMounted};
ghost use Rattle.working_state.specs.Renames.{IsToMove, target_refusal, lacks_room};
ghost use Rattle.working_state.specs.Steps.{replied, empty, Refuses};
ghost use Rattle.working_state.specs.Worked.{IsLooked, WorkCause, ReadCause};
ghost use Rattle.working_state.specs.Moments.{IsAnswered, IsRefused, moment, seen_at, machine_at};

use crate::changes::change;
use crate::lookups::{find_path, find_path_beside};
use crate::state::State;
use directory::{Found, Trail, is_deeper};
use flash_model::Flash;
use fs_types::{Fault, MAX_NAMES, Path};
use node_format::Place;
use node_store::Store;
use plain_trees::{is_beginning, parent};
use std::alloc::Global;
use tree_edits::Edit;

/// What is to be moved, and the directories that the old and the new path go through.
#[derive(Drop)]
struct ToMove {
    place: Place,
    old_trail: Trail,
    new_trail: Trail,
}

impl State {
    /// Moves what stands at a path to another.
    pub(crate) fn move_entry<F: Flash>(
        &mut self,
        alloc: Global,
        flash: &mut F,
        old: &Path,
        new: &Path,
    ) -> Result<(), Fault>
        requires { IsMounted (F.device flash.old) self.old }
        ensures { IsAnswered (moment (F.device flash.old) self.old) (Call.Rename old.now new.now) (replied empty result) (moment (F.device flash.new) self.new) }
    {
        let root = self.root();
        let Some(moves) = self.check_rename(alloc, flash, root, old, new)? else {
            return Ok(());
        };
        let edit = Edit::Move {
            old,
            old_trail: &moves.old_trail,
            new,
            new_trail: &moves.new_trail,
            place: moves.place,
        };
        change(
            alloc,
            flash,
            &mut self.history,
            &mut self.group,
            &mut self.storage,
            edit,
        )
    }

    /// What is to be moved, or nothing where both paths are the same.
    fn check_rename<F: Flash>(
        &mut self,
        alloc: Global,
        flash: &mut F,
        root: u32,
        old: &Path,
        new: &Path,
    ) -> Result<Option<ToMove>, Fault>
        requires mounted { IsMounted (F.device flash.old) self.old }
        requires working { working_root self.old.history self.old.group ≡ Some root }
        ensures looked { IsLooked (moment (F.device flash.old) self.old) (moment (F.device flash.new) self.new) }
        ensures movable { IfOk result (IsToMove (node_of (F.device flash.new)) root old.now new.now) }
        ensures accepted { OnOk result (refusal (machine_at (moment (F.device flash.old) self.old)) (Call.Rename old.now new.now) ≡ None) }
        ensures refused { IfErr result (λ fault. IsRefused (moment (F.device flash.old) self.old) (Call.Rename old.now new.now) fault (moment (F.device flash.new) self.new)) }
    {
        let (place, old_trail) = self.find_place(flash, root, old)?;
        if old == new {
            return Ok(None);
        }
        let new_trail = self.check_move(alloc, flash, root, old, &old_trail, new, place)?;
        Ok(Some(ToMove {
            place,
            old_trail,
            new_trail,
        }))
    }

    /// What a path leads to, and the directories that it goes through; refuses a path where nothing
    /// stands.
    fn find_place<F: Flash>(
        &mut self,
        flash: &mut F,
        root: u32,
        path: &Path,
    ) -> Result<(Place, Trail), Fault>
        requires mounted { IsMounted (F.device flash.old) self.old }
        requires working { working_root self.old.history self.old.group ≡ Some root }

        // Nodes were read alone.
        ensures looked { IsLooked (moment (F.device flash.old) self.old) (moment (F.device flash.new) self.new) }
        ensures nodes { node_of (F.device flash.new) ≡ node_of (F.device flash.old) }

        // What stands there.
        ensures stands { IfOk result (λ r. leads (node_of (F.device flash.old)) (Dir root) path.now ≡ Some r.0) }
        ensures way { IfOk result (λ r. IsTrail (node_of (F.device flash.old)) root path.now r.1) }
        ensures place { IfOk result (λ r. is_place r.0 ≡ true) }

        // What the machine says of the call.
        ensures found { IfOk result (λ r. (entry : Entry) × (is_dir entry ≡ is_dir_place r.0) × ((refuse : Entry → Option Fault) → found_refusal (working_tree (machine_at (moment (F.device flash.old) self.old))) path.now refuse ≡ refuse entry)) }
        ensures refused { IfErr result (λ fault. ((refuse : Entry → Option Fault) → found_refusal (working_tree (machine_at (moment (F.device flash.old) self.old))) path.now refuse ≡ Some fault) ⊎ ReadCause (seen_at (moment (F.device flash.old) self.old)) fault (seen_at (moment (F.device flash.new) self.new))) }
    {
        let (found, trail) = find_path(flash, &mut self.storage, root, path)?;
        match found {
            Found::Missing { .. } => Err(Fault::NoEntry),
            Found::File { head, length } => Ok((Place::File { head, length }, trail)),
            Found::Dir { block } => Ok((Place::Dir { block }, trail)),
        }
    }

    /// Refuses to move what stands at a path to another path, which is not the same. Answers the
    /// directories that the other path goes through.
    fn check_move<F: Flash>(
        &mut self,
        alloc: Global,
        flash: &mut F,
        root: u32,
        old: &Path,
        old_trail: &Trail,
        new: &Path,
        place: Place,
    ) -> Result<Trail, Fault>
        requires mounted { IsMounted (F.device flash.old) self.old }
        requires working { working_root self.old.history self.old.group ≡ Some root }
        requires differ { same_path old.now new.now ≡ false }
        requires stands { (leads (node_of (F.device flash.old)) (Dir root) old.now ≡ Some place) × IsTrail (node_of (F.device flash.old)) root old.now old_trail.now }

        // Nodes were read alone.
        ensures looked { IsLooked (moment (F.device flash.old) self.old) (moment (F.device flash.new) self.new) }
        ensures nodes { node_of (F.device flash.new) ≡ node_of (F.device flash.old) }

        // What may be moved.
        ensures lawful { OnOk result (is_path old.now && is_path new.now ≡ true) }
        ensures way { IfOk result (IsTrail (node_of (F.device flash.old)) root new.now) }
        ensures shallow { OnOk result (IsShallow (node_of (F.device flash.old)) place (MAX_NAMES - length new.now)) }
        ensures room { OnOk result (same_path (parent_of old.now) (parent_of new.now) ≡ false → has_room (look_up (node_of (F.device flash.old)) root new.now) ≡ true) }

        // What the machine says of the call.
        ensures accepted { OnOk result ((entry : Entry) → is_dir entry ≡ is_dir_place place → rename_refusal (machine_at (moment (F.device flash.old) self.old)) old.now new.now entry ≡ None) }
        ensures refused { IfErr result (λ fault. ((entry : Entry) → is_dir entry ≡ is_dir_place place → rename_refusal (machine_at (moment (F.device flash.old) self.old)) old.now new.now entry ≡ Some fault) ⊎ ReadCause (seen_at (moment (F.device flash.old) self.old)) fault (seen_at (moment (F.device flash.new) self.new))) }
    {
        let moves_directory = place.is_dir();
        check_beyond(old, new, moves_directory)?;
        let (lacks_room, trail) = self.check_target(
            flash,
            root,
            old,
            old_trail,
            new,
            moves_directory,
        )?;
        self.check_depth(alloc, flash, root, old, new, place)?;
        self.check_closed(old, new)?;
        check_room(old, new, lacks_room)?;
        Ok(trail)
    }

    /// Refuses to replace what is of another kind, and a directory with entries; else whether the path
    /// is a new name of a full directory, and the directories that it goes through. The path is looked up
    /// from where it parts from the old one.
    fn check_target<F: Flash>(
        &mut self,
        flash: &mut F,
        root: u32,
        old: &Path,
        old_trail: &Trail,
        path: &Path,
        moves_directory: bool,
    ) -> Result<(bool, Trail), Fault>
        requires mounted { IsMounted (F.device flash.old) self.old }
        requires working { working_root self.old.history self.old.group ≡ Some root }
        requires way { IsTrail (node_of (F.device flash.old)) root old.now old_trail.now }

        // Nodes were read alone.
        ensures looked { IsLooked (moment (F.device flash.old) self.old) (moment (F.device flash.new) self.new) }
        ensures nodes { node_of (F.device flash.new) ≡ node_of (F.device flash.old) }

        // What may be replaced.
        ensures room { IfOk result (λ r. r.0 ≡ lacks_room (working_tree (machine_at (moment (F.device flash.old) self.old))) path.now) }
        ensures fits { IfOk result (λ r. r.0 ≡ false → has_room (look_up (node_of (F.device flash.old)) root path.now) ≡ true) }
        ensures way { IfOk result (λ r. IsTrail (node_of (F.device flash.old)) root path.now r.1) }

        // What the machine says of the call.
        ensures allowed { OnOk result ((entry : Entry) → is_dir entry ≡ moves_directory → target_refusal (working_tree (machine_at (moment (F.device flash.old) self.old))) path.now entry ≡ None) }
        ensures refused { IfErr result (λ fault. ((entry : Entry) → is_dir entry ≡ moves_directory → target_refusal (working_tree (machine_at (moment (F.device flash.old) self.old))) path.now entry ≡ Some fault) ⊎ ReadCause (seen_at (moment (F.device flash.old) self.old)) fault (seen_at (moment (F.device flash.new) self.new))) }
    {
        let (found, trail) = find_path_beside(
            flash,
            &mut self.storage,
            root,
            old,
            old_trail,
            path,
        )?;
        match found {
            Found::Missing { is_full } => Ok((is_full, trail)),
            Found::File { .. } => {
                if moves_directory {
                    return Err(Fault::NotDirectory);
                }
                Ok((false, trail))
            }
            Found::Dir { block } => {
                if !moves_directory {
                    return Err(Fault::IsDirectory);
                }
                let empty = self.is_empty_directory(flash, block)?;
                if !empty {
                    return Err(Fault::NotEmpty);
                }
                Ok((false, trail))
            }
        }
    }

    /// Refuses to move a directory to where a path below it would have more than 16 names. This is
    /// asked only where the new path has more names than the old one: what stands in a tree is not too
    /// deep at a path of no more names.
    fn check_depth<F: Flash>(
        &mut self,
        alloc: Global,
        flash: &mut F,
        root: u32,
        old: &Path,
        new: &Path,
        place: Place,
    ) -> Result<(), Fault>
        requires mounted { IsMounted (F.device flash.old) self.old }
        requires working { working_root self.old.history self.old.group ≡ Some root }
        requires stands { leads (node_of (F.device flash.old)) (Dir root) old.now ≡ Some place }
        ensures looked { IsLooked (moment (F.device flash.old) self.old) (moment (F.device flash.new) self.new) }
        ensures nodes { node_of (F.device flash.new) ≡ node_of (F.device flash.old) }
        ensures shallow { OnOk result (IsShallow (node_of (F.device flash.old)) place (MAX_NAMES - length new.now)) }
        ensures refused { IfErr result (λ fault. ((fault ≡ faults.NameTooLong) × IsDeeper (node_of (F.device flash.old)) place (MAX_NAMES - length new.now)) ⊎ ReadCause (seen_at (moment (F.device flash.old) self.old)) fault (seen_at (moment (F.device flash.new) self.new))) }
    {
        let before = old.names().len();
        let after = new.names().len();
        if after <= before {
            return Ok(());
        }
        let Place::Dir { block } = place else {
            return Ok(());
        };
        let most = MAX_NAMES - after;
        if self.is_deeper(alloc, flash, block, most)? {
            return Err(Fault::NameTooLong);
        }
        Ok(())
    }

    /// Refuses to move an open file, or a directory with one below it, and to replace an open file.
    fn check_closed(&self, old: &Path, new: &Path) -> Result<(), Fault>
        ensures ok { OnOk result (is_open_within self.now.files old.now || is_open self.now.files new.now ≡ false) }
        ensures err { IfErr result (λ fault. (fault ≡ faults.Busy) × (is_open_within self.now.files old.now || is_open self.now.files new.now ≡ true)) }
    {
        if self.files.is_open_within(old) {
            return Err(Fault::Busy);
        }
        if self.files.is_open(new) {
            return Err(Fault::Busy);
        }
        Ok(())
    }

    /// Whether a path below the directory of a block has more than `most` names.
    fn is_deeper<F: Flash>(
        &mut self,
        alloc: Global,
        flash: &mut F,
        block: u32,
        most: usize,
    ) -> Result<bool, Fault>
        requires mounted { IsMounted (F.device flash.old) self.old }
        requires most { most ≤ MAX_NAMES }

        // Nodes were read alone.
        ensures looked { IsLooked (moment (F.device flash.old) self.old) (moment (F.device flash.new) self.new) }
        ensures nodes { node_of (F.device flash.new) ≡ node_of (F.device flash.old) }

        // What was found, and why not.
        ensures deeper { LeadsToDirectories (node_of (F.device flash.old)) block → IfOk result (λ deep. deep ≡ true → IsDeeper (node_of (F.device flash.old)) (Dir block) most) }
        ensures shallow { IfOk result (λ deep. deep ≡ false → IsShallow (node_of (F.device flash.old)) (Dir block) most) }
        ensures why { IfErr result (λ fault. WorkCause (seen_at (moment (F.device flash.old) self.old)) fault (seen_at (moment (F.device flash.new) self.new))) }
        ensures faults { IfErr result IsLookFault }
    {
        let mut store = Store::new(flash, &mut self.storage);
        is_deeper(alloc, &mut store, block, most)
    }
}

/// Refuses to move a directory below itself.
fn check_beyond(old: &Path, new: &Path, moves_directory: bool) -> Result<(), Fault>
    ensures lawful { OnOk result (is_path old.now && is_path new.now ≡ true) }
    ensures ok { OnOk result ((moves_directory && begins old.now new.now) ≡ false) }
    ensures err { IfErr result (λ fault. (fault ≡ faults.Invalid) × ((moves_directory && begins old.now new.now) ≡ true)) }
{
    let is_below = is_beginning(old.names(), new.names());
    if !moves_directory {
        return Ok(());
    }
    if is_below {
        return Err(Fault::Invalid);
    }
    Ok(())
}

/// Refuses a new name of a full directory, but where the old name stands in that directory too.
fn check_room(old: &Path, new: &Path, lacks_room: bool) -> Result<(), Fault>
    ensures ok { OnOk result ((lacks_room && not (same_path (parent_of old.now) (parent_of new.now))) ≡ false) }
    ensures err { IfErr result (λ fault. (fault ≡ faults.DirectoryFull) × ((lacks_room && not (same_path (parent_of old.now) (parent_of new.now))) ≡ true)) }
{
    if !lacks_room {
        return Ok(());
    }
    if parent(old.names()) == parent(new.names()) {
        return Ok(());
    }
    Err(Fault::DirectoryFull)
}
