//! Whole files of one directory written in one change, on the working state and the flash. Checked in
//! order: their names and the directory's path; the directory; each file in turn, by the refusals of
//! `write_file` in a directory that has the files before it; whether any of them changes; read-only mode;
//! outside a change group the greatest serial; and then it works.
ghost use Rattle.std.specs.Prelude.{◌≡◌, ◌⊎◌, ℕ, ◌+◌, ◌≤◌, ◌<◌, ◌^◌, true, not, length, map, None, Some, Ok, IfOk, IfErr, OnOk, OnErr};
ghost use Rattle.std.specs.List.{list_all, list_any};
ghost use Rattle.std.specs.FinMap.{get};
ghost use Rattle.fs_types.specs.Names.{is_name};
ghost use Rattle.fs_types.specs.NamedFiles.{path_in};
ghost use Rattle.fs_types.specs.declared.call.Call.{Call};
ghost use Rattle.fs_types.specs.declared.named_file.NamedFile.{NamedFile};
ghost use Rattle.fs_types.specs.declared.limits.TheConstants.{MAX_NAMES, MAX_ENTRIES};
ghost use Rattle.plain_trees.specs.Contents.{lookup_refusal};
ghost use Rattle.history_machine.specs.History.{working_root};
ghost use Rattle.history_machine.specs.NextFiles.{next_count, next_refusal, next_refusals};
ghost use Rattle.history_machine.specs.Machine.{working_tree, write_file_changes};
ghost use Rattle.node_store.specs.NodePages.{node_of};
ghost use Rattle.nodes.specs.Trees.{items_in};
ghost use Rattle.directory.specs.Lookups.{look_up};
ghost use Rattle.directory.specs.Trails.{IsTrail};
ghost use Rattle.directory.specs.declared.lookups.Found.TheVariants.{Dir};
ghost use Rattle.working_state.specs.ManyFiles as spec;
ghost use Rattle.working_state.specs.Mounted.{IsMounted};
ghost use Rattle.working_state.specs.Moments.{IsAnswered, moment, machine_at};
ghost use Rattle.working_state.specs.Steps.{replied, empty};
ghost use Rattle.working_state.specs.Worked.{IsLooked};

use crate::changes::change;
use crate::lookups::{find_in, find_path};
use crate::state::State;
use directory::{Found, Trail};
use flash_model::Flash;
use fs_types::{Fault, MAX_ENTRIES, MAX_FILE_BYTES, NamedFile, Path, files_refusal};
use std::alloc::Global;
use tree_edits::Edit;

/// A directory that files are written in.
#[derive(Drop)]
struct Target {
    /// The directories that its path goes through.
    trail: Trail,
    /// The block of its first node.
    block: u32,
    /// How many entries it has.
    count: usize,
}

/// What was found of a file that may be written.
#[derive(Clone, Copy)]
struct Checked {
    /// How many entries its directory has with it.
    count: usize,
    /// Whether it is missing, or has other bytes.
    changes: bool,
}

impl State {
    /// Makes each of these files of a directory one of exactly its bytes, where nothing stands or a file
    /// that is not open. Where all have their bytes already, nothing is written.
    pub(crate) fn write_files<F: Flash>(
        &mut self,
        alloc: Global,
        flash: &mut F,
        directory: &Path,
        files: &[NamedFile],
    ) -> Result<(), Fault>
        requires { IsMounted (F.device flash.old) self.old }
        ensures { IsAnswered (moment (F.device flash.old) self.old) (Call.WriteFiles directory.now files.now) (replied empty result) (moment (F.device flash.new) self.new) }
    {
        if let Some(fault) = files_refusal(directory, files) {
            return Err(fault);
        }
        if files.is_empty() {
            return Ok(());
        }
        // The names of each path are lawful, as their contract tells.
        let _names = directory.names();
        let root = self.root();
        let target = self.find_target(flash, root, directory)?;
        let changes = self.check_files(alloc, flash, root, directory, &target, files)?;
        if !any_changes(changes.as_slice()) {
            return Ok(());
        }
        let edit = Edit::WriteFiles {
            directory,
            trail: &target.trail,
            block: target.block,
            files,
            changes: changes.as_slice(),
        };
        change(
            alloc,
            flash,
            &mut self.history,
            &mut self.group,
            &mut self.storage,
            edit,
        )
    }

    /// The directory at a path, in which files are written.
    fn find_target<F: Flash>(
        &mut self,
        flash: &mut F,
        root: u32,
        directory: &Path,
    ) -> Result<Target, Fault>
        requires mounted { IsMounted (F.device flash.old) self.old }
        requires working { working_root self.old.history self.old.group ≡ Some root }

        // Nodes were read alone.
        ensures looked { IsLooked (moment (F.device flash.old) self.old) (moment (F.device flash.new) self.new) }

        // The directory.
        ensures led { IfOk result (λ target. look_up (node_of (F.device flash.new)) root directory.now ≡ Ok (Dir target.block)) }
        ensures way { IfOk result (λ target. IsTrail (node_of (F.device flash.new)) root directory.now target.trail) }
        ensures counted { IfOk result (λ target. length (items_in (node_of (F.device flash.new)) target.block) ≡ target.count) }

        // Why it is none: each path in it is refused so.
        ensures refused { IfErr result (λ fault. (file : NamedFile) → spec.IsRefusedBy (lookup_refusal (get (working_tree (machine_at (moment (F.device flash.old) self.old)))) (path_in directory.now file)) (moment (F.device flash.old) self.old) fault (moment (F.device flash.new) self.new)) }
    {
        let (found, trail) = find_path(flash, &mut self.storage, root, directory)?;
        let block = directory_of(found)?;
        let count = self.count_in(flash, block)?;
        Ok(Target {
            trail,
            block,
            count,
        })
    }

    /// Refuses files that cannot be written in a directory one after the other, with the first refusal.
    /// Answers which of them change.
    fn check_files<F: Flash>(
        &mut self,
        alloc: Global,
        flash: &mut F,
        root: u32,
        directory: &Path,
        target: &Target,
        files: &[NamedFile],
    ) -> Result<Vec<bool>, Fault>
        requires mounted { IsMounted (F.device flash.old) self.old }
        requires working { working_root self.old.history self.old.group ≡ Some root }
        requires led { look_up (node_of (F.device flash.old)) root directory.now ≡ Ok (Dir target.now.block) }
        requires counted { length (items_in (node_of (F.device flash.old)) target.now.block) ≡ target.now.count }
        requires above { length directory.now < MAX_NAMES }

        // Nodes were read alone.
        ensures looked { IsLooked (moment (F.device flash.old) self.old) (moment (F.device flash.new) self.new) }

        // Which files change, and what refuses them.
        ensures changes { IfOk result (λ changes. changes.items ≡ map (λ (file : NamedFile). write_file_changes (working_tree (machine_at (moment (F.device flash.old) self.old))) (path_in directory.now file) file.bytes) files.now) }
        ensures lawful { OnOk result (list_all (λ (file : NamedFile). is_name file.name) files.now ≡ true) }
        ensures accepted { OnOk result (next_refusals (working_tree (machine_at (moment (F.device flash.old) self.old))) self.old.files directory.now target.now.count files.now ≡ None) }
        ensures refused { IfErr result (λ fault. spec.IsRefusedBy (next_refusals (working_tree (machine_at (moment (F.device flash.old) self.old))) self.old.files directory.now target.now.count files.now) (moment (F.device flash.old) self.old) fault (moment (F.device flash.new) self.new)) }
    {
        let mut count = target.count;
        let mut changes = Vec::new(alloc);
        for file in files {
            let checked = self.check_next(
                alloc,
                flash,
                root,
                directory,
                target.block,
                count,
                file,
            )?;
            count = checked.count;
            changes.push(checked.changes)?;
        }
        Ok(changes)
    }

    /// Refuses a file that cannot be written in the directory that begins in a block, and has so many
    /// entries with the files before it.
    fn check_next<F: Flash>(
        &mut self,
        alloc: Global,
        flash: &mut F,
        root: u32,
        directory: &Path,
        block: u32,
        count: usize,
        file: &NamedFile,
    ) -> Result<Checked, Fault>
        requires mounted { IsMounted (F.device flash.old) self.old }
        requires working { working_root self.old.history self.old.group ≡ Some root }
        requires led { look_up (node_of (F.device flash.old)) root directory.now ≡ Ok (Dir block) }
        requires counted { length (items_in (node_of (F.device flash.old)) block) ≤ count }
        requires above { length directory.now < MAX_NAMES }

        // Nodes were read alone.
        ensures looked { IsLooked (moment (F.device flash.old) self.old) (moment (F.device flash.new) self.new) }

        // What was found of it, and what refuses it.
        ensures counted { IfOk result (λ checked. checked.count ≡ next_count (working_tree (machine_at (moment (F.device flash.old) self.old))) directory.now count file.now) }
        ensures changes { IfOk result (λ checked. write_file_changes (working_tree (machine_at (moment (F.device flash.old) self.old))) (path_in directory.now file.now) file.now.bytes ≡ checked.changes) }
        ensures lawful { OnOk result (is_name file.now.name ≡ true) }
        ensures accepted { OnOk result (next_refusal (working_tree (machine_at (moment (F.device flash.old) self.old))) self.old.files directory.now count file.now ≡ None) }
        ensures refused { IfErr result (λ fault. spec.IsRefusedBy (next_refusal (working_tree (machine_at (moment (F.device flash.old) self.old))) self.old.files directory.now count file.now) (moment (F.device flash.old) self.old) fault (moment (F.device flash.new) self.new)) }
    {
        let path = file.path_in(directory)?;
        let found = find_in(flash, &mut self.storage, block, &file.name)?;
        let count = check_next_place(found, self.files.is_open(&path), count)?;
        let bytes = file.bytes.as_slice();
        if bytes.len() > MAX_FILE_BYTES as usize {
            return Err(Fault::TooBig);
        }
        let same = self.has_bytes(alloc, flash, root, &path, found, bytes)?;
        // Each name is lawful, as its contract tells.
        let _name = file.name.as_bytes();
        Ok(Checked {
            count,
            changes: !same,
        })
    }
}

/// The block of the directory that was found.
fn directory_of(found: Found) -> Result<u32, Fault>
    ensures ok { IfOk result (λ block. found ≡ Dir block) }
    ensures err { IfErr result (λ fault. spec.no_directory found ≡ Some fault) }
{
    match found {
        Found::Missing { .. } => Err(Fault::NoEntry),
        Found::File { .. } => Err(Fault::NotDirectory),
        Found::Dir { block } => Ok(block),
    }
}

/// Refuses what was found, where no file is written in its place, in a directory of so many entries.
/// Answers how many it has with the file.
fn check_next_place(found: Found, is_open: bool, count: usize) -> Result<usize, Fault>
    ensures ok { OnOk result (spec.next_place_refusal is_open count found ≡ None) }
    ensures counted { IfOk result (λ with. with ≡ spec.count_with count found) }
    ensures err { IfErr result (λ fault. spec.next_place_refusal is_open count found ≡ Some fault) }
{
    match found {
        Found::Missing { .. } if count >= MAX_ENTRIES => Err(Fault::DirectoryFull),
        Found::Missing { .. } => Ok(count + 1),
        Found::File { .. } if is_open => Err(Fault::Busy),
        Found::File { .. } => Ok(count),
        Found::Dir { .. } => Err(Fault::IsDirectory),
    }
}

/// Whether any file changes.
fn any_changes(changes: &[bool]) -> bool
    ensures { result ≡ list_any (λ changes. changes) changes.now }
{
    changes.iter().any(|changes| *changes)
}
