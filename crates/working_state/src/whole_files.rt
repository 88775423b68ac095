//! Whole files written at a path, on the working state and the flash. Checked in order: the refusals of
//! the call; whether the file has these bytes already; read-only mode; outside a change group the greatest
//! serial; and then it works.
ghost use Rattle.std.specs.Prelude.{◌≡◌, ◌≤◌, true, false, not, length, None, Some, Ok, IfOk, IfErr, OnOk};
ghost use Rattle.fs_types.specs.Names.{is_path};
ghost use Rattle.fs_types.specs.declared.call.Call.{Call};
ghost use Rattle.fs_types.specs.declared.limits.TheConstants.{MAX_FILE_BYTES};
ghost use Rattle.history_machine.specs.History.{working_root};
ghost use Rattle.history_machine.specs.Machine.{working_tree, write_file_changes, refusal};
ghost use Rattle.node_store.specs.NodePages.{node_of};
ghost use Rattle.directory.specs.Lookups.{look_up};
ghost use Rattle.directory.specs.Trails.{IsTrail};
ghost use Rattle.tree_edits.specs.Edits.{TakesFile};
ghost use Rattle.working_state.specs.Mounted.{IsMounted};
ghost use Rattle.working_state.specs.Moments.{IsAnswered, IsRefused, moment, machine_at, seen_at};
ghost use Rattle.plain_trees.specs.Contents.{same_bytes};
ghost use Rattle.node_store.specs.Faults.{IsLookFault};
ghost use Rattle.working_state.specs.Changes.{IsReady};
ghost use Rattle.working_state.specs.Leaves.{HasLooked};
ghost use Rattle.working_state.specs.Seen.{capacity_of, seen_of};
ghost use Rattle.working_state.specs.WholeFiles.{place_refusal, is_as_long, file_bytes, IsWholeFile};
ghost use Rattle.working_state.specs.Steps.{replied, empty};
ghost use Rattle.working_state.specs.Worked.{IsLooked, ReadCause, WorkCause};

use crate::changes::change;
use crate::lookups::find_path;
use crate::state::State;
use directory::{Found, Trail};
use flash_model::Flash;
use fs_types::{Fault, MAX_FILE_BYTES, Path};
use node_store::{Storage, Store};
use std::alloc::Global;
use tree_edits::{Body, Edit, has_bytes};

impl State {
    /// Makes the file at a path one of exactly these bytes, where nothing stands or a file that is not open.
    /// Where that has these bytes already, nothing is written.
    pub(crate) fn write_file<F: Flash>(
        &mut self,
        alloc: Global,
        flash: &mut F,
        path: &Path,
        bytes: &[u8],
    ) -> Result<(), Fault>
        requires { IsMounted (F.device flash.old) self.old }
        ensures { IsAnswered (moment (F.device flash.old) self.old) (Call.WriteFile path.now bytes.now) (replied empty result) (moment (F.device flash.new) self.new) }
    {
        let root = self.root();
        let (found, trail) = self.check_whole(flash, root, path, bytes)?;
        let same = self.has_bytes(alloc, flash, root, path, found, bytes)?;
        if same {
            return Ok(());
        }
        let edit = Edit::WriteFile {
            path,
            trail: &trail,
            bytes,
        };
        change(
            alloc,
            flash,
            &mut self.history,
            &mut self.group,
            &mut self.storage,
            edit,
        )
    }

    /// Refuses a path where no whole file is written, and too many bytes. Answers what stands there, and
    /// the directories that the path goes through.
    fn check_whole<F: Flash>(
        &mut self,
        flash: &mut F,
        root: u32,
        path: &Path,
        bytes: &[u8],
    ) -> Result<(Found, Trail), Fault>
        requires mounted { IsMounted (F.device flash.old) self.old }
        requires working { working_root self.old.history self.old.group ≡ Some root }

        // Nodes were read alone.
        ensures looked { IsLooked (moment (F.device flash.old) self.old) (moment (F.device flash.new) self.new) }

        // Where it may be written.
        ensures lawful { OnOk result (is_path path.now ≡ true) }
        ensures found { IfOk result (λ r. look_up (node_of (F.device flash.new)) root path.now ≡ Ok r.0) }
        ensures takes { IfOk result (λ r. TakesFile r.0) }
        ensures way { IfOk result (λ r. IsTrail (node_of (F.device flash.new)) root path.now r.1) }
        ensures short { OnOk result (length bytes.now ≤ MAX_FILE_BYTES) }

        // What the machine says of the call.
        ensures accepted { OnOk result (refusal (machine_at (moment (F.device flash.old) self.old)) (Call.WriteFile path.now bytes.now) ≡ None) }
        ensures refused { IfErr result (λ fault. IsRefused (moment (F.device flash.old) self.old) (Call.WriteFile path.now bytes.now) fault (moment (F.device flash.new) self.new)) }
    {
        let (found, trail) = find_path(flash, &mut self.storage, root, path)?;
        check_place(found, self.files.is_open(path))?;
        if bytes.len() > MAX_FILE_BYTES as usize {
            return Err(Fault::TooBig);
        }
        // The names of each path are lawful, as their contract tells.
        let _names = path.names();
        Ok((found, trail))
    }

    /// Whether a file was found that has exactly these bytes. Its pages are read only where it is as long,
    /// one after the other, up to the first one that has another byte.
    pub(crate) fn has_bytes<F: Flash>(
        &mut self,
        alloc: Global,
        flash: &mut F,
        root: u32,
        path: &Path,
        found: Found,
        bytes: &[u8],
    ) -> Result<bool, Fault>
        requires mounted { IsMounted (F.device flash.old) self.old }
        requires working { working_root self.old.history self.old.group ≡ Some root }
        requires found { look_up (node_of (F.device flash.old)) root path.now ≡ Ok found }
        requires takes { TakesFile found }

        // Nodes were read alone.
        ensures looked { IsLooked (moment (F.device flash.old) self.old) (moment (F.device flash.new) self.new) }

        // Whether the call changes the tree, and why that is not known.
        ensures same { IfOk result (λ same. write_file_changes (working_tree (machine_at (moment (F.device flash.old) self.old))) path.now bytes.now ≡ not same) }
        ensures why { IfErr result (λ fault. ReadCause (seen_at (moment (F.device flash.old) self.old)) fault (seen_at (moment (F.device flash.new) self.new))) }

        // Nothing is read where it is not as long.
        ensures unread { is_as_long found (length bytes.now) ≡ false → (F.device flash.new ≡ F.device flash.old) × (self.new ≡ self.old) }
    {
        if !is_as_long(found, bytes.len()) {
            return Ok(false);
        }
        is_same(alloc, flash, &mut self.storage, found, bytes)
    }
}

/// Whether the file that was found has exactly these bytes, of which there are as many. Its pages are read
/// one after the other, up to the first one that has another byte, and none of them is kept.
fn is_same<F: Flash>(
    alloc: Global,
    flash: &mut F,
    storage: &mut Storage,
    found: Found,
    bytes: &[u8],
) -> Result<bool, Fault>
    requires ready { IsReady (F.device flash.old) storage.old }
    requires whole { IsWholeFile (capacity_of (F.device flash.old)) (node_of (F.device flash.old)) found (length bytes.now) }
    ensures looked { HasLooked (F.device flash.old) storage.old (F.device flash.new) storage.new }
    ensures same { IfOk result (λ same. same ≡ same_bytes (file_bytes (capacity_of (F.device flash.old)) (node_of (F.device flash.old)) found) bytes.now) }
    ensures refused { IfErr result (λ fault. IsLookFault fault × WorkCause (seen_of (F.device flash.old) storage.old) fault (seen_of (F.device flash.new) storage.new)) }
{
    let Found::File { head, length } = found else {
        unreachable!()
    };
    let mut store = Store::new(flash, storage);
    has_bytes(alloc, &mut store, Body { head, length }, bytes)
}

/// Whether a file was found that has so many bytes.
fn is_as_long(found: Found, count: usize) -> bool
    ensures { result ≡ is_as_long found count }
{
    match found {
        Found::Missing { .. } => false,
        Found::File { length, .. } => length as usize == count,
        Found::Dir { .. } => false,
    }
}

/// Refuses what was found, where no whole file is written in its place.
fn check_place(found: Found, is_open: bool) -> Result<(), Fault>
    ensures ok { OnOk result (place_refusal is_open found ≡ None) }
    ensures err { IfErr result (λ fault. place_refusal is_open found ≡ Some fault) }
{
    match found {
        Found::Missing { is_full: true } => Err(Fault::DirectoryFull),
        Found::Missing { is_full: false } => Ok(()),
        Found::File { .. } if is_open => Err(Fault::Busy),
        Found::File { .. } => Ok(()),
        Found::Dir { .. } => Err(Fault::IsDirectory),
    }
}
