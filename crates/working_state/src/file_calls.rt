//! Files opened and closed, on the working state and the flash. Each call checks in order: its own
//! refusals; read-only mode; outside a change group the greatest serial; and then it works.
ghost use Rattle.std.specs.Prelude.{◌≡◌, ◌<◌, true, false, length, Some, None, Ok, IfOk, IfErr, OnOk};
ghost use Rattle.history_machine.specs.History.{working_root};
ghost use Rattle.fs_types.specs.Names.{is_path};
ghost use Rattle.history_machine.specs.Descriptors.{least_free};
ghost use Rattle.history_machine.specs.Machine.{refusal};
ghost use Rattle.fs_types.specs.declared.call.Call.{Call};
ghost use Rattle.fs_types.specs.declared.call.Reply.{Reply};
ghost use Rattle.flash_model.specs.Device.{Device};
ghost use Rattle.node_store.specs.NodePages.{node_of};
ghost use Rattle.directory.specs.Lookups.{look_up};
ghost use Rattle.directory.specs.Trails.{IsTrail};
ghost use Rattle.working_state.specs.Mounted.{IsMounted};
ghost use Rattle.working_state.specs.Opening.{open_refusal_of, changes_found};
ghost use Rattle.working_state.specs.Steps.{replied, empty, Refuses};
ghost use Rattle.working_state.specs.Worked.{IsLooked};
ghost use Rattle.working_state.specs.Moments.{IsAnswered, IsRefused, moment, machine_at};

use crate::changes::change;
use crate::lookups::find_path;
use crate::state::State;
use bitflags::Flags;
use directory::{Found, Trail};
use flash_model::Flash;
use fs_types::{Fault, OpenFlags, Path};
use machine_state::OpenFile;
use std::alloc::Global;
use tree_edits::Edit;

impl State {
    /// The descriptor is free.
    pub(crate) fn close(&mut self, descriptor: u64) -> Result<(), Fault>
        requires { self.old.is_off ≡ false }
        ensures { (device : Device) → IsMounted device self.old → IsAnswered (moment device self.old) (Call.Close descriptor) (replied empty result) (moment device self.new) }
    {
        if self.files.get(descriptor).is_none() {
            return Err(Fault::BadDescriptor);
        }
        self.files.close(descriptor);
        Ok(())
    }

    /// Opens the file at a path under the least free descriptor, and answers the descriptor. The path is
    /// copied before anything is written, so that want of memory changes nothing.
    pub(crate) fn open_file<F: Flash>(
        &mut self,
        alloc: Global,
        flash: &mut F,
        path: &Path,
        flags: OpenFlags,
    ) -> Result<u8, Fault>
        requires { IsMounted (F.device flash.old) self.old }
        ensures { IsAnswered (moment (F.device flash.old) self.old) (Call.Open path.now flags) (replied Reply.Fd result) (moment (F.device flash.new) self.new) }
    {
        let root = self.root();
        let (found, trail, descriptor) = self.check_open(flash, root, path, flags)?;
        let file = OpenFile::new(path.clone()?, flags);
        if !is_changed(found, flags) {
            self.files.open(descriptor, file);
            return Ok(descriptor);
        }
        let edit = Edit::PutEmptyFile {
            path,
            trail: &trail,
        };
        change(
            alloc,
            flash,
            &mut self.history,
            &mut self.group,
            &mut self.storage,
            edit,
        )?;
        self.files.open(descriptor, file);
        Ok(descriptor)
    }

    /// Refuses what cannot be opened. Answers what stands at the path, the directories that it goes
    /// through, and the least free descriptor.
    fn check_open<F: Flash>(
        &mut self,
        flash: &mut F,
        root: u32,
        path: &Path,
        flags: OpenFlags,
    ) -> Result<(Found, Trail, u8), Fault>
        requires mounted { IsMounted (F.device flash.old) self.old }
        requires working { working_root self.old.history self.old.group ≡ Some root }

        // Nodes were read alone.
        ensures looked { IsLooked (moment (F.device flash.old) self.old) (moment (F.device flash.new) self.new) }

        // What may be opened.
        ensures lawful { OnOk result (is_path path.now ≡ true) }
        ensures nodes { node_of (F.device flash.new) ≡ node_of (F.device flash.old) }
        ensures found { IfOk result (λ r. look_up (node_of (F.device flash.old)) root path.now ≡ Ok r.0) }
        ensures fits { IfOk result (λ r. open_refusal_of flags r.0 ≡ None) }
        ensures way { IfOk result (λ r. IsTrail (node_of (F.device flash.old)) root path.now r.1) }
        ensures descriptor { IfOk result (λ r. least_free self.old.files ≡ Some r.2) }

        // What the machine says of the call.
        ensures accepted { OnOk result (refusal (machine_at (moment (F.device flash.old) self.old)) (Call.Open path.now flags) ≡ None) }
        ensures refused { IfErr result (λ fault. IsRefused (moment (F.device flash.old) self.old) (Call.Open path.now flags) fault (moment (F.device flash.new) self.new)) }
    {
        if !flags.are_lawful() {
            return Err(Fault::Invalid);
        }
        let (found, trail) = find_path(flash, &mut self.storage, root, path)?;
        check_found(found, flags)?;
        let Some(descriptor) = self.files.least_free() else {
            return Err(Fault::TooManyOpen);
        };
        // The names of each path are lawful, as their contract tells.
        let _names = path.names();
        Ok((found, trail, descriptor))
    }
}

/// Refuses what was found, where the flags do not open it.
fn check_found(found: Found, flags: OpenFlags) -> Result<(), Fault>
    ensures ok { OnOk result (open_refusal_of flags found ≡ None) }
    ensures err { IfErr result (λ fault. open_refusal_of flags found ≡ Some fault) }
{
    let creates = flags.contains(OpenFlags::CREAT);
    let is_exclusive = flags.contains(OpenFlags::EXCL);
    match found {
        Found::Missing { .. } if !creates => Err(Fault::NoEntry),
        Found::Missing { is_full: true } => Err(Fault::DirectoryFull),
        Found::Missing { is_full: false } => Ok(()),
        _ if creates && is_exclusive => Err(Fault::Exists),
        Found::File { .. } => Ok(()),
        Found::Dir { .. } => Err(Fault::IsDirectory),
    }
}

/// Whether opening makes or cuts what was found.
fn is_changed(found: Found, flags: OpenFlags) -> bool
    ensures { result ≡ changes_found flags found }
{
    match found {
        Found::Missing { .. } => true,
        Found::File { length, .. } => flags.contains(OpenFlags::TRUNC) && length > 0,
        Found::Dir { .. } => false,
    }
}
