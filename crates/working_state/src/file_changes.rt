//! Changes of the bytes of open files, on the working state and the flash. Each call checks in order:
//! its own refusals; read-only mode; outside a change group the greatest serial; and then it works.
ghost use Rattle.std.specs.Prelude.{◌≡◌, ℕ, ◌<◌, ◌≤◌, ◌+◌, length, Some, None, Ok, IfOk, IfErr, OnOk};
ghost use Rattle.std.specs.Option.{option_map_or};
ghost use Rattle.history_machine.specs.Descriptors.{descriptor_at};
ghost use Rattle.history_machine.specs.Machine.{pwrite_refusal, ftruncate_refusal};
ghost use Rattle.fs_types.specs.declared.limits.TheConstants.{MAX_FILE_BYTES};
ghost use Rattle.fs_types.specs.declared.call.Call.{Call};
ghost use Rattle.fs_types.specs.declared.call.Reply.{Reply};
ghost use Rattle.fs_types.specs.declared.fault.Fault.TheVariants.{BadDescriptor};
ghost use Rattle.node_store.specs.NodePages.{node_of};
ghost use Rattle.directory.specs.declared.lookups.Found.TheVariants as found;
ghost use Rattle.directory.specs.Lookups.{look_up, LeadsToDirectories};
ghost use Rattle.directory.specs.Trails.{IsTrail};
ghost use Rattle.working_state.specs.Changes.{IsReady};
ghost use Rattle.working_state.specs.Leaves.{HasLooked};
ghost use Rattle.working_state.specs.Changing.{IsPathOf};
ghost use Rattle.working_state.specs.Mounted.{IsMounted};
ghost use Rattle.working_state.specs.Seen.{seen_of};
ghost use Rattle.working_state.specs.Steps.{replied, empty};
ghost use Rattle.working_state.specs.Worked.{ReadCause};
ghost use Rattle.working_state.specs.Moments.{IsAnswered, moment};

use crate::changes::change;
use crate::lookups::find_path;
use crate::state::State;
use bitflags::Flags;
use directory::{Found, Trail};
use flash_model::Flash;
use fs_types::{Fault, MAX_FILE_BYTES, OpenFlags, Path};
use machine_state::OpenFiles;
use node_store::Storage;
use std::alloc::Global;
use tree_edits::{Body, Edit};

/// The most bytes in a file.
const MOST_BYTES: u64 = MAX_FILE_BYTES as u64;

impl State {
    /// Writes bytes at an offset of an open file, and answers how many.
    pub(crate) fn write_open<F: Flash>(
        &mut self,
        alloc: Global,
        flash: &mut F,
        descriptor: u64,
        offset: u64,
        bytes: &[u8],
    ) -> Result<u64, Fault>
        requires { IsMounted (F.device flash.old) self.old }
        ensures { IsAnswered (moment (F.device flash.old) self.old) (Call.Pwrite descriptor offset bytes.now) (replied Reply.Count result) (moment (F.device flash.new) self.new) }
    {
        let root = self.root();
        let path = check_write(&self.files, descriptor, offset, bytes)?;
        if bytes.is_empty() {
            return Ok(0);
        }
        let (body, trail) = find_body(flash, &mut self.storage, root, path)?;
        let edit = Edit::Overwrite {
            path,
            trail: &trail,
            body,
            offset: offset as u32,
            bytes,
        };
        change(
            alloc,
            flash,
            &mut self.history,
            &mut self.group,
            &mut self.storage,
            edit,
        )?;
        Ok(bytes.len() as u64)
    }

    /// Makes the length of an open file this.
    pub(crate) fn resize_file<F: Flash>(
        &mut self,
        alloc: Global,
        flash: &mut F,
        descriptor: u64,
        size: u64,
    ) -> Result<(), Fault>
        requires { IsMounted (F.device flash.old) self.old }
        ensures { IsAnswered (moment (F.device flash.old) self.old) (Call.Ftruncate descriptor size) (replied empty result) (moment (F.device flash.new) self.new) }
    {
        let root = self.root();
        let path = check_resize(&self.files, descriptor, size)?;
        let (body, trail) = find_body(flash, &mut self.storage, root, path)?;
        if u64::from(body.length) == size {
            return Ok(());
        }
        let edit = Edit::SetLength {
            path,
            trail: &trail,
            body,
            length: size as u32,
        };
        change(
            alloc,
            flash,
            &mut self.history,
            &mut self.group,
            &mut self.storage,
            edit,
        )
    }
}

/// Refuses a descriptor that is not of a file open for writing, and bytes beyond the most of a file; else
/// the path of the file.
fn check_write<'a>(
    files: &'a OpenFiles,
    descriptor: u64,
    offset: u64,
    bytes: &[u8],
) -> Result<&'a Path, Fault>
    ensures path { IfOk result (λ path. IsPathOf files.now descriptor path.now) }
    ensures ok { OnOk result (option_map_or (pwrite_refusal offset bytes.now) (descriptor_at files.now descriptor) (Some BadDescriptor) ≡ None) }
    ensures fits { OnOk result (0 < length bytes.now → offset + length bytes.now ≤ MAX_FILE_BYTES) }
    ensures err { IfErr result (λ fault. option_map_or (pwrite_refusal offset bytes.now) (descriptor_at files.now descriptor) (Some BadDescriptor) ≡ Some fault) }
{
    let Some(file) = files.get(descriptor) else {
        return Err(Fault::BadDescriptor);
    };
    if !file.flags().contains(OpenFlags::WRITE) {
        return Err(Fault::BadDescriptor);
    }
    let count = bytes.len() as u64;
    if count > 0 && (offset > MOST_BYTES || count > MOST_BYTES - offset) {
        return Err(Fault::TooBig);
    }
    Ok(file.path())
}

/// Refuses a descriptor that is not of an open file, one that is not for writing, and a length beyond the
/// most of a file; else the path of the file.
fn check_resize(files: &OpenFiles, descriptor: u64, size: u64) -> Result<&Path, Fault>
    ensures path { IfOk result (λ path. IsPathOf files.now descriptor path.now) }
    ensures ok { OnOk result (option_map_or (ftruncate_refusal size) (descriptor_at files.now descriptor) (Some BadDescriptor) ≡ None) }
    ensures fits { OnOk result (size ≤ MAX_FILE_BYTES) }
    ensures err { IfErr result (λ fault. option_map_or (ftruncate_refusal size) (descriptor_at files.now descriptor) (Some BadDescriptor) ≡ Some fault) }
{
    let Some(file) = files.get(descriptor) else {
        return Err(Fault::BadDescriptor);
    };
    if !file.flags().contains(OpenFlags::WRITE) {
        return Err(Fault::Invalid);
    }
    if size > MOST_BYTES {
        return Err(Fault::TooBig);
    }
    Ok(file.path())
}

/// The body of the file that a path below a root leads to, and the directories that it goes through.
fn find_body<F: Flash>(
    flash: &mut F,
    storage: &mut Storage,
    root: u32,
    path: &Path,
) -> Result<(Body, Trail), Fault>
    requires ready { IsReady (F.device flash.old) storage.old }
    requires file { (head size : ℕ) × (look_up (node_of (F.device flash.old)) root path.now ≡ Ok (found.File head size)) }
    ensures looked { HasLooked (F.device flash.old) storage.old (F.device flash.new) storage.new }
    ensures found { IfOk result (λ r. look_up (node_of (F.device flash.new)) root path.now ≡ Ok (found.File r.0.head r.0.length)) }
    ensures way { LeadsToDirectories (node_of (F.device flash.old)) root → IfOk result (λ r. IsTrail (node_of (F.device flash.new)) root path.now r.1) }
    ensures why { IfErr result (λ fault. ReadCause (seen_of (F.device flash.old) storage.old) fault (seen_of (F.device flash.new) storage.new)) }
{
    let (found, trail) = find_path(flash, storage, root, path)?;
    match found {
        Found::File { head, length } => Ok((Body { head, length }, trail)),
        _ => unreachable!(),
    }
}
