//! What stands at a path of a flash is copied out of it.
ghost use Rattle.std.specs.Prelude.{◌≡◌, ℕ, List, [], IfOk, IfErr, OnOk};
ghost use Rattle.fs_types.specs.declared.limits.TheConstants.{MAX_NAMES};
ghost use Rattle.history_machine.specs.Machine.{view_tree};
ghost use Rattle.host_interface.specs.Files.{new_name};
ghost use Rattle.host_interface.specs.Folders.{Made, KeepsBeside, KeepsOutside, HoldsMade};
ghost use Rattle.inquiries.specs.Folders.{IsSmall};
ghost use Rattle.inquiries.specs.Items.{items_below, IsDirectoryOf};
ghost use Rattle.inquiries.specs.Readings.{shown, IsUnchanged};
ghost use Rattle.image_words.specs.PathCopies.{folder_made, of_list, IsHostFailure, Uncopied, Unfilled, Unfinished, IsCopy, CopyFails, IsCopiedOut, CopyCause};

use crate::host_folders::{make_all, unmade};
use flash_model::Flash;
use fs_types::{Bytes, Fault, Path, Stat, View};
use host_interface::{FileFault, Folders};
use image_jobs::Failure;
use inquiries::{Item, TellFault, list_folder, read_file, stat_at};
use script_runs::Refusal;
use std::alloc::Global;
use undofs::{Fs, RefusedMount};

/// What was copied out of a flash.
#[derive(Debug, Drop)]
pub enum Copied {
    /// The bytes of a file, which are written nowhere yet.
    File(Bytes),
    /// A directory: it is a folder of the host.
    Folder,
}

/// Mounts what the newest record of a flash holds, and copies out what stands at a path of a view: a
/// directory as a folder of the host, which is made whole or not at all, and of a file its bytes. The flash
/// is only read.
///
/// Refused as the call `stat` is; [`Failure::TooManyLines`] where a directory is wanted of a tree that has
/// too much ([`list_folder`]); [`Failure::CannotWrite`] where something stands at the name, where the host
/// fails, and where a name is not UTF-8.
pub fn copy_out<F: Flash, H: Folders>(
    alloc: Global,
    flash: &mut F,
    view: &View,
    path: &Path,
    files: &mut H,
    name: &str,
) -> Result<Copied, Failure>
    ensures ok { IfOk result (IsCopiedOut (F.device flash.old) view.now path.now name.now (H.made files.new name.now) (H.held files.old) (H.held files.new)) }
    ensures pages { (p : ℕ) → (F.device flash.new).pages p ≡ (F.device flash.old).pages p }
    ensures err { IfErr result (CopyCause (F.device flash.old) view.now path.now name.now (H.held files.old) (H.held files.new) (F.device flash.new)) }
{
    match Fs::mount_or_release(alloc, flash) {
        Ok(fs) => {
            let mut fs = fs;
            let copied = copy(alloc, &mut fs, view, path, files, name);
            // The borrow ends here, with the flash as it was left.
            let _left = fs.into_flash();
            copied
        }
        Err(refused) => {
            let RefusedMount { fault, flash: left } = refused;
            let _left = left;
            Err(Failure::of_system(fault))
        }
    }
}

/// Copies out what stands at a path of a view.
fn copy<F: Flash, H: Folders>(
    alloc: Global,
    fs: &mut Fs<'_, F>,
    view: &View,
    path: &Path,
    files: &mut H,
    name: &str,
) -> Result<Copied, Failure>
    ensures same { IsUnchanged fs.old fs.new }
    ensures ok { IfOk result (IsCopy (shown fs.old) view.now path.now name.now (H.made files.new name.now) (H.held files.old) (H.held files.new)) }
    ensures err { IfErr result (CopyFails (shown fs.old) view.now path.now name.now (H.held files.old) (H.held files.new) (F.device fs.old.flash.now) (F.device fs.new.flash.now)) }
{
    let stat = match stat_at(fs, view, path) {
        Ok(stat) => stat,
        Err(fault) => return Err(Failure::of_refusal(Refusal::Fault(fault))),
    };
    match stat {
        Stat::Dir(_) => match copy_folder(alloc, fs, view, path, files, name) {
            Ok(()) => Ok(Copied::Folder),
            Err(failure) => Err(failure),
        },
        Stat::File(_) => match read_file(alloc, fs, view, path) {
            Ok(bytes) => Ok(Copied::File(bytes)),
            Err(fault) => Err(Failure::of_refusal(Refusal::Fault(fault))),
        },
    }
}

/// Makes a folder of the host of a directory of a view.
fn copy_folder<F: Flash, H: Folders>(
    alloc: Global,
    fs: &mut Fs<'_, F>,
    view: &View,
    directory: &Path,
    files: &mut H,
    name: &str,
) -> Result<(), Failure>
    requires { IsDirectoryOf (shown fs.old) view.now directory.now }
    ensures same { IsUnchanged fs.old fs.new }
    ensures small { OnOk result (IsSmall (view_tree (shown fs.old) view.now)) }
    ensures made { OnOk result (H.made files.new name.now (folder_made (view_tree (shown fs.old) view.now) directory.now)) }
    ensures ok { OnOk result (HoldsMade name.now (H.held files.new) (folder_made (view_tree (shown fs.old) view.now) directory.now)) }
    ensures others { OnOk result (KeepsBeside name.now (H.held files.old) (H.held files.new)) }
    ensures err { IfErr result (Uncopied (view_tree (shown fs.old) view.now) directory.now name.now (H.held files.old) (H.held files.new) (F.device fs.old.flash.now) (F.device fs.new.flash.now)) }
{
    let items = match list_folder(alloc, fs, view, directory) {
        Ok(items) => items,
        Err(fault) => return Err(of_list(fault)),
    };
    match begin_folder(files, alloc, name) {
        Ok(()) => {}
        Err(failure) => return Err(failure),
    }
    fill_folder(alloc, fs, view, directory, &items, files, name)
}

/// Fills a folder that is begun with what stands in a directory of a view, and finishes it; or gives it up.
fn fill_folder<F: Flash, H: Folders>(
    alloc: Global,
    fs: &mut Fs<'_, F>,
    view: &View,
    directory: &Path,
    items: &[Item],
    files: &mut H,
    name: &str,
) -> Result<(), Failure>
    requires there { IsDirectoryOf (shown fs.old) view.now directory.now }
    requires items { items.now ≡ items_below (view_tree (shown fs.old) view.now) MAX_NAMES directory.now }
    requires begun { H.made files.old name.now [] }
    ensures same { IsUnchanged fs.old fs.new }
    ensures made { OnOk result (H.made files.new name.now (folder_made (view_tree (shown fs.old) view.now) directory.now)) }
    ensures ok { OnOk result (HoldsMade name.now (H.held files.new) (folder_made (view_tree (shown fs.old) view.now) directory.now)) }
    ensures others { OnOk result (KeepsBeside name.now (H.held files.old) (H.held files.new)) }
    ensures err { IfErr result (Unfilled (view_tree (shown fs.old) view.now) directory.now name.now (H.held files.old) (H.held files.new) (F.device fs.old.flash.now) (F.device fs.new.flash.now)) }
{
    let skipped = directory.names().len();
    match make_all(alloc, fs, view, skipped, items, files, name) {
        Ok(()) => finish_folder(files, alloc, name),
        Err(failure) => {
            files.give_up_folder(alloc, name);
            Err(failure)
        }
    }
}

fn begin_folder<H: Folders>(files: &mut H, alloc: Global, name: &str) -> Result<(), Failure>
    ensures ok { OnOk result (H.made files.new name.now []) }
    ensures others { KeepsOutside (new_name name.now) (H.held files.old) (H.held files.new) }
    ensures err { IfErr result IsHostFailure }
{
    match files.begin_folder(alloc, name) {
        Ok(()) => Ok(()),
        Err(fault) => Err(unmade(fault)),
    }
}

fn finish_folder<H: Folders>(files: &mut H, alloc: Global, name: &str) -> Result<(), Failure>
    ensures made { OnOk result ((all : List Made) → H.made files.old name.now all → H.made files.new name.now all) }
    ensures ok { OnOk result ((all : List Made) → H.made files.old name.now all → HoldsMade name.now (H.held files.new) all) }
    ensures others { OnOk result (KeepsBeside name.now (H.held files.old) (H.held files.new)) }
    ensures err { IfErr result (Unfinished name.now (H.held files.old) (H.held files.new) (H.made files.old name.now)) }
{
    match files.finish_folder(alloc, name) {
        Ok(()) => Ok(()),
        Err(FileFault::Unsynced) => Err(Failure::Unsynced),
        Err(FileFault::Memory) => Err(Failure::Memory),
        Err(FileFault::Failed) => Err(Failure::CannotWrite),
    }
}

/// By why a directory is not listed.
fn of_list(fault: TellFault) -> Failure
    ensures { result ≡ of_list fault }
{
    match fault {
        TellFault::Refused(fault) => Failure::of_refusal(Refusal::Fault(fault)),
        TellFault::TooManyLines => Failure::TooManyLines,
    }
}
