//! The archive of a view of a flash.
ghost use Rattle.std.specs.Prelude.{◌≡◌, ℕ, List, true, None, IfOk, OnOk, IfErr};
ghost use Rattle.std.specs.List.{list_all};
ghost use Rattle.std.specs.Io.KnownBytes.{Appends};
ghost use Rattle.history_machine.specs.History.{view_refusal};
ghost use Rattle.history_machine.specs.Machine.{view_tree};
ghost use Rattle.inquiries.specs.Folders.{IsSmall};
ghost use Rattle.inquiries.specs.Items.{items_of};
ghost use Rattle.inquiries.specs.Readings.{shown, IsUnchanged};
ghost use Rattle.archive_jobs.specs.Archiving.{IsArchiveOf, ArchiveFails, WriteFails, IsArchived, UnwrittenCause};
ghost use Rattle.archive_jobs.specs.Entries.{has_room_for};

use crate::room::check_room;
use crate::unarchived::Unarchived;
use crate::unwritten::Unwritten;
use crate::writing::write_items;
use flash_model::Flash;
use fs_types::{Path, View};
use inquiries::{Item, TellFault, list_folder, stat_at};
use std::alloc::Global;
use std::io::Write;
use undofs::{Fs, RefusedMount};

/// Mounts what the newest record of a flash holds, and writes the archive of all that stands in the tree of a
/// view: a directory before what stands in it, and names in byte order. The flash is only read. Of the files
/// one is held at a time.
///
/// Nothing is written where there is no archive: `TooMuch` where the tree has more than is copied out of one,
/// and `NoRoom` with the first path for which the format has no room. Once a byte is written a read may fail,
/// memory be wanted, or the output fail, which leaves a first part of the archive.
pub fn write_archive<F: Flash, W: Write>(
    alloc: Global,
    flash: &mut F,
    view: &View,
    out: &mut W,
) -> Result<(), Unwritten>
    ensures ok { OnOk result ((bytes : List ℕ) × IsArchived (F.device flash.old) view.now bytes × Appends (W.contents out.old) (W.contents out.new) bytes) }
    ensures pages { (p : ℕ) → (F.device flash.new).pages p ≡ (F.device flash.old).pages p }
    ensures err { IfErr result (UnwrittenCause (F.device flash.old) view.now (F.device flash.new) (W.contents out.old) (W.contents out.new)) }
{
    match Fs::mount_or_release(alloc, flash) {
        Ok(fs) => {
            let mut fs = fs;
            let written = write_view(alloc, &mut fs, view, out);
            // The borrow ends here, with the flash as it was left.
            let _left = fs.into_flash();
            written
        }
        Err(refused) => {
            let RefusedMount { fault, flash: left } = refused;
            let _left = left;
            Err(Unwritten::Unarchived(Unarchived::Unmounted(fault)))
        }
    }
}

/// Writes the archive of the tree of a view.
fn write_view<F: Flash, W: Write>(
    alloc: Global,
    fs: &mut Fs<'_, F>,
    view: &View,
    out: &mut W,
) -> Result<(), Unwritten>
    ensures same { IsUnchanged fs.old fs.new }
    ensures ok { OnOk result ((bytes : List ℕ) × IsArchiveOf (shown fs.old) view.now bytes × Appends (W.contents out.old) (W.contents out.new) bytes) }
    ensures err { IfErr result (WriteFails (shown fs.old) view.now (F.device fs.old.flash.now) (F.device fs.new.flash.now) (W.contents out.old) (W.contents out.new)) }
{
    let items = match find_items(alloc, fs, view) {
        Ok(items) => items,
        Err(why) => return Err(Unwritten::Unarchived(why)),
    };
    match write_items(alloc, fs, view, &items, out) {
        Ok(()) => Ok(()),
        Err(why) => Err(Unwritten::Interrupted(why)),
    }
}

/// All that stands in the tree of a view, for each of which the format has room.
fn find_items<F: Flash>(
    alloc: Global,
    fs: &mut Fs<'_, F>,
    view: &View,
) -> Result<Vec<Item>, Unarchived>
    ensures same { IsUnchanged fs.old fs.new }
    ensures accepted { OnOk result (view_refusal (shown fs.old).history view.now ≡ None) }
    ensures small { OnOk result (IsSmall (view_tree (shown fs.old) view.now)) }
    ensures fits { OnOk result (list_all has_room_for (items_of (view_tree (shown fs.old) view.now)) ≡ true) }
    ensures ok { IfOk result (λ items. items.items ≡ items_of (view_tree (shown fs.old) view.now)) }
    ensures err { IfErr result (ArchiveFails (shown fs.old) view.now (F.device fs.old.flash.now) (F.device fs.new.flash.now)) }
{
    match stat_at(fs, view, &Path::root(alloc)) {
        Ok(_) => items_of_tree(alloc, fs, view),
        Err(fault) => Err(Unarchived::Refused(fault)),
    }
}

/// The same of a view that is there.
fn items_of_tree<F: Flash>(
    alloc: Global,
    fs: &mut Fs<'_, F>,
    view: &View,
) -> Result<Vec<Item>, Unarchived>
    requires { view_refusal (shown fs.old).history view.now ≡ None }
    ensures same { IsUnchanged fs.old fs.new }
    ensures small { OnOk result (IsSmall (view_tree (shown fs.old) view.now)) }
    ensures fits { OnOk result (list_all has_room_for (items_of (view_tree (shown fs.old) view.now)) ≡ true) }
    ensures ok { IfOk result (λ items. items.items ≡ items_of (view_tree (shown fs.old) view.now)) }
    ensures err { IfErr result (ArchiveFails (shown fs.old) view.now (F.device fs.old.flash.now) (F.device fs.new.flash.now)) }
{
    let root = Path::root(alloc);
    let items = match list_folder(alloc, fs, view, &root) {
        Ok(items) => items,
        Err(TellFault::TooManyLines) => return Err(Unarchived::TooMuch),
        Err(TellFault::Refused(fault)) => return Err(Unarchived::Refused(fault)),
    };
    match check_room(alloc, &items) {
        Ok(()) => Ok(items),
        Err(why) => Err(why),
    }
}
