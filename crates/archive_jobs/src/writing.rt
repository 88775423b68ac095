//! What stands in a tree, written as the entries of an archive.
ghost use Rattle.std.specs.Prelude.{◌≡◌, None, All, map, IfErr, OnOk};
ghost use Rattle.std.specs.Io.KnownBytes.{Appends};
ghost use Rattle.history_machine.specs.History.{view_refusal};
ghost use Rattle.history_machine.specs.Machine.{view_tree};
ghost use Rattle.inquiries.specs.Items.{IsItemOf};
ghost use Rattle.inquiries.specs.Readings.{shown, IsUnchanged};
ghost use Rattle.archives.specs.Archives.{archive_of, entry_text};
ghost use Rattle.archive_jobs.specs.Entries.{entry_of};
ghost use Rattle.archive_jobs.specs.Interruptions.{EntryStops, Interrupts};

use crate::entries::entry_of;
use crate::interruption::Interruption;
use archives::{EntryFault, write_end, write_entry};
use flash_model::Flash;
use fs_types::{Fault, View};
use inquiries::Item;
use std::alloc::Global;
use std::io::Write;
use undofs::Fs;

/// Writes the archive of what stands at paths of a view, in order. Each file is read when it is its turn,
/// and let go when it is written.
pub(crate) fn write_items<F: Flash, W: Write>(
    alloc: Global,
    fs: &mut Fs<'_, F>,
    view: &View,
    items: &[Item],
    out: &mut W,
) -> Result<(), Interruption>
    requires view { view_refusal (shown fs.old).history view.now ≡ None }
    requires there { All (IsItemOf (view_tree (shown fs.old) view.now)) items.now }
    ensures same { IsUnchanged fs.old fs.new }
    ensures ok { OnOk result (Appends (W.contents out.old) (W.contents out.new) (archive_of (map (entry_of (view_tree (shown fs.old) view.now)) items.now))) }
    ensures err { IfErr result (Interrupts (map (entry_of (view_tree (shown fs.old) view.now)) items.now)
        (F.device fs.old.flash.now) (F.device fs.new.flash.now) (W.contents out.old) (W.contents out.new)) }
{
    for item in items {
        match write_item(alloc, fs, view, item, out) {
            Ok(()) => {}
            Err(why) => return Err(why),
        }
    }
    match write_end(out) {
        Ok(()) => Ok(()),
        Err(_) => Err(Interruption::Output),
    }
}

/// Writes what stands at a path of a view.
fn write_item<F: Flash, W: Write>(
    alloc: Global,
    fs: &mut Fs<'_, F>,
    view: &View,
    item: &Item,
    out: &mut W,
) -> Result<(), Interruption>
    requires view { view_refusal (shown fs.old).history view.now ≡ None }
    requires there { IsItemOf (view_tree (shown fs.old) view.now) item.now }
    ensures same { IsUnchanged fs.old fs.new }
    ensures ok { OnOk result (Appends (W.contents out.old) (W.contents out.new) (entry_text (entry_of (view_tree (shown fs.old) view.now) item.now))) }
    ensures err { IfErr result (EntryStops (entry_of (view_tree (shown fs.old) view.now) item.now)
        (F.device fs.old.flash.now) (F.device fs.new.flash.now) (W.contents out.old) (W.contents out.new)) }
{
    let entry = match entry_of(alloc, fs, view, item) {
        Ok(entry) => entry,
        Err(fault) => return Err(Interruption::Met(fault)),
    };
    match write_entry(alloc, out, &entry) {
        Ok(()) => Ok(()),
        Err(EntryFault::Output) => Err(Interruption::Output),
        Err(EntryFault::Unspelled(_)) => Err(Interruption::Met(Fault::NoMemory)),
    }
}
