//! What stands in a tree, as an entry of an archive.
ghost use Rattle.std.specs.Prelude.{◌≡◌, None, IfOk, IfErr};
ghost use Rattle.history_machine.specs.History.{view_refusal};
ghost use Rattle.history_machine.specs.Machine.{view_tree};
ghost use Rattle.inquiries.specs.Items.{IsItemOf};
ghost use Rattle.inquiries.specs.Readings.{shown, IsUnchanged, Meets};
ghost use Rattle.archive_jobs.specs.Entries.{entry_of};

use archives::{ArchiveEntry, Contents};
use flash_model::Flash;
use fs_types::{Fault, Stat, View};
use inquiries::{Item, read_item};
use std::alloc::Global;
use undofs::Fs;

/// What stands at a path of a view, a file with its bytes. An empty file is not looked up.
pub(crate) fn entry_of<F: Flash>(
    alloc: Global,
    fs: &mut Fs<'_, F>,
    view: &View,
    item: &Item,
) -> Result<ArchiveEntry, Fault>
    requires view { view_refusal (shown fs.old).history view.now ≡ None }
    requires there { IsItemOf (view_tree (shown fs.old) view.now) item.now }
    ensures same { IsUnchanged fs.old fs.new }
    ensures ok { IfOk result (λ entry. entry ≡ entry_of (view_tree (shown fs.old) view.now) item.now) }
    ensures err { IfErr result (Meets (F.device fs.old.flash.now) (F.device fs.new.flash.now)) }
{
    let Ok(path) = item.path.clone() else {
        return Err(Fault::NoMemory);
    };
    match item.stat {
        Stat::Dir(_) => Ok(ArchiveEntry {
            path,
            contents: Contents::Folder,
        }),
        Stat::File(_) => match read_item(alloc, fs, view, item) {
            Ok(bytes) => Ok(ArchiveEntry {
                path,
                contents: Contents::File(bytes),
            }),
            Err(fault) => Err(fault),
        },
    }
}
