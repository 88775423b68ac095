//! Calls that only read a mounted file system.
ghost use Rattle.std.specs.Prelude.{◌≡◌, true, Some, None, IfOk, OnOk, IfErr};
ghost use Rattle.std.specs.Option.{option_or};
ghost use Rattle.std.specs.FinMap.{get};
ghost use Rattle.plain_trees.specs.Contents.{Entry};
ghost use Rattle.history_machine.specs.History.{view_refusal};
ghost use Rattle.history_machine.specs.Machine.{refusal, view_tree, stat_of};
ghost use Rattle.fs_types.specs.declared.call.Call.{Call};
ghost use Rattle.tree_counts.specs.Sizes.{size_of};
ghost use Rattle.inquiries.specs.Items.{all_entries, IsFileOf, IsItemOf};
ghost use Rattle.inquiries.specs.Readings.{shown, IsUnchanged, Fails, Meets};
ghost use Rattle.inquiries.specs.Versions.{kept_serials, kept_names};

use crate::items::{Item, owns_block};
use flash_model::Flash;
use fs_types::{Bytes, Fault, MAX_FILE_BYTES, Name, Path, Sequence, Stat, View};
use std::alloc::Global;
use undofs::{Fs, Log, TreeSize};

/// So many bytes are asked for where all bytes of a file are: none has more.
const ALL_BYTES: u64 = MAX_FILE_BYTES as u64;

/// What stands at a path of a view. Refused as the call is.
pub fn stat_at<F: Flash>(fs: &mut Fs<'_, F>, view: &View, path: &Path) -> Result<Stat, Fault>
    ensures same { IsUnchanged fs.old fs.new }
    ensures accepted { IfOk result (λ _. refusal (shown fs.old) (Call.Stat view.now path.now) ≡ None) }
    ensures ok { IfOk result (λ stat. stat ≡ stat_of (view_tree (shown fs.old) view.now) path.now (get (view_tree (shown fs.old) view.now) path.now)) }
    ensures err { IfErr result (Fails (refusal (shown fs.old) (Call.Stat view.now path.now)) fs.old fs.new) }
{
    fs.stat(view, path)
}

/// The entries of a directory of a view, in byte order of their names, each with what stands there.
pub(crate) fn entries_at<F: Flash>(
    alloc: Global,
    fs: &mut Fs<'_, F>,
    view: &View,
    path: &Path,
) -> Result<Sequence<(Name, Stat)>, Fault>
    ensures same { IsUnchanged fs.old fs.new }
    ensures ok { IfOk result (λ entries. entries ≡ all_entries (view_tree (shown fs.old) view.now) path.now) }
    ensures err { IfErr result (Fails (refusal (shown fs.old) (Call.List view.now path.now)) fs.old fs.new) }
{
    fs.entries(alloc, view, path, None, u64::MAX)
}

/// Looks whether a view is there.
pub(crate) fn check_view<F: Flash>(
    alloc: Global,
    fs: &mut Fs<'_, F>,
    view: &View,
) -> Result<(), Fault>
    ensures same { IsUnchanged fs.old fs.new }
    ensures accepted { OnOk result (view_refusal (shown fs.old).history view.now ≡ None) }
    ensures err { IfErr result (Fails (view_refusal (shown fs.old).history view.now) fs.old fs.new) }
{
    stat_at(fs, view, &Path::root(alloc))?;
    Ok(())
}

/// How much stands in the tree of a view.
pub(crate) fn size_of_tree<F: Flash>(
    alloc: Global,
    fs: &mut Fs<'_, F>,
    view: &View,
) -> Result<TreeSize, Fault>
    ensures same { IsUnchanged fs.old fs.new }
    ensures accepted { IfOk result (λ _. view_refusal (shown fs.old).history view.now ≡ None) }
    ensures size { IfOk result (λ size. size ≡ size_of (view_tree (shown fs.old) view.now)) }
    ensures err { IfErr result (Fails (view_refusal (shown fs.old).history view.now) fs.old fs.new) }
{
    fs.count_tree(alloc, view)
}

/// Whether two views show the same root, so that their trees are the same. Nothing is read.
pub(crate) fn show_same<F: Flash>(fs: &Fs<'_, F>, view: &View, other: &View) -> Result<bool, Fault>
    ensures accepted { IfOk result (λ _. option_or (view_refusal (shown fs.now).history view.now) (view_refusal (shown fs.now).history other.now) ≡ None) }
    ensures same { IfOk result (λ same. same ≡ true → view_tree (shown fs.now) view.now ≡ view_tree (shown fs.now) other.now) }
    ensures err { IfErr result (Fails (option_or (view_refusal (shown fs.now).history view.now) (view_refusal (shown fs.now).history other.now)) fs.now fs.now) }
{
    fs.show_same_root(view, other)
}

/// The trees that are kept.
pub(crate) fn kept_trees<F: Flash>(alloc: Global, fs: &Fs<'_, F>) -> Result<Log, Fault>
    ensures serials { IfOk result (λ kept. kept.versions ≡ kept_serials (shown fs.now)) }
    ensures cursor { IfOk result (λ kept. kept.cursor ≡ (shown fs.now).history.cursor) }
    ensures checkpoints { IfOk result (λ kept. kept.checkpoints ≡ kept_names (shown fs.now)) }
    ensures err { IfErr result (Meets (F.device fs.now.flash.now) (F.device fs.now.flash.now)) }
{
    fs.log(alloc)
}

/// All bytes of a file of a view. Refused as the call is that reads it.
pub fn read_file<F: Flash>(
    alloc: Global,
    fs: &mut Fs<'_, F>,
    view: &View,
    path: &Path,
) -> Result<Bytes, Fault>
    ensures same { IsUnchanged fs.old fs.new }
    ensures accepted { IfOk result (λ _. refusal (shown fs.old) (Call.ReadAt view.now path.now 0 MAX_FILE_BYTES) ≡ None) }
    ensures ok { IfOk result (λ bytes. get (view_tree (shown fs.old) view.now) path.now ≡ Some (Entry.File bytes)) }
    ensures err { IfErr result (Fails (refusal (shown fs.old) (Call.ReadAt view.now path.now 0 MAX_FILE_BYTES)) fs.old fs.new) }
{
    fs.read_at(alloc, view, path, 0, ALL_BYTES)
}

/// All bytes of a file that was listed in the tree of a view. An empty one is not looked up.
/// [`Fault::ReadFailed`], [`Fault::PowerCut`] and [`Fault::NoMemory`] may come.
pub fn read_item<F: Flash>(
    alloc: Global,
    fs: &mut Fs<'_, F>,
    view: &View,
    item: &Item,
) -> Result<Bytes, Fault>
    requires there { IsItemOf (view_tree (shown fs.old) view.now) item.now }
    requires file { IsFileOf (shown fs.old) view.now item.now.path }
    ensures same { IsUnchanged fs.old fs.new }
    ensures ok { IfOk result (λ bytes. get (view_tree (shown fs.old) view.now) item.now.path ≡ Some (Entry.File bytes)) }
    ensures err { IfErr result (Meets (F.device fs.old.flash.now) (F.device fs.new.flash.now)) }
{
    if !owns_block(item.stat) {
        return Ok(Bytes::from_vec(Vec::new(alloc)));
    }
    read_file(alloc, fs, view, &item.path)
}
