//! What stands in a directory, to be copied out of a tree.
ghost use Rattle.std.specs.Prelude.{◌≡◌, ◌≤◌, ◌↔◌, None, IsTrue, IfOk, OnOk, IfErr};
ghost use Rattle.fs_types.specs.declared.limits.TheConstants.{MAX_NAMES};
ghost use Rattle.plain_trees.specs.Trees.{Tree};
ghost use Rattle.history_machine.specs.History.{view_refusal};
ghost use Rattle.history_machine.specs.Machine.{view_tree};
ghost use Rattle.tree_counts.specs.Sizes.{entries_of, lengths_of, size_of};
ghost use Rattle.inquiries.specs.Folders.{IsSmall, Unlisted};
ghost use Rattle.inquiries.specs.Items.{items_below, IsDirectoryOf};
ghost use Rattle.inquiries.specs.Readings.{shown, IsUnchanged, Meets};
ghost use Rattle.inquiries.specs.declared.folders.TheConstants.{MAX_TREE_BYTES};
ghost use Rattle.inquiries.specs.declared.tell_fault.TheConstants.{MAX_LINES};

use crate::items::{Item, add_items};
use crate::path_room::is_listable;
use crate::reading_calls::size_of_tree;
use crate::tell_fault::{MAX_LINES, TellFault};
use flash_model::Flash;
use fs_types::{Fault, MAX_NAMES, Path, View};
use std::alloc::Global;
use undofs::{Fs, TreeSize};

/// The most bytes that the files of a tree have of which all are read: as many as a flash has.
/// No two files that calls made share a block.
pub const MAX_TREE_BYTES: u64 = 67_108_864;

/// All that stands below a directory of a view: a directory before what stands in it, and names in byte
/// order. [`TellFault::TooManyLines`] where the whole tree has over [`MAX_LINES`] directories and files,
/// or over [`MAX_TREE_BYTES`] bytes in these, which is counted by node before it is walked, or its paths have
/// over [`MAX_PATH_BYTES`](crate::MAX_PATH_BYTES), or over [`MAX_OWNERS`](crate::MAX_OWNERS) of these are
/// directories and files with bytes. Else [`Fault::ReadFailed`], [`Fault::PowerCut`] and
/// [`Fault::NoMemory`] may come.
pub fn list_folder<F: Flash>(
    alloc: Global,
    fs: &mut Fs<'_, F>,
    view: &View,
    directory: &Path,
) -> Result<Vec<Item>, TellFault>
    requires { IsDirectoryOf (shown fs.old) view.now directory.now }
    ensures same { IsUnchanged fs.old fs.new }
    ensures small { OnOk result (IsSmall (view_tree (shown fs.old) view.now)) }
    ensures ok { IfOk result (λ items. items.items ≡ items_below (view_tree (shown fs.old) view.now) MAX_NAMES directory.now) }
    ensures err { IfErr result (Unlisted (view_tree (shown fs.old) view.now) fs.old fs.new) }
{
    check_small(alloc, fs, view)?;
    Ok(list_below(alloc, fs, view, directory, MAX_NAMES)?)
}

/// Looks whether the tree of a view is small enough that something is copied out of it.
pub(crate) fn check_small<F: Flash>(
    alloc: Global,
    fs: &mut Fs<'_, F>,
    view: &View,
) -> Result<(), TellFault>
    requires { view_refusal (shown fs.old).history view.now ≡ None }
    ensures same { IsUnchanged fs.old fs.new }
    ensures small { OnOk result (IsSmall (view_tree (shown fs.old) view.now)) }
    ensures err { IfErr result (Unlisted (view_tree (shown fs.old) view.now) fs.old fs.new) }
{
    let small = has_small_tree(alloc, fs, view)?;
    if !small {
        return Err(TellFault::TooManyLines);
    }
    Ok(())
}

/// Whether the tree of a view is small enough that all of it is read. [`Fault::ReadFailed`],
/// [`Fault::PowerCut`] and [`Fault::NoMemory`] may come.
pub(crate) fn has_small_tree<F: Flash>(
    alloc: Global,
    fs: &mut Fs<'_, F>,
    view: &View,
) -> Result<bool, Fault>
    requires { view_refusal (shown fs.old).history view.now ≡ None }
    ensures same { IsUnchanged fs.old fs.new }
    ensures ok { IfOk result (λ small. IsTrue small ↔ IsSmall (view_tree (shown fs.old) view.now)) }
    ensures err { IfErr result (Meets (F.device fs.old.flash.now) (F.device fs.new.flash.now)) }
{
    let size = size_of_tree(alloc, fs, view)?;
    is_small(alloc, fs, view, size)
}

/// The same, where the tree has this size.
pub(crate) fn is_small<F: Flash>(
    alloc: Global,
    fs: &mut Fs<'_, F>,
    view: &View,
    size: TreeSize,
) -> Result<bool, Fault>
    requires view { view_refusal (shown fs.old).history view.now ≡ None }
    requires size { size ≡ size_of (view_tree (shown fs.old) view.now) }
    ensures same { IsUnchanged fs.old fs.new }
    ensures ok { IfOk result (λ small. IsTrue small ↔ IsSmall (view_tree (shown fs.old) view.now)) }
    ensures err { IfErr result (Meets (F.device fs.old.flash.now) (F.device fs.new.flash.now)) }
{
    if !has_few(size) {
        return Ok(false);
    }
    is_listable(alloc, fs, view, size)
}

/// Whether a tree has few enough directories and files, and bytes in these, that all of it is read.
fn has_few(size: TreeSize) -> bool
    ensures { (t : Tree) → size ≡ size_of t → IsTrue result ↔ ((entries_of t ≤ MAX_LINES) × (lengths_of t ≤ MAX_TREE_BYTES)) }
{
    match (size.entries, size.bytes) {
        (Some(entries), Some(bytes)) => entries <= MAX_LINES && bytes <= MAX_TREE_BYTES,
        _ => false,
    }
}

/// What stands below a directory of a view, in so many levels, however much that is.
/// [`Fault::ReadFailed`], [`Fault::PowerCut`] and [`Fault::NoMemory`] may come.
pub fn list_below<F: Flash>(
    alloc: Global,
    fs: &mut Fs<'_, F>,
    view: &View,
    directory: &Path,
    levels: usize,
) -> Result<Vec<Item>, Fault>
    requires { IsDirectoryOf (shown fs.old) view.now directory.now }
    ensures same { IsUnchanged fs.old fs.new }
    ensures ok { IfOk result (λ items. items.items ≡ items_below (view_tree (shown fs.old) view.now) levels directory.now) }
    ensures err { IfErr result (Meets (F.device fs.old.flash.now) (F.device fs.new.flash.now)) }
{
    let mut items = Vec::new(alloc);
    add_items(alloc, fs, view, directory, levels, &mut items)?;
    Ok(items)
}
