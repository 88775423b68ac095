//! What is asked, and what is told.
ghost use Rattle.std.specs.Prelude.{◌≡◌, ◌≤◌, ◌↔◌, false, None, length, IsTrue, IfOk, IfErr};
ghost use Rattle.plain_trees.specs.Trees.{Tree};
ghost use Rattle.history_machine.specs.History.{view_refusal};
ghost use Rattle.history_machine.specs.Machine.{view_tree};
ghost use Rattle.tree_counts.specs.Sizes.{size_of};
ghost use Rattle.inquiries.specs.Inquiries.{inquiry_refusal, is_of_versions, IsTold, HasFewLines, Untold};
ghost use Rattle.inquiries.specs.Items.{items_of};
ghost use Rattle.inquiries.specs.Printed.{tree_lines};
ghost use Rattle.inquiries.specs.declared.tell_fault.TheConstants.{MAX_LINES};
ghost use Rattle.inquiries.specs.Readings.{shown, IsUnchanged, Fails};
ghost use Rattle.undofs.specs.Systems.{flash_name};

use crate::differences::tell_differences;
use crate::items::{Item, items_of};
use crate::listed::tell_entries;
use crate::path_history::tell_path_history;
use crate::path_room::is_listable;
use crate::printing::lines_of;
use crate::reading_calls::{read_file, size_of_tree};
use crate::tell_fault::{MAX_LINES, TellFault};
use flash_model::Flash;
use fs_types::{Bytes, Fault, Path, View};
use std::alloc::Global;
use undofs::{Fs, TreeSize};

/// What is asked of a file system.
#[derive(Debug, Drop)]
pub enum Inquiry {
    /// The bytes of the file at a path of a view.
    File {
        /// The view.
        view: View,
        /// The path of the file.
        path: Path,
    },
    /// A line for each directory and each file of a view.
    Tree {
        /// The view.
        view: View,
    },
    /// A line for each entry of the directory at a path of a view, or for the file there.
    List {
        /// The view.
        view: View,
        /// The path of the directory or the file.
        path: Path,
    },
    /// What stands at a path in the first kept version, in each in which that is other than in the version
    /// before, and in each checkpoint.
    History {
        /// The path.
        path: Path,
    },
    /// What differs between the trees of two views: what went, what changed and what came.
    Differences {
        /// The view of what was.
        old: View,
        /// The view of what is.
        new: View,
    },
    /// A line for each kept version and each checkpoint, with how much its tree holds, and what it keeps
    /// of the flash.
    Versions,
}

/// Tells what is asked of trees of a file system, which is only read.
pub(crate) fn tell<F: Flash>(
    alloc: Global,
    fs: &mut Fs<'_, F>,
    inquiry: &Inquiry,
) -> Result<Bytes, TellFault>
    requires { is_of_versions inquiry.now ≡ false }
    ensures same { IsUnchanged fs.old fs.new }
    ensures same_flash { flash_name fs.new ≡ flash_name fs.old }
    ensures accepted { IfOk result (λ _. inquiry_refusal (shown fs.old) inquiry.now ≡ None) }
    ensures few { IfOk result (λ _. HasFewLines (shown fs.old) inquiry.now) }
    ensures ok { IfOk result (IsTold (F.device fs.old.flash.now) fs.old.system.state inquiry.now) }
    ensures err { IfErr result (Untold inquiry.now fs.old fs.new) }
{
    match inquiry {
        Inquiry::File { view, path } => Ok(read_file(alloc, fs, view, path)?),
        Inquiry::Tree { view } => tell_tree(alloc, fs, view),
        Inquiry::List { view, path } => Ok(tell_entries(alloc, fs, view, path)?),
        Inquiry::History { path } => tell_path_history(alloc, fs, path),
        Inquiry::Differences { old, new } => tell_differences(alloc, fs, old, new),
        Inquiry::Versions => unreachable!(),
    }
}

/// Whether this is asked of all that is kept, and of no view.
pub(crate) fn is_of_versions(inquiry: &Inquiry) -> bool
    ensures { result ≡ is_of_versions inquiry.now }
{
    matches!(inquiry, Inquiry::Versions)
}

/// The lines of a view's tree, where these are not too many.
fn tell_tree<F: Flash>(alloc: Global, fs: &mut Fs<'_, F>, view: &View) -> Result<Bytes, TellFault>
    ensures same { IsUnchanged fs.old fs.new }
    ensures accepted { IfOk result (λ _. inquiry_refusal (shown fs.old) (Inquiry.Tree view.now) ≡ None) }
    ensures few { IfOk result (λ _. HasFewLines (shown fs.old) (Inquiry.Tree view.now)) }
    ensures ok { IfOk result (IsTold (F.device fs.old.flash.now) fs.old.system.state (Inquiry.Tree view.now)) }
    ensures err { IfErr result (Untold (Inquiry.Tree view.now) fs.old fs.new) }
{
    let items = few_items(alloc, fs, view)?;
    Ok(Bytes::from_vec(lines_of(alloc, &items)?))
}

/// All that stands in a view's tree, where that is not too much to be told.
pub(crate) fn few_items<F: Flash>(
    alloc: Global,
    fs: &mut Fs<'_, F>,
    view: &View,
) -> Result<Vec<Item>, TellFault>
    ensures same { IsUnchanged fs.old fs.new }
    ensures accepted { IfOk result (λ _. inquiry_refusal (shown fs.old) (Inquiry.Tree view.now) ≡ None) }
    ensures few { IfOk result (λ _. HasFewLines (shown fs.old) (Inquiry.Tree view.now)) }
    ensures ok { IfOk result (λ items. items.items ≡ items_of (view_tree (shown fs.old) view.now)) }
    ensures err { IfErr result (Untold (Inquiry.Tree view.now) fs.old fs.new) }
{
    let size = size_of_tree(alloc, fs, view)?;
    if !is_few(size) {
        return Err(TellFault::TooManyLines);
    }
    let listable = is_listable(alloc, fs, view, size)?;
    if !listable {
        return Err(TellFault::TooManyLines);
    }
    Ok(items_of(alloc, fs, view)?)
}

/// Whether a tree has no more lines than may be told.
fn is_few(size: TreeSize) -> bool
    ensures { (t : Tree) → size ≡ size_of t → IsTrue result ↔ (length (items_of t) ≤ MAX_LINES) }
{
    match size.entries {
        Some(entries) => entries <= MAX_LINES,
        None => false,
    }
}
