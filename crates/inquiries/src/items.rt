//! All that stands in a tree.
ghost use Rattle.std.specs.Prelude.{◌≡◌, ◌++◌, [], ◌∷◌, ◌<◌, true, None, IfOk, OnOk, IfErr};
ghost use Rattle.fs_types.specs.Names.{is_path};
ghost use Rattle.history_machine.specs.History.{view_refusal};
ghost use Rattle.history_machine.specs.Machine.{view_tree};
ghost use Rattle.inquiries.specs.Items.{items_below, items_of, levels_below, IsDirectoryOf};
ghost use Rattle.inquiries.specs.Owners.{owns_block};
ghost use Rattle.inquiries.specs.Readings.{shown, IsUnchanged, Fails, Meets};

use crate::reading_calls::{check_view, entries_at};
use flash_model::Flash;
use fs_types::{Fault, MAX_NAMES, Name, Path, Stat, View};
use std::alloc::{AllocError, Global};
use undofs::Fs;

/// What stands at a path of a tree.
#[derive(Debug, Drop)]
pub struct Item {
    /// The path.
    pub path: Path,
    /// A directory, with its number of entries, or a file, with its length in bytes.
    pub stat: Stat,
}

/// All that stands in the tree of a view below its root: a directory before what stands in it, and
/// names in byte order.
pub(crate) fn items_of<F: Flash>(
    alloc: Global,
    fs: &mut Fs<'_, F>,
    view: &View,
) -> Result<Vec<Item>, Fault>
    ensures same { IsUnchanged fs.old fs.new }
    ensures accepted { IfOk result (λ _. view_refusal (shown fs.old).history view.now ≡ None) }
    ensures ok { IfOk result (λ items. items.items ≡ items_of (view_tree (shown fs.old) view.now)) }
    ensures err { IfErr result (Fails (view_refusal (shown fs.old).history view.now) fs.old fs.new) }
{
    check_view(alloc, fs, view)?;
    let root = Path::root(alloc);
    let mut items = Vec::new(alloc);
    add_items(alloc, fs, view, &root, MAX_NAMES, &mut items)?;
    Ok(items)
}

/// Adds what stands below a directory, in so many levels.
pub(crate) fn add_items<F: Flash>(
    alloc: Global,
    fs: &mut Fs<'_, F>,
    view: &View,
    directory: &Path,
    levels: usize,
    items: &mut Vec<Item>,
) -> Result<(), Fault>
    requires { 0 < levels → IsDirectoryOf (shown fs.old) view.now directory.now }
    ensures same { IsUnchanged fs.old fs.new }
    ensures ok { OnOk result (items.new.items ≡ items.old.items ++ items_below (view_tree (shown fs.old) view.now) levels directory.now) }
    ensures err { IfErr result (Meets (F.device fs.old.flash.now) (F.device fs.new.flash.now)) }
{
    if levels == 0 {
        return Ok(());
    }
    let entries = entries_at(alloc, fs, view, directory)?;
    for (name, stat) in entries.as_slice() {
        let path = child_of(alloc, directory, name)?;
        items.push(Item {
            path: path.clone()?,
            stat: *stat,
        })?;
        let below = levels_below(*stat, levels);
        add_items(alloc, fs, view, &path, below, items)?;
    }
    Ok(())
}

/// How many levels stand below what stands in a directory of so many: nothing stands below a file.
pub(crate) fn levels_below(stat: Stat, levels: usize) -> usize
    requires { 0 < levels }
    ensures { result ≡ levels_below stat levels }
{
    match stat {
        Stat::Dir(_) => levels - 1,
        Stat::File(_) => 0,
    }
}

/// Whether what stands at a path has a block of its own in a tree that calls made: a directory, and a file
/// with bytes.
pub(crate) fn owns_block(stat: Stat) -> bool
    ensures { result ≡ owns_block stat }
{
    match stat {
        Stat::Dir(_) => true,
        Stat::File(bytes) => bytes != 0,
    }
}

/// The path of an entry of a directory.
pub(crate) fn child_of(alloc: Global, directory: &Path, name: &Name) -> Result<Path, AllocError>
    requires { is_path (directory.now ++ name.now ∷ []) ≡ true }
    ensures { IfOk result (λ path. path ≡ directory.now ++ name.now ∷ []) }
{
    let mut names = Vec::new(alloc);
    append_names(&mut names, directory.names())?;
    names.push(name.clone()?)?;
    Ok(Path::from_names(names))
}

fn append_names(names: &mut Vec<Name>, more: &[Name]) -> Result<(), AllocError>
    ensures { OnOk result (names.new.items ≡ names.old.items ++ more.now) }
{
    for name in more {
        names.push(name.clone()?)?;
    }
    Ok(())
}
