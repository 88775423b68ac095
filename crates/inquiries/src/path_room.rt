//! How many bytes the paths of a tree have, which are kept before a line of it is told, and how many of them
//! lead to what has a block of its own, which is looked up.
ghost use Rattle.std.specs.Prelude.{◌≡◌, ◌<◌, ◌≤◌, ◌↔◌, None, length, sum_by, IsTrue, IfOk, IfErr};
ghost use Rattle.plain_trees.specs.Trees.{Tree};
ghost use Rattle.history_machine.specs.History.{view_refusal};
ghost use Rattle.history_machine.specs.Machine.{view_tree};
ghost use Rattle.tree_counts.specs.Sizes.{size_of};
ghost use Rattle.inquiries.specs.Items.{items_below, items_of, IsDirectoryOf};
ghost use Rattle.inquiries.specs.Listable.{IsLeft, IsListable, IsRoomLeft};
ghost use Rattle.inquiries.specs.Owners.{item_owners, stat_owners};
ghost use Rattle.inquiries.specs.PathBytes.{path_bytes, item_bytes};
ghost use Rattle.inquiries.specs.Readings.{shown, IsUnchanged, Meets};
ghost use Rattle.inquiries.specs.declared.path_room.TheConstants.{SURE_ENTRIES};

use crate::items::{child_of, levels_below, owns_block};
use crate::reading_calls::entries_at;
use crate::tell_fault::{MAX_OWNERS, MAX_PATH_BYTES};
use flash_model::Flash;
use fs_types::{Fault, MAX_NAMES, Name, Path, Stat, View};
use std::alloc::Global;
use undofs::{Fs, TreeSize};

/// Of so many entries no more than [`MAX_OWNERS`] have a block of their own, and the paths have no more than
/// [`MAX_PATH_BYTES`], as each has 1,040 at most: 16 names of 64 bytes, and as many slashes.
const SURE_ENTRIES: u64 = 16_384;

/// How much a tree may have yet.
#[derive(Clone, Copy, Debug)]
pub(crate) struct Room {
    /// Bytes of paths.
    pub(crate) bytes: u64,
    /// Directories and files with bytes.
    pub(crate) owners: u64,
}

/// Whether the paths of all that stands in the tree of a view, which has this size, have no more than
/// [`MAX_PATH_BYTES`] together, and no more than [`MAX_OWNERS`] of these are directories and files with bytes.
/// The directories of a tree with few entries are not read for that, and of another one no more than may be.
/// [`Fault::ReadFailed`], [`Fault::PowerCut`] and [`Fault::NoMemory`] may come.
pub(crate) fn is_listable<F: Flash>(
    alloc: Global,
    fs: &mut Fs<'_, F>,
    view: &View,
    size: TreeSize,
) -> Result<bool, Fault>
    requires view { view_refusal (shown fs.old).history view.now ≡ None }
    requires size { size ≡ size_of (view_tree (shown fs.old) view.now) }
    ensures same { IsUnchanged fs.old fs.new }
    ensures ok { IfOk result (λ listable. IsTrue listable ↔ IsListable (view_tree (shown fs.old) view.now)) }
    ensures err { IfErr result (Meets (F.device fs.old.flash.now) (F.device fs.new.flash.now)) }
{
    if is_sure(size) {
        return Ok(true);
    }
    let root = Path::root(alloc);
    let room = Room {
        bytes: MAX_PATH_BYTES,
        owners: MAX_OWNERS,
    };
    let left = room_below(alloc, fs, view, &root, MAX_NAMES, room)?;
    Ok(left.is_some())
}

/// Whether a tree has so few entries that it is listable whatever they are.
fn is_sure(size: TreeSize) -> bool
    ensures { (t : Tree) → size ≡ size_of t → IsTrue result → length (items_of t) ≤ SURE_ENTRIES }
{
    match size.entries {
        Some(entries) => entries <= SURE_ENTRIES,
        None => false,
    }
}

/// How much of `room` is left by what stands below a directory, in so many levels; none where that is more.
fn room_below<F: Flash>(
    alloc: Global,
    fs: &mut Fs<'_, F>,
    view: &View,
    directory: &Path,
    levels: usize,
    room: Room,
) -> Result<Option<Room>, Fault>
    requires { 0 < levels → IsDirectoryOf (shown fs.old) view.now directory.now }
    ensures same { IsUnchanged fs.old fs.new }
    ensures ok { IfOk result (IsRoomLeft room (sum_by item_bytes (items_below (view_tree (shown fs.old) view.now) levels directory.now)) (sum_by item_owners (items_below (view_tree (shown fs.old) view.now) levels directory.now))) }
    ensures err { IfErr result (Meets (F.device fs.old.flash.now) (F.device fs.new.flash.now)) }
{
    if levels == 0 {
        return Ok(Some(room));
    }
    let entries = entries_at(alloc, fs, view, directory)?;
    let mut left = room;
    for (name, stat) in entries.as_slice() {
        let path = child_of(alloc, directory, name)?;
        let Some(beside) = room_beside(path.names(), *stat, left) else {
            return Ok(None);
        };
        let below = levels_below(*stat, levels);
        let rest = room_below(alloc, fs, view, &path, below, beside)?;
        let Some(rest) = rest else {
            return Ok(None);
        };
        left = rest;
    }
    Ok(Some(left))
}

/// How much of `room` is left by what stands at a path of these names; none where that is more.
fn room_beside(names: &[Name], stat: Stat, room: Room) -> Option<Room>
    ensures { IsRoomLeft room (path_bytes names.now) (stat_owners stat) result }
{
    let Some(bytes) = bytes_after(names, room.bytes) else {
        return None;
    };
    let Some(owners) = owners_after(stat, room.owners) else {
        return None;
    };
    Some(Room { bytes, owners })
}

/// How many of so many bytes a path of these names leaves, with a `/` before each; none where it has more.
fn bytes_after(names: &[Name], bytes: u64) -> Option<u64>
    ensures { IsLeft bytes (path_bytes names.now) result }
{
    let mut left = bytes;
    for name in names {
        let bytes = name.as_bytes().len() as u64;
        if left <= bytes {
            return None;
        }
        left -= bytes + 1;
    }
    Some(left)
}

/// How many more may have a block of their own beside what stands at a path; none where it is one too many.
fn owners_after(stat: Stat, owners: u64) -> Option<u64>
    ensures { IsLeft owners (stat_owners stat) result }
{
    if !owns_block(stat) {
        return Some(owners);
    }
    if owners == 0 {
        return None;
    }
    Some(owners - 1)
}
