//! What stands in a tree where another one may have something else.
ghost use Rattle.std.specs.Prelude.{◌≡◌, ◌<◌, None, IsSome, All, length, get_or, map, IfOk, OnOk, IfErr};
ghost use Rattle.std.specs.FinMap.{get};
ghost use Rattle.history_machine.specs.History.{view_refusal};
ghost use Rattle.history_machine.specs.Machine.{stat_of, view_tree};
ghost use Rattle.inquiries.specs.Folders.{IsSmall, Unlisted};
ghost use Rattle.inquiries.specs.Items.{item_at, IsItemOf};
ghost use Rattle.inquiries.specs.Pruned.{AreElsewhere, IsElsewhere, IsPruned};
ghost use Rattle.inquiries.specs.Readings.{shown, IsUnchanged, Meets};
ghost use Rattle.inquiries.specs.declared.items.Item.{Item};

use crate::folders::check_small;
use crate::items::{Item, items_of};
use crate::reading_calls::stat_at;
use crate::tell_fault::TellFault;
use flash_model::Flash;
use fs_types::{Fault, Path, Sequence, Stat, View};
use std::alloc::Global;
use undofs::Fs;

/// So many paths are looked up one by one. For more of them all that stands in the tree is listed.
const FEW_PATHS: usize = 1_024;

/// What stands in the tree of a view, without that which another view has in the same blocks: a directory
/// before what stands in it, and names in byte order. What is left out has the same bytes in both trees; no
/// directory of both is in it. [`TellFault::TooManyLines`] where the whole tree has too much, as
/// [`list_folder`](crate::list_folder) has it. Else [`Fault::ReadFailed`], [`Fault::PowerCut`] and
/// [`Fault::NoMemory`] may come.
pub fn list_differing<F: Flash>(
    alloc: Global,
    fs: &mut Fs<'_, F>,
    view: &View,
    other: &View,
) -> Result<Vec<Item>, TellFault>
    requires view { view_refusal (shown fs.old).history view.now ≡ None }
    requires other { view_refusal (shown fs.old).history other.now ≡ None }
    ensures same { IsUnchanged fs.old fs.new }
    ensures small { OnOk result (IsSmall (view_tree (shown fs.old) view.now)) }
    ensures ok { IfOk result (λ items. IsPruned (view_tree (shown fs.old) view.now) (view_tree (shown fs.old) other.now) items.items) }
    ensures err { IfErr result (Unlisted (view_tree (shown fs.old) view.now) fs.old fs.new) }
{
    check_small(alloc, fs, view)?;
    Ok(differing_items(alloc, fs, view, other)?)
}

/// The same, of trees of any size.
pub(crate) fn differing_items<F: Flash>(
    alloc: Global,
    fs: &mut Fs<'_, F>,
    view: &View,
    other: &View,
) -> Result<Vec<Item>, Fault>
    requires view { view_refusal (shown fs.old).history view.now ≡ None }
    requires other { view_refusal (shown fs.old).history other.now ≡ None }
    ensures same { IsUnchanged fs.old fs.new }
    ensures elsewhere { IfOk result (λ items. IsElsewhere (F.device fs.old.flash.now) fs.old.system.state view.now other.now items.items) }
    ensures pruned { IfOk result (λ items. IsPruned (view_tree (shown fs.old) view.now) (view_tree (shown fs.old) other.now) items.items) }
    ensures err { IfErr result (Meets (F.device fs.old.flash.now) (F.device fs.new.flash.now)) }
{
    let paths = paths_elsewhere(alloc, fs, view, other)?;
    items_at(alloc, fs, view, paths.as_slice())
}

/// The paths of the tree of a view at which its root leads elsewhere than that of another view.
fn paths_elsewhere<F: Flash>(
    alloc: Global,
    fs: &mut Fs<'_, F>,
    view: &View,
    other: &View,
) -> Result<Sequence<Path>, Fault>
    requires view { view_refusal (shown fs.old).history view.now ≡ None }
    requires other { view_refusal (shown fs.old).history other.now ≡ None }
    ensures same { IsUnchanged fs.old fs.new }
    ensures ok { IfOk result (AreElsewhere (F.device fs.old.flash.now) fs.old.system.state view.now other.now) }
    ensures err { IfErr result (Meets (F.device fs.old.flash.now) (F.device fs.new.flash.now)) }
{
    fs.differing_paths(alloc, view, other)
}

/// What stands at these paths of a view, which come in the order of its tree.
fn items_at<F: Flash>(
    alloc: Global,
    fs: &mut Fs<'_, F>,
    view: &View,
    paths: &[Path],
) -> Result<Vec<Item>, Fault>
    requires view { view_refusal (shown fs.old).history view.now ≡ None }
    requires there { All (λ path. IsSome (get (view_tree (shown fs.old) view.now) path)) paths.now }
    ensures same { IsUnchanged fs.old fs.new }
    ensures ok { IfOk result (λ items. items.items ≡ map (item_at (view_tree (shown fs.old) view.now)) paths.now) }
    ensures err { IfErr result (Meets (F.device fs.old.flash.now) (F.device fs.new.flash.now)) }
{
    if paths.len() <= FEW_PATHS {
        return items_among(alloc, fs, view, &[], paths);
    }
    let all = items_of(alloc, fs, view)?;
    items_among(alloc, fs, view, &all, paths)
}

/// The same, where some items of the tree are known. What is not found among these is looked up.
fn items_among<F: Flash>(
    alloc: Global,
    fs: &mut Fs<'_, F>,
    view: &View,
    known: &[Item],
    paths: &[Path],
) -> Result<Vec<Item>, Fault>
    requires view { view_refusal (shown fs.old).history view.now ≡ None }
    requires known { All (IsItemOf (view_tree (shown fs.old) view.now)) known.now }
    requires there { All (λ path. IsSome (get (view_tree (shown fs.old) view.now) path)) paths.now }
    ensures same { IsUnchanged fs.old fs.new }
    ensures ok { IfOk result (λ items. items.items ≡ map (item_at (view_tree (shown fs.old) view.now)) paths.now) }
    ensures err { IfErr result (Meets (F.device fs.old.flash.now) (F.device fs.new.flash.now)) }
{
    let mut items = Vec::new(alloc);
    let mut place = 0;
    for path in paths {
        place = place_of(known, place, path);
        let stat = stat_known(fs, view, known, place, path)?;
        items.push(Item {
            path: path.clone()?,
            stat,
        })?;
    }
    Ok(items)
}

/// The place of the first of these items at a path, from a place on; behind the last where there is none.
fn place_of(known: &[Item], from: usize, path: &Path) -> usize
    ensures { (d : Item) → result < length known.now → (get_or known.now result d).path ≡ path.now }
{
    for place in from..known.len() {
        if known[place].path == *path {
            return place;
        }
    }
    known.len()
}

/// What stands at a path of a view, by the item at a place, if there is one.
fn stat_known<F: Flash>(
    fs: &mut Fs<'_, F>,
    view: &View,
    known: &[Item],
    place: usize,
    path: &Path,
) -> Result<Stat, Fault>
    requires view { view_refusal (shown fs.old).history view.now ≡ None }
    requires known { All (IsItemOf (view_tree (shown fs.old) view.now)) known.now }
    requires place { (d : Item) → place < length known.now → (get_or known.now place d).path ≡ path.now }
    requires there { IsSome (get (view_tree (shown fs.old) view.now) path.now) }
    ensures same { IsUnchanged fs.old fs.new }
    ensures ok { IfOk result (λ stat. stat ≡ stat_of (view_tree (shown fs.old) view.now) path.now (get (view_tree (shown fs.old) view.now) path.now)) }
    ensures err { IfErr result (Meets (F.device fs.old.flash.now) (F.device fs.new.flash.now)) }
{
    if place < known.len() {
        return Ok(known[place].stat);
    }
    stat_at(fs, view, path)
}
