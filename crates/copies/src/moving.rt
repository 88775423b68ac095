//! A version that is made of a tree of another file system by renames and by what differs then.
ghost use Rattle.std.specs.Prelude.{◌≡◌, ◌++◌, ◌∷◌, [], None, All, IfOk, OnOk, IfErr};
ghost use Rattle.fs_types.specs.Names.{Path};
ghost use Rattle.fs_types.specs.declared.call.Call.{Call};
ghost use Rattle.history_machine.specs.History.{changed, view_refusal};
ghost use Rattle.history_machine.specs.Machine.{mounted, view_tree, working_tree};
ghost use Rattle.inquiries.specs.Counterparts.{stat_there};
ghost use Rattle.inquiries.specs.Items.{IsItemOf};
ghost use Rattle.inquiries.specs.Pruned.{IsPruned};
ghost use Rattle.inquiries.specs.Readings.{shown, IsUnchanged, Meets};
ghost use Rattle.tree_differences.specs.UpdateLaws.{IsMoved};
ghost use Rattle.tree_differences.specs.Updates.{edit_paths};
ghost use Rattle.undofs.specs.Systems.{flash_name};
ghost use Rattle.updates.specs.Asked.{MeetsEither};
ghost use Rattle.updates.specs.Changes.{paths_in};
ghost use Rattle.copies.specs.Calls.{Does, IsReady, Stops};
ghost use Rattle.copies.specs.Moved.{Tries, TriesOne, after_moves, subtree_at, subtrees_at, there_at, there_in};
ghost use Rattle.copies.specs.Causes.{NotCopied};

use crate::bringing::{carry_out, carry_out_or_touch};
use crate::moves::find_moves;
use crate::uncopied::{Uncopied, of_untold};
use flash_model::Flash;
use fs_types::{Call, Fault, MAX_NAMES, Path, Stat, View};
use inquiries::{Item, list_below, list_differing, stat_if_there};
use std::alloc::{AllocError, Global};
use undofs::Fs;
use updates::list_changes_at;

/// Makes a version of the tree of a view in another file system, which has the tree of another view: by what
/// differs between the two.
pub(crate) fn bring_next<F: Flash, G: Flash>(
    alloc: Global,
    from: &mut Fs<'_, F>,
    last: &View,
    view: &View,
    to: &mut Fs<'_, G>,
) -> Result<(), Uncopied>
    // What there is.
    requires last { view_refusal (shown from.old).history last.now ≡ None }
    requires view { view_refusal (shown from.old).history view.now ≡ None }
    requires there { view_tree (shown from.old) last.now ≡ working_tree (shown to.old) }
    requires ready { IsReady (shown to.old) }

    // The version.
    ensures same { IsUnchanged from.old from.new }
    ensures ok { OnOk result (shown to.new ≡ mounted (changed (shown to.old).history (view_tree (shown from.old) view.now))) }
    ensures ready { OnOk result (IsReady (shown to.new)) }
    ensures same_flash { flash_name to.new ≡ flash_name to.old }
    ensures err { IfErr result (NotCopied (shown from.old) (F.device from.old.flash.now) (F.device from.new.flash.now) (G.device to.new.flash.now)) }
{
    let olds = match list_differing(alloc, from, last, view) {
        Ok(olds) => olds,
        Err(fault) => return Err(of_untold(fault)),
    };
    let news = match list_differing(alloc, from, view, last) {
        Ok(news) => news,
        Err(fault) => return Err(of_untold(fault)),
    };
    match find_moves(alloc, from, last, view, &olds, &news) {
        Ok(moves) => make_moved(alloc, from, view, to, &olds, &news, &moves),
        Err(fault) => Err(Uncopied::Unread(fault)),
    }
}

/// Makes it by renames first, in one change group, and syncs it.
fn make_moved<F: Flash, G: Flash>(
    alloc: Global,
    from: &mut Fs<'_, F>,
    view: &View,
    to: &mut Fs<'_, G>,
    olds: &[Item],
    news: &[Item],
    moves: &[(Path, Path)],
) -> Result<(), Uncopied>
    // What there is.
    requires view { view_refusal (shown from.old).history view.now ≡ None }
    requires ready { IsReady (shown to.old) }
    requires olds { IsPruned (working_tree (shown to.old)) (view_tree (shown from.old) view.now) olds.now }
    requires news { IsPruned (view_tree (shown from.old) view.now) (working_tree (shown to.old)) news.now }
    requires moves { All (λ one. IsMoved (working_tree (shown to.old)) (view_tree (shown from.old) view.now) one.0 one.1) moves.now }

    // The version.
    ensures same { IsUnchanged from.old from.new }
    ensures ok { OnOk result (shown to.new ≡ mounted (changed (shown to.old).history (view_tree (shown from.old) view.now))) }
    ensures same_flash { flash_name to.new ≡ flash_name to.old }
    ensures err { IfErr result (NotCopied (shown from.old) (F.device from.old.flash.now) (F.device from.new.flash.now) (G.device to.new.flash.now)) }
{
    let made = match begin_moved(alloc, to, moves) {
        Ok(made) => made,
        Err(fault) => return Err(Uncopied::Refused(fault)),
    };
    let changes = match list_rest(alloc, from, view, to, olds, news, &made) {
        Ok(changes) => changes,
        Err(fault) => return Err(Uncopied::Unread(fault)),
    };
    match end_moved(alloc, to, &made, &changes) {
        Ok(()) => Ok(()),
        Err(fault) => Err(Uncopied::Refused(fault)),
    }
}

/// Begins a change group, and carries out renames in it. Those that are refused are left out of what is returned.
fn begin_moved<G: Flash>(
    alloc: Global,
    to: &mut Fs<'_, G>,
    moves: &[(Path, Path)],
) -> Result<Vec<(Path, Path)>, Fault>
    ensures ok { IfOk result (λ made. Tries (shown to.old) moves.now made.items (shown to.new)) }
    ensures same_flash { flash_name to.new ≡ flash_name to.old }
    ensures err { IfErr result (Stops (shown to.old) (Call.Begin ∷ []) (G.device to.new.flash.now)) }
{
    to.begin()?;
    let mut made = Vec::new(alloc);
    for one in moves {
        try_move(alloc, to, one, &mut made)?;
    }
    Ok(made)
}

/// Carries out a rename, and adds it to those that were made; a refused one is not.
fn try_move<G: Flash>(
    alloc: Global,
    to: &mut Fs<'_, G>,
    one: &(Path, Path),
    made: &mut Vec<(Path, Path)>,
) -> Result<(), AllocError>
    ensures ok { OnOk result (TriesOne (shown to.old) one.now made.old.items (shown to.new) made.new.items) }
    ensures same_flash { flash_name to.new ≡ flash_name to.old }
{
    let (old, new) = one;
    match to.rename(alloc, old, new) {
        Ok(()) => {
            made.push((old.clone()?, new.clone()?))?;
            Ok(())
        }
        Err(_) => Ok(()),
    }
}

/// What differs still after renames, of what differed before them, and below where they lead to.
fn list_rest<F: Flash, G: Flash>(
    alloc: Global,
    from: &mut Fs<'_, F>,
    view: &View,
    to: &mut Fs<'_, G>,
    olds: &[Item],
    news: &[Item],
    moves: &[(Path, Path)],
) -> Result<Vec<Call>, Fault>
    // What there is.
    requires view { view_refusal (shown from.old).history view.now ≡ None }
    requires news { All (IsItemOf (view_tree (shown from.old) view.now)) news.now }

    // The changes.
    ensures from { IsUnchanged from.old from.new }
    ensures to { IsUnchanged to.old to.new }
    ensures ok { IfOk result (λ calls. calls.items ≡ edit_paths (working_tree (shown to.old)) (view_tree (shown from.old) view.now) (paths_in (there_in (working_tree (shown to.old)) olds.now ++ subtrees_at (working_tree (shown to.old)) moves.now)) (paths_in news.now)) }
    ensures err { IfErr result (MeetsEither to.old from.old to.new from.new) }
{
    let mut there = Vec::new(alloc);
    add_items(to, olds, &mut there)?;
    add_subtrees(alloc, to, moves, &mut there)?;
    list_changes_at(alloc, to, from, view, there, news)
}

/// Adds what stands in the present tree at the paths of some items.
fn add_items<G: Flash>(
    to: &mut Fs<'_, G>,
    olds: &[Item],
    items: &mut Vec<Item>,
) -> Result<(), Fault>
    ensures same { IsUnchanged to.old to.new }
    ensures ok { OnOk result (items.new.items ≡ items.old.items ++ there_in (working_tree (shown to.old)) olds.now) }
    ensures err { IfErr result (Meets (G.device to.old.flash.now) (G.device to.new.flash.now)) }
{
    for item in olds {
        add_item(to, &item.path, items)?;
    }
    Ok(())
}

/// Adds what stands in the present tree where renames lead to, and below.
fn add_subtrees<G: Flash>(
    alloc: Global,
    to: &mut Fs<'_, G>,
    moves: &[(Path, Path)],
    items: &mut Vec<Item>,
) -> Result<(), Fault>
    ensures same { IsUnchanged to.old to.new }
    ensures ok { OnOk result (items.new.items ≡ items.old.items ++ subtrees_at (working_tree (shown to.old)) moves.now) }
    ensures err { IfErr result (Meets (G.device to.old.flash.now) (G.device to.new.flash.now)) }
{
    for one in moves {
        add_subtree(alloc, to, &one.1, items)?;
    }
    Ok(())
}

/// Adds what stands at a path of the present tree, and tells what that is.
fn add_item<G: Flash>(
    to: &mut Fs<'_, G>,
    path: &Path,
    items: &mut Vec<Item>,
) -> Result<Option<Stat>, Fault>
    ensures same { IsUnchanged to.old to.new }
    ensures stat { IfOk result (λ there. there ≡ stat_there (working_tree (shown to.old)) path.now) }
    ensures ok { OnOk result (items.new.items ≡ items.old.items ++ there_at (working_tree (shown to.old)) path.now) }
    ensures err { IfErr result (Meets (G.device to.old.flash.now) (G.device to.new.flash.now)) }
{
    match stat_if_there(to, &View::Present, path)? {
        Some(stat) => {
            items.push(Item {
                path: path.clone()?,
                stat,
            })?;
            Ok(Some(stat))
        }
        None => Ok(None),
    }
}

/// Adds what stands at a path of the present tree and below it.
fn add_subtree<G: Flash>(
    alloc: Global,
    to: &mut Fs<'_, G>,
    path: &Path,
    items: &mut Vec<Item>,
) -> Result<(), Fault>
    ensures same { IsUnchanged to.old to.new }
    ensures ok { OnOk result (items.new.items ≡ items.old.items ++ subtree_at (working_tree (shown to.old)) path.now) }
    ensures err { IfErr result (Meets (G.device to.old.flash.now) (G.device to.new.flash.now)) }
{
    match add_item(to, path, items)? {
        Some(Stat::Dir(_)) => {
            let mut below = list_below(alloc, to, &View::Present, path, MAX_NAMES)?;
            Ok(items.append(&mut below)?)
        }
        _ => Ok(()),
    }
}

/// Carries out the changes that are left, ends the group and syncs the version.
fn end_moved<G: Flash>(
    alloc: Global,
    to: &mut Fs<'_, G>,
    moves: &[(Path, Path)],
    changes: &[Call],
) -> Result<(), Fault>
    ensures ok { OnOk result ((path : Path) × Does (shown to.old) (after_moves moves.now changes.now path ++ Call.End ∷ Call.Sync ∷ []) (shown to.new)) }
    ensures same_flash { flash_name to.new ≡ flash_name to.old }
    ensures err { IfErr result (λ fault. (path : Path) × Stops (shown to.old) (after_moves moves.now changes.now path ++ Call.End ∷ Call.Sync ∷ []) (G.device to.new.flash.now) fault) }
{
    carry_out_after(alloc, to, moves, changes)?;
    to.end()?;
    to.sync(alloc)
}

/// Carries out changes after renames. Where there are neither, makes a directory and removes it.
fn carry_out_after<G: Flash>(
    alloc: Global,
    to: &mut Fs<'_, G>,
    moves: &[(Path, Path)],
    changes: &[Call],
) -> Result<(), Fault>
    ensures ok { OnOk result ((path : Path) × Does (shown to.old) (after_moves moves.now changes.now path) (shown to.new)) }
    ensures same_flash { flash_name to.new ≡ flash_name to.old }
    ensures err { IfErr result (λ fault. (path : Path) × Stops (shown to.old) (after_moves moves.now changes.now path) (G.device to.new.flash.now) fault) }
{
    match moves {
        [] => carry_out_or_touch(alloc, to, changes),
        _ => carry_out(alloc, to, changes),
    }
}
