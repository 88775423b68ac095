//! What stands at one path of a tree, and at another path of the next one.
ghost use Rattle.std.specs.Prelude.{◌≡◌, ◌++◌, ◌∷◌, [], None, All, IfOk, OnOk, IfErr};
ghost use Rattle.plain_trees.specs.Trees.{Tree};
ghost use Rattle.history_machine.specs.History.{view_refusal};
ghost use Rattle.history_machine.specs.Machine.{view_tree};
ghost use Rattle.inquiries.specs.Items.{IsItemOf};
ghost use Rattle.inquiries.specs.Readings.{shown, IsUnchanged, Meets};
ghost use Rattle.copies.specs.Found.{AreTops, FindsMoves, goes_at, is_below_last, look_at, looks_of, with_top};
ghost use Rattle.copies.specs.Pairs.{Pairs};

use crate::pairs::{Look, pair_looks};
use crate::shapes::shape_of;
use flash_model::Flash;
use fs_types::{Fault, Path, View};
use inquiries::{Counterpart, Item, find_counterpart};
use plain_trees::is_beginning;
use std::alloc::{AllocError, Global};
use undofs::Fs;

/// Pairs of paths between which something moved, of what differs between the trees of two views: what stood at
/// the first is gone, what stands at the second is new, and the two look the same ([`shape_of`]). What stands
/// below what is gone or new is in no pair of its own.
pub(crate) fn find_moves<F: Flash>(
    alloc: Global,
    fs: &mut Fs<'_, F>,
    last: &View,
    view: &View,
    olds: &[Item],
    news: &[Item],
) -> Result<Vec<(Path, Path)>, Fault>
    // What there is.
    requires last { view_refusal (shown fs.old).history last.now ≡ None }
    requires view { view_refusal (shown fs.old).history view.now ≡ None }
    requires olds { All (IsItemOf (view_tree (shown fs.old) last.now)) olds.now }
    requires news { All (IsItemOf (view_tree (shown fs.old) view.now)) news.now }

    // What moved.
    ensures same { IsUnchanged fs.old fs.new }
    ensures ok { IfOk result (λ moves. FindsMoves (view_tree (shown fs.old) last.now) (view_tree (shown fs.old) view.now) olds.now news.now moves.items) }
    ensures err { IfErr result (Meets (F.device fs.old.flash.now) (F.device fs.new.flash.now)) }
{
    let gone = list_tops(alloc, fs, view, olds)?;
    let come = list_tops(alloc, fs, last, news)?;
    pair_tops(alloc, fs, last, view, &gone, &come)
}

/// The items of which nothing of their kind stands in the tree of another view, but for those below one before.
fn list_tops<F: Flash>(
    alloc: Global,
    fs: &mut Fs<'_, F>,
    other: &View,
    items: &[Item],
) -> Result<Vec<Item>, Fault>
    requires { view_refusal (shown fs.old).history other.now ≡ None }
    ensures same { IsUnchanged fs.old fs.new }
    ensures ok { (t : Tree) → All (IsItemOf t) items.now → IfOk result (λ tops. AreTops t (view_tree (shown fs.old) other.now) items.now tops.items) }
    ensures err { IfErr result (Meets (F.device fs.old.flash.now) (F.device fs.new.flash.now)) }
{
    let mut tops = Vec::new(alloc);
    for item in items {
        add_top(fs, other, item, &mut tops)?;
    }
    Ok(tops)
}

/// Adds an item of which nothing of its kind stands in the tree of another view, where it is not below the last one.
fn add_top<F: Flash>(
    fs: &mut Fs<'_, F>,
    other: &View,
    item: &Item,
    tops: &mut Vec<Item>,
) -> Result<(), Fault>
    requires { view_refusal (shown fs.old).history other.now ≡ None }
    ensures same { IsUnchanged fs.old fs.new }
    ensures ok { (t : Tree) → IsItemOf t item.now → OnOk result (tops.new.items ≡ with_top t (view_tree (shown fs.old) other.now) tops.old.items item.now) }
    ensures err { IfErr result (Meets (F.device fs.old.flash.now) (F.device fs.new.flash.now)) }
{
    if is_below_last(tops, &item.path) {
        return Ok(());
    }
    if is_missing(fs, other, item)? {
        tops.push(copy_of(item)?)?;
    }
    Ok(())
}

/// Whether a path is that of the last item, or below it.
fn is_below_last(items: &[Item], path: &Path) -> bool
    ensures { result ≡ is_below_last items.now path.now }
{
    match items.last() {
        Some(item) => is_beginning(item.path.names(), path.names()),
        None => false,
    }
}

/// Whether nothing of the kind of an item stands at its path in the tree of another view.
fn is_missing<F: Flash>(fs: &mut Fs<'_, F>, other: &View, item: &Item) -> Result<bool, Fault>
    requires { view_refusal (shown fs.old).history other.now ≡ None }
    ensures same { IsUnchanged fs.old fs.new }
    ensures ok { (t : Tree) → IsItemOf t item.now → IfOk result (λ missing. missing ≡ goes_at t (view_tree (shown fs.old) other.now) item.now.path) }
    ensures err { IfErr result (Meets (F.device fs.old.flash.now) (F.device fs.new.flash.now)) }
{
    match find_counterpart(fs, other, item)? {
        Counterpart::Missing => Ok(true),
        _ => Ok(false),
    }
}

fn copy_of(item: &Item) -> Result<Item, AllocError>
    ensures { IfOk result (λ copy. copy ≡ item.now) }
{
    Ok(Item {
        path: item.path.clone()?,
        stat: item.stat,
    })
}

/// Pairs of the paths of what is gone and what is new that look the same. Nothing is read where one of the two is
/// empty.
fn pair_tops<F: Flash>(
    alloc: Global,
    fs: &mut Fs<'_, F>,
    last: &View,
    view: &View,
    gone: &[Item],
    come: &[Item],
) -> Result<Vec<(Path, Path)>, Fault>
    // What there is.
    requires last { view_refusal (shown fs.old).history last.now ≡ None }
    requires view { view_refusal (shown fs.old).history view.now ≡ None }
    requires gone { All (IsItemOf (view_tree (shown fs.old) last.now)) gone.now }
    requires come { All (IsItemOf (view_tree (shown fs.old) view.now)) come.now }

    // The pairs.
    ensures same { IsUnchanged fs.old fs.new }
    ensures ok { IfOk result (λ moves. Pairs (looks_of (view_tree (shown fs.old) last.now) gone.now) (looks_of (view_tree (shown fs.old) view.now) come.now) moves.items) }
    ensures err { IfErr result (Meets (F.device fs.old.flash.now) (F.device fs.new.flash.now)) }
{
    match (gone, come) {
        ([], _) | (_, []) => Ok(Vec::new(alloc)),
        _ => {
            let old_looks = list_looks(alloc, fs, last, gone)?;
            let new_looks = list_looks(alloc, fs, view, come)?;
            Ok(pair_looks(alloc, &old_looks, &new_looks)?)
        }
    }
}

/// How items of the tree of a view look.
fn list_looks<F: Flash>(
    alloc: Global,
    fs: &mut Fs<'_, F>,
    view: &View,
    items: &[Item],
) -> Result<Vec<Look>, Fault>
    requires view { view_refusal (shown fs.old).history view.now ≡ None }
    requires there { All (IsItemOf (view_tree (shown fs.old) view.now)) items.now }
    ensures same { IsUnchanged fs.old fs.new }
    ensures ok { IfOk result (λ looks. looks.items ≡ looks_of (view_tree (shown fs.old) view.now) items.now) }
    ensures err { IfErr result (Meets (F.device fs.old.flash.now) (F.device fs.new.flash.now)) }
{
    let mut looks = Vec::new(alloc);
    for item in items {
        add_look(alloc, fs, view, item, &mut looks)?;
    }
    Ok(looks)
}

/// Adds how an item of the tree of a view looks.
fn add_look<F: Flash>(
    alloc: Global,
    fs: &mut Fs<'_, F>,
    view: &View,
    item: &Item,
    looks: &mut Vec<Look>,
) -> Result<(), Fault>
    requires view { view_refusal (shown fs.old).history view.now ≡ None }
    requires there { IsItemOf (view_tree (shown fs.old) view.now) item.now }
    ensures same { IsUnchanged fs.old fs.new }
    ensures ok { OnOk result (looks.new.items ≡ looks.old.items ++ look_at (view_tree (shown fs.old) view.now) item.now ∷ []) }
    ensures err { IfErr result (Meets (F.device fs.old.flash.now) (F.device fs.new.flash.now)) }
{
    let shape = shape_of(alloc, fs, view, item)?;
    looks.push(Look {
        path: item.path.clone()?,
        shape,
    })?;
    Ok(())
}
