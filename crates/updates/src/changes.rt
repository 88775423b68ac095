//! What differs between the trees of two file systems, as the calls of an update.
ghost use Rattle.std.specs.Prelude.{◌≡◌, ◌++◌, ◌∷◌, [], None, All, IfOk, OnOk, IfErr};
ghost use Rattle.std.specs.List.{flat_map};
ghost use Rattle.std.specs.FinMap.{get};
ghost use Rattle.fs_types.specs.declared.call.Call.{Call};
ghost use Rattle.fs_types.specs.declared.call.View.{View};
ghost use Rattle.plain_trees.specs.Trees.{Tree, bytes_of_file};
ghost use Rattle.history_machine.specs.History.{view_refusal};
ghost use Rattle.history_machine.specs.Machine.{view_tree, working_tree};
ghost use Rattle.inquiries.specs.Items.{IsItemOf, IsFileOf};
ghost use Rattle.inquiries.specs.Readings.{shown, IsUnchanged, Meets};
ghost use Rattle.tree_differences.specs.Updates.{removal, making};
ghost use Rattle.updates.specs.Changes.{changed_file, changes_by, making_of, removal_of};
ghost use Rattle.updates.specs.Asked.{AreSmall, MeetsEither, Untold};

use crate::edits::add_editing;
use crate::manner::Manner;
use crate::patches::add_patching;
use crate::pieces::add_writing;
use flash_model::Flash;
use fs_types::{Bytes, Call, Fault, Path, Stat, View};
use inquiries::{
    Counterpart, Item, TellFault, find_counterpart, list_folder, read_file, read_item,
};
use std::alloc::{AllocError, Global};
use undofs::Fs;

/// The calls that bring the present tree of one file system to that of a view of another, both of which are
/// only read: first what has gone is removed, then what is new or changed is made, a file that both have in
/// this manner.
///
/// [`TellFault::TooManyLines`] where a tree has too much ([`list_folder`]); else [`Fault::ReadFailed`],
/// [`Fault::PowerCut`] and [`Fault::NoMemory`] may come.
pub fn list_changes<F: Flash, G: Flash>(
    alloc: Global,
    first: &mut Fs<'_, F>,
    second: &mut Fs<'_, G>,
    view: &View,
    manner: Manner,
) -> Result<Vec<Call>, TellFault>
    requires view { view_refusal (shown second.old).history view.now ≡ None }
    ensures first { IsUnchanged first.old first.new }
    ensures second { IsUnchanged second.old second.new }
    ensures small { OnOk result (AreSmall (working_tree (shown first.old)) (view_tree (shown second.old) view.now)) }
    ensures ok { IfOk result (λ calls. calls.items ≡ changes_by manner (working_tree (shown first.old)) (view_tree (shown second.old) view.now)) }
    ensures err { IfErr result (Untold (working_tree (shown first.old)) (view_tree (shown second.old) view.now) first.old second.old first.new second.new) }
{
    let root = Path::root(alloc);
    let mut olds = list_folder(alloc, first, &View::Present, &root)?;
    let news = list_folder(alloc, second, view, &root)?;
    olds.reverse();
    let mut calls = Vec::new(alloc);
    add_removals(second, view, &olds, &mut calls)?;
    add_makings(alloc, first, second, view, manner, &news, &mut calls)?;
    Ok(calls)
}

/// Adds the calls that remove what goes of these, by what stands in the new tree.
pub(crate) fn add_removals<G: Flash>(
    second: &mut Fs<'_, G>,
    view: &View,
    olds: &[Item],
    calls: &mut Vec<Call>,
) -> Result<(), Fault>
    requires { view_refusal (shown second.old).history view.now ≡ None }
    ensures same { IsUnchanged second.old second.new }
    ensures ok { (t : Tree) → All (IsItemOf t) olds.now → OnOk result (calls.new.items ≡ calls.old.items ++ flat_map (removal_of t (view_tree (shown second.old) view.now)) olds.now) }
    ensures err { IfErr result (Meets (G.device second.old.flash.now) (G.device second.new.flash.now)) }
{
    for item in olds {
        add_removal(second, view, item, calls)?;
    }
    Ok(())
}

/// Adds the call that removes what stood at a path, where it goes.
fn add_removal<G: Flash>(
    second: &mut Fs<'_, G>,
    view: &View,
    item: &Item,
    calls: &mut Vec<Call>,
) -> Result<(), Fault>
    requires { view_refusal (shown second.old).history view.now ≡ None }
    ensures same { IsUnchanged second.old second.new }
    ensures ok { (t : Tree) → IsItemOf t item.now → OnOk result (calls.new.items ≡ calls.old.items ++ removal_of t (view_tree (shown second.old) view.now) item.now) }
    ensures err { IfErr result (Meets (G.device second.old.flash.now) (G.device second.new.flash.now)) }
{
    match find_counterpart(second, view, item)? {
        Counterpart::Missing => Ok(push_removal(calls, item)?),
        _ => Ok(()),
    }
}

/// Adds the call that removes what stands at a path.
fn push_removal(calls: &mut Vec<Call>, item: &Item) -> Result<(), AllocError>
    ensures { (t : Tree) → IsItemOf t item.now → OnOk result (calls.new.items ≡ calls.old.items ++ removal item.now.path (get t item.now.path)) }
{
    let path = item.path.clone()?;
    match item.stat {
        Stat::Dir(_) => calls.push(Call::Rmdir { path })?,
        Stat::File(_) => calls.push(Call::Unlink { path })?,
    }
    Ok(())
}

/// Adds the calls that make what is new or changed of these.
pub(crate) fn add_makings<F: Flash, G: Flash>(
    alloc: Global,
    first: &mut Fs<'_, F>,
    second: &mut Fs<'_, G>,
    view: &View,
    manner: Manner,
    news: &[Item],
    calls: &mut Vec<Call>,
) -> Result<(), Fault>
    requires view { view_refusal (shown second.old).history view.now ≡ None }
    requires there { All (IsItemOf (view_tree (shown second.old) view.now)) news.now }
    ensures first { IsUnchanged first.old first.new }
    ensures second { IsUnchanged second.old second.new }
    ensures ok { OnOk result (calls.new.items ≡ calls.old.items ++ flat_map (making_of manner (working_tree (shown first.old)) (view_tree (shown second.old) view.now)) news.now) }
    ensures err { IfErr result (MeetsEither first.old second.old first.new second.new) }
{
    for item in news {
        add_making(alloc, first, second, view, manner, item, calls)?;
    }
    Ok(())
}

/// Adds the calls that make what stands at a path, where it is new or has other bytes.
fn add_making<F: Flash, G: Flash>(
    alloc: Global,
    first: &mut Fs<'_, F>,
    second: &mut Fs<'_, G>,
    view: &View,
    manner: Manner,
    item: &Item,
    calls: &mut Vec<Call>,
) -> Result<(), Fault>
    requires view { view_refusal (shown second.old).history view.now ≡ None }
    requires there { IsItemOf (view_tree (shown second.old) view.now) item.now }
    ensures first { IsUnchanged first.old first.new }
    ensures second { IsUnchanged second.old second.new }
    ensures ok { OnOk result (calls.new.items ≡ calls.old.items ++ making_of manner (working_tree (shown first.old)) (view_tree (shown second.old) view.now) item.now) }
    ensures err { IfErr result (MeetsEither first.old second.old first.new second.new) }
{
    match find_counterpart(first, &View::Present, item)? {
        Counterpart::Directory => Ok(()),
        Counterpart::File => add_changed(alloc, first, second, view, manner, item, calls),
        Counterpart::Missing => add_new(alloc, second, view, item, calls),
    }
}

/// Adds the calls that make what is new at a path.
fn add_new<G: Flash>(
    alloc: Global,
    second: &mut Fs<'_, G>,
    view: &View,
    item: &Item,
    calls: &mut Vec<Call>,
) -> Result<(), Fault>
    requires view { view_refusal (shown second.old).history view.now ≡ None }
    requires there { IsItemOf (view_tree (shown second.old) view.now) item.now }
    ensures same { IsUnchanged second.old second.new }
    ensures ok { OnOk result (calls.new.items ≡ calls.old.items ++ making item.now.path None (get (view_tree (shown second.old) view.now) item.now.path)) }
    ensures err { IfErr result (Meets (G.device second.old.flash.now) (G.device second.new.flash.now)) }
{
    match item.stat {
        Stat::Dir(_) => Ok(push_mkdir(calls, &item.path)?),
        Stat::File(_) => {
            let bytes = read_item(alloc, second, view, item)?;
            Ok(add_writing(calls, &item.path, bytes)?)
        }
    }
}

/// Adds the call that makes a directory.
fn push_mkdir(calls: &mut Vec<Call>, path: &Path) -> Result<(), AllocError>
    ensures { OnOk result (calls.new.items ≡ calls.old.items ++ Call.Mkdir path.now ∷ []) }
{
    let path = path.clone()?;
    calls.push(Call::Mkdir { path })?;
    Ok(())
}

/// Adds the calls that give a file of both trees the bytes that it has in the new one, where these are
/// others.
fn add_changed<F: Flash, G: Flash>(
    alloc: Global,
    first: &mut Fs<'_, F>,
    second: &mut Fs<'_, G>,
    view: &View,
    manner: Manner,
    item: &Item,
    calls: &mut Vec<Call>,
) -> Result<(), Fault>
    requires there { IsItemOf (view_tree (shown second.old) view.now) item.now }
    requires first { IsFileOf (shown first.old) View.Present item.now.path }
    requires second { IsFileOf (shown second.old) view.now item.now.path }
    ensures first { IsUnchanged first.old first.new }
    ensures second { IsUnchanged second.old second.new }
    ensures ok { OnOk result (calls.new.items ≡ calls.old.items ++ changed_file manner item.now.path (bytes_of_file (working_tree (shown first.old)) item.now.path) (bytes_of_file (view_tree (shown second.old) view.now) item.now.path)) }
    ensures err { IfErr result (MeetsEither first.old second.old first.new second.new) }
{
    let bytes = read_file(alloc, first, &View::Present, &item.path)?;
    let others = read_item(alloc, second, view, item)?;
    Ok(push_changed(calls, &item.path, manner, bytes.as_slice(), others)?)
}

/// Adds the calls that give a file of these bytes others, where they are others.
fn push_changed(
    calls: &mut Vec<Call>,
    path: &Path,
    manner: Manner,
    bytes: &[u8],
    others: Bytes,
) -> Result<(), AllocError>
    ensures { OnOk result (calls.new.items ≡ calls.old.items ++ changed_file manner path.now bytes.now others) }
{
    if bytes == others.as_slice() {
        return Ok(());
    }
    match manner {
        Manner::Whole => add_writing(calls, path, others),
        Manner::Edited => add_editing(calls, path, bytes, others.as_slice()),
        Manner::Patched => add_patching(calls, path, bytes, others.as_slice()),
    }
}
