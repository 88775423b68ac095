//! What differs between the trees of two file systems at the paths of some items, as calls.
ghost use Rattle.std.specs.Prelude.{◌≡◌, None, All, IfOk, IfErr};
ghost use Rattle.history_machine.specs.History.{view_refusal};
ghost use Rattle.history_machine.specs.Machine.{view_tree, working_tree};
ghost use Rattle.inquiries.specs.Items.{IsItemOf};
ghost use Rattle.inquiries.specs.Readings.{shown, IsUnchanged};
ghost use Rattle.tree_differences.specs.Updates.{edit_paths};
ghost use Rattle.updates.specs.Asked.{MeetsEither};
ghost use Rattle.updates.specs.Changes.{paths_in};

use crate::changes::{add_makings, add_removals};
use crate::manner::Manner;
use flash_model::Flash;
use fs_types::{Call, Fault, View};
use inquiries::Item;
use std::alloc::Global;
use undofs::Fs;

/// The calls that make at the paths of some items of what the present tree of the first file system has what
/// the tree of a view of the second has, both of which are only read: the last of the one list that goes is
/// removed first, and the first of the other one is made first. A file of both keeps what it can from its
/// beginning on.
///
/// [`Fault::ReadFailed`], [`Fault::PowerCut`] and [`Fault::NoMemory`] may come.
pub fn list_changes_at<F: Flash, G: Flash>(
    alloc: Global,
    first: &mut Fs<'_, F>,
    second: &mut Fs<'_, G>,
    view: &View,
    olds: Vec<Item>,
    news: &[Item],
) -> Result<Vec<Call>, Fault>
    // What there is.
    requires view { view_refusal (shown second.old).history view.now ≡ None }
    requires olds { All (IsItemOf (working_tree (shown first.old))) olds.items }
    requires news { All (IsItemOf (view_tree (shown second.old) view.now)) news.now }

    // The changes.
    ensures first { IsUnchanged first.old first.new }
    ensures second { IsUnchanged second.old second.new }
    ensures ok { IfOk result (λ calls. calls.items ≡ edit_paths (working_tree (shown first.old)) (view_tree (shown second.old) view.now) (paths_in olds.items) (paths_in news.now)) }
    ensures err { IfErr result (MeetsEither first.old second.old first.new second.new) }
{
    let mut olds = olds;
    olds.reverse();
    let mut calls = Vec::new(alloc);
    add_removals(second, view, &olds, &mut calls)?;
    add_makings(alloc, first, second, view, Manner::Edited, news, &mut calls)?;
    Ok(calls)
}
