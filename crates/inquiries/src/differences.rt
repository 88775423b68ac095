//! What differs between two trees.
ghost use Rattle.std.specs.Prelude.{◌≡◌, ◌++◌, ◌+◌, ◌≤◌, ◌↔◌, not, None, length, IsTrue, IfOk, OnOk, IfErr};
ghost use Rattle.std.specs.FinMap.{get};
ghost use Rattle.std.specs.Option.{option_or};
ghost use Rattle.std.specs.Str.{bytes_eq};
ghost use Rattle.plain_trees.specs.Trees.{Tree, bytes_of_file};
ghost use Rattle.tree_counts.specs.Sizes.{size_of};
ghost use Rattle.history_machine.specs.History.{view_refusal};
ghost use Rattle.history_machine.specs.Machine.{view_tree};
ghost use Rattle.inquiries.specs.Differences.{line_beside, file_beside, lines_beside, lines_below, difference_below, difference_lines};
ghost use Rattle.inquiries.specs.Folders.{IsSmall};
ghost use Rattle.inquiries.specs.Inquiries.{inquiry_refusal, HasFewLines, Untold};
ghost use Rattle.inquiries.specs.Items.{items_of, IsItemOf, IsDirectoryOf, IsFileOf};
ghost use Rattle.inquiries.specs.PathHistories.{is_filled};
ghost use Rattle.inquiries.specs.Readings.{shown, IsUnchanged, Fails, Meets};
ghost use Rattle.inquiries.specs.Within.{is_below, tells_below};
ghost use Rattle.inquiries.specs.declared.inquiry.Inquiry.{Inquiry};
ghost use Rattle.inquiries.specs.declared.tell_fault.TheConstants.{MAX_LINES};

use crate::counterpart::{Counterpart, find_counterpart};
use crate::folders::is_small;
use crate::items::Item;
use crate::printing::{Side, print_change, print_marked};
use crate::pruned::differing_items;
use crate::reading_calls::{check_view, read_file, read_item, show_same, size_of_tree};
use crate::tell_fault::{MAX_LINES, TellFault};
use flash_model::Flash;
use fs_types::{Bytes, Fault, Path, View};
use std::alloc::Global;
use undofs::{Fs, TreeSize};

/// The lines of what differs between the trees of two views, where these have not too many entries, and
/// neither has too much. Two views of one root are not looked at.
pub(crate) fn tell_differences<F: Flash>(
    alloc: Global,
    fs: &mut Fs<'_, F>,
    old: &View,
    new: &View,
) -> Result<Bytes, TellFault>
    ensures same { IsUnchanged fs.old fs.new }
    ensures accepted { IfOk result (λ _. inquiry_refusal (shown fs.old) (Inquiry.Differences old.now new.now) ≡ None) }
    ensures few { IfOk result (λ _. HasFewLines (shown fs.old) (Inquiry.Differences old.now new.now)) }
    ensures ok { IfOk result (λ bytes. bytes ≡ difference_lines (view_tree (shown fs.old) old.now) (view_tree (shown fs.old) new.now)) }
    ensures err { IfErr result (Untold (Inquiry.Differences old.now new.now) fs.old fs.new) }
{
    if show_same(fs, old, new)? {
        return Ok(Bytes::from_vec(Vec::new(alloc)));
    }
    let first = size_of_tree(alloc, fs, old)?;
    let second = size_of_tree(alloc, fs, new)?;
    if !are_few(first, second) {
        return Err(TellFault::TooManyLines);
    }
    let small = are_both_small(alloc, fs, old, first, new, second)?;
    if !small {
        return Err(TellFault::TooManyLines);
    }
    Ok(list_differences(alloc, fs, old, new)?)
}

/// Whether two trees have no more entries than may be looked at.
fn are_few(first: TreeSize, second: TreeSize) -> bool
    ensures { (t u : Tree) → first ≡ size_of t → second ≡ size_of u → IsTrue result ↔ (length (items_of t) + length (items_of u) ≤ MAX_LINES) }
{
    match (first.entries, second.entries) {
        (Some(first), Some(second)) => first <= MAX_LINES && second <= MAX_LINES - first,
        _ => false,
    }
}

/// Whether two trees are small enough that all of them is read, which have these sizes.
fn are_both_small<F: Flash>(
    alloc: Global,
    fs: &mut Fs<'_, F>,
    old: &View,
    first: TreeSize,
    new: &View,
    second: TreeSize,
) -> Result<bool, Fault>
    requires old { view_refusal (shown fs.old).history old.now ≡ None }
    requires first { first ≡ size_of (view_tree (shown fs.old) old.now) }
    requires new { view_refusal (shown fs.old).history new.now ≡ None }
    requires second { second ≡ size_of (view_tree (shown fs.old) new.now) }
    ensures same { IsUnchanged fs.old fs.new }
    ensures ok { IfOk result (λ small. IsTrue small ↔ (IsSmall (view_tree (shown fs.old) old.now) × IsSmall (view_tree (shown fs.old) new.now))) }
    ensures err { IfErr result (Meets (F.device fs.old.flash.now) (F.device fs.new.flash.now)) }
{
    let small = is_small(alloc, fs, old, first)?;
    if !small {
        return Ok(false);
    }
    is_small(alloc, fs, new, second)
}

/// The lines of what differs between the trees of two views: first what went and what changed, then
/// what came.
fn list_differences<F: Flash>(
    alloc: Global,
    fs: &mut Fs<'_, F>,
    old: &View,
    new: &View,
) -> Result<Bytes, Fault>
    ensures same { IsUnchanged fs.old fs.new }
    ensures accepted { IfOk result (λ _. option_or (view_refusal (shown fs.old).history old.now) (view_refusal (shown fs.old).history new.now) ≡ None) }
    ensures ok { IfOk result (λ bytes. bytes ≡ difference_lines (view_tree (shown fs.old) old.now) (view_tree (shown fs.old) new.now)) }
    ensures err { IfErr result (Fails (option_or (view_refusal (shown fs.old).history old.now) (view_refusal (shown fs.old).history new.now)) fs.old fs.new) }
{
    check_view(alloc, fs, old)?;
    check_view(alloc, fs, new)?;
    let mut out = Vec::new(alloc);
    add_lines(alloc, fs, Side::Old, old, new, &mut out)?;
    add_lines(alloc, fs, Side::New, new, old, &mut out)?;
    Ok(Bytes::from_vec(out))
}

/// Adds the lines of one of two trees, by what stands in the other: what both have in one block has none.
fn add_lines<F: Flash>(
    alloc: Global,
    fs: &mut Fs<'_, F>,
    side: Side,
    view: &View,
    other: &View,
    out: &mut Vec<u8>,
) -> Result<(), Fault>
    requires view { view_refusal (shown fs.old).history view.now ≡ None }
    requires other { view_refusal (shown fs.old).history other.now ≡ None }
    ensures same { IsUnchanged fs.old fs.new }
    ensures ok { OnOk result (out.new.items ≡ out.old.items ++ lines_beside side (view_tree (shown fs.old) view.now) (view_tree (shown fs.old) other.now)) }
    ensures err { IfErr result (Meets (F.device fs.old.flash.now) (F.device fs.new.flash.now)) }
{
    let items = differing_items(alloc, fs, view, other)?;
    for item in &items {
        add_line(alloc, fs, side, view, other, item, out)?;
    }
    Ok(())
}

/// Whether something differs below a directory that stands in the trees of two views. What both have in one
/// block is not read.
pub(crate) fn differ_below<F: Flash>(
    alloc: Global,
    fs: &mut Fs<'_, F>,
    old: &View,
    new: &View,
    directory: &Path,
) -> Result<bool, Fault>
    requires old { IsDirectoryOf (shown fs.old) old.now directory.now }
    requires new { IsDirectoryOf (shown fs.old) new.now directory.now }
    ensures same { IsUnchanged fs.old fs.new }
    ensures ok { IfOk result (λ differ. differ ≡ is_filled (difference_below (view_tree (shown fs.old) old.now) (view_tree (shown fs.old) new.now) directory.now)) }
    ensures err { IfErr result (Meets (F.device fs.old.flash.now) (F.device fs.new.flash.now)) }
{
    let went = tells_below(alloc, fs, Side::Old, old, new, directory)?;
    if went {
        return Ok(true);
    }
    tells_below(alloc, fs, Side::New, new, old, directory)
}

/// Whether something below a directory has a line in one of two trees, by what stands in the other.
fn tells_below<F: Flash>(
    alloc: Global,
    fs: &mut Fs<'_, F>,
    side: Side,
    view: &View,
    other: &View,
    directory: &Path,
) -> Result<bool, Fault>
    requires view { view_refusal (shown fs.old).history view.now ≡ None }
    requires other { view_refusal (shown fs.old).history other.now ≡ None }
    ensures same { IsUnchanged fs.old fs.new }
    ensures ok { IfOk result (λ tells. tells ≡ is_filled (lines_below side (view_tree (shown fs.old) view.now) (view_tree (shown fs.old) other.now) directory.now)) }
    ensures err { IfErr result (Meets (F.device fs.old.flash.now) (F.device fs.new.flash.now)) }
{
    let items = differing_items(alloc, fs, view, other)?;
    for item in &items {
        let tells = tells_item(alloc, fs, side, view, other, directory, item)?;
        if tells {
            return Ok(true);
        }
    }
    Ok(false)
}

/// Whether an item stands below a directory and has a line.
fn tells_item<F: Flash>(
    alloc: Global,
    fs: &mut Fs<'_, F>,
    side: Side,
    view: &View,
    other: &View,
    directory: &Path,
    item: &Item,
) -> Result<bool, Fault>
    requires view { view_refusal (shown fs.old).history view.now ≡ None }
    requires other { view_refusal (shown fs.old).history other.now ≡ None }
    requires there { IsItemOf (view_tree (shown fs.old) view.now) item.now }
    ensures same { IsUnchanged fs.old fs.new }
    ensures ok { IfOk result (λ tells. tells ≡ tells_below side (view_tree (shown fs.old) view.now) (view_tree (shown fs.old) other.now) directory.now item.now) }
    ensures err { IfErr result (Meets (F.device fs.old.flash.now) (F.device fs.new.flash.now)) }
{
    if !is_below(directory, &item.path) {
        return Ok(false);
    }
    let mut line = Vec::new(alloc);
    add_line(alloc, fs, side, view, other, item, &mut line)?;
    Ok(!line.is_empty())
}

/// Whether a path goes on from that of a directory.
fn is_below(directory: &Path, path: &Path) -> bool
    ensures { result ≡ is_below directory.now path.now }
{
    let above = directory.names();
    let names = path.names();
    above.len() < names.len() && names.starts_with(above)
}

/// Adds the line of what stands in one of two trees, if it has one.
fn add_line<F: Flash>(
    alloc: Global,
    fs: &mut Fs<'_, F>,
    side: Side,
    view: &View,
    other: &View,
    item: &Item,
    out: &mut Vec<u8>,
) -> Result<(), Fault>
    requires view { view_refusal (shown fs.old).history view.now ≡ None }
    requires other { view_refusal (shown fs.old).history other.now ≡ None }
    requires there { IsItemOf (view_tree (shown fs.old) view.now) item.now }
    ensures same { IsUnchanged fs.old fs.new }
    ensures ok { OnOk result (out.new.items ≡ out.old.items ++ line_beside side item.now (get (view_tree (shown fs.old) view.now) item.now.path) (get (view_tree (shown fs.old) other.now) item.now.path)) }
    ensures err { IfErr result (Meets (F.device fs.old.flash.now) (F.device fs.new.flash.now)) }
{
    match find_counterpart(fs, other, item)? {
        Counterpart::Missing => Ok(print_marked(out, side, item)?),
        Counterpart::Directory => Ok(()),
        Counterpart::File => match side {
            Side::Old => add_change(alloc, fs, view, other, item, out),
            Side::New => Ok(()),
        },
    }
}

/// Adds the line of a file of two trees, where it has other bytes in the second.
fn add_change<F: Flash>(
    alloc: Global,
    fs: &mut Fs<'_, F>,
    view: &View,
    other: &View,
    item: &Item,
    out: &mut Vec<u8>,
) -> Result<(), Fault>
    requires there { IsItemOf (view_tree (shown fs.old) view.now) item.now }
    requires view { IsFileOf (shown fs.old) view.now item.now.path }
    requires other { IsFileOf (shown fs.old) other.now item.now.path }
    ensures same { IsUnchanged fs.old fs.new }
    ensures ok { OnOk result (out.new.items ≡ out.old.items ++ file_beside item.now.path (bytes_of_file (view_tree (shown fs.old) view.now) item.now.path) (bytes_of_file (view_tree (shown fs.old) other.now) item.now.path)) }
    ensures err { IfErr result (Meets (F.device fs.old.flash.now) (F.device fs.new.flash.now)) }
{
    let bytes = read_item(alloc, fs, view, item)?;
    let others = read_file(alloc, fs, other, &item.path)?;
    if bytes.as_slice() != others.as_slice() {
        print_change(out, &item.path)?;
    }
    Ok(())
}

/// Whether a file of two trees has other bytes in the second.
pub(crate) fn has_other_bytes<F: Flash>(
    alloc: Global,
    fs: &mut Fs<'_, F>,
    view: &View,
    other: &View,
    path: &Path,
) -> Result<bool, Fault>
    requires view { IsFileOf (shown fs.old) view.now path.now }
    requires other { IsFileOf (shown fs.old) other.now path.now }
    ensures same { IsUnchanged fs.old fs.new }
    ensures ok { IfOk result (λ has. has ≡ not (bytes_eq (bytes_of_file (view_tree (shown fs.old) view.now) path.now) (bytes_of_file (view_tree (shown fs.old) other.now) path.now))) }
    ensures err { IfErr result (Meets (F.device fs.old.flash.now) (F.device fs.new.flash.now)) }
{
    let bytes = read_file(alloc, fs, view, path)?;
    let others = read_file(alloc, fs, other, path)?;
    Ok(bytes.as_slice() != others.as_slice())
}
