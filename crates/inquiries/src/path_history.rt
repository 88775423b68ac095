//! What stood at a path in each version where that is other than in the version before, and in each
//! checkpoint.
ghost use Rattle.std.specs.Prelude.{◌≡◌, ◌++◌, ◌<◌, ◌≤◌, ◌==◌, ◌↔◌, true, None, All, IsTrue, IfOk, OnOk, IfErr, length, map, get_or, sum_by};
ghost use Rattle.std.specs.List.{list_any};
ghost use Rattle.fs_types.specs.declared.call.View.{View};
ghost use Rattle.history_machine.specs.History.{view_refusal};
ghost use Rattle.history_machine.specs.Machine.{view_tree};
ghost use Rattle.tree_counts.specs.Sizes.{in_word};
ghost use Rattle.inquiries.specs.Inquiries.{inquiry_refusal, HasFewLines, Untold};
ghost use Rattle.inquiries.specs.PathHistories.{history_line, history_lines, is_changed, is_checkpoint, is_there, is_told, kept_views, looked_at, nowhere_in, state_line, IsSmallAt};
ghost use Rattle.inquiries.specs.Readings.{shown, IsUnchanged, Fails, Meets};
ghost use Rattle.inquiries.specs.Within.{have_other_lengths};
ghost use Rattle.inquiries.specs.declared.inquiry.Inquiry.{Inquiry};
ghost use Rattle.inquiries.specs.declared.tell_fault.TheConstants.{MAX_LINES};

use crate::counterpart::{Counterpart, counterpart_of, stat_if_there};
use crate::differences::{differ_below, has_other_bytes};
use crate::folders::has_small_tree;
use crate::printing::{print_state, print_view};
use crate::reading_calls::{kept_trees, show_same, size_of_tree};
use crate::tell_fault::{MAX_LINES, TellFault};
use flash_model::Flash;
use fs_types::{Bytes, CpName, Fault, Path, Stat, View};
use std::alloc::{AllocError, Global};
use undofs::{Fs, Log};

/// A line for the first kept version, for each in which something else stands at a path than in the version
/// before, and for each checkpoint.
pub(crate) fn tell_path_history<F: Flash>(
    alloc: Global,
    fs: &mut Fs<'_, F>,
    path: &Path,
) -> Result<Bytes, TellFault>
    ensures same { IsUnchanged fs.old fs.new }
    ensures accepted { IfOk result (λ _. inquiry_refusal (shown fs.old) (Inquiry.History path.now) ≡ None) }
    ensures few { IfOk result (λ _. HasFewLines (shown fs.old) (Inquiry.History path.now)) }
    ensures ok { IfOk result (λ bytes. bytes ≡ history_lines (shown fs.old) path.now) }
    ensures err { IfErr result (Untold (Inquiry.History path.now) fs.old fs.new) }
{
    let kept = kept_trees(alloc, fs)?;
    let views = kept_views(alloc, &kept)?;
    check_somewhere(fs, &views, path)?;
    if !are_few(alloc, fs, &views, path)? {
        return Err(TellFault::TooManyLines);
    }
    if !are_small(alloc, fs, &views, path)? {
        return Err(TellFault::TooManyLines);
    }
    Ok(Bytes::from_vec(list_states(alloc, fs, &views, kept.cursor, path)?))
}

/// The versions, the oldest first, and then the checkpoints.
fn kept_views(alloc: Global, kept: &Log) -> Result<Vec<View>, AllocError>
    ensures { IfOk result (λ views. views.items ≡ map View.Serial kept.now.versions ++ map View.Checkpoint kept.now.checkpoints) }
{
    let mut views = Vec::new(alloc);
    add_versions(&mut views, kept.versions.as_slice())?;
    add_checkpoints(&mut views, kept.checkpoints.as_slice())?;
    Ok(views)
}

fn add_versions(views: &mut Vec<View>, serials: &[u64]) -> Result<(), AllocError>
    ensures { OnOk result (views.new.items ≡ views.old.items ++ map View.Serial serials.now) }
{
    for serial in serials {
        views.push(View::Serial(*serial))?;
    }
    Ok(())
}

fn add_checkpoints(views: &mut Vec<View>, names: &[CpName]) -> Result<(), AllocError>
    ensures { OnOk result (views.new.items ≡ views.old.items ++ map View.Checkpoint names.now) }
{
    for name in names {
        views.push(View::Checkpoint(name.clone()?))?;
    }
    Ok(())
}

/// Looks whether something stands at a path of one of these views; [`Fault::NoEntry`] where nothing does.
fn check_somewhere<F: Flash>(fs: &mut Fs<'_, F>, views: &[View], path: &Path) -> Result<(), Fault>
    requires { All (λ view. view_refusal (shown fs.old).history view ≡ None) views.now }
    ensures same { IsUnchanged fs.old fs.new }
    ensures ok { OnOk result (list_any (is_there (shown fs.old) path.now) views.now ≡ true) }
    ensures err { IfErr result (Fails (nowhere_in (shown fs.old) path.now views.now) fs.old fs.new) }
{
    for view in views {
        if stat_if_there(fs, view, path)?.is_some() {
            return Ok(());
        }
    }
    Err(Fault::NoEntry)
}

/// Whether no more entries have to be looked at than may be.
fn are_few<F: Flash>(
    alloc: Global,
    fs: &mut Fs<'_, F>,
    views: &[View],
    path: &Path,
) -> Result<bool, Fault>
    requires { All (λ view. view_refusal (shown fs.old).history view ≡ None) views.now }
    ensures same { IsUnchanged fs.old fs.new }
    ensures ok { IfOk result (λ few. IsTrue few ↔ (sum_by (looked_at (shown fs.old) path.now) views.now ≤ MAX_LINES)) }
    ensures err { IfErr result (Meets (F.device fs.old.flash.now) (F.device fs.new.flash.now)) }
{
    let mut looked = 0;
    for view in views {
        match looked_at(alloc, fs, view, path)? {
            Some(entries) if entries <= MAX_LINES - looked => looked += entries,
            _ => return Ok(false),
        }
    }
    Ok(true)
}

/// How many entries have to be looked at in the tree of a view: all where a directory stands at the path.
/// None where these are more than a word counts.
fn looked_at<F: Flash>(
    alloc: Global,
    fs: &mut Fs<'_, F>,
    view: &View,
    path: &Path,
) -> Result<Option<u64>, Fault>
    requires { view_refusal (shown fs.old).history view.now ≡ None }
    ensures same { IsUnchanged fs.old fs.new }
    ensures ok { IfOk result (λ entries. entries ≡ in_word (looked_at (shown fs.old) path.now view.now)) }
    ensures err { IfErr result (Meets (F.device fs.old.flash.now) (F.device fs.new.flash.now)) }
{
    match stat_if_there(fs, view, path)? {
        Some(Stat::Dir(_)) => Ok(size_of_tree(alloc, fs, view)?.entries),
        Some(Stat::File(_)) => Ok(Some(0)),
        None => Ok(Some(0)),
    }
}

/// Whether each tree of these views is small enough in which a directory stands at a path.
fn are_small<F: Flash>(
    alloc: Global,
    fs: &mut Fs<'_, F>,
    views: &[View],
    path: &Path,
) -> Result<bool, Fault>
    requires { All (λ view. view_refusal (shown fs.old).history view ≡ None) views.now }
    ensures same { IsUnchanged fs.old fs.new }
    ensures ok { IfOk result (λ small. IsTrue small ↔ All (IsSmallAt (shown fs.old) path.now) views.now) }
    ensures err { IfErr result (Meets (F.device fs.old.flash.now) (F.device fs.new.flash.now)) }
{
    for view in views {
        let small = is_small_at(alloc, fs, view, path)?;
        if !small {
            return Ok(false);
        }
    }
    Ok(true)
}

/// Whether the tree of a view is small enough that all of it is read, where a directory stands at a path.
fn is_small_at<F: Flash>(
    alloc: Global,
    fs: &mut Fs<'_, F>,
    view: &View,
    path: &Path,
) -> Result<bool, Fault>
    requires { view_refusal (shown fs.old).history view.now ≡ None }
    ensures same { IsUnchanged fs.old fs.new }
    ensures ok { IfOk result (λ small. IsTrue small ↔ IsSmallAt (shown fs.old) path.now view.now) }
    ensures err { IfErr result (Meets (F.device fs.old.flash.now) (F.device fs.new.flash.now)) }
{
    match stat_if_there(fs, view, path)? {
        Some(Stat::Dir(_)) => has_small_tree(alloc, fs, view),
        Some(Stat::File(_)) => Ok(true),
        None => Ok(true),
    }
}

/// The lines of these views, of which the one at the cursor is the present version.
fn list_states<F: Flash>(
    alloc: Global,
    fs: &mut Fs<'_, F>,
    views: &[View],
    cursor: u64,
    path: &Path,
) -> Result<Vec<u8>, Fault>
    requires views { views.now ≡ kept_views (shown fs.old) }
    requires cursor { cursor ≡ (shown fs.old).history.cursor }
    ensures same { IsUnchanged fs.old fs.new }
    ensures ok { IfOk result (λ bytes. bytes.items ≡ history_lines (shown fs.old) path.now) }
    ensures err { IfErr result (Meets (F.device fs.old.flash.now) (F.device fs.new.flash.now)) }
{
    let mut out = Vec::new(alloc);
    for place in 0..views.len() {
        add_state(alloc, fs, views, place, cursor, path, &mut out)?;
    }
    Ok(out)
}

/// Adds the line of the view at a place, if it has one.
fn add_state<F: Flash>(
    alloc: Global,
    fs: &mut Fs<'_, F>,
    views: &[View],
    place: usize,
    cursor: u64,
    path: &Path,
    out: &mut Vec<u8>,
) -> Result<(), Fault>
    requires views { views.now ≡ kept_views (shown fs.old) }
    requires cursor { cursor ≡ (shown fs.old).history.cursor }
    requires place { place < length views.now }
    ensures same { IsUnchanged fs.old fs.new }
    ensures ok { OnOk result (out.new.items ≡ out.old.items ++ history_line (shown fs.old) path.now (place, get_or views.now place View.Present)) }
    ensures err { IfErr result (Meets (F.device fs.old.flash.now) (F.device fs.new.flash.now)) }
{
    if is_told(alloc, fs, views, place, path)? {
        print_there(fs, &views[place], place as u64 == cursor, path, out)?;
    }
    Ok(())
}

/// Whether the view at a place has a line: the first version, one that changed something, and a checkpoint.
fn is_told<F: Flash>(
    alloc: Global,
    fs: &mut Fs<'_, F>,
    views: &[View],
    place: usize,
    path: &Path,
) -> Result<bool, Fault>
    requires views { views.now ≡ kept_views (shown fs.old) }
    requires place { place < length views.now }
    ensures same { IsUnchanged fs.old fs.new }
    ensures ok { IfOk result (λ told. told ≡ is_told (shown fs.old) path.now place (get_or views.now place View.Present)) }
    ensures err { IfErr result (Meets (F.device fs.old.flash.now) (F.device fs.new.flash.now)) }
{
    if place == 0 {
        return Ok(true);
    }
    if is_checkpoint(&views[place]) {
        return Ok(true);
    }
    is_changed(alloc, fs, &views[place - 1], &views[place], path)
}

/// Whether a view is a checkpoint.
fn is_checkpoint(view: &View) -> bool
    ensures { result ≡ is_checkpoint view.now }
{
    matches!(view, View::Checkpoint(_))
}

/// Whether two files have other lengths.
fn have_other_lengths(was: Option<Stat>, is: Option<Stat>) -> bool
    ensures { result ≡ have_other_lengths was is }
{
    match (was, is) {
        (Some(Stat::File(bytes)), Some(Stat::File(others))) => bytes != others,
        _ => false,
    }
}

/// Whether something else stands at a path of a view than of the one before. Two views of one root are not
/// looked at, nor is what directories of both have in one block. Files of one length are read.
fn is_changed<F: Flash>(
    alloc: Global,
    fs: &mut Fs<'_, F>,
    old: &View,
    new: &View,
    path: &Path,
) -> Result<bool, Fault>
    requires old { view_refusal (shown fs.old).history old.now ≡ None }
    requires new { view_refusal (shown fs.old).history new.now ≡ None }
    ensures same { IsUnchanged fs.old fs.new }
    ensures ok { IfOk result (λ changed. changed ≡ is_changed (view_tree (shown fs.old) old.now) (view_tree (shown fs.old) new.now) path.now) }
    ensures err { IfErr result (Meets (F.device fs.old.flash.now) (F.device fs.new.flash.now)) }
{
    if show_same(fs, old, new)? {
        return Ok(false);
    }
    let was = stat_if_there(fs, old, path)?;
    let is = stat_if_there(fs, new, path)?;
    if have_other_lengths(was, is) {
        return Ok(true);
    }
    match was {
        None => Ok(is.is_some()),
        Some(stat) => match counterpart_of(stat, is) {
            Counterpart::Directory => differ_below(alloc, fs, old, new, path),
            Counterpart::File => has_other_bytes(alloc, fs, old, new, path),
            Counterpart::Missing => Ok(true),
        },
    }
}

/// Appends the line of what stands at a path of a view.
fn print_there<F: Flash>(
    fs: &mut Fs<'_, F>,
    view: &View,
    is_present: bool,
    path: &Path,
    out: &mut Vec<u8>,
) -> Result<(), Fault>
    requires { view_refusal (shown fs.old).history view.now ≡ None }
    ensures same { IsUnchanged fs.old fs.new }
    ensures ok { OnOk result (out.new.items ≡ out.old.items ++ state_line (shown fs.old) path.now is_present view.now) }
    ensures err { IfErr result (Meets (F.device fs.old.flash.now) (F.device fs.new.flash.now)) }
{
    let there = stat_if_there(fs, view, path)?;
    print_view(out, view, is_present)?;
    print_state(out, there)?;
    Ok(())
}
