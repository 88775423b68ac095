//! A history that is copied.
ghost use Rattle.std.specs.Prelude.{◌≡◌, ◌-◌, ◌++◌, ◌∷◌, [], ◌≤◌, ℕ, None, Some, true, false, All, Contains, List, IfOk, IfSome, IfNone, OnOk, IfErr, length, map, take, drop};
ghost use Rattle.std.specs.BTreeMap.{insert_entry};
ghost use Rattle.fs_types.specs.Names.{name_cmp};
ghost use Rattle.fs_types.specs.declared.call.View.{View};
ghost use Rattle.plain_trees.specs.Trees.{Tree, bare};
ghost use Rattle.history_machine.specs.History.{checkpoint_root, fresh, view_refusal};
ghost use Rattle.history_machine.specs.Machine.{mounted, view_tree};
ghost use Rattle.history_copies.specs.Copies.{IsCopy, first_kept, kept_versions, roots_in};
ghost use Rattle.inquiries.specs.Readings.{shown, IsUnchanged, Meets};
ghost use Rattle.inquiries.specs.Versions.{kept_names, kept_serials};
ghost use Rattle.mounting.specs.Formats.{IsFormatted};
ghost use Rattle.system.specs.TreeSizes.{ShowRoots};
ghost use Rattle.undofs.specs.Systems.{flash_name};
ghost use Rattle.copies.specs.Calls.{IsReady, IsReadyAfter, IsSynced};
ghost use Rattle.copies.specs.Causes.{CopyCause, NotCopied, NotCopiedTo};
ghost use Rattle.copies.specs.Copied.{Holds, IsCopied, IsCopiedTo, IsShared};

use crate::bringing::bring;
use crate::ending::end_copy;
use crate::kept::{choose_serials, first_kept};
use crate::uncopied::Uncopied;
use flash_model::Flash;
use fs_types::{CpName, Fault, View};
use std::alloc::Global;
use undofs::{Fs, Log, RefusedMount};

/// Copies what the newest record of the first flash holds to the second one, on which a format left an empty
/// file system that keeps `limit` versions: each kept version for which there is room, in their order, each
/// checkpoint, and the place of the present version. The newest versions are copied; where the present one is
/// older than these it is, and the newest for which there is room beside it. What is made beside them is
/// forgotten again. The first flash is only read, and the copy is synced.
///
/// Versions whose trees are the same stay two: a directory is made in the root and removed between them. So
/// [`Fault::DirectoryFull`] where the root has no room for one.
pub fn copy_history<F: Flash, G: Flash>(
    alloc: Global,
    first: &mut F,
    second: &mut G,
    limit: usize,
) -> Result<(), Uncopied>
    requires formatted { IsFormatted limit (G.device second.old) }
    ensures ok { OnOk result (IsCopied limit (F.device first.old) (G.device second.new)) }
    ensures pages { (p : ℕ) → (F.device first.new).pages p ≡ (F.device first.old).pages p }
    ensures err { IfErr result (CopyCause (F.device first.old) (G.device second.old) (F.device first.new) (G.device second.new)) }
{
    match Fs::mount_or_release(alloc, first) {
        Ok(from) => {
            let mut from = from;
            let copied = copy_to_flash(alloc, &mut from, second, limit);
            // The borrow ends here, with the flash as it was left.
            let _left = from.into_flash();
            copied
        }
        Err(refused) => {
            let RefusedMount { fault, flash: left } = refused;
            let _left = left;
            Err(Uncopied::Unmounted(fault))
        }
    }
}

/// Copies a file system to a flash that was formatted.
fn copy_to_flash<F: Flash, G: Flash>(
    alloc: Global,
    from: &mut Fs<'_, F>,
    second: &mut G,
    limit: usize,
) -> Result<(), Uncopied>
    requires formatted { IsFormatted limit (G.device second.old) }
    ensures same { IsUnchanged from.old from.new }
    ensures ok { OnOk result (IsCopiedTo limit (shown from.old) (G.device second.new)) }
    ensures err { IfErr result (NotCopiedTo (shown from.old) (F.device from.old.flash.now) (F.device from.new.flash.now) (G.device second.old) (G.device second.new)) }
{
    match Fs::mount_or_release(alloc, second) {
        Ok(to) => {
            let mut to = to;
            let copied = copy(alloc, from, &mut to, limit);
            let _left = to.into_flash();
            match copied {
                Ok(()) => Ok(()),
                Err(why) => Err(why),
            }
        }
        Err(refused) => {
            let RefusedMount { fault, flash: left } = refused;
            let _left = left;
            Err(Uncopied::Unready(fault))
        }
    }
}

/// Copies a file system to one that holds an empty tree alone, and keeps `limit` versions.
fn copy<F: Flash, G: Flash>(
    alloc: Global,
    from: &mut Fs<'_, F>,
    to: &mut Fs<'_, G>,
    limit: usize,
) -> Result<(), Uncopied>
    requires fresh { shown to.old ≡ mounted (fresh limit bare) }
    ensures same { IsUnchanged from.old from.new }
    ensures ok { OnOk result (IsCopy (shown from.old).history (shown to.new).history) }
    ensures limit { OnOk result ((shown to.new).history.limit ≡ limit) }
    ensures synced { OnOk result (IsSynced to.new) }
    ensures same_flash { flash_name to.new ≡ flash_name to.old }
    ensures err { IfErr result (NotCopied (shown from.old) (F.device from.old.flash.now) (F.device from.new.flash.now) (G.device to.new.flash.now)) }
{
    match from.log(alloc) {
        Ok(log) => copy_kept(alloc, from, to, &log, limit),
        Err(fault) => Err(Uncopied::Unread(fault)),
    }
}

/// Copies what is kept.
fn copy_kept<F: Flash, G: Flash>(
    alloc: Global,
    from: &mut Fs<'_, F>,
    to: &mut Fs<'_, G>,
    log: &Log,
    limit: usize,
) -> Result<(), Uncopied>
    // What there is.
    requires fresh { shown to.old ≡ mounted (fresh limit bare) }
    requires serials { log.now.versions ≡ kept_serials (shown from.old) }
    requires cursor { log.now.cursor ≡ (shown from.old).history.cursor }
    requires names { log.now.checkpoints ≡ kept_names (shown from.old) }

    // The copy.
    ensures same { IsUnchanged from.old from.new }
    ensures ok { OnOk result (IsCopy (shown from.old).history (shown to.new).history) }
    ensures limit { OnOk result ((shown to.new).history.limit ≡ limit) }
    ensures synced { OnOk result (IsSynced to.new) }
    ensures same_flash { flash_name to.new ≡ flash_name to.old }
    ensures err { IfErr result (NotCopied (shown from.old) (F.device from.old.flash.now) (F.device from.new.flash.now) (G.device to.new.flash.now)) }
{
    let names = log.checkpoints.as_slice();
    let cursor = log.cursor as usize;
    let versions = log.versions.as_slice();
    let first = first_kept(cursor, versions.len(), limit);
    match choose_serials(alloc, versions, first, limit) {
        Ok(serials) => {
            let chosen = serials.as_slice();
            copy_chosen(alloc, from, to, names, chosen, cursor - first)
        }
        Err(_) => Err(Uncopied::Refused(Fault::NoMemory)),
    }
}

/// Copies the checkpoints, and the versions with these serials, of which the one at a place is present.
fn copy_chosen<F: Flash, G: Flash>(
    alloc: Global,
    from: &mut Fs<'_, F>,
    to: &mut Fs<'_, G>,
    names: &[CpName],
    serials: &[u64],
    place: usize,
) -> Result<(), Uncopied>
    // What there is.
    requires fresh { shown to.old ≡ mounted (fresh (shown to.old).history.limit bare) }
    requires names { names.now ≡ kept_names (shown from.old) }
    requires serials { serials.now ≡ map (λ v. v.serial) (kept_versions (shown to.old).history.limit (shown from.old).history) }
    requires place { place ≡ (shown from.old).history.cursor - first_kept (shown to.old).history.limit (shown from.old).history }

    // The copy.
    ensures same { IsUnchanged from.old from.new }
    ensures ok { OnOk result (IsCopy (shown from.old).history (shown to.new).history) }
    ensures limit { OnOk result ((shown to.new).history.limit ≡ (shown to.old).history.limit) }
    ensures synced { OnOk result (IsSynced to.new) }
    ensures same_flash { flash_name to.new ≡ flash_name to.old }
    ensures err { IfErr result (NotCopied (shown from.old) (F.device from.old.flash.now) (F.device from.new.flash.now) (G.device to.new.flash.now)) }
{
    copy_checkpoints(alloc, from, to, names)?;
    copy_versions(alloc, from, to, names, serials)?;
    match end_copy(alloc, to, serials.len(), place) {
        Ok(()) => Ok(()),
        Err(fault) => Err(Uncopied::Refused(fault)),
    }
}

/// Copies checkpoints: a version is made of the tree of each.
fn copy_checkpoints<F: Flash, G: Flash>(
    alloc: Global,
    from: &mut Fs<'_, F>,
    to: &mut Fs<'_, G>,
    names: &[CpName],
) -> Result<(), Uncopied>
    requires ready { IsReady (shown to.old) }
    requires names { names.now ≡ kept_names (shown from.old) }
    ensures same { IsUnchanged from.old from.new }
    ensures ok { (limit : ℕ) (trees : List Tree) → Holds limit trees [] (shown to.old).history → OnOk result (Holds limit (trees ++ map (λ e. e.1) (shown from.old).history.checkpoints) (shown from.old).history.checkpoints (shown to.new).history) }
    ensures ready { OnOk result (IsReady (shown to.new)) }
    ensures same_flash { flash_name to.new ≡ flash_name to.old }
    ensures err { IfErr result (NotCopied (shown from.old) (F.device from.old.flash.now) (F.device from.new.flash.now) (G.device to.new.flash.now)) }
{
    for name in names {
        copy_checkpoint(alloc, from, to, name)?;
    }
    Ok(())
}

/// Copies a checkpoint.
fn copy_checkpoint<F: Flash, G: Flash>(
    alloc: Global,
    from: &mut Fs<'_, F>,
    to: &mut Fs<'_, G>,
    name: &CpName,
) -> Result<(), Uncopied>
    // What there is.
    requires ready { IsReady (shown to.old) }
    requires there { view_refusal (shown from.old).history (View.Checkpoint name.now) ≡ None }

    // The checkpoint.
    ensures same { IsUnchanged from.old from.new }
    ensures ok { (limit : ℕ) (trees : List Tree) (checkpoints : List (List ℕ × Tree)) → Holds limit trees checkpoints (shown to.old).history → OnOk result (Holds limit (trees ++ view_tree (shown from.old) (View.Checkpoint name.now) ∷ []) (insert_entry name_cmp checkpoints name.now (view_tree (shown from.old) (View.Checkpoint name.now))) (shown to.new).history) }
    ensures ready { OnOk result (IsReady (shown to.new)) }
    ensures same_flash { flash_name to.new ≡ flash_name to.old }
    ensures err { IfErr result (NotCopied (shown from.old) (F.device from.old.flash.now) (F.device from.new.flash.now) (G.device to.new.flash.now)) }
{
    let view = match name.clone() {
        Ok(name) => View::Checkpoint(name),
        Err(_) => return Err(Uncopied::Refused(Fault::NoMemory)),
    };
    bring(alloc, from, None, &view, to)?;
    match to.checkpoint(name) {
        Ok(()) => Ok(()),
        Err(fault) => Err(Uncopied::Refused(fault)),
    }
}

/// Copies the versions with these serials, in their order.
fn copy_versions<F: Flash, G: Flash>(
    alloc: Global,
    from: &mut Fs<'_, F>,
    to: &mut Fs<'_, G>,
    names: &[CpName],
    serials: &[u64],
) -> Result<(), Uncopied>
    // What there is.
    requires ready { IsReady (shown to.old) }
    requires names { names.now ≡ kept_names (shown from.old) }
    requires kept { (shown to.old).history.checkpoints ≡ (shown from.old).history.checkpoints }
    requires serials { All (λ serial. view_refusal (shown from.old).history (View.Serial serial) ≡ None) serials.now }

    // The versions.
    ensures same { IsUnchanged from.old from.new }
    ensures ok { (limit : ℕ) (trees : List Tree) → Holds limit trees (shown from.old).history.checkpoints (shown to.old).history → OnOk result (Holds limit (trees ++ map (λ serial. view_tree (shown from.old) (View.Serial serial)) serials.now) (shown from.old).history.checkpoints (shown to.new).history) }
    ensures ready { OnOk result (IsReady (shown to.new)) }
    ensures same_flash { flash_name to.new ≡ flash_name to.old }
    ensures err { IfErr result (NotCopied (shown from.old) (F.device from.old.flash.now) (F.device from.new.flash.now) (G.device to.new.flash.now)) }
{
    let mut last = None;
    for serial in serials {
        copy_version(alloc, from, to, names, last, *serial)?;
        last = Some(*serial);
    }
    Ok(())
}

/// Copies a version: where a checkpoint has its root, that of the copy is rolled back to, which writes nothing.
/// Else by what differs from the version that was copied last, if any was.
fn copy_version<F: Flash, G: Flash>(
    alloc: Global,
    from: &mut Fs<'_, F>,
    to: &mut Fs<'_, G>,
    names: &[CpName],
    last: Option<u64>,
    serial: u64,
) -> Result<(), Uncopied>
    // What there is.
    requires ready { IsReadyAfter (shown from.old) last (shown to.old) }
    requires there { view_refusal (shown from.old).history (View.Serial serial) ≡ None }
    requires names { names.now ≡ kept_names (shown from.old) }
    requires kept { (shown to.old).history.checkpoints ≡ (shown from.old).history.checkpoints }

    // The version.
    ensures same { IsUnchanged from.old from.new }
    ensures ok { (limit : ℕ) (trees : List Tree) → Holds limit trees (shown from.old).history.checkpoints (shown to.old).history → OnOk result (Holds limit (trees ++ view_tree (shown from.old) (View.Serial serial) ∷ []) (shown from.old).history.checkpoints (shown to.new).history) }
    ensures ready { OnOk result (IsReadyAfter (shown from.old) (Some serial) (shown to.new)) }
    ensures kept { OnOk result ((shown to.new).history.checkpoints ≡ (shown from.old).history.checkpoints) }
    ensures shared { (name : List ℕ) → Contains names.now name → ShowRoots from.old.system.state (View.Checkpoint name) (View.Serial serial) true → OnOk result (G.device to.new.flash.now ≡ G.device to.old.flash.now) }
    ensures same_flash { flash_name to.new ≡ flash_name to.old }
    ensures err { IfErr result (NotCopied (shown from.old) (F.device from.old.flash.now) (F.device from.new.flash.now) (G.device to.new.flash.now)) }
{
    match shared_checkpoint(from, names, serial) {
        Ok(Some(name)) => match to.rollback(alloc, name) {
            Ok(()) => Ok(()),
            Err(fault) => Err(Uncopied::Refused(fault)),
        },
        Ok(None) => bring(alloc, from, last, &View::Serial(serial), to),
        Err(fault) => Err(Uncopied::Unread(fault)),
    }
}

/// The first of these checkpoints that has the root of a version, if any has.
fn shared_checkpoint<'a, F: Flash>(
    from: &Fs<'_, F>,
    names: &'a [CpName],
    serial: u64,
) -> Result<Option<&'a CpName>, Fault>
    requires names { names.now ≡ kept_names (shown from.now) }
    requires there { view_refusal (shown from.now).history (View.Serial serial) ≡ None }
    ensures ok { IfOk result (λ found. IfSome found (λ name. IsShared (shown from.now) serial name.now)) }
    ensures none { IfOk result (λ found. IfNone found (All (λ name. ShowRoots from.now.system.state (View.Checkpoint name) (View.Serial serial) false) names.now)) }
    ensures err { IfErr result (Meets (F.device from.now.flash.now) (F.device from.now.flash.now)) }
{
    for name in names {
        if from.show_same_root(&View::Checkpoint(name.clone()?), &View::Serial(serial))? {
            return Ok(Some(name));
        }
    }
    Ok(None)
}
