//! A version that is made of a tree of another file system.
ghost use Rattle.std.specs.Prelude.{◌≡◌, ◌≢◌, None, OnOk, IfErr, [], ◌∷◌};
ghost use Rattle.fs_types.specs.declared.fault.Fault.{Fault};
ghost use Rattle.fs_types.specs.Names.{Path};
ghost use Rattle.fs_types.specs.declared.call.Call.{Call};
ghost use Rattle.history_machine.specs.History.{changed, view_refusal};
ghost use Rattle.history_machine.specs.Machine.{mounted, view_tree};
ghost use Rattle.inquiries.specs.Readings.{shown, IsUnchanged};
ghost use Rattle.history_copies.specs.Laws.{bringing, changes_or};
ghost use Rattle.undofs.specs.Systems.{flash_name};
ghost use Rattle.copies.specs.Calls.{Does, IsReady, IsReadyAfter, Stops};
ghost use Rattle.copies.specs.Causes.{NotCopied};

use crate::moving::bring_next;
use crate::uncopied::{Uncopied, of_untold};
use flash_model::Flash;
use fs_types::{Call, Fault, MAX_ENTRIES, Path, View};
use script::print_number;
use std::alloc::Global;
use undofs::Fs;
use updates::{Manner, list_changes};

/// Makes a version of the tree of a view of one file system in another one, in which no change group and no
/// file is open, and syncs it. Where that one has the tree of a version, only what differs from it is looked at.
pub(crate) fn bring<F: Flash, G: Flash>(
    alloc: Global,
    from: &mut Fs<'_, F>,
    last: Option<u64>,
    view: &View,
    to: &mut Fs<'_, G>,
) -> Result<(), Uncopied>
    requires view { view_refusal (shown from.old).history view.now ≡ None }
    requires ready { IsReadyAfter (shown from.old) last (shown to.old) }
    ensures same { IsUnchanged from.old from.new }
    ensures ok { OnOk result (shown to.new ≡ mounted (changed (shown to.old).history (view_tree (shown from.old) view.now))) }
    ensures ready { OnOk result (IsReady (shown to.new)) }
    ensures same_flash { flash_name to.new ≡ flash_name to.old }
    ensures err { IfErr result (NotCopied (shown from.old) (F.device from.old.flash.now) (F.device from.new.flash.now) (G.device to.new.flash.now)) }
{
    match last {
        Some(serial) => bring_next(alloc, from, &View::Serial(serial), view, to),
        None => bring_first(alloc, from, view, to),
    }
}

/// The same, whatever tree the other one has: path by path.
fn bring_first<F: Flash, G: Flash>(
    alloc: Global,
    from: &mut Fs<'_, F>,
    view: &View,
    to: &mut Fs<'_, G>,
) -> Result<(), Uncopied>
    requires view { view_refusal (shown from.old).history view.now ≡ None }
    requires ready { IsReady (shown to.old) }
    ensures same { IsUnchanged from.old from.new }
    ensures ok { OnOk result (shown to.new ≡ mounted (changed (shown to.old).history (view_tree (shown from.old) view.now))) }
    ensures ready { OnOk result (IsReady (shown to.new)) }
    ensures same_flash { flash_name to.new ≡ flash_name to.old }
    ensures err { IfErr result (NotCopied (shown from.old) (F.device from.old.flash.now) (F.device from.new.flash.now) (G.device to.new.flash.now)) }
{
    let changes = match list_changes(alloc, to, from, view, Manner::Edited) {
        Ok(changes) => changes,
        Err(fault) => return Err(of_untold(fault)),
    };
    match make_version(alloc, to, &changes) {
        Ok(()) => Ok(()),
        Err(fault) => Err(Uncopied::Refused(fault)),
    }
}

/// Carries out changes in one change group, and syncs the version that they make: one of the same tree, where
/// there are none.
pub(crate) fn make_version<G: Flash>(
    alloc: Global,
    to: &mut Fs<'_, G>,
    changes: &[Call],
) -> Result<(), Fault>
    ensures ok { OnOk result ((path : Path) × Does (shown to.old) (bringing changes.now path) (shown to.new)) }
    ensures same_flash { flash_name to.new ≡ flash_name to.old }
    ensures err { IfErr result (λ fault. (path : Path) × Stops (shown to.old) (bringing changes.now path) (G.device to.new.flash.now) fault) }
{
    to.begin()?;
    carry_out_or_touch(alloc, to, changes)?;
    to.end()?;
    to.sync(alloc)
}

/// Carries out changes; where there are none, makes a directory and removes it.
pub(crate) fn carry_out_or_touch<G: Flash>(
    alloc: Global,
    to: &mut Fs<'_, G>,
    changes: &[Call],
) -> Result<(), Fault>
    ensures ok { OnOk result ((path : Path) × Does (shown to.old) (changes_or changes.now path) (shown to.new)) }
    ensures same_flash { flash_name to.new ≡ flash_name to.old }
    ensures err { IfErr result (λ fault. (path : Path) × Stops (shown to.old) (changes_or changes.now path) (G.device to.new.flash.now) fault) }
{
    match changes {
        [] => touch(alloc, to),
        _ => carry_out(alloc, to, changes),
    }
}

/// Carries out calls, one after the other.
pub(crate) fn carry_out<G: Flash>(
    alloc: Global,
    to: &mut Fs<'_, G>,
    calls: &[Call],
) -> Result<(), Fault>
    ensures ok { OnOk result (Does (shown to.old) calls.now (shown to.new)) }
    ensures same_flash { flash_name to.new ≡ flash_name to.old }
    ensures err { IfErr result (Stops (shown to.old) calls.now (G.device to.new.flash.now)) }
{
    for call in calls {
        let _reply = to.call(alloc, call)?;
    }
    Ok(())
}

/// Makes a directory in the root under the first number that is no name there, and removes it. There are more
/// numbers than a directory has entries, so that one of them is none.
fn touch<G: Flash>(alloc: Global, to: &mut Fs<'_, G>) -> Result<(), Fault>
    ensures ok { OnOk result ((path : Path) × Does (shown to.old) (Call.Mkdir path ∷ Call.Rmdir path ∷ []) (shown to.new)) }
    ensures same_flash { flash_name to.new ≡ flash_name to.old }
    ensures err { IfErr result (λ fault. (path : Path) × Stops (shown to.old) (Call.Mkdir path ∷ Call.Rmdir path ∷ []) (G.device to.new.flash.now) fault) }
    ensures finds { IfErr result (λ fault. fault ≢ Fault.Exists) }
{
    for number in 0..MAX_ENTRIES as u64 + 1 {
        let path = numbered(alloc, number)?;
        match to.mkdir(alloc, &path) {
            Ok(()) => return to.rmdir(alloc, &path),
            Err(Fault::Exists) => {}
            Err(fault) => return Err(fault),
        }
    }
    Err(Fault::NoMemory)
}

/// The path of a number in the root.
fn numbered(alloc: Global, number: u64) -> Result<Path, Fault>
    ensures { IfErr result (λ fault. fault ≡ Fault.NoMemory) }
{
    let mut text = Vec::new(alloc);
    text.push(b'/')?;
    print_number(&mut text, number)?;
    match Path::parse(alloc, &text) {
        Ok(path) => Ok(path),
        Err(_) => Err(Fault::NoMemory),
    }
}
