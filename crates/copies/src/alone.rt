//! A tree that is made on a flash alone.
ghost use Rattle.std.specs.Prelude.{◌≡◌, ◌∷◌, ℕ, [], OnOk, IfErr};
ghost use Rattle.plain_trees.specs.Trees.{Tree, bare};
ghost use Rattle.history_machine.specs.History.{fresh};
ghost use Rattle.history_machine.specs.Machine.{mounted};
ghost use Rattle.inquiries.specs.Readings.{shown};
ghost use Rattle.mounting.specs.Formats.{IsFormatted};
ghost use Rattle.tree_differences.specs.UpdateLaws.{Brings};
ghost use Rattle.undofs.specs.Systems.{flash_name};
ghost use Rattle.copies.specs.Added.{AloneCause, HoldsAlone, StopsMaking};
ghost use Rattle.copies.specs.Calls.{IsSynced};
ghost use Rattle.copies.specs.Copied.{HasTrees};

use crate::bringing::make_version;
use crate::ending::end_copy;
use crate::uncopied::Uncopied;
use flash_model::Flash;
use fs_types::{Call, Fault};
use std::alloc::Global;
use undofs::{Fs, RefusedMount};

/// Makes a version of the tree that calls make of one that has nothing but a root, on a flash on which a
/// format left an empty file system, and forgets the empty one. It is synced.
pub fn make_alone<G: Flash>(alloc: Global, flash: &mut G, calls: &[Call]) -> Result<(), Uncopied>
    requires formatted { (limit : ℕ) × IsFormatted limit (G.device flash.old) }
    requires brings { (t : Tree) × Brings bare t calls.now }
    ensures ok { (limit : ℕ) (t : Tree) → IsFormatted limit (G.device flash.old) → Brings bare t calls.now → OnOk result (HoldsAlone limit t (G.device flash.new)) }
    ensures err { IfErr result (AloneCause calls.now (G.device flash.old) (G.device flash.new)) }
{
    match Fs::mount_or_release(alloc, flash) {
        Ok(to) => {
            let mut to = to;
            let made = make_only(alloc, &mut to, calls);
            // The borrow ends here, with the flash as it was left.
            let _left = to.into_flash();
            match made {
                Ok(()) => Ok(()),
                Err(fault) => Err(Uncopied::Refused(fault)),
            }
        }
        Err(refused) => {
            let RefusedMount { fault, flash: left } = refused;
            let _left = left;
            Err(Uncopied::Unready(fault))
        }
    }
}

/// Makes it in a file system that holds an empty tree alone.
fn make_only<G: Flash>(alloc: Global, to: &mut Fs<'_, G>, calls: &[Call]) -> Result<(), Fault>
    requires fresh { shown to.old ≡ mounted (fresh (shown to.old).history.limit bare) }
    requires brings { (t : Tree) × Brings bare t calls.now }
    ensures ok { (t : Tree) → Brings bare t calls.now → OnOk result (HasTrees (shown to.old).history.limit (t ∷ []) 0 [] (shown to.new).history) }
    ensures synced { OnOk result (IsSynced to.new) }
    ensures same_flash { flash_name to.new ≡ flash_name to.old }
    ensures err { IfErr result (StopsMaking (shown to.old) calls.now (G.device to.new.flash.now)) }
{
    make_version(alloc, to, calls)?;
    end_copy(alloc, to, 1, 0)
}
