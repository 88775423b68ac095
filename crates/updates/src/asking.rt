//! An update is asked of two flashes.
ghost use Rattle.std.specs.Prelude.{◌≡◌, ℕ, IfOk, IfErr};
ghost use Rattle.inquiries.specs.Readings.{shown, IsUnchanged};
ghost use Rattle.updates.specs.Asked.{TellsUpdate, TellsSecond, SecondCause, UpdateCause};

use crate::manner::Manner;
use crate::update_scripts::tell_update;
use flash_model::Flash;
use fs_types::Bytes;
use inquiries::{AskFault, TellFault};
use std::alloc::Global;
use undofs::{Fs, RefusedMount};

/// Mounts what the newest records of two flashes hold, and tells what brings the present tree of the first
/// to that of the second, files of both in this manner ([`tell_update`]). Both are only read: no page of them
/// changes.
pub fn ask_update<F: Flash, G: Flash>(
    alloc: Global,
    first: &mut F,
    second: &mut G,
    manner: Manner,
) -> Result<Bytes, AskFault>
    ensures ok { IfOk result (TellsUpdate manner (F.device first.old) (G.device second.old)) }
    ensures first { (p : ℕ) → (F.device first.new).pages p ≡ (F.device first.old).pages p }
    ensures second { (p : ℕ) → (G.device second.new).pages p ≡ (G.device second.old).pages p }
    ensures err { IfErr result (UpdateCause (F.device first.old) (G.device second.old) (F.device first.new) (G.device second.new)) }
{
    match Fs::mount_or_release(alloc, first) {
        Ok(fs) => {
            let mut fs = fs;
            let told = ask_second(alloc, &mut fs, second, manner);
            // The borrow ends here, with the flash as it was left.
            let _left = fs.into_flash();
            told
        }
        Err(refused) => {
            let RefusedMount { fault, flash: left } = refused;
            let _left = left;
            Err(AskFault::Unmounted(fault))
        }
    }
}

/// Mounts what the newest record of the second flash holds, and tells the update.
fn ask_second<F: Flash, G: Flash>(
    alloc: Global,
    first: &mut Fs<'_, F>,
    second: &mut G,
    manner: Manner,
) -> Result<Bytes, AskFault>
    ensures first { IsUnchanged first.old first.new }
    ensures ok { IfOk result (TellsSecond manner (shown first.old) (G.device second.old)) }
    ensures second { (p : ℕ) → (G.device second.new).pages p ≡ (G.device second.old).pages p }
    ensures err { IfErr result (SecondCause (shown first.old) (F.device first.old.flash.now) (F.device first.new.flash.now) (G.device second.old) (G.device second.new)) }
{
    match Fs::mount_or_release(alloc, second) {
        Ok(fs) => {
            let mut fs = fs;
            let told = tell_update(alloc, first, &mut fs, manner);
            let _left = fs.into_flash();
            match told {
                Ok(bytes) => Ok(bytes),
                Err(fault) => match fault {
                    TellFault::Refused(refusal) => Err(AskFault::Refused(refusal)),
                    TellFault::TooManyLines => Err(AskFault::TooManyLines),
                },
            }
        }
        Err(refused) => {
            let RefusedMount { fault, flash: left } = refused;
            let _left = left;
            Err(AskFault::Unmounted(fault))
        }
    }
}
