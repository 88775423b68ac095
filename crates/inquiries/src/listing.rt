//! All that stands in the present tree of a flash.
ghost use Rattle.std.specs.Prelude.{◌≡◌, ℕ, IfOk, IfErr};
ghost use Rattle.fs_types.specs.declared.call.View.{View};
ghost use Rattle.inquiries.specs.Asked.{Lists, AskCause};
ghost use Rattle.inquiries.specs.declared.inquiry.Inquiry.{Inquiry};

use crate::asking::AskFault;
use crate::inquiry::few_items;
use crate::items::Item;
use crate::tell_fault::TellFault;
use flash_model::Flash;
use fs_types::View;
use std::alloc::Global;
use undofs::{Fs, RefusedMount};

/// Mounts what the newest record of a flash holds, and lists all that stands in its present tree below
/// the root: a directory before what stands in it, and names in byte order. The flash is only read: no
/// page of it changes, whatever is answered. Refused as [`Inquiry::Tree`](crate::Inquiry::Tree) is.
pub fn list<F: Flash>(alloc: Global, flash: &mut F) -> Result<Vec<Item>, AskFault>
    ensures ok { IfOk result (λ items. Lists (F.device flash.old) items.items) }
    ensures pages { (p : ℕ) → (F.device flash.new).pages p ≡ (F.device flash.old).pages p }
    ensures err { IfErr result (AskCause (F.device flash.old) (Inquiry.Tree View.Present) (F.device flash.new)) }
{
    match Fs::mount_or_release(alloc, flash) {
        Ok(fs) => {
            let mut fs = fs;
            let found = few_items(alloc, &mut fs, &View::Present);
            let _left = fs.into_flash();
            match found {
                Ok(items) => Ok(items),
                Err(fault) => match fault {
                    TellFault::Refused(refusal) => Err(AskFault::Refused(refusal)),
                    TellFault::TooManyLines => Err(AskFault::TooManyLines),
                },
            }
        }
        Err(refused) => {
            let RefusedMount { fault, flash: left } = refused;
            let _left = left;
            Err(AskFault::Unmounted(fault))
        }
    }
}
