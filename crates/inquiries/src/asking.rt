//! What is asked of a flash.
ghost use Rattle.std.specs.Prelude.{◌≡◌, ℕ, IfOk, IfErr};
ghost use Rattle.inquiries.specs.Asked.{Tells, AskCause};
ghost use Rattle.inquiries.specs.declared.inquiry.Inquiry.{Inquiry};

use crate::inquiry::{Inquiry, is_of_versions, tell};
use crate::tell_fault::TellFault;
use crate::versions::tell_versions;
use flash_model::Flash;
use fs_types::{Bytes, Fault};
use std::alloc::Global;
use system::mount;
use thiserror::Error;
use undofs::{Fs, RefusedMount};

/// Why what is asked of a flash is not told.
#[derive(Clone, Copy, Debug, PartialEq, Eq, Error)]
pub enum AskFault {
    /// No system is mounted.
    #[error("not mounted: {0}")]
    Unmounted(Fault),
    /// What is asked is refused.
    #[error("refused: {0}")]
    Refused(Fault),
    /// Too many lines would be told.
    #[error("too many lines")]
    TooManyLines,
}

/// Mounts what the newest record of a flash holds, and tells what is asked of it. The flash is only read:
/// no page of it changes, whatever is answered.
///
/// [`AskFault::Unmounted`] as a mount is refused. [`AskFault::Refused`] as the calls are that it takes: for
/// a view, of two the first one before the other, for a path that is looked up, and for a directory in place
/// of a file; [`Inquiry::History`] with [`Fault::NoEntry`] where nothing stands at the path in any version or
/// checkpoint; [`Inquiry::Versions`] as [`Fs::df`]. Else [`Fault::ReadFailed`], [`Fault::PowerCut`] and
/// [`Fault::NoMemory`] may come.
///
/// [`AskFault::TooManyLines`] for [`Inquiry::Tree`] where its answer would have over
/// [`MAX_LINES`](crate::MAX_LINES) lines; for [`Inquiry::Differences`] where two trees of different roots have
/// more entries together; for [`Inquiry::History`] where the trees have in which a directory stands at the
/// path. That is counted by node before a tree is walked. For [`Inquiry::Tree`] also where the paths of the
/// tree have over [`MAX_PATH_BYTES`](crate::MAX_PATH_BYTES), or over [`MAX_OWNERS`](crate::MAX_OWNERS) of these
/// are directories and files with bytes, which is counted before one of them is kept. For the other two where a
/// tree of these has more than [`list_folder`](crate::list_folder) lists. So the work in each tree is bounded
/// whatever the flash holds.
pub fn ask<F: Flash>(alloc: Global, flash: &mut F, inquiry: &Inquiry) -> Result<Bytes, AskFault>
    ensures ok { IfOk result (Tells (F.device flash.old) inquiry.now) }
    ensures pages { (p : ℕ) → (F.device flash.new).pages p ≡ (F.device flash.old).pages p }
    ensures err { IfErr result (AskCause (F.device flash.old) inquiry.now (F.device flash.new)) }
{
    if is_of_versions(inquiry) {
        return ask_versions(alloc, flash);
    }
    match Fs::mount_or_release(alloc, flash) {
        Ok(fs) => {
            let mut fs = fs;
            let told = tell(alloc, &mut fs, inquiry);
            let _left = fs.into_flash();
            match told {
                Ok(bytes) => Ok(bytes),
                Err(fault) => match fault {
                    TellFault::Refused(refusal) => Err(AskFault::Refused(refusal)),
                    TellFault::TooManyLines => Err(AskFault::TooManyLines),
                },
            }
        }
        Err(refused) => {
            let RefusedMount { fault, flash: left } = refused;
            let _left = left;
            Err(AskFault::Unmounted(fault))
        }
    }
}

/// The same, of the versions and checkpoints.
fn ask_versions<F: Flash>(alloc: Global, flash: &mut F) -> Result<Bytes, AskFault>
    ensures ok { IfOk result (Tells (F.device flash.old) Inquiry.Versions) }
    ensures pages { (p : ℕ) → (F.device flash.new).pages p ≡ (F.device flash.old).pages p }
    ensures err { IfErr result (AskCause (F.device flash.old) Inquiry.Versions (F.device flash.new)) }
{
    let mut system = match mount(alloc, flash) {
        Ok(system) => system,
        Err(fault) => return Err(AskFault::Unmounted(fault)),
    };
    match tell_versions(alloc, flash, &mut system) {
        Ok(bytes) => Ok(bytes),
        Err(fault) => Err(AskFault::Refused(fault)),
    }
}
