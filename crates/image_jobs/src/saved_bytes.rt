//! Bytes that become a file, beside others that have to stay.
ghost use Rattle.std.specs.Prelude.{◌≡◌, ◌⊎◌, false, OnOk, IfErr, IfSome};
ghost use Rattle.host_interface.specs.Files.{KeepsOthers, takes_away};
ghost use Rattle.image_jobs.specs.Images.{IsUnclaimed, Unsaved};

use crate::failure::Failure;
use crate::image_bytes::{claim, write_image};
use host_interface::{FileFault, ImageFiles, takes_away};
use std::alloc::Global;

/// Refused where to replace the file of a name takes the one of another name away.
pub fn spare<F: ImageFiles>(
    files: &F,
    alloc: Global,
    name: &str,
    other: &str,
) -> Result<(), Failure>
    ensures ok { OnOk result (takes_away name.now other.now ≡ false) }
    ensures err { IfErr result IsUnclaimed }
{
    match takes_away(alloc, name, other) {
        Ok(false) => {}
        Ok(true) => return Err(Failure::Unavailable),
        Err(_) => return Err(Failure::Memory),
    }
    match files.takes_away(alloc, name, other) {
        Ok(false) => Ok(()),
        Err(FileFault::Memory) => Err(Failure::Memory),
        _ => Err(Failure::Unavailable),
    }
}

/// Puts a file of these bytes in the place of what has a name, which is claimed first.
pub fn save_bytes<F: ImageFiles>(
    files: &mut F,
    alloc: Global,
    name: &str,
    bytes: &[u8],
) -> Result<(), Failure>
    ensures ok { OnOk result (IfSome (F.held files.new name.now) (λ all. all ≡ bytes.now)) }
    ensures synced { OnOk result (F.synced files.new name.now) }
    ensures err { IfErr result (λ failure. (IsUnclaimed failure × (F.held files.new ≡ F.held files.old)) ⊎ Unsaved (F.held files.old name.now) (F.held files.new name.now) bytes.now failure) }
    ensures others { KeepsOthers name.now (F.held files.old) (F.held files.new) }
{
    match claim(files, alloc, name) {
        Ok(()) => write_image(files, alloc, name, bytes),
        Err(failure) => Err(failure),
    }
}
