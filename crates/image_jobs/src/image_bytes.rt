//! The bytes of an image, claimed, read and written.
ghost use Rattle.std.specs.Prelude.{◌≡◌, ◌⊎◌, IfOk, OnOk, IfErr, IfSome};
ghost use Rattle.host_interface.specs.Files.{KeepsOthers, AreBytesRead};
ghost use Rattle.image_jobs.specs.Images.{IsUnclaimed, IsUnread, Unsaved};

use crate::failure::Failure;
use host_interface::{FileFault, ImageFiles};
use std::alloc::Global;

/// Claims a name for reading and writing together.
pub fn claim<F: ImageFiles>(files: &mut F, alloc: Global, name: &str) -> Result<(), Failure>
    ensures ok { OnOk result (F.claims files.new name.now) }
    ensures why { IfErr result IsUnclaimed }
    ensures same { F.held files.new ≡ F.held files.old }
{
    match files.claim(alloc, name) {
        Ok(()) => Ok(()),
        Err(FileFault::Memory) => Err(Failure::Memory),
        Err(_) => Err(Failure::Unavailable),
    }
}

/// Claims a name, and gives the bytes that the file has then.
pub fn take_image<F: ImageFiles>(
    files: &mut F,
    alloc: Global,
    name: &str,
) -> Result<Vec<u8>, Failure>
    ensures claimed { OnOk result (F.claims files.new name.now) }
    ensures ok { IfOk result (λ bytes. AreBytesRead (F.held files.new name.now) bytes.items) }
    ensures now { IfOk result (λ bytes. F.reads files.new name.now bytes.items) }
    ensures why { IfErr result (λ failure. IsUnclaimed failure ⊎ IsUnread (F.held files.new name.now) failure) }
    ensures same { F.held files.new ≡ F.held files.old }
{
    match claim(files, alloc, name) {
        Ok(()) => read_image(files, alloc, name),
        Err(failure) => Err(failure),
    }
}

/// The bytes of an image.
pub(crate) fn read_image<F: ImageFiles>(
    files: &F,
    alloc: Global,
    name: &str,
) -> Result<Vec<u8>, Failure>
    ensures ok { IfOk result (λ bytes. AreBytesRead (F.held files.now name.now) bytes.items) }
    ensures err { IfErr result (IsUnread (F.held files.now name.now)) }
    ensures now { IfOk result (λ bytes. F.reads files.now name.now bytes.items) }
{
    match files.read(alloc, name) {
        Ok(bytes) => Ok(bytes),
        Err(FileFault::Memory) => Err(Failure::Memory),
        Err(_) => Err(Failure::CannotRead),
    }
}

/// Puts a file of these bytes in the place of what has a claimed name.
pub fn write_image<F: ImageFiles>(
    files: &mut F,
    alloc: Global,
    name: &str,
    image: &[u8],
) -> Result<(), Failure>
    requires { F.claims files.old name.now }
    ensures ok { OnOk result (IfSome (F.held files.new name.now) (λ all. all ≡ image.now)) }
    ensures synced { OnOk result (F.synced files.new name.now) }
    ensures err { IfErr result (Unsaved (F.held files.old name.now) (F.held files.new name.now) image.now) }
    ensures others { KeepsOthers name.now (F.held files.old) (F.held files.new) }
{
    match files.replace(alloc, name, image) {
        Ok(()) => Ok(()),
        Err(FileFault::Memory) => Err(Failure::Memory),
        Err(FileFault::Unsynced) => Err(Failure::Unsynced),
        Err(FileFault::Failed) => Err(Failure::CannotWrite),
    }
}
