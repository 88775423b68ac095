//! A file of the host that is written in place.
use file_replacement::Claim;
use host_interface::Backing;
use std::alloc::Global;
use std::fs::File;
use std::io;
use std::io::ErrorKind;
use std::os::unix::fs::FileExt;
use std::rt::Files;

/// A file of the host that is open in place, and claimed until this is dropped.
#[derive(Drop)]
pub struct HostPart {
    claim: Claim,
}

impl HostPart {
    /// Claims a name, whose file may be written, if there is one.
    pub(super) fn open<R: Files<File = File>>(
        rt: &R,
        alloc: Global,
        name: &str,
    ) -> io::Result<HostPart> {
        let claim = Claim::of(rt, alloc, name)?;
        claim.refuse_unwritable()?;
        Ok(HostPart { claim })
    }

    fn file(&self) -> io::Result<&File> {
        match self.claim.file() {
            Some(file) => Ok(file),
            None => Err(io::Error::from(ErrorKind::NotFound)),
        }
    }
}

impl Backing for HostPart {
    ghost use Rattle.std.specs.Prelude.{None};

    ghost held = { λ _. None };

    ghost steps = { λ _. None };

    fn read_at(&mut self, place: u64, buffer: &mut [u8]) -> io::Result<()> {
        self.file()?.read_exact_at(buffer, place)
    }

    fn write_at(&mut self, place: u64, bytes: &[u8]) -> io::Result<()> {
        self.file()?.write_all_at(bytes, place)
    }

    fn barrier(&mut self) -> io::Result<()> {
        self.file()?.sync_data()
    }
}
