//! A part in memory.
ghost use Rattle.std.specs.Prelude.{◌≡◌, ◌≤◌, ◌+◌, IfOk};

use host_interface::Backing;
use std::io;
use std::io::ErrorKind;

/// The bytes of a part, in memory.
#[derive(Drop)]
pub(crate) struct FlatPart {
    pub(crate) bytes: Vec<u8>,
}

/// Where bytes of a count from a place on begin, where these are so many bytes.
fn place_in(length: usize, place: u64, count: usize) -> io::Result<usize>
    ensures { IfOk result (λ from. (from ≡ place) × (from + count ≤ length)) }
{
    let from = place as usize;
    if from <= length && count <= length - from {
        Ok(from)
    } else {
        Err(io::Error::from(ErrorKind::UnexpectedEof))
    }
}

impl Backing for FlatPart {
    ghost use Rattle.std.specs.Prelude.{None, Some};

    ghost held = { λ part. Some part.bytes.items };

    ghost steps = { λ _. None };

    fn read_at(&mut self, place: u64, buffer: &mut [u8]) -> io::Result<()> {
        let from = place_in(self.bytes.len(), place, buffer.len())?;
        let all: &[u8] = &self.bytes;
        buffer.copy_from_slice(&all[from..from + buffer.len()]);
        Ok(())
    }

    fn write_at(&mut self, place: u64, bytes: &[u8]) -> io::Result<()> {
        let from = place_in(self.bytes.len(), place, bytes.len())?;
        let all: &mut [u8] = &mut self.bytes;
        all[from..from + bytes.len()].copy_from_slice(bytes);
        Ok(())
    }

    fn barrier(&mut self) -> io::Result<()> {
        Ok(())
    }
}
