//! The bytes of the input.
ghost use Rattle.std.specs.Prelude.{◌≡◌, ◌≢◌, ◌≤◌, ◌<◌, ℕ, List, [], length, take, vec_len, IfOk, IfErr, OnOk};
ghost use Rattle.std.specs.IoError.{error_kind};
ghost use Rattle.std.specs.Io.KnownBytes.{Consumes, IsAtEnd};
ghost use Rattle.put_jobs.specs.Inputs.{IsWholeInput, IsUnreadInput};

use image_jobs::{Failure, SourceFault};
use std::alloc::Global;
use std::io;
use std::io::{ErrorKind, Read};

/// So many bytes are read at a time.
const CHUNK: usize = 4096;

/// All bytes of the input, where it has no more than so many. Of a longer one no more is read than tells
/// that it is.
pub fn read_input<R: Read>(alloc: Global, reader: &mut R, most: usize) -> Result<Vec<u8>, Failure>
    ensures ok { IfOk result (λ bytes. IsWholeInput (R.remaining reader.old) bytes.items (R.remaining reader.new)) }
    ensures short { IfOk result (λ bytes. vec_len bytes ≤ most) }
    ensures err { IfErr result (IsUnreadInput most (R.remaining reader.old) (R.remaining reader.new)) }
{
    let mut bytes = Vec::new(alloc);
    let mut chunk = [0; CHUNK];
    loop {
        let count = match read_some(reader, &mut chunk) {
            Ok(0) => return Ok(bytes),
            Ok(count) => count,
            Err(_) => return Err(Failure::Input),
        };
        match bytes.extend_from_slice(&chunk[..count]) {
            Ok(()) => {}
            Err(_) => return Err(Failure::Memory),
        }
        if bytes.len() > most {
            return Err(Failure::Source(SourceFault::TooBig));
        }
    }
}

/// Reads some bytes, none at the end alone, and tries again where a signal interrupts.
fn read_some<R: Read>(reader: &mut R, chunk: &mut [u8]) -> io::Result<usize>
    requires { 0 < length chunk.old }
    ensures bound { IfOk result (λ count. count ≤ length chunk.new) }
    ensures ok { IfOk result (λ count. Consumes (R.remaining reader.old) (R.remaining reader.new) (take count chunk.new)) }
    ensures end { IfOk result (λ count. count ≡ 0 → IsAtEnd (R.remaining reader.new)) }
    ensures err { IfErr result (λ _. Consumes (R.remaining reader.old) (R.remaining reader.new) []) }
    ensures again { IfErr result (λ e. error_kind e ≢ ErrorKind.Interrupted) }
{
    for _ in 0..u64::MAX {
        match reader.read(chunk) {
            Ok(count) => return Ok(count),
            Err(error) => {
                if error.kind() != ErrorKind::Interrupted {
                    return Err(error);
                }
            }
        }
    }
    Err(io::Error::from(ErrorKind::Other))
}
