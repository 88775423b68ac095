//! The calls that give a file its bytes, whole or piece by piece.
ghost use Rattle.std.specs.Prelude.{◌≡◌, ◌++◌, ◌∷◌, [], ◌*◌, ◌≤◌, OnOk, length, take, drop};
ghost use Rattle.tree_differences.specs.Updates.{writing, pieces_of, piece};
ghost use Rattle.tree_differences.specs.declared.laws_of_updates.TheConstants.{PIECE_BYTES};

use bitflags::Flags;
use fs_types::{Bytes, Call, OpenFlags, Path};
use std::alloc::AllocError;
use tree_differences::PIECE_BYTES;

/// The flags by which a file is opened anew: for writing, made where it is missing, and cut.
const ANEW: u64 = 22;

/// So many bytes of a file are in a call at most.
pub(crate) const MOST_BYTES: usize = PIECE_BYTES as usize;

/// Adds the calls that give a file these bytes: one, or where it has over [`PIECE_BYTES`] one for each
/// piece of so many, with those that open and close it.
pub(crate) fn add_writing(
    calls: &mut Vec<Call>,
    path: &Path,
    bytes: Bytes,
) -> Result<(), AllocError>
    ensures { OnOk result (calls.new.items ≡ calls.old.items ++ writing path.now bytes) }
{
    if bytes.as_slice().len() <= MOST_BYTES {
        let path = path.clone()?;
        calls.push(Call::WriteFile { path, bytes })?;
        Ok(())
    } else {
        add_pieces(calls, path, bytes.as_slice())
    }
}

/// Adds the calls that open a file anew, write its bytes piece by piece, and close it.
fn add_pieces(calls: &mut Vec<Call>, path: &Path, bytes: &[u8]) -> Result<(), AllocError>
    ensures { OnOk result (calls.new.items ≡ calls.old.items ++ pieces_of path.now bytes.now) }
{
    let path = path.clone()?;
    let flags = OpenFlags::from_bits_retain(ANEW);
    calls.push(Call::Open { path, flags })?;
    let count = bytes.len().div_ceil(MOST_BYTES);
    for at in 0..count {
        add_piece(calls, bytes, at)?;
    }
    calls.push(Call::Close { descriptor: 0 })?;
    Ok(())
}

/// Adds the call that writes a piece of a file.
pub(crate) fn add_piece(calls: &mut Vec<Call>, bytes: &[u8], at: usize) -> Result<(), AllocError>
    requires { at * PIECE_BYTES ≤ length bytes.now }
    ensures { OnOk result (calls.new.items ≡ calls.old.items ++ piece bytes.now at ∷ []) }
{
    let start = at * MOST_BYTES;
    let bytes = Bytes::from_slice(*calls.allocator(), piece_from(bytes, start))?;
    calls.push(Call::Pwrite {
        descriptor: 0,
        offset: start as u64,
        bytes,
    })?;
    Ok(())
}

/// The piece of bytes from a place on.
fn piece_from(bytes: &[u8], start: usize) -> &[u8]
    requires { start ≤ length bytes.now }
    ensures { result.now ≡ take PIECE_BYTES (drop start bytes.now) }
{
    first_piece(&bytes[start..])
}

/// The first piece of bytes.
fn first_piece(bytes: &[u8]) -> &[u8]
    ensures { result.now ≡ take PIECE_BYTES bytes.now }
{
    if bytes.len() > MOST_BYTES {
        &bytes[..MOST_BYTES]
    } else {
        bytes
    }
}
