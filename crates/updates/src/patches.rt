//! The calls that write of a file only what differs, in no call more than a piece.
ghost use Rattle.std.specs.Prelude.{◌≡◌, ◌++◌, ◌∷◌, [], ◌≤◌, ◌*◌, length, drop, OnOk};
ghost use Rattle.fs_types.specs.declared.call.Call.{Call};
ghost use Rattle.tree_differences.specs.Updates.{changed_bytes, changed_end, common_length, for_writing, patching, rewriting};
ghost use Rattle.tree_differences.specs.declared.laws_of_updates.TheConstants.{PIECE_BYTES};

use crate::edits::{FOR_WRITING, common_length};
use crate::pieces::{MOST_BYTES, add_piece};
use bitflags::Flags;
use fs_types::{Bytes, Call, OpenFlags, Path};
use std::alloc::AllocError;

/// Adds the calls that give a file of these bytes others: what differs is put over it, and it gets their
/// length; where that is more than a piece, the file is cut at the piece in which the first byte differs, and
/// written from there on.
pub(crate) fn add_patching(
    calls: &mut Vec<Call>,
    path: &Path,
    bytes: &[u8],
    others: &[u8],
) -> Result<(), AllocError>
    ensures { OnOk result (calls.new.items ≡ calls.old.items ++ patching path.now bytes.now others.now) }
{
    let shared = common_length(bytes, others);
    let changed = changed_bytes(bytes, others, shared);
    if changed.len() <= MOST_BYTES {
        add_patch(calls, path, shared, changed, others.len())
    } else {
        add_rewriting(calls, path, shared / MOST_BYTES, others)
    }
}

/// Adds the calls that put bytes over an opened file, and give it a length.
fn add_patch(
    calls: &mut Vec<Call>,
    path: &Path,
    start: usize,
    bytes: &[u8],
    size: usize,
) -> Result<(), AllocError>
    ensures { OnOk result (calls.new.items ≡ calls.old.items ++ Call.Open path.now for_writing ∷ Call.Pwrite 0 start bytes.now ∷ Call.Ftruncate 0 size ∷ Call.Close 0 ∷ []) }
{
    let bytes = Bytes::from_slice(*calls.allocator(), bytes)?;
    let path = path.clone()?;
    let flags = OpenFlags::from_bits_retain(FOR_WRITING);
    calls.push(Call::Open { path, flags })?;
    calls.push(Call::Pwrite {
        descriptor: 0,
        offset: start as u64,
        bytes,
    })?;
    calls.push(Call::Ftruncate {
        descriptor: 0,
        length: size as u64,
    })?;
    calls.push(Call::Close { descriptor: 0 })?;
    Ok(())
}

/// Adds the calls that cut an opened file after so many pieces, and write the others.
fn add_rewriting(
    calls: &mut Vec<Call>,
    path: &Path,
    kept: usize,
    bytes: &[u8],
) -> Result<(), AllocError>
    requires { kept * PIECE_BYTES ≤ length bytes.now }
    ensures { OnOk result (calls.new.items ≡ calls.old.items ++ rewriting path.now kept bytes.now) }
{
    let path = path.clone()?;
    let flags = OpenFlags::from_bits_retain(FOR_WRITING);
    calls.push(Call::Open { path, flags })?;
    calls.push(Call::Ftruncate {
        descriptor: 0,
        length: (kept * MOST_BYTES) as u64,
    })?;
    let count = bytes.len().div_ceil(MOST_BYTES);
    for at in kept..count {
        add_piece(calls, bytes, at)?;
    }
    calls.push(Call::Close { descriptor: 0 })?;
    Ok(())
}

/// What of the bytes of a file another one is given that has so many of them in common at its beginning.
fn changed_bytes<'a>(bytes: &[u8], others: &'a [u8], shared: usize) -> &'a [u8]
    requires { shared ≡ common_length bytes.now others.now }
    ensures { result.now ≡ changed_bytes bytes.now others.now }
{
    if bytes.len() != others.len() {
        return rest_from(others, shared);
    }
    let end = changed_end(bytes, others);
    rest_from(&others[..end], shared)
}

/// The bytes from a place on; none where there are fewer.
fn rest_from(bytes: &[u8], start: usize) -> &[u8]
    ensures { result.now ≡ drop start bytes.now }
{
    if start < bytes.len() {
        &bytes[start..]
    } else {
        &[]
    }
}

/// How many bytes of two files of one length there are up to the last place at which they differ.
fn changed_end(bytes: &[u8], others: &[u8]) -> usize
    requires { length bytes.now ≡ length others.now }
    ensures { result ≡ changed_end bytes.now others.now }
{
    let mut end = 0;
    for (at, byte) in bytes.iter().enumerate() {
        if *byte != others[at] {
            end = at + 1;
        }
    }
    end
}
