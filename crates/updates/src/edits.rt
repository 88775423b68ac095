//! The calls that give a file other bytes, and leave what both have in common.
ghost use Rattle.std.specs.Prelude.{◌≡◌, ◌++◌, ◌<◌, ◌↔◌, IsTrue, OnOk, length, slice_index};
ghost use Rattle.tree_differences.specs.Updates.{common_length, editing};

use bitflags::Flags;
use fs_types::{Bytes, Call, OpenFlags, Path};
use std::alloc::AllocError;

/// The flag by which a file is opened for writing, and stays as it is.
pub(crate) const FOR_WRITING: u64 = 2;

/// Adds the calls that give a file of these bytes others: it is opened, cut where it has more, written from
/// the first byte on that differs, and closed.
pub(crate) fn add_editing(
    calls: &mut Vec<Call>,
    path: &Path,
    bytes: &[u8],
    others: &[u8],
) -> Result<(), AllocError>
    ensures { OnOk result (calls.new.items ≡ calls.old.items ++ editing path.now bytes.now others.now) }
{
    let shared = common_length(bytes, others);
    let more = Bytes::from_slice(*calls.allocator(), &others[shared..])?;
    let path = path.clone()?;
    let flags = OpenFlags::from_bits_retain(FOR_WRITING);
    calls.push(Call::Open { path, flags })?;
    calls.push(Call::Ftruncate {
        descriptor: 0,
        length: bytes.len().min(others.len()) as u64,
    })?;
    calls.push(Call::Pwrite {
        descriptor: 0,
        offset: shared as u64,
        bytes: more,
    })?;
    calls.push(Call::Close { descriptor: 0 })?;
    Ok(())
}

/// How many bytes two files have in common at their beginning.
pub(crate) fn common_length(bytes: &[u8], others: &[u8]) -> usize
    ensures { result ≡ common_length bytes.now others.now }
{
    for (at, byte) in bytes.iter().enumerate() {
        if !has_byte(others, at, *byte) {
            return at;
        }
    }
    bytes.len()
}

/// Whether a byte stands at a place of these.
fn has_byte(bytes: &[u8], at: usize, byte: u8) -> bool
    ensures { IsTrue result ↔ ((at < length bytes.now) × (byte ≡ slice_index bytes.now at)) }
{
    at < bytes.len() && byte == bytes[at]
}
