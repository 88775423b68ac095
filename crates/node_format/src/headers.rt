ghost use Rattle.std.specs.Prelude.{◌≡◌, ◌≤◌, length, take};
ghost use Rattle.fs_types.specs.declared.limits.TheConstants.{MIN_BLOCK_BYTES};
ghost use Rattle.node_format.specs.Headers as spec;

use fields::u32_at;
use fs_types::NODE_ENTRIES;

/// The magic of a body node, `UFNB`.
const BODY_MAGIC: u32 = 0x424e_4655;

/// The magic of a node of a directory that stands alone, `UFND`.
pub(crate) const DIRECTORY_MAGIC: u32 = 0x444e_4655;

/// The magic of a node of a directory's chain, `UFNE`.
pub(crate) const CHAIN_MAGIC: u32 = 0x454e_4655;

/// The bytes of the header of a body node, before its data.
pub const BODY_HEADER: u32 = 80;

/// The slots of a body node, each for a pointer to a node before it.
pub const SLOTS: usize = 16;

/// The bytes of the header of a node of a directory, before its entries.
const DIRECTORY_HEADER: u32 = 16;

/// The most entries of a node of a directory.
pub(crate) const MOST_ENTRIES: u32 = NODE_ENTRIES as u32;

/// A body node has 16 slots.
pub fn slot_law()
    ensures { SLOTS ≡ 16 }
{}

/// The size in bytes of the node whose first bytes are given, or None where its header is not well
/// formed. Only the first 16 bytes are looked at.
pub fn node_size(block_bytes: u32, header: &[u8]) -> Option<u32>
    requires header { 16 ≤ length header.now }
    requires least { MIN_BLOCK_BYTES ≤ block_bytes }
    requires most { block_bytes ≤ 262144 }
    ensures size { result ≡ spec.node_size block_bytes header.now }
    ensures local { result ≡ spec.node_size block_bytes (take 16 header.now) }
{
    let magic = u32_at(header, 0);
    let count = u32_at(header, 4);
    let used = u32_at(header, 8);
    if magic == BODY_MAGIC {
        return body_size(block_bytes, used);
    }
    if magic == DIRECTORY_MAGIC {
        return directory_size(block_bytes, count, used);
    }
    if magic == CHAIN_MAGIC {
        return directory_size(block_bytes, count, used);
    }
    None
}

/// A body node uses at least one byte, and fits in its block.
fn body_size(block_bytes: u32, used: u32) -> Option<u32>
    requires least { MIN_BLOCK_BYTES ≤ block_bytes }
    requires most { block_bytes ≤ 262144 }
    ensures { result ≡ spec.body_size block_bytes used }
{
    if used == 0 || used > block_bytes - BODY_HEADER {
        return None;
    }
    Some(BODY_HEADER + used)
}

/// A node of a directory has at most 32 entries, and fits in its block.
fn directory_size(block_bytes: u32, count: u32, used: u32) -> Option<u32>
    requires least { MIN_BLOCK_BYTES ≤ block_bytes }
    requires most { block_bytes ≤ 262144 }
    ensures { result ≡ spec.directory_size block_bytes count used }
{
    if count > MOST_ENTRIES || used > block_bytes - DIRECTORY_HEADER {
        return None;
    }
    Some(DIRECTORY_HEADER + used)
}
