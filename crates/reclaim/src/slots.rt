//! The index and the slots of any bytes with the magic of a body node.
ghost use Rattle.std.specs.Prelude.{◌≡◌, ℕ, ◌+◌, ◌*◌, ◌^◌, ◌<◌, Some};
ghost use Rattle.nodes.specs.Bodies.{index_of, pointer_of};
ghost use Rattle.node_format.specs.Headers.{field};
ghost use Rattle.node_format.specs.declared.headers.TheConstants.{SLOTS};
ghost use Rattle.reclaim.specs.Naming as spec;

use fields::u32_at;

/// The first bytes of a body node.
const MAGIC: [u8; 4] = *b"UFNB";

/// The index of a body node; None where the bytes have not its magic.
pub fn index_in(bytes: &[u8]) -> Option<u32>
    ensures { result ≡ index_of (Some bytes.now) }
{
    if u32_at(bytes, 0) == u32::from_le_bytes(MAGIC) {
        Some(u32_at(bytes, 4))
    } else {
        None
    }
}

/// How many data bytes a body node has, by its first bytes.
pub fn used_in(bytes: &[u8]) -> u32
    ensures { result ≡ field bytes.now 8 }
{
    u32_at(bytes, 8)
}

/// The block in a slot.
pub fn pointer_in(bytes: &[u8], slot: usize) -> u32
    requires { slot < SLOTS }
    ensures { result ≡ pointer_of (Some bytes.now) slot }
{
    u32_at(bytes, 16 + 4 * slot)
}

/// Whether the node of an index has a pointer at a slot.
pub fn has_pointer(index: u32, slot: usize) -> bool
    requires { slot < SLOTS }
    ensures { result ≡ spec.has_slot index slot }
{
    index > 0 && index as u64 % (1 << slot) == 0
}
