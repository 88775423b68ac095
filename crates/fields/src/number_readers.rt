//! Numbers read from bytes: from the front, with the bytes after them, or from a place.
ghost use Rattle.std.specs.Prelude.{◌≡◌, ◌^◌, ◌<◌, slice_index};
ghost use Rattle.std.specs.Option.{option_map};
ghost use Rattle.byteorder.specs.Endian.{little_from};
ghost use Rattle.fields.specs.Numbers as spec;

use byteorder::{ByteOrder, LittleEndian};

/// The first byte, and the bytes after it. None where there is none.
pub fn read_u8(bytes: &[u8]) -> Option<(u8, &[u8])>
    ensures { option_map (λ x. (x.0, x.1.now)) result ≡ spec.byte_at bytes.now }
{
    let (first, rest) = bytes.split_first()?;
    Some((*first, rest))
}

/// The number in the first two bytes, and the bytes after them. None where there are fewer.
pub fn read_u16(bytes: &[u8]) -> Option<(u16, &[u8])>
    ensures { option_map (λ x. (x.0, x.1.now)) result ≡ spec.number_at 2 bytes.now }
{
    if bytes.len() < 2 {
        return None;
    }
    Some((LittleEndian::read_u16(bytes), &bytes[2..]))
}

/// The number in the first four bytes, and the bytes after them. None where there are fewer.
pub fn read_u32(bytes: &[u8]) -> Option<(u32, &[u8])>
    ensures { option_map (λ x. (x.0, x.1.now)) result ≡ spec.number_at 4 bytes.now }
{
    if bytes.len() < 4 {
        return None;
    }
    Some((LittleEndian::read_u32(bytes), &bytes[4..]))
}

/// The number in the first eight bytes, and the bytes after them. None where there are fewer.
pub fn read_u64(bytes: &[u8]) -> Option<(u64, &[u8])>
    ensures { option_map (λ x. (x.0, x.1.now)) result ≡ spec.number_at 8 bytes.now }
{
    if bytes.len() < 8 {
        return None;
    }
    Some((LittleEndian::read_u64(bytes), &bytes[8..]))
}

/// A byte, or 0 past the end.
fn byte_at(bytes: &[u8], place: usize) -> u8
    ensures { result ≡ slice_index bytes.now place }
{
    bytes.get(place).copied().unwrap_or(0)
}

/// The number in the two bytes from a place, where bytes past the end are 0.
pub fn u16_at(bytes: &[u8], place: usize) -> u16
    requires { place < 2 ^ 32 }
    ensures { result ≡ little_from place 2 bytes.now }
{
    u16::from_le_bytes([byte_at(bytes, place), byte_at(bytes, place + 1)])
}

/// The number in the four bytes from a place, where bytes past the end are 0.
pub fn u32_at(bytes: &[u8], place: usize) -> u32
    requires { place < 2 ^ 32 }
    ensures { result ≡ little_from place 4 bytes.now }
{
    u32::from_le_bytes([
        byte_at(bytes, place),
        byte_at(bytes, place + 1),
        byte_at(bytes, place + 2),
        byte_at(bytes, place + 3),
    ])
}

/// The number in the eight bytes from a place, where bytes past the end are 0.
pub fn u64_at(bytes: &[u8], place: usize) -> u64
    requires { place < 2 ^ 32 }
    ensures { result ≡ little_from place 8 bytes.now }
{
    u64::from_le_bytes([
        byte_at(bytes, place),
        byte_at(bytes, place + 1),
        byte_at(bytes, place + 2),
        byte_at(bytes, place + 3),
        byte_at(bytes, place + 4),
        byte_at(bytes, place + 5),
        byte_at(bytes, place + 6),
        byte_at(bytes, place + 7),
    ])
}
