//! The mark of a page that is written.
ghost use Rattle.std.specs.Prelude.{◌≡◌, length, bytes_eq};
ghost use Rattle.dense_nor.specs.Marks as spec;

use crate::sums::crc32;

const START: [u8; 4] = *b"UNOR";

/// The mark of a page of these bytes.
pub fn mark_of(bytes: &[u8]) -> [u8; 8]
    ensures { result ≡ spec.mark_of bytes.now }
{
    let [first, second, third, fourth] = START;
    let [a, b, c, d] = crc32(bytes).to_le_bytes();
    [first, second, third, fourth, a, b, c, d]
}

/// Whether eight bytes are the mark of a page of these bytes. Its sum is looked at only where they begin as
/// a mark does.
pub fn is_mark_of(entry: &[u8], bytes: &[u8]) -> bool
    requires { length entry.now ≡ 8 }
    ensures { result ≡ bytes_eq entry.now (spec.mark_of bytes.now) }
{
    if entry[..4] != START[..] {
        return false;
    }
    let mark = mark_of(bytes);
    entry[..] == mark[..]
}
