//! A page of a record: its header, and a piece of the payload.
ghost use Rattle.std.specs.Prelude.{◌≡◌, ◌≤◌, ◌+◌, ◌*◌, ◌^◌, ◌<◌, ◌++◌, length, codes, vec_len, vec_capacity};
ghost use Rattle.byteorder.specs.Endian.{little_bytes};
ghost use Rattle.record_format.specs.Pages as spec;

use fields::{push_u16, push_u64, u16_at, u32_at, u64_at};

/// The bytes of the header of a page.
pub const HEAD_SIZE: usize = 20;

/// The first bytes of the header.
const MAGIC: [u8; 4] = *b"UFCR";

/// The header of a page of a record.
#[derive(Clone, Copy, Debug)]
pub struct PageHead {
    /// The sequence of the record.
    pub sequence: u64,
    /// The place of the page among the pages of the record, from 0.
    pub index: u16,
    /// How many pages the record has, at least 1.
    pub count: u16,
    /// How many payload bytes the page holds.
    pub used: u16,
}

impl PageHead {
    /// The header that a page begins with, or None where it has no magic of one.
    pub fn of(page: &[u8]) -> Option<PageHead>
        requires { 20 ≤ length page.now }
        ensures { result ≡ spec.page_head_of page.now }
    {
        if u32_at(page, 0) != u32::from_le_bytes(MAGIC) {
            return None;
        }
        Some(PageHead {
            sequence: u64_at(page, 4),
            index: u16_at(page, 12),
            count: u16_at(page, 14),
            used: u16_at(page, 16),
        })
    }
}

fn push_bytes(out: &mut Vec<u8>, bytes: &[u8])
    requires { vec_len out.old + length bytes.now ≤ vec_capacity out.old }
    ensures items { out.new.items ≡ out.old.items ++ bytes.now }
    ensures len { vec_len out.new ≡ vec_len out.old + length bytes.now }
    ensures capacity { vec_capacity out.old ≤ vec_capacity out.new }
{
    out.extend_from_slice(bytes).unwrap();
}

fn push_head(out: &mut Vec<u8>, head: PageHead)
    requires { vec_len out.old + 20 ≤ vec_capacity out.old }
    ensures items { out.new.items ≡ out.old.items ++ spec.head_bytes head }
    ensures len { vec_len out.new ≡ vec_len out.old + 20 }
    ensures capacity { vec_capacity out.old ≤ vec_capacity out.new }
{
    push_bytes(out, &MAGIC);
    push_u64(out, head.sequence).unwrap();
    push_u16(out, head.index).unwrap();
    push_u16(out, head.count).unwrap();
    push_u16(out, head.used).unwrap();
    push_u16(out, 0).unwrap();
}

/// Makes `out` the page of `size` bytes with this header and these payload bytes, with 0 after
/// them. Its room serves: no memory is taken.
pub fn write_page(out: &mut Vec<u8>, size: usize, head: PageHead, payload: &[u8])
    requires fits { 20 + length payload.now ≤ size }
    requires room { size ≤ vec_capacity out.old }
    ensures page { out.new.items ≡ spec.record_page_bytes size head payload.now }
    ensures len { vec_len out.new ≡ size }
    ensures capacity { vec_capacity out.old ≤ vec_capacity out.new }
{
    out.clear();
    push_head(out, head);
    push_bytes(out, payload);
    out.resize(size, 0).unwrap();
}
