//! Numbers put at the end of bytes: of a vector, which may take memory, or of an array with room.
ghost use Rattle.std.specs.Prelude.{◌≡◌, ◌+◌, ◌^◌, ◌<◌, ◌≤◌, ◌++◌, IsOk, OnOk, OnErr, vec_len, vec_capacity};
ghost use Rattle.arrayvec.specs.ArrayVec.{array_vec_len};
ghost use Rattle.byteorder.specs.Endian.{little_bytes};

use arrayvec::ArrayVec;
use std::alloc::AllocError;

/// Puts a number of two bytes at the end. It fails only where room was missing, and then the bytes stay.
pub fn push_u16(out: &mut Vec<u8>, number: u16) -> Result<(), AllocError>
    ensures items { OnOk result (out.new.items ≡ out.old.items ++ little_bytes 2 number) }
    ensures len { OnOk result (vec_len out.new ≡ vec_len out.old + 2) }
    ensures err { OnErr result (out.new.items ≡ out.old.items) }

    // The room that there is stays, and is enough where two bytes more fit.
    ensures capacity { vec_capacity out.old ≤ vec_capacity out.new }
    ensures room { vec_len out.old + 2 ≤ vec_capacity out.old → IsOk result }
{
    out.extend_from_slice(&u16::to_le_bytes(number))
}

/// Puts a number of four bytes at the end. It fails only where room was missing, and then the bytes stay.
pub fn push_u32(out: &mut Vec<u8>, number: u32) -> Result<(), AllocError>
    ensures items { OnOk result (out.new.items ≡ out.old.items ++ little_bytes 4 number) }
    ensures len { OnOk result (vec_len out.new ≡ vec_len out.old + 4) }
    ensures err { OnErr result (out.new.items ≡ out.old.items) }

    // The room that there is stays, and is enough where four bytes more fit.
    ensures capacity { vec_capacity out.old ≤ vec_capacity out.new }
    ensures room { vec_len out.old + 4 ≤ vec_capacity out.old → IsOk result }
{
    out.extend_from_slice(&u32::to_le_bytes(number))
}

/// Puts a number of eight bytes at the end. It fails only where room was missing, and then the bytes stay.
pub fn push_u64(out: &mut Vec<u8>, number: u64) -> Result<(), AllocError>
    ensures items { OnOk result (out.new.items ≡ out.old.items ++ little_bytes 8 number) }
    ensures len { OnOk result (vec_len out.new ≡ vec_len out.old + 8) }
    ensures err { OnErr result (out.new.items ≡ out.old.items) }

    // The room that there is stays, and is enough where eight bytes more fit.
    ensures capacity { vec_capacity out.old ≤ vec_capacity out.new }
    ensures room { vec_len out.old + 8 ≤ vec_capacity out.old → IsOk result }
{
    out.extend_from_slice(&u64::to_le_bytes(number))
}

/// Puts a number of two bytes at the end of an array with room for it.
pub fn put_u16<const ROOM: usize>(out: &mut ArrayVec<u8, ROOM>, number: u16)
    requires { array_vec_len out.old + 2 ≤ ROOM }
    ensures items { out.new.items ≡ out.old.items ++ little_bytes 2 number }
    ensures len { array_vec_len out.new ≡ array_vec_len out.old + 2 }
    ensures fits { number < 2 ^ 16 }
{
    out.try_extend_from_slice(&u16::to_le_bytes(number))
        .unwrap();
}

/// Puts a number of four bytes at the end of an array with room for it.
pub fn put_u32<const ROOM: usize>(out: &mut ArrayVec<u8, ROOM>, number: u32)
    requires { array_vec_len out.old + 4 ≤ ROOM }
    ensures items { out.new.items ≡ out.old.items ++ little_bytes 4 number }
    ensures len { array_vec_len out.new ≡ array_vec_len out.old + 4 }
    ensures fits { number < 2 ^ 32 }
{
    out.try_extend_from_slice(&u32::to_le_bytes(number))
        .unwrap();
}

/// Puts a number of eight bytes at the end of an array with room for it.
pub fn put_u64<const ROOM: usize>(out: &mut ArrayVec<u8, ROOM>, number: u64)
    requires { array_vec_len out.old + 8 ≤ ROOM }
    ensures items { out.new.items ≡ out.old.items ++ little_bytes 8 number }
    ensures len { array_vec_len out.new ≡ array_vec_len out.old + 8 }
    ensures fits { number < 2 ^ 64 }
{
    out.try_extend_from_slice(&u64::to_le_bytes(number))
        .unwrap();
}
