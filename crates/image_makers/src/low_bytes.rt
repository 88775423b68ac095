//! Numbers cut to the low bytes of their fields.
use fields::{push_u16, push_u32};
use std::alloc::AllocError;

/// Appends the low two bytes of a number.
pub fn push_short(out: &mut Vec<u8>, number: u64) -> Result<(), AllocError> {
    push_u16(out, (number % 0x1_0000) as u16)
}

/// Appends the low four bytes of a number.
pub fn push_word(out: &mut Vec<u8>, number: u64) -> Result<(), AllocError> {
    push_u32(out, (number % 0x1_0000_0000) as u32)
}
