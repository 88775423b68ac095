//! Numbers of 1, 2, 4 and 8 bytes in a format, the lowest byte first: their readers and writers.
#![tactic(auto)]

mod laws_of_numbers;
mod number_readers;
mod number_writers;

pub use laws_of_numbers::number_laws;
pub use number_readers::{read_u8, read_u16, read_u32, read_u64, u16_at, u32_at, u64_at};
pub use number_writers::{push_u16, push_u32, push_u64, put_u16, put_u32, put_u64};
