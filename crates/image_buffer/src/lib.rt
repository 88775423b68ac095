//! Images in buffers of a caller: made, mounted, and changed by a script.
#![tactic(auto)]

mod buffer_fault;
mod buffers;
mod front;

pub use buffer_fault::BufferFault;
pub use buffers::{Written, check_buffer, format_buffer, run_buffer};
