//! Scripts on a flash: what a live file system is behind. docs/serve.md has the streams of a driver in another process.
#![tactic(auto)]

mod session_fault;
mod sessions;

pub use session_fault::SessionFault;
pub use sessions::{serve_on, serve_script};
