//! What the words of the program `uffs` ask for.
#![tactic(auto)]

mod about;
mod tasks;
mod words;

pub use about::{help_text, version_text};
pub use tasks::{HistoryCall, Job, Task};
pub use words::job;
