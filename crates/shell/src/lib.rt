//! The whole program: its words, what is done on the files of images, and its statuses.
#![tactic(auto)]

mod about;
mod copy;
mod explanations;
mod get;
mod nearest;
mod process;
mod program;
mod put_from;
mod serving;
mod streams;

pub use command_line::{Job, Task, job};
pub use image_jobs::{Failure, SourceFault};
pub use process::run_process;
pub use program::tool;
