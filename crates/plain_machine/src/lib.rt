//! The file system as its definition says it, over whole trees and a whole history in memory.
#![tactic(auto)]

mod effects;
mod entries;
mod groups;
mod machine;
mod needs;
mod parts;
mod refusals;
mod replies;
mod space;
mod written_files;

pub use machine::PlainMachine;
pub use space::Space;
