//! The state of the history machine beside its trees: kept versions with a cursor, and named checkpoints; and the open files
//! of a mounted system, by their numbers, apart from what keeps their bytes.
#![tactic(auto)]

mod histories;
mod open_files;

pub use histories::History;
pub use open_files::{OpenFile, OpenFiles};
