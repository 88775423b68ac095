//! What brings the tree of one flash to that of another: the calls, and the script that asks for them.
#![tactic(auto)]

mod asking;
mod changes;
mod edits;
mod laws_of_paths;
mod lines;
mod listed;
mod manner;
mod patches;
mod pieces;
mod update_scripts;

pub use asking::ask_update;
pub use changes::list_changes;
pub use laws_of_paths::paths_law;
pub use listed::list_changes_at;
pub use manner::Manner;
pub use update_scripts::tell_update;
