//! A file system that is mounted on a flash: its working state beside the newest record, commits, the
//! second try of a call that finds the flash full, the marking that makes room, and the cleaning of free
//! blocks.
#![tactic(auto)]

mod blank_blocks;
mod cleaning;
mod cleaning_rounds;
mod differing_trees;
mod forgotten;
mod history_space;
mod laws_of_space;
mod mounts;
mod passes;
mod preparations;
mod prepared_blocks;
mod preparing;
mod room;
mod space;
mod stored_differences;
mod systems;
mod tree_sizes;
mod version_space;

pub use cleaning_rounds::clean_blocks;
pub use laws_of_space::space_laws;
pub use mounts::{mount, mount_with};
pub use preparations::{BLOCKS_AHEAD, prepare_blocks};
pub use prepared_blocks::PreparedBlocks;
pub use stored_differences::differing_paths_on;
pub use systems::System;
pub use version_space::{HistorySpace, VersionSpace};
