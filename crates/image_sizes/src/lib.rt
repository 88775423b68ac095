//! How many blocks an image has that is made of a folder of the host; and the sizes that the newest record of a flash in
//! memory was made for, whatever the sizes of the flash.
#![tactic(auto)]

mod folder_sizes;
mod record_sizes;

pub use folder_sizes::{blocks_for, changes_with_room, tree_blocks};
pub use record_sizes::recorded_sizes;
