//! Directories in trees of nodes: what paths lead to, and trees with one entry changed.
#![tactic(auto)]

mod depths;
mod directory_puts;
mod edits;
mod list_writes;
mod listings;
mod lookups;
mod moves;
mod node_lists;
mod place_stats;
mod places;
mod trail;

pub use depths::{any_is_deeper, depth_laws, is_deeper};
pub use directory_puts::{NamedPlace, put_in_directory};
pub use edits::{put_directory, put_entry, remove_entry};
pub use listings::{entry_count, is_empty, names};
pub use lookups::{Found, found_in, lookup, lookup_laws};
pub use moves::move_entry;
pub use place_stats::stats;
pub use places::places_after;
pub use trail::{Trail, find, find_beside};
