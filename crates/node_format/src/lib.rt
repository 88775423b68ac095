//! The bytes of a node: its header, and a directory's entries.
#![tactic(auto)]

mod body_nodes;
mod entries;
mod entry;
mod entry_list;
mod headers;
mod place;
mod spelled;
mod split;

pub use body_nodes::{BodyNode, body_node, body_room};
pub use entries::{Entries, chain_node, empty_directory, first_name, front_count};
pub use entry::Entry;
pub use entry_list::EntryList;
pub use headers::{BODY_HEADER, SLOTS, node_size, slot_law};
pub use place::Place;
pub use spelled::Spelled;
pub use split::Split;
