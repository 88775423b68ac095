//! Edits of a tree of nodes as values: what each makes of the tree of a root, and carrying it out. And the bodies of files:
//! chains of nodes in which each node also names nodes far before it, read, overwritten and cut without changing a node.
#![tactic(auto)]

mod applied;
mod body_start;
mod change;
mod changed_nodes;
mod changes;
mod comparisons;
mod directory_files;
mod edits;
mod file_body;
mod files;
mod known_node;
mod old_nodes;
mod range_reads;
mod slot_table;

pub use applied::apply;
pub use changes::{set_length, write_range};
pub use comparisons::has_bytes;
pub use edits::Edit;
pub use file_body::Body;
pub use known_node::KnownNode;
pub use range_reads::{LEAST_SCAN, read_range};
