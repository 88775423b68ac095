//! What is known of all nodes of a damaged flash, each read once: which directories and files are whole, and what is left of
//! others.
#![tactic(auto)]

mod bodies;
mod known_nodes;
mod node_table;
mod whole_files;

pub use known_nodes::KnownNodes;
pub use node_table::NodeTable;
pub use whole_files::whole_file_law;
