//! Nodes on raw flash: what each data block holds, how a node is read, and how one is added; and the nodes that were used
//! last, kept in memory.
#![tactic(auto)]

mod added_nodes;
mod cached_reads;
mod fronts;
mod node_cache;
mod node_examination;
mod node_parts;
mod node_reads;
mod node_writes;
mod peeks;
mod storage;
mod store;
mod store_examination;

pub use added_nodes::{list_block, write_node};
pub use node_cache::{MAX_CACHED_NODES, NodeCache};
pub use nodes::{Examines, Nodes, Peeks, brings};
pub use storage::Storage;
pub use store::Store;
