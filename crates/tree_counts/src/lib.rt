//! How much stands in the tree of a root: counts by node, so that what several directories share is
//! read once. And what each of some roots reaches that the others do not: the first root that reaches a block, and
//! counts of blocks by it.
#![tactic(auto)]

mod block_counts;
mod first_roots;
mod node_sizes;
mod roots;
mod tree_size;

pub use block_counts::{count_alone, count_free, count_freed};
pub use first_roots::find_first_roots;
pub use roots::{size_of_root, sizes_of_roots};
pub use tree_size::TreeSize;
