//! The used blocks of a flash, the next free one in ring order, and what was taken since a marking began. And a number for
//! each block, with memory for those alone that stand near one that was told.
#![tactic(auto)]

mod block_set;
mod data_blocks;
mod marks;
mod ring;
mod sparse_bytes;
mod sparse_words;

pub use block_set::BlockSet;
pub use data_blocks::count_bad;
pub use marks::Marks;
pub use ring::Ring;
pub use sparse_bytes::SparseBytes;
pub use sparse_words::SparseWords;
