//! The bad blocks of a device: a set of at most 256 block numbers, which takes no memory, and the mode
//! in which nothing is written any more because so many are bad.
#![tactic(auto)]

mod mode;
mod set;

pub use mode::{bad_anchors, is_read_only};
pub use set::{BadBlocks, Full};
