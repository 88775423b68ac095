//! Trees kept whole in memory, as maps from paths to what stands there.
#![tactic(auto)]

mod maps;
mod names;
mod node;
mod tree;

pub use node::Node;
pub use tree::Tree;
