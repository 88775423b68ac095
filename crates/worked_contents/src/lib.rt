//! Contents of a flash that were worked out by hand, lawful or not: their nodes, and what has to be told of
//! each where it is verified or mounted.
#![tactic(auto)]

mod chains;
mod contents;
mod nodes;

pub use chains::{CHAIN_ROWS, ChainContent, ChainNode, ChainRow, spelled};
pub use contents::{CONTENT_ROWS, Content, ContentRow};
pub use nodes::{put, put_all, put_page};
