//! What keeps nodes in blocks: the traits that the layers above stand on. And the trees that the nodes of a flash make:
//! definitions, and the laws about them.
#![tactic(auto)]

mod examines;
mod laws_of_block_trees;
mod laws_of_maps;
mod nodes;
mod peeks;

pub use examines::Examines;
pub use laws_of_block_trees::{chain_laws, edit_laws, frame_laws, move_laws, reaching_laws};
pub use laws_of_maps::map_laws;
pub use nodes::{Nodes, brings};
pub use peeks::Peeks;
