//! Where the trees of two roots differ: by the places that paths lead to, so that what both have is not
//! read. And the calls that bring one tree to another, and what they leave of a third.
#![tactic(auto)]

mod differing;
mod entries;
mod laws_of_updates;
mod likeness;

pub use differing::differing_paths;
pub use laws_of_updates::{PIECE_BYTES, update_laws};
