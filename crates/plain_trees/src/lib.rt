//! Trees of directories and files as functions and as finite maps: the plain edits of them, what a
//! look-up refuses, files' bytes written and cut, and the laws of these; and paths taken apart.
#![tactic(auto)]

mod laws_of_plain_trees;
mod paths;

pub use laws_of_plain_trees::{edit_laws, file_laws, graft_laws, lookup_laws};
pub use paths::{is_beginning, is_path_in, parent, rest_of};
