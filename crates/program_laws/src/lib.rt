//! The laws of the program: what is told of trees and directories, of what differs between two trees, and of versions
//! is all and nothing else; and a put leaves the history that was saved, or changes it once.
#![tactic(auto)]

mod laws_of_inquiries;
mod laws_of_puts;

pub use laws_of_inquiries::{difference_laws, line_laws, list_laws, tree_laws, versions_laws};
pub use laws_of_puts::put_laws;
