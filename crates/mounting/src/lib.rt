//! What a mount makes of a record, the record that a history is committed as, and how an empty system is
//! made.
#![tactic(auto)]

mod contents;
mod formats;
mod loads;
mod reached;
mod restored;
mod tree_sizes;

pub use contents::record_of;
pub use formats::format;
pub use loads::load;
pub use reached::{first_roots_on, marked_on};
pub use restored::{list_roots, list_working};
pub use tree_sizes::tree_size_on;
