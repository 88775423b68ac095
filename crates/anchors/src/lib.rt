//! The newest commit record on the anchors of a flash: where it is, what it says, and the next one.
#![tactic(auto)]

mod anchor;
mod anchors;
mod best;
mod commit;
mod draft;
mod laws_of_anchors;
mod newest;
mod next_anchor;
mod scan;

pub use anchors::Anchors;
pub use laws_of_anchors::{commit_laws, newest_laws, writing_laws};
