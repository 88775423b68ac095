//! What `uffs put` puts, and in which lots: many files of one directory go together by one call. And what it
//! removes that leaves below a path only what it puts there.
#![tactic(auto)]

mod kept;
mod lots;
mod removals;
mod thing;

pub use kept::{Kept, kept_of};
pub use lots::{MOST_BYTES, MOST_FILES, Taken, take_in};
pub use removals::{is_removed, removal};
pub use thing::{Thing, events_of};
