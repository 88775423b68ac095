//! Images of flashes that are made by a fixed rule, lawful and not.
#![tactic(auto)]

mod bad_lists;
mod chains;
mod contents;
mod drafts;
mod halves;
mod kinds;
mod low_bytes;
mod nodes;
mod numbers;
mod records;
mod shared;

pub use kinds::{KINDS, Kind};
pub use numbers::Numbers;
