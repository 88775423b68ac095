//! Drivers on a bench: flashes in memory with a fault planned at a moment, and drivers that break a rule.
#![tactic(auto)]

mod dense_part;
mod flash_bench;
mod flaw;
mod flawed;
mod memory_part;
mod troubled;

pub use dense_part::DensePart;
pub use flash_bench::FlashBench;
pub use flaw::{Flaw, Way};
pub use flawed::Flawed;
pub use memory_part::MemoryPart;
pub use troubled::Troubled;
