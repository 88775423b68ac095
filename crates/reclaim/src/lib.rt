//! Which blocks roots reach, marked in steps of so many reads, and whether roots have trees.
#![tactic(auto)]

mod edge;
mod facts;
mod fronts;
mod laws_of_passes;
mod levels;
mod looks;
mod named;
mod pass;
mod slots;
mod table;
mod tops;
mod verification;

pub use laws_of_passes::{frame_law, pass_laws, sound_laws};
pub use pass::Pass;
pub use verification::verify;
