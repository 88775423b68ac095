//! Histories that are copied, version by version.
#![tactic(auto)]

mod laws;

pub use laws::copy_laws;
