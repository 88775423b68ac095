//! How much stands in the trees of several roots, on a flash.
#![tactic(auto)]

mod stored;

pub use stored::sizes_of_roots_on;
