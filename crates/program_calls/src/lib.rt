//! Calls of the program as tests make them, and the images that these begin with, written out by hand.
#![tactic(auto)]

mod calls;
mod images;

pub use calls::{Outcome, Wanted, call, first_other, words_of};
pub use images::{HEADER, NODE, RECORD, SIZES, erased_image, fresh_image, padded};
