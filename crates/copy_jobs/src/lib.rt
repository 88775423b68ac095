//! The history of an image, copied to a new image of other sizes.
#![tactic(auto)]

mod adding;
mod asked_sizes;
mod copy_messages;
mod copying;
mod failures;
mod rests;
mod source;

pub use asked_sizes::AskedSizes;
pub use copying::copy_image;
