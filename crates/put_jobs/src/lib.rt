//! Files of the host, and the input, put into an image: as one version, whole or not at all.
#![tactic(auto)]

mod batch;
mod change_group;
mod input;
mod mirror;
mod place;
mod put;
mod put_of_input;
mod put_of_lots;
mod putting;
mod refused;
mod source_things;
mod thing;
mod things;
mod trim;

pub use batch::{Batch, wants_folder};
pub use input::read_input;
pub use put::{Order, gather, put_into_image, put_on_flash, told_path};
pub use put_of_input::put_input;
pub use put_of_lots::put_lots;
