//! A part in place in a flat file: where its pages and their states stand, and which operation writes what
//! in which order.
//!
//! A host holds writes back, so on the blocks of the anchors a barrier stands between the bytes of a page
//! and its state, and after each operation. docs/format.md has the layout.
#![tactic(auto)]

mod file_driver;
mod laws_of_parts;
mod part_contents;
mod part_file;
mod part_flash;
mod places;
mod spelling;

pub use laws_of_parts::round_trip_law;
pub use part_contents::flash_of_part;
pub use part_file::PartFault;
pub use part_flash::{PartFlash, RefusedPart};
pub use spelling::spelled_part;
