//! The bytes of a serial NOR part: those of a flash, and a flash of them.
//!
//! Where the pages of the flash stand is the layout of `nor_part` or of `dense_nor`: the pages of a block
//! tell which.
#![tactic(auto)]

mod laws_of_raw_parts;
mod part_layout;
mod raw_flash;
mod spelling;

pub use laws_of_raw_parts::{part_law, round_trip_law};
pub use part_layout::PartLayout;
pub use raw_flash::flash_of_raw;
pub use spelling::raw_of;
