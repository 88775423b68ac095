//! The dense layout of a serial NOR part: the marks of a block stand in the last pages of its own sectors,
//! each with a sum of its page.
//!
//! It takes a part that keeps to more than [`nor_part::Nor`] asks: [`DenseNor`] has what.
#![tactic(auto)]

mod blocks;
mod dense_flash;
mod dense_layout;
mod dense_nor;
mod entries;
mod marks;
mod memory_part;
mod paging;
mod sums;

pub use dense_flash::DenseNorFlash;
pub use dense_layout::DenseLayout;
pub use dense_nor::DenseNor;
pub use marks::{is_mark_of, mark_of};
pub use sums::crc32;
