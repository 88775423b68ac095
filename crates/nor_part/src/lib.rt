//! A serial NOR part, and a flash over it: what a page is is read off the part alone.
#![tactic(auto)]

mod cells;
mod flash_state;
mod memory_nor;
mod nor;
mod nor_flash;
mod paging;
mod sizes;

pub use flash_state::FlashState;
pub use memory_nor::{MemoryNor, Trouble};
pub use nor::Nor;
pub use nor_flash::NorFlash;
