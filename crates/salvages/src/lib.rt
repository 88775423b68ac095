//! What can be read of a damaged flash, saved on a new one.
#![tactic(auto)]

mod copies;
mod found;
mod kept_records;
mod lefts;
mod looks;
mod losses;
mod making;
mod record_pages;
mod rest_roots;
mod rests;
mod salvaged;
mod walk;

pub use found::{ENTRY_COST, MAX_COST};
pub use looks::is_whole;
pub use losses::{Loss, LossFault, LossKind};
pub use making::{MAX_BYTES, Rest};
pub use rests::find_rest;
pub use salvaged::{Salvaged, salvage};
pub use walk::loss_law;
