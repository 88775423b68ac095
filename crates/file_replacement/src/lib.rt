//! Files of the host that one program has to itself, each replaced by a new one beside it. The order of that is proved over a
//! trait of the host's calls.
#![tactic(auto)]

mod calls;
mod claims;
mod identity;
mod opening;
mod replaced;
mod replaced_files;
mod replacement;
mod unwritten;

pub use calls::FolderCalls;
pub use claims::Claim;
pub use identity::{Identity, refuse_another};
pub use opening::{Opened, open_looked, open_unlinked, refuse_special};
pub use replaced::Replaced;
pub use replaced_files::{folder_of, refuse_standing, replace_file};
pub use replacement::{Unreplaced, replace};
pub use unwritten::{Failed, unwritten_cause};
