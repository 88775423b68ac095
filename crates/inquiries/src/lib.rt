//! What is asked of a mounted file system by its user, and only read: files, trees, what differs
//! between two of them, and how much each kept one holds and keeps.
#![tactic(auto)]

mod asking;
mod counterpart;
mod differences;
mod folders;
mod inquiry;
mod items;
mod listed;
mod listing;
mod path_history;
mod path_room;
mod printing;
mod pruned;
mod reading_calls;
mod tell_fault;
mod versions;

pub use asking::{AskFault, ask};
pub use counterpart::{Counterpart, find_counterpart, stat_if_there};
pub use folders::{MAX_TREE_BYTES, list_below, list_folder};
pub use inquiry::Inquiry;
pub use items::Item;
pub use listing::list;
pub use printing::print_path;
pub use pruned::list_differing;
pub use reading_calls::{read_file, read_item, stat_at};
pub use tell_fault::{MAX_LINES, MAX_OWNERS, MAX_PATH_BYTES, TellFault};
