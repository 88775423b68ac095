//! What each block of a flash is: an anchor, bad, reached by versions and checkpoints, or free; the map of these as text
//! and as a page of HTML. And how many blocks what stands in a directory reaches, and how many of these nothing else does.
#![tactic(auto)]

mod blank_blocks;
mod block_facts;
mod block_kind;
mod blocks_apart;
mod html_page;
mod map_texts;
mod maps;
mod newest_records;
mod other_roots;
mod place_blocks;
mod stored_usages;
mod usage;
mod usage_fault;
mod usage_list;
mod usage_reports;

pub use block_kind::BlockKind;
pub use html_page::map_page;
pub use map_texts::map_text;
pub use maps::{MapFault, map_blocks};
pub use usage::Usage;
pub use usage_fault::{MAX_USAGE_BLOCKS, UsageFault};
pub use usage_list::{EntryUsage, UsageList, find_usages};
pub use usage_reports::{ReportFault, report_usages};
