//! The bytes of a commit record: the header of its pages, and its payload.
#![tactic(auto)]

mod formats;
mod front;
mod items;
mod lawful;
mod laws_of_records;
mod page_head;
mod payload_decoding;
mod record;
mod writing;

pub use formats::{FORMAT, OLD_FORMAT, OLD_MAX_VERSIONS};
pub use laws_of_records::{format_laws, page_laws, payload_laws};
pub use page_head::{HEAD_SIZE, PageHead, write_page};
pub use payload_decoding::{read_payload, refuse_long};
pub use record::{Checkpoint, LONGEST_PAYLOAD, Payload, Record};
pub use writing::write_payload;
