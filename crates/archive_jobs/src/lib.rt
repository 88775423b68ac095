//! The archive of all that stands in a tree of a flash, or in an image, and one that is put into an image.
#![tactic(auto)]

mod archive_messages;
mod archiving;
mod entries;
mod interruption;
mod printing;
mod putting;
mod room;
mod unarchived;
mod unwritten;
mod writing;

pub use archiving::write_archive;
pub use interruption::Interruption;
pub use printing::tell_archive;
pub use putting::{MAX_ARCHIVE_BYTES, put_archive};
pub use unarchived::Unarchived;
pub use unwritten::Unwritten;
