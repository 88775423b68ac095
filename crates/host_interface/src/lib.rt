//! What the program asks of the files of the host: images that are claimed, read and replaced, what is put into them, folders
//! that are made whole, parts that are written in place, and streams that join the program to another one.
#![tactic(auto)]

mod backing;
mod channels;
mod folders;
mod image_files;
mod limits;
mod names;
mod parts;
mod source;

pub use backing::Backing;
pub use channels::Channels;
pub use folders::Folders;
pub use image_files::{FileFault, ImageFiles, MOST_BYTES, UnreadCause, UnwrittenCause};
pub use limits::read_limit_law;
pub use names::{new_name, takes_away};
pub use parts::Parts;
pub use source::{Source, SourceKind, Sources};
