//! What is done with the file of an image: it is made, run, mounted, looked at and written, and why not. And what is told of
//! an image: one of its files, a directory, what stood at a path, its tree, what differs between two of its trees, and what
//! its versions hold.
//!
//! The file is claimed, read and replaced by an `ImageFiles`, and its bytes are those of an image of `flash_simulation`.
#![tactic(auto)]

mod failure;
mod image_bytes;
mod images;
mod inquiries_told;
mod last_change;
mod laws_of_reads;
mod path_word;
mod place_words;
mod planned_inquiries;
mod saved_bytes;
mod source_fault;
mod view_word;

pub use failure::{Failure, explain_refusal, explain_unread};
pub use image_bytes::{claim, take_image, write_image};
pub use images::{
    check_image, flash_of, format_image, formatted_flash, load, look_at_image, run_image,
    save_changed, save_image,
};
pub use inquiries_told::{
    of_ask, tell_differences, tell_file, tell_list, tell_path_history, tell_tree, tell_versions,
};
pub use last_change::tell_last_change;
pub use laws_of_reads::image_laws;
pub use path_word::path_of_word;
pub use place_words::place_of_words;
pub use planned_inquiries::list_as_planned;
pub use saved_bytes::{save_bytes, spare};
pub use source_fault::SourceFault;
pub use view_word::view_of_word;
