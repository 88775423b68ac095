//! Words of the program that are each carried out on the file of one image or part, and not with what others share: calls of
//! the history and a trim, what an image answers to a script, its map, the blocks that its entries take, a part in place in a flat file, the bytes of a
//! serial NOR part, what brings its tree to another's, what stands at a path of it as a file or a folder of the host, and an
//! image that is made of such a folder.
#![tactic(auto)]

mod creating;
mod creation;
mod history_changes;
mod history_lines;
mod host_folders;
mod image_gets;
mod image_maps;
mod image_updates;
mod image_usages;
mod part_files;
mod part_loads;
mod part_serving;
mod part_sessions;
mod path_copies;
mod raw_images;
mod raw_sizes;
mod script_replies;
mod usage_lines;

pub use creating::create_image;
pub use creation::{Creation, NewImage};
pub use history_changes::{change_history, trim_image};
pub use image_gets::get_out;
pub use image_maps::{save_map_page, tell_map};
pub use image_updates::tell_update;
pub use image_usages::tell_usages;
pub use part_files::{format_part, image_to_part, part_to_image};
pub use part_serving::{of_session, serve_part_file};
pub use part_sessions::serve_part;
pub use path_copies::{Copied, copy_out};
pub use raw_images::{image_to_raw, raw_to_image};
pub use raw_sizes::RawSizes;
pub use script_replies::tell_replies;
