//! An oracle of sessions over whole trees: what may be told to what is asked, and what a restart may
//! find. It knows the plain machine alone, and of the file system what it tells and shows. Beside it
//! scripts as files give them, whose lines ask.
#![tactic(auto)]

mod beginnings;
mod causes;
mod images;
mod needs;
mod oracles;
mod replays;
mod scripts;
mod shows;
mod texts;
mod trees;
mod write_files_line;

pub use beginnings::Beginning;
pub use causes::Causes;
pub use images::{flash_of, new_image};
pub use needs::has_fewer_free;
pub use oracles::Oracle;
pub use scripts::{Script, ScriptLine, ask_of, asks_of, line_of};
pub use shows::{Extent, Shown, Shows, serve_mounted, show, show_after_restart, show_some};
pub use texts::told_text;
