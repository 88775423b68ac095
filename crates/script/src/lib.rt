//! The lines of a script, and what is printed for them.
#![tactic(auto)]

mod arguments;
mod digits;
mod forms;
mod kinds;
mod line;
mod line_answer;
mod line_reader;
mod misread;
mod replies;
mod sizes;
mod space_line;
mod spelled;
mod spellings;
mod verb;
mod views;
mod words;

pub use digits::{print_name, print_number};
pub use kinds::kind_of;
pub use line::{LINE_LIMIT, Line, read_line};
pub use line_answer::LineAnswer;
pub use line_reader::{LineReader, Taken, read_byte, write_out};
pub use replies::print_answer;
pub use sizes::{DEFAULT_SIZES, DEFAULT_VERSIONS};
pub use space_line::{CheckpointLine, SpaceLine, VersionLine};
pub use spellings::laws;
