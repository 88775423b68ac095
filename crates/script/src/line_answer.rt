//! Answers to lines.
use crate::space_line::SpaceLine;
use fs_types::Answer;

/// The answer to a line.
#[derive(Debug, Drop)]
pub enum LineAnswer {
    /// The line was understood, and this is answered.
    Told(Answer),
    /// What each version and each checkpoint keeps.
    Space(SpaceLine),
    /// So many versions were forgotten.
    Forgot(u64),
    /// The line has no form of a line.
    Syntax,
}
