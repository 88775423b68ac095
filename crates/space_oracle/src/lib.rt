//! What may be told of the blocks of a flash, by rules that know of no block: what is free once versions
//! are forgotten is what `df` tells then, and no block counts for two that keep it alone. Beside it the
//! line that tells it.
#![tactic(auto)]

mod judging;
mod lines;
mod rooms;
mod roots;

pub use judging::{may_forget, may_refuse_to_forget, may_tell};
pub use lines::line_answer_of;
pub use rooms::Room;
