//! What the program tells on standard error.
#![tactic(auto)]

mod failure_messages;
mod refused_words;

pub use failure_messages::{
    tell_failure, tell_fault, tell_left_out, tell_misplaced, tell_refusal, tell_refused,
    tell_refused_format,
};
