//! The text of answers, by which they are compared.
use crate::shows::Shows;
use fs_types::{Answer, Call, Fault, Reply};
use script::{LineAnswer, print_answer};
use space_oracle::line_answer_of;
use std::alloc::{AllocError, Global};
use undofs::Told;

/// What is printed for an answer.
pub fn text_of(alloc: Global, answer: Answer) -> Result<Vec<u8>, AllocError> {
    let mut text = Vec::new(alloc);
    print_answer(&mut text, &LineAnswer::Told(answer))?;
    Ok(text)
}

/// What is printed for what a system told. Where that is what its history keeps, its `log` is asked for the
/// serials and names.
pub fn told_text<S: Shows>(alloc: Global, system: &mut S, told: Told) -> Result<Vec<u8>, Fault> {
    match told {
        Told::Answer(answer) => Ok(text_of(alloc, answer)?),
        told => {
            let log = system.ask(alloc, &Call::Log)?;
            let mut text = Vec::new(alloc);
            print_answer(&mut text, &line_answer_of(alloc, &log, told)?)?;
            Ok(text)
        }
    }
}

/// The answer that a call gives by its outcome.
pub fn answer_of(outcome: Result<Reply, Fault>) -> Answer {
    match outcome {
        Ok(reply) => Answer::Done(reply),
        Err(fault) => Answer::Refused(fault),
    }
}
