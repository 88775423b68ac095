//! Power goes in an order, by an answer or since there is none.
use crate::driver_answers::{answered_by, answers_after};
use crate::outcomes::{Wrong, wrong_end, wrong_starts};
use crate::part::order_count;
use crate::sessions::{CUT, Session, play};
use std::alloc::Global;
use std::test::Fail;

/// What is wrong in a session in which power went after so many orders were done: nothing is ordered after
/// it, and what is shown is what the part had.
pub(crate) fn wrong_cut(
    alloc: Global,
    image: &[u8],
    session: &Session,
    answers: &[u8],
    done: usize,
) -> Result<Option<Wrong>, Fail> {
    if !session.replies.as_str().ends_with(CUT) {
        return Ok(Some(Wrong::Replies));
    }
    if order_count(&session.orders) != Some(done.saturating_add(1)) {
        return Ok(Some(Wrong::Orders));
    }
    wrong_end(alloc, image, session, answers)
}

/// The same of the session of a driver that answers so many orders as done, and the next one so.
pub(crate) fn wrong_answered(
    alloc: Global,
    image: &[u8],
    done: usize,
    answer: u8,
) -> Result<Option<Wrong>, Fail> {
    let answers = answered_by(alloc, done, answer)?;
    let session = play(alloc, image, &answers)?;
    wrong_cut(alloc, image, &session, &answers, done)
}

/// The same where the next one is left unanswered, and what is wrong at the next start.
pub(crate) fn wrong_unanswered(
    alloc: Global,
    image: &[u8],
    done: usize,
) -> Result<Option<Wrong>, Fail> {
    let answers = answers_after(alloc, done, &[])?;
    let session = play(alloc, image, &answers)?;
    let wrong = wrong_cut(alloc, image, &session, &answers, done)?;
    if wrong.is_some() {
        return Ok(wrong);
    }
    wrong_starts(alloc, image, &session, &answers)
}
