//! Each order is done, and each fails once, is cut once by two answers, and is left unanswered once.
use crate::cuts::{wrong_answered, wrong_unanswered};
use crate::driver_answers::{all_done, answered_by};
use crate::outcomes::{Wrong, wrong_end, wrong_starts};
use crate::part::order_count;
use crate::sessions::{DONE, ORDERS, formatted_image, play};
use std::alloc::Global;
use std::test::Fail;

/// What is wrong where a driver answers so: the script is answered as if each order was done.
fn wrong_with(alloc: Global, image: &[u8], answers: &[u8]) -> Result<Option<Wrong>, Fail> {
    let session = play(alloc, image, answers)?;
    if session.replies.as_str() != DONE {
        return Ok(Some(Wrong::Replies));
    }
    if order_count(&session.orders).is_none() {
        return Ok(Some(Wrong::Orders));
    }
    let wrong = wrong_end(alloc, image, &session, answers)?;
    if wrong.is_some() {
        return Ok(wrong);
    }
    wrong_starts(alloc, image, &session, answers)
}

/// What is wrong in the session of a driver that answers so many orders as done, and the next one so, or not.
fn wrong_order(
    alloc: Global,
    image: &[u8],
    done: usize,
    answer: Option<u8>,
) -> Result<Option<Wrong>, Fail> {
    match answer {
        Some(2) => wrong_with(alloc, image, &answered_by(alloc, done, 2)?),
        Some(answer) => wrong_answered(alloc, image, done, answer),
        None => wrong_unanswered(alloc, image, done),
    }
}

/// How many orders are given where all are done.
fn orders_done(alloc: Global, image: &[u8]) -> Result<Option<usize>, Fail> {
    let session = play(alloc, image, &all_done(alloc)?)?;
    Ok(order_count(&session.orders))
}

#[test]
fn each_order_ends_each_way_once(rt: HostRuntime) -> Result<(), Fail> {
    let image = formatted_image(rt.alloc())?;
    assert_eq!(rt; orders_done(rt.alloc(), &image)?, Some(ORDERS));
    let answers = all_done(rt.alloc())?;
    assert_eq!(rt; wrong_with(rt.alloc(), &image, &answers)?, None);
    for done in 0..ORDERS {
        for answer in [Some(0), Some(3), Some(2), None] {
            let wrong = wrong_order(rt.alloc(), &image, done, answer)?;
            assert_eq!(rt; wrong, None, "{done} {answer:?}");
        }
    }
    Ok(())
}
