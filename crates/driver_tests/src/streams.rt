//! Streams that break at each byte.
use crate::cuts::wrong_cut;
use crate::driver_answers::{Broken, Full, all_done, answers_after, told};
use crate::outcomes::{Wrong, wrong_end};
use crate::part::order_count;
use crate::sessions::{CUT, ORDERS, Session, formatted_image, play_over, run};
use remote_flash::{StartFault, ToldFlash};
use std::alloc::Global;
use std::test::Fail;

/// A script of five orders: a directory is two nodes, each a block that is erased and a page that is
/// programmed, and a `sync` programs a page.
const SHORT: &str = "mkdir /a\nsync\n";

/// How many bytes these have.
const SHORT_ORDERS: usize = 2 * (5 + 261) + 261;

/// What is wrong where the stream of the orders breaks after so many bytes: these are a beginning of what
/// would have been ordered, and an order that is cut short is none.
fn wrong_break(
    alloc: Global,
    image: &[u8],
    whole: &[u8],
    room: usize,
) -> Result<Option<Wrong>, Fail> {
    let answers = all_done(alloc)?;
    let told = told(alloc, image, &answers)?;
    let mut orders: Vec<u8> = Vec::new(alloc);
    let taken = Full {
        bytes: &mut orders,
        held: Vec::new(alloc),
        room,
    };
    let (replies, shown) = run(alloc, told.as_slice(), taken, SHORT)?;
    let session = Session {
        replies,
        shown,
        orders,
    };
    if !session.replies.as_str().ends_with(CUT) {
        return Ok(Some(Wrong::Replies));
    }
    if session.orders.len() != room || !whole.starts_with(&session.orders) {
        return Ok(Some(Wrong::Orders));
    }
    // the last of whole orders was not flushed, so that its answer is not awaited
    let answers = match order_count(&session.orders) {
        Some(count) => answers_after(alloc, count.saturating_sub(1), &[])?,
        None => answers,
    };
    wrong_end(alloc, image, &session, &answers)
}

/// What is wrong where the stream of the answers breaks after so many of them.
fn wrong_silence(alloc: Global, image: &[u8], done: usize) -> Result<Option<Wrong>, Fail> {
    let answers = answers_after(alloc, done, &[])?;
    let told = told(alloc, image, &answers)?;
    let given = Broken {
        bytes: told.as_slice(),
    };
    let session = play_over(alloc, given)?;
    wrong_cut(alloc, image, &session, &answers, done)
}

/// Why there is no flash where the stream of the answers breaks after these bytes.
fn fault_after(alloc: Global, bytes: &[u8]) -> Option<StartFault> {
    ToldFlash::start(alloc, Broken { bytes }, Vec::<u8>::new(alloc)).err()
}

/// What is ordered where the stream does not break.
fn whole_orders(alloc: Global, image: &[u8]) -> Result<Vec<u8>, Fail> {
    let told = told(alloc, image, &all_done(alloc)?)?;
    let mut orders: Vec<u8> = Vec::new(alloc);
    run(alloc, told.as_slice(), &mut orders, SHORT)?;
    Ok(orders)
}

#[test]
fn the_orders_break_at_each_byte(rt: HostRuntime) -> Result<(), Fail> {
    let image = formatted_image(rt.alloc())?;
    let whole = whole_orders(rt.alloc(), &image)?;
    assert_eq!(rt; whole.len(), SHORT_ORDERS);
    for room in 0..SHORT_ORDERS {
        let wrong = wrong_break(rt.alloc(), &image, &whole, room)?;
        assert_eq!(rt; wrong, None, "{room}");
    }
    Ok(())
}

#[test]
fn the_answers_break_at_each_byte(rt: HostRuntime) -> Result<(), Fail> {
    let image = formatted_image(rt.alloc())?;
    let start = told(rt.alloc(), &image, &[])?;
    for given in 0..start.len() {
        let fault = fault_after(rt.alloc(), &start[..given]);
        assert_eq!(rt; fault, Some(StartFault::Read), "{given}");
    }
    for done in 0..ORDERS {
        let wrong = wrong_silence(rt.alloc(), &image, done)?;
        assert_eq!(rt; wrong, None, "{done}");
    }
    Ok(())
}
