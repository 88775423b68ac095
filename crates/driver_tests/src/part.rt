//! The part that a driver has: what it carries out of the orders that were given, by its answers.
use fields::u32_at;
use flash_model::{Flash, PageState, PageView};
use flash_simulation::{SimFlash, decode, encode};
use std::alloc::Global;
use std::test::Fail;

/// How an order ended.
#[derive(Clone, Copy, Debug, PartialEq, Eq)]
enum End {
    /// It is done.
    Done,
    /// It failed, and power is on.
    Failed,
    /// Power went.
    Cut,
}

impl End {
    /// What an answer says, and what none says.
    fn of(answer: Option<u8>) -> End {
        match answer {
            Some(1) => End::Done,
            Some(2) => End::Failed,
            _ => End::Cut,
        }
    }
}

/// What a driver leaves where an operation failed or power went in it.
#[derive(Clone, Copy, Debug, PartialEq, Eq)]
pub(crate) enum Leaves {
    /// What the flash shows: unreadable pages after a failure, the old ones where power went.
    AsShown,
    /// A page whose program was cut is unreadable. Of a block whose erase failed or was cut every other
    /// page is unreadable; the others stay after a failure, and are erased where power went.
    Torn,
    /// A page whose program was cut has half of its bytes. Of a block whose erase failed or was cut every
    /// other page is erased, and the others stay.
    Half,
    /// A program that was cut, and an erase that failed or was cut, is done all the same.
    Whole,
}

/// What a driver may leave at the next start.
pub(crate) const LEFT: [Leaves; 4] = [Leaves::AsShown, Leaves::Torn, Leaves::Half, Leaves::Whole];

/// An order.
#[derive(Clone, Copy)]
enum Order<'a> {
    /// Program a page.
    Program(u32, &'a [u8]),
    /// Erase a block.
    Erase(u32),
}

/// The order at the front of bytes, and what follows it. `None` where there is no whole one.
fn next_order(bytes: &[u8]) -> Option<(Order<'_>, &[u8])> {
    if bytes.len() < 5 {
        return None;
    }
    let number = u32_at(bytes, 1);
    let rest = &bytes[5..];
    match bytes[0] {
        b'e' => Some((Order::Erase(number), rest)),
        b'p' if rest.len() >= 256 => { Some((Order::Program(number, &rest[..256]), &rest[256..])) }
        _ => None,
    }
}

/// How many orders there are. `None` where the last is cut short.
pub(crate) fn order_count(orders: &[u8]) -> Option<usize> {
    let mut rest = orders;
    for count in 0..orders.len() {
        if rest.is_empty() {
            return Some(count);
        }
        let (_, more) = next_order(rest)?;
        rest = more;
    }
    None
}

/// The image of a part after orders that were given and so answered. An order that has no answer is one in
/// which power went, and one that is cut short is none.
pub(crate) fn replay(
    alloc: Global,
    image: &[u8],
    orders: &[u8],
    answers: &[u8],
    leaves: Leaves,
) -> Result<Vec<u8>, Fail> {
    let mut part = decode(alloc, image)?;
    let mut rest = orders;
    for at in 0..orders.len() {
        let next = next_order(rest);
        let Some((order, more)) = next else {
            break;
        };
        carry_out(&mut part, order, End::of(answers.get(at).copied()), leaves)?;
        rest = more;
    }
    Ok(encode(alloc, &part)?)
}

/// Does an order, fails in it, or loses power in it.
fn carry_out(part: &mut SimFlash, order: Order<'_>, end: End, leaves: Leaves) -> Result<(), Fail> {
    match order {
        Order::Program(page, bytes) => program(part, page, bytes, end, leaves),
        Order::Erase(block) => erase(part, block, end, leaves),
    }
}

/// Programs a page, which has to be erased.
fn program(
    part: &mut SimFlash,
    page: u32,
    bytes: &[u8],
    end: End,
    leaves: Leaves,
) -> Result<(), Fail> {
    if view(part, page)? != PageState::Erased {
        return Err(Fail::new("a page that is not erased"));
    }
    match (end, leaves) {
        (End::Done, _) => put_data(part, page, bytes),
        (End::Failed, _) | (End::Cut, Leaves::Torn) => put_bare(part, page, PageState::Unreadable),
        (End::Cut, Leaves::AsShown) => Ok(()),
        (End::Cut, Leaves::Half) => put_data(part, page, &half_of(bytes)),
        (End::Cut, Leaves::Whole) => put_data(part, page, bytes),
    }
}

/// The first 128 of 256 bytes, and zeros.
fn half_of(bytes: &[u8]) -> [u8; 256] {
    let mut half = [0; 256];
    if bytes.len() >= 128 {
        half[..128].copy_from_slice(&bytes[..128]);
    }
    half
}

/// Erases a block of 16 pages.
fn erase(part: &mut SimFlash, block: u32, end: End, leaves: Leaves) -> Result<(), Fail> {
    for place in 0..16 {
        let page = block.saturating_mul(16).saturating_add(place);
        if let Some(state) = erased_to(end, leaves, place % 2 == 0) {
            put_bare(part, page, state)?;
        }
    }
    Ok(())
}

/// What an erase leaves of a page of the block, or of one in between. `None` where it stays.
fn erased_to(end: End, leaves: Leaves, is_even: bool) -> Option<PageState> {
    match (end, leaves) {
        (End::Done, _) | (_, Leaves::Whole) => Some(PageState::Erased),
        (End::Failed, Leaves::AsShown) => Some(PageState::Unreadable),
        (End::Cut, Leaves::AsShown) => None,
        (_, Leaves::Torn) if is_even => Some(PageState::Unreadable),
        (End::Failed, Leaves::Torn) => None,
        (End::Cut, Leaves::Torn) => Some(PageState::Erased),
        (_, Leaves::Half) if is_even => Some(PageState::Erased),
        (_, Leaves::Half) => None,
    }
}

/// What a page is.
fn view(part: &SimFlash, page: u32) -> Result<PageState, Fail> {
    if page as usize >= part.geometry().page_count() {
        return Err(Fail::new("no page"));
    }
    Ok(match part.page(page) {
        PageView::Erased => PageState::Erased,
        PageView::Data(_) => PageState::Data,
        PageView::Unreadable => PageState::Unreadable,
    })
}

/// Lets a page have bytes.
fn put_data(part: &mut SimFlash, page: u32, bytes: &[u8]) -> Result<(), Fail> {
    let sizes = part.geometry();
    if page as usize >= sizes.page_count() || bytes.len() != sizes.page as usize {
        return Err(Fail::new("no page"));
    }
    part.set_page(page, PageView::Data(bytes));
    Ok(())
}

/// Lets a page be erased, or else unreadable.
fn put_bare(part: &mut SimFlash, page: u32, state: PageState) -> Result<(), Fail> {
    if page as usize >= part.geometry().page_count() {
        return Err(Fail::new("no page"));
    }
    if state == PageState::Erased {
        part.set_page(page, PageView::Erased);
    } else {
        part.set_page(page, PageView::Unreadable);
    }
    Ok(())
}
