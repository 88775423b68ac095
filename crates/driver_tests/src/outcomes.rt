//! What a session has to come to, and what the next start has to find.
use crate::driver_answers::told;
use crate::part::{LEFT, Leaves, replay};
use crate::sessions::{DONE, Session, image_shown, replies};
use remote_flash::ToldFlash;
use std::alloc::Global;
use std::test::Fail;

/// What is asked of the part at the next start.
const LOOK: &str = "ls /\nls /a\n";

/// What is found then, where so many of the two `sync` are on the part.
fn found_after(syncs: usize) -> &'static str {
    match syncs {
        0 => "entries 0\nerr ENOENT 1\n",
        1 => "entries 1 a/\nentries 1 f\n",
        _ => "entries 1 a/\nentries 2 f g\n",
    }
}

/// How many `sync` of the script are answered as done.
fn synced(replies: &str) -> usize {
    if replies == DONE {
        2
    } else if replies.starts_with("ok\nok\nok\n") {
        1
    } else {
        0
    }
}

/// What is otherwise than it has to be.
#[derive(Clone, Copy, Debug, PartialEq, Eq)]
pub(crate) enum Wrong {
    /// The replies.
    Replies,
    /// The orders.
    Orders,
    /// A page that is shown otherwise than the part has it.
    Shown,
    /// A page that the next start shows otherwise than the part has it.
    ShownNext(Leaves),
    /// What the next start finds.
    Found(Leaves),
}

/// What is wrong at the end of a session: a page is shown otherwise than the driver has it.
pub(crate) fn wrong_end(
    alloc: Global,
    image: &[u8],
    session: &Session,
    answers: &[u8],
) -> Result<Option<Wrong>, Fail> {
    let part = replay(alloc, image, &session.orders, answers, Leaves::AsShown)?;
    if part == session.shown {
        Ok(None)
    } else {
        Ok(Some(Wrong::Shown))
    }
}

/// What is wrong at the next start after a session, whatever the driver left of an order that was not done.
pub(crate) fn wrong_starts(
    alloc: Global,
    image: &[u8],
    session: &Session,
    answers: &[u8],
) -> Result<Option<Wrong>, Fail> {
    let syncs = synced(session.replies.as_str());
    for leaves in LEFT {
        let part = replay(alloc, image, &session.orders, answers, leaves)?;
        let wrong = wrong_start(alloc, &part, leaves, syncs)?;
        if wrong.is_some() {
            return Ok(wrong);
        }
    }
    Ok(None)
}

/// What is wrong at the start on the part of an image, where so many `sync` were answered as done. Where
/// power went in one that the driver did all the same, that one is found too. What is found is not asked
/// where a driver leaves a page with half of its bytes, which none may do on an anchor.
fn wrong_start(
    alloc: Global,
    image: &[u8],
    leaves: Leaves,
    syncs: usize,
) -> Result<Option<Wrong>, Fail> {
    let told = told(alloc, image, &[])?;
    let mut flash = ToldFlash::start(alloc, told.as_slice(), Vec::<u8>::new(alloc))?;
    let shown = image_shown(alloc, &mut flash)?;
    if shown.as_slice() != image {
        return Ok(Some(Wrong::ShownNext(leaves)));
    }
    if leaves == Leaves::Half {
        return Ok(None);
    }
    let found = replies(alloc, &mut flash, LOOK)?;
    let is_more = leaves == Leaves::Whole && found.as_str() == found_after(syncs.saturating_add(1));
    if found.as_str() == found_after(syncs) || is_more {
        Ok(None)
    } else {
        Ok(Some(Wrong::Found(leaves)))
    }
}
