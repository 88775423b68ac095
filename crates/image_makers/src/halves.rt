//! Records of which a part is there.
use crate::contents::{Contents, SIZES, put_record};
use crate::drafts::Draft;
use crate::numbers::Numbers;
use std::alloc::{AllocError, Global};

/// A record of one page, or none, and after it a newer one of two pages or more, of which one is not
/// as it should be.
pub fn half_record(alloc: Global, numbers: &mut Numbers) -> Result<Vec<u8>, AllocError> {
    let mut contents = Contents::drawn(alloc, numbers)?;
    let mut draft = contents.draft(alloc, SIZES)?;
    let mut first = 1;
    if numbers.hits(3) {
        draft.erase(0);
        first = 0;
    }
    contents.record.sequence = 2;
    add_checkpoints(&mut contents)?;
    let end = put_record(alloc, &mut draft, &contents.record, first)?;
    let count = end.saturating_sub(first);
    let lost = first.saturating_add(numbers.place(count));
    lose(alloc, &mut draft, lost, numbers)?;
    draft.image(alloc)
}

/// Names of checkpoints of 31 bytes.
const NAMES: [&str; 8] = [
    "checkpoint-with-a-long-name-0-1",
    "checkpoint-with-a-long-name-0-2",
    "checkpoint-with-a-long-name-0-3",
    "checkpoint-with-a-long-name-0-4",
    "checkpoint-with-a-long-name-0-5",
    "checkpoint-with-a-long-name-0-6",
    "checkpoint-with-a-long-name-0-7",
    "checkpoint-with-a-long-name-0-8",
];

/// Checkpoints that make a record longer than one page.
fn add_checkpoints(contents: &mut Contents) -> Result<(), AllocError> {
    contents.record.checkpoints.clear();
    for name in NAMES {
        contents.record.checkpoints.push((name, 11))?;
    }
    Ok(())
}

/// Erases a page, makes it unreadable, or puts other bytes into it.
fn lose(
    alloc: Global,
    draft: &mut Draft,
    page: usize,
    numbers: &mut Numbers,
) -> Result<(), AllocError> {
    match numbers.below(3) {
        0 => draft.erase(page),
        1 => draft.tear(page),
        _ => draft.put(alloc, page, b"UFCR")?,
    }
    Ok(())
}
