//! Lists of bad blocks.
use crate::contents::Contents;
use crate::numbers::Numbers;
use std::alloc::{AllocError, Global};

/// The sizes of these flashes: pages of 4,096 bytes, one of them a block, 300 blocks.
const SIZES: [u64; 3] = [4_096, 1, 300];

/// How many blocks are listed.
const COUNTS: [u64; 10] = [0, 1, 5, 6, 7, 8, 100, 255, 256, 257];

/// The first block that is listed.
const FIRSTS: [u64; 7] = [0, 1, 2, 3, 8, 9, 40];

/// A new file system with a list of bad blocks, which are worn: of anchors and of data blocks, in
/// order but for one in eight. Its root may be among them.
pub fn bad_blocks(alloc: Global, numbers: &mut Numbers) -> Result<Vec<u8>, AllocError> {
    let mut contents = Contents::fresh(alloc, SIZES)?;
    let first = numbers.pick(&FIRSTS, 0);
    let count = numbers.pick(&COUNTS, 0);
    for block in first..first.saturating_add(count) {
        contents.record.bad.push(block)?;
    }
    if numbers.hits(8) {
        let place = numbers.place(contents.record.bad.len());
        contents.record.bad.rotate_left(place);
    }
    let mut draft = contents.draft(alloc, SIZES)?;
    for block in &contents.record.bad {
        draft.wear(*block as usize);
    }
    draft.image(alloc)
}
