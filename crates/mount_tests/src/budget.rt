//! Memory that is held, so that little is left.
use std::alloc::{AllocError, Global};

/// How many bytes are left free between two budgets: more than any call here wants.
const ROOM: usize = 4_194_304;

/// The most pieces that are held.
const MOST_PIECES: usize = 100_000;

/// Holds all memory but a budget.
#[derive(Drop)]
pub(crate) struct Budget {
    /// What is held from the beginning to the end.
    held: Vec<Vec<u8>>,
    /// What is held beside it while a budget stands.
    rest: Vec<Vec<u8>>,
    /// Whether memory has an end: under an address checker it has none.
    pub(crate) is_bounded: bool,
}

impl Budget {
    /// Takes all memory but some room.
    pub(crate) fn new(alloc: Global) -> Result<Budget, AllocError> {
        let mut held = Vec::with_capacity(alloc, MOST_PIECES)?;
        let rest = Vec::with_capacity(alloc, MOST_PIECES)?;
        let room = Vec::<u8>::with_capacity(alloc, ROOM)?;
        take_all(alloc, &mut held, 46);
        let is_bounded = Vec::<u8>::with_capacity(alloc, 16).is_err();
        if !is_bounded {
            held.clear();
        }
        drop(room);
        Ok(Budget {
            held,
            rest,
            is_bounded,
        })
    }

    /// Leaves so many bytes in one piece, where memory has an end.
    pub(crate) fn leave(&mut self, alloc: Global, bytes: usize) {
        if !self.is_bounded {
            return;
        }
        let left = Vec::<u8>::with_capacity(alloc, bytes);
        take_all(alloc, &mut self.rest, 22);
        drop(left);
    }

    /// Gives back what a budget held.
    pub(crate) fn give_back(&mut self) {
        self.rest.clear();
    }
}

/// Takes pieces of memory, each time as large as they come, from 2 to a power down to 16 bytes. The
/// small ones are of every size that the heap keeps apart.
fn take_all(alloc: Global, pieces: &mut Vec<Vec<u8>>, greatest: u32) {
    for shift in (10..=greatest.min(46)).rev() {
        take_pieces(alloc, pieces, 1 << shift);
    }
    for count in (1..=64usize).rev() {
        take_pieces(alloc, pieces, 16 * count);
    }
}

/// Takes pieces of one size, as many as there is a place for.
fn take_pieces(alloc: Global, pieces: &mut Vec<Vec<u8>>, size: usize) {
    for _ in pieces.len()..pieces.capacity() {
        let Ok(piece) = Vec::with_capacity(alloc, size) else {
            return;
        };
        let _ = pieces.push(piece);
    }
}
