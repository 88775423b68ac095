//! A script for which memory runs out.
use crate::flashes::{SIZES, formatted};
use script_runs::{ScriptFault, run_script};
use std::io;
use std::io::Read;
use std::test::Fail;

/// A reader that gives its first bytes, then takes all memory that is left, and gives its last bytes.
#[derive(Drop)]
struct Greedy<'a> {
    first: &'a [u8],
    last: &'a [u8],
    held: Vec<Vec<u8>>,
    is_spent: bool,
}

impl Greedy<'_> {
    /// Takes pieces of memory, each time as large as they come, down to 16 bytes, and notes whether
    /// none of these is left.
    fn take_all(&mut self) {
        for shift in 0..43u32 {
            self.take_pieces(1 << (46 - shift));
        }
        self.is_spent = Vec::<u8>::with_capacity(*self.held.allocator(), 16).is_err();
    }

    /// Takes pieces of one size, at most a hundred thousand of all sizes together.
    fn take_pieces(&mut self, size: usize) {
        for _ in 0..100_000u32 {
            match Vec::with_capacity(*self.held.allocator(), size) {
                Ok(piece) if self.held.len() < self.held.capacity() => {
                    let _ = self.held.push(piece);
                }
                _ => return,
            }
        }
    }
}

impl Read for Greedy<'_> {
    fn read(&mut self, buffer: &mut [u8]) -> io::Result<usize> {
        if self.first.is_empty() {
            self.take_all();
            return self.last.read(buffer);
        }
        self.first.read(buffer)
    }
}

/// Where an address checker stands between, memory has no end, and the script runs to its own.
#[test]
fn want_of_memory_leaves_the_replies_before(rt: HostRuntime) -> Result<(), Fail> {
    let mut flash = formatted(rt.alloc(), SIZES, 8)?;
    let mut script = Greedy {
        first: b"mkdir /a\nls /\n",
        last: b"mkdir /b\n",
        held: Vec::with_capacity(rt.alloc(), 100_000)?,
        is_spent: false,
    };
    let mut out: Vec<u8> = Vec::with_capacity(rt.alloc(), 100)?;
    let ended = run_script(rt.alloc(), &mut script, &mut out, &mut flash);
    let is_spent = script.is_spent;
    drop(script);
    if is_spent {
        assert_eq!(rt; ended, Err(ScriptFault::Memory));
        assert_eq!(rt; out.as_slice(), &b"ok\nentries 1 a/\n"[..]);
    } else {
        assert_eq!(rt; ended, Ok(()));
        assert_eq!(rt; out.as_slice(), &b"ok\nentries 1 a/\nok\n"[..]);
    }
    Ok(())
}
