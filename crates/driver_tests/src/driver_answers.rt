//! What a driver tells, and the streams that break.
use fields::push_u64;
use std::alloc::Global;
use std::io;
use std::io::{ErrorKind, Read, Write};
use std::test::Fail;

/// More orders than the script gives.
const MOST_ORDERS: usize = 40;

/// What a driver tells: an image after its length, and then its answers.
pub(crate) fn told(alloc: Global, image: &[u8], answers: &[u8]) -> Result<Vec<u8>, Fail> {
    let mut told = Vec::new(alloc);
    push_u64(&mut told, image.len() as u64)?;
    told.extend_from_slice(image)?;
    told.extend_from_slice(answers)?;
    Ok(told)
}

/// The image of an erased part of so many blocks of 16 pages of 256 bytes, by docs/format.md.
pub(crate) fn erased_image(alloc: Global, blocks: u8) -> Result<Vec<u8>, Fail> {
    let mut image = Vec::new(alloc);
    image.extend_from_slice(b"UFFSIMG1\0\x01\0\0\x10\0\0\0")?;
    image.extend_from_slice(&[blocks, 0, 0, 0])?;
    for _ in 0..blocks {
        image.extend_from_slice(&[0; 17])?;
    }
    Ok(image)
}

/// Answers to all orders as done.
pub(crate) fn all_done(alloc: Global) -> Result<Vec<u8>, Fail> {
    answers_after(alloc, MOST_ORDERS, &[])
}

/// Answers to so many orders as done, this answer, and more as done.
pub(crate) fn answered_by(alloc: Global, done: usize, answer: u8) -> Result<Vec<u8>, Fail> {
    let mut answers = answers_after(alloc, done, &[answer])?;
    answers.extend_from_slice(&[1; MOST_ORDERS])?;
    Ok(answers)
}

/// Answers to so many orders as done, and these.
pub(crate) fn answers_after(alloc: Global, done: usize, last: &[u8]) -> Result<Vec<u8>, Fail> {
    let mut answers = vec![in alloc; 1; done]?;
    answers.extend_from_slice(last)?;
    Ok(answers)
}

/// A reader that gives bytes and then fails.
#[derive(Drop)]
pub(crate) struct Broken<'a> {
    pub(crate) bytes: &'a [u8],
}

impl Read for Broken<'_> {
    fn read(&mut self, buffer: &mut [u8]) -> io::Result<usize> {
        if self.bytes.is_empty() {
            return Err(io::Error::from(ErrorKind::Other));
        }
        self.bytes.read(buffer)
    }
}

/// A reader that a signal interrupts before each read that gives bytes.
#[derive(Drop)]
pub(crate) struct Interrupted<'a> {
    pub(crate) bytes: &'a [u8],
    pub(crate) was_interrupted: bool,
}

impl Read for Interrupted<'_> {
    fn read(&mut self, buffer: &mut [u8]) -> io::Result<usize> {
        self.was_interrupted = !self.was_interrupted;
        if self.was_interrupted {
            return Err(io::Error::from(ErrorKind::Interrupted));
        }
        self.bytes.read(buffer)
    }
}

/// A writer that takes so many bytes and then fails. It holds back what it takes until it is flushed, and a
/// flush fails where it has no room left.
#[derive(Drop)]
pub(crate) struct Full<'a> {
    pub(crate) bytes: &'a mut Vec<u8>,
    pub(crate) held: Vec<u8>,
    pub(crate) room: usize,
}

impl Write for Full<'_> {
    fn write(&mut self, bytes: &[u8]) -> io::Result<usize> {
        match bytes {
            [first, ..] if self.room > 0 => {
                self.held.push(*first)?;
                self.room -= 1;
                Ok(1)
            }
            [] => Ok(0),
            _ => {
                self.bytes.append(&mut self.held)?;
                Err(io::Error::from(ErrorKind::Other))
            }
        }
    }

    fn flush(&mut self) -> io::Result<()> {
        self.bytes.append(&mut self.held)?;
        if self.room == 0 {
            return Err(io::Error::from(ErrorKind::Other));
        }
        Ok(())
    }
}
