//! Bytes as a row spells them.
use anyhow::{Context, Result};
use std::alloc::{AllocError, Global};

/// The bytes that words spell, parted by one space: each is hexadecimal digits, or a number, `*` and the
/// digits that come so often. `-` stands for no byte.
pub fn bytes_of(alloc: Global, text: &str) -> Result<Vec<u8>> {
    let mut bytes = Vec::new(alloc);
    if text == "-" {
        return Ok(bytes);
    }
    for word in text.split(' ') {
        push_word(alloc, &mut bytes, word)?;
    }
    Ok(bytes)
}

fn push_word(alloc: Global, bytes: &mut Vec<u8>, word: &str) -> Result<()> {
    let (count, digits) = match word.split_once("*") {
        Some((count, digits)) => (count.parse::<u32>()?, digits),
        None => (1, word),
    };
    let piece = hex::decode(alloc, digits).context(format_args!("the digits {digits}"))?;
    push_often(bytes, count, &piece)?;
    Ok(())
}

fn push_often(bytes: &mut Vec<u8>, count: u32, piece: &[u8]) -> Result<(), AllocError> {
    for _ in 0..count {
        bytes.extend_from_slice(piece)?;
    }
    Ok(())
}
