//! The words that are nearest to one that nothing is told by.
use crate::explanations::TOLD;
use std::alloc::{AllocError, Global};
use std::io::Write;
use strsim::levenshtein;

/// Tells that nothing is told by a number, with those that there are, or by a word, with the nearest words.
pub(crate) fn tell_unexplained<E: Write>(alloc: Global, word: &str, err: &mut E) {
    if is_number(word) {
        let _ = writeln!(err, "uffs: EINVAL 7: the numbers are 1 to 31");
        return;
    }
    let _ = match nearest_words(alloc, word) {
        Ok(nearest) => writeln!(err, "uffs: EINVAL 7: nearest are {nearest}"),
        Err(_) => writeln!(err, "uffs: EINVAL 7"),
    };
}

/// Whether a word is digits alone.
fn is_number(word: &str) -> bool {
    !word.is_empty() && word.as_bytes().iter().all(|byte| byte.is_ascii_digit())
}

/// The words of the fewest edits, capitals and small letters being alike, with commas between them.
fn nearest_words(alloc: Global, word: &str) -> Result<String, AllocError> {
    let word = word.to_ascii_lowercase(alloc)?;
    let fewest = fewest_edits(alloc, word.as_str())?;
    let mut nearest = String::new(alloc);
    for told in &TOLD {
        add_nearest(alloc, &mut nearest, told.word(), word.as_str(), fewest)?;
    }
    Ok(nearest)
}

/// Appends a word that is told to the nearest words, where so few edits lead from it to another; once
/// where several refusals have it.
fn add_nearest(
    alloc: Global,
    nearest: &mut String,
    told: &str,
    word: &str,
    fewest: usize,
) -> Result<(), AllocError> {
    if edits(alloc, told, word)? > fewest || nearest.as_str().ends_with(told) {
        return Ok(());
    }
    if !nearest.is_empty() {
        nearest.push_str(", ")?;
    }
    nearest.push_str(told)
}

/// How many edits lead to a nearest word.
fn fewest_edits(alloc: Global, word: &str) -> Result<usize, AllocError> {
    let mut fewest = usize::MAX;
    for told in &TOLD {
        fewest = fewest.min(edits(alloc, told.word(), word)?);
    }
    Ok(fewest)
}

/// How many edits lead from a word that is told, in small letters, to another.
fn edits(alloc: Global, told: &str, word: &str) -> Result<usize, AllocError> {
    levenshtein(alloc, told.to_ascii_lowercase(alloc)?.as_str(), word)
}
