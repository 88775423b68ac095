//! The words after the first one of a line.
ghost use Rattle.std.specs.Prelude.{◌≡◌, ◌≢◌, Ok, Err, IfOk, IfErr, MatchResult, map};
ghost use Rattle.script.specs.Lines.{path_of, entry_name_of, from_of, name_of, no_words, one_word, two_words, three_words, one_word_and_view, three_words_and_view, view_from, named_view, view_of};
ghost use Rattle.script.specs.declared.misread.Misread.TheVariants.{NoMemory};

use crate::misread::Misread;
use crate::views::NamedView;
use crate::words::{number, text};
use fs_types::{CpName, Fault, Name, Path, View};
use std::alloc::Global;

/// The path that bytes spell, or its refusal.
pub fn parse_path(alloc: Global, bytes: &[u8]) -> Result<Path, Misread>
    ensures ok { IfOk result (λ path. path_of bytes.now ≡ Ok path) }
    ensures err { IfErr result (λ e. e ≢ NoMemory → path_of bytes.now ≡ Err e) }
{
    match Path::parse(alloc, bytes) {
        Ok(path) => Ok(path),
        Err(Fault::NoMemory) => Err(Misread::NoMemory),
        Err(fault) => Err(Misread::Refused(fault)),
    }
}

/// The name of an entry that bytes spell, or its refusal.
fn parse_entry_name(alloc: Global, bytes: &[u8]) -> Result<Name, Misread>
    ensures ok { IfOk result (λ name. entry_name_of bytes.now ≡ Ok name) }
    ensures err { IfErr result (λ e. e ≢ NoMemory → entry_name_of bytes.now ≡ Err e) }
{
    match Name::parse(alloc, bytes) {
        Ok(name) => Ok(name),
        Err(Fault::NoMemory) => Err(Misread::NoMemory),
        Err(fault) => Err(Misread::Refused(fault)),
    }
}

/// The name of an entry that bytes spell, or its refusal; no bytes name none.
pub fn parse_from(alloc: Global, bytes: &[u8]) -> Result<Option<Name>, Misread>
    ensures ok { IfOk result (λ name. from_of bytes.now ≡ Ok name) }
    ensures err { IfErr result (λ e. e ≢ NoMemory → from_of bytes.now ≡ Err e) }
{
    if bytes.is_empty() {
        return Ok(None);
    }
    Ok(Some(parse_entry_name(alloc, bytes)?))
}

/// The name of a checkpoint that bytes spell, or its refusal.
pub fn parse_name(bytes: &[u8]) -> Result<CpName, Misread>
    ensures { result ≡ name_of bytes.now }
{
    match CpName::parse(bytes) {
        Ok(name) => Ok(name),
        Err(fault) => Err(Misread::Refused(fault)),
    }
}

/// No word follows.
pub fn no_words(words: &[&[u8]]) -> Result<(), Misread>
    ensures { result ≡ no_words (map (λ w. w.now) words.now) }
{
    match words {
        [] => Ok(()),
        _ => Err(Misread::Syntax),
    }
}

/// One word follows.
pub fn one_word<'a>(words: &[&'a [u8]]) -> Result<&'a [u8], Misread>
    ensures { MatchResult result (λ w. one_word (map (λ w. w.now) words.now) ≡ Ok w.now) (λ e. one_word (map (λ w. w.now) words.now) ≡ Err e) }
{
    match words {
        [first] => Ok(first),
        _ => Err(Misread::Syntax),
    }
}

/// Two words follow.
pub fn two_words<'a>(words: &[&'a [u8]]) -> Result<(&'a [u8], &'a [u8]), Misread>
    ensures { MatchResult result
        (λ p. two_words (map (λ w. w.now) words.now) ≡ Ok (p.0.now, p.1.now))
        (λ e. two_words (map (λ w. w.now) words.now) ≡ Err e) }
{
    match words {
        [first, second] => Ok((first, second)),
        _ => Err(Misread::Syntax),
    }
}

/// Three words follow.
pub fn three_words<'a>(words: &[&'a [u8]]) -> Result<(&'a [u8], &'a [u8], &'a [u8]), Misread>
    ensures { MatchResult result
        (λ p. three_words (map (λ w. w.now) words.now) ≡ Ok (p.0.now, p.1.now, p.2.now))
        (λ e. three_words (map (λ w. w.now) words.now) ≡ Err e) }
{
    match words {
        [first, second, third] => Ok((first, second, third)),
        _ => Err(Misread::Syntax),
    }
}

/// One word follows, and perhaps a view.
pub fn one_word_and_view<'a, 'b>(
    words: &'b [&'a [u8]],
) -> Result<(&'a [u8], &'b [&'a [u8]]), Misread>
    ensures { MatchResult result
        (λ p. one_word_and_view (map (λ w. w.now) words.now) ≡ Ok (p.0.now, map (λ w. w.now) p.1.now))
        (λ e. one_word_and_view (map (λ w. w.now) words.now) ≡ Err e) }
{
    match words {
        [first, view @ ..] => Ok((first, view)),
        _ => Err(Misread::Syntax),
    }
}

/// Three words follow, and perhaps a view.
pub fn three_words_and_view<'a, 'b>(
    words: &'b [&'a [u8]],
) -> Result<(&'a [u8], &'a [u8], &'a [u8], &'b [&'a [u8]]), Misread>
    ensures { MatchResult result
        (λ p. three_words_and_view (map (λ w. w.now) words.now) ≡ Ok (p.0.now, p.1.now, p.2.now, map (λ w. w.now) p.3.now))
        (λ e. three_words_and_view (map (λ w. w.now) words.now) ≡ Err e) }
{
    match words {
        [first, second, third, view @ ..] => Ok((first, second, third, view)),
        _ => Err(Misread::Syntax),
    }
}

/// The view that a word names.
fn parse_view(alloc: Global, word: &[u8]) -> Result<NamedView, Misread>
    ensures ok { IfOk result (λ view. view_from word.now ≡ Ok view) }
    ensures err { IfErr result (λ e. e ≢ NoMemory → view_from word.now ≡ Err e) }
{
    match word {
        [b'@', serial @ ..] => Ok(NamedView::AtSerial(number(serial)?)),
        [b'=', name @ ..] => Ok(NamedView::AtName(text(alloc, name)?)),
        _ => Err(Misread::Syntax),
    }
}

/// The view that the last word names, if there is one.
pub fn named_view(alloc: Global, words: &[&[u8]]) -> Result<NamedView, Misread>
    ensures ok { IfOk result (λ view. named_view (map (λ w. w.now) words.now) ≡ Ok view) }
    ensures err { IfErr result (λ e. e ≢ NoMemory → named_view (map (λ w. w.now) words.now) ≡ Err e) }
{
    match words {
        [] => Ok(NamedView::Now),
        [word] => parse_view(alloc, word),
        _ => Err(Misread::Syntax),
    }
}

/// The view, where the name is one of a checkpoint.
pub fn view_of(view: &NamedView) -> Result<View, Misread>
    ensures { result ≡ view_of view.now }
{
    match view {
        NamedView::Now => Ok(View::Present),
        NamedView::AtSerial(serial) => Ok(View::Serial(*serial)),
        NamedView::AtName(name) => Ok(View::Checkpoint(parse_name(name.as_slice())?)),
    }
}
