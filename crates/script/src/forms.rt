//! Lines by the words after the first.
ghost use Rattle.std.specs.Prelude.{◌≡◌, ◌≢◌, Ok, Err, IfOk, IfErr, map};
ghost use Rattle.script.specs.declared.misread.Misread.TheVariants.{NoMemory};
ghost use Rattle.script.specs.Lines.{fault_line, open_line, pread_line, pwrite_line, ftruncate_line, write_line, rename_line, read_line, entries_line, only_number, only_path, lone_name, path_and_view, path_in_view, stat_line, list_line};

use crate::arguments::{
    named_view, one_word, one_word_and_view, parse_from, parse_name, parse_path, three_words,
    three_words_and_view, two_words, view_of,
};
use crate::kinds::kind_of;
use crate::line::{Line, call_line};
use crate::misread::Misread;
use crate::words::{data, number, text};
use bitflags::Flags;
use fs_types::{Call, CpName, OpenFlags, Path, View};
use std::alloc::Global;

/// `open`: a path and flags.
pub fn open(alloc: Global, words: &[&[u8]]) -> Result<Line, Misread>
    ensures ok { IfOk result (λ line. open_line (map (λ w. w.now) words.now) ≡ Ok line) }
    ensures err { IfErr result (λ e. e ≢ NoMemory → open_line (map (λ w. w.now) words.now) ≡ Err e) }
{
    let (path, flags) = two_words(words)?;
    let path = text(alloc, path)?;
    let flags = OpenFlags::from_bits_retain(number(flags)?);
    let path = parse_path(alloc, path.as_slice())?;
    Ok(call_line(Call::Open { path, flags }))
}

/// `pread`: a descriptor, an offset and a count.
pub fn pread(words: &[&[u8]]) -> Result<Line, Misread>
    ensures { result ≡ pread_line (map (λ w. w.now) words.now) }
{
    let (descriptor, offset, count) = three_words(words)?;
    let descriptor = number(descriptor)?;
    let offset = number(offset)?;
    let count = number(count)?;
    Ok(call_line(Call::Pread {
        descriptor,
        offset,
        count,
    }))
}

/// `pwrite`: a descriptor, an offset and data.
pub fn pwrite(alloc: Global, words: &[&[u8]]) -> Result<Line, Misread>
    ensures ok { IfOk result (λ line. pwrite_line (map (λ w. w.now) words.now) ≡ Ok line) }
    ensures err { IfErr result (λ e. e ≢ NoMemory → pwrite_line (map (λ w. w.now) words.now) ≡ Err e) }
{
    let (descriptor, offset, bytes) = three_words(words)?;
    let descriptor = number(descriptor)?;
    let offset = number(offset)?;
    let bytes = data(alloc, bytes)?;
    Ok(call_line(Call::Pwrite {
        descriptor,
        offset,
        bytes,
    }))
}

/// `ftruncate`: a descriptor and a length.
pub fn ftruncate(words: &[&[u8]]) -> Result<Line, Misread>
    ensures { result ≡ ftruncate_line (map (λ w. w.now) words.now) }
{
    let (descriptor, length) = two_words(words)?;
    let descriptor = number(descriptor)?;
    let length = number(length)?;
    Ok(call_line(Call::Ftruncate { descriptor, length }))
}

/// `write`: a path and data.
pub fn write_file(alloc: Global, words: &[&[u8]]) -> Result<Line, Misread>
    ensures ok { IfOk result (λ line. write_line (map (λ w. w.now) words.now) ≡ Ok line) }
    ensures err { IfErr result (λ e. e ≢ NoMemory → write_line (map (λ w. w.now) words.now) ≡ Err e) }
{
    let (path, bytes) = two_words(words)?;
    let path = text(alloc, path)?;
    let bytes = data(alloc, bytes)?;
    let path = parse_path(alloc, path.as_slice())?;
    Ok(call_line(Call::WriteFile { path, bytes }))
}

/// `rename`: two paths.
pub fn rename(alloc: Global, words: &[&[u8]]) -> Result<Line, Misread>
    ensures ok { IfOk result (λ line. rename_line (map (λ w. w.now) words.now) ≡ Ok line) }
    ensures err { IfErr result (λ e. e ≢ NoMemory → rename_line (map (λ w. w.now) words.now) ≡ Err e) }
{
    let (old, new) = two_words(words)?;
    let old = text(alloc, old)?;
    let new = text(alloc, new)?;
    let old = parse_path(alloc, old.as_slice())?;
    let new = parse_path(alloc, new.as_slice())?;
    Ok(call_line(Call::Rename { old, new }))
}

/// `read`: a path, an offset, a count and perhaps a view.
pub fn read(alloc: Global, words: &[&[u8]]) -> Result<Line, Misread>
    ensures ok { IfOk result (λ line. read_line (map (λ w. w.now) words.now) ≡ Ok line) }
    ensures err { IfErr result (λ e. e ≢ NoMemory → read_line (map (λ w. w.now) words.now) ≡ Err e) }
{
    let (path, offset, count, view) = three_words_and_view(words)?;
    let path = text(alloc, path)?;
    let offset = number(offset)?;
    let count = number(count)?;
    let (path, view) = path_in_view(alloc, path.as_slice(), view)?;
    Ok(call_line(Call::ReadAt {
        view,
        path,
        offset,
        count,
    }))
}

/// `entries`: a path, the name after which they begin, a count and perhaps a view.
pub fn entries(alloc: Global, words: &[&[u8]]) -> Result<Line, Misread>
    ensures ok { IfOk result (λ line. entries_line (map (λ w. w.now) words.now) ≡ Ok line) }
    ensures err { IfErr result (λ e. e ≢ NoMemory → entries_line (map (λ w. w.now) words.now) ≡ Err e) }
{
    let (path, from, most, view) = three_words_and_view(words)?;
    let path = text(alloc, path)?;
    let from = text(alloc, from)?;
    let most = number(most)?;
    let view = named_view(alloc, view)?;
    let path = parse_path(alloc, path.as_slice())?;
    let from = parse_from(alloc, from.as_slice())?;
    let view = view_of(&view)?;
    Ok(call_line(Call::Entries {
        view,
        path,
        from,
        most,
    }))
}

/// One number.
pub fn only_number(words: &[&[u8]]) -> Result<u64, Misread>
    ensures { result ≡ only_number (map (λ w. w.now) words.now) }
{
    number(one_word(words)?)
}

/// One path.
pub fn only_path(alloc: Global, words: &[&[u8]]) -> Result<Path, Misread>
    ensures ok { IfOk result (λ path. only_path (map (λ w. w.now) words.now) ≡ Ok path) }
    ensures err { IfErr result (λ e. e ≢ NoMemory → only_path (map (λ w. w.now) words.now) ≡ Err e) }
{
    let bytes = text(alloc, one_word(words)?)?;
    parse_path(alloc, bytes.as_slice())
}

/// One name of a checkpoint.
pub fn only_name(alloc: Global, words: &[&[u8]]) -> Result<CpName, Misread>
    ensures ok { IfOk result (λ name. lone_name (map (λ w. w.now) words.now) ≡ Ok name) }
    ensures err { IfErr result (λ e. e ≢ NoMemory → lone_name (map (λ w. w.now) words.now) ≡ Err e) }
{
    let bytes = text(alloc, one_word(words)?)?;
    parse_name(bytes.as_slice())
}

/// A path, and perhaps a view.
fn path_and_view(alloc: Global, words: &[&[u8]]) -> Result<(Path, View), Misread>
    ensures ok { IfOk result (λ p. path_and_view (map (λ w. w.now) words.now) ≡ Ok p) }
    ensures err { IfErr result (λ e. e ≢ NoMemory → path_and_view (map (λ w. w.now) words.now) ≡ Err e) }
{
    let (path, view) = one_word_and_view(words)?;
    let path = text(alloc, path)?;
    path_in_view(alloc, path.as_slice(), view)
}

/// A path, and the view that words name.
fn path_in_view(alloc: Global, path: &[u8], view: &[&[u8]]) -> Result<(Path, View), Misread>
    ensures ok { IfOk result (λ p. path_in_view path.now (map (λ w. w.now) view.now) ≡ Ok p) }
    ensures err { IfErr result (λ e. e ≢ NoMemory → path_in_view path.now (map (λ w. w.now) view.now) ≡ Err e) }
{
    let view = named_view(alloc, view)?;
    let path = parse_path(alloc, path)?;
    let view = view_of(&view)?;
    Ok((path, view))
}

/// `stat`: a path and perhaps a view.
pub fn stat(alloc: Global, words: &[&[u8]]) -> Result<Line, Misread>
    ensures ok { IfOk result (λ line. stat_line (map (λ w. w.now) words.now) ≡ Ok line) }
    ensures err { IfErr result (λ e. e ≢ NoMemory → stat_line (map (λ w. w.now) words.now) ≡ Err e) }
{
    let (path, view) = path_and_view(alloc, words)?;
    Ok(call_line(Call::Stat { view, path }))
}

/// `ls`: a path and perhaps a view.
pub fn list(alloc: Global, words: &[&[u8]]) -> Result<Line, Misread>
    ensures ok { IfOk result (λ line. list_line (map (λ w. w.now) words.now) ≡ Ok line) }
    ensures err { IfErr result (λ e. e ≢ NoMemory → list_line (map (λ w. w.now) words.now) ≡ Err e) }
{
    let (path, view) = path_and_view(alloc, words)?;
    Ok(call_line(Call::List { view, path }))
}

/// `fault`: a number and a kind.
pub fn fault(words: &[&[u8]]) -> Result<Line, Misread>
    ensures { result ≡ fault_line (map (λ w. w.now) words.now) }
{
    let (k, kind) = two_words(words)?;
    let k = number(k)?;
    let kind = kind_of(kind).ok_or(Misread::Syntax)?;
    Ok(Line::PlanFault { k, kind })
}
