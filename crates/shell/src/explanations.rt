//! What is told where something is refused, and what it means.
ghost use Rattle.std.specs.Prelude.{◌≡◌, ◌++◌, IfOk, OnOk};
ghost use Rattle.std.specs.List.{filter};
ghost use Rattle.std.specs.Str.{str_eq_ignore_ascii_case};
ghost use Rattle.shell.specs.Explained.{ExplainEnds, PrintsAny, TellsEach, explanation, is_meant, is_number, number_text};

use fs_types::Fault;
use image_jobs::Failure;
use script::{print_number, write_out};
use script_runs::Refusal;
use std::alloc::{AllocError, Global};
use std::io::Write;

/// What is told where something is refused, or is not as it has to be.
#[derive(Clone, Copy, Debug, PartialEq, Eq)]
pub(crate) enum Told {
    /// A refusal, with its number.
    Fault(Fault),
    /// A line or a word of the program is not spelled well.
    Syntax,
    /// More would be told, or looked at, than may be.
    TooManyLines,
    /// No file system is mounted.
    Unmounted,
    /// A file is no image.
    NotImage,
    /// A file is no part.
    NotPart,
    /// An image or a part has no lawful sizes.
    BadGeometry,
    /// A page or a block of an image or a part has no known state.
    BadState,
    /// An image ends too early.
    Truncated,
    /// An image does not end where it has to.
    Trailing,
}

/// All that is told: the refusals in the order of their numbers, and then what has no number.
pub(crate) const TOLD: [Told; 40] = [
    Told::Fault(Fault::NoEntry),
    Told::Fault(Fault::NotDirectory),
    Told::Fault(Fault::IsDirectory),
    Told::Fault(Fault::Exists),
    Told::Fault(Fault::NotEmpty),
    Told::Fault(Fault::NotPermitted),
    Told::Fault(Fault::Invalid),
    Told::Fault(Fault::NameTooLong),
    Told::Fault(Fault::TooBig),
    Told::Fault(Fault::BadDescriptor),
    Told::Fault(Fault::TooManyOpen),
    Told::Fault(Fault::Busy),
    Told::Fault(Fault::DirectoryFull),
    Told::Fault(Fault::CheckpointsFull),
    Told::Fault(Fault::FlashFull),
    Told::Fault(Fault::ReadOnly),
    Told::Fault(Fault::NothingToUndo),
    Told::Fault(Fault::TooOld),
    Told::Fault(Fault::NothingToRedo),
    Told::Fault(Fault::NoSuchVersion),
    Told::Fault(Fault::Discarded),
    Told::Fault(Fault::Overflow),
    Told::Fault(Fault::ReadFailed),
    Told::Fault(Fault::PowerCut),
    Told::Fault(Fault::NoMemory),
    Told::Fault(Fault::Damaged),
    Told::Fault(Fault::NoRecord),
    Told::Fault(Fault::BadGeometry),
    Told::Fault(Fault::NoAnchors),
    Told::Fault(Fault::NoGroup),
    Told::Fault(Fault::InGroup),
    Told::Syntax,
    Told::TooManyLines,
    Told::Unmounted,
    Told::NotImage,
    Told::NotPart,
    Told::BadGeometry,
    Told::BadState,
    Told::Truncated,
    Told::Trailing,
];

impl Told {
    ghost use Rattle.std.specs.Prelude.{◌≡◌};
    ghost use Rattle.shell.specs.Explained.{number_told, word_told};

    /// The word that is told.
    pub(crate) fn word(self) -> &'static str
        ensures { result.now ≡ word_told self }
    {
        match self {
            Told::Fault(fault) => fault.word(),
            Told::Syntax => "SYNTAX",
            Told::TooManyLines => "TOOMANYLINES",
            Told::Unmounted => "unmounted",
            Told::NotImage => "NotImage",
            Told::NotPart => "NotPart",
            Told::BadGeometry => "BadGeometry",
            Told::BadState => "BadState",
            Told::Truncated => "Truncated",
            Told::Trailing => "Trailing",
        }
    }

    /// The number that is told after it, if one is.
    fn number(self) -> Option<u8>
        ensures { result ≡ number_told self }
    {
        match self {
            Told::Fault(fault) => Some(fault.number()),
            _ => None,
        }
    }
}

/// Writes what is meant by this number, or all that is by this word, in capitals or in small letters.
/// Refused by [`Fault::Invalid`] where nothing is.
pub(crate) fn explain<W: Write>(alloc: Global, word: &str, out: &mut W) -> Result<(), Failure>
    ensures { ExplainEnds word.now result (W.contents out.old) (W.contents out.new) }
{
    match text_of_meant(alloc, &TOLD, word) {
        Ok(text) => print_any(out, text.as_slice()),
        Err(_) => Err(Failure::Memory),
    }
}

/// Writes a text; refused by [`Fault::Invalid`] where it has no byte.
fn print_any<W: Write>(out: &mut W, text: &[u8]) -> Result<(), Failure>
    ensures { PrintsAny text.now result (W.contents out.old) (W.contents out.new) }
{
    match text {
        [] => Err(Failure::Refused(Refusal::Fault(Fault::Invalid))),
        _ => match write_out(out, text) {
            Ok(()) => Ok(()),
            Err(_) => Err(Failure::Output),
        },
    }
}

/// A line for each of these that is meant, in order.
fn text_of_meant(alloc: Global, all: &[Told], word: &str) -> Result<Vec<u8>, AllocError>
    ensures { IfOk result (λ text. TellsEach (filter (is_meant word.now) all.now) text.items) }
{
    let mut text = Vec::new(alloc);
    for told in all {
        if is_meant(alloc, word, *told)? {
            print_explanation(&mut text, *told, meaning_of(*told))?;
        }
    }
    Ok(text)
}

/// Whether a word is the number that is told, or the word, in capitals or in small letters.
fn is_meant(alloc: Global, word: &str, told: Told) -> Result<bool, AllocError>
    ensures { IfOk result (λ meant. meant ≡ is_meant word.now told) }
{
    let is_number = is_number(alloc, word, told.number())?;
    Ok(is_number || is_word(told.word(), word))
}

/// Whether two words are the same but for capitals and small letters.
fn is_word(told: &str, word: &str) -> bool
    ensures { result ≡ str_eq_ignore_ascii_case told.now word.now }
{
    told.eq_ignore_ascii_case(word)
}

/// Whether a word is a number, as it is printed.
fn is_number(alloc: Global, word: &str, number: Option<u8>) -> Result<bool, AllocError>
    ensures { IfOk result (λ is. is ≡ is_number word.now number) }
{
    match number {
        Some(number) => {
            let number = format!(in alloc; "{number}")?;
            Ok(number.as_str() == word)
        }
        None => Ok(false),
    }
}

/// Appends the line that tells what is meant.
fn print_explanation(text: &mut Vec<u8>, told: Told, meaning: &str) -> Result<(), AllocError>
    ensures { OnOk result (text.new.items ≡ text.old.items ++ explanation told meaning.now) }
{
    text.extend_from_slice(told.word().as_bytes())?;
    print_told_number(text, told.number())?;
    text.extend_from_slice(b": ")?;
    text.extend_from_slice(meaning.as_bytes())?;
    text.push(b'\n')?;
    Ok(())
}

/// Appends a number that is told, if one is, with a space before it.
fn print_told_number(text: &mut Vec<u8>, number: Option<u8>) -> Result<(), AllocError>
    ensures { OnOk result (text.new.items ≡ text.old.items ++ number_text number) }
{
    match number {
        Some(number) => {
            text.push(b' ')?;
            print_number(text, u64::from(number))
        }
        None => Ok(()),
    }
}

/// What is meant, and what can be done.
fn meaning_of(told: Told) -> &'static str {
    match told {
        Told::Fault(fault) => meaning_of_refusal(fault),
        Told::Syntax => {
            "a line of a script, or PATH, NAME, SERIAL or VIEW, is not spelled as it has to be: a version is @ and its serial, a checkpoint = and its name. Look it up in docs/scripts.md."
        }
        Told::TooManyLines => {
            "more would have to be told, looked through or kept than may be. Ask for less."
        }
        Told::Unmounted => {
            "no file system is mounted, since a `restart` was refused. Begin anew with `restart`."
        }
        Told::NotImage => {
            "the file does not begin as an image. Take the right file: `from-part` and `from-raw` make an image of a part, `untar` puts an archive into one."
        }
        Told::NotPart =>
            "the file does not begin as a part in a flat file. Make one with `to-part`.",
        Told::BadGeometry => {
            "the sizes that stand in the file of an image or a part are not lawful: it is damaged. Take another copy of it."
        }
        Told::BadState => {
            "a page or a block in the file of an image or a part has no known state: it is damaged. Take another copy of it."
        }
        Told::Truncated => {
            "the file ends inside the image: it was not copied whole. Take another copy of it."
        }
        Told::Trailing => {
            "bytes stand after the end of the image: it was not copied alone. Take another copy of it."
        }
    }
}

/// What a refusal means, and what can be done.
fn meaning_of_refusal(fault: Fault) -> &'static str {
    match fault {
        Fault::NoEntry => "nothing stands at the path, or at a name on the way. Look with `ls`.",
        Fault::NotDirectory => "a file stands where a directory is wanted. Look with `stat`.",
        Fault::IsDirectory => "a directory stands where a file is wanted. Look with `stat`.",
        Fault::Exists => "the name is taken. Take another one, or remove what stands there.",
        Fault::NotEmpty => "the directory has entries. Remove them first.",
        Fault::NotPermitted => "`unlink` of a directory. Use `rmdir`.",
        Fault::Invalid => {
            "a word is spelled well and not lawful, as a path without `/` before it. Look it up in docs/scripts.md."
        }
        Fault::NameTooLong => "a name has over 64 bytes, or a path over 16 names. Shorten it.",
        Fault::TooBig => "the file would have over 16777216 bytes. Part it.",
        Fault::BadDescriptor => {
            "the number is of no open file, or of one that is not open for this. Open it with the flags that are wanted."
        }
        Fault::TooManyOpen => "16 files are open. Close one.",
        Fault::Busy => "an open file is in the way, or it is the root. Close the file.",
        Fault::DirectoryFull => "the directory has no room for a name. Put it into another one.",
        Fault::CheckpointsFull => "16 checkpoints are there. Remove one with `rmcheckpoint`.",
        Fault::FlashFull => {
            "no block of the flash is free. Let the oldest versions go with `forget`, and checkpoints with `rmcheckpoint`: what they keep stays used after it was removed."
        }
        Fault::ReadOnly => {
            "the flash is worn out, so that nothing is written any more. Copy what it holds to another one."
        }
        Fault::NothingToUndo => "the present version is the first one. Nothing is to be done.",
        Fault::TooOld => {
            "the version was dropped, since no more are kept. See `log`; a format sets how many are kept."
        }
        Fault::NothingToRedo => "the present version is the last one. Nothing is to be done.",
        Fault::NoSuchVersion =>
            "no version has this serial, or no checkpoint this name. See `log`.",
        Fault::Discarded => {
            "the version was given up by a change after an `undo`. See `log` for those that are kept."
        }
        Fault::Overflow =>
            "no serial or no sequence is left. Copy what the flash holds to another one.",
        Fault::ReadFailed => "the flash failed to read. Try it once more.",
        Fault::PowerCut => "power went. Begin anew with `restart`: what was synced is there.",
        Fault::NoMemory =>
            "memory was wanted and not had. Nothing was changed: give more, and try once more.",
        Fault::Damaged => {
            "what the flash holds is no sound file system. Save what is whole of an image with `copy --salvage`, take another copy of it, or format it."
        }
        Fault::NoRecord => "the flash holds no file system. Format it.",
        Fault::BadGeometry => {
            "the sizes of the flash are not lawful, or not those that it was formatted with. Look them up in docs/format.md."
        }
        Fault::NoAnchors =>
            "fewer than two blocks work in which a record can stand. Take another flash.",
        Fault::NoGroup => "no change group is open. Open one with `begin`.",
        Fault::InGroup =>
            "a change group is open. End it with `end`, or give it up with `abandon`.",
    }
}
