//! The calls and steps that are asked of what is mounted.
use fs_types::Fault;
use image_makers::Numbers;
use session_oracle::{ask_of, asks_of};
use std::alloc::{AllocError, Global};
use undofs::Ask;

/// How many calls are asked.
const CALLS: u64 = 20;

/// Lines that ask calls: `D` stands for the path of a directory, `F` for that of a file, `N` for the
/// name of a checkpoint, `S` for a serial and `AT` for a place in a file.
const LINES: [&str; 40] = [
    "mkdir D",
    "mkdir D",
    "mkdir D",
    "mkdir D",
    "rmdir D",
    "rmdir D",
    "unlink F",
    "unlink F",
    "rename F F",
    "rename D D",
    "open F 7",
    "open F 7",
    "open F 23",
    "pwrite 0 AT 616263",
    "pwrite 0 AT 00",
    "pwrite 0 0 7a",
    "pread 0 AT 9",
    "ftruncate 0 AT",
    "ftruncate 0 0",
    "close 0",
    "close 0",
    "close 0",
    "fsync 0",
    "sync",
    "stat D",
    "stat F @S",
    "ls D",
    "ls D =N",
    "read F AT 9",
    "read F 0 99 @S",
    "undo",
    "undo",
    "redo",
    "goto S",
    "rollback N",
    "checkpoint N",
    "rmcheckpoint N",
    "forget 1",
    "df",
    "reclaim 2",
];

/// Lines that are asked of every fourth image after these, in this order: of what the history keeps and of versions that are
/// forgotten for their blocks, of many files, of entries, of cleaning and of preparing, and changes that write
/// over what was cleaned and prepared.
const LATER: [&str; 19] = [
    "df",
    "space",
    "forgetfree 9",
    "df",
    "space",
    "files / f 6162 g -",
    "entries / - 9",
    "clean 3",
    "files /a g 636465 h 00",
    "clean 99",
    "prepare 3",
    "mkdir /c",
    "files /c f 66",
    "entries /a g 2 =v",
    "prepare 99",
    "clean 99",
    "df",
    "space",
    "forgetfree 99",
];

const DIRECTORIES: [&str; 8] = [
    "/",
    "/a",
    "/a",
    "/b",
    "/b",
    "/a/b",
    "/00/01",
    "/00/00/00/00/00/00/00/00/00/00/00/00/00/00/00/00",
];

const FILES: [&str; 6] = ["/f", "/f", "/g", "/g", "/a/g", "/00/f"];

const SERIALS: [&str; 8] = [
    "1",
    "3",
    "4",
    "5",
    "6",
    "18446744073709551613",
    "18446744073709551614",
    "18446744073709551615",
];

const PLACES: [&str; 5] = ["0", "1", "3", "4016", "16777216"];

/// What is asked after the calls of the image with this number: of every fourth image all of these, of the
/// others nothing.
pub fn later_asks(alloc: Global, number: u64) -> Result<Vec<Ask>, Fault> {
    if number % 4 == 0 {
        asks_of(alloc, &LATER)
    } else {
        Ok(Vec::new(alloc))
    }
}

/// The calls of an image, drawn by numbers.
pub fn draw_calls(alloc: Global, numbers: &mut Numbers) -> Result<Vec<Ask>, Fault> {
    let mut asks = Vec::new(alloc);
    for _ in 0..CALLS {
        let line = draw_line(alloc, numbers)?;
        asks.push(ask_of(alloc, line.as_str())?.ok_or(Fault::Invalid)?)?;
    }
    Ok(asks)
}

fn draw_line(alloc: Global, numbers: &mut Numbers) -> Result<String, AllocError> {
    let mut line = String::new(alloc);
    for word in numbers.pick(&LINES, "log").split(' ') {
        if !line.is_empty() {
            line.push(' ')?;
        }
        push_word(&mut line, word, numbers)?;
    }
    Ok(line)
}

/// Appends a word, or what is drawn in its place.
fn push_word(line: &mut String, word: &str, numbers: &mut Numbers) -> Result<(), AllocError> {
    match word {
        "D" => line.push_str(numbers.pick(&DIRECTORIES, "/")),
        "F" => line.push_str(numbers.pick(&FILES, "/f")),
        "N" => line.push_str(numbers.pick(&["v", "w"], "v")),
        "=N" => line.push_str(numbers.pick(&["=v", "=w"], "=v")),
        "S" => line.push_str(numbers.pick(&SERIALS, "1")),
        "@S" => {
            line.push('@')?;
            line.push_str(numbers.pick(&SERIALS, "1"))
        }
        "AT" => line.push_str(numbers.pick(&PLACES, "0")),
        _ => line.push_str(word),
    }
}
