//! The calls that are measured.
use crate::error::MeasureError;
use crate::texts::{HISTORY, SMALL_BLOCKS, counts_after, formatted};
use crate::watched::Counts;
use flash_model::Geometry;
use fs_types::MOUNTED_NODES;
use std::alloc::{AllocError, Global};

/// A call that is measured: what is called before, the call, and the nodes that it may write.
#[derive(Clone, Copy)]
pub struct Measure {
    pub name: &'static str,
    pub before: &'static [&'static str],
    pub call: &'static str,
    pub nodes: u32,
}

/// What a call asks of the flash, with no node in memory and with those that the calls before it left.
#[derive(Clone, Copy)]
pub struct Asked {
    pub cold: Counts,
    pub warm: Counts,
}

/// What a call asks of the flash.
pub fn asked_by(alloc: Global, row: &Measure) -> Result<Asked, MeasureError> {
    let before = counts_of(alloc, SMALL_BLOCKS, MOUNTED_NODES, row.before)?;
    Ok(Asked {
        cold: asked_after(alloc, row, &["cold"], before)?,
        warm: asked_after(alloc, row, &[], before)?,
    })
}

/// What a call asks of the flash after lines that ask nothing of it, beyond what the calls before
/// asked.
fn asked_after(
    alloc: Global,
    row: &Measure,
    still: &[&'static str],
    before: Counts,
) -> Result<Counts, MeasureError> {
    let lines = lines_of(alloc, row, still)?;
    let after = counts_of(alloc, SMALL_BLOCKS, MOUNTED_NODES, &lines)?;
    Ok(after.beyond(before))
}

/// The lines of a measure.
fn lines_of(
    alloc: Global,
    row: &Measure,
    still: &[&'static str],
) -> Result<Vec<&'static str>, AllocError> {
    let mut lines = Vec::new(alloc);
    lines.extend_from_slice(row.before)?;
    lines.extend_from_slice(still)?;
    lines.push(row.call)?;
    Ok(lines)
}

/// What a format, a mount with so many nodes in memory and these lines ask of a flash of these sizes.
pub fn counts_of(
    alloc: Global,
    sizes: Geometry,
    nodes: usize,
    lines: &[&str],
) -> Result<Counts, MeasureError> {
    let mut flash = formatted(alloc, sizes, HISTORY)?;
    counts_after(alloc, &mut flash, nodes, lines)
}

/// What format asks of an erased flash.
pub fn asked_by_format(alloc: Global) -> Result<Counts, MeasureError> {
    Ok(formatted(alloc, SMALL_BLOCKS, HISTORY)?.counts())
}

const EMPTY_FILE: &[&str] = &["open /f 7"];

const FILE_OF_THREE_NODES: &[&str] = &["open /f 7", "ftruncate 0 10000"];

const FILE_OF_1_MIB: &[&str] = &["open /f 7", "fill 1048576"];

const FILE_OF_512_KIB: &[&str] = &["open /f 7", "fill 1048576", "ftruncate 0 524288"];

const FULL_ANCHOR: &[&str] = &[
    "sync", "sync", "sync", "sync", "sync", "sync", "sync", "sync", "sync", "sync", "sync", "sync",
    "sync", "sync", "sync",
];

const LONG_RECORD: &[&str] = &[
    "checkpoint a-name-that-takes-31-bytes-no-1",
    "checkpoint a-name-that-takes-31-bytes-no-2",
    "checkpoint a-name-that-takes-31-bytes-no-3",
    "checkpoint a-name-that-takes-31-bytes-no-4",
    "checkpoint a-name-that-takes-31-bytes-no-5",
    "checkpoint a-name-that-takes-31-bytes-no-6",
];

const THOUSAND_ENTRIES: &[&str] = &["wide 1000"];

const THOUSAND_ENTRIES_CLEANED: &[&str] = &["wide 1000", "reclaim 9999", "clean 9999"];

const THOUSAND_ENTRIES_RECLAIMED: &[&str] = &["wide 1000", "reclaim 9999"];

const THOUSAND_ENTRIES_PREPARED: &[&str] = &["wide 1000", "reclaim 9999", "prepare 99"];

const THOUSAND_FILES: &[&str] = &["flat 1000"];

const FILE_OF_THOUSAND: &[&str] = &["flat 1000", "open /1999 7", "fill 1000"];

const FILE_OF_THOUSAND_READ: &[&str] = &["flat 1000", "open /1999 7", "fill 1000", "pread 0 0 64"];

/// The calls, with the most nodes that each may write.
pub const MEASURES: &[Measure] = &[
    Measure {
        name: "mkdir at depth 1",
        before: &[],
        call: "mkdir /a",
        nodes: 2,
    },
    Measure {
        name: "mkdir at depth 4",
        before: &["deep 3"],
        call: "mkdir /a/a/a/a",
        nodes: 5,
    },
    Measure {
        name: "mkdir at depth 16",
        before: &["deep 15"],
        call: "mkdir /a/a/a/a/a/a/a/a/a/a/a/a/a/a/a/a",
        nodes: 17,
    },
    Measure {
        name: "rmdir at depth 16",
        before: &["deep 16"],
        call: "rmdir /a/a/a/a/a/a/a/a/a/a/a/a/a/a/a/a",
        nodes: 16,
    },
    Measure {
        name: "rename in a directory, depth 16",
        before: &["deep 16"],
        call: "rename /a/a/a/a/a/a/a/a/a/a/a/a/a/a/a/a /a/a/a/a/a/a/a/a/a/a/a/a/a/a/a/b",
        nodes: 32,
    },
    Measure {
        name: "pwrite of a byte at depth 16",
        before: &["deep 15", "open /a/a/a/a/a/a/a/a/a/a/a/a/a/a/a/f 7"],
        call: "pwrite 0 0 41",
        nodes: 17,
    },
    Measure {
        name: "pwrite of a byte into an empty file",
        before: EMPTY_FILE,
        call: "pwrite 0 0 41",
        nodes: 2,
    },
    Measure {
        name: "write of a new file, 1,000 bytes, depth 2",
        before: &["mkdir /a"],
        call: "whole 1000",
        nodes: 3,
    },
    Measure {
        name: "write_files of two, 1,000 bytes, depth 2",
        before: &["mkdir /a"],
        call: "many 2",
        nodes: 4,
    },
    Measure {
        name: "pwrite of 2 bytes, second of three nodes",
        before: FILE_OF_THREE_NODES,
        call: "pwrite 0 5000 4142",
        nodes: 3,
    },
    Measure {
        name: "pwrite of 1 MiB into an empty file",
        before: EMPTY_FILE,
        call: "fill 1048576",
        nodes: 263,
    },
    Measure {
        name: "pwrite of a byte at the start of 1 MiB",
        before: FILE_OF_1_MIB,
        call: "pwrite 0 0 41",
        nodes: 263,
    },
    Measure {
        name: "pwrite of a byte in the middle of 1 MiB",
        before: FILE_OF_1_MIB,
        call: "pwrite 0 524288 41",
        nodes: 133,
    },
    Measure {
        name: "pwrite of a byte at the end of 1 MiB",
        before: FILE_OF_1_MIB,
        call: "pwrite 0 1048576 41",
        nodes: 2,
    },
    Measure {
        name: "pwrite of 1 MiB over 1 MiB",
        before: FILE_OF_1_MIB,
        call: "fill 1048576",
        nodes: 263,
    },
    Measure {
        name: "ftruncate of 1 MiB to 512 KiB",
        before: FILE_OF_1_MIB,
        call: "ftruncate 0 524288",
        nodes: 1,
    },
    Measure {
        name: "ftruncate of 512 KiB to 1 MiB",
        before: FILE_OF_512_KIB,
        call: "ftruncate 0 1048576",
        nodes: 133,
    },
    Measure {
        name: "ls of a directory, depth 16",
        before: &["deep 16"],
        call: "ls /a/a/a/a/a/a/a/a/a/a/a/a/a/a/a/a",
        nodes: 0,
    },
    Measure {
        name: "stat of a directory, depth 16",
        before: &["deep 16"],
        call: "stat /a/a/a/a/a/a/a/a/a/a/a/a/a/a/a/a",
        nodes: 0,
    },
    Measure {
        name: "ls of a directory, depth 4",
        before: &["deep 4"],
        call: "ls /a/a/a/a",
        nodes: 0,
    },
    Measure {
        name: "ls at depth 4 after a pread of 1 MiB",
        before: &["open /f 7", "fill 1048576", "deep 4", "pread 0 0 1048576"],
        call: "ls /a/a/a/a",
        nodes: 0,
    },
    Measure {
        name: "pread of 1 MiB",
        before: FILE_OF_1_MIB,
        call: "pread 0 0 1048576",
        nodes: 0,
    },
    Measure {
        name: "pread of 1 MiB, a second time",
        before: &["open /f 7", "fill 1048576", "pread 0 0 1048576"],
        call: "pread 0 0 1048576",
        nodes: 0,
    },
    Measure {
        name: "pread of 64 bytes among 1,000 entries",
        before: FILE_OF_THOUSAND,
        call: "pread 0 0 64",
        nodes: 0,
    },
    Measure {
        name: "pread of 64 other bytes after it",
        before: FILE_OF_THOUSAND_READ,
        call: "pread 0 512 64",
        nodes: 0,
    },
    Measure {
        name: "mkdir in a directory of 1,000 entries",
        before: THOUSAND_ENTRIES,
        call: "mkdir /a",
        nodes: 33,
    },
    Measure {
        name: "mkdir among 1,000 entries after cleaning",
        before: THOUSAND_ENTRIES_CLEANED,
        call: "mkdir /a",
        nodes: 33,
    },
    Measure {
        name: "mkdir among 1,000 entries after preparing",
        before: THOUSAND_ENTRIES_PREPARED,
        call: "mkdir /a",
        nodes: 33,
    },
    Measure {
        name: "mkdir below the first of 1,000 entries",
        before: THOUSAND_ENTRIES,
        call: "mkdir /1000/a",
        nodes: 34,
    },
    Measure {
        name: "mkdir below the last of 1,000 entries",
        before: THOUSAND_ENTRIES,
        call: "mkdir /1999/a",
        nodes: 34,
    },
    Measure {
        name: "stat of the first of 1,000 entries",
        before: THOUSAND_ENTRIES,
        call: "stat /1000",
        nodes: 0,
    },
    Measure {
        name: "stat of the last of 1,000 entries",
        before: THOUSAND_ENTRIES,
        call: "stat /1999",
        nodes: 0,
    },
    Measure {
        name: "ls of a directory of 1,000 entries",
        before: THOUSAND_ENTRIES,
        call: "ls /",
        nodes: 0,
    },
    Measure {
        name: "entries of 1,000 files",
        before: THOUSAND_FILES,
        call: "entries / - 1000",
        nodes: 0,
    },
    Measure {
        name: "entries of 10 files of 1,000",
        before: THOUSAND_FILES,
        call: "entries / - 10",
        nodes: 0,
    },
    Measure {
        name: "df of five versions, 15 directories",
        before: &["deep 4"],
        call: "df",
        nodes: 0,
    },
    Measure {
        name: "df with a file of 1 MiB",
        before: FILE_OF_1_MIB,
        call: "df",
        nodes: 0,
    },
    Measure {
        name: "undo",
        before: &["deep 4"],
        call: "undo",
        nodes: 0,
    },
    Measure {
        name: "redo",
        before: &["deep 4", "undo"],
        call: "redo",
        nodes: 0,
    },
    Measure {
        name: "begin",
        before: &["deep 4"],
        call: "begin",
        nodes: 0,
    },
    Measure {
        name: "end of a group with four changes",
        before: &["begin", "deep 4"],
        call: "end",
        nodes: 0,
    },
    Measure {
        name: "abandon of a group with four changes",
        before: &["begin", "deep 4"],
        call: "abandon",
        nodes: 0,
    },
    Measure {
        name: "sync of a record of one page",
        before: &["deep 4"],
        call: "sync",
        nodes: 0,
    },
    Measure {
        name: "sync of a record of two pages",
        before: LONG_RECORD,
        call: "sync",
        nodes: 0,
    },
    Measure {
        name: "sync where the anchor is full",
        before: FULL_ANCHOR,
        call: "sync",
        nodes: 0,
    },
    Measure {
        name: "prepare of 4, where no block is prepared",
        before: THOUSAND_ENTRIES_RECLAIMED,
        call: "prepare 4",
        nodes: 0,
    },
    Measure {
        name: "prepare of 99, where no block is prepared",
        before: THOUSAND_ENTRIES_RECLAIMED,
        call: "prepare 99",
        nodes: 0,
    },
    Measure {
        name: "prepare of 99, where all 64 are prepared",
        before: THOUSAND_ENTRIES_PREPARED,
        call: "prepare 99",
        nodes: 0,
    },
];
