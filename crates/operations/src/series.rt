//! Calls one after the other that are measured together.
use crate::error::MeasureError;
use crate::measures::counts_of;
use crate::texts::{LARGE_BLOCKS, MANY_BLOCKS, SMALL_BLOCKS};
use crate::watched::Counts;
use flash_model::Geometry;
use std::alloc::Global;

/// Calls that are measured together: the sizes of the flash, what is called before, the calls with
/// what is called before, and how many calls these are.
#[derive(Clone, Copy)]
pub struct Series {
    pub name: &'static str,
    pub sizes: Geometry,
    pub before: &'static [&'static str],
    pub after: &'static [&'static str],
    pub calls: u64,
}

/// What the calls ask of the flash with so many nodes in memory, each on the average, where a part counts
/// as a whole.
pub fn asked_by_each(alloc: Global, series: &Series, nodes: usize) -> Result<Counts, MeasureError> {
    let before = counts_of(alloc, series.sizes, nodes, series.before)?;
    let after = counts_of(alloc, series.sizes, nodes, series.after)?;
    Ok(after.beyond(before).each_of(series.calls))
}

const QUARTER: &[&str] = &["open /f 7", "fill 262144"];

const QUARTER_WRITTEN: &[&str] = &["open /f 7", "fill 262144", "scatter 16"];

const FILE: &[&str] = &["open /f 7", "fill 1048576"];

const FILE_WRITTEN: &[&str] = &["open /f 7", "fill 1048576", "scatter 64"];

const FILE_IN_PIECES: &[&str] = &["open /f 7", "fill 1048576", "scan 4096"];

const FILE_IN_SMALL_PIECES: &[&str] = &["open /f 7", "fill 1048576", "scan 512"];

const FILE_IN_SMALLEST_PIECES: &[&str] = &["open /f 7", "fill 1048576", "scan 64"];

const FILE_FORGOTTEN: &[&str] = &["open /f 7", "fill 1048576", "cold"];

const BYTES_READ: &[&str] = &["open /f 7", "fill 1048576", "cold", "gather 1"];

const PIECES_READ: &[&str] = &["open /f 7", "fill 1048576", "cold", "gather 512"];

const FILE_AMONG_MANY: &[&str] = &["flat 1000", "open /1999 7", "fill 1048576"];

const FILE_AMONG_MANY_READ: &[&str] = &["flat 1000", "open /1999 7", "fill 1048576", "gather 64"];

const FILE_TOLD: &[&str] = &["open /f 7", "fill 1048576", "df"];

const FULL_DIRECTORIES: &[&str] = &["broad 1000"];

const FULL_DIRECTORIES_TOLD: &[&str] = &["broad 1000", "cold", "entries /b - 1000"];

const EMPTY_DIRECTORY: &[&str] = &["mkdir /a", "mkdir /a/a", "begin"];

const EMPTY_DIRECTORY_FILLED: &[&str] = &["mkdir /a", "mkdir /a/a", "begin", "lots 1000"];

/// The calls.
pub const SERIES: &[Series] = &[
    Series {
        name: "mkdir and rmdir at depth 4",
        sizes: SMALL_BLOCKS,
        before: &["deep 3"],
        after: &["deep 3", "mkdir /a/a/a/a", "rmdir /a/a/a/a"],
        calls: 1,
    },
    Series {
        name: "mkdir and rmdir at depth 8",
        sizes: SMALL_BLOCKS,
        before: &["deep 7"],
        after: &["deep 7", "mkdir /a/a/a/a/a/a/a/a", "rmdir /a/a/a/a/a/a/a/a"],
        calls: 1,
    },
    Series {
        name: "mkdir and rmdir at depth 16",
        sizes: SMALL_BLOCKS,
        before: &["deep 15"],
        after: &[
            "deep 15",
            "mkdir /a/a/a/a/a/a/a/a/a/a/a/a/a/a/a/a",
            "rmdir /a/a/a/a/a/a/a/a/a/a/a/a/a/a/a/a",
        ],
        calls: 1,
    },
    Series {
        name: "mkdir and rmdir among 10",
        sizes: SMALL_BLOCKS,
        before: &["wide 10"],
        after: &["wide 10", "mkdir /a", "rmdir /a"],
        calls: 1,
    },
    Series {
        name: "mkdir and rmdir among 100",
        sizes: SMALL_BLOCKS,
        before: &["wide 100"],
        after: &["wide 100", "mkdir /a", "rmdir /a"],
        calls: 1,
    },
    Series {
        name: "mkdir and rmdir among 1,000",
        sizes: SMALL_BLOCKS,
        before: &["wide 1000"],
        after: &["wide 1000", "mkdir /a", "rmdir /a"],
        calls: 1,
    },
    Series {
        name: "a byte at 16 places of 256 KiB",
        sizes: SMALL_BLOCKS,
        before: QUARTER,
        after: QUARTER_WRITTEN,
        calls: 16,
    },
    Series {
        name: "a byte at 64 places of 1 MiB",
        sizes: MANY_BLOCKS,
        before: FILE,
        after: FILE_WRITTEN,
        calls: 64,
    },
    Series {
        name: "4,096 bytes of 1 MiB, in turn",
        sizes: SMALL_BLOCKS,
        before: FILE,
        after: FILE_IN_PIECES,
        calls: 256,
    },
    Series {
        name: "512 bytes of 1 MiB, in turn",
        sizes: SMALL_BLOCKS,
        before: FILE,
        after: FILE_IN_SMALL_PIECES,
        calls: 2048,
    },
    Series {
        name: "4,096 bytes of 1 MiB, by 64s",
        sizes: SMALL_BLOCKS,
        before: FILE,
        after: FILE_IN_SMALLEST_PIECES,
        calls: 256,
    },
    Series {
        name: "64 bytes at places, among 1,000",
        sizes: SMALL_BLOCKS,
        before: FILE_AMONG_MANY,
        after: FILE_AMONG_MANY_READ,
        calls: 64,
    },
    Series {
        name: "pread of 1 byte at 64 places",
        sizes: SMALL_BLOCKS,
        before: FILE_FORGOTTEN,
        after: BYTES_READ,
        calls: 64,
    },
    Series {
        name: "pread of 512 bytes at 64 places",
        sizes: SMALL_BLOCKS,
        before: FILE_FORGOTTEN,
        after: PIECES_READ,
        calls: 64,
    },
    Series {
        name: "1,000 files of 20,000 bytes",
        sizes: MANY_BLOCKS,
        before: EMPTY_DIRECTORY,
        after: EMPTY_DIRECTORY_FILLED,
        calls: 1_000,
    },
    Series {
        name: "entries of 1,000 directories",
        sizes: MANY_BLOCKS,
        before: FULL_DIRECTORIES,
        after: FULL_DIRECTORIES_TOLD,
        calls: 1,
    },
    Series {
        name: "mkdir and rmdir at depth 8",
        sizes: LARGE_BLOCKS,
        before: &["deep 7"],
        after: &["deep 7", "mkdir /a/a/a/a/a/a/a/a", "rmdir /a/a/a/a/a/a/a/a"],
        calls: 1,
    },
    Series {
        name: "a byte at 64 places of 1 MiB",
        sizes: LARGE_BLOCKS,
        before: FILE,
        after: FILE_WRITTEN,
        calls: 64,
    },
    Series {
        name: "4,096 bytes of 1 MiB, in turn",
        sizes: LARGE_BLOCKS,
        before: FILE,
        after: FILE_IN_PIECES,
        calls: 256,
    },
    Series {
        name: "512 bytes of 1 MiB, in turn",
        sizes: LARGE_BLOCKS,
        before: FILE,
        after: FILE_IN_SMALL_PIECES,
        calls: 2048,
    },
    Series {
        name: "4,096 bytes of 1 MiB, by 64s",
        sizes: LARGE_BLOCKS,
        before: FILE,
        after: FILE_IN_SMALLEST_PIECES,
        calls: 256,
    },
    Series {
        name: "pread of 1 byte at 64 places",
        sizes: LARGE_BLOCKS,
        before: FILE_FORGOTTEN,
        after: BYTES_READ,
        calls: 64,
    },
    Series {
        name: "pread of 512 bytes at 64 places",
        sizes: LARGE_BLOCKS,
        before: FILE_FORGOTTEN,
        after: PIECES_READ,
        calls: 64,
    },
    Series {
        name: "df with a file of 1 MiB",
        sizes: LARGE_BLOCKS,
        before: FILE,
        after: FILE_TOLD,
        calls: 1,
    },
];

/// The calls that are measured with the most nodes in memory that there may be.
pub const SERIES_WITH_64_NODES: &[Series] = &[
    Series {
        name: "a byte at 16 places, 64 nodes",
        sizes: SMALL_BLOCKS,
        before: QUARTER,
        after: QUARTER_WRITTEN,
        calls: 16,
    },
    Series {
        name: "a byte at 64 places, 64 nodes",
        sizes: LARGE_BLOCKS,
        before: FILE,
        after: FILE_WRITTEN,
        calls: 64,
    },
];
