//! The mounts that are measured.
use crate::error::MeasureError;
use crate::texts::{BLOCKS_OF_A_PAGE, HISTORY, MANY_BLOCKS, SMALL_BLOCKS, counts_after, formatted};
use crate::watched::{Counts, Watched};
use flash_model::Geometry;
use fs_types::MOUNTED_NODES;
use std::alloc::Global;

/// A mount that is measured: the sizes of the flash, how many versions are kept, and what is called
/// before.
#[derive(Clone, Copy)]
pub struct Mount {
    pub name: &'static str,
    pub sizes: Geometry,
    pub history: u32,
    pub before: &'static [&'static str],
}

/// What a mount asks of the flash.
pub fn asked_by_mount(alloc: Global, row: &Mount) -> Result<Counts, MeasureError> {
    let mut flash = formatted(alloc, row.sizes, row.history)?;
    asked_by_second_mount(alloc, &mut flash, row.before)
}

/// Carries out lines on a flash, and answers what a mount asks after them.
fn asked_by_second_mount(
    alloc: Global,
    flash: &mut Watched,
    lines: &[&str],
) -> Result<Counts, MeasureError> {
    let before = counts_after(alloc, flash, MOUNTED_NODES, lines)?;
    let after = counts_after(alloc, flash, MOUNTED_NODES, &[])?;
    Ok(after.beyond(before))
}

/// The mounts.
pub const MOUNTS: &[Mount] = &[
    Mount {
        name: "mount of an empty root",
        sizes: SMALL_BLOCKS,
        history: HISTORY,
        before: &[],
    },
    Mount {
        name: "mount of an empty root, 16,384 blocks",
        sizes: MANY_BLOCKS,
        history: HISTORY,
        before: &[],
    },
    Mount {
        name: "mount of five versions, 15 directories",
        sizes: SMALL_BLOCKS,
        history: HISTORY,
        before: &["deep 4", "sync"],
    },
    Mount {
        name: "mount of 32 versions of a directory",
        sizes: SMALL_BLOCKS,
        history: 128,
        before: &["wide 31", "sync"],
    },
    Mount {
        name: "mount of 128 versions of a directory",
        sizes: SMALL_BLOCKS,
        history: 128,
        before: &["wide 127", "sync"],
    },
    Mount {
        name: "mount of 8 versions of 1,000 entries",
        sizes: SMALL_BLOCKS,
        history: HISTORY,
        before: &["wide 1000", "sync"],
    },
    Mount {
        name: "mount of a file of 1 MiB",
        sizes: SMALL_BLOCKS,
        history: HISTORY,
        before: &["open /f 7", "fill 1048576", "sync"],
    },
    Mount {
        name: "mount with 40 MiB in blocks of one page",
        sizes: BLOCKS_OF_A_PAGE,
        history: HISTORY,
        before: &[
            "open /f 7",
            "fill 16777216",
            "close 0",
            "open /g 7",
            "fill 16777216",
            "close 0",
            "open /h 7",
            "fill 8388608",
            "sync",
        ],
    },
];
