//! A flash of large blocks, of which little memory is wanted while no file is read, and two nodes of a
//! file where a byte of it is written.
use crate::budget::Budget;
use flash_model::Geometry;
use flash_simulation::SimFlash;
use fs_types::{Fault, OpenFlags};
use std::alloc::Global;
use std::test::Fail;
use undofs::{Fs, Path, format};

/// Mounts the flash, makes directories in one another, and commits them.
fn make_directories(alloc: Global, flash: &mut SimFlash) -> Result<(), Fault> {
    let mut fs = Fs::mount(alloc, flash)?;
    for path in ["/a", "/a/b", "/a/b/c", "/a/b/c/d"] {
        fs.mkdir(alloc, &Path::parse(alloc, path.as_bytes())?)?;
    }
    fs.sync(alloc)
}

#[test]
fn directories_on_blocks_of_128_kib_are_made_in_16_kib(rt: HostRuntime) -> Result<(), Fail> {
    let sizes = Geometry {
        page: 2_048,
        pages: 64,
        blocks: 32,
    };
    let mut flash = SimFlash::new(rt.alloc(), sizes, &[])?;
    format(rt.alloc(), &mut flash, 8)?;
    let mut budget = Budget::new(rt.alloc())?;
    budget.leave(rt.alloc(), 16_384);
    let made = make_directories(rt.alloc(), &mut flash);
    budget.give_back();
    assert_eq!(rt; made, Ok(()));
    Ok(())
}

/// The bytes of a block of the flash.
const BLOCK: usize = 131_072;

/// Writes a file of so many bytes on blocks of 128 KiB, and commits it.
fn flash_with_file(alloc: Global, count: usize) -> Result<SimFlash, Fault> {
    let sizes = Geometry {
        page: 2_048,
        pages: 64,
        blocks: 64,
    };
    let mut flash = SimFlash::new(alloc, sizes, &[])?;
    format(alloc, &mut flash, 8)?;
    let bytes = vec![in alloc; 65; count]?;
    let mut fs = Fs::mount(alloc, &mut flash)?;
    fs.write_file(alloc, &Path::parse(alloc, b"/f")?, &bytes)?;
    fs.sync(alloc)?;
    drop(fs);
    Ok(flash)
}

/// Mounts the flash, and writes a byte at each of these places of the file.
fn write_bytes(alloc: Global, flash: &mut SimFlash, places: &[u64]) -> Result<(), Fault> {
    let mut fs = Fs::mount(alloc, flash)?;
    let file = fs.open(alloc, &Path::parse(alloc, b"/f")?, OpenFlags::WRITE)?;
    for place in places {
        fs.pwrite(alloc, file, *place, b"b")?;
    }
    fs.close(file)
}

/// Whether bytes of a file of so many are written with so much memory and no more.
fn are_written_in(
    alloc: Global,
    count: usize,
    places: &[u64],
    bytes: usize,
) -> Result<bool, Fault> {
    let mut flash = flash_with_file(alloc, count)?;
    let mut budget = Budget::new(alloc)?;
    budget.leave(alloc, bytes);
    let written = write_bytes(alloc, &mut flash, places);
    budget.give_back();
    Ok(written.is_ok())
}

/// How many bytes a file has, where a byte is written, and how much memory that wants: two nodes in eight
/// full ones, and one node before a short last one.
const WRITTEN: [(usize, [u64; 4], usize); 2] = [
    (
        1_047_936,
        [0, 600_000, 300_000, 1_047_935],
        2 * BLOCK + 16_384,
    ),
    (1_048_576, [0, 600_000, 300_000, 1_048_575], BLOCK + 16_384),
];

#[test]
fn bytes_in_nodes_of_128_kib_are_written_in_two_nodes(rt: HostRuntime) -> Result<(), Fail> {
    for (count, places, bytes) in WRITTEN {
        let are_written = are_written_in(rt.alloc(), count, &places, bytes)?;
        assert!(rt; are_written, "{count}");
    }
    Ok(())
}
