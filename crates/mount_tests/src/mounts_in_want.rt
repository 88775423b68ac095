//! Mounts, which keep no bytes of bodies, and of most blocks a few bits.
use crate::budget::Budget;
use flash_model::Geometry;
use flash_simulation::SimFlash;
use fs_types::Fault;
use std::alloc::Global;
use std::test::Fail;
use undofs::{Fs, Path, format};

/// A flash of 64 MiB, of as many blocks as there may be.
const MOST_BLOCKS: Geometry = Geometry {
    page: 256,
    pages: 16,
    blocks: 16_384,
};

/// A flash of large blocks.
const LARGE_BLOCKS: Geometry = Geometry {
    page: 2_048,
    pages: 64,
    blocks: 32,
};

/// What stands on a flash.
#[derive(Clone, Copy)]
enum Content {
    Nothing,
    /// A file of so many bytes.
    File(usize),
    /// A directory that was moved below another one, with its old version.
    MovedDirectory,
}

/// Writes a file of so many bytes, and commits it.
fn write_file(alloc: Global, flash: &mut SimFlash, count: usize) -> Result<(), Fault> {
    let bytes = vec![in alloc; 65; count]?;
    let mut fs = Fs::mount(alloc, flash)?;
    fs.write_file(alloc, &Path::parse(alloc, b"/f")?, &bytes)?;
    fs.sync(alloc)
}

/// Moves a directory below another one, and commits it.
fn move_directory(alloc: Global, flash: &mut SimFlash) -> Result<(), Fault> {
    let mut fs = Fs::mount(alloc, flash)?;
    for path in ["/a", "/b"] {
        fs.mkdir(alloc, &Path::parse(alloc, path.as_bytes())?)?;
    }
    let from = Path::parse(alloc, b"/a")?;
    let to = Path::parse(alloc, b"/b/a")?;
    fs.rename(alloc, &from, &to)?;
    fs.sync(alloc)
}

/// Puts this on an empty flash.
fn put(alloc: Global, flash: &mut SimFlash, content: Content) -> Result<(), Fault> {
    match content {
        Content::Nothing => Ok(()),
        Content::File(count) => write_file(alloc, flash, count),
        Content::MovedDirectory => move_directory(alloc, flash),
    }
}

/// Whether a flash of these sizes with this on it is mounted with so much memory and no more.
fn is_mounted_in(
    alloc: Global,
    sizes: Geometry,
    content: Content,
    bytes: usize,
) -> Result<bool, Fault> {
    let mut flash = SimFlash::new(alloc, sizes, &[])?;
    format(alloc, &mut flash, 8)?;
    put(alloc, &mut flash, content)?;
    let mut budget = Budget::new(alloc)?;
    budget.leave(alloc, bytes);
    let is_mounted = Fs::mount(alloc, &mut flash).is_ok();
    budget.give_back();
    Ok(is_mounted)
}

/// Flashes, what stands on them, and the bytes of memory in which each is mounted: no bytes of a body are
/// kept, and of most blocks a few bits.
const WANTED: &[(Geometry, Content, usize)] = &[
    (LARGE_BLOCKS, Content::File(1_048_576), 16_384),
    (MOST_BLOCKS, Content::Nothing, 24_576),
    (MOST_BLOCKS, Content::File(16_384), 28_672),
    (MOST_BLOCKS, Content::MovedDirectory, 26_624),
];

#[test]
fn mount_wants_memory_by_what_it_meets(rt: HostRuntime) -> Result<(), Fail> {
    for &(sizes, content, bytes) in WANTED {
        assert!(rt; is_mounted_in(rt.alloc(), sizes, content, bytes)?);
    }
    Ok(())
}
