//! Files of one directory in one call of `write_files`.
use crate::flashes::formatted;
use flash_model::Geometry;
use flash_simulation::SimFlash;
use fs_types::{Bytes, Fault, Name, NamedFile, Path, Sequence, Stat, View};
use std::alloc::Global;
use std::test::Fail;
use undofs::Fs;

const SIZES: Geometry = Geometry {
    page: 256,
    pages: 16,
    blocks: 64,
};

/// A file of so many bytes of one value.
fn file(alloc: Global, name: &[u8], value: u8, count: usize) -> Result<NamedFile, Fault> {
    let bytes = vec![in alloc; value; count]?;
    Ok(NamedFile {
        name: Name::parse(alloc, name)?,
        bytes: Sequence::from_vec(bytes),
    })
}

/// What a call with two files of so many bytes is refused with in an empty directory `/d`, and how many
/// entries it leaves there.
fn refused(alloc: Global, first: usize, second: usize) -> Result<(Option<Fault>, Stat), Fault> {
    let mut flash = formatted(alloc, SIZES, 8)?;
    let mut fs = Fs::mount(alloc, &mut flash)?;
    let directory = Path::parse(alloc, b"/d")?;
    fs.mkdir(alloc, &directory)?;
    let mut files = Vec::new(alloc);
    files.push(file(alloc, b"a", 1, first)?)?;
    files.push(file(alloc, b"b", 2, second)?)?;
    let answer = fs.write_files(alloc, &directory, files.as_slice());
    Ok((answer.err(), fs.stat(&View::Present, &directory)?))
}

/// The bytes of two files of many nodes that were written in the root in one call, read after a mount.
fn read_after_mount(alloc: Global) -> Result<(Bytes, Bytes), Fault> {
    let mut flash = formatted(alloc, SIZES, 8)?;
    let root = Path::root(alloc);
    {
        let mut fs = Fs::mount(alloc, &mut flash)?;
        let mut files = Vec::new(alloc);
        files.push(file(alloc, b"a", 1, 20_000)?)?;
        files.push(file(alloc, b"b", 2, 30_000)?)?;
        fs.write_files(alloc, &root, files.as_slice())?;
        fs.sync(alloc)?;
    }
    let mut fs = Fs::mount(alloc, &mut flash)?;
    let first = fs.read_at(
        alloc,
        &View::Present,
        &Path::parse(alloc, b"/a")?,
        0,
        40_000,
    )?;
    let second = fs.read_at(
        alloc,
        &View::Present,
        &Path::parse(alloc, b"/b")?,
        0,
        40_000,
    )?;
    Ok((first, second))
}

/// The bytes of the second file, and what the call is refused with.
const REFUSED: [(usize, Fault); 2] = [(16_777_217, Fault::TooBig), (1_000_000, Fault::FlashFull)];

#[test]
fn all_files_are_written_or_none(rt: HostRuntime) -> Result<(), Fail> {
    for (second, fault) in REFUSED {
        let answer = refused(rt.alloc(), 1, second)?;
        assert_eq!(rt; answer, (Some(fault), Stat::Dir(0)), "{second}");
    }
    let (first, second) = read_after_mount(rt.alloc())?;
    assert_eq!(rt; first.as_slice().len(), 20_000);
    assert!(rt; first.as_slice().iter().all(|byte| *byte == 1));
    assert_eq!(rt; second.as_slice().len(), 30_000);
    assert!(rt; second.as_slice().iter().all(|byte| *byte == 2));
    Ok(())
}
