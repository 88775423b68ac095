//! Files of one directory in one call, with more and more memory until it is not refused for want of it.
use crate::budget::Budget;
use flash_model::Geometry;
use flash_simulation::SimFlash;
use fs_types::{Fault, Name, NamedFile, Path, Sequence, Stat, View};
use std::alloc::Global;
use std::test::Fail;
use undofs::{Fs, format};

/// Each budget is so many bytes more than the one before.
const STEP: usize = 16;

/// No more budgets are tried than these.
const MOST_BUDGETS: usize = 16_384;

const SIZES: Geometry = Geometry {
    page: 256,
    pages: 16,
    blocks: 32,
};

/// A file of so many bytes.
fn file(alloc: Global, name: &[u8], count: usize) -> Result<NamedFile, Fault> {
    let bytes = vec![in alloc; 65; count]?;
    Ok(NamedFile {
        name: Name::parse(alloc, name)?,
        bytes: Sequence::from_vec(bytes),
    })
}

/// How often a call was refused for want of memory before it was carried out; none where a refused one
/// left an entry in the directory.
fn refusals(
    alloc: Global,
    budget: &mut Budget,
    fs: &mut Fs<'_, SimFlash>,
    files: &[NamedFile],
) -> Result<Option<usize>, Fault> {
    let root = Path::root(alloc);
    for count in 0..MOST_BUDGETS {
        budget.leave(alloc, count * STEP);
        let answer = fs.write_files(alloc, &root, files);
        budget.give_back();
        match answer {
            Ok(()) => return Ok(Some(count)),
            Err(Fault::NoMemory) => {}
            Err(fault) => return Err(fault),
        }
        if fs.stat(&View::Present, &root)? != Stat::Dir(0) {
            return Ok(None);
        }
    }
    Err(Fault::NoMemory)
}

#[test]
fn want_of_memory_writes_no_file(rt: HostRuntime) -> Result<(), Fail> {
    let alloc = rt.alloc();
    let mut flash = SimFlash::new(alloc, SIZES, &[])?;
    format(alloc, &mut flash, 8)?;
    let mut fs = Fs::mount(alloc, &mut flash)?;
    let mut files = Vec::new(alloc);
    files.push(file(alloc, b"a", 3)?)?;
    files.push(file(alloc, b"a name of more than sixteen bytes", 5_000)?)?;
    let mut budget = Budget::new(alloc)?;
    let refused = refusals(alloc, &mut budget, &mut fs, files.as_slice())?;
    let is_bounded = budget.is_bounded;
    drop(budget);
    assert!(rt; refused.is_some_and(|count| count > 0 || !is_bounded));
    assert_eq!(rt; fs.stat(&View::Present, &Path::root(alloc))?, Stat::Dir(2));
    Ok(())
}
