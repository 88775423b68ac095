//! How many pages are read, by the number of nodes in memory.
use crate::flashes::{SIZES, formatted};
use flash_simulation::SimFlash;
use fs_types::{Fault, Path, View};
use std::alloc::Global;
use std::test::Fail;
use undofs::Fs;

/// How many pages are read by a format, a mount with so many nodes in memory, `mkdir /a`, and so many
/// listings of it, before each of which all nodes in memory are forgotten, or none.
fn reads_of(alloc: Global, nodes: usize, listings: u32, is_cold: bool) -> Result<u64, Fault> {
    let mut flash = formatted(alloc, SIZES, 8)?;
    let mut system = Fs::mount_with(alloc, &mut flash, nodes)?;
    list_often(alloc, &mut system, listings, is_cold)?;
    Ok(system.into_flash().counts().reads)
}

fn list_often(
    alloc: Global,
    system: &mut Fs<'_, SimFlash>,
    listings: u32,
    is_cold: bool,
) -> Result<(), Fault> {
    let path = Path::parse(alloc, b"/a")?;
    system.mkdir(alloc, &path)?;
    for _ in 0..listings {
        list(alloc, system, &path, is_cold)?;
    }
    Ok(())
}

fn list(
    alloc: Global,
    system: &mut Fs<'_, SimFlash>,
    path: &Path,
    is_cold: bool,
) -> Result<(), Fault> {
    if is_cold {
        system.forget_nodes();
    }
    system.list(alloc, &View::Present, path)?;
    Ok(())
}

/// With so many nodes in memory, which are forgotten or not: how many reads more a second listing asks, at
/// least and at most.
const MORE: [(usize, bool, u64, u64); 3] = [
    (8, false, 0, 0),
    (1, false, 1, u64::MAX),
    (8, true, 2, 2),
];

/// How many reads more a second listing asks; none where it asks fewer.
fn more_reads(alloc: Global, nodes: usize, is_cold: bool) -> Result<Option<u64>, Fault> {
    let once = reads_of(alloc, nodes, 1, is_cold)?;
    let twice = reads_of(alloc, nodes, 2, is_cold)?;
    Ok(twice.checked_sub(once))
}

#[test]
fn nodes_in_memory_are_not_read_again(rt: HostRuntime) -> Result<(), Fail> {
    for (nodes, is_cold, least, most) in MORE {
        let more = more_reads(rt.alloc(), nodes, is_cold)?.ok_or("no fewer reads")?;
        assert!(rt; least <= more && more <= most, "{nodes} {is_cold}: {more}");
    }
    Ok(())
}
