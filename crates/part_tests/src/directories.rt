//! How many nodes are written where a directory of many entries changes, and which of them stay.
use flash_model::{DevFault, Flash, Geometry, PageView};
use flash_simulation::SimFlash;
use fs_types::{Call, Fault, Path};
use mounting::format;
use std::alloc::{AllocError, Global};
use std::test::Fail;
use system::mount;

const SIZES: Geometry = Geometry {
    page: 256,
    pages: 16,
    blocks: 256,
};

/// The block of the root of a flash that was formatted.
const ROOT: u32 = 8;

/// The block of an empty directory, which each entry of the root names.
const EMPTY: u32 = 64;

/// The name of an entry by its number: `d` and four digits.
fn name_of(number: u32) -> [u8; 5] {
    [
        b'd',
        digit(number / 1000),
        digit(number / 100),
        digit(number / 10),
        digit(number),
    ]
}

fn digit(number: u32) -> u8 {
    b'0' + (number % 10) as u8
}

/// The path of an entry by its number, or one below it.
fn path_of(alloc: Global, number: u32, below: &[u8]) -> Result<Path, Fault> {
    let mut bytes = Vec::with_capacity(alloc, 16)?;
    bytes.extend_from_slice(b"/")?;
    bytes.extend_from_slice(&name_of(number))?;
    bytes.extend_from_slice(below)?;
    Path::parse(alloc, &bytes)
}

/// The bytes of a node in two pages: so many directories with even numbers, from a number on, before
/// the node in a block.
fn node_of(
    alloc: Global,
    magic: &[u8],
    first: u32,
    count: u32,
    next: u32,
) -> Result<Vec<u8>, AllocError> {
    let mut bytes = Vec::with_capacity(alloc, 512)?;
    bytes.extend_from_slice(magic)?;
    bytes.extend_from_slice(&count.to_le_bytes())?;
    bytes.extend_from_slice(&count.saturating_mul(15).to_le_bytes())?;
    bytes.extend_from_slice(&next.to_le_bytes())?;
    for i in 0..count {
        bytes.extend_from_slice(&[2, 5])?;
        bytes.extend_from_slice(&name_of(first.saturating_add(i.saturating_mul(2))))?;
        bytes.extend_from_slice(&EMPTY.to_le_bytes())?;
        bytes.extend_from_slice(&[0; 4])?;
    }
    bytes.resize(512, 0)?;
    Ok(bytes)
}

/// Programs a page; nothing where it is not erased.
fn program(flash: &mut SimFlash, number: u32, bytes: &[u8]) -> Option<Result<(), DevFault>> {
    let sizes = flash.geometry();
    if bytes.len() != 256 || sizes.page != 256 || sizes.page_count() <= number as usize {
        return None;
    }
    match flash.page(number) {
        PageView::Erased => Some(flash.program(number, bytes)),
        _ => None,
    }
}

/// Erases a block, and programs its first two pages with the bytes of a node.
fn store(flash: &mut SimFlash, block: u32, node: &[u8]) -> Result<(), Fail> {
    if node.len() < 512 {
        return Err(Fail::new("no two pages"));
    }
    let first = &node[..256];
    let second = &node[256..512];
    if block >= flash.geometry().blocks || block >= 256 {
        return Err(Fail::new("no such block"));
    }
    flash.erase(block)?;
    program(flash, 16 * block, first).ok_or("an erased page")??;
    program(flash, 16 * block + 1, second).ok_or("an erased page")??;
    Ok(())
}

/// Formats a flash, and gives its root so many empty directories, with the numbers 2, 4 and so on, 32
/// in a node: the nodes stand one after the other from the block of the root on.
fn prepare(alloc: Global, flash: &mut SimFlash, magic: &[u8], count: u32) -> Result<(), Fail> {
    format(alloc, flash, 8)?;
    store(flash, EMPTY, &node_of(alloc, CHAINED, 0, 0, 0)?)?;
    let nodes = count.div_ceil(32);
    for i in 0..nodes {
        let before = i.saturating_mul(32);
        let held = count.saturating_sub(before).min(32);
        let next = if i.saturating_add(1) < nodes {
            ROOT.saturating_add(i).saturating_add(1)
        } else {
            0
        };
        let first = before.saturating_mul(2).saturating_add(2);
        let node = node_of(alloc, magic, first, held, next)?;
        store(flash, ROOT.saturating_add(i), &node)?;
    }
    Ok(())
}

/// The block of the node after the one in a block, 0 where none comes.
fn next_of(flash: &SimFlash, block: u32) -> Option<u32> {
    if block >= 256 || flash.geometry().page_count() <= 16 * block as usize {
        return None;
    }
    match flash.page(16 * block) {
        PageView::Data([_, _, _, _, _, _, _, _, _, _, _, _, a, b, c, d, ..]) => {
            Some(u32::from_le_bytes([*a, *b, *c, *d]))
        }
        _ => None,
    }
}

/// How many nodes a root has, and how many of them stand below a block.
fn nodes_of(flash: &SimFlash, root: u32, end: u32) -> Option<(usize, usize)> {
    let mut block = root;
    let mut kept = 0usize;
    for count in 0..33 {
        if block == 0 {
            return Some((count, kept));
        }
        if block < end {
            kept = kept.saturating_add(1);
        }
        block = next_of(flash, block)?;
    }
    None
}

/// A change of the root of so many entries.
#[derive(Clone, Copy)]
enum Change {
    /// A directory of this number is made.
    Made(u32),
    /// One is made in that of this number, so that its entry leads to another place.
    Below(u32),
    /// That of this number is removed.
    Removed(u32),
    /// That of the first number gets the second.
    Renamed(u32, u32),
}

fn call_of(alloc: Global, change: Change) -> Result<Call, Fault> {
    Ok(match change {
        Change::Made(number) => Call::Mkdir {
            path: path_of(alloc, number, b"")?,
        },
        Change::Below(number) => Call::Mkdir {
            path: path_of(alloc, number, b"/x")?,
        },
        Change::Removed(number) => Call::Rmdir {
            path: path_of(alloc, number, b"")?,
        },
        Change::Renamed(old, new) => Call::Rename {
            old: path_of(alloc, old, b"")?,
            new: path_of(alloc, new, b"")?,
        },
    })
}

/// How many nodes a change of a root of so many entries writes, how many the new root has, and how
/// many of them are nodes of the old one.
fn counted(
    alloc: Global,
    magic: &[u8],
    count: u32,
    change: Change,
) -> Result<(u64, usize, usize), Fail> {
    let mut flash = SimFlash::new(alloc, SIZES, &[])?;
    prepare(alloc, &mut flash, magic, count)?;
    let call = call_of(alloc, change)?;
    let mut system = mount(alloc, &mut flash)?;
    let before = flash.counts().erases;
    system.call(alloc, &mut flash, call.lend())?;
    let written = flash.counts().erases.saturating_sub(before);
    let root = *system.state.history.root();
    let end = ROOT.saturating_add(count.div_ceil(32));
    let (nodes, kept) = nodes_of(&flash, root, end).ok_or("a chain")?;
    Ok((written, nodes, kept))
}

const CHAINED: &[u8] = b"UFNE";

const ALONE: &[u8] = b"UFND";

// A new directory is one node more than those of the root, and one in another two.
#[test]
fn changes_write_the_nodes_that_they_need(rt: HostRuntime) -> Result<(), Fail> {
    let rows = [
        (CHAINED, 1024, Change::Below(2), (1 + 2, 32, 31)),
        (CHAINED, 1024, Change::Below(1026), (17 + 2, 32, 15)),
        (CHAINED, 1024, Change::Below(2048), (32 + 2, 32, 0)),
        (CHAINED, 1023, Change::Made(1), (32 + 1, 32, 0)),
        (CHAINED, 32, Change::Made(66), (2 + 1, 2, 0)),
        (CHAINED, 33, Change::Made(68), (2 + 1, 2, 0)),
        (CHAINED, 1023, Change::Made(2048), (32 + 1, 32, 0)),
        (CHAINED, 33, Change::Removed(2), (1, 1, 0)),
        (CHAINED, 1, Change::Removed(2), (1, 1, 0)),
        (CHAINED, 1024, Change::Renamed(2, 2049), (32, 32, 0)),
        (ALONE, 32, Change::Made(66), (2 + 1, 2, 0)),
        (ALONE, 32, Change::Below(2), (1 + 2, 1, 0)),
    ];
    for (magic, count, change, expected) in rows {
        assert_eq!(rt;
            counted(rt.alloc(), magic, count, change)?,
            expected,
            "of {count}"
        );
    }
    Ok(())
}
