//! Contents of a flash with directories that stand alone, lawful or not, and what has to be told of each.
use crate::nodes::{Entry, FULL, body, directory, file, folder};
use fs_types::Fault;
use std::alloc::{AllocError, Global};

/// The names `00` to `31`, one after the other.
const NUMBERS: &[u8] = b"0001020304050607080910111213141516171819202122232425262728293031";

/// A directory with 32 entries that all name this block.
fn directory_of_one(alloc: Global, block: u32) -> Result<Vec<u8>, AllocError> {
    let mut entries = Vec::new(alloc);
    for name in NUMBERS.chunks(2) {
        entries.push(folder(name, block))?;
    }
    directory(alloc, &entries)
}

/// So many directories, each with 32 entries that all name the next one, and an empty one at the end.
fn shared_directories(alloc: Global, count: u32) -> Result<Vec<Vec<u8>>, AllocError> {
    let mut nodes = Vec::new(alloc);
    for place in 0..count {
        nodes.push(directory_of_one(alloc, place.saturating_add(9))?)?;
    }
    nodes.push(directory(alloc, &[])?)?;
    Ok(nodes)
}

/// Nodes in the blocks from 8 on. Block 8 is the root.
#[derive(Clone, Copy)]
pub enum Content {
    /// A directory whose entry is the directory itself.
    DirectoryBelowItself,
    /// Two directories of these names, in this order.
    Names(&'static [u8], &'static [u8]),
    /// A file of this head and length. Block 9 has a body node of 2 bytes and this index, whose pointer is
    /// block 10, an empty directory.
    File { head: u32, length: u32, index: u32 },
    /// A directory that stands in the block of a body node.
    FolderInBody,
    /// A file of three nodes: block 10 has index 0 and so many bytes, block 9 index 1. Its head has the
    /// block at place 1.
    Chain { block: u32, used: u32 },
    /// Two files of 2 bytes, `xx`, with one head, which has 9.
    SharedHead,
    /// So many levels of directories with 32 entries, all on the block of the next level.
    Levels(u32),
}

impl Content {
    /// Its nodes, in the order of their blocks.
    pub fn nodes(self, alloc: Global) -> Result<Vec<Vec<u8>>, AllocError> {
        match self {
            Content::DirectoryBelowItself => above(alloc, &[folder(b"a", 8)], 0, 2),
            Content::Names(first, second) => two_folders(alloc, first, second),
            Content::File {
                head,
                length,
                index,
            } => above(alloc, &[file(b"f", head, length)], index, 2),
            Content::FolderInBody => above(alloc, &[folder(b"f", 9)], 0, 2),
            Content::Chain { block, used } => chain(alloc, block, used),
            Content::SharedHead => above(alloc, &[file(b"f", 9, 2), file(b"g", 9, 2)], 0, 9),
            Content::Levels(count) => shared_directories(alloc, count),
        }
    }
}

/// A root with these entries, a body node of this index and so many bytes, whose pointer is block 10,
/// and an empty directory there.
fn above(
    alloc: Global,
    entries: &[Entry<'_>],
    index: u32,
    used: u32,
) -> Result<Vec<Vec<u8>>, AllocError> {
    let nodes = [
        directory(alloc, entries)?,
        body(alloc, index, &[10], used)?,
        directory(alloc, &[])?,
    ];
    Ok(Vec::from_array(alloc, nodes)?)
}

fn two_folders(alloc: Global, first: &[u8], second: &[u8]) -> Result<Vec<Vec<u8>>, AllocError> {
    let nodes = [
        directory(alloc, &[folder(first, 9), folder(second, 10)])?,
        directory(alloc, &[])?,
        directory(alloc, &[])?,
    ];
    Ok(Vec::from_array(alloc, nodes)?)
}

fn chain(alloc: Global, block: u32, used: u32) -> Result<Vec<Vec<u8>>, AllocError> {
    let nodes = [
        directory(alloc, &[file(b"f", 11, 2 * FULL + 1)])?,
        body(alloc, 1, &[10], FULL)?,
        body(alloc, 0, &[], used)?,
        body(alloc, 2, &[9, block], 1)?,
    ];
    Ok(Vec::from_array(alloc, nodes)?)
}

/// A name, a content, what it is refused for, else the blocks that are reached, and how many reads a
/// verification asks for at most.
pub type ContentRow = (&'static str, Content, Result<&'static [u32], Fault>, u64);

const DAMAGED: Result<&[u32], Fault> = Err(Fault::Damaged);

/// Contents, each of one kind.
pub const CONTENT_ROWS: [ContentRow; 21] = [
    (
        "a directory below itself",
        Content::DirectoryBelowItself,
        DAMAGED,
        22,
    ),
    (
        "names that ascend",
        Content::Names(b"a", b"b"),
        Ok(&[8, 9, 10]),
        64,
    ),
    (
        "names that descend",
        Content::Names(b"b", b"a"),
        DAMAGED,
        20,
    ),
    ("one name twice", Content::Names(b"a", b"a"), DAMAGED, 20),
    (
        "a directory in a body node's block",
        Content::FolderInBody,
        DAMAGED,
        62,
    ),
    (
        "a head of index 0",
        Content::File {
            head: 9,
            length: 2,
            index: 0,
        },
        Ok(&[8, 9]),
        62,
    ),
    (
        "a head of index 1",
        Content::File {
            head: 9,
            length: 2,
            index: 1,
        },
        DAMAGED,
        62,
    ),
    (
        "length 2 and no head",
        Content::File {
            head: 0,
            length: 2,
            index: 0,
        },
        DAMAGED,
        62,
    ),
    (
        "length 0 and a head",
        Content::File {
            head: 9,
            length: 0,
            index: 0,
        },
        DAMAGED,
        62,
    ),
    (
        "no head and no byte",
        Content::File {
            head: 0,
            length: 0,
            index: 0,
        },
        Ok(&[8]),
        62,
    ),
    (
        "fewer bytes than the length",
        Content::File {
            head: 9,
            length: 3,
            index: 0,
        },
        DAMAGED,
        62,
    ),
    (
        "more bytes than the length",
        Content::File {
            head: 9,
            length: 1,
            index: 0,
        },
        Ok(&[8, 9]),
        62,
    ),
    (
        "a head that is a directory",
        Content::File {
            head: 10,
            length: 2,
            index: 0,
        },
        DAMAGED,
        62,
    ),
    (
        "a head past the flash",
        Content::File {
            head: 40,
            length: 2,
            index: 0,
        },
        DAMAGED,
        62,
    ),
    (
        "a pointer to index 0",
        Content::Chain {
            block: 10,
            used: FULL,
        },
        Ok(&[8, 9, 10, 11]),
        82,
    ),
    (
        "a pointer to index 1",
        Content::Chain {
            block: 9,
            used: FULL,
        },
        DAMAGED,
        82,
    ),
    (
        "a pointer to the head",
        Content::Chain {
            block: 11,
            used: FULL,
        },
        DAMAGED,
        82,
    ),
    (
        "a first node that is not full",
        Content::Chain { block: 10, used: 5 },
        DAMAGED,
        82,
    ),
    ("files with one head", Content::SharedHead, Ok(&[8, 9]), 44),
    (
        "16 levels",
        Content::Levels(16),
        Ok(&[
            8, 9, 10, 11, 12, 13, 14, 15, 16, 17, 18, 19, 20, 21, 22, 23, 24,
        ]),
        20 * 17 + 2 * 512,
    ),
    ("17 levels", Content::Levels(17), DAMAGED, 20 * 18 + 2 * 544),
];
