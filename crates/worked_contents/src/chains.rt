//! Directories as chains of nodes, lawful or not, and what has to be told of each.
use fields::push_u32;
use fs_types::Fault;
use std::alloc::{AllocError, Global};

/// A node of a directory. Its entries have names of four digits, one number after the other.
#[derive(Clone, Copy)]
pub enum ChainNode {
    /// One of a chain, with empty files: the first name, how many, and the block of the node after it.
    Chained(u32, u32, u32),
    /// One that stands alone: the same, and its fourth field.
    Alone(u32, u32, u32),
    /// One that stands alone, with directories in the blocks from one on: that block, and how many.
    Above(u32, u32),
}

use ChainNode::{Above, Alone, Chained};

/// What entries name: files without bytes, or directories, each so many blocks after the one before it.
#[derive(Clone, Copy)]
enum Named {
    Files,
    Folders { first: u32, step: u32 },
}

/// Entries, the first of which has the name `first`.
#[derive(Clone, Copy)]
struct Entries {
    first: u32,
    count: u32,
    named: Named,
}

/// The last digit of a number.
fn digit(number: u32) -> u8 {
    match u8::try_from(number % 10) {
        Ok(digit) => b'0'.saturating_add(digit),
        Err(_) => b'0',
    }
}

/// A number of four digits.
fn name(number: u32) -> [u8; 4] {
    [
        digit(number / 1000),
        digit(number / 100),
        digit(number / 10),
        digit(number),
    ]
}

fn push_entry(out: &mut Vec<u8>, entries: Entries, place: u32) -> Result<(), AllocError> {
    let (kind, head) = match entries.named {
        Named::Files => (1, 0),
        Named::Folders { first, step } => (2, first.saturating_add(step.saturating_mul(place))),
    };
    out.extend_from_slice(&[kind, 4])?;
    out.extend_from_slice(&name(entries.first.saturating_add(place)))?;
    push_u32(out, head)?;
    push_u32(out, 0)
}

/// A node with this magic and these entries, and a block in its fourth field.
fn bytes_with(
    alloc: Global,
    magic: &[u8],
    entries: Entries,
    next: u32,
) -> Result<Vec<u8>, AllocError> {
    let mut used = Vec::new(alloc);
    for place in 0..entries.count {
        push_entry(&mut used, entries, place)?;
    }
    let mut out = Vec::from_slice(alloc, magic)?;
    push_u32(&mut out, entries.count)?;
    push_u32(&mut out, u32::try_from(used.len()).unwrap_or(0))?;
    push_u32(&mut out, next)?;
    out.extend_from_slice(&used)?;
    Ok(out)
}

fn files(first: u32, count: u32) -> Entries {
    Entries {
        first,
        count,
        named: Named::Files,
    }
}

fn folders(first: u32, count: u32, block: u32, step: u32) -> Entries {
    Entries {
        first,
        count,
        named: Named::Folders { first: block, step },
    }
}

fn bytes_of(alloc: Global, node: ChainNode) -> Result<Vec<u8>, AllocError> {
    match node {
        Chained(first, count, next) => bytes_with(alloc, b"UFNE", files(first, count), next),
        Alone(first, count, next) => bytes_with(alloc, b"UFND", files(first, count), next),
        Above(block, count) => bytes_with(alloc, b"UFND", folders(0, count, block, 1), 0),
    }
}

/// Nodes in the blocks from 8 on. Block 8 is the root.
#[derive(Clone, Copy)]
pub enum ChainContent {
    Nodes(&'static [ChainNode]),
    /// One directory of so many full nodes.
    Long(u32),
    /// A root with 32 directories, whose first nodes all come before one tail of 31 full nodes.
    Heads,
    /// So many levels of 33 entries in two nodes, all on the directory of the next level. The last one has
    /// no entry.
    Levels(u32),
}

impl ChainContent {
    /// Its nodes, in the order of their blocks.
    pub fn nodes(self, alloc: Global) -> Result<Vec<Vec<u8>>, AllocError> {
        match self {
            ChainContent::Nodes(nodes) => spelled(alloc, nodes),
            ChainContent::Long(count) => long(alloc, 0, count, 8),
            ChainContent::Heads => heads(alloc),
            ChainContent::Levels(count) => levels(alloc, count),
        }
    }
}

/// The bytes of these nodes.
pub fn spelled(alloc: Global, nodes: &[ChainNode]) -> Result<Vec<Vec<u8>>, AllocError> {
    let mut out = Vec::new(alloc);
    for node in nodes {
        out.push(bytes_of(alloc, *node)?)?;
    }
    Ok(out)
}

/// So many full nodes, one before the other, in the blocks from one on, with the names from one on.
fn long(alloc: Global, first: u32, count: u32, block: u32) -> Result<Vec<Vec<u8>>, AllocError> {
    let mut out = Vec::new(alloc);
    for place in 0..count {
        let after = place.saturating_add(1);
        let next = if after == count {
            0
        } else {
            block.saturating_add(after)
        };
        let from = first.saturating_add(place.saturating_mul(32));
        out.push(bytes_of(alloc, Chained(from, 32, next))?)?;
    }
    Ok(out)
}

fn heads(alloc: Global) -> Result<Vec<Vec<u8>>, AllocError> {
    let mut out = Vec::new(alloc);
    out.push(bytes_of(alloc, Above(9, 32))?)?;
    for _ in 0..32 {
        out.push(bytes_of(alloc, Chained(0, 32, 41))?)?;
    }
    for node in long(alloc, 32, 31, 41)? {
        out.push(node)?;
    }
    Ok(out)
}

fn levels(alloc: Global, count: u32) -> Result<Vec<Vec<u8>>, AllocError> {
    let mut out = Vec::new(alloc);
    for level in 0..count {
        let last = level.saturating_mul(2).saturating_add(9);
        let below = last.saturating_add(1);
        let full = folders(0, 32, below, 0);
        out.push(bytes_with(alloc, b"UFNE", full, last)?)?;
        let one = folders(32, 1, below, 0);
        out.push(bytes_with(alloc, b"UFNE", one, 0)?)?;
    }
    out.push(bytes_of(alloc, Chained(0, 0, 0))?)?;
    Ok(out)
}

/// A name, a content, what it is refused for, else how many blocks are reached: those from 8 on; and how many
/// reads a verification asks for at most: no fewer than its contract lets come.
pub type ChainRow = (&'static str, ChainContent, Result<u32, Fault>, u64);

const DAMAGED: Result<u32, Fault> = Err(Fault::Damaged);

/// Chains, each of one kind.
pub const CHAIN_ROWS: [ChainRow; 20] = [
    (
        "no entry",
        ChainContent::Nodes(&[Chained(0, 0, 0)]),
        Ok(1),
        20,
    ),
    (
        "two nodes",
        ChainContent::Nodes(&[Chained(0, 32, 9), Chained(32, 1, 0)]),
        Ok(2),
        106,
    ),
    (
        "a second node that stands alone",
        ChainContent::Nodes(&[Chained(0, 32, 9), Alone(32, 1, 0)]),
        DAMAGED,
        106,
    ),
    (
        "a first node that stands alone",
        ChainContent::Nodes(&[Alone(0, 32, 9), Chained(32, 1, 0)]),
        Ok(1),
        84,
    ),
    (
        "a second node without entries",
        ChainContent::Nodes(&[Chained(0, 32, 9), Chained(32, 0, 0)]),
        DAMAGED,
        104,
    ),
    (
        "a first node with 31 entries",
        ChainContent::Nodes(&[Chained(0, 31, 9), Chained(31, 1, 0)]),
        DAMAGED,
        20,
    ),
    (
        "33 entries in a node",
        ChainContent::Nodes(&[Chained(0, 33, 0)]),
        DAMAGED,
        20,
    ),
    (
        "names that ascend in each node and not across",
        ChainContent::Nodes(&[Chained(0, 32, 9), Chained(30, 32, 0)]),
        DAMAGED,
        168,
    ),
    (
        "a name at the end of one node and at the begin of the next",
        ChainContent::Nodes(&[Chained(0, 32, 9), Chained(31, 1, 0)]),
        DAMAGED,
        106,
    ),
    (
        "a next node that is the node",
        ChainContent::Nodes(&[Chained(0, 32, 8)]),
        DAMAGED,
        84,
    ),
    (
        "a next node among the anchors",
        ChainContent::Nodes(&[Chained(0, 32, 3)]),
        DAMAGED,
        84,
    ),
    (
        "a next node past the flash",
        ChainContent::Nodes(&[Chained(0, 32, 128)]),
        DAMAGED,
        84,
    ),
    (
        "a next node in an erased block",
        ChainContent::Nodes(&[Chained(0, 32, 9)]),
        DAMAGED,
        104,
    ),
    (
        "an entry that leads to a second node",
        ChainContent::Nodes(&[Above(9, 2), Chained(0, 32, 10), Chained(32, 1, 0)]),
        Ok(3),
        130,
    ),
    (
        "two first nodes before one",
        ChainContent::Nodes(&[
            Above(9, 2),
            Chained(0, 32, 11),
            Chained(0, 32, 11),
            Chained(32, 1, 0),
        ]),
        Ok(4),
        214,
    ),
    ("32 nodes", ChainContent::Long(32), Ok(32), 32 * 84),
    ("33 nodes", ChainContent::Long(33), DAMAGED, 33 * 84),
    (
        "32 first nodes before 31",
        ChainContent::Heads,
        Ok(64),
        64 * 84,
    ),
    (
        "16 levels of two nodes",
        ChainContent::Levels(16),
        Ok(33),
        16 * 106 + 20,
    ),
    (
        "17 levels of two nodes",
        ChainContent::Levels(17),
        DAMAGED,
        17 * 106 + 20,
    ),
];
