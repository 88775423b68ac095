//! Directories as chains of nodes: what a verification tells of each, and how many reads are asked.
use crate::verifications::{is_told, told_on};
use fs_types::Fault;
use std::alloc::{AllocError, Global};
use worked_contents::ChainNode::{Above, Alone, Chained};
use worked_contents::{CHAIN_ROWS, ChainNode, spelled};

const DAMAGED: Result<u32, Fault> = Err(Fault::Damaged);

/// The blocks from 8 on, so many.
fn blocks_from_8(alloc: Global, count: u32) -> Result<Vec<u32>, AllocError> {
    let mut out = Vec::new(alloc);
    for place in 0..count {
        out.push(place.saturating_add(8))?;
    }
    Ok(out)
}

/// The first of the chains of which a verification tells otherwise than it has to, or asks for more reads.
pub(crate) fn wrong_chain(alloc: Global) -> Result<Option<&'static str>, Fault> {
    for (name, content, wanted, most_reads) in CHAIN_ROWS {
        let told = told_on(alloc, &content.nodes(alloc)?, false)?;
        let reached = blocks_from_8(alloc, wanted.unwrap_or(0))?;
        let wanted = wanted.map(|_| reached.as_slice());
        if !is_told(&told, wanted, most_reads) {
            return Ok(Some(name));
        }
    }
    Ok(None)
}

/// Where only directories that stand alone are allowed, the first node of a chain is refused, and one
/// that nothing reaches is not.
const PLAIN: [(&str, &[ChainNode], Result<u32, Fault>); 4] = [
    ("one that stands alone", &[Alone(0, 32, 0)], Ok(1)),
    ("one of a chain", &[Chained(0, 1, 0)], DAMAGED),
    (
        "one of a chain below",
        &[Above(9, 1), Chained(0, 0, 0)],
        DAMAGED,
    ),
    (
        "one of a chain that nothing reaches",
        &[Alone(0, 1, 9), Chained(0, 0, 0)],
        Ok(1),
    ),
];

/// The first of them of which a verification that allows only those tells otherwise.
pub(crate) fn wrong_plain(alloc: Global) -> Result<Option<&'static str>, Fault> {
    for (name, nodes, wanted) in PLAIN {
        let told = told_on(alloc, &spelled(alloc, nodes)?, true)?;
        if told.fault != wanted.err() {
            return Ok(Some(name));
        }
    }
    Ok(None)
}
