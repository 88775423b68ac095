//! Directories of several nodes.
use crate::contents::Contents;
use crate::nodes::{Chained, Node};
use crate::numbers::Numbers;
use std::alloc::{AllocError, Global};

/// The sizes of their flash: 128 blocks.
const SIZES: [u64; 3] = [256, 16, 128];

/// The entries of a full node.
const FULL: u64 = 32;

/// The root of two versions, of one to four nodes, seldom of 32 or 33. The roots have a first node each,
/// and share those after it. Of most images something is otherwise then.
pub fn chains(alloc: Global, numbers: &mut Numbers) -> Result<Vec<u8>, AllocError> {
    let mut contents = Contents::fresh(alloc, SIZES)?;
    contents.nodes.clear();
    let count = drawn_count(numbers);
    add_nodes(&mut contents, count, numbers)?;
    contents
        .nodes
        .push((first_block(count), first_node(count)))?;
    contents.add_version(3, first_block(count))?;
    spoil(&mut contents, count, numbers);
    contents.draft(alloc, SIZES)?.image(alloc)
}

fn drawn_count(numbers: &mut Numbers) -> u64 {
    if numbers.hits(400) {
        32
    } else if numbers.hits(20) {
        33
    } else {
        numbers.below(4).saturating_add(1)
    }
}

/// The block of the node of a place in the chain.
fn first_block(place: u64) -> u64 {
    place.saturating_add(8)
}

/// The nodes of the first root, the last of which has one entry to 32.
fn add_nodes(contents: &mut Contents, count: u64, numbers: &mut Numbers) -> Result<(), AllocError> {
    for place in 0..count {
        let is_last = place.saturating_add(1) == count;
        let node = Chained {
            is_chained: true,
            from: place.saturating_mul(FULL),
            count: if is_last {
                numbers.below(FULL).saturating_add(1)
            } else {
                FULL
            },
            next: if is_last {
                0
            } else {
                first_block(place.saturating_add(1))
            },
        };
        contents
            .nodes
            .push((first_block(place), Node::Chained(node)))?;
    }
    Ok(())
}

/// The first node of the second root.
fn first_node(count: u64) -> Node {
    Node::Chained(Chained {
        is_chained: true,
        from: 0,
        count: FULL,
        next: if count == 1 { 0 } else { first_block(1) },
    })
}

/// Lets something be otherwise: of a node, or of the record, which is of the first format then.
fn spoil(contents: &mut Contents, count: u64, numbers: &mut Numbers) {
    if numbers.hits(10) {
        contents.record.format = 1;
    }
    let place = numbers.place(contents.nodes.len());
    if let Some((_, Node::Chained(node))) = contents.nodes.get_mut(place) {
        spoil_node(node, count, numbers);
    }
}

fn spoil_node(node: &mut Chained, count: u64, numbers: &mut Numbers) {
    match numbers.below(12) {
        0 => node.next = first_block(numbers.below(count)),
        1 => node.from = numbers.below(64),
        2 => node.is_chained = false,
        3 => node.count = numbers.below(34),
        4 => node.next = numbers.odd(),
        5 => node.count = 0,
        _ => {}
    }
}
