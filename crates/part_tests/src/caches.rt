//! Nodes kept in memory.
use block_ring::Ring;
use fs_types::Fault;
use node_store::NodeCache;
use std::alloc::Global;
use std::test::Fail;

/// What is done with a cache, or what is looked at.
#[derive(Clone, Copy)]
enum Act {
    /// Lists a node of a block.
    List(u32, &'static [u8]),
    /// Lists a node of each block from the first to the last.
    ListAll(u32, u32),
    /// These are the bytes of the node that was used last.
    First(&'static [u8]),
    /// These are the bytes of the node that was used last, which is taken out.
    TakeFirst(&'static [u8]),
    /// Whether the node of a block is there; it is the one that was used last then.
    Promote(u32, bool),
    /// Forgets the node of a block.
    Forget(u32),
    /// Leaves the nodes of blocks 9 and 11 alone, which are used.
    ForgetUnused,
    /// Forgets all nodes.
    Clear,
    /// So many nodes are there.
    Length(usize),
}

/// Lists a node for each block from the first to the last.
fn list_nodes(alloc: Global, cache: &mut NodeCache, first: u32, last: u32) -> Result<(), Fault> {
    for block in first..=last {
        cache.list(block, b"node".to_vec(alloc)?)?;
    }
    Ok(())
}

/// Leaves the nodes of the used blocks alone.
fn forget_unused(alloc: Global, cache: &mut NodeCache) -> Result<(), Fault> {
    let mut ring = Ring::new(alloc, 16, 15)?;
    ring.mark_used(9);
    ring.mark_used(11);
    cache.forget_unused(&ring);
    Ok(())
}

/// Does this, and tells whether it is as it has to be.
fn is_so(alloc: Global, cache: &mut NodeCache, act: Act) -> Result<bool, Fault> {
    match act {
        Act::List(block, node) => cache.list(block, node.to_vec(alloc)?)?,
        Act::ListAll(first, last) => list_nodes(alloc, cache, first, last)?,
        Act::First(node) => return Ok(cache.first() == node),
        Act::TakeFirst(node) => return Ok(cache.take_first().as_slice() == node),
        Act::Promote(block, is_there) => return Ok(cache.promote(block) == is_there),
        Act::Forget(block) => cache.forget(block),
        Act::ForgetUnused => forget_unused(alloc, cache)?,
        Act::Clear => cache.clear(),
        Act::Length(count) => return Ok(cache.len() == count),
    }
    Ok(true)
}

/// For how many nodes there is room, and what is done then.
const ROWS: [(usize, &[Act]); 3] = [
    // a cache of two keeps the nodes that were used last
    (
        2,
        &[
            Act::List(8, b"eight"),
            Act::List(9, b"nine"),
            Act::First(b"nine"),
            Act::Promote(8, true),
            Act::First(b"eight"),
            Act::List(10, b"ten"),
            Act::Promote(9, false),
            Act::Length(2),
            Act::TakeFirst(b"ten"),
            Act::First(b"eight"),
            Act::Forget(8),
            Act::Length(0),
            Act::First(b""),
        ],
    ),
    // one of 64 has room for no more
    (
        64,
        &[
            Act::ListAll(8, 72),
            Act::Length(64),
            Act::Promote(8, false),
            Act::Promote(9, true),
            Act::Promote(72, true),
        ],
    ),
    // nodes of unused blocks leave it
    (
        8,
        &[
            Act::ListAll(8, 12),
            Act::ForgetUnused,
            Act::Length(2),
            Act::Promote(9, true),
            Act::Promote(11, true),
            Act::Clear,
            Act::Length(0),
        ],
    ),
];

/// The place of the first act on a cache of so many nodes that is otherwise than it has to be.
fn wrong_act(alloc: Global, room: usize, acts: &[Act]) -> Result<Option<usize>, Fault> {
    let mut cache = NodeCache::new(alloc, room)?;
    let mut place = 0usize;
    for act in acts {
        if !is_so(alloc, &mut cache, *act)? {
            return Ok(Some(place));
        }
        place = place.saturating_add(1);
    }
    Ok(None)
}

#[test]
fn caches_keep_the_nodes_used_last(rt: HostRuntime) -> Result<(), Fail> {
    for (room, acts) in ROWS {
        assert_eq!(rt; wrong_act(rt.alloc(), room, acts)?, None, "of {room}");
    }
    for room in [0, 65] {
        let refusal = NodeCache::new(rt.alloc(), room).err();
        assert_eq!(rt; refusal, Some(Fault::Invalid), "of {room}");
    }
    Ok(())
}
