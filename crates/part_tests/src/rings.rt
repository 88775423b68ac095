//! Sets of blocks and the ring with ample memory.
use bad_blocks::BadBlocks;
use block_ring::{BlockSet, Marks, Ring};
use std::test::Fail;

// A flash of 32 blocks has 24 data blocks, and block 31 counts as the last one taken before any.
#[test]
fn blocks_are_held_and_taken_in_ring_order(rt: HostRuntime) -> Result<(), Fail> {
    let mut set = BlockSet::new(rt.alloc(), 65_536)?;
    assert_eq!(rt; set.blocks(), 65_536);
    assert_eq!(rt; set.contains(65_535), false);
    set.insert(65_535);
    assert_eq!(rt; set.contains(65_535), true);
    assert_eq!(rt; set.contains(65_534), false);
    let mut ring = Ring::new(rt.alloc(), 32, 31)?;
    let mut bad = BadBlocks::new();
    assert_eq!(rt; ring.free_count(&bad), 24);
    ring.mark_used(8);
    assert_eq!(rt; bad.add(9), Ok(()));
    assert_eq!(rt; ring.free_count(&bad), 22);
    assert_eq!(rt; ring.take(&bad), Some(10));
    assert_eq!(rt; ring.last(), 10);
    assert_eq!(rt; ring.free_count(&bad), 21);
    Ok(())
}

/// What is marked and what was taken since the note was emptied is used, and nothing else.
#[test]
fn marks_are_installed(rt: HostRuntime) -> Result<(), Fail> {
    let mut ring = Ring::new(rt.alloc(), 16, 10)?;
    let bad = BadBlocks::new();
    ring.mark_used(8);
    ring.mark_used(9);
    ring.mark_used(10);
    ring.mark_used(11);
    ring.watch();
    assert_eq!(rt; ring.take(&bad), Some(12));
    let mut marks = Marks::new(rt.alloc(), 16)?;
    marks.insert(8);
    marks.insert(9);
    marks.insert(10);
    ring.install(marks);
    assert!(rt; ring.is_used(8) && ring.is_used(9) && ring.is_used(10) && ring.is_used(12));
    assert!(rt; !ring.is_used(11) && !ring.is_used(13));
    assert_eq!(rt; ring.take(&bad), Some(13));
    Ok(())
}
