//! Nodes written to a flash and read back.
use bad_blocks::BadBlocks;
use flash_model::{FaultKind, Geometry, PlannedFault};
use flash_simulation::SimFlash;
use fs_types::Fault;
use node_store::{NodeCache, Nodes, Storage, Store};
use std::test::Fail;

/// The empty directory.
const EMPTY: [u8; 16] = *b"UFNE\0\0\0\0\0\0\0\0\0\0\0\0";

#[test]
fn a_node_is_written_past_a_block_that_fails(rt: HostRuntime) -> Result<(), Fail> {
    let geometry = Geometry {
        page: 256,
        pages: 16,
        blocks: 16,
    };
    let plan = [PlannedFault {
        number: 1,
        kind: FaultKind::ProgramFail,
    }];
    let mut flash = SimFlash::new(rt.alloc(), geometry, &plan)?;
    let cache = NodeCache::new(rt.alloc(), 2)?;
    let mut storage = Storage::unused(rt.alloc(), geometry, BadBlocks::new(), 15, cache)?;
    {
        let mut store = Store::new(&mut flash, &mut storage);
        assert_eq!(rt; store.write(&EMPTY), Ok(9));
        assert_eq!(rt; store.read(9), Ok(()));
        assert_eq!(rt; store.lent(), EMPTY.as_slice());
        assert_eq!(rt; store.read(8), Err(Fault::Damaged));
        assert_eq!(rt; store.read(7), Err(Fault::Damaged));
        assert_eq!(rt; store.read(u32::MAX), Err(Fault::Damaged));
        assert_eq!(rt; store.write(&EMPTY), Ok(10));
    }
    assert!(rt; storage.bad.contains(8) && !storage.bad.contains(9));
    assert!(rt; storage.ring.is_used(8) && storage.ring.is_used(10) && !storage.ring.is_used(11));
    Ok(())
}
