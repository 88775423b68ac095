//! Verification of roots on a flash in memory: what it answers, what it marks, and how many reads of
//! nodes it asks.
use crate::counted::Counted;
use crate::verified_chains::{wrong_chain, wrong_plain};
use bad_blocks::BadBlocks;
use block_ring::Marks;
use flash_model::{FaultKind, Flash, Geometry, PlannedFault};
use flash_simulation::SimFlash;
use fs_types::Fault;
use node_store::{NodeCache, Storage, Store};
use reclaim::verify;
use std::alloc::Global;
use std::test::Fail;
use worked_contents::{CONTENT_ROWS, Content, put_all};

/// Blocks of one page, so that each node is one read of the flash where no node is kept.
const SIZES: Geometry = Geometry {
    page: 4096,
    pages: 1,
    blocks: BLOCKS,
};

const BLOCKS: u32 = 128;

/// A flash with this content and plan.
fn flash_with(alloc: Global, plan: &[PlannedFault], content: Content) -> Result<SimFlash, Fault> {
    let mut flash = SimFlash::new(alloc, SIZES, plan)?;
    put_all(alloc, &mut flash, &content.nodes(alloc)?)?;
    Ok(flash)
}

/// What verification told: its refusal, the blocks that the pass marked, and how many reads came.
#[derive(Drop)]
pub(crate) struct Outcome {
    pub(crate) fault: Option<Fault>,
    marked: Vec<u32>,
    reads: u64,
}

fn told(alloc: Global, flash: &mut SimFlash, roots: &[u32], plain: bool) -> Result<Outcome, Fault> {
    let sizes = flash.geometry();
    if !sizes.is_lawful() || sizes.blocks != BLOCKS {
        return Err(Fault::BadGeometry);
    }
    let cache = NodeCache::new(alloc, 1)?;
    let mut storage = Storage::unused(alloc, sizes, BadBlocks::new(), BLOCKS - 1, cache)?;
    let store = Store::new(flash, &mut storage);
    let mut nodes = Counted::new(store);
    let answer = verify(alloc, BLOCKS, &mut nodes, roots, plain);
    let reads = nodes.asked();
    match answer {
        Err(fault) => Ok(Outcome {
            fault: Some(fault),
            marked: Vec::new(alloc),
            reads,
        }),
        Ok(pass) => Ok(Outcome {
            fault: None,
            marked: marked_in(alloc, &pass.finish())?,
            reads,
        }),
    }
}

/// The blocks that are marked.
fn marked_in(alloc: Global, marks: &Marks) -> Result<Vec<u32>, Fault> {
    let mut marked = Vec::new(alloc);
    for block in 0..BLOCKS {
        if marks.contains(block) {
            marked.push(block)?;
        }
    }
    Ok(marked)
}

/// What verification of the root in block 8 tells of a content.
fn told_of(alloc: Global, content: Content) -> Result<Outcome, Fault> {
    told_on(alloc, &content.nodes(alloc)?, false)
}

/// The same, of nodes in the blocks from 8 on, where only plain directories may be allowed.
pub(crate) fn told_on(alloc: Global, nodes: &[Vec<u8>], plain: bool) -> Result<Outcome, Fault> {
    let mut flash = SimFlash::new(alloc, SIZES, &[])?;
    put_all(alloc, &mut flash, nodes)?;
    told(alloc, &mut flash, &[8], plain)
}

/// Whether this was told, with so many reads at most.
pub(crate) fn is_told(told: &Outcome, wanted: Result<&[u32], Fault>, most_reads: u64) -> bool {
    let is_same = match wanted {
        Ok(marked) => told.fault.is_none() && told.marked.as_slice() == marked,
        Err(fault) => told.fault == Some(fault) && told.marked.is_empty(),
    };
    is_same && told.reads <= most_reads
}

/// The first of the contents of which a verification tells otherwise than it has to, or asks for more reads.
fn wrong_tree(alloc: Global) -> Result<Option<&'static str>, Fault> {
    for (name, content, wanted, most_reads) in CONTENT_ROWS {
        let told = told_of(alloc, content)?;
        if !is_told(&told, wanted, most_reads) {
            return Ok(Some(name));
        }
    }
    Ok(None)
}

/// Roots on a flash with a directory in block 8 that holds those in 9 and 10: each has to be a data block,
/// and counts once. What verification tells of them, and how many reads it asks for at most.
const ROOTS: [(&[u32], Result<&[u32], Fault>, u64); 8] = [
    (&[9, 0], Err(Fault::Damaged), 0),
    (&[9, 7], Err(Fault::Damaged), 0),
    (&[9, BLOCKS], Err(Fault::Damaged), 0),
    (&[9, u32::MAX], Err(Fault::Damaged), 0),
    (&[9, 9, 9, 9, 9, 9], Ok(&[9]), 20),
    (&[8, 9, 8], Ok(&[8, 9, 10]), 64),
    (&[], Ok(&[]), 0),
    (&[11], Err(Fault::Damaged), 20),
];

/// The first of the lists of roots of which a verification tells otherwise, or asks for more reads.
fn wrong_roots(alloc: Global) -> Result<Option<&'static [u32]>, Fault> {
    let mut flash = flash_with(alloc, &[], Content::Names(b"a", b"b"))?;
    for (roots, wanted, most_reads) in ROOTS {
        let outcome = told(alloc, &mut flash, roots, false)?;
        if !is_told(&outcome, wanted, most_reads) {
            return Ok(Some(roots));
        }
    }
    Ok(None)
}

#[test]
fn roots_are_verified_in_few_reads(rt: HostRuntime) -> Result<(), Fail> {
    assert_eq!(rt; wrong_tree(rt.alloc())?, None);
    assert_eq!(rt; wrong_chain(rt.alloc())?, None);
    assert_eq!(rt; wrong_plain(rt.alloc())?, None);
    assert_eq!(rt; wrong_roots(rt.alloc())?, None);
    Ok(())
}

#[test]
fn a_failing_read_is_told_and_the_next_try_is_whole(rt: HostRuntime) -> Result<(), Fail> {
    let plan = [PlannedFault {
        number: 2,
        kind: FaultKind::ReadFail,
    }];
    let mut flash = flash_with(rt.alloc(), &plan, Content::Names(b"a", b"b"))?;
    let failed = told(rt.alloc(), &mut flash, &[8], false)?;
    assert_eq!(rt;
        (failed.fault, flash.counts().reads),
        (Some(Fault::ReadFailed), 2)
    );
    let whole = told(rt.alloc(), &mut flash, &[8], false)?;
    assert_eq!(rt; whole.fault, None);
    assert_eq!(rt; whole.marked.as_slice(), [8, 9, 10].as_slice());
    Ok(())
}
