//! What a format answers, by the number of versions and by the operations that fail.
use crate::flashes::SIZES;
use flash_model::{FaultKind, Geometry, PlannedFault};
use flash_simulation::SimFlash;
use fs_types::Fault;
use std::alloc::Global;
use std::test::Fail;
use undofs::format;

/// Formats of one flash, each by how many versions it is to keep, and what is answered.
type Limits = &'static [(u32, Result<(), Fault>)];

/// How many blocks a flash has, and how many of the first operations of a kind have that fault.
type Row = (u32, u64, FaultKind, Limits);

/// Two anchors and a data block have to work, and 256 bad blocks leave no room.
const ROWS: [Row; 8] = [
    (
        32,
        0,
        FaultKind::EraseFail,
        &[
            (0, Err(Fault::Invalid)),
            (1, Err(Fault::Invalid)),
            (129, Err(Fault::Invalid)),
            (2, Ok(())),
            (128, Ok(())),
        ],
    ),
    (32, 6, FaultKind::EraseFail, &[(8, Ok(()))]),
    (32, 7, FaultKind::EraseFail, &[(8, Err(Fault::NoAnchors))]),
    (32, 23, FaultKind::ProgramFail, &[(8, Ok(()))]),
    (
        32,
        24,
        FaultKind::ProgramFail,
        &[(8, Err(Fault::FlashFull))],
    ),
    (
        32,
        1,
        FaultKind::ProgramCutNone,
        &[(8, Err(Fault::PowerCut))],
    ),
    (512, 255, FaultKind::ProgramFail, &[(8, Ok(()))]),
    (
        512,
        256,
        FaultKind::ProgramFail,
        &[(8, Err(Fault::FlashFull))],
    ),
];

/// A flash of so many blocks where the first `count` operations of a kind have that fault.
fn planned(alloc: Global, blocks: u32, count: u64, kind: FaultKind) -> Result<SimFlash, Fault> {
    let sizes = Geometry { blocks, ..SIZES };
    let mut plan = Vec::new(alloc);
    for number in 1..=count {
        plan.push(PlannedFault {
            number: u128::from(number),
            kind,
        })?;
    }
    SimFlash::new(alloc, sizes, &plan)
}

/// The first of the formats of a flash that is answered otherwise than it has to be, or that erases a block
/// where the number of versions is refused.
fn wrong_limit(alloc: Global, flash: &mut SimFlash, limits: Limits) -> Option<u32> {
    for (limit, wanted) in limits {
        let before = flash.counts().erases;
        let answer = format(alloc, flash, *limit);
        let is_erased = flash.counts().erases != before;
        if answer != *wanted || (answer == Err(Fault::Invalid) && is_erased) {
            return Some(*limit);
        }
    }
    None
}

#[test]
fn formats_are_answered(rt: HostRuntime) -> Result<(), Fail> {
    for (blocks, count, kind, limits) in ROWS {
        let mut flash = planned(rt.alloc(), blocks, count, kind)?;
        let wrong = wrong_limit(rt.alloc(), &mut flash, limits);
        assert_eq!(rt; wrong, None, "{count} of {blocks}");
    }
    Ok(())
}
