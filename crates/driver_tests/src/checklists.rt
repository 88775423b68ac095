//! The checklist, run over flashes in memory and over drivers that break a rule.
use dense_nor::{DenseLayout, DenseNorFlash};
use driver_benches::{DensePart, FlashBench, Flaw, Flawed, MemoryPart, Way};
use driver_checks::{Bench, Case, check_driver};
use flash_model::Geometry;
use flash_simulation::SimFlash;
use nor_part::{MemoryNor, NorFlash};
use std::alloc::Global;
use std::process::Abort;
use std::test::Fail;

// A flash in memory of 16 blocks, on a bench.
fn sim_bench(alloc: Global) -> Result<FlashBench<SimFlash>, Fail> {
    let sizes = Geometry {
        page: 1024,
        pages: 4,
        blocks: 16,
    };
    Ok(FlashBench::new(SimFlash::new(alloc, sizes, &[])?)?)
}

// A flash over a part in memory of 16 blocks, on a bench.
fn nor_bench(alloc: Global) -> Result<FlashBench<MemoryPart>, Fail> {
    let part = MemoryNor::new(alloc, 32)?;
    let flash = NorFlash::new(alloc, part)?;
    Ok(FlashBench::new(MemoryPart { flash })?)
}

// The same with the dense layout.
fn dense_bench(alloc: Global) -> Result<FlashBench<DensePart>, Fail> {
    let part = MemoryNor::new(alloc, 32)?;
    let Some(layout) = DenseLayout::of(2) else {
        return Err(Fail::new("no layout"));
    };
    let flash = DenseNorFlash::new(alloc, part, layout)?;
    Ok(FlashBench::new(DensePart { flash })?)
}

// A flash that was used passes as a new one does.
#[test]
fn flashes_in_memory_pass(rt: HostRuntime) -> Result<(), Fail> {
    let failed = check_driver(rt.alloc(), &mut sim_bench(rt.alloc())?)?;
    assert!(rt; failed.is_empty(), "in memory: {failed:?}");
    let mut bench = nor_bench(rt.alloc())?;
    for _ in 0..3 {
        let failed = check_driver(rt.alloc(), &mut bench)?;
        assert!(rt; failed.is_empty(), "over a part: {failed:?}");
    }
    let mut bench = dense_bench(rt.alloc())?;
    for _ in 0..3 {
        let failed = check_driver(rt.alloc(), &mut bench)?;
        assert!(rt; failed.is_empty(), "over a dense part: {failed:?}");
    }
    Ok(())
}

// A driver with this flaw is told by the flaw's case.
fn expect_told<B: Bench + Drop>(
    rt: &impl Abort,
    alloc: Global,
    bench: B,
    flaw: Flaw,
) -> Result<(), Fail> {
    let failed = check_driver(alloc, &mut Flawed::new(bench, flaw))?;
    assert!(rt; failed.contains(&flaw.case), "{flaw:?}: {failed:?}");
    Ok(())
}

// A driver that breaks the rule of a case in which no fault is planned is told by that case.
#[test]
fn flaws_are_told(rt: HostRuntime) -> Result<(), Fail> {
    let cases = [
        Case::Sizes,
        Case::Fresh,
        Case::ReadBack,
        Case::InOrder,
        Case::OneBlock,
        Case::Restart,
        Case::Ends,
        Case::Neighbours,
    ];
    for case in cases {
        expect_told(&rt, rt.alloc(), sim_bench(rt.alloc())?, Flaw::of(case))?;
        expect_told(&rt, rt.alloc(), nor_bench(rt.alloc())?, Flaw::of(case))?;
    }
    Ok(())
}

// A cut program that loses the pages before it in its block is told, at each of its moments.
#[test]
fn cuts_that_spread_are_told(rt: HostRuntime) -> Result<(), Fail> {
    for moment in 0..6 {
        let flaw = Flaw::at(Case::CutProgram, Way::Spreads, moment);
        if moment < 3 {
            expect_told(&rt, rt.alloc(), sim_bench(rt.alloc())?, flaw)?;
        }
        expect_told(&rt, rt.alloc(), nor_bench(rt.alloc())?, flaw)?;
        expect_told(&rt, rt.alloc(), dense_bench(rt.alloc())?, flaw)?;
    }
    Ok(())
}

// The flaws that show where a fault is planned at a moment. Past the first moment of a cut the
// operation may be done.
fn flaws_at(moment: u8) -> [Flaw; 8] {
    let missed = if moment == 0 { Way::Misses } else { Way::Loses };
    [
        Flaw::at(Case::FailedProgram, Way::Loses, moment),
        Flaw::at(Case::FailedProgram, Way::Misses, moment),
        Flaw::at(Case::FailedErase, Way::Loses, moment),
        Flaw::at(Case::FailedErase, Way::Misses, moment),
        Flaw::at(Case::CutProgram, missed, moment),
        Flaw::at(Case::CutProgram, Way::Stays, moment),
        Flaw::at(Case::CutErase, missed, moment),
        Flaw::at(Case::CutErase, Way::Stays, moment),
    ]
}

// How many moments the fault of a case has over a part in memory. Over the flash in memory it has
// half as many.
fn part_moments(case: Case) -> u8 {
    match case {
        Case::FailedProgram | Case::FailedErase => 2,
        Case::CutProgram | Case::CutErase => 6,
        _ => 0,
    }
}

// A driver that breaks the rule of a case at one moment of its fault alone is told by that case.
#[test]
fn flaws_at_each_moment_are_told(rt: HostRuntime) -> Result<(), Fail> {
    for moment in 0..6 {
        for flaw in flaws_at(moment) {
            if moment < part_moments(flaw.case) / 2 {
                expect_told(&rt, rt.alloc(), sim_bench(rt.alloc())?, flaw)?;
            }
            if moment < part_moments(flaw.case) {
                expect_told(&rt, rt.alloc(), nor_bench(rt.alloc())?, flaw)?;
            }
        }
    }
    Ok(())
}

// The cases that tell a driver with a flaw over the flash in memory, on a bench that tells no moments or on one
// that does.
fn told_of(alloc: Global, flaw: Flaw, is_silent: bool) -> Result<Vec<Case>, Fail> {
    let bench = sim_bench(alloc)?;
    let mut driver = if is_silent {
        Flawed::silent(bench, flaw)
    } else {
        Flawed::new(bench, flaw)
    };
    Ok(check_driver(alloc, &mut driver)?)
}

// A bench that tells no moments is told by each case in which a fault is planned, and by no other. And where
// one rule alone is broken, and no other case meets it, that case alone tells it.
#[test]
fn some_flaws_are_told_alone(rt: HostRuntime) -> Result<(), Fail> {
    let planned = [
        Case::FailedProgram,
        Case::FailedErase,
        Case::CutProgram,
        Case::CutErase,
    ];
    let silent = told_of(rt.alloc(), Flaw::of(Case::CutErase), true)?;
    assert_eq!(rt; silent.as_slice(), planned.as_slice());
    let alone = [
        Case::Sizes,
        Case::FailedProgram,
        Case::FailedErase,
        Case::CutProgram,
        Case::CutErase,
        Case::Ends,
        Case::Neighbours,
    ];
    for case in alone {
        let failed = told_of(rt.alloc(), Flaw::of(case), false)?;
        assert_eq!(rt; failed.as_slice(), [case].as_slice());
    }
    Ok(())
}
