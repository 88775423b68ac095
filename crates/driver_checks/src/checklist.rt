//! The checklist.
ghost use Rattle.std.specs.Prelude.{◌≡◌, ◌+◌, ◌*◌, [], ◌∷◌, OnOk, IfOk, length};
ghost use Rattle.driver_checks.specs.Driver.{AsksAtMost};
ghost use Rattle.driver_checks.specs.Cases.{Passes, most_asked};
ghost use Rattle.driver_checks.specs.Checklists.{Checks, HasEachOnce, IsNoted};
ghost use Rattle.driver_checks.specs.Filling.{page_filled, sides_filled};
ghost use Rattle.driver_checks.specs.Works.{filled_and_erased, TriesPrograms, TriesErases, Works, Runs};
ghost use Rattle.driver_checks.specs.declared.step.Step.{Step};

use crate::area::Area;
use crate::bench::Bench;
use crate::case::Case;
use crate::site::Site;
use crate::trial::Trial;
use crate::works::{clear, fill_block, fill_in_turn, fill_page, fill_sides};
use crate::wrong::Wrong;
use flash_model::DevFault;
use std::alloc::{AllocError, Global};

/// Runs the twelve cases over a driver on its bench, and gives those that failed, in their order.
///
/// It asks reads, programs and erases of the blocks of the bench's area and of no other, and
/// programs no page that the driver does not show as erased. What the blocks held before is lost. A
/// case is passed where each operation answered as it is to and each page was shown as expected.
pub fn check_driver<B: Bench>(alloc: Global, bench: &mut B) -> Result<Vec<Case>, AllocError>
    ensures once { HasEachOnce Case.ALL }
    ensures checks { IfOk result (λ failed. Checks (B.driver bench.old).area (B.driver bench.old) Case.ALL failed.items (B.driver bench.new)) }
    ensures works { AsksAtMost (B.driver bench.old) (B.driver bench.new) (12 * most_asked (B.driver bench.old).area.sizes.pages) }
{
    let area = bench.area();
    let mut buffer = vec![in alloc; 0; area.sizes.page as usize]?;
    let mut failed = Vec::new(alloc);
    check_cases(bench, area, &Case::ALL, &mut failed, &mut buffer)?;
    Ok(failed)
}

// Runs these cases, and notes those that fail.
#[tactic(auto, using(crate::proofs::Running::one_more, crate::proofs::Working::trials_more, crate::proofs::Working::trials_most))]
fn check_cases<B: Bench>(
    bench: &mut B,
    area: Area,
    cases: &[Case],
    failed: &mut Vec<Case>,
    buffer: &mut [u8],
) -> Result<(), AllocError>
    requires area { (B.driver bench.old).area ≡ area }
    requires whole { length buffer.old ≡ area.sizes.page }
    requires new { failed.old.items ≡ [] }
    ensures checks { OnOk result (Checks area (B.driver bench.old) cases.now failed.new.items (B.driver bench.new)) }
    ensures works { AsksAtMost (B.driver bench.old) (B.driver bench.new) (length cases.now * most_asked area.sizes.pages) }
{
    for case in cases {
        note_case(bench, area, *case, failed, buffer)?;
    }
    Ok(())
}

// Runs a case, and notes it where it fails.
fn note_case<B: Bench>(
    bench: &mut B,
    area: Area,
    case: Case,
    failed: &mut Vec<Case>,
    buffer: &mut [u8],
) -> Result<(), AllocError>
    requires area { (B.driver bench.old).area ≡ area }
    requires whole { length buffer.old ≡ area.sizes.page }
    ensures noted { OnOk result (IsNoted case failed.old.items failed.new.items (B.driver bench.old) (B.driver bench.new)) }
    ensures works { AsksAtMost (B.driver bench.old) (B.driver bench.new) (most_asked area.sizes.pages) }
{
    match check_case(bench, area, case, buffer) {
        Ok(()) => Ok(()),
        Err(Wrong) => {
            failed.push(case)?;
            Ok(())
        }
    }
}

// Runs a case, from a restart on.
fn check_case<B: Bench>(
    bench: &mut B,
    area: Area,
    case: Case,
    buffer: &mut [u8],
) -> Result<(), Wrong>
    requires area { (B.driver bench.old).area ≡ area }
    requires whole { length buffer.old ≡ area.sizes.page }
    ensures passes { OnOk result (Passes case (B.driver bench.new)) }
    ensures runs { OnOk result (Runs case (B.driver bench.old) (B.driver bench.new)) }
    ensures works { AsksAtMost (B.driver bench.old) (B.driver bench.new) (most_asked area.sizes.pages) }
{
    bench.restart();
    let site = match case {
        Case::Sizes => return tell_sizes(bench, area),
        Case::Ends => Site::at_ends(area),
        _ => Site::beside(area),
    };
    clear(bench, site)?;
    work(bench, site, case, buffer)?;
    case.scene().is_shown(bench, site, buffer)
}

// Whether the driver tells the sizes of the data sheet.
fn tell_sizes<B: Bench>(bench: &mut B, area: Area) -> Result<(), Wrong>
    requires area { (B.driver bench.old).area ≡ area }
    ensures told { OnOk result ((B.driver bench.new).told ≡ area.sizes) }
    ensures same { B.driver bench.new ≡ B.driver bench.old }
{
    if bench.geometry() == area.sizes {
        Ok(())
    } else {
        Err(Wrong)
    }
}

// Does what a case does to its three blocks, which are erased.
fn work<B: Bench>(bench: &mut B, site: Site, case: Case, buffer: &mut [u8]) -> Result<(), Wrong>
    requires area { (B.driver bench.old).area ≡ site.area }
    requires whole { length buffer.old ≡ site.area.sizes.page }
    ensures steps { OnOk result (Works case site.area site.lower site.own site.upper (B.driver bench.old).moments (B.driver bench.old).steps (B.driver bench.new).steps) }
    ensures works { AsksAtMost (B.driver bench.old) (B.driver bench.new) (255 * (6 * site.area.sizes.pages + 5) + 4 * site.area.sizes.pages) }
{
    let round = case.round();
    match case {
        Case::Sizes => Ok(()),
        Case::Fresh => fill_and_erase(bench, site, round, buffer),
        Case::ReadBack => fill_page(bench, site.area, site.own, 0, round, buffer),
        Case::InOrder => fill_block(bench, site.area, site.own, round, buffer),
        Case::OneBlock | Case::Ends => erase_between(bench, site, round, buffer),
        Case::Restart => restart_between(bench, site, round, buffer),
        Case::Neighbours => fill_in_turn(bench, site, round, buffer),
        Case::FailedProgram => trouble_programs(bench, site, case, DevFault::Failed, buffer),
        Case::CutProgram => trouble_programs(bench, site, case, DevFault::PowerCut, buffer),
        Case::FailedErase => trouble_erases(bench, site, case, DevFault::Failed, buffer),
        Case::CutErase => trouble_erases(bench, site, case, DevFault::PowerCut, buffer),
    }
}

// Fills a block and erases it.
fn fill_and_erase<B: Bench>(
    bench: &mut B,
    site: Site,
    round: u8,
    buffer: &mut [u8],
) -> Result<(), Wrong>
    requires area { (B.driver bench.old).area ≡ site.area }
    requires whole { length buffer.old ≡ site.area.sizes.page }
    ensures steps { OnOk result ((B.driver bench.new).steps ≡ filled_and_erased site.area site.own (B.driver bench.old).steps) }
    ensures works { AsksAtMost (B.driver bench.old) (B.driver bench.new) (2 * site.area.sizes.pages + 1) }
{
    fill_block(bench, site.area, site.own, round, buffer)?;
    bench.erase(site.own)?;
    Ok(())
}

// Fills the three blocks, and erases the case's own.
fn erase_between<B: Bench>(
    bench: &mut B,
    site: Site,
    round: u8,
    buffer: &mut [u8],
) -> Result<(), Wrong>
    requires area { (B.driver bench.old).area ≡ site.area }
    requires whole { length buffer.old ≡ site.area.sizes.page }
    ensures steps { OnOk result ((B.driver bench.new).steps ≡ filled_and_erased site.area site.own (sides_filled site.area site.lower site.upper (B.driver bench.old).steps)) }
    ensures works { AsksAtMost (B.driver bench.old) (B.driver bench.new) (6 * site.area.sizes.pages + 1) }
{
    fill_sides(bench, site, round, buffer)?;
    fill_and_erase(bench, site, round, buffer)
}

// Fills the blocks beside the case's own, begins that one, and restarts.
fn restart_between<B: Bench>(
    bench: &mut B,
    site: Site,
    round: u8,
    buffer: &mut [u8],
) -> Result<(), Wrong>
    requires area { (B.driver bench.old).area ≡ site.area }
    requires whole { length buffer.old ≡ site.area.sizes.page }
    ensures steps { OnOk result ((B.driver bench.new).steps ≡ Step.Restarts ∷ page_filled site.area site.own 0 (sides_filled site.area site.lower site.upper (B.driver bench.old).steps)) }
    ensures works { AsksAtMost (B.driver bench.old) (B.driver bench.new) (4 * site.area.sizes.pages + 2) }
{
    fill_sides(bench, site, round, buffer)?;
    fill_page(bench, site.area, site.own, 0, round, buffer)?;
    bench.restart();
    Ok(())
}

// Fills the blocks beside the case's own, and troubles programs of the last page of that one.
fn trouble_programs<B: Bench>(
    bench: &mut B,
    site: Site,
    case: Case,
    fault: DevFault,
    buffer: &mut [u8],
) -> Result<(), Wrong>
    requires area { (B.driver bench.old).area ≡ site.area }
    requires whole { length buffer.old ≡ site.area.sizes.page }
    ensures tries { OnOk result (TriesPrograms site.area site.lower site.own site.upper fault (B.driver bench.old).moments (B.driver bench.old).steps (B.driver bench.new).steps) }
    ensures works { AsksAtMost (B.driver bench.old) (B.driver bench.new) (255 * (5 * site.area.sizes.pages + 3) + 4 * site.area.sizes.pages) }
{
    let round = case.round();
    let scene = case.scene();
    fill_sides(bench, site, round, buffer)?;
    Trial {
        fault,
        round,
        scene,
    }
    .programs(bench, site, buffer)
}

// Fills the blocks beside the case's own, and troubles erases of that one.
fn trouble_erases<B: Bench>(
    bench: &mut B,
    site: Site,
    case: Case,
    fault: DevFault,
    buffer: &mut [u8],
) -> Result<(), Wrong>
    requires area { (B.driver bench.old).area ≡ site.area }
    requires whole { length buffer.old ≡ site.area.sizes.page }
    ensures tries { OnOk result (TriesErases site.area site.lower site.own site.upper fault (B.driver bench.old).moments (B.driver bench.old).steps (B.driver bench.new).steps) }
    ensures works { AsksAtMost (B.driver bench.old) (B.driver bench.new) (255 * (6 * site.area.sizes.pages + 3) + 4 * site.area.sizes.pages) }
{
    let round = case.round();
    let scene = case.scene();
    fill_sides(bench, site, round, buffer)?;
    Trial {
        fault,
        round,
        scene,
    }
    .erases(bench, site, buffer)
}
