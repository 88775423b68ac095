//! Work on blocks: erases, and programs of pages that are erased.
ghost use Rattle.std.specs.Prelude.{◌≡◌, ◌+◌, ◌*◌, ◌<◌, ◌≤◌, ◌∷◌, IfOk, OnOk, length};
ghost use Rattle.driver_checks.specs.Areas.{GivesBlock, GivesPage};
ghost use Rattle.driver_checks.specs.Driver.{AsksAtMost};
ghost use Rattle.driver_checks.specs.Filling.{page_filled, filled, filled_in_turn, sides_filled, cleared};
ghost use Rattle.driver_checks.specs.declared.step.Step.{Step};

use crate::area::Area;
use crate::bench::Bench;
use crate::expected::Expected;
use crate::looks::page_shows;
use crate::pattern::Pattern;
use crate::site::Site;
use crate::wrong::Wrong;
use flash_model::DevFault;

// Programs a page with the bytes of a round, where the driver shows it as erased, and gives the
// driver's answer.
pub(crate) fn program<B: Bench>(
    bench: &mut B,
    area: Area,
    page: u32,
    round: u8,
    buffer: &mut [u8],
) -> Result<Result<(), DevFault>, Wrong>
    requires area { (B.driver bench.old).area ≡ area }
    requires given { GivesPage area page }
    requires whole { length buffer.old ≡ area.sizes.page }
    ensures steps { IfOk result (λ done. (B.driver bench.new).steps ≡ Step.Programs page done ∷ (B.driver bench.old).steps) }
    ensures works { AsksAtMost (B.driver bench.old) (B.driver bench.new) 2 }
{
    page_shows(bench, area, page, Expected::Erased, buffer)?;
    Pattern { page, round }.fill(buffer);
    Ok(bench.program(page, buffer))
}

// Programs the page at a place of a block, which the driver shows as erased.
pub(crate) fn fill_page<B: Bench>(
    bench: &mut B,
    area: Area,
    block: u32,
    place: u32,
    round: u8,
    buffer: &mut [u8],
) -> Result<(), Wrong>
    requires area { (B.driver bench.old).area ≡ area }
    requires given { GivesBlock area block }
    requires in_block { place < area.sizes.pages }
    requires whole { length buffer.old ≡ area.sizes.page }
    ensures steps { OnOk result ((B.driver bench.new).steps ≡ page_filled area block place (B.driver bench.old).steps) }
    ensures works { AsksAtMost (B.driver bench.old) (B.driver bench.new) 2 }
{
    program(bench, area, area.page(block, place), round, buffer)??;
    Ok(())
}

// Programs so many pages of a block that is erased, from the first on.
#[tactic(auto, using(crate::proofs::Working::filled_more))]
pub(crate) fn fill_pages<B: Bench>(
    bench: &mut B,
    area: Area,
    block: u32,
    count: u32,
    round: u8,
    buffer: &mut [u8],
) -> Result<(), Wrong>
    requires area { (B.driver bench.old).area ≡ area }
    requires given { GivesBlock area block }
    requires in_block { count ≤ area.sizes.pages }
    requires whole { length buffer.old ≡ area.sizes.page }
    ensures steps { OnOk result ((B.driver bench.new).steps ≡ filled area block count (B.driver bench.old).steps) }
    ensures works { AsksAtMost (B.driver bench.old) (B.driver bench.new) (2 * count) }
{
    for place in 0..count {
        fill_page(bench, area, block, place, round, buffer)?;
    }
    Ok(())
}

// Programs the pages of a block that is erased, from the first to the last.
pub(crate) fn fill_block<B: Bench>(
    bench: &mut B,
    area: Area,
    block: u32,
    round: u8,
    buffer: &mut [u8],
) -> Result<(), Wrong>
    requires area { (B.driver bench.old).area ≡ area }
    requires given { GivesBlock area block }
    requires whole { length buffer.old ≡ area.sizes.page }
    ensures steps { OnOk result ((B.driver bench.new).steps ≡ filled area block area.sizes.pages (B.driver bench.old).steps) }
    ensures works { AsksAtMost (B.driver bench.old) (B.driver bench.new) (2 * area.sizes.pages) }
{
    fill_pages(bench, area, block, area.sizes.pages, round, buffer)
}

// Erases the three blocks.
pub(crate) fn clear<B: Bench>(bench: &mut B, site: Site) -> Result<(), Wrong>
    requires area { (B.driver bench.old).area ≡ site.area }
    ensures steps { OnOk result ((B.driver bench.new).steps ≡ cleared site.lower site.own site.upper (B.driver bench.old).steps) }
    ensures works { AsksAtMost (B.driver bench.old) (B.driver bench.new) 3 }
{
    bench.erase(site.lower)?;
    bench.erase(site.own)?;
    bench.erase(site.upper)?;
    Ok(())
}

// Fills the two blocks beside the case's own, which are erased.
pub(crate) fn fill_sides<B: Bench>(
    bench: &mut B,
    site: Site,
    round: u8,
    buffer: &mut [u8],
) -> Result<(), Wrong>
    requires area { (B.driver bench.old).area ≡ site.area }
    requires whole { length buffer.old ≡ site.area.sizes.page }
    ensures steps { OnOk result ((B.driver bench.new).steps ≡ sides_filled site.area site.lower site.upper (B.driver bench.old).steps) }
    ensures works { AsksAtMost (B.driver bench.old) (B.driver bench.new) (4 * site.area.sizes.pages) }
{
    fill_block(bench, site.area, site.lower, round, buffer)?;
    fill_block(bench, site.area, site.upper, round, buffer)
}

// Fills the three blocks, which are erased, a page of each in turn.
#[tactic(auto, using(crate::proofs::Working::filled_in_turn_more))]
pub(crate) fn fill_in_turn<B: Bench>(
    bench: &mut B,
    site: Site,
    round: u8,
    buffer: &mut [u8],
) -> Result<(), Wrong>
    requires area { (B.driver bench.old).area ≡ site.area }
    requires whole { length buffer.old ≡ site.area.sizes.page }
    ensures steps { OnOk result ((B.driver bench.new).steps ≡ filled_in_turn site.area site.lower site.own site.upper site.area.sizes.pages (B.driver bench.old).steps) }
    ensures works { AsksAtMost (B.driver bench.old) (B.driver bench.new) (6 * site.area.sizes.pages) }
{
    let area = site.area;
    for place in 0..area.sizes.pages {
        fill_page(bench, area, site.lower, place, round, buffer)?;
        fill_page(bench, area, site.own, place, round, buffer)?;
        fill_page(bench, area, site.upper, place, round, buffer)?;
    }
    Ok(())
}
