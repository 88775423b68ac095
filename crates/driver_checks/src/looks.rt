//! Looks at pages.
ghost use Rattle.std.specs.Prelude.{◌≡◌, ◌-◌, ◌≤◌, ◌↔◌, false, IsOk, OnOk, length};
ghost use Rattle.driver_checks.specs.Areas.{GivesBlock, GivesPage};
ghost use Rattle.driver_checks.specs.Driver.{OnlyAsks};
ghost use Rattle.driver_checks.specs.Expectations.{PageMeets, BlockMeets};

use crate::area::Area;
use crate::bench::Bench;
use crate::expected::Expected;
use crate::wrong::Wrong;
use flash_model::DevFault;

// Whether the driver shows a page as expected.
pub(crate) fn page_shows<B: Bench>(
    bench: &mut B,
    area: Area,
    page: u32,
    expected: Expected,
    buffer: &mut [u8],
) -> Result<(), Wrong>
    requires area { (B.driver bench.old).area ≡ area }
    requires given { GivesPage area page }
    requires whole { length buffer.old ≡ area.sizes.page }
    ensures meets { OnOk result (PageMeets expected area (B.driver bench.new).pages page) }
    ensures looks { OnlyAsks (B.driver bench.old) (B.driver bench.new) 1 }
{
    let state = bench.read(page, buffer)?;
    if expected.is_met(state, page, buffer) {
        Ok(())
    } else {
        Err(Wrong)
    }
}

// Whether the driver shows the pages of a block as expected, from one place to before another.
pub(crate) fn block_shows<B: Bench>(
    bench: &mut B,
    area: Area,
    block: u32,
    from: u32,
    to: u32,
    expected: Expected,
    buffer: &mut [u8],
) -> Result<(), Wrong>
    requires area { (B.driver bench.old).area ≡ area }
    requires given { GivesBlock area block }
    requires in_order { from ≤ to }
    requires in_block { to ≤ area.sizes.pages }
    requires whole { length buffer.old ≡ area.sizes.page }
    ensures meets { OnOk result (BlockMeets expected area (B.driver bench.new).pages block from to) }
    ensures looks { OnlyAsks (B.driver bench.old) (B.driver bench.new) (to - from) }
{
    for place in from..to {
        page_shows(bench, area, area.page(block, place), expected, buffer)?;
    }
    Ok(())
}

// Whether the driver answers that there is no power.
pub(crate) fn power_is_off<B: Bench>(
    bench: &mut B,
    area: Area,
    page: u32,
    buffer: &mut [u8],
) -> Result<(), Wrong>
    requires area { (B.driver bench.old).area ≡ area }
    requires given { GivesPage area page }
    requires whole { length buffer.old ≡ area.sizes.page }
    ensures off { IsOk result ↔ ((B.driver bench.new).powered ≡ false) }
    ensures looks { OnlyAsks (B.driver bench.old) (B.driver bench.new) 1 }
{
    match bench.read(page, buffer) {
        Err(DevFault::PowerCut) => Ok(()),
        _ => Err(Wrong),
    }
}
