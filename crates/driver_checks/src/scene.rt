//! What three blocks are to show.
ghost use Rattle.std.specs.Prelude.{◌≡◌, ◌+◌, ◌*◌, ◌<◌, OnOk, length};
ghost use Rattle.driver_checks.specs.Driver.{OnlyAsks};
ghost use Rattle.driver_checks.specs.Scenes.{IsOwnShown, IsShown, place_in};

use crate::area::Area;
use crate::bench::Bench;
use crate::expected::Expected;
use crate::looks::{block_shows, page_shows};
use crate::site::Site;
use crate::wrong::Wrong;

/// Which page of a block a case is about.
#[derive(Clone, Copy)]
pub(crate) enum Place {
    /// The first one.
    First,
    /// The last one, which is programmed after all others.
    Last,
}

impl Place {
    // The number of the place in a block.
    pub(crate) fn of(self, area: Area) -> u32
        ensures value { result ≡ place_in self area }
        ensures in_block { result < area.sizes.pages }
    {
        match self {
            Place::First => 0,
            Place::Last => area.sizes.pages - 1,
        }
    }
}

/// What the blocks of a site are to show.
#[derive(Clone, Copy)]
pub(crate) struct Scene {
    /// The place of a page of its own block.
    pub(crate) place: Place,
    /// That page.
    pub(crate) page: Expected,
    /// The other pages of its own block.
    pub(crate) rest: Expected,
    /// The pages of the other two blocks.
    pub(crate) sides: Expected,
}

impl Scene {
    // Whether the driver shows it.
    pub(crate) fn is_shown<B: Bench>(
        self,
        bench: &mut B,
        site: Site,
        buffer: &mut [u8],
    ) -> Result<(), Wrong>
        requires area { (B.driver bench.old).area ≡ site.area }
        requires whole { length buffer.old ≡ site.area.sizes.page }
        ensures shown { OnOk result (IsShown self site.area site.lower site.own site.upper (B.driver bench.new).pages) }
        ensures looks { OnlyAsks (B.driver bench.old) (B.driver bench.new) (3 * site.area.sizes.pages) }
    {
        let area = site.area;
        self.is_own_shown(bench, site, buffer)?;
        block_shows(
            bench,
            area,
            site.lower,
            0,
            area.sizes.pages,
            self.sides,
            buffer,
        )?;
        block_shows(
            bench,
            area,
            site.upper,
            0,
            area.sizes.pages,
            self.sides,
            buffer,
        )
    }

    // Whether the driver shows it of the case's own block.
    fn is_own_shown<B: Bench>(
        self,
        bench: &mut B,
        site: Site,
        buffer: &mut [u8],
    ) -> Result<(), Wrong>
        requires area { (B.driver bench.old).area ≡ site.area }
        requires whole { length buffer.old ≡ site.area.sizes.page }
        ensures shown { OnOk result (IsOwnShown self site.area site.own (B.driver bench.new).pages) }
        ensures looks { OnlyAsks (B.driver bench.old) (B.driver bench.new) site.area.sizes.pages }
    {
        let area = site.area;
        let place = self.place.of(area);
        page_shows(bench, area, area.page(site.own, place), self.page, buffer)?;
        block_shows(bench, area, site.own, 0, place, self.rest, buffer)?;
        block_shows(
            bench,
            area,
            site.own,
            place + 1,
            area.sizes.pages,
            self.rest,
            buffer,
        )
    }
}
