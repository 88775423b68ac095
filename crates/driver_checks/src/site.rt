//! Three blocks in which a case works.
ghost use Rattle.driver_checks.specs.Areas.{GivesBlock};

use crate::area::Area;

/// Three blocks of a area: the case's own, and two that are to be left alone by what is done there.
#[derive(Clone, Copy)]
pub(crate) struct Site {
    pub(crate) area: Area,
    pub(crate) lower: u32,
    pub(crate) own: u32,
    pub(crate) upper: u32,
    pub ghost lower_given: { GivesBlock area lower },
    pub ghost own_given: { GivesBlock area own },
    pub ghost upper_given: { GivesBlock area upper },
}

impl Site {
    ghost use Rattle.std.specs.Prelude.{◌≡◌, ◌+◌, ◌-◌};

    // The second block of the area, between its neighbours.
    pub(crate) fn beside(area: Area) -> Site
        ensures area { result.area ≡ area }
        ensures lower { result.lower ≡ area.first }
        ensures own { result.own ≡ area.first + 1 }
        ensures upper { result.upper ≡ area.first + 2 }
    {
        Site {
            area,
            lower: area.first,
            own: area.first + 1,
            upper: area.first + 2,
        }
    }

    // The last block of the area, with the first and the second one.
    pub(crate) fn at_ends(area: Area) -> Site
        ensures area { result.area ≡ area }
        ensures lower { result.lower ≡ area.first }
        ensures own { result.own ≡ area.first + (area.count - 1) }
        ensures upper { result.upper ≡ area.first + 1 }
    {
        Site {
            area,
            lower: area.first,
            own: area.first + (area.count - 1),
            upper: area.first + 1,
        }
    }
}
