//! What a page is to show.
ghost use Rattle.std.specs.Prelude.{◌≡◌, ◌^◌, ◌<◌, length, IsTrue};
ghost use Rattle.flash_model.specs.Contents.{page_of};
ghost use Rattle.driver_checks.specs.Expectations.{MeetsExpectation};

use crate::pattern::Pattern;
use flash_model::PageState;

/// What a page is to show.
#[derive(Clone, Copy)]
pub(crate) enum Expected {
    /// Nothing since the last erase.
    Erased,
    /// The bytes of a round.
    Filled(u8),
    /// Neither.
    Spoilt,
    /// Any of these, as after power went in a program or in an erase.
    Left(u8),
}

impl Expected {
    // Whether a page that was read so shows it.
    pub(crate) fn is_met(self, state: PageState, page: u32, bytes: &[u8]) -> bool
        requires { length bytes.now < 2 ^ 32 }
        ensures { IsTrue result → MeetsExpectation self (length bytes.now) page (page_of state bytes.now) }
    {
        match state {
            PageState::Erased => matches!(self, Expected::Erased | Expected::Left(_)),
            PageState::Unreadable => matches!(self, Expected::Spoilt | Expected::Left(_)),
            PageState::Data => match self {
                Expected::Filled(round) => Pattern { page, round }.is_in(bytes),
                Expected::Left(round) => Pattern { page, round }.is_in(bytes),
                _ => false,
            },
        }
    }
}
