//! The cases of a checklist.
ghost use Rattle.std.specs.Prelude.{◌≡◌};
ghost use Rattle.driver_checks.specs.Cases.{case_word, round_of, scene_of};

use crate::expected::Expected;
use crate::scene::{Place, Scene};

/// A case of the checklist.
#[derive(Clone, Copy, Debug, PartialEq, Eq)]
pub enum Case {
    /// The driver tells the sizes of the data sheet, also after a restart.
    Sizes,
    /// A block whose pages were programmed reads as erased once it is erased.
    Fresh,
    /// What is programmed is read back, the whole page, and no other page changes.
    ReadBack,
    /// The pages of a block are programmed from the first to the last, each once, and all are read back.
    InOrder,
    /// An erase clears its block, and no other.
    OneBlock,
    /// A program that failed leaves its page unreadable, and changes no other page, in its block or another.
    FailedProgram,
    /// An erase that failed leaves each page of its block as it was, erased or unreadable, and changes
    /// no other page.
    FailedErase,
    /// Power that goes in a program leaves its page as it was, whole or unreadable, and changes no
    /// other page. Until the restart nothing answers but that there is no power.
    CutProgram,
    /// The same of an erase and the pages of its block.
    CutErase,
    /// After a restart the driver shows the same pages.
    Restart,
    /// The last block is written and erased, and leaves the first one.
    Ends,
    /// Neighbouring blocks are programmed a page of each in turn, and all are read back.
    Neighbours,
}

impl Case {
    /// The cases, in the order in which a checklist runs them.
    pub const ALL: [Case; 12] = [
        Case::Sizes,
        Case::Fresh,
        Case::ReadBack,
        Case::InOrder,
        Case::OneBlock,
        Case::FailedProgram,
        Case::FailedErase,
        Case::CutProgram,
        Case::CutErase,
        Case::Restart,
        Case::Ends,
        Case::Neighbours,
    ];

    /// The word, in lower-case ASCII letters.
    pub fn word(self) -> &'static str
        ensures { result.now ≡ case_word self }
    {
        match self {
            Case::Sizes => "sizes",
            Case::Fresh => "fresh",
            Case::ReadBack => "read-back",
            Case::InOrder => "in-order",
            Case::OneBlock => "one-block",
            Case::FailedProgram => "failed-program",
            Case::FailedErase => "failed-erase",
            Case::CutProgram => "cut-program",
            Case::CutErase => "cut-erase",
            Case::Restart => "restart",
            Case::Ends => "ends",
            Case::Neighbours => "neighbours",
        }
    }

    // The round of its bytes: each case has others.
    pub(crate) fn round(self) -> u8
        ensures { result ≡ round_of self }
    {
        match self {
            Case::Sizes => 0,
            Case::Fresh => 1,
            Case::ReadBack => 2,
            Case::InOrder => 3,
            Case::OneBlock => 4,
            Case::FailedProgram => 5,
            Case::FailedErase => 6,
            Case::CutProgram => 7,
            Case::CutErase => 8,
            Case::Restart => 9,
            Case::Ends => 10,
            Case::Neighbours => 11,
        }
    }

    // What its three blocks are to show at its end.
    pub(crate) fn scene(self) -> Scene
        ensures { result ≡ scene_of self }
    {
        let filled = Expected::Filled(self.round());
        let left = Expected::Left(self.round());
        let (page, rest, sides) = match self {
            Case::Sizes | Case::Fresh => (Expected::Erased, Expected::Erased, Expected::Erased),
            Case::ReadBack => (filled, Expected::Erased, Expected::Erased),
            Case::InOrder => (filled, filled, Expected::Erased),
            Case::OneBlock | Case::Ends => (Expected::Erased, Expected::Erased, filled),
            Case::FailedProgram => (Expected::Spoilt, filled, filled),
            Case::CutProgram => (left, filled, filled),
            Case::FailedErase | Case::CutErase => (left, left, filled),
            Case::Restart => (filled, Expected::Erased, filled),
            Case::Neighbours => (filled, filled, filled),
        };
        let place = self.place();
        Scene {
            place,
            page,
            rest,
            sides,
        }
    }

    // The page of its own block that it is about.
    fn place(self) -> Place
        ensures { result ≡ (scene_of self).place }
    {
        match self {
            Case::FailedProgram | Case::CutProgram => Place::Last,
            _ => Place::First,
        }
    }
}
