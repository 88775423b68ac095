//! Plans of device faults: which operations fail, and how.
ghost use Rattle.std.specs.Prelude.{◌≡◌};
ghost use Rattle.flash_model.specs.Plan.{operation_of, kind_answer, is_same, is_for, is_ahead, count_of, count_more, counted};

use crate::flash::DevFault;

/// The classes of device operations, each counted by itself.
#[derive(Clone, Copy, Debug, PartialEq, Eq)]
pub enum Operation {
    /// A read of a page.
    Read,
    /// A program of a page.
    Program,
    /// An erase of a block.
    Erase,
}

impl Operation {
    fn is_same(self, other: Operation) -> bool
        ensures { result ≡ is_same self other }
    {
        match self {
            Operation::Read => matches!(other, Operation::Read),
            Operation::Program => matches!(other, Operation::Program),
            Operation::Erase => matches!(other, Operation::Erase),
        }
    }
}

/// What befalls an operation by plan.
#[derive(Clone, Copy, Debug, PartialEq, Eq)]
pub enum FaultKind {
    /// A read fails.
    ReadFail,
    /// Power goes in a read.
    ReadCut,
    /// A program fails: the page becomes unreadable.
    ProgramFail,
    /// Power goes in a program: the page stays as it was.
    ProgramCutNone,
    /// Power goes in a program: the page has the bytes.
    ProgramCutWhole,
    /// Power goes in a program: the page becomes unreadable.
    ProgramCutTorn,
    /// An erase fails: the pages of even place in the block become unreadable, and the others stay.
    EraseFail,
    /// Power goes in an erase: each page of the block stays as it was.
    EraseCutNone,
    /// Power goes in an erase: each page of the block is erased.
    EraseCutWhole,
    /// Power goes in an erase: the pages of even place in the block become unreadable, and the
    /// others stay.
    EraseCutTorn,
}

impl FaultKind {
    /// The class of operations that it befalls.
    pub fn operation(self) -> Operation
        ensures { result ≡ operation_of self }
    {
        match self {
            FaultKind::ReadFail | FaultKind::ReadCut => Operation::Read,
            FaultKind::ProgramFail
            | FaultKind::ProgramCutNone
            | FaultKind::ProgramCutWhole
            | FaultKind::ProgramCutTorn => Operation::Program,
            FaultKind::EraseFail
            | FaultKind::EraseCutNone
            | FaultKind::EraseCutWhole
            | FaultKind::EraseCutTorn => Operation::Erase,
        }
    }

    /// What an operation that it befalls answers.
    pub fn answer(self) -> DevFault
        ensures { result ≡ kind_answer self }
    {
        match self {
            FaultKind::ReadFail | FaultKind::ProgramFail | FaultKind::EraseFail => DevFault::Failed,
            FaultKind::ReadCut
            | FaultKind::ProgramCutNone
            | FaultKind::ProgramCutWhole
            | FaultKind::ProgramCutTorn
            | FaultKind::EraseCutNone
            | FaultKind::EraseCutWhole
            | FaultKind::EraseCutTorn => DevFault::PowerCut,
        }
    }
}

/// An entry of a plan: the kind of fault, and the number, from 1 on, of the operation of its class
/// that it befalls. Operations are counted while power is on.
#[derive(Clone, Copy, Debug, PartialEq, Eq)]
pub struct PlannedFault {
    /// The number of the operation among those of its class.
    pub number: u128,
    /// What befalls it.
    pub kind: FaultKind,
}

impl PlannedFault {
    /// Whether it befalls the operation of this number, from 1 on, of this class.
    pub fn is_for(&self, class: Operation, number: u128) -> bool
        ensures { result ≡ is_for class number self.now }
    {
        self.kind.operation().is_same(class) && self.number == number
    }

    /// Whether it is still to come after so many operations of this class: it befalls a later one of
    /// them, or one of another class.
    pub fn is_ahead(&self, class: Operation, number: u64) -> bool
        ensures { result ≡ is_ahead class number self.now }
    {
        !self.kind.operation().is_same(class) || (number as u128) < self.number
    }
}

/// How many operations of each class have begun with the power on. A counter that has come to the
/// greatest `u64` stays there.
#[derive(Clone, Copy, Debug, PartialEq, Eq)]
pub struct Counters {
    /// Reads.
    pub reads: u64,
    /// Programs.
    pub programs: u64,
    /// Erases.
    pub erases: u64,
}

impl Counters {
    /// How many operations of a class have begun.
    pub fn count(self, class: Operation) -> u64
        ensures { result ≡ count_of self class }
    {
        match class {
            Operation::Read => self.reads,
            Operation::Program => self.programs,
            Operation::Erase => self.erases,
        }
    }

    /// The counters after one more operation of a class.
    pub fn more(self, class: Operation) -> Counters
        ensures { result ≡ count_more self class }
    {
        match class {
            Operation::Read => Counters {
                reads: count_one(self.reads),
                ..self
            },
            Operation::Program => Counters {
                programs: count_one(self.programs),
                ..self
            },
            Operation::Erase => Counters {
                erases: count_one(self.erases),
                ..self
            },
        }
    }
}

fn count_one(count: u64) -> u64
    ensures { result ≡ counted count }
{
    if count < u64::MAX { count + 1 } else { count }
}
