//! Rules that a driver breaks.
use driver_checks::Case;
use flash_model::{DevFault, Operation};

/// How a driver breaks the rule of a case in which a fault is planned.
#[derive(Clone, Copy, Debug)]
pub enum Way {
    /// The first block of the area is lost with it; a program that was to fail is done whole instead.
    Loses,
    /// The fault does not come, and the operation is done.
    Misses,
    /// Power that went is on at once, with no restart.
    Stays,
    /// The other pages of the block of a program are lost with it.
    Spreads,
}

/// The rule of a case that a driver breaks, and, where a fault is planned in that case, the moment of
/// it at which the driver does so. At the others it keeps to the rule.
#[derive(Clone, Copy, Debug)]
pub struct Flaw {
    pub case: Case,
    pub way: Way,
    pub moment: u8,
}

impl Flaw {
    /// The flaw of a case in which no fault is planned.
    pub fn of(case: Case) -> Flaw {
        Flaw::at(case, Way::Loses, 0)
    }

    /// A flaw that shows at a moment.
    pub fn at(case: Case, way: Way, moment: u8) -> Flaw {
        Flaw { case, way, moment }
    }

    /// Whether it shows where this fault is planned at this moment.
    pub fn shows(self, class: Operation, fault: DevFault, moment: u8) -> bool {
        moment == self.moment
            && match self.case {
                Case::FailedProgram => class == Operation::Program && fault == DevFault::Failed,
                Case::FailedErase => class == Operation::Erase && fault == DevFault::Failed,
                Case::CutProgram => class == Operation::Program && fault == DevFault::PowerCut,
                Case::CutErase => class == Operation::Erase && fault == DevFault::PowerCut,
                _ => false,
            }
    }
}
