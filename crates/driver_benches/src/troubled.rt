//! Flashes whose next operation can be troubled.
ghost use Rattle.std.specs.Prelude.{◌≡◌, ℕ};
ghost use Rattle.flash_model.specs.declared.fault_kind.Operation.{Operation};
ghost use Rattle.flash_model.specs.declared.flash.DevFault.{DevFault};
ghost use Rattle.driver_benches.specs.Moments.{dense_moments, memory_moments, part_moments};

use crate::dense_part::DensePart;
use crate::memory_part::MemoryPart;
use flash_model::{DevFault, FaultKind, Flash, Operation, Planned};
use flash_simulation::SimFlash;
use nor_part::Trouble;

/// A flash whose next operation can be troubled.
pub trait Troubled: Flash {
    ghost moment_count: { Operation → DevFault → ℕ };

    /// At how many moments of an operation such a fault can be planned.
    fn moments(&self, class: Operation, fault: DevFault) -> u8
        ensures { result ≡ moment_count class fault };

    /// Plans a fault for the next operation, which is of this class.
    fn trouble(&mut self, class: Operation, fault: DevFault, moment: u8)
        ensures { Self.device self.new ≡ Self.device self.old };

    /// Takes back what is planned.
    fn calm(&mut self)
        ensures { Self.device self.new ≡ Self.device self.old };
}

impl Troubled for SimFlash {
    ghost moment_count = { memory_moments };

    // A cut leaves a page as it was, torn or whole.
    fn moments(&self, _class: Operation, fault: DevFault) -> u8 {
        match fault {
            DevFault::Failed => 1,
            DevFault::PowerCut => 3,
        }
    }

    fn trouble(&mut self, class: Operation, fault: DevFault, moment: u8) {
        let _ = self.plan_fault(1, kind_of(class, fault, moment));
    }

    // What is planned befalls the operation that comes next, so nothing is left.
    fn calm(&mut self) {}
}

fn kind_of(class: Operation, fault: DevFault, moment: u8) -> FaultKind {
    match (class, fault, moment) {
        (Operation::Read, DevFault::Failed, _) => FaultKind::ReadFail,
        (Operation::Read, DevFault::PowerCut, _) => FaultKind::ReadCut,
        (Operation::Program, DevFault::Failed, _) => FaultKind::ProgramFail,
        (Operation::Program, DevFault::PowerCut, 0) => FaultKind::ProgramCutNone,
        (Operation::Program, DevFault::PowerCut, 1) => FaultKind::ProgramCutTorn,
        (Operation::Program, DevFault::PowerCut, _) => FaultKind::ProgramCutWhole,
        (Operation::Erase, DevFault::Failed, _) => FaultKind::EraseFail,
        (Operation::Erase, DevFault::PowerCut, 0) => FaultKind::EraseCutNone,
        (Operation::Erase, DevFault::PowerCut, 1) => FaultKind::EraseCutTorn,
        (Operation::Erase, DevFault::PowerCut, _) => FaultKind::EraseCutWhole,
    }
}

impl Troubled for MemoryPart {
    ghost moment_count = { part_moments };

    // Each operation is two of the part; power goes before, in or after one of these. In a read, which
    // changes nothing, that is all one.
    fn moments(&self, _class: Operation, fault: DevFault) -> u8 {
        match fault {
            DevFault::Failed => 2,
            DevFault::PowerCut => 6,
        }
    }

    fn trouble(&mut self, class: Operation, fault: DevFault, moment: u8) {
        if class == Operation::Read {
            self.flash.plan_read(u64::from(moment % 2), fault);
            return;
        }
        let (good, trouble) = trouble_at(fault, moment);
        self.flash.plan(good, trouble);
    }

    fn calm(&mut self) {
        self.flash.forget_plan();
    }
}

impl Troubled for DensePart {
    ghost moment_count = { dense_moments };

    // The marks of a block are made 0 before its two sectors are erased.
    fn moments(&self, class: Operation, fault: DevFault) -> u8 {
        match (class, fault) {
            (Operation::Erase, DevFault::Failed) => 3,
            (Operation::Erase, DevFault::PowerCut) => 9,
            (_, DevFault::Failed) => 2,
            (_, DevFault::PowerCut) => 6,
        }
    }

    fn trouble(&mut self, class: Operation, fault: DevFault, moment: u8) {
        if class == Operation::Read {
            self.flash.plan_read(u64::from(moment % 2), fault);
            return;
        }
        let (good, trouble) = trouble_at(fault, moment);
        self.flash.plan(good, trouble);
    }

    fn calm(&mut self) {
        self.flash.forget_plan();
    }
}

// After how many operations of the part more the next one is befallen at a moment, and by what.
fn trouble_at(fault: DevFault, moment: u8) -> (u64, Trouble) {
    match (fault, moment % 3) {
        (DevFault::Failed, _) => (u64::from(moment), Trouble::Fails),
        (DevFault::PowerCut, 0) => (u64::from(moment / 3), Trouble::CutBefore),
        (DevFault::PowerCut, 1) => (u64::from(moment / 3), Trouble::CutWithin),
        (DevFault::PowerCut, _) => (u64::from(moment / 3), Trouble::CutAfter),
    }
}
