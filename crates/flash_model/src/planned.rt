//! A flash whose faults can be planned while it is used.
ghost use Rattle.std.specs.Prelude.{◌≡◌, ◌≤◌, ◌<◌, ◌↔◌, OnOk, OnErr, IfErr, true, length};
ghost use Rattle.std.specs.Result.{result_err};
ghost use Rattle.flash_model.specs.Geometry.{page_count};
ghost use Rattle.flash_model.specs.Device.{erased, Reads, Programs, Erases};
ghost use Rattle.flash_model.specs.Plan.{Schedule, planned, schedule_after, answer_due, IsPlanFull};

use crate::fault_kind::{FaultKind, Operation};
use crate::flash::{DevFault, Flash, PageState};
use fs_types::Fault;

/// A flash that follows a plan of faults, which can be added to. Its plan at work is `schedule`.
///
/// The contract of a [`Flash`] says nothing of a plan. So each of its operations stands here once
/// more, with what it leaves of the plan: it counts among those of its class where power is on, and
/// takes from the plan what has come due, by which alone it is refused. A flash whose own operations
/// do so has only to call them.
pub trait Planned: Flash {
    ghost schedule: { Self → Schedule };

    /// Plans the `k`-th operation after now of the kind's class, in the place of what waits for the
    /// same operation. `Invalid` where 64 entries wait and none of them is for that operation.
    /// Nothing but the plan changes. It works with the power off too.
    fn plan_fault(&mut self, k: u64, kind: FaultKind) -> Result<(), Fault>
        requires { 1 ≤ k }
        ensures device { Self.device self.new ≡ Self.device self.old }
        ensures ok { OnOk result (schedule self.new ≡ planned (schedule self.old) k kind) }
        ensures err { OnErr result (schedule self.new ≡ schedule self.old) }
        ensures full { (result ≡ Err Fault.Invalid) ↔ IsPlanFull (schedule self.old) k kind }
        ensures only { IfErr result (λ fault. fault ≡ Fault.Invalid) };

    /// Reads a page, as [`Flash::read`] does.
    fn read_as_planned(&mut self, page: u32, buffer: &mut [u8]) -> Result<PageState, DevFault>
        requires in_range { page < page_count (Self.device self.old).geometry }
        requires whole { length buffer.old ≡ (Self.device self.old).geometry.page }
        ensures reads { Reads (Self.device self.old) page buffer.old (Self.device self.new) buffer.new result }
        ensures answer { result_err result ≡ answer_due (Self.device self.old).powered (schedule self.old) Operation.Read }
        ensures plan { schedule self.new ≡ schedule_after (Self.device self.old).powered (schedule self.old) Operation.Read };

    /// Programs a page, as [`Flash::program`] does.
    fn program_as_planned(&mut self, page: u32, bytes: &[u8]) -> Result<(), DevFault>
        requires in_range { page < page_count (Self.device self.old).geometry }
        requires whole { length bytes.now ≡ (Self.device self.old).geometry.page }
        requires blank { (Self.device self.old).pages page ≡ erased }
        ensures programs { Programs (Self.device self.old) page bytes.now (Self.device self.new) result }
        ensures answer { result_err result ≡ answer_due (Self.device self.old).powered (schedule self.old) Operation.Program }
        ensures plan { schedule self.new ≡ schedule_after (Self.device self.old).powered (schedule self.old) Operation.Program };

    /// Erases a block, as [`Flash::erase`] does.
    fn erase_as_planned(&mut self, block: u32) -> Result<(), DevFault>
        requires { block < (Self.device self.old).geometry.blocks }
        ensures erases { Erases (Self.device self.old) block (Self.device self.new) result }
        ensures answer { result_err result ≡ answer_due (Self.device self.old).powered (schedule self.old) Operation.Erase }
        ensures plan { schedule self.new ≡ schedule_after (Self.device self.old).powered (schedule self.old) Operation.Erase };

    /// Puts the power on, as [`Flash::power_on`] does. The plan stays.
    fn power_on_as_planned(&mut self)
        ensures power { Self.device self.new ≡ record (Self.device self.old) { powered = true } }
        ensures plan { schedule self.new ≡ schedule self.old };
}
