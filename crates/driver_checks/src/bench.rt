//! The trait of a driver on a bench.
ghost use Rattle.std.specs.Prelude.{◌≡◌, ◌<◌, ◌∷◌, length};
ghost use Rattle.flash_model.specs.Device.{erased, ReportsPage, power_after};
ghost use Rattle.driver_checks.specs.Areas.{GivesBlock, GivesPage};
ghost use Rattle.driver_checks.specs.Driver.{Driver, AsksAtMost, OnlyAsks};
ghost use Rattle.driver_checks.specs.declared.step.Step.{Step};

use crate::area::Area;
use flash_model::{DevFault, Geometry, Operation, PageState};

/// A driver on a bench: beside what a `Flash` does, its next operation can be troubled, and power be
/// put off and on again.
///
/// Nothing is promised here of what a program, an erase or a restart does to pages: that is what a
/// checklist looks at. A read tells what the driver shows of a page, and changes nothing of it.
pub trait Bench {
    ghost driver: { Self → Driver };

    /// The sizes by the data sheet, and the blocks that may be used up, the same each time.
    fn area(&self) -> Area
        ensures { result ≡ (driver self.now).area };

    /// The sizes that the driver tells.
    fn geometry(&self) -> Geometry
        ensures { result ≡ (driver self.now).told };

    /// At how many moments of an operation of this class such a fault can be planned, the same each
    /// time. Where it tells 0 the case in which the fault is planned fails.
    fn moments(&self, class: Operation, fault: DevFault) -> u8
        ensures { result ≡ (driver self.now).moments class fault };

    /// Asks the driver what a page holds.
    fn read(&mut self, page: u32, buffer: &mut [u8]) -> Result<PageState, DevFault>
        requires given { GivesPage (driver self.old).area page }
        requires whole { length buffer.old ≡ (driver self.old).area.sizes.page }
        ensures shows { ReportsPage ((driver self.old).pages page) buffer.old buffer.new result }
        ensures looks { OnlyAsks (driver self.old) (driver self.new) 1 }
        ensures power { (driver self.new).powered ≡ power_after result };

    /// Lets the driver program a whole page that it shows as erased.
    fn program(&mut self, page: u32, bytes: &[u8]) -> Result<(), DevFault>
        requires given { GivesPage (driver self.old).area page }
        requires whole { length bytes.now ≡ (driver self.old).area.sizes.page }
        requires blank { (driver self.old).pages page ≡ erased }
        ensures asks { AsksAtMost (driver self.old) (driver self.new) 1 }
        ensures steps { (driver self.new).steps ≡ Step.Programs page result ∷ (driver self.old).steps };

    /// Lets the driver erase a block.
    fn erase(&mut self, block: u32) -> Result<(), DevFault>
        requires { GivesBlock (driver self.old).area block }
        ensures asks { AsksAtMost (driver self.old) (driver self.new) 1 }
        ensures steps { (driver self.new).steps ≡ Step.Erases block result ∷ (driver self.old).steps };

    /// Plans this fault for the next operation, which is of this class, at this moment of it: the
    /// operation fails, or power goes in it. At moment 0 it comes for certain; at a later one the
    /// operation may have been done before.
    fn plan(&mut self, class: Operation, fault: DevFault, moment: u8)
        requires { moment < (driver self.old).moments class fault }
        ensures shows { OnlyAsks (record (driver self.old) { steps = Step.Plans class fault moment ∷ (driver self.old).steps }) (driver self.new) 0 };

    /// Takes back what is planned, puts the power off and on again, and makes the driver anew, with
    /// nothing left of what it had in memory.
    fn restart(&mut self)
        ensures asks { AsksAtMost (driver self.old) (driver self.new) 0 }
        ensures steps { (driver self.new).steps ≡ Step.Restarts ∷ (driver self.old).steps };
}
