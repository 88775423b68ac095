//! A flash in memory that fails as planned.
ghost use Rattle.std.specs.Prelude.{◌≡◌, ◌*◌, ◌<◌, vec_len};
ghost use Rattle.flash_model.specs.Geometry.{IsGeometry};

mod contents;

use crate::plan::Plan;
use crate::sim_pages::SimPages;
use contents::put_wear;
use flash_model::{
    Counters, DevFault, FaultKind, Flash, Geometry, Operation, PageState, PageView, Planned,
    PlannedFault,
};
use fs_types::{Count, Fault};
use std::alloc::Global;

/// A flash in memory that fails as planned.
///
/// With the power on, an operation counts among those of its class, and the entry of the plan for
/// its number, if one waits, says what befalls it: it fails, or power goes in it. Where none is due
/// it is done. From a cut until `power_on` each operation answers `PowerCut`, changes nothing and
/// does not count.
#[derive(Drop)]
pub struct SimFlash {
    geometry: Geometry,
    pages: SimPages,
    worn: Vec<bool>,
    powered: bool,
    plan: Plan,
    failed_reads: Count,
    failures: Count,
    cuts: Count,
    operations: Count,
    ghost lawful: { IsGeometry geometry },
    ghost all_pages: { vec_len pages.states ≡ geometry.blocks * geometry.pages },
    ghost whole_pages: { pages.size ≡ geometry.page },
    ghost all_blocks: { vec_len worn ≡ geometry.blocks },
}

impl SimFlash {
    ghost use Rattle.std.specs.Prelude.{IfOk, OnOk, IfErr, OnErr, ◌+◌, ◌↔◌, ◌⊎◌, true, false, option_map};
    ghost use Rattle.std.specs.Result.{result_err};
    ghost use Rattle.flash_simulation.specs.Simulation.{IsNew, device_of, plan_of, counts_of};
    ghost use Rattle.flash_model.specs.Device.{LeavesBeside};
    ghost use Rattle.flash_model.specs.Plan.{kind_due, begun, plan_of_entries, kind_answer, no_counts};
    ghost use Rattle.flash_model.specs.Geometry.{page_count};
    ghost use Rattle.flash_model.specs.Contents.{shown_page};

    /// A new flash: all pages are erased, power is on, no block is worn.
    ///
    /// Entries of the plan may be in any order. Of several for one operation the last one counts,
    /// and one of number 0 is none. The room for all pages and for the plan with 64 entries more is
    /// made here. `BadGeometry` for sizes out of range, else `NoMemory`.
    pub fn new(alloc: Global, geometry: Geometry, plan: &[PlannedFault]) -> Result<SimFlash, Fault>
        ensures lawful { OnOk result (IsGeometry geometry) }
        ensures new { IfOk result (λ flash. IsNew geometry (device_of flash)) }
        ensures plan { IfOk result (λ flash. plan_of flash ≡ plan_of_entries plan.now) }
        ensures counts { IfOk result (λ flash. counts_of flash ≡ no_counts) }
        ensures geometry { (result ≡ Err Fault.BadGeometry) ↔ ¬ IsGeometry geometry }
        ensures errors { IfErr result (λ fault. (fault ≡ Fault.BadGeometry) ⊎ (fault ≡ Fault.NoMemory)) }
    {
        if !geometry.is_lawful() {
            return Err(Fault::BadGeometry);
        }
        let pages = SimPages::new(alloc, geometry.page_count(), geometry.page as usize)?;
        let worn = vec![in alloc; false; geometry.blocks as usize]?;
        Ok(SimFlash {
            geometry,
            pages,
            worn,
            powered: true,
            plan: Plan::new(alloc, plan)?,
            failed_reads: Count::zero(),
            failures: Count::zero(),
            cuts: Count::zero(),
            operations: Count::zero(),
        })
    }

    /// What the page of this number holds. This is no device operation: it works with the power off
    /// too, and nothing counts.
    pub fn page(&self, number: u32) -> PageView<'_>
        requires { number < page_count (device_of self.now).geometry }
        ensures { shown_page result ≡ (device_of self.now).pages number }
    {
        self.pages.view(number as usize)
    }

    /// Whether the block is worn: a program or an erase in it failed.
    pub fn is_worn(&self, block: u32) -> bool
        requires { block < (device_of self.now).geometry.blocks }
        ensures { result ≡ (device_of self.now).worn block }
    {
        self.worn[block as usize]
    }

    /// How many reads, programs and erases were asked for since the flash was made, while power was
    /// on. Each is exact up to the greatest `u64`, where it stays.
    pub fn counts(&self) -> Counters
        ensures { result ≡ counts_of self.now }
    {
        self.plan.counters()
    }

    // Counts an operation that begins, and gives what befalls it. With the power off none begins.
    fn begin(&mut self, class: Operation) -> Result<Option<FaultKind>, DevFault>
        ensures ok { IfOk result (λ due. due ≡ kind_due (plan_of self.old) class) }
        ensures on { OnOk result (self.old.powered ≡ true) }
        ensures counted { OnOk result (self.new.operations.n ≡ self.old.operations.n + 1) }
        ensures begun { OnOk result (self.new ≡ record self.old { plan = begun self.old.plan class; operations = self.new.operations }) }
        ensures err { IfErr result (λ fault. fault ≡ DevFault.PowerCut) }
        ensures off { OnErr result (self.old.powered ≡ false) }
        ensures same { OnErr result (self.new ≡ self.old) }
    {
        if !self.powered {
            return Err(DevFault::PowerCut);
        }
        self.operations = self.operations.more();
        Ok(self.plan.begin(class))
    }

    // Power goes in an operation.
    fn lose_power(&mut self)
        ensures cuts { self.new.cuts.n ≡ self.old.cuts.n + 1 }
        ensures same { self.new ≡ record self.old { powered = false; cuts = self.new.cuts } }
    {
        self.powered = false;
        self.cuts = self.cuts.more();
    }

    // Ends a program or an erase in a block by what befalls it: a failure wears the block, and in
    // a cut power goes.
    fn end(&mut self, block: u32, due: Option<FaultKind>) -> Result<(), DevFault>
        requires in_range { block < (device_of self.old).geometry.blocks }
        requires on { (device_of self.old).powered ≡ true }
        ensures answer { result_err result ≡ option_map kind_answer due }
        ensures ends { LeavesBeside (device_of self.old) block (device_of self.new) result }
        ensures plan { plan_of self.new ≡ plan_of self.old }
    {
        match due.map(FaultKind::answer) {
            None => Ok(()),
            Some(DevFault::Failed) => {
                put_wear(&mut self.worn, block as usize, true);
                self.failures = self.failures.more();
                Err(DevFault::Failed)
            }
            Some(DevFault::PowerCut) => {
                self.lose_power();
                Err(DevFault::PowerCut)
            }
        }
    }
}

impl Flash for SimFlash {
    ghost use Rattle.std.specs.Prelude.{◌≡◌, ℕ, ◌%◌, ◌<◌, true, length};
    ghost use Rattle.std.specs.Result.{result_err};
    ghost use Rattle.flash_model.specs.Geometry.{page_count};
    ghost use Rattle.flash_model.specs.Device.{block_of, erased, Reads, Programs, Erases};
    ghost use Rattle.flash_model.specs.Plan.{kind_due};
    ghost use Rattle.flash_simulation.specs.Stored.{programmed, erased_to};
    ghost use Rattle.flash_simulation.specs.Simulation.{device_of, plan_of, plan_after, refusal_due, counts_of, counts_after};
    ghost use Rattle.flash_simulation.specs.WholePages.{whole_pages_of};

    ghost device = { device_of };

    ghost whole_pages = { whole_pages_of };

    fn geometry(&self) -> Geometry {
        self.geometry
    }

    fn read(&mut self, page: u32, buffer: &mut [u8]) -> Result<PageState, DevFault>
        requires in_range { page < page_count (device_of self.old).geometry }
        requires whole { length buffer.old ≡ (device_of self.old).geometry.page }
        ensures reads { Reads (device_of self.old) page buffer.old (device_of self.new) buffer.new result }
        ensures answer { result_err result ≡ refusal_due self.old Operation.Read }
        ensures plan { plan_of self.new ≡ plan_after self.old Operation.Read }
        ensures counts { counts_of self.new ≡ counts_after self.old Operation.Read }
    {
        match self.begin(Operation::Read)?.map(FaultKind::answer) {
            None => Ok(self.pages.read(page as usize, buffer)),
            Some(DevFault::Failed) => {
                self.failed_reads = self.failed_reads.more();
                Err(DevFault::Failed)
            }
            Some(DevFault::PowerCut) => {
                self.lose_power();
                Err(DevFault::PowerCut)
            }
        }
    }

    fn program(&mut self, page: u32, bytes: &[u8]) -> Result<(), DevFault>
        requires in_range { page < page_count (device_of self.old).geometry }
        requires whole { length bytes.now ≡ (device_of self.old).geometry.page }
        requires blank { (device_of self.old).pages page ≡ erased }

        // What is programmed, and what is answered.
        ensures programs { Programs (device_of self.old) page bytes.now (device_of self.new) result }
        ensures answer { result_err result ≡ refusal_due self.old Operation.Program }
        ensures page { (device_of self.old).powered ≡ true → (device_of self.new).pages page
            ≡ programmed (kind_due (plan_of self.old) Operation.Program) ((device_of self.old).pages page) bytes.now }

        // What is left of the plan, and the counts.
        ensures plan { plan_of self.new ≡ plan_after self.old Operation.Program }
        ensures counts { counts_of self.new ≡ counts_after self.old Operation.Program }
    {
        let due = self.begin(Operation::Program)?;
        self.pages.program(page as usize, bytes, due);
        self.end(page / self.geometry.pages, due)
    }

    fn erase(&mut self, block: u32) -> Result<(), DevFault>
        requires { block < (device_of self.old).geometry.blocks }
        ensures erases { Erases (device_of self.old) block (device_of self.new) result }
        ensures answer { result_err result ≡ refusal_due self.old Operation.Erase }
        ensures pages { (p : ℕ) → (device_of self.old).powered ≡ true → block_of (device_of self.old) p ≡ block
            → (device_of self.new).pages p ≡ erased_to (kind_due (plan_of self.old) Operation.Erase)
            (p % (device_of self.old).geometry.pages) ((device_of self.old).pages p) }
        ensures plan { plan_of self.new ≡ plan_after self.old Operation.Erase }
        ensures counts { counts_of self.new ≡ counts_after self.old Operation.Erase }
    {
        let due = self.begin(Operation::Erase)?;
        self.pages
            .erase_block(block as usize, self.geometry.pages as usize, due);
        self.end(block, due)
    }

    fn power_on(&mut self)
        ensures power { device_of self.new ≡ record (device_of self.old) { powered = true } }
        ensures plan { plan_of self.new ≡ plan_of self.old }
        ensures counts { counts_of self.new ≡ counts_of self.old }
    {
        self.powered = true;
    }
}

impl Planned for SimFlash {
    ghost use Rattle.flash_simulation.specs.Simulation.{plan_of};

    ghost schedule = { plan_of };

    fn plan_fault(&mut self, k: u64, kind: FaultKind) -> Result<(), Fault> {
        self.plan.add(k, kind)
    }

    fn read_as_planned(&mut self, page: u32, buffer: &mut [u8]) -> Result<PageState, DevFault> {
        self.read(page, buffer)
    }

    fn program_as_planned(&mut self, page: u32, bytes: &[u8]) -> Result<(), DevFault> {
        self.program(page, bytes)
    }

    fn erase_as_planned(&mut self, block: u32) -> Result<(), DevFault> {
        self.erase(block)
    }

    fn power_on_as_planned(&mut self) {
        self.power_on();
    }
}
