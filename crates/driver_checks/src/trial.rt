//! Programs and erases in which a fault is planned, at each of its moments.
ghost use Rattle.std.specs.Prelude.{◌≡◌, ◌+◌, ◌-◌, ◌*◌, ◌<◌, ◌↔◌, ◌∷◌, Ok, length, IsTrue, IfOk, OnOk, OnErr};
ghost use Rattle.flash_model.specs.declared.fault_kind.Operation.{Operation};
ghost use Rattle.driver_checks.specs.Areas.{area_page};
ghost use Rattle.driver_checks.specs.Driver.{AsksAtMost, OnlyAsks};
ghost use Rattle.driver_checks.specs.Filling.{filled};
ghost use Rattle.driver_checks.specs.Trials.{MayAnswer, TriesMoment, TriesEach, program_tried, erase_tried};
ghost use Rattle.driver_checks.specs.Shown.{ShowsAfterProgram, ShowsAfterErase};
ghost use Rattle.driver_checks.specs.declared.step.Step.{Step};

use crate::bench::Bench;
use crate::expected::Expected;
use crate::looks::{block_shows, page_shows, power_is_off};
use crate::scene::Scene;
use crate::site::Site;
use crate::works::{fill_block, fill_pages, program};
use crate::wrong::Wrong;
use flash_model::{DevFault, Operation};

/// A fault that is planned for an operation, at one of its moments, with what the blocks are to show
/// afterwards.
#[derive(Clone, Copy)]
pub(crate) struct Trial {
    /// The fault.
    pub(crate) fault: DevFault,
    /// The round of the bytes.
    pub(crate) round: u8,
    /// What is to be shown after a restart.
    pub(crate) scene: Scene,
}

impl Trial {
    // Tries each moment of a program of the last page of the case's own block, one at least.
    #[tactic(auto, using(crate::proofs::Trying::moments_more))]
    pub(crate) fn programs<B: Bench>(
        self,
        bench: &mut B,
        site: Site,
        buffer: &mut [u8],
    ) -> Result<(), Wrong>
        requires area { (B.driver bench.old).area ≡ site.area }
        requires whole { length buffer.old ≡ site.area.sizes.page }
        ensures tries { OnOk result (TriesEach (program_tried site.area site.own self.fault) self.fault ((B.driver bench.old).moments Operation.Program self.fault) (B.driver bench.old).steps (B.driver bench.new).steps) }
        ensures works { AsksAtMost (B.driver bench.old) (B.driver bench.new) (255 * (5 * site.area.sizes.pages + 3)) }
    {
        let moments = bench.moments(Operation::Program, self.fault);
        if moments == 0 {
            return Err(Wrong);
        }
        for moment in 0..moments {
            self.program(bench, site, moment, buffer)?;
        }
        Ok(())
    }

    // Tries each moment of an erase of the case's own block, one at least.
    #[tactic(auto, using(crate::proofs::Trying::moments_more))]
    pub(crate) fn erases<B: Bench>(
        self,
        bench: &mut B,
        site: Site,
        buffer: &mut [u8],
    ) -> Result<(), Wrong>
        requires area { (B.driver bench.old).area ≡ site.area }
        requires whole { length buffer.old ≡ site.area.sizes.page }
        ensures tries { OnOk result (TriesEach (erase_tried site.area site.own self.fault) self.fault ((B.driver bench.old).moments Operation.Erase self.fault) (B.driver bench.old).steps (B.driver bench.new).steps) }
        ensures works { AsksAtMost (B.driver bench.old) (B.driver bench.new) (255 * (6 * site.area.sizes.pages + 3)) }
    {
        let moments = bench.moments(Operation::Erase, self.fault);
        if moments == 0 {
            return Err(Wrong);
        }
        for moment in 0..moments {
            self.erase(bench, site, moment, buffer)?;
        }
        Ok(())
    }

    // Tries a program of the last page of the case's own block at a moment.
    fn program<B: Bench>(
        self,
        bench: &mut B,
        site: Site,
        moment: u8,
        buffer: &mut [u8],
    ) -> Result<(), Wrong>
        requires area { (B.driver bench.old).area ≡ site.area }
        requires moment { moment < (B.driver bench.old).moments Operation.Program self.fault }
        requires whole { length buffer.old ≡ site.area.sizes.page }
        ensures tries { OnOk result (TriesMoment (program_tried site.area site.own self.fault) self.fault moment (B.driver bench.old).steps (B.driver bench.new).steps) }
        ensures works { AsksAtMost (B.driver bench.old) (B.driver bench.new) (5 * site.area.sizes.pages + 3) }
    {
        let done = self.trouble_program(bench, site, moment, buffer)?;
        self.look_after_program(bench, site, done, buffer)?;
        bench.restart();
        self.scene.is_shown(bench, site, buffer)
    }

    // Tries an erase of the case's own block at a moment.
    fn erase<B: Bench>(
        self,
        bench: &mut B,
        site: Site,
        moment: u8,
        buffer: &mut [u8],
    ) -> Result<(), Wrong>
        requires area { (B.driver bench.old).area ≡ site.area }
        requires moment { moment < (B.driver bench.old).moments Operation.Erase self.fault }
        requires whole { length buffer.old ≡ site.area.sizes.page }
        ensures tries { OnOk result (TriesMoment (erase_tried site.area site.own self.fault) self.fault moment (B.driver bench.old).steps (B.driver bench.new).steps) }
        ensures works { AsksAtMost (B.driver bench.old) (B.driver bench.new) (6 * site.area.sizes.pages + 3) }
    {
        let done = self.trouble_erase(bench, site, moment, buffer)?;
        look_after_erase(bench, site, done, buffer)?;
        bench.restart();
        self.scene.is_shown(bench, site, buffer)
    }

    // Erases the case's own block, fills it but for its last page, and programs that with the fault
    // planned. Gives the answer, which is one that may be.
    fn trouble_program<B: Bench>(
        self,
        bench: &mut B,
        site: Site,
        moment: u8,
        buffer: &mut [u8],
    ) -> Result<Result<(), DevFault>, Wrong>
        requires area { (B.driver bench.old).area ≡ site.area }
        requires moment { moment < (B.driver bench.old).moments Operation.Program self.fault }
        requires whole { length buffer.old ≡ site.area.sizes.page }
        ensures may { IfOk result (λ done. MayAnswer self.fault moment done) }
        ensures steps { IfOk result (λ done. (B.driver bench.new).steps ≡ Step.Programs (area_page site.area site.own (site.area.sizes.pages - 1)) done ∷ Step.Plans Operation.Program self.fault moment ∷ filled site.area site.own (site.area.sizes.pages - 1) (Step.Erases site.own (Ok tt) ∷ (B.driver bench.old).steps)) }
        ensures works { AsksAtMost (B.driver bench.old) (B.driver bench.new) (2 * site.area.sizes.pages + 1) }
    {
        let last = site.area.sizes.pages - 1;
        bench.erase(site.own)?;
        fill_pages(bench, site.area, site.own, last, self.round, buffer)?;
        bench.plan(Operation::Program, self.fault, moment);
        let page = site.area.page(site.own, last);
        let done = program(bench, site.area, page, self.round, buffer)?;
        self.judge(moment, done)
    }

    // Erases the case's own block, fills it, and erases it with the fault planned. Gives the answer,
    // which is one that may be.
    fn trouble_erase<B: Bench>(
        self,
        bench: &mut B,
        site: Site,
        moment: u8,
        buffer: &mut [u8],
    ) -> Result<Result<(), DevFault>, Wrong>
        requires area { (B.driver bench.old).area ≡ site.area }
        requires moment { moment < (B.driver bench.old).moments Operation.Erase self.fault }
        requires whole { length buffer.old ≡ site.area.sizes.page }
        ensures may { IfOk result (λ done. MayAnswer self.fault moment done) }
        ensures steps { IfOk result (λ done. (B.driver bench.new).steps ≡ Step.Erases site.own done ∷ Step.Plans Operation.Erase self.fault moment ∷ filled site.area site.own site.area.sizes.pages (Step.Erases site.own (Ok tt) ∷ (B.driver bench.old).steps)) }
        ensures works { AsksAtMost (B.driver bench.old) (B.driver bench.new) (2 * site.area.sizes.pages + 2) }
    {
        bench.erase(site.own)?;
        fill_block(bench, site.area, site.own, self.round, buffer)?;
        bench.plan(Operation::Erase, self.fault, moment);
        let done = bench.erase(site.own);
        self.judge(moment, done)
    }

    // Gives an answer on, where an operation in which the fault was planned may answer so.
    fn judge(self, moment: u8, done: Result<(), DevFault>) -> Result<Result<(), DevFault>, Wrong>
        ensures same { IfOk result (λ answer. answer ≡ done) }
        ensures may { OnOk result (MayAnswer self.fault moment done) }
        ensures wrong { OnErr result (¬ MayAnswer self.fault moment done) }
    {
        if self.may_answer(moment, done) {
            Ok(done)
        } else {
            Err(Wrong)
        }
    }

    // Whether an operation in which the fault was planned may answer so.
    fn may_answer(self, moment: u8, done: Result<(), DevFault>) -> bool
        ensures { IsTrue result ↔ MayAnswer self.fault moment done }
    {
        match done {
            Ok(()) => self.fault == DevFault::PowerCut && moment > 0,
            Err(fault) => fault == self.fault,
        }
    }

    // Looks at the last page of the case's own block after a program that answered so.
    fn look_after_program<B: Bench>(
        self,
        bench: &mut B,
        site: Site,
        done: Result<(), DevFault>,
        buffer: &mut [u8],
    ) -> Result<(), Wrong>
        requires area { (B.driver bench.old).area ≡ site.area }
        requires whole { length buffer.old ≡ site.area.sizes.page }
        ensures shows { OnOk result (ShowsAfterProgram self.round site.area site.own done (B.driver bench.new)) }
        ensures looks { OnlyAsks (B.driver bench.old) (B.driver bench.new) 1 }
    {
        let area = site.area;
        let page = area.page(site.own, area.sizes.pages - 1);
        match done {
            Ok(()) => page_shows(bench, area, page, Expected::Filled(self.round), buffer),
            Err(DevFault::Failed) => page_shows(bench, area, page, Expected::Spoilt, buffer),
            Err(DevFault::PowerCut) => power_is_off(bench, area, page, buffer),
        }
    }
}

// Looks at the case's own block after an erase that answered so.
fn look_after_erase<B: Bench>(
    bench: &mut B,
    site: Site,
    done: Result<(), DevFault>,
    buffer: &mut [u8],
) -> Result<(), Wrong>
    requires area { (B.driver bench.old).area ≡ site.area }
    requires whole { length buffer.old ≡ site.area.sizes.page }
    ensures shows { OnOk result (ShowsAfterErase site.area site.own done (B.driver bench.new)) }
    ensures looks { OnlyAsks (B.driver bench.old) (B.driver bench.new) site.area.sizes.pages }
{
    let area = site.area;
    match done {
        Ok(()) => block_shows(
            bench,
            area,
            site.own,
            0,
            area.sizes.pages,
            Expected::Erased,
            buffer,
        ),
        Err(DevFault::Failed) => Ok(()),
        Err(DevFault::PowerCut) => power_is_off(bench, area, area.page(site.own, 0), buffer),
    }
}
