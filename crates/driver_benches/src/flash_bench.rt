//! A flash whose next operation can be troubled, on a bench.
ghost use Rattle.std.specs.Prelude.{◌≡◌};

use crate::troubled::Troubled;
use driver_checks::{Area, Bench, Step, Steps};
use flash_model::{DevFault, Geometry, Operation, PageState};
use fs_types::Fault;

/// A flash on a bench.
#[derive(Drop)]
pub struct FlashBench<F: Troubled + Drop> {
    area: Area,
    flash: F,
    steps: Steps,
    ghost sizes: { (F.device flash).geometry ≡ area.sizes },
}

impl<F: Troubled + Drop> FlashBench<F> {
    /// All blocks of the flash may be used up.
    pub fn new(flash: F) -> Result<FlashBench<F>, Fault> {
        let sizes = flash.geometry();
        let area = Area::new(sizes, 0, sizes.blocks)?;
        Ok(FlashBench {
            area,
            flash,
            steps: Steps::new(),
        })
    }
}

impl<F: Troubled + Drop> Bench for FlashBench<F> {
    ghost use Rattle.driver_checks.specs.Driver.{driver_of};

    ghost driver = { λ bench. driver_of bench.area (F.device bench.flash) F.moment_count bench.steps.list };

    fn area(&self) -> Area {
        self.area
    }

    fn geometry(&self) -> Geometry {
        self.flash.geometry()
    }

    fn moments(&self, class: Operation, fault: DevFault) -> u8 {
        self.flash.moments(class, fault)
    }

    #[tactic(auto, using(crate::proofs::Benching::read_looks))]
    fn read(&mut self, page: u32, buffer: &mut [u8]) -> Result<PageState, DevFault> {
        self.flash.read(page, buffer)
    }

    #[tactic(auto, using(crate::proofs::Benching::program_works))]
    fn program(&mut self, page: u32, bytes: &[u8]) -> Result<(), DevFault> {
        let done = self.flash.program(page, bytes);
        self.steps = self.steps.then(&Step::Programs(page, done));
        done
    }

    #[tactic(auto, using(crate::proofs::Benching::erase_works))]
    fn erase(&mut self, block: u32) -> Result<(), DevFault> {
        let done = self.flash.erase(block);
        self.steps = self.steps.then(&Step::Erases(block, done));
        done
    }

    fn plan(&mut self, class: Operation, fault: DevFault, moment: u8) {
        self.flash.trouble(class, fault, moment);
        self.steps = self.steps.then(&Step::Plans(class, fault, moment));
    }

    fn restart(&mut self) {
        self.flash.calm();
        self.flash.power_on();
        self.steps = self.steps.then(&Step::Restarts);
    }
}
