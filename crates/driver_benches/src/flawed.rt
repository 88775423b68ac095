//! Drivers that break a rule.
ghost use Rattle.std.specs.Prelude.{◌≡◌, length};
ghost use Rattle.flash_model.specs.Device.{erased};
ghost use Rattle.driver_checks.specs.Areas.{GivesBlock, GivesPage};
ghost use Rattle.driver_checks.specs.Driver.{AsksAtMost};

use crate::flaw::{Flaw, Way};
use driver_checks::{Area, Bench, Case, Step, Steps};
use flash_model::{DevFault, Geometry, Operation, PageState};
use fs_types::Count;

/// A driver on its bench that breaks one rule, and keeps to what the trait `Bench` asks.
#[derive(Drop)]
pub struct Flawed<B: Bench + Drop> {
    bench: B,
    flaw: Flaw,
    silent: bool,
    asked: Count,
    steps: Steps,
    planned: bool,
    off: bool,
    last: u32,
}

impl<B: Bench + Drop> Flawed<B> {
    /// A driver with this flaw.
    pub fn new(bench: B, flaw: Flaw) -> Flawed<B> {
        Flawed {
            bench,
            flaw,
            silent: false,
            asked: Count::zero(),
            steps: Steps::new(),
            planned: false,
            off: false,
            last: 0,
        }
    }

    /// A driver with this flaw on a bench that tells no moments.
    pub fn silent(bench: B, flaw: Flaw) -> Flawed<B> {
        let mut driver = Flawed::new(bench, flaw);
        driver.silent = true;
        driver
    }

    // Loses what the first block holds.
    fn lose_first_block(&mut self)
        ensures asks { AsksAtMost (B.driver self.old.bench) (B.driver self.new.bench) 1 }
        ensures same { self.new ≡ record self.old { bench = self.new.bench } }
    {
        let first = self.bench.area().first;
        let _ = self.bench.erase(first);
    }

    // Loses what the block of a page holds.
    #[tactic(auto, using(crate::proofs::Benching::block_given))]
    fn lose_block_of(&mut self, page: u32)
        requires { GivesPage (B.driver self.old.bench).area page }
        ensures asks { AsksAtMost (B.driver self.old.bench) (B.driver self.new.bench) 1 }
        ensures same { self.new ≡ record self.old { bench = self.new.bench } }
    {
        let pages = self.bench.area().sizes.pages;
        let _ = self.bench.erase(page / pages);
    }

    // Whether a program is dropped: each; of the last page of a block; or of one that does not follow
    // the page that was programmed before.
    fn drops_program(&self, page: u32) -> bool {
        let pages = self.bench.area().sizes.pages;
        match self.flaw.case {
            Case::ReadBack => true,
            Case::InOrder => pages > 0 && page % pages == pages - 1,
            Case::Neighbours => pages > 0
                && page % pages > 0
                && page != self.last.saturating_add(1),
            _ => false,
        }
    }

    // Whether an erase is dropped: of a block whose last page was programmed last.
    fn drops_erase(&self, block: u32) -> bool {
        let pages = self.bench.area().sizes.pages;
        matches!(self.flaw.case, Case::Fresh)
            && pages > 0
            && self.last / pages == block
            && self.last % pages == pages - 1
    }

    // Programs a page, but for the flaw.
    fn program_flawed(&mut self, page: u32, bytes: &[u8]) -> Result<(), DevFault>
        requires given { GivesPage (B.driver self.old.bench).area page }
        requires whole { length bytes.now ≡ (B.driver self.old.bench).area.sizes.page }
        requires blank { (B.driver self.old.bench).pages page ≡ erased }
        ensures asks { AsksAtMost (B.driver self.old.bench) (B.driver self.new.bench) 1 }
        ensures same { self.new ≡ record self.old { bench = self.new.bench; off = self.new.off; last = self.new.last } }
    {
        let drops = self.drops_program(page);
        self.last = page;
        if drops {
            return Ok(());
        }
        if !self.planned {
            return self.bench.program(page, bytes);
        }
        if matches!(self.flaw.way, Way::Loses) && self.flaw.case == Case::CutProgram {
            self.lose_first_block();
            self.off = true;
            return Err(DevFault::PowerCut);
        }
        if matches!(self.flaw.way, Way::Spreads) {
            self.lose_block_of(page);
            self.off = true;
            return Err(DevFault::PowerCut);
        }
        let done = self.bench.program(page, bytes);
        self.answer(done)
    }

    // Erases a block, but for the flaw.
    fn erase_flawed(&mut self, block: u32) -> Result<(), DevFault>
        requires { GivesBlock (B.driver self.old.bench).area block }
        ensures asks { AsksAtMost (B.driver self.old.bench) (B.driver self.new.bench) 2 }
        ensures same { self.new ≡ record self.old { bench = self.new.bench; off = self.new.off } }
    {
        let area = self.bench.area();
        if self.drops_erase(block) {
            return Ok(());
        }
        let ends = block - area.first == area.count - 1;
        if self.flaw.case == Case::OneBlock || (self.flaw.case == Case::Ends && ends) {
            self.lose_first_block();
        }
        if !self.planned {
            return self.bench.erase(block);
        }
        if matches!(self.flaw.way, Way::Loses) {
            self.lose_first_block();
            self.off = self.flaw.case == Case::CutErase;
            return Err(if self.off {
                DevFault::PowerCut
            } else {
                DevFault::Failed
            });
        }
        let done = self.bench.erase(block);
        self.answer(done)
    }

    // What is answered where the driver below it answered so.
    fn answer(&mut self, done: Result<(), DevFault>) -> Result<(), DevFault>
        ensures asks { AsksAtMost (B.driver self.old.bench) (B.driver self.new.bench) 0 }
        ensures same { self.new ≡ record self.old { bench = self.new.bench } }
    {
        match self.flaw.way {
            Way::Loses => Err(DevFault::Failed),
            Way::Misses | Way::Spreads => done,
            Way::Stays => {
                self.bench.restart();
                done
            }
        }
    }
}

impl<B: Bench + Drop> Bench for Flawed<B> {
    ghost use Rattle.driver_benches.specs.Flaws.{driver_with};

    ghost driver = { λ it. driver_with it.flaw.case it.silent it.off it.asked.n it.steps.list (B.driver it.bench) };

    fn area(&self) -> Area {
        self.bench.area()
    }

    fn geometry(&self) -> Geometry {
        let told = self.bench.geometry();
        match self.flaw.case {
            Case::Sizes => Geometry { blocks: 0, ..told },
            _ => told,
        }
    }

    fn moments(&self, class: Operation, fault: DevFault) -> u8 {
        if self.silent {
            return 0;
        }
        self.bench.moments(class, fault)
    }

    fn read(&mut self, page: u32, buffer: &mut [u8]) -> Result<PageState, DevFault> {
        self.asked = self.asked.more();
        if self.off {
            return Err(DevFault::PowerCut);
        }
        self.bench.read(page, buffer)
    }

    fn program(&mut self, page: u32, bytes: &[u8]) -> Result<(), DevFault> {
        self.asked = self.asked.more();
        let done = self.program_flawed(page, bytes);
        self.steps = self.steps.then(&Step::Programs(page, done));
        done
    }

    fn erase(&mut self, block: u32) -> Result<(), DevFault> {
        self.asked = self.asked.more();
        let done = self.erase_flawed(block);
        self.steps = self.steps.then(&Step::Erases(block, done));
        done
    }

    // A fault at which the flaw shows is not handed on, but a cut after which power stays.
    #[tactic(auto, using(crate::proofs::Benching::moment_below))]
    fn plan(&mut self, class: Operation, fault: DevFault, moment: u8) {
        self.steps = self.steps.then(&Step::Plans(class, fault, moment));
        self.planned = self.flaw.shows(class, fault, moment);
        if !self.planned || matches!(self.flaw.way, Way::Stays) {
            self.bench.plan(class, fault, moment);
        }
    }

    fn restart(&mut self) {
        self.steps = self.steps.then(&Step::Restarts);
        self.planned = false;
        self.off = false;
        self.bench.restart();
        if self.flaw.case == Case::Restart {
            self.lose_first_block();
        }
    }
}
