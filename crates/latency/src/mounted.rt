//! A system with the flash that it is mounted on.
ghost use Rattle.flash_simulation.specs.Simulation.{device_of};
ghost use Rattle.system.specs.Props.{system-prop};
ghost use Rattle.system.specs.Systems.{IsSystem};

use crate::error::LatencyError;
use crate::part::Part;
use crate::watched::{Asked, Watched};
use crate::worked::Worked;
use flash_simulation::SimFlash;
use fs_types::{Call, Fault, Reply};
use std::alloc::Global;
use undofs::{System, format, mount};

/// A system with its flash.
#[derive(Drop)]
pub struct Mounted {
    flash: Watched,
    system: System,
    ghost mounted: { IsSystem (device_of flash.flash) system } by { system-prop (device_of flash.flash) system },
}

impl Mounted {
    /// A new file system on a part.
    pub fn new(alloc: Global, part: &Part) -> Result<Mounted, LatencyError> {
        let memory = SimFlash::new(alloc, part.sizes, &[])?;
        let mut flash = Watched::new(alloc, memory)?;
        format(alloc, &mut flash, part.history)?;
        let system = mount(alloc, &mut flash)?;
        Ok(Mounted { flash, system })
    }

    /// What was asked of the part since it was made.
    pub fn asked(&self) -> Asked {
        self.flash.asked()
    }
}

impl Worked for Mounted {
    fn call(&mut self, alloc: Global, call: &Call) -> Result<Reply, Fault> {
        self.system.call(alloc, &mut self.flash, call.lend())
    }

    fn reclaim_step(&mut self, alloc: Global, budget: u64) -> Result<bool, Fault> {
        self.system.reclaim_step(alloc, &mut self.flash, budget)
    }

    fn clean_step(&mut self, budget: u64) -> Result<bool, Fault> {
        self.system.clean_step(&mut self.flash, budget)
    }

    fn prepare_step(&mut self, budget: u64) -> Result<bool, Fault> {
        self.system.prepare_step(&mut self.flash, budget)
    }
}
