//! A flash, with the system that is mounted on it.
ghost use Rattle.std.specs.Prelude.{IfSome};
ghost use Rattle.flash_simulation.specs.Simulation.{device_of};
ghost use Rattle.system.specs.Systems.{IsSystem};
ghost use Rattle.session_oracle.specs.Props.{seat-prop};

use crate::newest::write_newest_anew;
use crate::planned::Cut;
use flash_model::{Counters, Planned};
use flash_simulation::SimFlash;
use fs_types::{Answer, Call, Event, Fault, Reply};
use session_oracle::{Shows, flash_of};
use std::alloc::Global;
use undofs::{Ask, System, Told, serve, serve_ask};

/// A flash, with the system that is mounted on it, if one is.
#[derive(Drop)]
pub struct Session {
    flash: SimFlash,
    system: Option<System>,
    ghost mounted: { IfSome system (IsSystem (device_of flash)) } by { seat-prop (device_of flash) system },
}

impl Session {
    /// The flash of an image, with no system mounted. [`Fault::Invalid`] where it is none.
    pub fn new(alloc: Global, image: &[u8]) -> Result<Session, Fault> {
        Ok(Session {
            flash: flash_of(alloc, image)?,
            system: None,
        })
    }

    /// Plans a cut. [`Fault::Invalid`] where its operation has come.
    pub fn plan(&mut self, cut: Cut) -> Result<(), Fault> {
        let ahead = cut.ahead(self.flash.counts());
        if ahead == 0 {
            return Err(Fault::Invalid);
        }
        self.flash.plan_fault(ahead, cut.kind)
    }

    /// How many operations there were since the flash was made.
    pub fn counts(&self) -> Counters {
        self.flash.counts()
    }

    /// Whether a system is mounted.
    pub fn is_mounted(&self) -> bool {
        self.system.is_some()
    }

    /// Does what is asked.
    pub fn serve(&mut self, alloc: Global, ask: &Ask) -> Told {
        serve_ask(alloc, &mut self.flash, &mut self.system, ask)
    }

    /// Puts the power on, and mounts the newest record.
    pub fn restart(&mut self, alloc: Global) -> Answer {
        serve(alloc, &mut self.flash, &mut self.system, &Event::Restart)
    }

    /// Erases the anchor of the newest record, writes that record at its beginning, and mounts it.
    pub fn write_newest_anew(&mut self, alloc: Global) -> Answer {
        self.system = None;
        match write_newest_anew(alloc, &mut self.flash) {
            Ok(()) => self.restart(alloc),
            Err(fault) => Answer::Refused(fault),
        }
    }
}

impl Shows for Session {
    fn ask(&mut self, alloc: Global, call: &Call) -> Result<Reply, Fault> {
        match &mut self.system {
            Some(system) => system.call(alloc, &mut self.flash, call.lend()),
            None => Err(Fault::Invalid),
        }
    }
}
