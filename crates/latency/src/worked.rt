//! What the work is done on, and the steps that are taken on it.
use flash_model::Flash;
use fs_types::{Call, Fault, Reply};
use std::alloc::Global;
use undofs::Fs;

/// A mounted system that calls and steps are asked of.
pub trait Worked {
    /// Carries out a call.
    fn call(&mut self, alloc: Global, call: &Call) -> Result<Reply, Fault>;

    /// Takes a step of reclaiming.
    fn reclaim_step(&mut self, alloc: Global, budget: u64) -> Result<bool, Fault>;

    /// Takes a step of cleaning.
    fn clean_step(&mut self, budget: u64) -> Result<bool, Fault>;

    /// Takes a step of preparing.
    fn prepare_step(&mut self, budget: u64) -> Result<bool, Fault>;
}

impl<'f, F: Flash> Worked for Fs<'f, F> {
    fn call(&mut self, alloc: Global, call: &Call) -> Result<Reply, Fault> {
        Fs::call(self, alloc, call)
    }

    fn reclaim_step(&mut self, alloc: Global, budget: u64) -> Result<bool, Fault> {
        Fs::reclaim_step(self, alloc, budget)
    }

    fn clean_step(&mut self, budget: u64) -> Result<bool, Fault> {
        Fs::clean_step(self, budget)
    }

    fn prepare_step(&mut self, budget: u64) -> Result<bool, Fault> {
        Fs::prepare_step(self, budget)
    }
}

/// The steps that are taken between two calls.
#[derive(Clone, Copy)]
pub enum Steps {
    /// None.
    None,
    /// One of reclaiming and one of cleaning, each with this budget.
    Budget(u64),
    /// One of reclaiming with the first budget, and one of preparing the blocks that are taken next with the
    /// second.
    Ahead(u64, u64),
    /// Steps of reclaiming until none remains, and then of cleaning.
    All,
}

/// Takes the steps that come between two calls.
pub fn take_steps<W: Worked>(alloc: Global, worked: &mut W, steps: Steps) -> Result<(), Fault> {
    match steps {
        Steps::None => {}
        Steps::Budget(budget) => {
            worked.reclaim_step(alloc, budget)?;
            worked.clean_step(budget)?;
        }
        Steps::Ahead(reclaimed, prepared) => {
            worked.reclaim_step(alloc, reclaimed)?;
            worked.prepare_step(prepared)?;
        }
        Steps::All => {
            worked.reclaim_step(alloc, u64::MAX)?;
            worked.clean_step(u64::MAX)?;
        }
    }
    Ok(())
}

/// Carries out a call of the work and a sync. A file that is not there is no fault of the flash.
pub fn call_and_sync<W: Worked>(alloc: Global, worked: &mut W, call: &Call) -> Result<(), Fault> {
    match worked.call(alloc, call) {
        Ok(_) | Err(Fault::NoEntry) => {}
        Err(fault) => return Err(fault),
    }
    worked.call(alloc, &Call::Sync)?;
    Ok(())
}
