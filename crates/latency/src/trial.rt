//! A trial: the work on a flash that is filled to a share, with steps of a kind between its calls.
use crate::error::LatencyError;
use crate::filling::fill;
use crate::mounted::Mounted;
use crate::part::Part;
use crate::samples::{Samples, Spread};
use crate::watched::Asked;
use crate::work::{Work, opening};
use crate::worked::{Steps, Worked, call_and_sync, take_steps};
use fs_types::Call;
use std::alloc::{AllocError, Global};

/// A trial: the part, how many of a hundred data blocks are used before it, the steps between two calls, and
/// how many calls are measured.
#[derive(Clone, Copy)]
pub struct Trial<'p> {
    pub part: &'p Part,
    pub percent: u64,
    pub steps: Steps,
    pub calls: u64,
}

/// What calls asked, each with its sync, and how many microseconds it took; and all that the steps asked.
#[derive(Drop)]
struct Taken {
    reads: Samples,
    programs: Samples,
    erases: Samples,
    times: Samples,
    steps: Asked,
}

/// How these spread, and what the steps before a call asked and took on the average.
#[derive(Clone, Copy)]
pub struct Found {
    pub reads: Spread,
    pub programs: Spread,
    pub erases: Spread,
    pub times: Spread,
    pub step_reads: u64,
    pub step_erases: u64,
    pub step_time: u64,
}

impl Taken {
    fn new(alloc: Global) -> Taken {
        Taken {
            reads: Samples::new(alloc),
            programs: Samples::new(alloc),
            erases: Samples::new(alloc),
            times: Samples::new(alloc),
            steps: Asked::default(),
        }
    }

    /// Takes in what a call asked, and how long it took.
    fn add(&mut self, asked: Asked, time: u64) -> Result<(), AllocError> {
        self.reads.push(asked.reads)?;
        self.programs.push(asked.programs)?;
        self.erases.push(asked.erases)?;
        self.times.push(time)
    }

    /// How it spreads, of calls on a part.
    fn spread(self, part: &Part) -> Result<Found, AllocError> {
        let calls = self.times.count().max(1);
        let time = part.time(self.steps);
        Ok(Found {
            reads: self.reads.spread()?,
            programs: self.programs.spread()?,
            erases: self.erases.spread()?,
            times: self.times.spread()?,
            step_reads: self.steps.reads.div_ceil(calls),
            step_erases: self.steps.erases.div_ceil(calls),
            step_time: time.div_ceil(calls),
        })
    }
}

/// Measures a trial. As many calls as the flash has blocks come before those that are measured, so that each
/// free block was written before.
pub fn measure(alloc: Global, trial: Trial<'_>) -> Result<Found, LatencyError> {
    let mut run = Run::new(alloc, trial)?;
    run.carry_out(alloc, u64::from(trial.part.sizes.blocks))?;
    run.taken = Taken::new(alloc);
    run.carry_out(alloc, trial.calls)?;
    let Run { taken, .. } = run;
    Ok(taken.spread(trial.part)?)
}

/// A trial that goes on.
#[derive(Drop)]
struct Run<'p> {
    trial: Trial<'p>,
    mounted: Mounted,
    work: Work,
    taken: Taken,
}

impl<'p> Run<'p> {
    /// A trial of which no call was carried out: what the work needs is made, and the flash is filled.
    fn new(alloc: Global, trial: Trial<'p>) -> Result<Run<'p>, LatencyError> {
        let mut mounted = Mounted::new(alloc, trial.part)?;
        for call in opening(alloc)? {
            mounted.call(alloc, &call)?;
        }
        fill(alloc, &mut mounted, trial.part, trial.percent)?;
        Ok(Run {
            trial,
            mounted,
            work: Work::new(),
            taken: Taken::new(alloc),
        })
    }

    /// Carries out so many calls of the work, each after the steps that come before it.
    fn carry_out(&mut self, alloc: Global, calls: u64) -> Result<(), LatencyError> {
        for _ in 0..calls {
            let call = self.work.next_call(alloc)?;
            self.take_steps(alloc)?;
            self.take_call(alloc, &call)?;
        }
        Ok(())
    }

    /// Takes the steps between two calls.
    fn take_steps(&mut self, alloc: Global) -> Result<(), LatencyError> {
        let before = self.mounted.asked();
        take_steps(alloc, &mut self.mounted, self.trial.steps)?;
        let asked = self.mounted.asked().beyond(before);
        self.taken.steps = self.taken.steps.and(asked);
        Ok(())
    }

    /// Carries out a call and a sync.
    fn take_call(&mut self, alloc: Global, call: &Call) -> Result<(), LatencyError> {
        let before = self.mounted.asked();
        call_and_sync(alloc, &mut self.mounted, call)?;
        let asked = self.mounted.asked().beyond(before);
        self.taken.add(asked, self.trial.part.time(asked))?;
        Ok(())
    }
}
