//! Each operation of a script is cut once in each way.
use crate::cut_runs::Run;
use crate::planned::{Cut, count_of};
use crate::servers::Server;
use crate::trials::Trial;
use flash_model::{Counters, FaultKind};
use fs_types::Fault;
use std::alloc::Global;

/// The ways to cut an operation.
const KINDS: [FaultKind; 7] = [
    FaultKind::ReadCut,
    FaultKind::ProgramCutNone,
    FaultKind::ProgramCutWhole,
    FaultKind::ProgramCutTorn,
    FaultKind::EraseCutNone,
    FaultKind::EraseCutWhole,
    FaultKind::EraseCutTorn,
];

/// What came of runs.
#[derive(Clone, Copy, Default)]
pub struct Tally {
    /// How many there were, and cuts in them.
    pub runs: u64,
    pub cuts: u64,
    /// How many are none by the oracle, and the cut of the first of them, if there is one in it.
    pub wrong: u64,
    pub first_wrong: Option<Cut>,
}

impl Tally {
    /// Adds a run.
    pub fn add(&mut self, cut: Option<Cut>, cuts: u64, is_run: bool) {
        self.runs = self.runs.saturating_add(1);
        self.cuts = self.cuts.saturating_add(cuts);
        if !is_run {
            self.wrong = self.wrong.saturating_add(1);
            self.first_wrong = self.first_wrong.or(cut);
        }
    }
}

/// Carries out a script, with no cut and with one in each operation, and what comes after it.
pub fn cut_each(alloc: Global, trial: &Trial, server: Server) -> Result<Tally, Fault> {
    let mut tally = Tally::default();
    try_cut(alloc, trial, server, None, &mut tally)?;
    let counts = count(alloc, trial, server)?;
    for kind in KINDS {
        for number in 1..=count_of(counts, kind) {
            let cut = Cut { kind, number };
            try_cut(alloc, trial, server, Some(cut), &mut tally)?;
        }
    }
    Ok(tally)
}

/// How many operations a script asks, the mounts before and after it among them.
fn count(alloc: Global, trial: &Trial, server: Server) -> Result<Counters, Fault> {
    let mut run = Run::new(alloc, trial, server, None)?;
    run.play_script(alloc, trial)?;
    Ok(run.mounted_after())
}

/// Carries out a script with a cut, and what comes after it.
fn try_cut(
    alloc: Global,
    trial: &Trial,
    server: Server,
    cut: Option<Cut>,
    tally: &mut Tally,
) -> Result<(), Fault> {
    let mut run = Run::new(alloc, trial, server, cut)?;
    let is_run = run.play_script(alloc, trial)? && run.play_later(alloc, &trial.later)?;
    tally.add(cut, run.cuts(), is_run);
    Ok(())
}
