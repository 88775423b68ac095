//! Two programs are cut: one of a script, and one of a change and a sync after the restart.
use crate::cut_runs::Run;
use crate::planned::Cut;
use crate::servers::Server;
use crate::sweeps::Tally;
use crate::trials::Trial;
use flash_model::FaultKind;
use fs_types::Fault;
use std::alloc::Global;

/// The ways to cut a program.
const KINDS: [FaultKind; 3] = [
    FaultKind::ProgramCutNone,
    FaultKind::ProgramCutWhole,
    FaultKind::ProgramCutTorn,
];

/// Cuts each program of a script, and each of a change and a sync after the restart.
pub fn cut_twice(alloc: Global, trial: &Trial) -> Result<Tally, Fault> {
    let mut tally = Tally::default();
    for number in 1..=programs_of_script(alloc, trial)? {
        for kind in KINDS {
            cut_after(alloc, trial, Cut { kind, number }, &mut tally)?;
        }
    }
    Ok(tally)
}

/// How many programs a script asks.
fn programs_of_script(alloc: Global, trial: &Trial) -> Result<u64, Fault> {
    let mut run = Run::new(alloc, trial, Server::Right, None)?;
    run.play_script(alloc, trial)?;
    Ok(run.counts().programs)
}

/// Cuts a program of a script, and each of a change and a sync after the restart.
fn cut_after(alloc: Global, trial: &Trial, first: Cut, tally: &mut Tally) -> Result<(), Fault> {
    let (before, last) = programs_of_change(alloc, trial, first)?;
    for number in before.saturating_add(1)..=last {
        for kind in KINDS {
            try_pair(alloc, trial, first, Cut { kind, number }, tally)?;
        }
    }
    Ok(())
}

/// How many programs there are up to the restart after a cut, and up to the end of a change and a sync
/// after it.
fn programs_of_change(alloc: Global, trial: &Trial, first: Cut) -> Result<(u64, u64), Fault> {
    let mut run = Run::new(alloc, trial, Server::Right, Some(first))?;
    run.play_script(alloc, trial)?;
    let before = run.counts().programs;
    run.play(alloc, &trial.change)?;
    Ok((before, run.counts().programs))
}

/// Carries out a script with a cut, a change and a sync with another, and what comes after them.
fn try_pair(
    alloc: Global,
    trial: &Trial,
    first: Cut,
    second: Cut,
    tally: &mut Tally,
) -> Result<(), Fault> {
    let mut run = Run::new(alloc, trial, Server::Right, Some(first))?;
    let is_run = run.play_script(alloc, trial)? && play_change(alloc, trial, second, &mut run)?;
    tally.add(Some(first), run.cuts(), is_run);
    Ok(())
}

/// Carries out a change and a sync with a cut, and what comes after them. Whether all of it is a run.
fn play_change<'a>(
    alloc: Global,
    trial: &'a Trial,
    cut: Cut,
    run: &mut Run<'a>,
) -> Result<bool, Fault> {
    run.plan(cut)?;
    Ok(run.play_later(alloc, &trial.change)? && run.play_later(alloc, &trial.later)?)
}
