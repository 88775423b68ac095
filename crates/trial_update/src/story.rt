//! The story of an update, from the device as it was to the last start.
use crate::device::{MayShow, Names, boot, new_device, update};
use crate::shown::Shown;
use crate::trial::{NewFile, Started};
use flash_model::{Counters, FaultKind, Planned};
use flash_simulation::SimFlash;
use std::alloc::Global;
use undofs::{Fault, Flash, Path};

/// No story has more starts: four up to the last of the update, one more where power goes in one, and one
/// that finds nothing on trial.
const MOST_STARTS: u64 = 6;

/// The story of an update.
#[derive(Clone, Copy)]
pub struct Story {
    /// The start at which it proves good, counted from 1; later ones prove it too.
    pub proves_at: Option<u64>,
}

impl Story {
    /// Whether the update proves good at the run after so many.
    fn proves_good_after(self, runs: u64) -> bool {
        match self.proves_at {
            Some(at) => runs.saturating_add(1) >= at,
            None => false,
        }
    }
}

/// A cut: how, and in which operation of its class after the device was made.
#[derive(Clone, Copy)]
pub struct Cut {
    pub kind: FaultKind,
    pub number: u64,
}

/// What came of a story.
#[derive(Clone, Copy)]
pub struct End {
    /// The tree at the end.
    pub shown: Shown,
    /// How many starts there were up to the first with no update on trial, that one among them.
    pub starts: u64,
    /// How many operations there were after the device was made.
    pub counts: Counters,
}

/// Plays a story with a cut, if there is one. [`Fault::Damaged`] where a start shows another tree than it
/// may, or an update that is not good is not gone.
pub fn play(alloc: Global, story: Story, cut: Option<Cut>) -> Result<End, Fault> {
    let names = Names::new(alloc)?;
    let files = new_files(alloc)?;
    let mut flash = new_device(alloc, &names)?;
    let before = flash.counts();
    if let Some(cut) = cut {
        plan(&mut flash, cut)?;
    }
    let mut may = MayShow::only(Shown::Old);
    let begun = update(alloc, &mut flash, &names, &files, &mut may);
    passed(&mut flash, begun)?;
    let starts = start_until_settled(alloc, &mut flash, &names, story, &mut may)?;
    Ok(End {
        shown: may.shown(),
        starts,
        counts: since(before, flash.counts()),
    })
}

/// Starts a device until no update is on trial, and answers how many starts there were.
fn start_until_settled(
    alloc: Global,
    flash: &mut SimFlash,
    names: &Names,
    story: Story,
    may: &mut MayShow,
) -> Result<u64, Fault> {
    let mut runs = 0u64;
    for starts in 1..=MOST_STARTS {
        let proves_good = story.proves_good_after(runs);
        let booted = boot(alloc, flash, names, proves_good, may);
        match passed(flash, booted)? {
            Some(Started::Settled) => return Ok(starts),
            Some(Started::OnTrial(_)) => runs = runs.saturating_add(1),
            Some(Started::GivenUp) | None => {}
        }
    }
    Err(Fault::Damaged)
}

/// The files of the update.
fn new_files(alloc: Global) -> Result<Vec<NewFile>, Fault> {
    let mut files = Vec::new(alloc);
    for (path, text) in [("/name", "pump 2"), ("/limit", "30")] {
        let path = Path::parse(alloc, path.as_bytes())?;
        let mut bytes = Vec::new(alloc);
        bytes.extend_from_slice(text.as_bytes())?;
        files.push(NewFile { path, bytes })?;
    }
    Ok(files)
}

/// What was answered, where power did not go. Where it went it is put on again.
fn passed<T: Drop>(flash: &mut SimFlash, answer: Result<T, Fault>) -> Result<Option<T>, Fault> {
    match answer {
        Ok(value) => Ok(Some(value)),
        Err(Fault::PowerCut) => {
            flash.power_on();
            Ok(None)
        }
        Err(fault) => Err(fault),
    }
}

/// Plans a cut.
fn plan(flash: &mut SimFlash, cut: Cut) -> Result<(), Fault> {
    if cut.number == 0 {
        return Err(Fault::Invalid);
    }
    flash.plan_fault(cut.number, cut.kind)
}

/// How many operations there were after these.
fn since(before: Counters, now: Counters) -> Counters {
    Counters {
        reads: now.reads.saturating_sub(before.reads),
        programs: now.programs.saturating_sub(before.programs),
        erases: now.erases.saturating_sub(before.erases),
    }
}
