//! All that a system shows: its history, the tree of each version and checkpoint, and the one that calls
//! work on.
use crate::texts::answer_of;
use crate::trees::{Root, Walk, show_tree};
use flash_model::Flash;
use flash_simulation::SimFlash;
use fs_types::{Answer, Call, CpName, Event, Fault, MAX_FILE_BYTES, Reply};
use plain_machine::{PlainMachine, Space};
use script::{LineAnswer, print_answer};
use std::alloc::Global;
use undofs::{Ask, Fs, Told};

/// The plain machine knows nothing of a flash, and is not asked for it here.
const NO_SPACE: Space = Space {
    blocks: 0,
    bad: 0,
    free: 0,
    anchors: 0,
};

/// All of a tree: it has fewer directories here.
const WHOLE: Extent = Extent {
    directories: 4_096,
    bytes: MAX_FILE_BYTES as u64,
};

/// What can be asked calls.
pub trait Shows {
    /// Carries out a call.
    fn ask(&mut self, alloc: Global, call: &Call) -> Result<Reply, Fault>;
}

impl Shows for PlainMachine {
    fn ask(&mut self, alloc: Global, call: &Call) -> Result<Reply, Fault> {
        self.step(alloc, NO_SPACE, call)
    }
}

impl<'f, F: Flash> Shows for Fs<'f, F> {
    fn ask(&mut self, alloc: Global, call: &Call) -> Result<Reply, Fault> {
        self.call(alloc, call)
    }
}

/// All that a system shows.
#[derive(Drop)]
pub struct Shown {
    /// What is printed for its history.
    pub log: Vec<u8>,
    /// What is printed for each path of each version and checkpoint: what `ls` and `entries` tell of a
    /// directory, and the bytes of each file.
    pub trees: Vec<u8>,
    /// What is printed so for the tree that calls work on: in a change group the group's.
    pub working: Vec<u8>,
}

impl Shown {
    /// Whether two systems show the same.
    pub fn is_same(&self, other: &Shown) -> bool {
        self.has_same_history(other) && self.working.as_slice() == other.working.as_slice()
    }

    /// Whether two systems show the same but for an open group, which no history holds.
    pub fn has_same_history(&self, other: &Shown) -> bool {
        self.log.as_slice() == other.log.as_slice()
            && self.trees.as_slice() == other.trees.as_slice()
    }
}

/// What a system shows. The error is that of the first call that was refused.
pub fn show<S: Shows>(alloc: Global, system: &mut S) -> Result<Shown, Fault> {
    show_some(alloc, system, WHOLE)
}

/// How much of each tree is shown.
#[derive(Clone, Copy, Debug)]
pub struct Extent {
    /// At most so many directories.
    pub directories: u32,
    /// At most so many bytes of each file.
    pub bytes: u64,
}

/// What a system shows, of each tree so much.
pub fn show_some<S: Shows>(alloc: Global, system: &mut S, extent: Extent) -> Result<Shown, Fault> {
    let answer = LineAnswer::Told(answer_of(system.ask(alloc, &Call::Log)));
    let mut shown = Shown {
        log: Vec::new(alloc),
        trees: Vec::new(alloc),
        working: show_working(alloc, system, extent)?,
    };
    print_answer(&mut shown.log, &answer)?;
    let mut walk = Walk {
        system,
        extent,
        out: &mut shown.trees,
    };
    show_trees(alloc, &mut walk, &answer)?;
    Ok(shown)
}

/// What is printed for the tree that calls work on, so much of it.
fn show_working<S: Shows>(alloc: Global, system: &mut S, extent: Extent) -> Result<Vec<u8>, Fault> {
    let mut working = Vec::new(alloc);
    let mut walk = Walk {
        system,
        extent,
        out: &mut working,
    };
    show_tree(alloc, &mut walk, Root::Working)?;
    Ok(working)
}

/// What is printed for the tree that calls work on.
pub fn working_text<S: Shows>(alloc: Global, system: &mut S) -> Result<Vec<u8>, Fault> {
    show_working(alloc, system, WHOLE)
}

/// What is printed for the history of a system.
pub fn log_text<S: Shows>(alloc: Global, system: &mut S) -> Result<Vec<u8>, Fault> {
    let answer = LineAnswer::Told(answer_of(system.ask(alloc, &Call::Log)));
    let mut log = Vec::new(alloc);
    print_answer(&mut log, &answer)?;
    Ok(log)
}

/// What is printed for the trees of a history.
fn show_trees<S: Shows>(
    alloc: Global,
    walk: &mut Walk<'_, S>,
    answer: &LineAnswer,
) -> Result<(), Fault> {
    match answer {
        LineAnswer::Told(
            Answer::Done(
                Reply::Log {
                    versions,
                    checkpoints,
                    ..
                },
            ),
        ) => {
            show_versions(alloc, walk, versions.as_slice())?;
            show_checkpoints(alloc, walk, checkpoints.as_slice())
        }
        LineAnswer::Told(Answer::Refused(fault)) => Err(*fault),
        _ => Err(Fault::Invalid),
    }
}

fn show_versions<S: Shows>(
    alloc: Global,
    walk: &mut Walk<'_, S>,
    serials: &[u64],
) -> Result<(), Fault> {
    for serial in serials {
        show_tree(alloc, walk, Root::Serial(*serial))?;
    }
    Ok(())
}

fn show_checkpoints<S: Shows>(
    alloc: Global,
    walk: &mut Walk<'_, S>,
    names: &[CpName],
) -> Result<(), Fault> {
    for name in names {
        show_tree(alloc, walk, Root::Checkpoint(name))?;
    }
    Ok(())
}

/// What a restart shows: the power is put on, and the newest record mounted.
pub fn show_after_restart(alloc: Global, flash: &mut SimFlash) -> Result<Shown, Fault> {
    flash.power_on();
    let mut system = Fs::mount(alloc, flash)?;
    show(alloc, &mut system)
}

/// What a mounted system tells to what is asked, which is no restart.
pub fn serve_mounted<F: Flash>(alloc: Global, system: &mut Fs<'_, F>, ask: &Ask) -> Told {
    match ask {
        Ask::Event(event) => Told::Answer(serve_event(alloc, system, event)),
        Ask::Space => match system.space_by_version(alloc) {
            Ok(space) => Told::Space(space),
            Err(fault) => Told::Answer(Answer::Refused(fault)),
        },
        Ask::ForgetFree(blocks) => match system.forget_until_free(alloc, *blocks) {
            Ok(count) => Told::Forgot(count),
            Err(fault) => Told::Answer(Answer::Refused(fault)),
        },
    }
}

/// What a mounted system answers to an event that is no restart.
fn serve_event<F: Flash>(alloc: Global, system: &mut Fs<'_, F>, event: &Event) -> Answer {
    match event {
        Event::Call(call) => answer_of(system.call(alloc, call)),
        Event::ReclaimStep(budget) => answer_of_step(system.reclaim_step(alloc, *budget)),
        Event::CleanStep(budget) => answer_of_step(system.clean_step(*budget)),
        Event::PrepareStep(budget) => answer_of_step(system.prepare_step(*budget)),
        Event::Restart => Answer::Unmounted,
    }
}

fn answer_of_step(outcome: Result<bool, Fault>) -> Answer {
    match outcome {
        Ok(is_done) => Answer::Done(Reply::Step(is_done)),
        Err(fault) => Answer::Refused(fault),
    }
}
