//! A story with a cut in each operation.
use crate::shown::Shown;
use crate::story::{Cut, End, Story, play};
use flash_model::{Counters, FaultKind, Operation};
use std::alloc::Global;
use undofs::Fault;

/// The ways to cut an operation.
const KINDS: [FaultKind; 7] = [
    FaultKind::ReadCut,
    FaultKind::ProgramCutNone,
    FaultKind::ProgramCutWhole,
    FaultKind::ProgramCutTorn,
    FaultKind::EraseCutNone,
    FaultKind::EraseCutWhole,
    FaultKind::EraseCutTorn,
];

/// What came of a story with a cut in each operation.
#[derive(Clone, Copy)]
pub struct Tally {
    /// The story with no cut.
    pub whole: End,
    /// How often it was played with one.
    pub runs: u64,
    /// How many of these ended with the tree from before the update, and how many with the update's.
    pub old: u64,
    pub new: u64,
    /// The most starts that one had.
    pub most_starts: u64,
}

impl Tally {
    /// Adds a story.
    fn add(&mut self, end: End) {
        self.runs = self.runs.saturating_add(1);
        self.most_starts = self.most_starts.max(end.starts);
        if end.shown == Shown::Old {
            self.old = self.old.saturating_add(1);
        } else {
            self.new = self.new.saturating_add(1);
        }
    }
}

/// Plays a story with no cut, and with one in each of its operations.
pub fn cut_each(alloc: Global, story: Story) -> Result<Tally, Fault> {
    let whole = play(alloc, story, None)?;
    let mut tally = Tally {
        whole,
        runs: 0,
        old: 0,
        new: 0,
        most_starts: 0,
    };
    for kind in KINDS {
        for number in 1..=count_of(whole.counts, kind) {
            let end = play(alloc, story, Some(Cut { kind, number }))?;
            tally.add(end);
        }
    }
    Ok(tally)
}

/// How many operations there were of the class of a kind.
fn count_of(counts: Counters, kind: FaultKind) -> u64 {
    match kind.operation() {
        Operation::Read => counts.reads,
        Operation::Program => counts.programs,
        Operation::Erase => counts.erases,
    }
}
