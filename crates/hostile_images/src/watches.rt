//! What is known of a system while calls are asked.
use crate::facts::Facts;
use fs_types::{Answer, Call, Event};
use undofs::{Ask, Told};

/// What the newest record told at the mount, and how many calls were asked since.
#[derive(Clone, Copy)]
pub struct Watch {
    facts: Facts,
    asked: u64,
}

impl Watch {
    /// No call was asked.
    pub fn new(facts: Facts) -> Watch {
        Watch { facts, asked: 0 }
    }

    /// How many calls were asked.
    pub fn asked(self) -> u64 {
        self.asked
    }

    pub fn is_read_only(self) -> bool {
        self.facts.is_read_only()
    }

    /// Whether the newest record may have the greatest sequence: each call may have written one.
    pub fn may_lack_a_sequence(self) -> bool {
        self.facts.sequence.saturating_add(self.asked()) == u64::MAX
    }

    /// Notes that a call was asked.
    pub fn note(&mut self) {
        self.asked = self.asked.saturating_add(1);
    }

    /// Whether this may be told, as far as the record lets it: in read-only mode no version is forgotten, and
    /// no change, no commit and no step of cleaning or of preparing is accepted, after the greatest sequence
    /// no commit, and `df` tells the bad blocks.
    pub fn may_tell(self, ask: &Ask, told: &Told) -> bool {
        match (ask, told) {
            (Ask::Event(event), Told::Answer(answer)) => self.may_answer(event, answer),
            (Ask::ForgetFree(_), Told::Forgot(count)) => *count == 0 || !self.is_read_only(),
            _ => true,
        }
    }

    fn may_answer(self, event: &Event, answer: &Answer) -> bool {
        match (event, answer) {
            (Event::Call(call), Answer::Done(reply)) => {
                !(self.is_read_only() && is_refused_in_read_only_mode(call))
                    && !(self.facts.sequence == u64::MAX && is_commit(call))
                    && self.facts.has_space(reply)
            }
            (Event::CleanStep(_) | Event::PrepareStep(_), Answer::Done(_)) => !self.is_read_only(),
            _ => true,
        }
    }
}

/// Whether a call that is accepted always makes a version, commits or changes what is kept.
fn is_refused_in_read_only_mode(call: &Call) -> bool {
    match call {
        Call::Mkdir { .. } | Call::Rmdir { .. } | Call::Unlink { .. } | Call::Rollback { .. } =>
            true,
        Call::Forget { .. } | Call::Checkpoint { .. } | Call::RemoveCheckpoint { .. } => true,
        _ => is_commit(call),
    }
}

fn is_commit(call: &Call) -> bool {
    matches!(call, Call::Sync | Call::Fsync { .. })
}
