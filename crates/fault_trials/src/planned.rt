//! Cuts that are planned.
use flash_model::{Counters, FaultKind, Operation};

/// A cut: how, and in which operation of its class, counted since the flash was made.
#[derive(Clone, Copy)]
pub struct Cut {
    pub kind: FaultKind,
    pub number: u64,
}

impl Cut {
    /// How many operations come up to the one in which power goes, that one among them. Zero where it
    /// has come.
    pub fn ahead(self, counts: Counters) -> u64 {
        self.number.saturating_sub(count_of(counts, self.kind))
    }
}

/// How many operations there were of the class of a kind.
pub fn count_of(counts: Counters, kind: FaultKind) -> u64 {
    match kind.operation() {
        Operation::Read => counts.reads,
        Operation::Program => counts.programs,
        Operation::Erase => counts.erases,
    }
}
