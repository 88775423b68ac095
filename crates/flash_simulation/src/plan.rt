//! A plan at work: it counts the operations, and tells which fault is due.
ghost use Rattle.std.specs.Prelude.{◌≡◌, ◌≤◌, ◌<◌, ◌+◌, ◌↔◌, IfOk, OnOk, OnErr, IfErr, Bool, true, not, nat_lt, filter, vec_len, vec_capacity};
ghost use Rattle.std.specs.List.{list_any};
ghost use Rattle.flash_model.specs.Plan.{is_for, is_ahead, kind_at, kind_due, begun, plan_of_entries, planned, IsPlanFull};

use flash_model::{Counters, FaultKind, Operation, PlannedFault};
use fs_types::Fault;
use std::alloc::{AllocError, Global};
use std::marker::Model;

/// So many entries may wait and leave no room for another.
const MOST_WAITING: usize = 64;

#[derive(Drop)]
pub(crate) struct Plan {
    counters: Counters,
    waiting: Vec<PlannedFault>,
}

impl Model for Plan {
    ghost use Rattle.std.specs.Prelude.{◌≤◌, vec_capacity};
    ghost use Rattle.flash_model.specs.Plan.{Schedule, most_waiting};

    ghost Value = { Schedule };

    ghost view = { λ plan. record { counters = plan.counters; waiting = plan.waiting.items } };

    ghost invariant = { λ plan. most_waiting ≤ vec_capacity plan.waiting };
}

impl Plan {
    // The room is made here for all entries, and for 64 more.
    pub(crate) fn new(alloc: Global, entries: &[PlannedFault]) -> Result<Plan, AllocError>
        ensures { IfOk result (λ plan. plan ≡ plan_of_entries entries.now) }
    {
        let mut waiting = Vec::with_capacity(alloc, entries.len() + MOST_WAITING)?;
        waiting.extend_from_slice(entries)?;
        drop_those_of_none(&mut waiting);
        Ok(Plan {
            counters: Counters {
                reads: 0,
                programs: 0,
                erases: 0,
            },
            waiting,
        })
    }

    // How many operations of each class have begun.
    pub(crate) fn counters(&self) -> Counters
        ensures { result ≡ self.now.counters }
    {
        self.counters
    }

    // Counts an operation that begins, and gives what befalls it.
    pub(crate) fn begin(&mut self, class: Operation) -> Option<FaultKind>
        ensures due { result ≡ kind_due self.old class }
        ensures begun { self.new ≡ begun self.old class }
    {
        let before = self.counters.count(class);
        self.counters = self.counters.more(class);
        let number = self.counters.count(class);
        let due = if before < u64::MAX {
            last_for(&self.waiting, class, number as u128)
        } else {
            None
        };
        drop_passed(&mut self.waiting, class, number);
        due
    }

    // Plans the k-th operation after now of the kind's class.
    pub(crate) fn add(&mut self, k: u64, kind: FaultKind) -> Result<(), Fault>
        ensures ok { OnOk result (self.new ≡ planned self.old k kind) }
        ensures err { OnErr result (self.new ≡ self.old) }
        ensures full { (result ≡ Err Fault.Invalid) ↔ IsPlanFull self.old k kind }
        ensures only { IfErr result (λ fault. fault ≡ Fault.Invalid) }
    {
        let class = kind.operation();
        let number = self.counters.count(class) as u128 + k as u128;
        let replaces = has_one_for(&self.waiting, class, number);
        if self.waiting.len() >= MOST_WAITING && !replaces {
            return Err(Fault::Invalid);
        }
        drop_those_for(&mut self.waiting, class, number);
        self.waiting.push(PlannedFault { number, kind })?;
        Ok(())
    }
}

fn last_for(entries: &[PlannedFault], class: Operation, number: u128) -> Option<FaultKind>
    ensures { result ≡ kind_at class number entries.now }
{
    entries
        .iter()
        .rev()
        .find(|entry| entry.is_for(class, number))
        .map(|entry| entry.kind)
}

fn has_one_for(entries: &[PlannedFault], class: Operation, number: u128) -> bool
    ensures { result ≡ list_any (is_for class number) entries.now }
{
    entries.iter().any(|entry| entry.is_for(class, number))
}

// Operations are numbered from 1 on.
fn drop_those_of_none(entries: &mut Vec<PlannedFault>)
    ensures items { entries.new.items ≡ filter (λ entry. nat_lt 0 entry.number) entries.old.items }
    ensures capacity { vec_capacity entries.new ≡ vec_capacity entries.old }
{
    entries.retain(|entry| 0 < entry.number);
}

fn drop_passed(entries: &mut Vec<PlannedFault>, class: Operation, number: u64)
    ensures items { entries.new.items ≡ filter (is_ahead class number) entries.old.items }
    ensures capacity { vec_capacity entries.new ≡ vec_capacity entries.old }
{
    entries.retain(|entry| entry.is_ahead(class, number));
}

fn drop_those_for(entries: &mut Vec<PlannedFault>, class: Operation, number: u128)
    ensures items { entries.new.items ≡ filter (λ entry. not (is_for class number entry)) entries.old.items }
    ensures len { vec_len entries.new ≤ vec_len entries.old }
    ensures fewer { list_any (is_for class number) entries.old.items ≡ true → vec_len entries.new < vec_len entries.old }
    ensures capacity { vec_capacity entries.new ≡ vec_capacity entries.old }
{
    entries.retain(|entry| !entry.is_for(class, number));
}
