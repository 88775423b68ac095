//! Drivers: the checklist, run over the flashes in memory and over drivers that break a rule; and a driver that
//! is at the other end of two streams. Single operations over it, scripts with each order failed once, cut once
//! and left unanswered once, streams that break at each byte, and what it tells at the start.
#![tactic(auto)]

#[cfg(test)]
mod answers;
#[cfg(test)]
mod checklists;
#[cfg(test)]
mod cuts;
#[cfg(test)]
mod driver_answers;
#[cfg(test)]
mod orders;
#[cfg(test)]
mod outcomes;
#[cfg(test)]
mod part;
#[cfg(test)]
mod served_starts;
#[cfg(test)]
mod sessions;
#[cfg(test)]
mod starts;
#[cfg(test)]
mod streams;
