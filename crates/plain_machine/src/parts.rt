//! A history put together from its parts.
ghost use Rattle.std.specs.Prelude.{◌≡◌, ◌+◌, ◌≤◌, ◌&&◌, true, false, if◌then◌else◌, IfOk, OnOk, IfErr, nat_lt, nat_le};
ghost use Rattle.std.specs.List.{list_all};
ghost use Rattle.fs_types.specs.declared.fault.Fault.{Fault};
ghost use Rattle.fs_types.specs.declared.limits.TheConstants.{MIN_VERSIONS, MAX_VERSIONS, MAX_CHECKPOINTS};
ghost use Rattle.plain_machine.specs.Restoring.{history_of_parts, past_serials_ascend, is_history};

use fs_types::{CpName, Fault, MAX_CHECKPOINTS, MAX_VERSIONS, MIN_VERSIONS, Version};
use machine_state::History;
use memory_trees::Tree;
use std::alloc::Global;
use std::collections::BTreeMap;

/// The history of these parts. [`Fault::Invalid`] where no system may keep it, else
/// [`Fault::NoMemory`].
pub fn history_of(
    alloc: Global,
    versions: Vec<Version<Tree>>,
    cursor: usize,
    dropped: bool,
    next: u64,
    checkpoints: BTreeMap<CpName, Tree>,
    limit: usize,
) -> Result<History<Tree>, Fault>
    ensures history { IfOk result (λ history. history ≡ history_of_parts versions.items cursor dropped next checkpoints.entries limit) }
    ensures kept { OnOk result (is_history (history_of_parts versions.items cursor dropped next checkpoints.entries limit) ≡ true) }
    ensures refused { IfErr result (λ fault. fault ≡ (if is_history (history_of_parts versions.items cursor dropped next checkpoints.entries limit) then Fault.NoMemory else Fault.Invalid)) }
{
    if !are_parts(&versions, cursor, next, &checkpoints, limit) {
        return Err(Fault::Invalid);
    }
    let history = History::restore(alloc, versions, cursor, dropped, next, checkpoints, limit)?;
    Ok(history)
}

/// Whether there may be so many versions and checkpoints, with this one present.
fn are_counts(versions: usize, cursor: usize, checkpoints: usize, limit: usize) -> bool
    ensures { result ≡ (nat_le MIN_VERSIONS limit && nat_le limit MAX_VERSIONS && nat_le versions limit && nat_lt cursor versions && nat_le checkpoints MAX_CHECKPOINTS) }
{
    usize::from(MIN_VERSIONS) <= limit
        && limit <= usize::from(MAX_VERSIONS)
        && versions <= limit
        && cursor < versions
        && checkpoints <= MAX_CHECKPOINTS
}

/// Whether these are parts of a history that a system may keep.
fn are_parts(
    versions: &[Version<Tree>],
    cursor: usize,
    next: u64,
    checkpoints: &BTreeMap<CpName, Tree>,
    limit: usize,
) -> bool
    ensures { result ≡ is_history (history_of_parts versions.now cursor false next checkpoints.now.entries limit) }
{
    are_counts(versions.len(), cursor, checkpoints.len(), limit) && are_versions(versions, next)
}

/// Whether the serials ascend from 1 on, below the next one.
fn are_versions(versions: &[Version<Tree>], next: u64) -> bool
    ensures { result ≡ (past_serials_ascend 0 versions.now && list_all (λ version. nat_lt version.serial next) versions.now) }
{
    serials_ascend(versions) && serials_are_below(versions, next)
}

fn serials_ascend(versions: &[Version<Tree>]) -> bool
    ensures { result ≡ past_serials_ascend 0 versions.now }
{
    let mut before = 0;
    for version in versions {
        if version.serial <= before {
            return false;
        }
        before = version.serial;
    }
    true
}

fn serials_are_below(versions: &[Version<Tree>], next: u64) -> bool
    ensures { result ≡ list_all (λ version. nat_lt version.serial next) versions.now }
{
    versions.iter().all(|version| version.serial < next)
}
