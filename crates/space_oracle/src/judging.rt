//! What may be told of the blocks that a history keeps, and of versions that are forgotten for their
//! blocks.
use crate::rooms::Room;
use crate::roots::{Roots, forgets};
use fs_types::Fault;
use plain_machine::PlainMachine;
use std::alloc::{AllocError, Global};
use undofs::{HistorySpace, VersionSpace};

/// Whether this may be told of the blocks that the history of a machine keeps.
///
/// It tells of each version and of each checkpoint. Those before the present one can be forgotten; the
/// first frees the blocks that it keeps alone, and each further one at least these too. What is told is
/// taken, and has to be what was known.
pub fn may_tell(
    alloc: Global,
    machine: &mut PlainMachine,
    room: &mut Room,
    space: &HistorySpace,
) -> Result<bool, Fault> {
    let roots = Roots::of(alloc, machine)?;
    let versions = space.versions.as_slice();
    let is_whole = versions.len() == roots.versions
        && space.checkpoints.as_slice().len() == roots.checkpoints
        && has_frees_before(versions, roots.present);
    let may_keep = room.may_keep(kept_alone(space), roots.is_only_one());
    let frees = freed_by_each(alloc, versions)?;
    Ok(is_whole && may_keep && is_rising(versions) && room.take_frees(frees))
}

/// Whether it is told of the versions before this place, and of no other, what forgetting them frees.
fn has_frees_before(versions: &[VersionSpace], present: u64) -> bool {
    versions.iter().enumerate().all(|(place, version)| version.frees.is_some()
        == ((place as u64) < present))
}

/// What forgetting each of the versions frees that can be forgotten.
fn freed_by_each(alloc: Global, versions: &[VersionSpace]) -> Result<Vec<u64>, AllocError> {
    let mut frees = Vec::new(alloc);
    for version in versions {
        if let Some(freed) = version.frees {
            frees.push(freed)?;
        }
    }
    Ok(frees)
}

/// Whether the first version frees what it keeps alone, and each further one that much more at least.
fn is_rising(versions: &[VersionSpace]) -> bool {
    let mut before = None;
    for version in versions {
        let Some(freed) = version.frees else {
            return true;
        };
        let is_lawful = match before {
            None => freed == version.alone,
            Some(before) => version.alone <= freed && before <= freed - version.alone,
        };
        if !is_lawful {
            return false;
        }
        before = Some(freed);
    }
    true
}

/// How many blocks are kept alone, each by one version or checkpoint.
fn kept_alone(space: &HistorySpace) -> u64 {
    let mut alone = 0u64;
    for version in space.versions.as_slice() {
        alone = alone.saturating_add(version.alone);
    }
    for checkpoint in space.checkpoints.as_slice() {
        alone = alone.saturating_add(*checkpoint);
    }
    alone
}

/// Whether so many versions may be forgotten for so many blocks to be free, which the machine then
/// forgets too.
pub fn may_forget(
    alloc: Global,
    machine: &mut PlainMachine,
    room: &mut Room,
    blocks: u64,
    count: u64,
) -> bool {
    let may_be = room.may_be_least(blocks, count) && forgets(alloc, machine, count);
    room.forget(count);
    may_be
}

/// Whether it may be refused so to forget versions for so many blocks to be free: in a change group, where
/// no number of versions is enough, and in read-only mode where some have to be forgotten.
pub fn may_refuse_to_forget(
    alloc: Global,
    machine: &mut PlainMachine,
    room: &Room,
    blocks: u64,
    fault: Fault,
    is_read_only: bool,
) -> Result<bool, Fault> {
    let roots = Roots::of(alloc, machine)?;
    Ok(match fault {
        Fault::InGroup => roots.is_in_group,
        Fault::FlashFull => !roots.is_in_group && room.may_lack(blocks, roots.present),
        Fault::ReadOnly => !roots.is_in_group && is_read_only && room.may_lack(blocks, 0),
        _ => false,
    })
}
