//! The record that is kept of one of which some roots are lost.
ghost use Rattle.std.specs.Prelude.{◌≡◌, ◌<◌, true, length, map, IfOk};
ghost use Rattle.record_format.specs.Payloads.{is_record};
ghost use Rattle.salvages.specs.Kept as spec;

use fs_types::{CpName, Sequence, Version};
use record_format::{Checkpoint, FORMAT, Record};
use std::alloc::{AllocError, Global};

/// The roots of the versions.
fn version_roots(alloc: Global, versions: &[Version<u32>]) -> Result<Vec<u32>, AllocError>
    ensures { IfOk result (λ roots. roots.items ≡ map (λ version. version.root) versions.now) }
{
    versions.iter().map(|version| version.root).collect(alloc)
}

/// The roots of all versions and checkpoints of a record.
pub(crate) fn list_roots(alloc: Global, saved: &Record) -> Result<Vec<u32>, AllocError>
    ensures { IfOk result (λ roots. roots.items ≡ spec.roots_in saved.now) }
{
    let mut roots = version_roots(alloc, saved.versions.as_slice())?;
    for checkpoint in saved.checkpoints.as_slice() {
        roots.push(checkpoint.root)?;
    }
    Ok(roots)
}

/// Whether a root is among the lost ones.
fn is_lost(lost: &[u32], root: u32) -> bool
    ensures { result ≡ spec.is_lost lost.now root }
{
    lost.contains(&root)
}

/// The versions that are kept.
fn keep_versions(
    alloc: Global,
    versions: &[Version<u32>],
    lost: &[u32],
) -> Result<Sequence<Version<u32>>, AllocError>
    ensures { IfOk result (λ kept. kept ≡ spec.kept_versions lost.now versions.now) }
{
    let mut kept = Vec::new(alloc);
    for version in versions {
        if !is_lost(lost, version.root) {
            kept.push(*version)?;
        }
    }
    Ok(Sequence::from_vec(kept))
}

/// The checkpoints that are kept.
fn keep_checkpoints(
    alloc: Global,
    checkpoints: &[Checkpoint],
    lost: &[u32],
) -> Result<Sequence<Checkpoint>, AllocError>
    ensures { IfOk result (λ kept. kept ≡ spec.kept_checkpoints lost.now checkpoints.now) }
{
    let mut kept = Vec::new(alloc);
    for checkpoint in checkpoints {
        if !is_lost(lost, checkpoint.root) {
            kept.push(Checkpoint {
                name: checkpoint.name.clone()?,
                root: checkpoint.root,
            })?;
        }
    }
    Ok(Sequence::from_vec(kept))
}

/// The serials of the versions that are not kept.
pub(crate) fn list_lost_serials(
    alloc: Global,
    versions: &[Version<u32>],
    lost: &[u32],
) -> Result<Vec<u64>, AllocError>
    ensures { IfOk result (λ serials. serials.items ≡ spec.lost_serials lost.now versions.now) }
{
    versions
        .iter()
        .filter(|version| is_lost(lost, version.root))
        .map(|version| version.serial)
        .collect(alloc)
}

/// The names of the checkpoints that are not kept.
pub(crate) fn list_lost_names(
    alloc: Global,
    checkpoints: &[Checkpoint],
    lost: &[u32],
) -> Result<Vec<CpName>, AllocError>
    ensures { IfOk result (λ names. names.items ≡ spec.lost_names lost.now checkpoints.now) }
{
    let mut names = Vec::new(alloc);
    for checkpoint in checkpoints {
        if is_lost(lost, checkpoint.root) {
            names.push(checkpoint.name.clone()?)?;
        }
    }
    Ok(names)
}

/// The serials of the versions.
pub(crate) fn list_serials(alloc: Global, versions: &[Version<u32>]) -> Result<Vec<u64>, AllocError>
    ensures { IfOk result (λ serials. serials.items ≡ map (λ version. version.serial) versions.now) }
{
    versions.iter().map(|version| version.serial).collect(alloc)
}

/// The names of the checkpoints.
pub(crate) fn list_names(
    alloc: Global,
    checkpoints: &[Checkpoint],
) -> Result<Vec<CpName>, AllocError>
    ensures { IfOk result (λ names. names.items ≡ map (λ checkpoint. checkpoint.name) checkpoints.now) }
{
    let mut names = Vec::new(alloc);
    for checkpoint in checkpoints {
        names.push(checkpoint.name.clone()?)?;
    }
    Ok(names)
}

/// Where the cursor goes, which is at one of the versions.
fn keep_cursor(versions: &[Version<u32>], lost: &[u32], cursor: usize) -> usize
    requires { cursor < length versions.now }
    ensures { result ≡ spec.kept_cursor lost.now versions.now cursor }
{
    let before = &versions[..cursor + 1];
    let count = before
        .iter()
        .filter(|version| !is_lost(lost, version.root))
        .count();
    count.saturating_sub(1)
}

/// Whether the oldest version is not kept.
fn is_oldest_lost(versions: &[Version<u32>], lost: &[u32]) -> bool
    ensures { result ≡ spec.is_oldest_lost lost.now versions.now }
{
    match versions {
        [] => false,
        [oldest, ..] => is_lost(lost, oldest.root),
    }
}

/// The record that is kept of a lawful one: its versions and checkpoints whose roots are not lost.
pub(crate) fn keep_record(alloc: Global, saved: &Record, lost: &[u32]) -> Result<Record, AllocError>
    requires { is_record saved.now ≡ true }
    ensures { IfOk result (λ kept. kept ≡ spec.kept_record lost.now saved.now) }
{
    let versions = saved.versions.as_slice();
    let cursor = keep_cursor(versions, lost, saved.cursor as usize);
    Ok(Record {
        sequence: 1,
        format: FORMAT,
        geometry: saved.geometry,
        limit: saved.limit,
        cursor: cursor as u16,
        dropped: saved.dropped || is_oldest_lost(versions, lost),
        versions: keep_versions(alloc, versions, lost)?,
        checkpoints: keep_checkpoints(alloc, saved.checkpoints.as_slice(), lost)?,
        bad: Sequence::new(alloc),
        next: saved.next,
        last: saved.last,
    })
}
