//! The parts of a record, as a working state keeps them.
ghost use Rattle.std.specs.Prelude.{◌≡◌, [], true, ◌+◌, ◌≤◌, ◌++◌, length, map, IfOk, OnOk};
ghost use Rattle.std.specs.FinSet as set;
ghost use Rattle.std.specs.BTreeMap.{IsOrdered};
ghost use Rattle.std.specs.List.Sorted.{IsStrictlySortedBy};
ghost use Rattle.fs_types.specs.Names.{name_cmp};
ghost use Rattle.fs_types.specs.declared.limits.TheConstants.{MAX_BAD_BLOCKS};
ghost use Rattle.history_machine.specs.History.{IsLawful};
ghost use Rattle.record_format.specs.Payloads.{is_record, names_ascend};
ghost use Rattle.mounting.specs.Records.{history_of, roots_of, working_roots};

use bad_blocks::BadBlocks;
use fs_types::{CpName, Version};
use machine_state::History;
use record_format::{Checkpoint, Record};
use std::alloc::{AllocError, Global};
use std::collections::BTreeMap;
use working_state::State;

/// The checkpoints by their names.
fn checkpoints_of(alloc: Global, saved: &[Checkpoint]) -> Result<BTreeMap<CpName, u32>, AllocError>
    requires { names_ascend [] saved.now ≡ true }
    ensures entries { IfOk result (λ checkpoints. checkpoints.entries ≡ map (λ c. (c.name, c.root)) saved.now) }
    ensures ordered { IfOk result (λ checkpoints. IsOrdered name_cmp checkpoints) }
{
    let mut checkpoints = BTreeMap::new(alloc);
    for checkpoint in saved {
        checkpoints.insert(checkpoint.name.clone()?, checkpoint.root)?;
    }
    let _ = checkpoints.len();
    Ok(checkpoints)
}

fn copy_versions(alloc: Global, saved: &[Version<u32>]) -> Result<Vec<Version<u32>>, AllocError>
    ensures { IfOk result (λ versions. versions.items ≡ saved.now) }
{
    saved.iter().copied().collect(alloc)
}

/// The history that a record holds.
pub(crate) fn restore_history(alloc: Global, saved: &Record) -> Result<History<u32>, AllocError>
    requires { is_record saved.now ≡ true }
    ensures history { IfOk result (λ history. history ≡ history_of saved.now) }
    ensures lawful { IfOk result (λ history. IsLawful history) }
    ensures named { IfOk result (λ history. IsStrictlySortedBy name_cmp (map (λ e. e.0) history.checkpoints)) }
{
    let checkpoints = checkpoints_of(alloc, saved.checkpoints.as_slice())?;
    let versions = copy_versions(alloc, saved.versions.as_slice())?;
    History::restore(
        alloc,
        versions,
        saved.cursor as usize,
        saved.dropped,
        saved.next,
        checkpoints,
        saved.limit as usize,
    )
}

/// The roots of all versions and checkpoints.
pub fn list_roots(alloc: Global, history: &History<u32>) -> Result<Vec<u32>, AllocError>
    ensures { IfOk result (λ roots. roots.items ≡ roots_of history.now) }
{
    let mut roots = version_roots(alloc, history.versions())?;
    push_roots(&mut roots, history.checkpoints())?;
    Ok(roots)
}

/// The roots of a state: of its versions and checkpoints, and of its group.
pub fn list_working(alloc: Global, state: &State) -> Result<Vec<u32>, AllocError>
    ensures { IfOk result (λ roots. roots.items ≡ working_roots state.now) }
{
    let mut roots = list_roots(alloc, &state.history)?;
    if let Some(group) = &state.group {
        roots.push(group.root)?;
    }
    Ok(roots)
}

fn version_roots(alloc: Global, versions: &[Version<u32>]) -> Result<Vec<u32>, AllocError>
    ensures { IfOk result (λ roots. roots.items ≡ map (λ v. v.root) versions.now) }
{
    versions.iter().map(|version| version.root).collect(alloc)
}

fn push_roots(roots: &mut Vec<u32>, checkpoints: &BTreeMap<CpName, u32>) -> Result<(), AllocError>
    ensures { OnOk result (roots.new.items ≡ roots.old.items ++ map (λ e. e.1) checkpoints.now.entries) }
{
    for (_name, root) in checkpoints {
        roots.push(*root)?;
    }
    Ok(())
}

/// The set of the bad blocks.
pub(crate) fn list_bad(saved: &[u32]) -> BadBlocks
    requires { length saved.now ≤ MAX_BAD_BLOCKS }
    ensures { result ≡ set.from_list saved.now }
{
    let mut bad = BadBlocks::new();
    for block in saved {
        bad.add(*block).unwrap();
    }
    bad
}
