//! The versions and the checkpoints, with what their trees hold and what they keep of the flash.
ghost use Rattle.std.specs.Prelude.{◌≡◌, ◌++◌, ◌≤◌, ℕ, length, map, IfOk, OnOk, IfErr};
ghost use Rattle.std.specs.List.{flat_map, enumerate_from, zip};
ghost use Rattle.mounting.specs.Records.{roots_of};
ghost use Rattle.system.specs.Systems.{IsSystem};
ghost use Rattle.system.specs.VersionSpace.{IsHistorySpace};
ghost use Rattle.tree_counts.specs.Sizes.{size_of};
ghost use Rattle.working_state.specs.Mounted.{IsMounted};
ghost use Rattle.working_state.specs.Seen.{tree_on};
ghost use Rattle.inquiries.specs.Readings.{IsStillShown, Meets};
ghost use Rattle.inquiries.specs.Versions.{AreVersionLines, version_row, row_at, checkpoint_row, kept_rows};

use crate::printing::{print_alone, print_kept, print_size};
use flash_model::Flash;
use fs_types::{Bytes, CpName, Fault};
use machine_state::History;
use mounting::list_roots;
use script::{print_name, print_number};
use std::alloc::{AllocError, Global};
use stored_sizes::sizes_of_roots_on;
use system::System;
use tree_counts::TreeSize;
use undofs::{HistorySpace, VersionSpace};
use working_state::State;

/// A line for each kept version, the oldest first, and then for each checkpoint, in byte order of
/// their names. What stands in their trees is counted by one table for all of them, so that each node of a
/// directory is read once for that.
pub(crate) fn tell_versions<F: Flash>(
    alloc: Global,
    flash: &mut F,
    system: &mut System,
) -> Result<Bytes, Fault>
    requires { IsSystem (F.device flash.old) system.old }
    ensures pages { (p : ℕ) → (F.device flash.new).pages p ≡ (F.device flash.old).pages p }
    ensures ok { IfOk result (AreVersionLines (F.device flash.old) system.old.state) }
    ensures err { IfErr result (Meets (F.device flash.old) (F.device flash.new)) }
{
    let space = kept_space(alloc, flash, system)?;
    let sizes = kept_sizes(alloc, flash, &mut system.state)?;
    Ok(list_versions(alloc, &system.state.history, &sizes, &space)?)
}

/// What the trees that are kept keep of the flash.
fn kept_space<F: Flash>(
    alloc: Global,
    flash: &mut F,
    system: &mut System,
) -> Result<HistorySpace, Fault>
    requires { IsSystem (F.device flash.old) system.old }
    ensures system { IsSystem (F.device flash.new) system.new }
    ensures still { IsStillShown (F.device flash.old) system.old.state (F.device flash.new) system.new.state }
    ensures space { IfOk result (IsHistorySpace (F.device flash.old) system.old.state) }
    ensures err { IfErr result (Meets (F.device flash.old) (F.device flash.new)) }
{
    system.space_by_version(alloc, flash)
}

/// How much stands in the trees that are kept: of the versions, the oldest first, and then of the
/// checkpoints.
fn kept_sizes<F: Flash>(
    alloc: Global,
    flash: &mut F,
    state: &mut State,
) -> Result<Vec<TreeSize>, Fault>
    requires { IsMounted (F.device flash.old) state.old }
    ensures history { state.new.history ≡ state.old.history }
    ensures pages { (p : ℕ) → (F.device flash.new).pages p ≡ (F.device flash.old).pages p }
    ensures sizes { IfOk result (λ sizes. sizes.items ≡ map (λ root. size_of (tree_on (F.device flash.old) root)) (roots_of state.old.history)) }
    ensures err { IfErr result (Meets (F.device flash.old) (F.device flash.new)) }
{
    let roots = list_roots(alloc, &state.history)?;
    sizes_of_roots_on(alloc, flash, &mut state.storage, &roots)
}

/// The lines of what a history keeps, whose trees hold so much, and which keeps so much of the flash.
fn list_versions(
    alloc: Global,
    history: &History<u32>,
    sizes: &[TreeSize],
    space: &HistorySpace,
) -> Result<Bytes, AllocError>
    requires { length history.now.versions ≤ length sizes.now }
    ensures { IfOk result (λ bytes. bytes ≡ kept_rows history.now sizes.now space.now) }
{
    let mut out = Vec::new(alloc);
    let serials = history.serials(alloc)?;
    let names = history.checkpoint_names(alloc)?;
    let cursor = history.cursor();
    let versions = space.versions.as_slice();
    add_versions(serials.as_slice(), sizes, versions, cursor, &mut out)?;
    let others = &sizes[history.versions().len()..];
    let checkpoints = space.checkpoints.as_slice();
    add_checkpoints(names.as_slice(), others, checkpoints, &mut out)?;
    Ok(Bytes::from_vec(out))
}

/// Adds the lines of versions, whose trees hold and which keep so much, and of which the one at a place is
/// the present one.
fn add_versions(
    serials: &[u64],
    sizes: &[TreeSize],
    space: &[VersionSpace],
    cursor: usize,
    out: &mut Vec<u8>,
) -> Result<(), AllocError>
    ensures { OnOk result (out.new.items ≡ out.old.items ++ flat_map (row_at cursor) (enumerate_from 0 (zip serials.now (zip sizes.now space.now)))) }
{
    for (place, serial) in serials.iter().enumerate() {
        let Some(size) = sizes.get(place) else {
            return Ok(());
        };
        let Some(kept) = space.get(place) else {
            return Ok(());
        };
        add_version(*serial, *size, *kept, place == cursor, out)?;
    }
    Ok(())
}

/// Adds the line of a version, whose tree holds and which keeps so much.
fn add_version(
    serial: u64,
    size: TreeSize,
    kept: VersionSpace,
    is_present: bool,
    out: &mut Vec<u8>,
) -> Result<(), AllocError>
    ensures { OnOk result (out.new.items ≡ out.old.items ++ version_row serial size kept is_present) }
{
    out.push(b'@')?;
    print_number(out, serial)?;
    print_size(out, size)?;
    print_kept(out, kept)?;
    if is_present {
        out.extend_from_slice(b" present")?;
    }
    out.push(b'\n')?;
    Ok(())
}

/// Adds the lines of checkpoints, whose trees hold so much, and each of which keeps so many blocks alone.
fn add_checkpoints(
    names: &[CpName],
    sizes: &[TreeSize],
    space: &[u64],
    out: &mut Vec<u8>,
) -> Result<(), AllocError>
    ensures { OnOk result (out.new.items ≡ out.old.items ++ flat_map checkpoint_row (zip names.now (zip sizes.now space.now))) }
{
    for (place, name) in names.iter().enumerate() {
        let Some(size) = sizes.get(place) else {
            return Ok(());
        };
        let Some(alone) = space.get(place) else {
            return Ok(());
        };
        add_checkpoint(name, *size, *alone, out)?;
    }
    Ok(())
}

/// Adds the line of a checkpoint, whose tree holds so much, and which keeps so many blocks alone.
fn add_checkpoint(
    name: &CpName,
    size: TreeSize,
    alone: u64,
    out: &mut Vec<u8>,
) -> Result<(), AllocError>
    ensures { OnOk result (out.new.items ≡ out.old.items ++ checkpoint_row (name.now, (size, alone))) }
{
    out.push(b'=')?;
    print_name(out, name.as_bytes())?;
    print_size(out, size)?;
    print_alone(out, alone)?;
    out.push(b'\n')?;
    Ok(())
}
