//! The roots of what a history keeps beside a view.
ghost use Rattle.std.specs.Prelude.{◌≡◌, ◌++◌, IfOk, OnOk};
ghost use Rattle.block_usage.specs.OtherRoots.{other_checkpoints, other_roots, other_versions, shows_checkpoint, shows_version};

use fs_types::{CpName, View};
use machine_state::History;
use std::alloc::{AllocError, Global};

/// The roots of the versions, the oldest first, and then of the checkpoints, but for the one that a view
/// shows.
pub(crate) fn other_roots(
    alloc: Global,
    history: &History<u32>,
    view: &View,
) -> Result<Vec<u32>, AllocError>
    ensures { IfOk result (λ roots. roots.items ≡ other_roots history.now view.now) }
{
    let mut roots = Vec::new(alloc);
    add_versions(&mut roots, history, view)?;
    add_checkpoints(&mut roots, history, view)?;
    Ok(roots)
}

/// Adds those of the versions.
fn add_versions(roots: &mut Vec<u32>, history: &History<u32>, view: &View) -> Result<(), AllocError>
    ensures { OnOk result (roots.new.items ≡ roots.old.items ++ other_versions history.now view.now) }
{
    let cursor = history.cursor();
    for (place, version) in history.versions().iter().enumerate() {
        if !shows_version(view, version.serial, place == cursor) {
            roots.push(version.root)?;
        }
    }
    Ok(())
}

/// Adds those of the checkpoints.
fn add_checkpoints(
    roots: &mut Vec<u32>,
    history: &History<u32>,
    view: &View,
) -> Result<(), AllocError>
    ensures { OnOk result (roots.new.items ≡ roots.old.items ++ other_checkpoints history.now view.now) }
{
    for (name, root) in history.checkpoints() {
        if !shows_checkpoint(view, name) {
            roots.push(*root)?;
        }
    }
    Ok(())
}

/// Whether a view shows the version of a serial, which is the present one or not.
fn shows_version(view: &View, serial: u64, is_present: bool) -> bool
    ensures { result ≡ shows_version view.now serial is_present }
{
    match view {
        View::Present => is_present,
        View::Serial(shown) => *shown == serial,
        View::Checkpoint(_) => false,
    }
}

/// Whether a view shows the checkpoint of a name.
fn shows_checkpoint(view: &View, name: &CpName) -> bool
    ensures { result ≡ shows_checkpoint view.now name.now }
{
    match view {
        View::Checkpoint(shown) => shown == name,
        _ => false,
    }
}
