//! A history as a commit record.
ghost use Rattle.std.specs.Prelude.{◌≡◌, true, map, IfOk, OnOk};
ghost use Rattle.std.specs.List.{list_all};
ghost use Rattle.std.specs.BTreeMap.{IsOrdered};
ghost use Rattle.fs_types.specs.Names.{name_cmp, is_checkpoint_name};
ghost use Rattle.block_ring.specs.Ring.{IsDataBlock};
ghost use Rattle.record_format.specs.Payloads.{is_record};
ghost use Rattle.mounting.specs.Contents as spec;

use flash_model::Geometry;
use fs_types::{CpName, Sequence};
use machine_state::History;
use record_format::{Checkpoint, FORMAT, Record};
use std::alloc::{AllocError, Global};
use std::collections::BTreeMap;

/// The commit record of a history, of the format that is written, on a flash of these sizes, of which this data block was taken
/// last. Its sequence is 0 and its bad list empty: a commit gives both.
pub fn record_of(
    alloc: Global,
    geometry: Geometry,
    history: &History<u32>,
    last: u32,
) -> Result<Record, AllocError>
    requires { IsDataBlock geometry.blocks last }
    ensures says { IfOk result (λ saved. saved ≡ spec.record_of geometry history.now last) }
    ensures lawful { OnOk result (is_record (spec.record_of geometry history.now last) ≡ true) }
{
    let versions = Sequence::from_slice(alloc, history.versions())?;
    let checkpoints = list_checkpoints(alloc, history.checkpoints())?;
    Ok(Record {
        sequence: 0,
        format: FORMAT,
        geometry,
        limit: history.limit() as u16,
        cursor: history.cursor() as u16,
        dropped: history.has_dropped(),
        versions,
        checkpoints,
        bad: Sequence::new(alloc),
        next: history.next_serial(),
        last,
    })
}

fn list_checkpoints(
    alloc: Global,
    checkpoints: &BTreeMap<CpName, u32>,
) -> Result<Sequence<Checkpoint>, AllocError>
    ensures made { IfOk result (λ made. made ≡ map spec.checkpoint_of checkpoints.now.entries) }
    ensures ordered { IsOrdered name_cmp checkpoints.now }
    ensures names { OnOk result (list_all (λ e. is_checkpoint_name e.0) checkpoints.now.entries ≡ true) }
{
    let mut made = Vec::with_capacity(alloc, checkpoints.len())?;
    for (name, root) in checkpoints {
        // Its bytes are lawful, as their contract tells.
        let _bytes = name.as_bytes();
        made.push(Checkpoint {
            name: name.clone()?,
            root: *root,
        })?;
    }
    Ok(Sequence::from_vec(made))
}
