//! The line that tells what a history keeps.
use fs_types::{CpName, Fault, Reply, Sequence};
use script::{CheckpointLine, LineAnswer, SpaceLine, VersionLine};
use std::alloc::{AllocError, Global};
use undofs::{HistorySpace, Told, VersionSpace};

/// The answer to a line to which this is told, where `log` tells this of the history. [`Fault::Invalid`]
/// where it is no answer to `log`.
pub fn line_answer_of(alloc: Global, log: &Reply, told: Told) -> Result<LineAnswer, Fault> {
    match told {
        Told::Answer(answer) => Ok(LineAnswer::Told(answer)),
        Told::Forgot(count) => Ok(LineAnswer::Forgot(count)),
        Told::Space(space) => Ok(LineAnswer::Space(space_line(alloc, log, &space)?)),
    }
}

/// The line that tells what this history keeps.
fn space_line(alloc: Global, log: &Reply, space: &HistorySpace) -> Result<SpaceLine, Fault> {
    match log {
        Reply::Log {
            versions,
            cursor,
            checkpoints,
            ..
        } => {
            let serials = versions.as_slice();
            let names = checkpoints.as_slice();
            Ok(SpaceLine {
                versions: version_lines(alloc, serials, *cursor, space.versions.as_slice())?,
                checkpoints: checkpoint_lines(alloc, names, space.checkpoints.as_slice())?,
            })
        }
        _ => Err(Fault::Invalid),
    }
}

/// What is told of the versions with these serials, the present one at this place.
fn version_lines(
    alloc: Global,
    serials: &[u64],
    present: u64,
    space: &[VersionSpace],
) -> Result<Sequence<VersionLine>, AllocError> {
    let mut lines = Vec::new(alloc);
    for (serial, kept) in serials.iter().zip(space.iter()) {
        lines.push(VersionLine {
            serial: *serial,
            frees: kept.frees,
            alone: kept.alone,
            is_present: lines.len() as u64 == present,
        })?;
    }
    Ok(Sequence::from_vec(lines))
}

/// What is told of the checkpoints with these names.
fn checkpoint_lines(
    alloc: Global,
    names: &[CpName],
    space: &[u64],
) -> Result<Sequence<CheckpointLine>, AllocError> {
    let mut lines = Vec::new(alloc);
    for (name, alone) in names.iter().zip(space.iter()) {
        lines.push(CheckpointLine {
            name: name.clone()?,
            alone: *alone,
        })?;
    }
    Ok(Sequence::from_vec(lines))
}
