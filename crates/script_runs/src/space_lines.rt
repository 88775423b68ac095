//! What is told of the space that a history keeps.
ghost use Rattle.std.specs.Prelude.{◌≡◌, IfOk, map};
ghost use Rattle.std.specs.List.{enumerate_from, zip};
ghost use Rattle.undofs.specs.declared.asks.Told.{Told};
ghost use Rattle.script_runs.specs.Scripts.{Tells, checkpoint_line, space_line, version_line};

use fs_types::{Answer, CpName, Fault, Sequence};
use script::{CheckpointLine, LineAnswer, SpaceLine, VersionLine};
use std::alloc::{AllocError, Global};
use undofs::{HistorySpace, System, VersionSpace};

/// The answer to a line that asks what the history keeps of a system, which is mounted.
pub(crate) fn answer_space(
    alloc: Global,
    system: &Option<System>,
    space: &HistorySpace,
) -> LineAnswer
    ensures { Tells system.now (Told.Space space.now) result }
{
    let Some(system) = system else {
        return LineAnswer::Told(Answer::Unmounted);
    };
    match space_line(alloc, system, space) {
        Ok(line) => LineAnswer::Space(line),
        Err(_) => LineAnswer::Told(Answer::Refused(Fault::NoMemory)),
    }
}

/// What is told of the versions and checkpoints of a system, which keep so much.
fn space_line(alloc: Global, system: &System, space: &HistorySpace) -> Result<SpaceLine, AllocError>
    ensures { IfOk result (λ line. line ≡ space_line system.now.state.history space.now) }
{
    Ok(SpaceLine {
        versions: version_lines(alloc, system, space.versions.as_slice())?,
        checkpoints: checkpoint_lines(alloc, system, space.checkpoints.as_slice())?,
    })
}

/// What is told of the versions.
fn version_lines(
    alloc: Global,
    system: &System,
    space: &[VersionSpace],
) -> Result<Sequence<VersionLine>, AllocError>
    ensures { IfOk result (λ lines. lines ≡ map (version_line system.now.state.history.cursor) (enumerate_from 0 (zip system.now.state.history.versions space.now))) }
{
    let history = &system.state.history;
    let mut lines = Vec::new(alloc);
    for (place, version) in history.versions().iter().enumerate() {
        let Some(kept) = space.get(place) else {
            return Ok(Sequence::from_vec(lines));
        };
        lines.push(VersionLine {
            serial: version.serial,
            frees: kept.frees,
            alone: kept.alone,
            is_present: place == history.cursor(),
        })?;
    }
    Ok(Sequence::from_vec(lines))
}

/// What is told of the checkpoints.
fn checkpoint_lines(
    alloc: Global,
    system: &System,
    space: &[u64],
) -> Result<Sequence<CheckpointLine>, AllocError>
    ensures { IfOk result (λ lines. lines ≡ map checkpoint_line (zip system.now.state.history.checkpoints space.now)) }
{
    let mut lines = Vec::new(alloc);
    let checkpoints = system.state.history.checkpoints();
    for (name, _root) in checkpoints {
        let Some(alone) = space.get(lines.len()) else {
            return Ok(Sequence::from_vec(lines));
        };
        lines.push(CheckpointLine {
            name: name.clone()?,
            alone: *alone,
        })?;
    }
    Ok(Sequence::from_vec(lines))
}
