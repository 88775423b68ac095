//! What keeps blocks.
use fs_types::{Call, Fault, Reply};
use plain_machine::{PlainMachine, Space};
use std::alloc::Global;

/// The plain machine knows nothing of a flash, and is not asked for it.
const NO_SPACE: Space = Space {
    blocks: 0,
    bad: 0,
    free: 0,
    anchors: 0,
};

/// What keeps blocks: so many versions, the present one at this place, so many checkpoints, and a change
/// group, if one is open.
#[derive(Clone, Copy)]
pub struct Roots {
    pub versions: usize,
    pub present: u64,
    pub checkpoints: usize,
    pub is_in_group: bool,
}

impl Roots {
    /// What keeps blocks of the history of a machine.
    pub fn of(alloc: Global, machine: &mut PlainMachine) -> Result<Roots, Fault> {
        match machine.step(alloc, NO_SPACE, &Call::Log)? {
            Reply::Log {
                versions,
                cursor,
                checkpoints,
                ..
            } => Ok(Roots {
                versions: versions.as_slice().len(),
                present: cursor,
                checkpoints: checkpoints.as_slice().len(),
                is_in_group: !forgets(alloc, machine, 0),
            }),
            _ => Err(Fault::Invalid),
        }
    }

    /// Whether one keeps all that is kept.
    pub fn is_only_one(self) -> bool {
        self.versions == 1 && self.checkpoints == 0 && !self.is_in_group
    }
}

/// Has a machine forget so many versions. Whether it does: in a change group it forgets none.
pub fn forgets(alloc: Global, machine: &mut PlainMachine, count: u64) -> bool {
    machine
        .step(alloc, NO_SPACE, &Call::Forget { count })
        .is_ok()
}
