//! The plain machine after the calls that it accepted.
use crate::beginnings::Beginning;
use crate::shows::{log_text, working_text};
use fs_types::{Call, Fault, MAX_OPEN_FILES};
use plain_machine::{PlainMachine, Space};
use std::alloc::Global;

/// What was carried out.
#[derive(Clone, Copy)]
pub enum Step<'a> {
    /// A call that was accepted.
    Call(&'a Call),
    /// So many versions were forgotten for their blocks.
    Forgot(u64),
    /// A restart, after which no file and no change group is open.
    Restart,
}

const NO_SPACE: Space = Space {
    blocks: 0,
    bad: 0,
    free: 0,
    anchors: 0,
};

/// Carries out a step on a machine.
pub fn replay(alloc: Global, machine: &mut PlainMachine, step: Step<'_>) -> Result<(), Fault> {
    match step {
        Step::Call(call) => carry_out(alloc, machine, call),
        Step::Forgot(count) => carry_out(alloc, machine, &Call::Forget { count }),
        Step::Restart => {
            close_all(alloc, machine)?;
            abandon(alloc, machine)
        }
    }
}

/// Carries out a call, which is accepted.
fn carry_out(alloc: Global, machine: &mut PlainMachine, call: &Call) -> Result<(), Fault> {
    match machine.step(alloc, NO_SPACE, call) {
        Ok(_) => Ok(()),
        Err(fault) => Err(fault),
    }
}

/// Closes each open file.
fn close_all(alloc: Global, machine: &mut PlainMachine) -> Result<(), Fault> {
    for descriptor in 0..MAX_OPEN_FILES as u64 {
        match machine.step(alloc, NO_SPACE, &Call::Close { descriptor }) {
            Ok(_) | Err(Fault::BadDescriptor) => {}
            Err(fault) => return Err(fault),
        }
    }
    Ok(())
}

/// Gives up the change group, if one is open.
fn abandon(alloc: Global, machine: &mut PlainMachine) -> Result<(), Fault> {
    match machine.step(alloc, NO_SPACE, &Call::Abandon) {
        Ok(_) | Err(Fault::NoGroup) => Ok(()),
        Err(fault) => Err(fault),
    }
}

/// The machine after these steps.
pub fn replay_all(
    alloc: Global,
    beginning: &Beginning,
    steps: &[Step<'_>],
) -> Result<PlainMachine, Fault> {
    let mut machine = beginning.machine(alloc)?;
    for step in steps {
        replay(alloc, &mut machine, *step)?;
    }
    Ok(machine)
}

/// What a machine, which is not used any more, refuses a call for, if it does; and whether its history,
/// or the tree that calls work on, is another after the call.
pub fn try_call(
    alloc: Global,
    machine: &mut PlainMachine,
    call: &Call,
) -> Result<(Option<Fault>, bool), Fault> {
    let history = log_text(alloc, machine)?;
    let tree = working_text(alloc, machine)?;
    let refusal = machine.step(alloc, NO_SPACE, call).err();
    let is_change = log_text(alloc, machine)?.as_slice() != history.as_slice()
        || working_text(alloc, machine)?.as_slice() != tree.as_slice();
    Ok((refusal, is_change))
}
