//! The oracle of a session.
use crate::beginnings::Beginning;
use crate::causes::Causes;
use crate::replays::{Step, replay, replay_all, try_call};
use crate::shows::{Shown, log_text, show};
use crate::texts::{answer_of, text_of};
use fs_types::{Answer, Call, Event, Fault, Reply};
use plain_machine::{PlainMachine, Space};
use space_oracle::{Room, may_forget, may_refuse_to_forget, may_tell};
use std::alloc::Global;
use undofs::{Ask, Told};

/// The bytes of a file that a node of its body holds: those of a block, 4,096 on each flash here, less
/// 80.
const CAPACITY: u64 = 4_016;

/// Whether a system is mounted, and has power.
#[derive(Clone, Copy)]
enum Seat {
    Unmounted,
    Mounted,
    Off,
}

/// The plain machine beside a system, and the histories that a restart may find.
///
/// These are those after each of the steps from the last accepted sync on, or from the last mount on
/// where none came since. None of them holds a change group: a restart ends the one that is open.
#[derive(Drop)]
pub struct Oracle<'a> {
    beginning: Beginning,
    machine: PlainMachine,
    steps: Vec<Step<'a>>,
    /// How many of the steps every restart keeps.
    saved: usize,
    seat: Seat,
    /// What is known of the blocks of the flash.
    room: Room,
}

impl<'a> Oracle<'a> {
    /// The oracle of a session on a new file system that keeps so many versions. No system is mounted.
    /// [`Fault::Invalid`] for a number of versions that no file system has.
    pub fn new(alloc: Global, history: usize) -> Result<Oracle<'a>, Fault> {
        Oracle::with(alloc, Beginning::fresh(alloc, history)?, Seat::Unmounted)
    }

    /// The oracle of a session on a system that is mounted, and shows this.
    pub fn mounted(alloc: Global, beginning: Beginning) -> Result<Oracle<'a>, Fault> {
        Oracle::with(alloc, beginning, Seat::Mounted)
    }

    fn with(alloc: Global, beginning: Beginning, seat: Seat) -> Result<Oracle<'a>, Fault> {
        Ok(Oracle {
            machine: beginning.machine(alloc)?,
            beginning,
            steps: Vec::new(alloc),
            saved: 0,
            seat,
            room: Room::unknown(),
        })
    }

    /// The most nodes that are written where this is asked next.
    pub fn need(&self, alloc: Global, ask: &Ask) -> Result<u64, Fault> {
        match ask {
            Ask::Event(Event::Call(call)) => Ok(self.machine.need(alloc, CAPACITY, call)?),
            _ => Ok(0),
        }
    }

    /// Whether this may be the answer to the first mount.
    pub fn judge_mount(&mut self, answer: &Answer, causes: Causes) -> bool {
        match answer {
            Answer::Mounted => {
                self.seat = Seat::Mounted;
                true
            }
            Answer::Refused(fault) => causes.may_refuse_mount(*fault),
            _ => false,
        }
    }

    /// Whether this may be told to what is asked, which is no restart, where there may be such causes.
    pub fn judge(
        &mut self,
        alloc: Global,
        ask: &'a Ask,
        told: Told,
        causes: Causes,
    ) -> Result<bool, Fault> {
        match self.seat {
            Seat::Unmounted => Ok(matches!(told, Told::Answer(Answer::Unmounted))),
            Seat::Off => Ok(is_refused(&told, Fault::PowerCut)),
            Seat::Mounted => self.judge_mounted(alloc, ask, told, causes),
        }
    }

    fn judge_mounted(
        &mut self,
        alloc: Global,
        ask: &'a Ask,
        told: Told,
        causes: Causes,
    ) -> Result<bool, Fault> {
        match told {
            Told::Answer(answer) => self.judge_answer(alloc, ask, answer, causes),
            Told::Space(space) => match ask {
                Ask::Space => may_tell(alloc, &mut self.machine, &mut self.room, &space),
                _ => Ok(false),
            },
            Told::Forgot(count) => match ask {
                Ask::ForgetFree(blocks) => self.judge_forgotten(alloc, *blocks, count),
                _ => Ok(false),
            },
        }
    }

    /// Whether this may be answered: to an event, or as a refusal of something else.
    fn judge_answer(
        &mut self,
        alloc: Global,
        ask: &'a Ask,
        answer: Answer,
        causes: Causes,
    ) -> Result<bool, Fault> {
        match ask {
            Ask::Event(event) => {
                let may_be = self.room.take(event, &answer);
                Ok(may_be && self.judge_event(alloc, event, answer, causes)?)
            }
            Ask::Space => match answer {
                Answer::Refused(fault) => Ok(self.judge_unread(fault, causes)),
                _ => Ok(false),
            },
            Ask::ForgetFree(blocks) => match answer {
                Answer::Refused(fault) => self.judge_kept(alloc, *blocks, fault, causes),
                _ => Ok(false),
            },
        }
    }

    /// Whether so many versions may be forgotten for so many blocks to be free. That is a step, where any
    /// are.
    fn judge_forgotten(&mut self, alloc: Global, blocks: u64, count: u64) -> Result<bool, Fault> {
        let may_be = may_forget(alloc, &mut self.machine, &mut self.room, blocks, count);
        if count != 0 {
            self.steps.push(Step::Forgot(count))?;
        }
        Ok(may_be)
    }

    /// Whether it may be refused so to forget versions for so many blocks to be free. Nothing changes, but
    /// for the power.
    fn judge_kept(
        &mut self,
        alloc: Global,
        blocks: u64,
        fault: Fault,
        causes: Causes,
    ) -> Result<bool, Fault> {
        if self.judge_unread(fault, causes) {
            return Ok(true);
        }
        may_refuse_to_forget(
            alloc,
            &mut self.machine,
            &self.room,
            blocks,
            fault,
            causes.read_only,
        )
    }

    /// Whether it may be refused so to read what the history reaches.
    fn judge_unread(&mut self, fault: Fault, causes: Causes) -> bool {
        match fault {
            Fault::PowerCut if causes.cut => {
                self.seat = Seat::Off;
                true
            }
            Fault::ReadFailed => causes.read_failure,
            _ => false,
        }
    }

    fn judge_event(
        &mut self,
        alloc: Global,
        event: &'a Event,
        answer: Answer,
        causes: Causes,
    ) -> Result<bool, Fault> {
        if let Answer::Refused(fault) = &answer {
            if causes.may_refuse(*fault) {
                return self.judge_refusal(alloc, event, *fault);
            }
        }
        match event {
            Event::Call(call) => self.compare(alloc, call, answer),
            Event::ReclaimStep(_) | Event::CleanStep(_) | Event::PrepareStep(_) => {
                Ok(matches!(answer, Answer::Done(Reply::Step(_))))
            }
            Event::Restart => Ok(false),
        }
    }

    /// Whether the plain machine answers this too. An accepted call is a step.
    fn compare(&mut self, alloc: Global, call: &'a Call, answer: Answer) -> Result<bool, Fault> {
        let outcome = self.machine.step(alloc, space_of(&answer), call);
        let is_accepted = outcome.is_ok();
        let plain = text_of(alloc, answer_of(outcome))?;
        let told = text_of(alloc, answer)?;
        if is_accepted {
            self.steps.push(Step::Call(call))?;
            if is_sync(call) {
                self.saved = self.steps.len();
            }
        }
        Ok(plain.as_slice() == told.as_slice())
    }

    /// Whether an event may be refused so for a cause that there is. Nothing changes, but for the power.
    /// A full flash, read-only mode and the greatest sequence refuse only what the plain machine accepts,
    /// or finds no serial for, and a full flash only what changes a tree or the history.
    fn judge_refusal(
        &mut self,
        alloc: Global,
        event: &'a Event,
        fault: Fault,
    ) -> Result<bool, Fault> {
        match (fault, event) {
            (Fault::PowerCut, _) => {
                self.seat = Seat::Off;
                Ok(true)
            }
            (Fault::ReadFailed, _) => Ok(true),
            (_, Event::CleanStep(_) | Event::PrepareStep(_)) => Ok(fault == Fault::ReadOnly),
            (_, Event::Call(call)) => {
                let (refusal, is_change) = try_call(alloc, &mut self.machine, call)?;
                self.machine = replay_all(alloc, &self.beginning, &self.steps)?;
                Ok(match refusal {
                    Some(Fault::Overflow) => fault != Fault::FlashFull,
                    Some(own) => fault == own,
                    None => is_change || may_refuse_others(fault, call),
                })
            }
            _ => Ok(false),
        }
    }

    /// Whether a mounted system may show this, between two events.
    pub fn judge_shown(&mut self, alloc: Global, shown: &Shown) -> Result<bool, Fault> {
        Ok(show(alloc, &mut self.machine)?.is_same(shown))
    }

    /// Whether a restart may find a system that shows this. It is mounted then, and what it shows is
    /// the one history that a restart may find; calls work on its present tree.
    pub fn restart(&mut self, alloc: Global, shown: &Shown) -> Result<bool, Fault> {
        match self.find(alloc, shown)? {
            Some(count) => {
                self.mount_after(alloc, count)?;
                self.judge_shown(alloc, shown)
            }
            None => Ok(false),
        }
    }

    /// After how many of the steps, those that every restart keeps among them, this is shown.
    fn find(&self, alloc: Global, shown: &Shown) -> Result<Option<usize>, Fault> {
        let mut machine = self.beginning.machine(alloc)?;
        if self.saved == 0 && shows(alloc, &mut machine, shown)? {
            return Ok(Some(0));
        }
        let mut count = 0usize;
        for step in &self.steps {
            replay(alloc, &mut machine, *step)?;
            count = count.saturating_add(1);
            if self.saved <= count && shows(alloc, &mut machine, shown)? {
                return Ok(Some(count));
            }
        }
        Ok(None)
    }

    /// Keeps the first steps, and restarts.
    fn mount_after(&mut self, alloc: Global, count: usize) -> Result<(), Fault> {
        self.steps.truncate(count);
        self.steps.push(Step::Restart)?;
        self.saved = self.steps.len();
        self.machine = replay_all(alloc, &self.beginning, &self.steps)?;
        self.seat = Seat::Mounted;
        self.room = Room::unknown();
        Ok(())
    }
}

/// Whether it is told that what was asked is refused so.
fn is_refused(told: &Told, wanted: Fault) -> bool {
    match told {
        Told::Answer(Answer::Refused(fault)) => *fault == wanted,
        _ => false,
    }
}

/// Whether a machine shows this, but for an open group.
fn shows(alloc: Global, machine: &mut PlainMachine, shown: &Shown) -> Result<bool, Fault> {
    if log_text(alloc, machine)?.as_slice() != shown.log.as_slice() {
        return Ok(false);
    }
    Ok(show(alloc, machine)?.has_same_history(shown))
}

/// Whether a call that makes no version may be refused so: all that is kept by a record in read-only
/// mode, and a commit after the greatest sequence.
fn may_refuse_others(fault: Fault, call: &Call) -> bool {
    match fault {
        Fault::ReadOnly => is_sync(call) || keeps(call),
        Fault::Overflow => is_sync(call),
        _ => false,
    }
}

/// Whether a call makes no version, but changes what is kept.
fn keeps(call: &Call) -> bool {
    matches!(
        call,
        Call::Forget { .. } | Call::Checkpoint { .. } | Call::RemoveCheckpoint { .. }
    )
}

fn is_sync(call: &Call) -> bool {
    matches!(call, Call::Sync | Call::Fsync { .. })
}

/// The space that an answer tells, which the plain machine takes from it.
fn space_of(answer: &Answer) -> Space {
    match answer {
        Answer::Done(
            Reply::Df {
                blocks,
                bad,
                free,
                anchors,
            },
        ) => Space {
            blocks: *blocks,
            bad: *bad,
            free: *free,
            anchors: *anchors,
        },
        _ => Space {
            blocks: 0,
            bad: 0,
            free: 0,
            anchors: 0,
        },
    }
}
