//! The load: a system on a flash, and the plain machine beside it.
use crate::mounted::{HISTORY, Mounted, SIZES, Taken};
use anyhow::{Result, bail, ensure};
use flash_model::FaultKind;
use fs_types::{ANCHORS, Answer, Call, Event, Fault, Reply};
use plain_machine::{PlainMachine, Space};
use script::{LineAnswer, print_answer};
use session_oracle::ask_of;
use space_oracle::{Room, may_forget, may_refuse_to_forget, may_tell};
use std::alloc::Global;
use undofs::Ask;

/// The faults, each planned after the line of its number, for the next operation of its class. Those
/// after a fiftieth line meet an anchor, since a sync follows; the others a data block, since many are
/// at hand soon after a thousandth line.
const FAULTS: [(u64, FaultKind); 12] = [
    (1_111, FaultKind::EraseFail),
    (2_000, FaultKind::ProgramFail),
    (3_111, FaultKind::ProgramFail),
    (5_111, FaultKind::EraseFail),
    (6_111, FaultKind::ProgramFail),
    (7_500, FaultKind::ProgramFail),
    (9_111, FaultKind::EraseFail),
    (11_111, FaultKind::ProgramFail),
    (12_650, FaultKind::ProgramFail),
    (14_111, FaultKind::EraseFail),
    (16_111, FaultKind::ProgramFail),
    (18_000, FaultKind::ProgramFail),
];

/// The bytes of a file that a node of its body holds: a block's less 80.
const CAPACITY: u64 = 4016;

/// How many blocks a step of reclaiming reads at most.
const STEP: u64 = 4;

/// How many steps read each data block once.
const LONGEST: u64 = 14;

/// The plain machine knows nothing of the flash, and is not asked for it.
const NO_SPACE: Space = Space {
    blocks: 0,
    bad: 0,
    free: 0,
    anchors: 0,
};

/// What is counted of the calls.
#[derive(Clone, Copy, Default)]
pub struct Counts {
    /// Calls that were accepted, those that were refused on both sides, and those that found the
    /// flash full.
    pub accepted: u64,
    pub refused: u64,
    pub full: u64,
    /// Nodes written, and those needed, where as many blocks were at hand; and how often fewer were.
    pub written: u64,
    pub needed: u64,
    pub tight: u64,
    /// Steps of cleaning, and blocks erased in them.
    pub steps: u64,
    pub cleaned: u64,
    /// Lines that ask what the history keeps, lines that forget versions for their blocks, those that were
    /// refused, and versions forgotten so.
    pub told: u64,
    pub forgetting: u64,
    pub kept: u64,
    pub forgotten: u64,
    /// Blocks erased since the flash was made.
    pub erased: u64,
    /// The fewest blocks that were free after a sync or where the flash was full, and the most.
    pub least_free: u64,
    pub most_free: u64,
}

impl Counts {
    fn add_answer(&mut self, is_accepted: bool) {
        if is_accepted {
            add(&mut self.accepted, 1);
        } else {
            add(&mut self.refused, 1);
        }
    }
}

/// A system on a flash, and the plain machine beside it.
#[derive(Drop)]
pub struct Load {
    mounted: Mounted,
    plain: PlainMachine,
    counts: Counts,
    /// Steps of reclaiming since a marking ended, or began anew on a full flash.
    marking: u64,
    /// Whether no round of cleaning goes on.
    is_round_over: bool,
}

impl Load {
    /// A new file system on both sides.
    pub fn new(alloc: Global) -> Result<Load> {
        Ok(Load {
            mounted: Mounted::new(alloc)?,
            plain: PlainMachine::new(alloc, HISTORY)?,
            counts: Counts {
                least_free: u64::MAX,
                ..Counts::default()
            },
            marking: 0,
            is_round_over: true,
        })
    }

    /// What was counted so far.
    pub fn counts(&self) -> Counts {
        Counts {
            erased: self.mounted.erased(),
            ..self.counts
        }
    }

    /// What is printed for `df`.
    pub fn space(&mut self, alloc: Global) -> Result<String> {
        text_of(alloc, self.mounted.call(alloc, &Call::Df))
    }

    /// Carries out the line of a number, and what comes beside it.
    pub fn turn(&mut self, alloc: Global, number: u64, line: &str) -> Result<()> {
        self.carry_out(alloc, line)?;
        self.reclaim(alloc)?;
        self.plan_faults(number)?;
        if number % 50 == 0 {
            self.sync(alloc)?;
        }
        Ok(())
    }

    /// Takes a step of reclaiming. It reads the pages of so many blocks at most, and a marking ends in as many
    /// steps as read each data block once.
    fn reclaim(&mut self, alloc: Global) -> Result<()> {
        let (has_ended, taken) = self.mounted.reclaim(alloc, STEP)?;
        let read = taken.read;
        ensure!(
            read <= STEP * u64::from(SIZES.pages),
            "{read} pages read in a step of reclaiming"
        );
        ensure!(
            taken.erased == 0 && taken.programmed == 0,
            "a step of reclaiming writes"
        );
        add(&mut self.marking, 1);
        ensure!(self.marking <= LONGEST, "no marking ends");
        if has_ended {
            self.marking = 0;
        }
        Ok(())
    }

    /// Once all is synced and a marking has ended that began after it, a mount finds as many blocks at hand.
    pub fn check_mount(mut self, alloc: Global) -> Result<()> {
        self.sync(alloc)?;
        for _ in 0..LONGEST.saturating_mul(2) {
            self.reclaim(alloc)?;
        }
        let at_hand = self.mounted.at_hand();
        let found = self.mounted.mounted_anew(alloc)?.at_hand();
        ensure!(
            found == at_hand,
            "{at_hand} blocks at hand, and {found} after a mount"
        );
        Ok(())
    }

    /// Carries out a line.
    fn carry_out(&mut self, alloc: Global, line: &str) -> Result<()> {
        match ask_of(alloc, line)? {
            Some(Ask::Event(Event::Call(call))) => self.ask_with_room(alloc, &call),
            Some(Ask::Event(Event::CleanStep(budget))) => self.clean(budget),
            Some(Ask::Space) => {
                add(&mut self.counts.told, 1);
                self.tell_space(alloc, &mut Room::unknown())
            }
            Some(Ask::ForgetFree(blocks)) => self.forget_until_free(alloc, blocks),
            _ => bail!("no line of the plan"),
        }
    }

    /// Asks how many blocks are free and what the history keeps. It has to be what was known of the room,
    /// and what it may be.
    fn tell_space(&mut self, alloc: Global, room: &mut Room) -> Result<()> {
        let Reply::Df {
            blocks,
            bad,
            free,
            ..
        } = self.mounted.call(alloc, &Call::Df)?
        else {
            bail!("no answer to df");
        };
        ensure!(room.take_df(blocks, bad, free), "{free} blocks free");
        let space = self.mounted.space(alloc)?;
        let may_be = may_tell(alloc, &mut self.plain, room, &space)?;
        ensure!(may_be, "the history keeps {space:?}");
        Ok(())
    }

    /// Forgets the fewest versions that leave so many blocks free. What is free and kept is asked before
    /// and after it.
    fn forget_until_free(&mut self, alloc: Global, blocks: u64) -> Result<()> {
        let mut room = Room::unknown();
        self.tell_space(alloc, &mut room)?;
        let outcome = self.mounted.forget_until_free(alloc, blocks);
        self.check_forgotten(alloc, &mut room, blocks, outcome)?;
        self.tell_space(alloc, &mut room)
    }

    /// Whether versions are forgotten for so many blocks, or not, as they may be.
    fn check_forgotten(
        &mut self,
        alloc: Global,
        room: &mut Room,
        blocks: u64,
        outcome: Result<u64, Fault>,
    ) -> Result<()> {
        add(&mut self.counts.forgetting, 1);
        let plain = &mut self.plain;
        match outcome {
            Ok(count) => {
                let may_be = may_forget(alloc, plain, room, blocks, count);
                ensure!(may_be, "{count} versions forgotten");
                add(&mut self.counts.forgotten, count);
            }
            Err(fault) => {
                let may_be = may_refuse_to_forget(alloc, plain, room, blocks, fault, false)?;
                ensure!(may_be, "refused: {fault}");
                add(&mut self.counts.kept, 1);
            }
        }
        Ok(())
    }

    /// Takes a step of cleaning. It erases no more blocks than it looks at, and as many are at hand after it,
    /// but for those that go bad. After a round in one step these are blank.
    fn clean(&mut self, budget: u64) -> Result<()> {
        let (is_over, taken) = self.mounted.clean(budget)?;
        let looked = budget.min(taken.at_hand);
        let erased = taken.erased;
        ensure!(
            erased <= looked,
            "{erased} blocks erased of {looked} looked at"
        );
        let left = self.mounted.at_hand().saturating_add(taken.bad);
        ensure!(left == taken.at_hand, "blocks taken by cleaning");
        let is_round = self.is_round_over && is_over;
        self.is_round_over = is_over;
        ensure!(
            !is_round || self.mounted.is_blank(),
            "a block at hand is not blank"
        );
        add(&mut self.counts.steps, 1);
        add(&mut self.counts.cleaned, erased);
        Ok(())
    }

    /// Asks a call, and once more after all older versions are forgotten if it finds the flash full. In a
    /// change group none is forgotten.
    fn ask_with_room(&mut self, alloc: Global, call: &Call) -> Result<()> {
        if !self.ask(alloc, call)? {
            let older = self.older_versions(alloc)?;
            self.forget(alloc, older)?;
            self.ask(alloc, call)?;
        }
        Ok(())
    }

    /// Asks to forget so many versions.
    fn forget(&mut self, alloc: Global, count: u64) -> Result<bool> {
        self.ask(alloc, &Call::Forget { count })
    }

    /// Plans the faults that come after the line of a number.
    fn plan_faults(&mut self, number: u64) -> Result<()> {
        for (after, kind) in &FAULTS {
            if *after == number {
                self.mounted.plan_fault(*kind)?;
            }
        }
        Ok(())
    }

    /// Syncs, and notes how many blocks are free.
    fn sync(&mut self, alloc: Global) -> Result<()> {
        let (answer, taken) = self.mounted.measure(alloc, &Call::Sync);
        let is_accepted = answer.is_ok();
        self.compare(alloc, &Call::Sync, answer)?;
        check_record(is_accepted, taken)?;
        self.free(alloc)?;
        Ok(())
    }

    /// Asks a call of both sides, and checks the answer and what it took. Whether the flash had room
    /// for it; else the plain machine is not asked.
    fn ask(&mut self, alloc: Global, call: &Call) -> Result<bool> {
        let need = self.plain.need(alloc, CAPACITY, call)?;
        let (answer, taken) = self.mounted.measure(alloc, call);
        if let Err(Fault::FlashFull) = answer {
            self.check_full(alloc, need, taken)?;
            return Ok(false);
        }
        let is_accepted = answer.is_ok();
        self.compare(alloc, call, answer)?;
        self.check_taken(if is_accepted { need } else { 0 }, taken)?;
        Ok(true)
    }

    /// Asks the plain machine too, and compares what is printed for both answers.
    fn compare(&mut self, alloc: Global, call: &Call, answer: Result<Reply, Fault>) -> Result<()> {
        self.counts.add_answer(answer.is_ok());
        let flash = text_of(alloc, answer)?;
        let plain = text_of(alloc, self.plain.step(alloc, NO_SPACE, call))?;
        check_same(flash.as_str(), plain.as_str())
    }

    /// A full flash has fewer free blocks than the call needs and than went bad in it. It left the
    /// history as it was, so that free before it were those that are free now and those bad ones.
    fn check_full(&mut self, alloc: Global, need: u64, taken: Taken) -> Result<()> {
        add(&mut self.counts.full, 1);
        self.check_taken(need, taken)?;
        let free = self.free(alloc)?;
        ensure!(free < need, "full with {free} blocks free of {need} needed");
        Ok(())
    }

    /// A call takes a block for each node that it needs and for each that goes bad. Where fewer are at
    /// hand it may commit and begin once more: it writes its nodes twice then, and erases an anchor.
    fn check_taken(&mut self, need: u64, taken: Taken) -> Result<()> {
        let mut allowed = need.saturating_add(taken.bad);
        if taken.at_hand < allowed {
            allowed = allowed.saturating_add(need).saturating_add(1);
            add(&mut self.counts.tight, 1);
            self.marking = 0;
        } else {
            add(&mut self.counts.written, taken.erased);
            add(&mut self.counts.needed, allowed);
        }
        let erased = taken.erased;
        ensure!(
            erased <= allowed,
            "{erased} blocks erased of {allowed} allowed"
        );
        Ok(())
    }

    /// How many blocks are free, which is noted.
    fn free(&mut self, alloc: Global) -> Result<u64> {
        let Reply::Df {
            bad,
            free,
            anchors,
            ..
        } = self.mounted.call(alloc, &Call::Df)?
        else {
            bail!("no answer to df");
        };
        self.check_worn(bad, anchors)?;
        self.counts.least_free = self.counts.least_free.min(free);
        self.counts.most_free = self.counts.most_free.max(free);
        Ok(free)
    }

    /// What is told of bad blocks and of anchors is what operations failed in.
    fn check_worn(&self, bad: u64, anchors: u64) -> Result<()> {
        let worn = self.mounted.worn(ANCHORS..SIZES.blocks);
        ensure!(bad == worn, "{bad} bad blocks, and {worn} worn ones");
        let worn = self.mounted.worn(0..ANCHORS);
        let all = anchors.saturating_add(worn);
        ensure!(
            all == u64::from(ANCHORS),
            "{anchors} anchors, and {worn} worn ones"
        );
        Ok(())
    }

    /// How many versions lie before the present one.
    fn older_versions(&mut self, alloc: Global) -> Result<u64> {
        match self.plain.step(alloc, NO_SPACE, &Call::Log)? {
            Reply::Log { cursor, .. } => Ok(cursor),
            _ => bail!("no answer to log"),
        }
    }
}

/// A record has one page here. It is programmed once, and once more for each operation that fails; an anchor
/// is erased before it at most, and one for each of these. What is refused writes none.
fn check_record(is_accepted: bool, taken: Taken) -> Result<()> {
    let most = u64::from(is_accepted).saturating_mul(taken.bad.saturating_add(1));
    let (programmed, erased) = (taken.programmed, taken.erased);
    ensure!(
        programmed <= most && erased <= most && is_accepted == (programmed > 0),
        "{programmed} pages programmed and {erased} anchors erased for a record"
    );
    Ok(())
}

/// The text of an answer has to be that of the plain machine's.
fn check_same(flash: &str, plain: &str) -> Result<()> {
    ensure!(
        flash == plain,
        "answered {}, and by the plain machine {}",
        flash.trim_end(),
        plain.trim_end()
    );
    Ok(())
}

fn add(count: &mut u64, more: u64) {
    *count = count.saturating_add(more);
}

/// What is printed for an answer.
fn text_of(alloc: Global, answer: Result<Reply, Fault>) -> Result<String> {
    let answer = match answer {
        Ok(reply) => Answer::Done(reply),
        Err(fault) => Answer::Refused(fault),
    };
    let mut text = Vec::new(alloc);
    print_answer(&mut text, &LineAnswer::Told(answer))?;
    Ok(String::from_utf8(text)?)
}
