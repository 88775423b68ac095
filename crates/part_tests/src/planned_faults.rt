//! A flash in memory does as it is planned: what each kind of fault leaves, and what is counted.
use flash_model::{
    Counters, DevFault, FaultKind, Flash, Geometry, PageState, PageView, Planned, PlannedFault,
};
use flash_simulation::SimFlash;
use fs_types::Fault;
use std::test::Fail;

const SIZES: Geometry = Geometry {
    page: 256,
    pages: 16,
    blocks: 32,
};

// Programs a page with one byte throughout; nothing where the page is not erased.
fn fill(flash: &mut SimFlash, number: u32, byte: u8) -> Option<Result<(), DevFault>> {
    let sizes = flash.geometry();
    if sizes.page != 256 || sizes.page_count() <= number as usize {
        return None;
    }
    match flash.page(number) {
        PageView::Erased => Some(flash.program(number, &[byte; 256])),
        _ => None,
    }
}

// Reads a page into a buffer of 7s, and gives its state with the buffer's last byte.
fn look(flash: &mut SimFlash, number: u32) -> Option<Result<(PageState, u8), DevFault>> {
    let sizes = flash.geometry();
    if sizes.page != 256 || sizes.page_count() <= number as usize {
        return None;
    }
    let mut buffer = [7; 256];
    match flash.read(number, &mut buffer) {
        Ok(state) => Some(Ok((state, buffer[255]))),
        Err(fault) => Some(Err(fault)),
    }
}

fn clear(flash: &mut SimFlash, block: u32) -> Option<Result<(), DevFault>> {
    if block < flash.geometry().blocks {
        Some(flash.erase(block))
    } else {
        None
    }
}

fn is_worn(flash: &SimFlash, block: u32) -> bool {
    block < flash.geometry().blocks && flash.is_worn(block)
}

/// An operation, or a question.
#[derive(Clone, Copy, Debug)]
enum Act {
    /// Programs a page with one byte throughout.
    Fill(u32, u8),
    /// Reads a page.
    Look(u32),
    /// Erases a block.
    Clear(u32),
    /// Asks whether a block is worn.
    Worn(u32),
    /// Plans a fault.
    Plan(u64, FaultKind),
    /// Plans that each read from the first to this one fails.
    PlanReads(u64),
    /// Puts the power on.
    PowerOn,
}

/// What is told then.
#[derive(Clone, Copy, Debug, PartialEq, Eq)]
enum Told {
    Done,
    Failed(DevFault),
    Page(PageState, u8),
    Worn(bool),
    Refused(Fault),
    /// It cannot be asked.
    Never,
}

fn told_of(answer: Option<Result<(), DevFault>>) -> Told {
    match answer {
        Some(Ok(())) => Told::Done,
        Some(Err(fault)) => Told::Failed(fault),
        None => Told::Never,
    }
}

fn planned(flash: &mut SimFlash, k: u64, kind: FaultKind) -> Told {
    if k == 0 {
        return Told::Never;
    }
    match flash.plan_fault(k, kind) {
        Ok(()) => Told::Done,
        Err(fault) => Told::Refused(fault),
    }
}

/// What is told of the first plan that is not done.
fn planned_reads(flash: &mut SimFlash, last: u64) -> Told {
    for k in 1..=last {
        let told = planned(flash, k, FaultKind::ReadFail);
        if told != Told::Done {
            return told;
        }
    }
    Told::Done
}

fn answer_of(flash: &mut SimFlash, act: Act) -> Told {
    match act {
        Act::Fill(number, byte) => told_of(fill(flash, number, byte)),
        Act::Look(number) => match look(flash, number) {
            Some(Ok((state, byte))) => Told::Page(state, byte),
            Some(Err(fault)) => Told::Failed(fault),
            None => Told::Never,
        },
        Act::Clear(block) => told_of(clear(flash, block)),
        Act::Worn(block) => Told::Worn(is_worn(flash, block)),
        Act::Plan(k, kind) => planned(flash, k, kind),
        Act::PlanReads(last) => planned_reads(flash, last),
        Act::PowerOn => {
            flash.power_on();
            Told::Done
        }
    }
}

const DONE: Told = Told::Done;

const FAILED: Told = Told::Failed(DevFault::Failed);

const CUT: Told = Told::Failed(DevFault::PowerCut);

const ERASED: Told = Told::Page(PageState::Erased, 7);

const UNREADABLE: Told = Told::Page(PageState::Unreadable, 7);

/// A plan, what is told of one act after the other, and the operations that are counted then, where they
/// are looked at: those that are asked for while the power is on.
type Row = (
    &'static [PlannedFault],
    &'static [(Act, Told)],
    Option<Counters>,
);

const ROWS: [Row; 12] = [
    // a page is programmed, read and erased
    (
        &[],
        &[
            (Act::Look(511), ERASED),
            (Act::Fill(511, 3), DONE),
            (Act::Look(511), Told::Page(PageState::Data, 3)),
            (Act::Clear(31), DONE),
            (Act::Look(511), ERASED),
        ],
        None,
    ),
    // operations fail as planned
    (
        &[
            PlannedFault {
                number: 2,
                kind: FaultKind::EraseFail,
            },
            PlannedFault {
                number: 2,
                kind: FaultKind::ProgramFail,
            },
            PlannedFault {
                number: 0,
                kind: FaultKind::ProgramFail,
            },
            PlannedFault {
                number: 1,
                kind: FaultKind::ReadFail,
            },
        ],
        &[
            (Act::Look(0), FAILED),
            (Act::Look(0), ERASED),
            (Act::Fill(144, 1), DONE),
            (Act::Worn(9), Told::Worn(false)),
            (Act::Fill(145, 2), FAILED),
            (Act::Look(145), UNREADABLE),
            (Act::Worn(9), Told::Worn(true)),
            (Act::Clear(9), DONE),
            (Act::Fill(144, 5), DONE),
            (Act::Fill(145, 5), DONE),
            (Act::Fill(146, 5), DONE),
            (Act::Fill(147, 5), DONE),
            (Act::Clear(9), FAILED),
            (Act::Look(144), UNREADABLE),
            (Act::Look(145), Told::Page(PageState::Data, 5)),
            (Act::Look(146), UNREADABLE),
            (Act::Look(147), Told::Page(PageState::Data, 5)),
            (Act::Worn(8), Told::Worn(false)),
            (Act::Worn(10), Told::Worn(false)),
        ],
        None,
    ),
    // power goes in a program
    (
        &[PlannedFault {
            number: 2,
            kind: FaultKind::ProgramCutNone,
        }],
        &[
            (Act::Fill(143, 1), DONE),
            (Act::Fill(144, 2), CUT),
            (Act::Look(143), CUT),
            (Act::Clear(8), CUT),
            (Act::PowerOn, DONE),
            (Act::Look(144), ERASED),
            (Act::Look(143), Told::Page(PageState::Data, 1)),
            (Act::Worn(9), Told::Worn(false)),
        ],
        None,
    ),
    // power goes in a program
    (
        &[PlannedFault {
            number: 2,
            kind: FaultKind::ProgramCutWhole,
        }],
        &[
            (Act::Fill(143, 1), DONE),
            (Act::Fill(144, 2), CUT),
            (Act::Look(143), CUT),
            (Act::Clear(8), CUT),
            (Act::PowerOn, DONE),
            (Act::Look(144), Told::Page(PageState::Data, 2)),
            (Act::Look(143), Told::Page(PageState::Data, 1)),
            (Act::Worn(9), Told::Worn(false)),
        ],
        None,
    ),
    // power goes in a program
    (
        &[PlannedFault {
            number: 2,
            kind: FaultKind::ProgramCutTorn,
        }],
        &[
            (Act::Fill(143, 1), DONE),
            (Act::Fill(144, 2), CUT),
            (Act::Look(143), CUT),
            (Act::Clear(8), CUT),
            (Act::PowerOn, DONE),
            (Act::Look(144), UNREADABLE),
            (Act::Look(143), Told::Page(PageState::Data, 1)),
            (Act::Worn(9), Told::Worn(false)),
        ],
        None,
    ),
    // power goes in an erase
    (
        &[PlannedFault {
            number: 1,
            kind: FaultKind::EraseCutNone,
        }],
        &[
            (Act::Fill(144, 5), DONE),
            (Act::Fill(145, 5), DONE),
            (Act::Clear(9), CUT),
            (Act::Look(144), CUT),
            (Act::PowerOn, DONE),
            (Act::Look(144), Told::Page(PageState::Data, 5)),
            (Act::Look(145), Told::Page(PageState::Data, 5)),
            (Act::Worn(9), Told::Worn(false)),
        ],
        None,
    ),
    // power goes in an erase
    (
        &[PlannedFault {
            number: 1,
            kind: FaultKind::EraseCutWhole,
        }],
        &[
            (Act::Fill(144, 5), DONE),
            (Act::Fill(145, 5), DONE),
            (Act::Clear(9), CUT),
            (Act::Look(144), CUT),
            (Act::PowerOn, DONE),
            (Act::Look(144), ERASED),
            (Act::Look(145), ERASED),
            (Act::Worn(9), Told::Worn(false)),
        ],
        None,
    ),
    // power goes in an erase
    (
        &[PlannedFault {
            number: 1,
            kind: FaultKind::EraseCutTorn,
        }],
        &[
            (Act::Fill(144, 5), DONE),
            (Act::Fill(145, 5), DONE),
            (Act::Clear(9), CUT),
            (Act::Look(144), CUT),
            (Act::PowerOn, DONE),
            (Act::Look(144), UNREADABLE),
            (Act::Look(145), Told::Page(PageState::Data, 5)),
            (Act::Worn(9), Told::Worn(false)),
        ],
        None,
    ),
    // the last entry for an operation counts
    (
        &[
            PlannedFault {
                number: 2,
                kind: FaultKind::EraseFail,
            },
            PlannedFault {
                number: 1,
                kind: FaultKind::EraseFail,
            },
            PlannedFault {
                number: 1,
                kind: FaultKind::EraseCutNone,
            },
        ],
        &[
            (Act::Clear(9), CUT),
            (Act::PowerOn, DONE),
            (Act::Plan(1, FaultKind::EraseCutTorn), DONE),
            (Act::Plan(1, FaultKind::EraseCutWhole), DONE),
            (Act::Clear(9), CUT),
            (Act::PowerOn, DONE),
            (Act::Look(144), ERASED),
            (Act::Clear(9), DONE),
        ],
        None,
    ),
    // faults are planned with the power off
    (
        &[PlannedFault {
            number: 2,
            kind: FaultKind::ReadCut,
        }],
        &[
            (Act::Look(144), ERASED),
            (Act::Look(144), CUT),
            (Act::Look(144), CUT),
            (Act::Plan(1, FaultKind::ReadFail), DONE),
            (Act::PowerOn, DONE),
            (Act::Look(144), FAILED),
            (Act::Look(144), ERASED),
        ],
        None,
    ),
    // 64 entries are taken, and another for an operation that has one
    (
        &[PlannedFault {
            number: 70,
            kind: FaultKind::EraseFail,
        }],
        &[
            (Act::PlanReads(63), DONE),
            (
                Act::Plan(1, FaultKind::ProgramFail),
                Told::Refused(Fault::Invalid),
            ),
            (Act::Plan(1, FaultKind::ReadFail), DONE),
            (Act::Look(0), FAILED),
            (Act::Plan(2, FaultKind::ProgramFail), DONE),
            (Act::Fill(0, 1), DONE),
            (Act::Fill(1, 1), FAILED),
            (Act::Fill(2, 1), DONE),
        ],
        None,
    ),
    // operations count while the power is on
    (
        &[PlannedFault {
            number: 2,
            kind: FaultKind::ReadCut,
        }],
        &[
            (Act::Clear(9), DONE),
            (Act::Fill(144, 5), DONE),
            (Act::Fill(145, 5), DONE),
            (Act::Look(144), Told::Page(PageState::Data, 5)),
            (Act::Look(144), CUT),
            (Act::Look(144), CUT),
            (Act::Fill(146, 5), CUT),
            (Act::PowerOn, DONE),
        ],
        Some(Counters {
            reads: 2,
            programs: 2,
            erases: 1,
        }),
    ),
];

/// The first of the acts that is told otherwise than it has to be.
fn wrong_act(flash: &mut SimFlash, acts: &[(Act, Told)]) -> Option<(Act, Told)> {
    for (act, wanted) in acts {
        let told = answer_of(flash, *act);
        if told != *wanted {
            return Some((*act, told));
        }
    }
    None
}

/// Whether these operations are counted, where they are looked at.
fn is_counted(flash: &SimFlash, counts: Option<Counters>) -> bool {
    match counts {
        Some(wanted) => flash.counts() == wanted,
        None => true,
    }
}

/// Sizes that no flash has: too few or too many bytes of a page, pages of a block, blocks and bytes of all.
const UNLAWFUL: [(u32, u32, u32); 6] = [
    (255, 16, 32),
    (256, 15, 32),
    (256, 1025, 32),
    (256, 16, 15),
    (256, 16, 65537),
    (256, 1024, 257),
];

#[test]
fn operations_do_as_planned(rt: HostRuntime) -> Result<(), Fail> {
    for (plan, acts, counts) in ROWS {
        let mut flash = SimFlash::new(rt.alloc(), SIZES, plan)?;
        let wrong = wrong_act(&mut flash, acts);
        assert!(rt; wrong.is_none(), "{wrong:?} {plan:?}");
        assert!(rt; is_counted(&flash, counts), "{plan:?}");
    }
    for (page, pages, blocks) in UNLAWFUL {
        let sizes = Geometry {
            page,
            pages,
            blocks,
        };
        let refusal = SimFlash::new(rt.alloc(), sizes, &[]).err();
        assert_eq!(rt; refusal, Some(Fault::BadGeometry), "{sizes:?}");
    }
    Ok(())
}
