//! Records committed on a flash in memory: where they go, and what failed operations and cuts leave.
ghost use Rattle.std.specs.Prelude.{◌≡◌, true, [], IfOk};
ghost use Rattle.record_format.specs.Payloads.{is_record, written};

use anchors::Anchors;
use bad_blocks::BadBlocks;
use flash_model::{Counters, FaultKind, Flash, Geometry, PageView, PlannedFault};
use flash_simulation::SimFlash;
use fs_types::{Fault, Sequence, Version};
use record_format::{FORMAT, PageHead, Record};
use std::alloc::Global;
use std::test::Fail;

const SIZES: Geometry = Geometry {
    page: 256,
    pages: 16,
    blocks: 32,
};

/// A record of so many versions, which is told from others by its next serial. Its sequence is not
/// read. With 1 version it fills one page, with 40 it fills three.
fn record_of(alloc: Global, versions: u64, next: u64) -> Result<Record, Fault>
    ensures sizes { IfOk result (λ r. r.geometry ≡ SIZES) }
    ensures lawful { IfOk result (λ r. is_record (written r []) ≡ true) }
{
    let mut kept = Sequence::new(alloc);
    for serial in 0..versions {
        let version = Version {
            serial: serial + 1,
            root: 8,
        };
        kept.push(version)?;
    }
    let record = Record {
        sequence: 99,
        format: FORMAT,
        geometry: SIZES,
        limit: 64,
        cursor: 0,
        dropped: false,
        versions: kept,
        checkpoints: Sequence::new(alloc),
        bad: Sequence::new(alloc),
        next,
        last: 8,
    };
    if record.is_lawful() {
        Ok(record)
    } else {
        Err(Fault::Invalid)
    }
}

/// Clears the anchors and commits so many records, up to the first refusal. The n-th has the next
/// serial `100 + n`.
fn commit_all(
    alloc: Global,
    flash: &mut SimFlash,
    bad: &mut BadBlocks,
    versions: u64,
    count: u8,
) -> Result<(), Fault> {
    let sizes = flash.geometry();
    if sizes != SIZES || !sizes.is_lawful() {
        return Err(Fault::Invalid);
    }
    *bad = BadBlocks::new();
    let mut anchors = Anchors::new();
    anchors.clear(flash, bad)?;
    for n in 0..count {
        let record = record_of(alloc, versions, n as u64 + 101)?;
        anchors.commit(alloc, flash, bad, &record)?;
    }
    Ok(())
}

/// Puts the power on and reads the newest record: its sequence, its next serial and its bad list.
fn newest_of(
    alloc: Global,
    flash: &mut SimFlash,
) -> Result<Option<(u64, u64, Sequence<u32>)>, Fault> {
    flash.power_on();
    if !flash.geometry().is_lawful() {
        return Err(Fault::Invalid);
    }
    let newest = Anchors::new().newest(alloc, flash)?;
    Ok(newest.map(|record| (record.sequence, record.next, record.bad)))
}

/// Reads the newest record, and commits one with the next serial 200.
fn commit_again(alloc: Global, flash: &mut SimFlash, bad: &mut BadBlocks) -> Result<(), Fault> {
    let sizes = flash.geometry();
    if sizes != SIZES || !sizes.is_lawful() {
        return Err(Fault::Invalid);
    }
    *bad = BadBlocks::new();
    let mut anchors = Anchors::new();
    let newest = anchors.newest(alloc, flash)?;
    if newest.is_none() {
        return Err(Fault::NoRecord);
    }
    let record = record_of(alloc, 1, 200)?;
    anchors.commit(alloc, flash, bad, &record)
}

/// The sequence of the part of a record on a page; 0 where the page is erased.
fn sequence_on(flash: &SimFlash, number: u32) -> Option<u64> {
    if flash.geometry().page_count() <= number as usize {
        return None;
    }
    match flash.page(number) {
        PageView::Data(bytes) if bytes.len() >= 20 => PageHead::of(bytes).map(|head| head.sequence),
        PageView::Erased => Some(0),
        _ => None,
    }
}

/// A plan; how many versions each record has and how many records are committed, after the anchors were
/// cleared, once for each pair; what is answered; pages, each with the sequence of the record of which it
/// has a part; the newest record's sequence, next serial and bad list; the operations that were asked for,
/// where they are counted; and, where one record more is committed after the power was put on and the newest
/// one was read, the page on which it begins and its sequence.
///
/// The anchor that comes first after the anchors were cleared is not erased again; of anchors that were
/// cleared only one whose erase failed is read, each page once, and the part of a record again.
type Row = (
    &'static [PlannedFault],
    &'static [(u64, u8)],
    Result<(), Fault>,
    &'static [(u32, u64)],
    Option<(u64, u64, &'static [u32])>,
    Option<Counters>,
    Option<(u32, u64)>,
);

const ROWS: [Row; 27] = [
    // records are appended
    (
        &[],
        &[(1, 3)],
        Ok(()),
        &[(0, 1), (1, 2), (2, 3), (3, 0)],
        Some((3, 103, &[])),
        Some(Counters {
            reads: 0,
            programs: 3,
            erases: 8,
        }),
        Some((3, 4)),
    ),
    // a full anchor is followed by the next
    (
        &[],
        &[(1, 17)],
        Ok(()),
        &[(15, 16), (16, 17)],
        Some((17, 117, &[])),
        Some(Counters {
            reads: 0,
            programs: 17,
            erases: 9,
        }),
        None,
    ),
    // three pages each: five records on an anchor, and a page of it stays
    (
        &[],
        &[(40, 6)],
        Ok(()),
        &[(14, 5), (15, 0), (16, 6)],
        Some((6, 106, &[])),
        None,
        None,
    ),
    // round the ring: the anchor of the first record is erased and programmed again
    (
        &[],
        &[(1, 129)],
        Ok(()),
        &[(0, 129), (1, 0), (127, 128)],
        Some((129, 229, &[])),
        None,
        None,
    ),
    // anchors that fail are passed: the second record fails on the anchor of the first, and then the next
    // one at its erase
    (
        &[
            PlannedFault {
                number: 2,
                kind: FaultKind::ProgramFail,
            },
            PlannedFault {
                number: 9,
                kind: FaultKind::EraseFail,
            },
        ],
        &[(1, 3)],
        Ok(()),
        &[(0, 1), (32, 2), (33, 3)],
        Some((3, 103, &[0, 1])),
        None,
        None,
    ),
    // seven bad anchors end it
    (
        &[
            PlannedFault {
                number: 2,
                kind: FaultKind::ProgramFail,
            },
            PlannedFault {
                number: 3,
                kind: FaultKind::ProgramFail,
            },
            PlannedFault {
                number: 4,
                kind: FaultKind::ProgramFail,
            },
            PlannedFault {
                number: 5,
                kind: FaultKind::ProgramFail,
            },
            PlannedFault {
                number: 6,
                kind: FaultKind::ProgramFail,
            },
            PlannedFault {
                number: 7,
                kind: FaultKind::ProgramFail,
            },
            PlannedFault {
                number: 8,
                kind: FaultKind::ProgramFail,
            },
        ],
        &[(1, 2)],
        Err(Fault::ReadOnly),
        &[(0, 1), (112, 0)],
        Some((1, 101, &[])),
        Some(Counters {
            reads: 0,
            programs: 8,
            erases: 14,
        }),
        None,
    ),
    // the ninth erase leaves the pages of odd place on anchor 0: the second of two records, which is older
    // than the one that is committed then
    (
        &[PlannedFault {
            number: 9,
            kind: FaultKind::EraseFail,
        }],
        &[(1, 2), (1, 1)],
        Ok(()),
        &[(1, 2), (16, 3)],
        Some((3, 101, &[0])),
        Some(Counters {
            reads: 16,
            programs: 3,
            erases: 16,
        }),
        None,
    ),
    // where the anchor whose erase failed is not read either, nothing is committed
    (
        &[
            PlannedFault {
                number: 9,
                kind: FaultKind::EraseFail,
            },
            PlannedFault {
                number: 5,
                kind: FaultKind::ReadFail,
            },
        ],
        &[(1, 2), (1, 1)],
        Err(Fault::ReadFailed),
        &[(1, 2), (16, 0)],
        Some((2, 102, &[])),
        None,
        None,
    ),
    // power goes in the first of two records, which have three pages each
    (
        &[PlannedFault {
            number: 1,
            kind: FaultKind::ProgramCutNone,
        }],
        &[(40, 2)],
        Err(Fault::PowerCut),
        &[],
        None,
        None,
        None,
    ),
    (
        &[PlannedFault {
            number: 1,
            kind: FaultKind::ProgramCutTorn,
        }],
        &[(40, 2)],
        Err(Fault::PowerCut),
        &[],
        None,
        None,
        None,
    ),
    (
        &[PlannedFault {
            number: 2,
            kind: FaultKind::ProgramCutNone,
        }],
        &[(40, 2)],
        Err(Fault::PowerCut),
        &[],
        None,
        None,
        None,
    ),
    (
        &[PlannedFault {
            number: 2,
            kind: FaultKind::ProgramCutTorn,
        }],
        &[(40, 2)],
        Err(Fault::PowerCut),
        &[],
        None,
        None,
        None,
    ),
    (
        &[PlannedFault {
            number: 3,
            kind: FaultKind::ProgramCutNone,
        }],
        &[(40, 2)],
        Err(Fault::PowerCut),
        &[],
        None,
        None,
        None,
    ),
    (
        &[PlannedFault {
            number: 3,
            kind: FaultKind::ProgramCutTorn,
        }],
        &[(40, 2)],
        Err(Fault::PowerCut),
        &[],
        None,
        None,
        None,
    ),
    // power goes in the second one, at its first pages
    (
        &[PlannedFault {
            number: 4,
            kind: FaultKind::ProgramCutNone,
        }],
        &[(40, 2)],
        Err(Fault::PowerCut),
        &[],
        Some((1, 101, &[])),
        None,
        None,
    ),
    (
        &[PlannedFault {
            number: 4,
            kind: FaultKind::ProgramCutTorn,
        }],
        &[(40, 2)],
        Err(Fault::PowerCut),
        &[],
        Some((1, 101, &[])),
        None,
        None,
    ),
    (
        &[PlannedFault {
            number: 5,
            kind: FaultKind::ProgramCutNone,
        }],
        &[(40, 2)],
        Err(Fault::PowerCut),
        &[],
        Some((1, 101, &[])),
        None,
        None,
    ),
    (
        &[PlannedFault {
            number: 5,
            kind: FaultKind::ProgramCutTorn,
        }],
        &[(40, 2)],
        Err(Fault::PowerCut),
        &[],
        Some((1, 101, &[])),
        None,
        None,
    ),
    (
        &[PlannedFault {
            number: 6,
            kind: FaultKind::ProgramCutNone,
        }],
        &[(40, 2)],
        Err(Fault::PowerCut),
        &[],
        Some((1, 101, &[])),
        None,
        None,
    ),
    (
        &[PlannedFault {
            number: 6,
            kind: FaultKind::ProgramCutTorn,
        }],
        &[(40, 2)],
        Err(Fault::PowerCut),
        &[],
        Some((1, 101, &[])),
        None,
        None,
    ),
    // power goes after a page was written whole
    (
        &[PlannedFault {
            number: 2,
            kind: FaultKind::ProgramCutWhole,
        }],
        &[(40, 2)],
        Err(Fault::PowerCut),
        &[],
        None,
        None,
        None,
    ),
    (
        &[PlannedFault {
            number: 3,
            kind: FaultKind::ProgramCutWhole,
        }],
        &[(40, 2)],
        Err(Fault::PowerCut),
        &[],
        Some((1, 101, &[])),
        None,
        None,
    ),
    (
        &[PlannedFault {
            number: 5,
            kind: FaultKind::ProgramCutWhole,
        }],
        &[(40, 2)],
        Err(Fault::PowerCut),
        &[],
        Some((1, 101, &[])),
        None,
        None,
    ),
    (
        &[PlannedFault {
            number: 6,
            kind: FaultKind::ProgramCutWhole,
        }],
        &[(40, 2)],
        Err(Fault::PowerCut),
        &[],
        Some((2, 102, &[])),
        None,
        None,
    ),
    // power goes in the erase of the next anchor
    (
        &[PlannedFault {
            number: 9,
            kind: FaultKind::EraseCutNone,
        }],
        &[(1, 17)],
        Err(Fault::PowerCut),
        &[(15, 16)],
        Some((16, 116, &[])),
        None,
        None,
    ),
    (
        &[PlannedFault {
            number: 9,
            kind: FaultKind::EraseCutWhole,
        }],
        &[(1, 17)],
        Err(Fault::PowerCut),
        &[(15, 16)],
        Some((16, 116, &[])),
        None,
        None,
    ),
    (
        &[PlannedFault {
            number: 9,
            kind: FaultKind::EraseCutTorn,
        }],
        &[(1, 17)],
        Err(Fault::PowerCut),
        &[(15, 16)],
        Some((16, 116, &[])),
        None,
        Some((16, 17)),
    ),
];

/// Clears the anchors and commits the records of a row, up to the first refusal.
fn commit_row(
    alloc: Global,
    flash: &mut SimFlash,
    bad: &mut BadBlocks,
    commits: &[(u64, u8)],
) -> Result<(), Fault> {
    for (versions, count) in commits {
        commit_all(alloc, flash, bad, *versions, *count)?;
    }
    Ok(())
}

/// The first of the pages that has not a part of the record of its sequence.
fn wrong_page(flash: &SimFlash, pages: &[(u32, u64)]) -> Option<u32> {
    for (page, sequence) in pages {
        if sequence_on(flash, *page) != Some(*sequence) {
            return Some(*page);
        }
    }
    None
}

/// Whether the newest record that was found is the one that is wanted, or none is where none is wanted.
fn is_newest(
    found: Option<(u64, u64, Sequence<u32>)>,
    wanted: Option<(u64, u64, &'static [u32])>,
) -> bool {
    match (found, wanted) {
        (Some((sequence, next, listed)), Some(wanted)) => {
            (sequence, next, listed.as_slice()) == wanted
        }
        (None, None) => true,
        _ => false,
    }
}

/// Whether these operations were asked for, where they are counted.
fn is_counted(flash: &SimFlash, counts: Option<Counters>) -> bool {
    match counts {
        Some(wanted) => flash.counts() == wanted,
        None => true,
    }
}

/// Whether one record more is committed after the newest one, where that is asked: the page on which it
/// begins has its sequence.
fn follows(
    alloc: Global,
    flash: &mut SimFlash,
    bad: &mut BadBlocks,
    next: Option<(u32, u64)>,
) -> bool {
    match next {
        Some((page, sequence)) => {
            let answer = commit_again(alloc, flash, bad);
            answer == Ok(()) && sequence_on(flash, page) == Some(sequence)
        }
        None => true,
    }
}

#[test]
fn records_are_committed_and_found(rt: HostRuntime) -> Result<(), Fail> {
    for (plan, commits, wanted, pages, newest, counts, next) in ROWS {
        let mut flash = SimFlash::new(rt.alloc(), SIZES, plan)?;
        let mut bad = BadBlocks::new();
        let answer = commit_row(rt.alloc(), &mut flash, &mut bad, commits);
        assert_eq!(rt; answer, wanted, "{plan:?}");
        assert!(rt; is_counted(&flash, counts), "{plan:?}");
        assert_eq!(rt; wrong_page(&flash, pages), None, "{plan:?}");
        let found = newest_of(rt.alloc(), &mut flash)?;
        assert!(rt; is_newest(found, newest), "{plan:?}");
        assert!(rt; follows(rt.alloc(), &mut flash, &mut bad, next), "{plan:?}");
    }
    Ok(())
}
