//! Single operations: their orders, and how they end by what is answered.
ghost use Rattle.std.specs.Prelude.{◌≡◌, [], IfSome};

use crate::driver_answers::{Full, Interrupted, erased_image, told};
use flash_model::{DevFault, Flash, PageState};
use remote_flash::ToldFlash;
use std::alloc::Global;
use std::io::{Read, Write};
use std::test::Fail;

/// An operation.
#[derive(Clone, Copy, Debug)]
enum Act {
    /// Programs page 308, the fifth of block 19, with the byte 7 throughout.
    Program,
    /// Erases block 19.
    Erase,
}

impl Act {
    /// The bytes of its order.
    fn order(self, alloc: Global) -> Result<Vec<u8>, Fail> {
        let mut order = Vec::new(alloc);
        match self {
            Act::Program => {
                order.extend_from_slice(b"p\x34\x01\0\0")?;
                order.extend_from_slice(&[7; 256])?;
            }
            Act::Erase => order.extend_from_slice(b"e\x13\0\0\0")?,
        }
        Ok(order)
    }

    /// Asks a flash for it.
    fn ask<F: Flash>(self, flash: &mut F) -> Result<Result<(), DevFault>, Fail> {
        match self {
            Act::Program => program(flash),
            Act::Erase if flash.geometry().blocks == 32 => Ok(flash.erase(19)),
            Act::Erase => Err(Fail::new("sizes")),
        }
    }
}

/// Programs page 308, which is erased.
fn program<F: Flash>(flash: &mut F) -> Result<Result<(), DevFault>, Fail> {
    let sizes = flash.geometry();
    if sizes.page != 256 || sizes.page_count() != 512 {
        return Err(Fail::new("sizes"));
    }
    match flash.read(308, &mut [0; 256]) {
        Ok(PageState::Erased) => Ok(flash.program(308, &[7; 256])),
        Ok(_) => Err(Fail::new("a page that is not erased")),
        Err(fault) => Ok(Err(fault)),
    }
}

/// What page 308 is read as.
fn look<F: Flash>(flash: &mut F) -> Result<PageState, Fail> {
    let sizes = flash.geometry();
    if sizes.page != 256 || sizes.page_count() != 512 {
        return Err(Fail::new("sizes"));
    }
    let mut buffer = [0; 256];
    let state = flash.read(308, &mut buffer)?;
    if state == PageState::Data && buffer != [7; 256] {
        return Err(Fail::new("other bytes"));
    }
    Ok(state)
}

/// What an operation answers, and what page 308 is read as then, with power on.
fn end<F: Flash>(act: Act, flash: &mut F) -> Result<(Result<(), DevFault>, PageState), Fail> {
    let done = act.ask(flash)?;
    flash.power_on();
    Ok((done, look(flash)?))
}

const CUT: Result<(), DevFault> = Err(DevFault::PowerCut);

const FAILED: Result<(), DevFault> = Err(DevFault::Failed);

/// An operation, what it answers, and what page 308 is read as then.
type Ended = (Act, Result<(), DevFault>, PageState);

/// What is answered; the operations that are asked for, one after the other; and those of them that are
/// ordered. Where power went nothing is ordered any more, whatever would be answered. A block with data is
/// erased; where the erase is cut the data stay.
const ROWS: [(&[u8], &[Ended], &[Act]); 13] = [
    (
        &[1],
        &[(Act::Program, Ok(()), PageState::Data)],
        &[Act::Program],
    ),
    (
        &[2],
        &[(Act::Program, FAILED, PageState::Unreadable)],
        &[Act::Program],
    ),
    (&[0], &CUT_PROGRAM, &[Act::Program]),
    (&[3, 1, 1], &CUT_PROGRAM, &[Act::Program]),
    (&[], &CUT_PROGRAM, &[Act::Program]),
    (
        &[1],
        &[(Act::Erase, Ok(()), PageState::Erased)],
        &[Act::Erase],
    ),
    (
        &[2],
        &[(Act::Erase, FAILED, PageState::Unreadable)],
        &[Act::Erase],
    ),
    (&[0], &CUT_ERASE, &[Act::Erase]),
    (&[255, 1, 1], &CUT_ERASE, &[Act::Erase]),
    (&[], &CUT_ERASE, &[Act::Erase]),
    (
        &[1, 1],
        &[
            (Act::Program, Ok(()), PageState::Data),
            (Act::Erase, Ok(()), PageState::Erased),
        ],
        &[Act::Program, Act::Erase],
    ),
    (
        &[1, 2],
        &[
            (Act::Program, Ok(()), PageState::Data),
            (Act::Erase, FAILED, PageState::Unreadable),
        ],
        &[Act::Program, Act::Erase],
    ),
    (
        &[1, 9],
        &[
            (Act::Program, Ok(()), PageState::Data),
            (Act::Erase, CUT, PageState::Data),
        ],
        &[Act::Program, Act::Erase],
    ),
];

const CUT_PROGRAM: [Ended; 3] = [
    (Act::Program, CUT, PageState::Erased),
    (Act::Erase, CUT, PageState::Erased),
    (Act::Program, CUT, PageState::Erased),
];

const CUT_ERASE: [Ended; 3] = [
    (Act::Erase, CUT, PageState::Erased),
    (Act::Erase, CUT, PageState::Erased),
    (Act::Program, CUT, PageState::Erased),
];

/// Whether operations on the flash of a driver that tells this end so, one after the other.
fn are_ended<R: Read + Drop, O: Write + Drop>(
    alloc: Global,
    told: R,
    orders: O,
    acts: &[Ended],
) -> Result<bool, Fail>
    requires unused { IfSome (O.contents orders) (λ all. all ≡ []) }
{
    let mut flash = ToldFlash::start(alloc, told, orders)?;
    for (act, wanted, left) in acts {
        if end(*act, &mut flash)? != (*wanted, *left) {
            return Ok(false);
        }
    }
    Ok(true)
}

/// The bytes of orders, one after the other.
fn orders_of(alloc: Global, acts: &[Act]) -> Result<Vec<u8>, Fail> {
    let mut orders = Vec::new(alloc);
    for act in acts {
        orders.extend_from_slice(&act.order(alloc)?)?;
    }
    Ok(orders)
}

/// Whether operations end so, with these orders, where a signal interrupts each read of what a driver tells.
fn are_interrupted(
    alloc: Global,
    told: &[u8],
    acts: &[Ended],
    ordered: &[u8],
) -> Result<bool, Fail> {
    let told = Interrupted {
        bytes: told,
        was_interrupted: false,
    };
    let mut orders: Vec<u8> = Vec::new(alloc);
    let is_right = are_ended(alloc, told, &mut orders, acts)?;
    Ok(is_right && orders.as_slice() == ordered)
}

#[test]
fn an_operation_ends_by_its_answer(rt: HostRuntime) -> Result<(), Fail> {
    let image = erased_image(rt.alloc(), 32)?;
    for (answers, acts, ordered) in ROWS {
        let told = told(rt.alloc(), &image, answers)?;
        let mut orders: Vec<u8> = Vec::new(rt.alloc());
        let is_right = are_ended(rt.alloc(), told.as_slice(), &mut orders, acts)?;
        assert!(rt; is_right, "{ordered:?} {answers:?}");
        let wanted = orders_of(rt.alloc(), ordered)?;
        assert_eq!(rt; orders, wanted, "{ordered:?} {answers:?}");
        let is_right = are_interrupted(rt.alloc(), told.as_slice(), acts, &wanted)?;
        assert!(rt; is_right, "{ordered:?} {answers:?}, interrupted");
    }
    Ok(())
}

/// Whether an operation ends as cut where the stream of the orders breaks after so many bytes of its order,
/// or in the flush of a whole one, twice, and these are written and nothing more.
fn is_broken_after(
    alloc: Global,
    told: &[u8],
    act: Act,
    order: &[u8],
    room: usize,
) -> Result<bool, Fail> {
    let mut bytes: Vec<u8> = Vec::new(alloc);
    let orders = Full {
        bytes: &mut bytes,
        held: Vec::new(alloc),
        room,
    };
    let ended = (act, CUT, PageState::Erased);
    let are_cut = are_ended(alloc, told, orders, &[ended, ended])?;
    Ok(are_cut && order.get(..room) == Some(bytes.as_slice()))
}

// The stream of the orders breaks after each number of bytes, after all too, where the flush fails.
#[test]
fn a_broken_stream_has_a_beginning_of_the_order(rt: HostRuntime) -> Result<(), Fail> {
    let image = erased_image(rt.alloc(), 32)?;
    let told = told(rt.alloc(), &image, &[1, 1, 1])?;
    for act in [Act::Program, Act::Erase] {
        let order = act.order(rt.alloc())?;
        for room in 0..order.len() + 1 {
            let is_broken = is_broken_after(rt.alloc(), told.as_slice(), act, &order, room)?;
            assert!(rt; is_broken, "{act:?} {room}");
        }
    }
    Ok(())
}
