//! How many calls wait for an erase after a restart, over `NorFlash` and a part in memory.
use crate::counted_part::CountedPart;
use crate::error::LatencyError;
use crate::filling::fill;
use crate::part::Part;
use crate::work::{Work, open_log, opening};
use crate::worked::{Steps, Worked, call_and_sync, take_steps};
use flash_model::Flash;
use nor_part::{MemoryNor, NorFlash};
use std::alloc::Global;
use std::cell::Cell;
use undofs::{Fs, format};

/// How many calls come after the restart.
pub const CALLS_AFTER: u64 = 300;

/// A block of the flash has two sectors of the part.
const SECTORS: u32 = 2;

/// How many blocks a step of preparing erases before the calls.
const AHEAD: u64 = 4;

/// How many of the calls after a restart ask the part for an erase, each with its sync, where these steps come
/// between two of them. The flash is filled to a share and worked on before, and all its free blocks are cleaned
/// then. After the restart come steps of preparing until one answers that all is prepared, or, where steps of
/// cleaning are taken, all steps of reclaiming and of cleaning.
pub fn count_waiting(
    alloc: Global,
    part: &Part,
    percent: u64,
    steps: Steps,
) -> Result<u64, LatencyError> {
    let erases = Cell::new(0);
    let mut work = Work::new();
    let memory = MemoryNor::new(alloc, SECTORS.saturating_mul(part.sizes.blocks))?;
    let mut flash = NorFlash::new(alloc, CountedPart::new(memory, &erases))?;
    begin_work(alloc, &mut flash, part, percent, &mut work)?;
    let mut flash = flash.reopen(alloc)?;
    go_on(alloc, &mut flash, steps, &mut work, &erases)
}

/// Makes a new file system, and works on it.
fn begin_work<F: Flash>(
    alloc: Global,
    flash: &mut F,
    part: &Part,
    percent: u64,
    work: &mut Work,
) -> Result<(), LatencyError> {
    format(alloc, flash, part.history)?;
    let mut system = Fs::mount(alloc, flash)?;
    work_before(alloc, &mut system, part, percent, work)
}

/// Mounts the file system after the restart, and tells how many of the calls on it asked the part for an erase.
fn go_on<F: Flash>(
    alloc: Global,
    flash: &mut F,
    steps: Steps,
    work: &mut Work,
    erases: &Cell<u64>,
) -> Result<u64, LatencyError> {
    let mut system = Fs::mount(alloc, flash)?;
    work_after(alloc, &mut system, steps, work, erases)
}

/// Fills a new file system and carries out as many calls of the work as the flash has blocks, so that each free
/// block was written before. All of these are cleaned at the end.
fn work_before<W: Worked>(
    alloc: Global,
    worked: &mut W,
    part: &Part,
    percent: u64,
    work: &mut Work,
) -> Result<(), LatencyError> {
    for call in opening(alloc)? {
        worked.call(alloc, &call)?;
    }
    fill(alloc, worked, part, percent)?;
    for _ in 0..part.sizes.blocks {
        let call = work.next_call(alloc)?;
        call_and_sync(alloc, worked, &call)?;
    }
    take_steps(alloc, worked, Steps::All)?;
    Ok(())
}

/// Takes the steps that come before the first call after a restart, until nothing is left to do.
fn make_ready<W: Worked>(alloc: Global, worked: &mut W, steps: Steps) -> Result<(), LatencyError> {
    if let Steps::All | Steps::Budget(_) = steps {
        return Ok(take_steps(alloc, worked, Steps::All)?);
    }
    for _ in 0..u64::MAX {
        if worked.prepare_step(AHEAD)? {
            break;
        }
    }
    Ok(())
}

/// Makes ready, carries out the calls after a restart, and tells how many of them asked the part for an erase.
fn work_after<W: Worked>(
    alloc: Global,
    worked: &mut W,
    steps: Steps,
    work: &mut Work,
    erases: &Cell<u64>,
) -> Result<u64, LatencyError> {
    make_ready(alloc, worked, steps)?;
    worked.call(alloc, &open_log(alloc)?)?;
    let mut waiting = 0u64;
    for _ in 0..CALLS_AFTER {
        take_steps(alloc, worked, steps)?;
        let before = erases.get();
        let call = work.next_call(alloc)?;
        call_and_sync(alloc, worked, &call)?;
        waiting = waiting.saturating_add(u64::from(erases.get() != before));
    }
    Ok(waiting)
}
