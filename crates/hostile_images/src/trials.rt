//! An image that is mounted, and the calls on what is mounted.
use crate::facts::{Facts, may_refuse};
use crate::tallies::{Tally, add};
use crate::watches::Watch;
use crate::wrong::Wrong;
use flash_simulation::{SimFlash, decode};
use fs_types::Fault;
use session_oracle::{
    Beginning, Causes, Oracle, has_fewer_free, serve_mounted, show, show_after_restart,
};
use std::alloc::Global;
use undofs::{Ask, Fs};

/// What is asked of what is mounted: calls, of which it is counted what became of them, and what comes after
/// them.
#[derive(Clone, Copy)]
pub struct Asked<'a> {
    pub calls: &'a [Ask],
    pub later: &'a [Ask],
}

/// Mounts an image and asks calls of what is mounted. An error tells what was wrong.
pub fn try_image(
    alloc: Global,
    image: &[u8],
    asked: Asked<'_>,
    tally: &mut Tally,
) -> Result<(), Wrong> {
    match decode(alloc, image) {
        Ok(mut flash) => try_flash(alloc, &mut flash, asked, tally),
        Err(_) => {
            add(&mut tally.no_image, 1);
            Ok(())
        }
    }
}

/// The same with a flash, which is mounted once more at the end.
fn try_flash(
    alloc: Global,
    flash: &mut SimFlash,
    asked: Asked<'_>,
    tally: &mut Tally,
) -> Result<(), Wrong> {
    match try_mount(alloc, flash, asked, tally)? {
        Some(mut oracle) => check_restart(alloc, flash, &mut oracle),
        None => Ok(()),
    }
}

/// Mounts a flash and asks calls of what is mounted. The oracle knows what a restart may find; there is
/// none where the mount was refused as it may be.
fn try_mount<'a>(
    alloc: Global,
    flash: &mut SimFlash,
    asked: Asked<'a>,
    tally: &mut Tally,
) -> Result<Option<Oracle<'a>>, Wrong> {
    let facts = Facts::of(alloc, flash);
    match Fs::mount(alloc, flash) {
        Ok(mut system) => {
            add(&mut tally.mounted, 1);
            Ok(Some(try_system(alloc, &mut system, facts, asked, tally)?))
        }
        Err(fault) => {
            tally.add_refusal(fault);
            check_refusal(facts, fault)?;
            Ok(None)
        }
    }
}

/// A mount has to be refused for what is known of the newest record.
fn check_refusal(facts: Result<Option<Facts>, Fault>, fault: Fault) -> Result<(), Wrong> {
    if may_refuse(facts, fault) {
        Ok(())
    } else {
        Err(Wrong::Mount(Some(fault)))
    }
}

/// Asks calls of a mounted system, and compares what it shows then.
fn try_system<'a>(
    alloc: Global,
    system: &mut Fs<'_, SimFlash>,
    facts: Result<Option<Facts>, Fault>,
    asked: Asked<'a>,
    tally: &mut Tally,
) -> Result<Oracle<'a>, Wrong> {
    let Ok(Some(facts)) = facts else {
        return Err(Wrong::Mount(None));
    };
    let mut oracle = oracle_of(alloc, system, facts.limit)?;
    let mut watch = Watch::new(facts);
    ask_all(alloc, system, &mut oracle, &mut watch, asked.calls, tally)?;
    let mut uncounted = Tally::default();
    ask_all(
        alloc,
        system,
        &mut oracle,
        &mut watch,
        asked.later,
        &mut uncounted,
    )?;
    check_shown(alloc, system, &mut oracle)?;
    Ok(oracle)
}

/// The oracle that begins with what a system shows.
fn oracle_of<'a>(
    alloc: Global,
    system: &mut Fs<'_, SimFlash>,
    limit: usize,
) -> Result<Oracle<'a>, Wrong> {
    match Beginning::shown(alloc, system, limit) {
        Ok(beginning) => Ok(Oracle::mounted(alloc, beginning)?),
        Err(fault) => Err(Wrong::Tree(fault)),
    }
}

fn ask_all<'a>(
    alloc: Global,
    system: &mut Fs<'_, SimFlash>,
    oracle: &mut Oracle<'a>,
    watch: &mut Watch,
    asks: &'a [Ask],
    tally: &mut Tally,
) -> Result<(), Wrong> {
    for ask in asks {
        let causes = causes_of(alloc, system, oracle, *watch, ask)?;
        let told = serve_mounted(alloc, system, ask);
        tally.add_told(&told);
        watch.note();
        let may_be = watch.may_tell(ask, &told);
        let is_judged = oracle.judge(alloc, ask, told, causes)?;
        if !(may_be && is_judged) {
            return Err(Wrong::Call(watch.asked()));
        }
    }
    Ok(())
}

/// Why a call may be refused that the plain machine accepts.
fn causes_of(
    alloc: Global,
    system: &mut Fs<'_, SimFlash>,
    oracle: &Oracle<'_>,
    watch: Watch,
    ask: &Ask,
) -> Result<Causes, Fault> {
    let need = oracle.need(alloc, ask)?;
    Ok(Causes {
        full: has_fewer_free(alloc, system, need)?,
        read_only: watch.is_read_only(),
        no_sequence: watch.may_lack_a_sequence(),
        ..Causes::default()
    })
}

/// What a system shows has to be what the oracle has.
fn check_shown(
    alloc: Global,
    system: &mut Fs<'_, SimFlash>,
    oracle: &mut Oracle<'_>,
) -> Result<(), Wrong> {
    let shown = show(alloc, system)?;
    if oracle.judge_shown(alloc, &shown)? {
        Ok(())
    } else {
        Err(Wrong::Shown)
    }
}

/// A restart has to find one of the histories that it may.
fn check_restart(
    alloc: Global,
    flash: &mut SimFlash,
    oracle: &mut Oracle<'_>,
) -> Result<(), Wrong> {
    let shown = show_after_restart(alloc, flash)?;
    if oracle.restart(alloc, &shown)? {
        Ok(())
    } else {
        Err(Wrong::Restart)
    }
}
