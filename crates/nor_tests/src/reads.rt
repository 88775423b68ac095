//! A serial NOR part in memory of which each read fails once, and in each of which power goes once.
ghost use Rattle.std.specs.Prelude.{◌≡◌, ◌<◌};
ghost use Rattle.flash_model.specs.Geometry.{page_count};

use crate::cleaned::program_erased;
use crate::over_parts::{formatted, replies, restarted};
use crate::sessions::SESSION;
use flash_model::{DevFault, Flash, PageState};
use fs_types::Fault;
use nor_part::{MemoryNor, NorFlash};
use script_runs::{ScriptFault, run_script_on};
use std::alloc::{AllocError, Global};
use std::process::Abort;
use std::test::Fail;

// What a line is answered in which a read failed.
const FAILED: &str = "err EIO 23";

// A mount and a script have fewer reads of the part.
const MOST_READS: u64 = 5_000;

/// The lines of a text, with one more at a place.
fn with_line(alloc: Global, text: &str, place: usize, more: &str) -> Result<String, AllocError> {
    let mut out = String::new(alloc);
    for (number, line) in text.lines().enumerate() {
        if number == place {
            push_line(&mut out, more)?;
        }
        push_line(&mut out, line)?;
    }
    Ok(out)
}

fn push_line(out: &mut String, line: &str) -> Result<(), AllocError> {
    out.push_str(line)?;
    out.push('\n')
}

/// What a script is answered, and the fault that its mount is refused with, if it is.
fn told_on(
    alloc: Global,
    flash: &mut NorFlash<MemoryNor>,
    script: &str,
) -> Result<(String, Option<Fault>), Fail> {
    let mut reader = script.as_bytes();
    let mut out: Vec<u8> = Vec::new(alloc);
    let refused = match run_script_on(alloc, &mut reader, &mut out, flash) {
        Ok(()) => None,
        Err(ScriptFault::Mount(fault)) => Some(fault),
        Err(_) => return Err(Fail::new("no script")),
    };
    Ok((String::from_utf8(out)?, refused))
}

/// Each read of the part in a mount is refused once, for which the mount is refused too. How many there
/// are. The flash is left as it was.
fn refuse_mounts<R: Abort>(
    rt: &R,
    alloc: Global,
    flash: &mut NorFlash<MemoryNor>,
    fault: DevFault,
) -> Result<u64, Fail> {
    let wanted = match fault {
        DevFault::Failed => Fault::ReadFailed,
        DevFault::PowerCut => Fault::PowerCut,
    };
    for good in 0..MOST_READS {
        flash.plan_read(good, fault);
        let (_, refused) = told_on(alloc, flash, "")?;
        flash.power_on();
        if flash.awaits_read() {
            return Ok(good);
        }
        assert!(rt; refused == Some(wanted), "{fault:?} {good}");
    }
    Err(Fail::new("more reads"))
}

/// The flash on which the script of a number runs.
fn before(alloc: Global, number: usize) -> Result<NorFlash<MemoryNor>, Fail> {
    let mut flash = formatted(alloc)?;
    for (script, _) in SESSION.into_iter().take(number) {
        replies(alloc, &mut flash, script)?;
        flash = restarted(alloc, flash)?;
    }
    Ok(flash)
}

/// What a script is answered in the place of that of a number, where a read of the part is refused after
/// so many. None where there is no such read.
fn told_with(
    alloc: Global,
    number: usize,
    script: &str,
    good: u64,
) -> Result<Option<String>, Fail> {
    let mut flash = before(alloc, number)?;
    flash.plan_read(good, DevFault::Failed);
    let (told, refused) = told_on(alloc, &mut flash, script)?;
    if refused.is_some() {
        return Err(Fail::new("a mount is refused"));
    }
    Ok(if flash.awaits_read() {
        None
    } else {
        Some(told)
    })
}

/// Whether a script is answered as if no read had failed where one fails after so many, but for the line
/// that meets it: that is refused, and right when it is asked again. None where there is no such read.
fn is_as_wanted(alloc: Global, number: usize, good: u64) -> Result<Option<bool>, Fail> {
    let Some((script, wanted)) = SESSION.get(number) else {
        return Ok(None);
    };
    let Some(told) = told_with(alloc, number, script, good)? else {
        return Ok(None);
    };
    let Some(place) = told.lines().position(|line| line == FAILED) else {
        return Ok(Some(false));
    };
    let line = script.lines().nth(place).unwrap_or("");
    let again = with_line(alloc, script, place, line)?;
    let told = told_with(alloc, number, &again, good)?;
    let wanted = with_line(alloc, wanted, place, FAILED)?;
    Ok(Some(told.as_deref() == Some(wanted.as_str())))
}

/// Each read of the part in the lines of a script fails once, after those of its mount. How many reads
/// both have.
fn fail_lines<R: Abort>(rt: &R, alloc: Global, number: usize, mount: u64) -> Result<u64, Fail> {
    for good in mount..MOST_READS {
        match is_as_wanted(alloc, number, good)? {
            Some(is_right) => assert!(rt; is_right, "{number} {good}"),
            None => return Ok(good),
        }
    }
    Err(Fail::new("more reads"))
}

// Each script of the session, with a mount of its own before it.
#[test]
fn each_read_fails_once(rt: HostRuntime) -> Result<(), Fail> {
    let mut is_any_read_by_lines = false;
    for number in 0..SESSION.len() {
        let mut flash = before(rt.alloc(), number)?;
        let mount = refuse_mounts(&rt, rt.alloc(), &mut flash, DevFault::Failed)?;
        let all = fail_lines(&rt, rt.alloc(), number, mount)?;
        assert!(rt; 0 < mount, "{number}");
        is_any_read_by_lines = is_any_read_by_lines || mount < all;
    }
    assert!(rt; is_any_read_by_lines, "lines read nothing");
    Ok(())
}

/// Whether power that goes in a read of the part after so many, in a script that reads, changes and commits, is told
/// as that, and a restart finds what was committed before and nothing of the change. None where there is no such read.
fn is_cut(alloc: Global, good: u64) -> Result<Option<bool>, Fail> {
    let mut flash = before(alloc, 1)?;
    flash.plan_read(good, DevFault::PowerCut);
    let (told, refused) = told_on(alloc, &mut flash, "read /d/f 299 9\nmkdir /b\nsync\n")?;
    if refused.is_some() {
        return Err(Fail::new("a mount is refused"));
    }
    if flash.awaits_read() {
        return Ok(None);
    }
    let mut flash = restarted(alloc, flash)?;
    let found = replies(alloc, &mut flash, "ls /\nread /d/f 299 9\n")?;
    let is_kept = found.as_str() == "entries 1 d/\ndata 004142\n";
    Ok(Some(is_kept && told.as_str().ends_with("err POWERCUT 24\n")))
}

#[test]
fn power_goes_in_each_read_once(rt: HostRuntime) -> Result<(), Fail> {
    let mut flash = before(rt.alloc(), 1)?;
    let mount = refuse_mounts(&rt, rt.alloc(), &mut flash, DevFault::PowerCut)?;
    for good in mount..MOST_READS {
        match is_cut(rt.alloc(), good)? {
            Some(is_right) => assert!(rt; is_right, "{good}"),
            None => {
                assert!(rt; 0 < mount && mount < good);
                return Ok(());
            }
        }
    }
    Err(Fail::new("more reads"))
}

/// What a page reads as, and the buffer afterwards, in which each byte was 9.
fn read_over<F: Flash>(flash: &mut F, page: u32) -> (Result<PageState, DevFault>, [u8; 256])
    requires in_range { page < page_count (F.device flash.old).geometry }
    requires sizes { (F.device flash.old).geometry.page ≡ 256 }
    ensures same_sizes { (F.device flash.new).geometry ≡ (F.device flash.old).geometry }
{
    let mut buffer = [9; 256];
    let read = flash.read(page, &mut buffer);
    (read, buffer)
}

/// Whether a read in which the part refuses one of its reads leaves the buffer, and whether the next one
/// shows the page, where power is on.
fn is_left(alloc: Global, good: u64, fault: DevFault) -> Result<bool, Fail> {
    let part = MemoryNor::new(alloc, 64)?;
    let mut flash = NorFlash::new(alloc, part)?;
    flash.erase(20)?;
    program_erased(&mut flash, 320, &mut [7; 256])?;
    flash.plan_read(good, fault);
    let (refused, kept) = read_over(&mut flash, 320);
    let (next, _) = read_over(&mut flash, 320);
    flash.power_on();
    let (shown, bytes) = read_over(&mut flash, 320);
    let wanted = match fault {
        DevFault::Failed => Ok(PageState::Data),
        DevFault::PowerCut => Err(DevFault::PowerCut),
    };
    let is_kept = refused == Err(fault) && kept == [9; 256] && next == wanted;
    Ok(is_kept && shown == Ok(PageState::Data) && bytes == [7; 256])
}

// The part is read twice: for the mark of a page, and for its bytes.
#[test]
fn a_refused_read_leaves_the_buffer(rt: HostRuntime) -> Result<(), Fail> {
    for good in 0..2 {
        for fault in [DevFault::Failed, DevFault::PowerCut] {
            let is_right = is_left(rt.alloc(), good, fault)?;
            assert!(rt; is_right, "{fault:?} {good}");
        }
    }
    Ok(())
}
