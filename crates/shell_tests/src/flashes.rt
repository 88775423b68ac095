//! Scripts on flashes of other types than the one in memory.
use crate::counted_flash::CountedFlash;
use flash_model::{Geometry, Planned};
use flash_simulation::SimFlash;
use fs_types::Fault;
use nor_part::{MemoryNor, NorFlash};
use script_runs::{run_script, run_script_on};
use std::alloc::Global;
use std::process::Abort;
use std::test::Fail;
use undofs::format;

pub(crate) const SIZES: Geometry = Geometry {
    page: 256,
    pages: 16,
    blocks: 32,
};

/// A flash with an empty file system on it.
pub(crate) fn formatted(alloc: Global, sizes: Geometry, limit: u32) -> Result<SimFlash, Fault> {
    let mut flash = SimFlash::new(alloc, sizes, &[])?;
    format(alloc, &mut flash, limit)?;
    Ok(flash)
}

/// Runs a script, and gives what it writes.
fn written<F: Planned>(alloc: Global, flash: &mut F, script: &str) -> Result<String, Fail> {
    let mut reader = script.as_bytes();
    let mut out: Vec<u8> = Vec::new(alloc);
    run_script(alloc, &mut reader, &mut out, flash)?;
    Ok(String::from_utf8(out)?)
}

/// Asserts that a script runs on a part of a serial NOR flash, which plans no faults.
fn assert_run_on_nor<R: Abort>(rt: &R, alloc: Global) -> Result<(), Fail> {
    let part = MemoryNor::new(alloc, 64)?;
    let mut flash = NorFlash::new(alloc, part)?;
    format(alloc, &mut flash, 8)?;
    let mut script: &[u8] = b"mkdir /a\nsync\nmkdir /b\nfault 1 read-fail\nrestart\nls /\n";
    let mut out: Vec<u8> = Vec::new(alloc);
    run_script_on(alloc, &mut script, &mut out, &mut flash)?;
    let wanted = b"ok\nok\nok\nerr SYNTAX\nmounted\nentries 1 a/\n";
    assert!(rt; out.as_slice() == wanted.as_slice());
    Ok(())
}

/// A script that plans faults: a program that fails is passed, and a cut in a commit leaves what was
/// committed before.
const PLANNED: &str = "fault 1 program-fail\nmkdir /a\nsync\nfault 0 read-fail\nmkdir /b\n\
    fault 1 program-cut-none\nsync\nls /\nrestart\nls /\nfault 1 read-cut\nrestart\nls /\nrestart\nls /\n";

/// Its replies.
const PLANNED_REPLIES: &str = "ok\nok\nok\nerr SYNTAX\nok\n\
    ok\nerr POWERCUT 24\nerr POWERCUT 24\nmounted\nentries 1 a/\nok\nerr POWERCUT 24\nunmounted\nmounted\nentries 1 a/\n";

#[test]
fn scripts_run_on_other_flashes(rt: HostRuntime) -> Result<(), Fail> {
    assert_run_on_nor(&rt, rt.alloc())?;
    let mut flash = formatted(rt.alloc(), SIZES, 8)?;
    let replies = written(rt.alloc(), &mut flash, PLANNED)?;
    assert_eq!(rt; replies.as_str(), PLANNED_REPLIES);

    let mut flash = CountedFlash::new(formatted(rt.alloc(), SIZES, 8)?);
    let replies = written(rt.alloc(), &mut flash, PLANNED)?;
    assert_eq!(rt; replies.as_str(), PLANNED_REPLIES);
    assert!(rt; flash.asked > 0);
    Ok(())
}
