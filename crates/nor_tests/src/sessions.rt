//! Scripts over a serial NOR part in memory, of each layout: one after the other, and with one operation of
//! the part troubled.
use crate::over_parts::{Layout, OverPart};
use nor_part::Trouble;
use std::alloc::Global;
use std::process::Abort;
use std::test::Fail;

// Scripts that are run one after the other, each on what a restart finds of those before it.
pub(crate) const SESSION: [(&str, &str); 5] = [
    (
        "mkdir /d\nopen /d/f 7\npwrite 0 300 4142\nclose 0\nread /d/f 299 9\ncheckpoint one\nsync\n",
        "ok\nfd 0\nwrote 2\nok\ndata 004142\nok\nok\n",
    ),
    (
        "stat /d/f\nundo\nstat /d/f\nredo\nstat /d/f\nlog\n",
        "file 302\nok\nfile 0\nok\nfile 302\nlog next 5 dropped 0 versions 1 2 3 *4 checkpoints one\n",
    ),
    (
        "begin\nmkdir /a\nmkdir /b\nrename /d/f /a/g\nend\nls /\nsync\nundo\nls /\n",
        "ok\nok\nok\nok\nok\nentries 3 a/ b/ d/\nok\nok\nentries 1 d/\n",
    ),
    (
        "ls /\nrollback one\nls /d\nundo\nls /d\nreclaim 99\nsync\n",
        "entries 3 a/ b/ d/\nok\nentries 1 f\nok\nentries 0\ndone\nok\n",
    ),
    ("ls /a\nread /a/g 300 2\n", "entries 1 g\ndata 4142\n"),
];

/// Each script is answered as it should be, with a restart after each one.
fn run_session<R: Abort>(rt: &R, alloc: Global, layout: Layout) -> Result<(), Fail> {
    let mut flash = OverPart::formatted(alloc, layout)?;
    for (script, wanted) in SESSION {
        let told = flash.replies(alloc, script)?;
        assert_eq!(rt; told.as_str(), wanted, "{script}");
        flash = flash.restarted(alloc)?;
    }
    Ok(())
}

#[test]
fn a_session_runs(rt: HostRuntime) -> Result<(), Fail> {
    run_session(&rt, rt.alloc(), Layout::Sure)?;
    run_session(&rt, rt.alloc(), Layout::Dense)
}

/// What is answered where the part is troubled in a change and its commit, and what a script is told after a
/// restart.
fn troubled(
    alloc: Global,
    layout: Layout,
    good: u64,
    trouble: Trouble,
    script: &str,
) -> Result<(String, String), Fail> {
    let mut flash = OverPart::formatted(alloc, layout)?;
    flash.replies(alloc, "mkdir /a\nsync\n")?;
    flash.plan(good, trouble);
    let told = flash.replies(alloc, "mkdir /b\nsync\n")?;
    let mut flash = flash.restarted(alloc)?;
    let found = flash.replies(alloc, script)?;
    Ok((told, found))
}

/// Whether a change and its commit are found whole or not at all where power goes after so many operations:
/// it is found where the commit answered Ok, and what is found can be taken back.
fn is_cut(alloc: Global, layout: Layout, good: u64, trouble: Trouble) -> Result<bool, Fail> {
    let before = "entries 1 a/\nok\nentries 0\n";
    let after = "entries 2 a/ b/\nok\nentries 1 a/\n";
    let (told, found) = troubled(alloc, layout, good, trouble, "ls /\nundo\nls /\n")?;
    let is_done = told.as_str() == "ok\nok\n";
    let is_last = good.saturating_add(1) == layout.change() && trouble == Trouble::CutAfter;
    let wanted = if is_done || is_last { after } else { before };
    Ok(is_done == (good == layout.change()) && found.as_str() == wanted)
}

/// Whether all is answered as if none had failed where an operation fails after so many: the block is left,
/// and a restart finds the change.
fn is_passed(alloc: Global, layout: Layout, good: u64) -> Result<bool, Fail> {
    let (told, left) = troubled(alloc, layout, good, Trouble::Fails, "df\nls /\n")?;
    let wanted = if good < layout.of_nodes() {
        "df data 24 bad 1 free 18 anchors 8\nentries 2 a/ b/\n"
    } else if good < layout.change() {
        "df data 24 bad 0 free 19 anchors 7\nentries 2 a/ b/\n"
    } else {
        "df data 24 bad 0 free 19 anchors 8\nentries 2 a/ b/\n"
    };
    Ok(told.as_str() == "ok\nok\n" && left.as_str() == wanted)
}

/// Power goes before, in and after each program and erase of a change and its commit, and each of them fails.
fn trouble_each<R: Abort>(rt: &R, alloc: Global, layout: Layout) -> Result<(), Fail> {
    for good in 0..=layout.change() {
        for trouble in [Trouble::CutBefore, Trouble::CutWithin, Trouble::CutAfter] {
            let is_right = is_cut(alloc, layout, good, trouble)?;
            assert!(rt; is_right, "{trouble:?} {good}");
        }
        assert!(rt; is_passed(alloc, layout, good)?, "{good}");
    }
    Ok(())
}

#[test]
fn each_operation_is_troubled_once(rt: HostRuntime) -> Result<(), Fail> {
    trouble_each(&rt, rt.alloc(), Layout::Sure)
}

// The last operation of a commit is the program of a mark on the page that has the mark of the newest record:
// that one stays where it is torn, and where it fails.
#[test]
fn each_operation_on_a_dense_part_is_troubled_once(rt: HostRuntime) -> Result<(), Fail> {
    trouble_each(&rt, rt.alloc(), Layout::Dense)
}
