//! Each mount, call and step of scripts is asked with more and more memory until it is not refused for
//! want of it. The oracle takes what is answered then, as if nothing had been asked before.
use crate::budget::Budget;
use flash_model::Geometry;
use flash_simulation::SimFlash;
use fs_types::{Answer, Fault};
use session_oracle::{Causes, Oracle, ask_of, has_fewer_free, serve_mounted, show_after_restart};
use std::alloc::{AllocError, Global};
use std::test::Fail;
use undofs::{Ask, Fs, Told, format, mount};

/// Each budget is so many bytes more than the one before.
const STEP: usize = 16;

/// No more budgets are tried than these.
const MOST_BUDGETS: usize = 16_384;

/// The first words of the lines that want none, and are never refused for it.
const FREE: [&str; 9] = [
    "undo", "redo", "goto", "close", "begin", "end", "abandon", "clean", "prepare",
];

/// The first words of the lines that take memory, and of what comes before each script: each is refused
/// for want of it at least once.
const TAKING: [&str; 23] = [
    "mount",
    "open",
    "pread",
    "pwrite",
    "ftruncate",
    "write",
    "files",
    "fsync",
    "mkdir",
    "rename",
    "unlink",
    "rmdir",
    "stat",
    "ls",
    "entries",
    "read",
    "checkpoint",
    "log",
    "df",
    "space",
    "forgetfree",
    "reclaim",
    "sync",
];

/// Scripts, each with the number of blocks of its flash and its lines. The third is cut by no fault here,
/// the fourth fills its flash, the next has the calls that the others lack, then come whole files with what
/// the history keeps of them, and the last has change groups.
const SCRIPTS: [(u32, &str); 7] = [
    (32, "mkdir /a|undo|ls /|redo|ls /"),
    (32, "open /f 7|pwrite 0 5000 41|stat /f|pread 0 4999 9|df"),
    (32, "mkdir /a|sync|mkdir /b|sync|ls /"),
    (
        16,
        "mkdir /a|mkdir /b|mkdir /c|mkdir /d|df|forget 3|mkdir /d|df|ls /",
    ),
    (
        64,
        "mkdir /a|open /a/f 7|pwrite 0 0 616263|ftruncate 0 2|fsync 0|close 0|rename /a/f /g|checkpoint v|read /g 0 9|unlink /g|rmdir /a|goto 3|ls /a|entries / - 9|stat /a @2|reclaim 2|reclaim 99|rollback v|forget 2|rmcheckpoint v|log|df|sync",
    ),
    (
        32,
        "mkdir /a|write /a/f 616263|files /a g 41 h -|write /a/f 61|checkpoint v|write /a/f 62|df|space|forgetfree 9|forgetfree 12|df|space|sync|forgetfree 99|reclaim 99|clean 99|prepare 99|mkdir /b|space",
    ),
    (
        16,
        "mkdir /a|begin|mkdir /b|ls /|abandon|begin|open /f 7|pwrite 0 0 61|sync|close 0|ls / @1|mkdir /c|mkdir /d|ls /|end|undo|begin|end|redo|ls /|begin|mkdir /e",
    ),
];

/// A line, by its first word, and what it asks.
#[derive(Drop)]
struct Asked<'a> {
    word: &'a str,
    ask: Ask,
}

/// The first words of the lines that were refused for want of memory, `mount` among them.
type Refused<'a> = Vec<&'a str>;

/// Runs a script in want of memory, and tells whether the oracle takes all that is answered, and what a
/// restart shows.
fn is_taken<'a>(
    alloc: Global,
    budget: &mut Budget,
    blocks: u32,
    script: &'a str,
    refused: &mut Refused<'a>,
) -> Result<bool, Fault> {
    let asked = asked_by(alloc, script)?;
    let sizes = Geometry {
        page: 256,
        pages: 16,
        blocks,
    };
    let mut flash = SimFlash::new(alloc, sizes, &[])?;
    format(alloc, &mut flash, 8)?;
    let mut oracle = Oracle::new(alloc, 8)?;
    if !is_run(alloc, budget, &mut flash, &asked, &mut oracle, refused)? {
        return Ok(false);
    }
    let shown = show_after_restart(alloc, &mut flash)?;
    oracle.restart(alloc, &shown)
}

/// What the lines of a script ask.
fn asked_by(alloc: Global, script: &str) -> Result<Vec<Asked<'_>>, Fault> {
    let mut asked = Vec::new(alloc);
    for line in script.split('|') {
        let ask = ask_of(alloc, line)?.ok_or(Fault::Invalid)?;
        let word = line.split(' ').next().unwrap_or("");
        asked.push(Asked { word, ask })?;
    }
    Ok(asked)
}

/// Whether the oracle takes what is told to a mount and to what is asked after it.
fn is_run<'a, 'e>(
    alloc: Global,
    budget: &mut Budget,
    flash: &mut SimFlash,
    asked: &'e [Asked<'a>],
    oracle: &mut Oracle<'e>,
    refused: &mut Refused<'a>,
) -> Result<bool, Fault> {
    let mut system = mount_in_want(alloc, budget, flash, refused)?;
    if !oracle.judge_mount(&Answer::Mounted, Causes::default()) {
        return Ok(false);
    }
    for Asked { word, ask } in asked {
        let told = ask_in_want(alloc, budget, &mut system, ask, word, refused)?;
        let causes = Causes {
            full: is_full(alloc, &mut system, oracle, ask, &told)?,
            ..Causes::default()
        };
        if !oracle.judge(alloc, ask, told, causes)? {
            return Ok(false);
        }
    }
    Ok(true)
}

/// Whether it was told that the flash is full where fewer blocks are free than are needed. The system is
/// asked nothing else, so that no node is kept in memory for the next line.
fn is_full(
    alloc: Global,
    system: &mut Fs<'_, SimFlash>,
    oracle: &Oracle<'_>,
    ask: &Ask,
    told: &Told,
) -> Result<bool, Fault> {
    if !matches!(told, Told::Answer(Answer::Refused(Fault::FlashFull))) {
        return Ok(false);
    }
    has_fewer_free(alloc, system, oracle.need(alloc, ask)?)
}

/// Mounts with more and more memory, until it is not refused for want of it.
fn mount_in_want<'f>(
    alloc: Global,
    budget: &mut Budget,
    flash: &'f mut SimFlash,
    refused: &mut Refused<'_>,
) -> Result<Fs<'f, SimFlash>, Fault> {
    for count in 0..MOST_BUDGETS {
        budget.leave(alloc, count * STEP);
        let mounted = mount(alloc, flash);
        budget.give_back();
        match mounted {
            Ok(system) => return Ok(Fs::on(alloc, flash, system)),
            Err(Fault::NoMemory) => refused.push("mount")?,
            Err(fault) => return Err(fault),
        }
    }
    Err(Fault::NoMemory)
}

/// Asks with more and more memory, until it is not refused for want of it.
fn ask_in_want<'a>(
    alloc: Global,
    budget: &mut Budget,
    system: &mut Fs<'_, SimFlash>,
    ask: &Ask,
    word: &'a str,
    refused: &mut Refused<'a>,
) -> Result<Told, Fault> {
    for count in 0..MOST_BUDGETS {
        budget.leave(alloc, count * STEP);
        let told = serve_mounted(alloc, system, ask);
        budget.give_back();
        if !matches!(told, Told::Answer(Answer::Refused(Fault::NoMemory))) {
            return Ok(told);
        }
        refused.push(word)?;
    }
    Err(Fault::NoMemory)
}

/// The words of lines that take memory and were never refused.
fn never_of(alloc: Global, refused: &[&str]) -> Result<Vec<&'static str>, AllocError> {
    let mut never = Vec::new(alloc);
    for word in TAKING {
        if !refused.contains(&word) {
            never.push(word)?;
        }
    }
    Ok(never)
}

#[test]
fn want_of_memory_changes_nothing(rt: HostRuntime) -> Result<(), Fail> {
    let mut budget = Budget::new(rt.alloc())?;
    let mut refused = Vec::new(rt.alloc());
    for (blocks, script) in SCRIPTS {
        assert!(rt;
            is_taken(rt.alloc(), &mut budget, blocks, script, &mut refused)?,
            "{script}"
        );
    }
    let is_bounded = budget.is_bounded;
    drop(budget);
    let never = never_of(rt.alloc(), &refused)?;
    assert!(rt; never.is_empty() || !is_bounded, "never refused: {never:?}");
    assert!(rt; refused.is_empty() || is_bounded);
    for word in FREE {
        assert!(rt; !refused.contains(&word), "{word}");
    }
    Ok(())
}

/// A file that is written a hundred times, under a checkpoint.
fn hundred_writes(alloc: Global) -> Result<String, Fault> {
    let mut script = "open /f 7|checkpoint v1".to_string(alloc)?;
    for number in 1..=100u8 {
        write!(script, "|pwrite 0 0 {number:02x}")?;
    }
    script.push_str("|close 0|rollback v1|stat /f|log|undo|read /f 0 1")?;
    Ok(script)
}

#[test]
fn want_of_memory_changes_nothing_in_a_hundred_writes(rt: HostRuntime) -> Result<(), Fail> {
    let script = hundred_writes(rt.alloc())?;
    let mut budget = Budget::new(rt.alloc())?;
    let mut refused = Vec::new(rt.alloc());
    assert!(rt; is_taken(rt.alloc(), &mut budget, 32, script.as_str(), &mut refused)?);
    Ok(())
}
