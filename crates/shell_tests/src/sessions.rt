//! Sessions of calls, steps of reclaiming and restarts, with ample memory: their whole logs.
use crate::flashes::{SIZES, formatted};
use flash_model::{FaultKind, Planned, PlannedFault};
use flash_simulation::SimFlash;
use fs_types::{Answer, Ask, Event, Fault};
use script::{Line, LineAnswer, print_answer, read_line};
use std::alloc::Global;
use std::process::Abort;
use std::test::Fail;
use undofs::{format, run_session};

/// The event that a line of a script spells.
fn event_of(alloc: Global, line: &str) -> Result<Event, Fault> {
    match read_line(alloc, line.as_bytes())? {
        Line::Ask(Ask::Event(event)) => Ok(event),
        _ => Err(Fault::Invalid),
    }
}

/// The events that the lines of a script spell.
fn events_of(alloc: Global, script: &str) -> Result<Vec<Event>, Fault> {
    let mut events = Vec::new(alloc);
    for line in script.lines() {
        events.push(event_of(alloc, line)?)?;
    }
    Ok(events)
}

/// Runs a session of the events that a script spells, and prints its log.
fn logged(alloc: Global, flash: &mut SimFlash, script: &str) -> Result<String, Fail> {
    let mut log = Vec::new(alloc);
    run_session(alloc, flash, &events_of(alloc, script)?, &mut log)?;
    printed(alloc, log)
}

/// The text of a log, a line for each answer.
fn printed(alloc: Global, log: Vec<Answer>) -> Result<String, Fail> {
    let mut text = Vec::new(alloc);
    for answer in log {
        print_answer(&mut text, &LineAnswer::Told(answer))?;
    }
    Ok(String::from_utf8(text)?)
}

/// A flash on which a session runs: formatted, where it is not erased, and with one operation that fails,
/// of those that were asked for since it was made. A format asks for two programs and no read.
#[derive(Clone, Copy)]
struct Begin {
    is_formatted: bool,
    fault: Option<PlannedFault>,
}

const FORMATTED: Begin = Begin {
    is_formatted: true,
    fault: None,
};

const ERASED: Begin = Begin {
    is_formatted: false,
    fault: None,
};

impl Begin {
    fn flash(self, alloc: Global) -> Result<SimFlash, Fault> {
        let mut flash = match self.fault {
            Some(fault) => SimFlash::new(alloc, SIZES, &[fault])?,
            None => SimFlash::new(alloc, SIZES, &[])?,
        };
        if self.is_formatted {
            format(alloc, &mut flash, 8)?;
        }
        Ok(flash)
    }
}

/// Sessions, each with its log.
///
/// A restart finds what was synced; after a sync that was cut, which is the eighth program, the record
/// before or the new one; nothing on an erased flash. A read of the first mount that fails is told, and a
/// restart after it mounts.
const SESSIONS: [(Begin, &str, &str); 12] = [
    (FORMATTED, "", "mounted\n"),
    (
        FORMATTED,
        "mkdir /a\nsync\nmkdir /b\nrestart\nls /\nlog\n",
        "mounted\nok\nok\nok\nmounted\nentries 1 a/\nlog next 3 dropped 0 versions 1 *2 checkpoints\n",
    ),
    (
        FORMATTED,
        "open /f 7\npwrite 0 0 6869\nfsync 0\npwrite 0 0 4a\nrestart\nclose 0\nread /f 0 9\nopen /f 1\nrestart\nundo\nstat /f\n",
        "mounted\nfd 0\nwrote 2\nok\nwrote 1\nmounted\nerr EBADF 10\ndata 6869\nfd 0\nmounted\nok\nfile 0\n",
    ),
    (
        FORMATTED,
        "mkdir /a\ncheckpoint v\nsync\nrmdir /a\ncheckpoint w\nrestart\nls / =v\nls / =w\nrmcheckpoint v\nrestart\nls / =v\nrollback v\n",
        "mounted\nok\nok\nok\nok\nok\nmounted\nentries 1 a/\nerr NOSUCHVERSION 20\nok\nmounted\nentries 1 a/\nok\n",
    ),
    (
        FORMATTED,
        "mkdir /a\nreclaim 2\nreclaim 2\nreclaim 3\nreclaim 0\n",
        "mounted\nok\nmore\ndone\ndone\nmore\n",
    ),
    (
        FORMATTED,
        "restart\nmkdir /a\nmkdir /b\nundo\nsync\nredo\nrestart\nrestart\nls /\nredo\nls /\n",
        "mounted\nmounted\nok\nok\nok\nok\nok\nmounted\nmounted\nentries 1 a/\nok\nentries 2 a/ b/\n",
    ),
    (
        Begin {
            is_formatted: true,
            fault: Some(PlannedFault {
                number: 8,
                kind: FaultKind::ProgramCutTorn,
            }),
        },
        "mkdir /a\nsync\nmkdir /b\nsync\nls /\nrestart\nls /\n",
        "mounted\nok\nok\nok\nerr POWERCUT 24\nerr POWERCUT 24\nmounted\nentries 1 a/\n",
    ),
    (
        Begin {
            is_formatted: true,
            fault: Some(PlannedFault {
                number: 8,
                kind: FaultKind::ProgramCutNone,
            }),
        },
        "mkdir /a\nsync\nmkdir /b\nsync\nls /\nrestart\nls /\n",
        "mounted\nok\nok\nok\nerr POWERCUT 24\nerr POWERCUT 24\nmounted\nentries 1 a/\n",
    ),
    (
        Begin {
            is_formatted: true,
            fault: Some(PlannedFault {
                number: 8,
                kind: FaultKind::ProgramCutWhole,
            }),
        },
        "mkdir /a\nsync\nmkdir /b\nsync\nls /\nrestart\nls /\n",
        "mounted\nok\nok\nok\nerr POWERCUT 24\nerr POWERCUT 24\nmounted\nentries 2 a/ b/\n",
    ),
    (
        ERASED,
        "ls /\nsync\nrestart\nundo\n",
        "err NORECORD 27\nunmounted\nunmounted\nerr NORECORD 27\nunmounted\n",
    ),
    (
        Begin {
            is_formatted: true,
            fault: Some(PlannedFault {
                number: 1,
                kind: FaultKind::ReadFail,
            }),
        },
        "mkdir /a\nrestart\nls /\n",
        "err EIO 23\nunmounted\nmounted\nentries 0\n",
    ),
    (
        Begin {
            is_formatted: true,
            fault: Some(PlannedFault {
                number: 1,
                kind: FaultKind::ReadCut,
            }),
        },
        "mkdir /a\nrestart\nls /\n",
        "err POWERCUT 24\nunmounted\nmounted\nentries 0\n",
    ),
];

/// Asserts that each session has its log.
fn assert_logs<R: Abort>(rt: &R, alloc: Global) -> Result<(), Fail> {
    for (begin, script, wanted) in SESSIONS {
        let mut flash = begin.flash(alloc)?;
        let log = logged(alloc, &mut flash, script)?;
        assert_eq!(rt; log.as_str(), wanted, "{script}");
    }
    Ok(())
}

/// Asserts that the first mount of a session does not put the power on, which a restart does.
fn assert_cut_before<R: Abort>(rt: &R, alloc: Global) -> Result<(), Fail> {
    let mut flash = formatted(alloc, SIZES, 8)?;
    let log = logged(alloc, &mut flash, "mkdir /a\nsync\nmkdir /b\n")?;
    assert_eq!(rt; log.as_str(), "mounted\nok\nok\nok\n");
    flash.plan_fault(1, FaultKind::EraseCutTorn)?;
    let log = logged(alloc, &mut flash, "ls /\nmkdir /c\nls /\n")?;
    let wanted = "mounted\nentries 1 a/\nerr POWERCUT 24\nerr POWERCUT 24\n";
    assert_eq!(rt; log.as_str(), wanted);
    let log = logged(alloc, &mut flash, "ls /\nrestart\nls /\n")?;
    let wanted = "err POWERCUT 24\nunmounted\nmounted\nentries 1 a/\n";
    assert_eq!(rt; log.as_str(), wanted);
    Ok(())
}

/// Asserts that answers which a log holds stay.
fn assert_log_goes_on<R: Abort>(rt: &R, alloc: Global) -> Result<(), Fail> {
    let mut flash = formatted(alloc, SIZES, 8)?;
    let mut log = Vec::new(alloc);
    log.push(Answer::Unmounted)?;
    log.push(Answer::Refused(Fault::Busy))?;
    let events = events_of(alloc, "mkdir /a\nrestart\n")?;
    run_session(alloc, &mut flash, &events, &mut log)?;
    let text = printed(alloc, log)?;
    let wanted = "unmounted\nerr EBUSY 12\nmounted\nok\nmounted\n";
    assert_eq!(rt; text.as_str(), wanted);
    Ok(())
}

#[test]
fn sessions_log_each_event(rt: HostRuntime) -> Result<(), Fail> {
    let alloc = rt.alloc();
    assert_logs(&rt, alloc)?;
    assert_cut_before(&rt, alloc)?;
    assert_log_goes_on(&rt, alloc)
}
