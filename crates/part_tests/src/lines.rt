//! Lines of scripts, and streams that fail.
use fs_types::{Ask, Call, Event};
use script::{LINE_LIMIT, Line, LineReader, Taken, read_line, write_out};
use std::alloc::{AllocError, Global};
use std::io;
use std::io::{ErrorKind, Read, Write};
use std::test::Fail;

const LINES: [(&str, &str); 84] = [
    (
        "open /f 7",
        "Ask(Event(Call(Open { path: Path { names: [Name { bytes: [102] }] }, flags: OpenFlags(7) })))",
    ),
    (
        "open /f 18446744073709551615",
        "Ask(Event(Call(Open { path: Path { names: [Name { bytes: [102] }] }, flags: OpenFlags(18446744073709551615) })))",
    ),
    ("open /f 18446744073709551616", "Syntax"),
    ("close 0", "Ask(Event(Call(Close { descriptor: 0 })))"),
    ("close 00", "Syntax"),
    ("close 01", "Syntax"),
    ("close", "Syntax"),
    ("close 0 ", "Syntax"),
    ("close  0", "Syntax"),
    ("close +1", "Syntax"),
    (
        "pread 0 4999 9",
        "Ask(Event(Call(Pread { descriptor: 0, offset: 4999, count: 9 })))",
    ),
    (
        "pwrite 0 5000 4fFa",
        "Ask(Event(Call(Pwrite { descriptor: 0, offset: 5000, bytes: Sequence { items: [79, 250] } })))",
    ),
    (
        "pwrite 0 5000 -",
        "Ask(Event(Call(Pwrite { descriptor: 0, offset: 5000, bytes: Sequence { items: [] } })))",
    ),
    ("pwrite 0 5000 4", "Syntax"),
    ("pwrite 0 5000 4g", "Syntax"),
    ("pwrite 0 5000 ", "Syntax"),
    (
        "ftruncate 0 4",
        "Ask(Event(Call(Ftruncate { descriptor: 0, length: 4 })))",
    ),
    (
        "write /f 4fFa",
        "Ask(Event(Call(WriteFile { path: Path { names: [Name { bytes: [102] }] }, bytes: Sequence { items: [79, 250] } })))",
    ),
    (
        "write / -",
        "Ask(Event(Call(WriteFile { path: Path { names: [] }, bytes: Sequence { items: [] } })))",
    ),
    ("write /f", "Syntax"),
    ("write f 4", "Syntax"),
    ("write f 41", "Refused(Invalid)"),
    ("write - 41", "Refused(NoEntry)"),
    (
        "rename /a /b",
        "Ask(Event(Call(Rename { old: Path { names: [Name { bytes: [97] }] }, new: Path { names: [Name { bytes: [98] }] } })))",
    ),
    ("rename - b", "Refused(NoEntry)"),
    ("rename b -", "Refused(Invalid)"),
    ("rename b %", "Syntax"),
    (
        "unlink /f",
        "Ask(Event(Call(Unlink { path: Path { names: [Name { bytes: [102] }] } })))",
    ),
    (
        "mkdir /a/b",
        "Ask(Event(Call(Mkdir { path: Path { names: [Name { bytes: [97] }, Name { bytes: [98] }] } })))",
    ),
    (
        "mkdir /%6a%4A",
        "Ask(Event(Call(Mkdir { path: Path { names: [Name { bytes: [106, 74] }] } })))",
    ),
    ("mkdir -", "Refused(NoEntry)"),
    ("mkdir /a/", "Refused(Invalid)"),
    ("mkdir //a", "Refused(Invalid)"),
    ("mkdir /%00", "Refused(Invalid)"),
    ("mkdir /%0", "Syntax"),
    ("mkdir /%0g", "Syntax"),
    ("mkdir ", "Syntax"),
    (
        "mkdir /a/a/a/a/a/a/a/a/a/a/a/a/a/a/a/a/a",
        "Refused(NameTooLong)",
    ),
    ("mkdir /a\t", "Syntax"),
    (
        "rmdir /",
        "Ask(Event(Call(Rmdir { path: Path { names: [] } })))",
    ),
    ("fsync 0", "Ask(Event(Call(Fsync { descriptor: 0 })))"),
    ("sync", "Ask(Event(Call(Sync)))"),
    ("sync 0", "Syntax"),
    (
        "stat /",
        "Ask(Event(Call(Stat { view: Present, path: Path { names: [] } })))",
    ),
    (
        "ls /",
        "Ask(Event(Call(List { view: Present, path: Path { names: [] } })))",
    ),
    (
        "ls / @1",
        "Ask(Event(Call(List { view: Serial(1), path: Path { names: [] } })))",
    ),
    (
        "ls / =v1",
        "Ask(Event(Call(List { view: Checkpoint(CpName { bytes: [118, 49] }), path: Path { names: [] } })))",
    ),
    ("ls / @", "Syntax"),
    ("ls / =", "Syntax"),
    ("ls / =-", "Refused(Invalid)"),
    ("ls - =-", "Refused(NoEntry)"),
    ("ls / v1", "Syntax"),
    (
        "read /f 0 1",
        "Ask(Event(Call(ReadAt { view: Present, path: Path { names: [Name { bytes: [102] }] }, offset: 0, count: 1 })))",
    ),
    (
        "read /f 0 1 @3",
        "Ask(Event(Call(ReadAt { view: Serial(3), path: Path { names: [Name { bytes: [102] }] }, offset: 0, count: 1 })))",
    ),
    (
        "entries / - 5",
        "Ask(Event(Call(Entries { view: Present, path: Path { names: [] }, from: None, most: 5 })))",
    ),
    (
        "entries / %2D 0 @3",
        "Ask(Event(Call(Entries { view: Serial(3), path: Path { names: [] }, from: Some(Name { bytes: [45] }), most: 0 })))",
    ),
    ("entries / . 5", "Refused(Invalid)"),
    ("entries - . 5", "Refused(NoEntry)"),
    ("entries / -", "Syntax"),
    ("undo", "Ask(Event(Call(Undo)))"),
    ("redo", "Ask(Event(Call(Redo)))"),
    ("goto 4", "Ask(Event(Call(Goto { serial: 4 })))"),
    (
        "rollback v1",
        "Ask(Event(Call(Rollback { name: CpName { bytes: [118, 49] } })))",
    ),
    ("forget 3", "Ask(Event(Call(Forget { count: 3 })))"),
    (
        "checkpoint v1",
        "Ask(Event(Call(Checkpoint { name: CpName { bytes: [118, 49] } })))",
    ),
    ("checkpoint -", "Refused(Invalid)"),
    (
        "rmcheckpoint v1",
        "Ask(Event(Call(RemoveCheckpoint { name: CpName { bytes: [118, 49] } })))",
    ),
    ("log", "Ask(Event(Call(Log)))"),
    ("df", "Ask(Event(Call(Df)))"),
    ("space", "Ask(Space)"),
    ("space 1", "Syntax"),
    ("forgetfree 5", "Ask(ForgetFree(5))"),
    ("forgetfree", "Syntax"),
    ("reclaim 5", "Ask(Event(ReclaimStep(5)))"),
    ("clean 5", "Ask(Event(CleanStep(5)))"),
    ("prepare 5", "Ask(Event(PrepareStep(5)))"),
    ("prepare", "Syntax"),
    ("prepare 5 5", "Syntax"),
    ("restart", "Ask(Event(Restart))"),
    (
        "fault 1 program-fail",
        "PlanFault { k: 1, kind: ProgramFail }",
    ),
    ("fault 0 erase-fail", "PlanFault { k: 0, kind: EraseFail }"),
    ("fault 1 fail", "Syntax"),
    ("", "Syntax"),
    ("format", "Syntax"),
];

/// The first line that is not read as its row says.
fn first_misread<'a>(alloc: Global, rows: &[(&'a str, &str)]) -> Result<Option<&'a str>, Fail> {
    for (line, wanted) in rows {
        let read = read_line(alloc, line.as_bytes())?;
        let read = format!(in alloc; "{read:?}")?;
        if read.as_str() != *wanted {
            return Ok(Some(line));
        }
    }
    Ok(None)
}

/// The longest line that can be read: a `pwrite` of 32,762 bytes.
fn longest_line(alloc: Global) -> Result<Vec<u8>, AllocError> {
    let mut line = b"pwrite 9 10 ".to_vec(alloc)?;
    for _ in 0..32_762 {
        line.extend_from_slice(b"a7")?;
    }
    Ok(line)
}

/// How many bytes a line writes, where it is this `pwrite` and each byte is 0xa7.
fn written(line: &Line) -> Option<usize> {
    match line {
        Line::Ask(
            Ask::Event(
                Event::Call(
                    Call::Pwrite {
                        descriptor: 9,
                        offset: 10,
                        bytes,
                    },
                ),
            ),
        ) if bytes.as_slice().iter().all(|byte| *byte == 0xa7) => Some(bytes.as_slice().len()),
        _ => None,
    }
}

#[test]
fn lines_are_read(rt: HostRuntime) -> Result<(), Fail> {
    assert_eq!(rt; first_misread(rt.alloc(), &LINES)?, None);
    let mut line = longest_line(rt.alloc())?;
    assert_eq!(rt; line.len(), LINE_LIMIT);
    assert_eq!(rt; written(&read_line(rt.alloc(), &line)?), Some(32_762));
    line.push(b'a')?;
    let longer = read_line(rt.alloc(), &line)?;
    assert!(rt; matches!(longer, Line::Syntax), "a line of 65,537 bytes");
    Ok(())
}

/// Gives bytes one at a time: first an interruption, and at the end an error.
#[derive(Drop)]
struct Failing<'a>(&'a [u8], bool);

impl Read for Failing<'_> {
    fn read(&mut self, buf: &mut [u8]) -> io::Result<usize> {
        if !self.1 {
            self.1 = true;
            return Err(io::Error::from(ErrorKind::Interrupted));
        }
        match self.0.read(buf) {
            Ok(0) => Err(io::Error::from(ErrorKind::BrokenPipe)),
            other => other,
        }
    }
}

impl Write for Failing<'_> {
    fn write(&mut self, buf: &[u8]) -> io::Result<usize> {
        if !self.1 {
            self.1 = true;
            return Err(io::Error::from(ErrorKind::Interrupted));
        }
        match self.0 {
            [] => Err(io::Error::from(ErrorKind::BrokenPipe)),
            [_, rest @ ..] => {
                self.0 = rest;
                Ok(buf.len().min(1))
            }
        }
    }

    fn flush(&mut self) -> io::Result<()> {
        Ok(())
    }
}

/// One line of the greatest length, an empty one, one that is too long, and one that ends with the input.
fn long_input(alloc: Global) -> Result<Vec<u8>, AllocError> {
    let mut input = vec![in alloc; b'x'; LINE_LIMIT]?;
    input.extend_from_slice(b"\n\n")?;
    for _ in 0..=LINE_LIMIT {
        input.push(b'x')?;
    }
    input.extend_from_slice(b"\nsync")?;
    Ok(input)
}

/// What a reader of lines takes next, with the length of its line; none where the stream fails.
fn next_taken<R: Read>(lines: &mut LineReader, reader: &mut R) -> Option<(Taken, usize)> {
    match lines.next_line(reader) {
        Ok(taken) => Some((taken, lines.line().len())),
        Err(_) => None,
    }
}

#[test]
fn streams(rt: HostRuntime) -> Result<(), Fail> {
    let input = long_input(rt.alloc())?;
    let mut reader = input.as_slice();
    let mut lines = LineReader::new(rt.alloc())?;
    for wanted in [(Taken::Line, LINE_LIMIT), (Taken::Line, 0)] {
        assert_eq!(rt; next_taken(&mut lines, &mut reader), Some(wanted));
    }
    let long = next_taken(&mut lines, &mut reader).map(|(taken, _)| taken);
    assert_eq!(rt; long, Some(Taken::TooLong));
    assert_eq!(rt; next_taken(&mut lines, &mut reader), Some((Taken::Line, 4)));
    assert_eq!(rt; lines.line(), b"sync".as_slice());
    let end = next_taken(&mut lines, &mut reader).map(|(taken, _)| taken);
    assert_eq!(rt; end, Some(Taken::End));
    Ok(())
}

#[test]
fn failures(rt: HostRuntime) -> Result<(), Fail> {
    let mut lines = LineReader::new(rt.alloc())?;
    let mut reader = Failing(b"undo\nre", false);
    assert_eq!(rt; lines.next_line(&mut reader)?, Taken::Line);
    assert_eq!(rt; lines.line(), b"undo".as_slice());
    assert!(rt; lines.next_line(&mut reader).is_err());
    assert!(rt; lines.next_line(&mut reader).is_err());

    let mut out = Vec::new(rt.alloc());
    write_out(&mut out, b"ok\n")?;
    assert_eq!(rt; out.as_slice(), b"ok\n".as_slice());
    assert!(rt; write_out(&mut Failing(b"xxx", false), b"ok\n").is_ok());
    assert!(rt; write_out(&mut Failing(b"xx", false), b"ok\n").is_err());
    Ok(())
}
