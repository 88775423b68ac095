//! Why a job of the program did not run to its end, with its status.
use crate::source_fault::SourceFault;
use flash_simulation::ImageFault;
use fs_types::Fault;
use host_interface::UnreadCause;
use part_file::PartFault;
use script_runs::{Refusal, ScriptFault, Stop};
use std::error::Error;
use std::io::Write;
use std::{fmt, io};

/// Why a job did not run to its end.
#[derive(Clone, Copy, Debug, PartialEq, Eq)]
pub enum Failure {
    /// The file of the image, or what a driver tells, could not be read.
    CannotRead,
    /// The file that is to be written is no plain file, another program has it, or to write it takes the
    /// image away. Nothing was done.
    Unavailable,
    /// The file of the image could not be written. It is as it was.
    CannotWrite,
    /// The file of the image is the new one, but was not brought to the disk.
    Unsynced,
    /// The input failed.
    Input,
    /// The output failed.
    Output,
    /// Memory could not be had.
    Memory,
    /// The file is no image.
    Image(ImageFault),
    /// The file is no part, or a page of it cannot be read.
    Part(PartFault),
    /// A format or a mount was refused.
    System(Fault),
    /// Something of the host is not put into an image. It was told with its name.
    Source(SourceFault),
    /// What is to be put is no folder, which the words want.
    NoFolder,
    /// What was asked for was refused.
    Refused(Refusal),
    /// More lines would be told than may be.
    TooManyLines,
    /// The script stopped at a refused line.
    Stopped(Stop),
    /// Two trees differ, which was told, and the status is to tell it.
    Differs,
}

impl Failure {
    ghost use Rattle.std.specs.Prelude.{◌≡◌};
    ghost use Rattle.image_jobs.specs.Failures.{failure_status, of_script, of_system, of_refusal, of_image, of_part};

    /// What it means, in words.
    fn text(self) -> &'static str {
        match self {
            Failure::CannotRead => "the image cannot be read",
            Failure::Unavailable => "the image is not to be had",
            Failure::CannotWrite => "the image cannot be written",
            Failure::Unsynced => "the image was not brought to the disk",
            Failure::Input => "input failed",
            Failure::Output => "output failed",
            Failure::Memory => "out of memory",
            Failure::Image(_) => "no image",
            Failure::Part(_) => "no part",
            Failure::System(_) => "no system",
            Failure::Source(_) => "not put",
            Failure::NoFolder => "not a folder",
            Failure::Refused(_) => "refused",
            Failure::TooManyLines => "too many lines",
            Failure::Stopped(_) => "stopped at a refused line",
            Failure::Differs => "the trees differ",
        }
    }

    /// By why a script ended.
    pub fn of_script(fault: ScriptFault) -> Failure
        ensures { result ≡ of_script fault }
    {
        match fault {
            ScriptFault::Mount(fault) => Failure::of_system(fault),
            ScriptFault::Read => Failure::Input,
            ScriptFault::Write => Failure::Output,
            ScriptFault::Memory => Failure::Memory,
        }
    }

    /// By why there is no system.
    pub fn of_system(fault: Fault) -> Failure
        ensures { result ≡ of_system fault }
    {
        match fault {
            Fault::NoMemory => Failure::Memory,
            _ => Failure::System(fault),
        }
    }

    /// By how a call was refused.
    pub fn of_refusal(refusal: Refusal) -> Failure
        ensures { result ≡ of_refusal refusal }
    {
        match refusal {
            Refusal::Fault(Fault::NoMemory) => Failure::Memory,
            _ => Failure::Refused(refusal),
        }
    }

    /// By why a file is no image.
    pub fn of_image(fault: ImageFault) -> Failure
        ensures { result ≡ of_image fault }
    {
        match fault {
            ImageFault::Memory => Failure::Memory,
            _ => Failure::Image(fault),
        }
    }

    /// By why a file is no part.
    pub fn of_part(fault: PartFault) -> Failure
        ensures { result ≡ of_part fault }
    {
        match fault {
            PartFault::Read => Failure::CannotRead,
            PartFault::Memory => Failure::Memory,
            _ => Failure::Part(fault),
        }
    }

    /// The status of the program: 3 where the image, the part, a format or a mount was refused, 4 where a
    /// call or a line of a script was, 5 where trees differ, 2 where the words want a folder, else 1.
    pub fn status(self) -> u8
        ensures { result ≡ failure_status self }
    {
        match self {
            Failure::Part(PartFault::Page(_)) => 1,
            Failure::Image(_) | Failure::Part(_) | Failure::System(_) => 3,
            Failure::Refused(_) | Failure::TooManyLines | Failure::Stopped(_) => 4,
            Failure::Differs => 5,
            Failure::NoFolder => 2,
            _ => 1,
        }
    }

    /// Writes the line that says why, with the name of what was to be read, and why it was not where that
    /// is known, or with the name of what was to be written.
    pub fn explain<E: Write>(
        self,
        read: &str,
        unread: Option<UnreadCause>,
        written: &str,
        err: &mut E,
    ) {
        let _ = match self {
            Failure::CannotRead => explain_unread(read, unread, err),
            Failure::Unavailable | Failure::CannotWrite | Failure::Unsynced => {
                writeln!(err, "uffs: cannot write {written}")
            }
            Failure::Input => writeln!(err, "uffs: input"),
            Failure::Output => writeln!(err, "uffs: output"),
            Failure::Memory => writeln!(err, "uffs: ENOMEM 25"),
            Failure::Image(fault) => writeln!(err, "uffs: image {fault}"),
            Failure::Part(fault) => explain_part(fault, read, err),
            Failure::System(fault) => explain_refusal(Refusal::Fault(fault), None, err),
            Failure::Source(_) | Failure::Differs => Ok(()),
            Failure::Refused(refusal) => explain_refusal(refusal, None, err),
            Failure::NoFolder => writeln!(err, "uffs: --mirror and --skip-links want a folder"),
            Failure::TooManyLines => writeln!(err, "uffs: TOOMANYLINES"),
            Failure::Stopped(stop) => explain_stop(stop, err),
        };
    }
}

/// Writes the line of a file that is no part, or of a page of it.
fn explain_part<E: Write>(fault: PartFault, read: &str, err: &mut E) -> io::Result<()> {
    match fault {
        PartFault::Page(page) => writeln!(err, "uffs: cannot read page {page} of {read}"),
        _ => writeln!(err, "uffs: part {fault}"),
    }
}

/// Writes the line of what cannot be read, with why where that is known.
pub fn explain_unread<E: Write>(
    name: &str,
    cause: Option<UnreadCause>,
    err: &mut E,
) -> io::Result<()> {
    match cause {
        Some(cause) => writeln!(err, "uffs: cannot read {name}: {cause}"),
        None => writeln!(err, "uffs: cannot read {name}"),
    }
}

/// Writes the line of what was refused, with what it was where that is named.
pub fn explain_refusal<E: Write>(
    refusal: Refusal,
    what: Option<&str>,
    err: &mut E,
) -> io::Result<()> {
    write_refusal(refusal, err)?;
    match what {
        Some(what) => writeln!(err, ": {what}"),
        None => writeln!(err),
    }
}

/// Writes the word of what was refused.
fn write_refusal<E: Write>(refusal: Refusal, err: &mut E) -> io::Result<()> {
    match refusal {
        Refusal::Fault(fault) => {
            let word = fault.word();
            let number = fault.number();
            write!(err, "uffs: {word} {number}")
        }
        Refusal::Syntax => write!(err, "uffs: SYNTAX"),
        Refusal::Unmounted => write!(err, "uffs: unmounted"),
    }
}

/// Writes the line of a script that stopped.
fn explain_stop<E: Write>(stop: Stop, err: &mut E) -> io::Result<()> {
    let line = stop.line;
    match stop.refusal {
        Refusal::Fault(fault) => {
            let word = fault.word();
            let number = fault.number();
            writeln!(err, "uffs: line {line}: {word} {number}")
        }
        Refusal::Syntax => writeln!(err, "uffs: line {line}: SYNTAX"),
        Refusal::Unmounted => writeln!(err, "uffs: line {line}: unmounted"),
    }
}

impl fmt::Display for Failure {
    fn fmt<W: fmt::Write>(&self, f: &mut fmt::Formatter<W>) -> fmt::Result {
        f.write_str(self.text())?;
        match self {
            Failure::Image(fault) => write!(f, ": {fault}"),
            Failure::Part(fault) => write!(f, ": {fault}"),
            Failure::System(fault) => write!(f, ": {fault}"),
            Failure::Source(fault) => write!(f, ": {fault}"),
            _ => Ok(()),
        }
    }
}

impl Error for Failure {}
