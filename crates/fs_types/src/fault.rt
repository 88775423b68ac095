//! The refusals: why a call is not carried out.
ghost use Rattle.std.specs.Prelude.{◌≡◌};
ghost use Rattle.fs_types.specs.Faults.{number_of, word_of};

use std::alloc::{AllocError, AllocFailed};
use std::error::Error;
use std::fmt;

/// Why a call is refused. Each refusal has a number and a word.
///
/// Numbers 1 to 14, 16 and 23 are for the errors of POSIX.1-2017 that their words name. The three
/// refusals with the word `ENOSPC` are told apart by their numbers.
#[derive(Clone, Copy, Debug, PartialEq, Eq)]
pub enum Fault {
    /// A component of the path does not exist, or the path is empty.
    NoEntry,
    /// A component of the path that has to be a directory is a file.
    NotDirectory,
    /// The path names a directory where a file is wanted.
    IsDirectory,
    /// The name is there already.
    Exists,
    /// The directory has entries.
    NotEmpty,
    /// `unlink` of a directory.
    NotPermitted,
    /// An argument has no lawful form.
    Invalid,
    /// A component has over 64 bytes, or the path over 16 components.
    NameTooLong,
    /// The file would be longer than 16,777,216 bytes.
    TooBig,
    /// The number is no open descriptor, or not one that is open for this.
    BadDescriptor,
    /// All sixteen descriptors are open.
    TooManyOpen,
    /// An open descriptor, or the root, is in the way.
    Busy,
    /// The directory has 1,024 entries.
    DirectoryFull,
    /// There are sixteen checkpoints.
    CheckpointsFull,
    /// No block is left for what has to be written.
    FlashFull,
    /// The file system is in read-only mode.
    ReadOnly,
    /// The present version is the first that there ever was.
    NothingToUndo,
    /// The version was dropped from the history.
    TooOld,
    /// The present version is the last one kept.
    NothingToRedo,
    /// There is no version of this serial yet, or no checkpoint of this name.
    NoSuchVersion,
    /// A change after an undo gave the version up.
    Discarded,
    /// The next serial or sequence number would pass the greatest `u64`.
    Overflow,
    /// The device failed to read.
    ReadFailed,
    /// The device has no power.
    PowerCut,
    /// Memory could not be had.
    NoMemory,
    /// What the flash holds is not a file system of this kind.
    Damaged,
    /// No anchor holds a commit record.
    NoRecord,
    /// The geometry is out of range, or not that of the record.
    BadGeometry,
    /// Fewer than two anchors work.
    NoAnchors,
    /// No change group is open.
    NoGroup,
    /// A change group is open.
    InGroup,
}

impl Fault {
    /// What it means, in words.
    fn text(self) -> &'static str {
        match self {
            Fault::NoEntry => "no such file or directory",
            Fault::NotDirectory => "not a directory",
            Fault::IsDirectory => "is a directory",
            Fault::Exists => "exists already",
            Fault::NotEmpty => "directory not empty",
            Fault::NotPermitted => "operation not permitted",
            Fault::Invalid => "invalid argument",
            Fault::NameTooLong => "name too long",
            Fault::TooBig => "file too large",
            Fault::BadDescriptor => "bad descriptor",
            Fault::TooManyOpen => "too many open files",
            Fault::Busy => "busy",
            Fault::DirectoryFull => "directory full",
            Fault::CheckpointsFull => "checkpoints full",
            Fault::FlashFull => "flash full",
            Fault::ReadOnly => "read-only file system",
            Fault::NothingToUndo => "nothing to undo",
            Fault::TooOld => "version too old",
            Fault::NothingToRedo => "nothing to redo",
            Fault::NoSuchVersion => "no such version",
            Fault::Discarded => "version discarded",
            Fault::Overflow => "number overflow",
            Fault::ReadFailed => "device read failed",
            Fault::PowerCut => "power cut",
            Fault::NoMemory => "out of memory",
            Fault::Damaged => "damaged",
            Fault::NoRecord => "no commit record",
            Fault::BadGeometry => "bad geometry",
            Fault::NoAnchors => "no anchors",
            Fault::NoGroup => "no group",
            Fault::InGroup => "in a group",
        }
    }

    /// The number, from 1 to 31.
    pub fn number(self) -> u8
        ensures { result ≡ number_of self }
    {
        match self {
            Fault::NoEntry => 1,
            Fault::NotDirectory => 2,
            Fault::IsDirectory => 3,
            Fault::Exists => 4,
            Fault::NotEmpty => 5,
            Fault::NotPermitted => 6,
            Fault::Invalid => 7,
            Fault::NameTooLong => 8,
            Fault::TooBig => 9,
            Fault::BadDescriptor => 10,
            Fault::TooManyOpen => 11,
            Fault::Busy => 12,
            Fault::DirectoryFull => 13,
            Fault::CheckpointsFull => 14,
            Fault::FlashFull => 15,
            Fault::ReadOnly => 16,
            Fault::NothingToUndo => 17,
            Fault::TooOld => 18,
            Fault::NothingToRedo => 19,
            Fault::NoSuchVersion => 20,
            Fault::Discarded => 21,
            Fault::Overflow => 22,
            Fault::ReadFailed => 23,
            Fault::PowerCut => 24,
            Fault::NoMemory => 25,
            Fault::Damaged => 26,
            Fault::NoRecord => 27,
            Fault::BadGeometry => 28,
            Fault::NoAnchors => 29,
            Fault::NoGroup => 30,
            Fault::InGroup => 31,
        }
    }

    /// The word, in upper-case ASCII letters.
    pub fn word(self) -> &'static str
        ensures { result.now ≡ word_of self }
    {
        match self {
            Fault::NoEntry => "ENOENT",
            Fault::NotDirectory => "ENOTDIR",
            Fault::IsDirectory => "EISDIR",
            Fault::Exists => "EEXIST",
            Fault::NotEmpty => "ENOTEMPTY",
            Fault::NotPermitted => "EPERM",
            Fault::Invalid => "EINVAL",
            Fault::NameTooLong => "ENAMETOOLONG",
            Fault::TooBig => "EFBIG",
            Fault::BadDescriptor => "EBADF",
            Fault::TooManyOpen => "EMFILE",
            Fault::Busy => "EBUSY",
            Fault::DirectoryFull | Fault::CheckpointsFull | Fault::FlashFull => "ENOSPC",
            Fault::ReadOnly => "EROFS",
            Fault::NothingToUndo => "NOTHINGTOUNDO",
            Fault::TooOld => "TOOOLD",
            Fault::NothingToRedo => "NOTHINGTOREDO",
            Fault::NoSuchVersion => "NOSUCHVERSION",
            Fault::Discarded => "DISCARDED",
            Fault::Overflow => "EOVERFLOW",
            Fault::ReadFailed => "EIO",
            Fault::PowerCut => "POWERCUT",
            Fault::NoMemory => "ENOMEM",
            Fault::Damaged => "DAMAGED",
            Fault::NoRecord => "NORECORD",
            Fault::BadGeometry => "BADGEOMETRY",
            Fault::NoAnchors => "NOANCHORS",
            Fault::NoGroup => "NOGROUP",
            Fault::InGroup => "INGROUP",
        }
    }
}

impl From<AllocError> for Fault {
    ghost use Rattle.std.specs.Prelude.{◌≡◌};
    ghost use Rattle.fs_types.specs.declared.fault.Fault.TheVariants.{NoMemory};

    ghost from_gives = { λ _ fault. fault ≡ NoMemory };

    fn from(_error: AllocError) -> Fault {
        Fault::NoMemory
    }
}

impl<T: Drop> From<AllocFailed<T>> for Fault {
    ghost use Rattle.std.specs.Prelude.{◌≡◌};
    ghost use Rattle.fs_types.specs.declared.fault.Fault.TheVariants.{NoMemory};

    ghost from_gives = { λ _ fault. fault ≡ NoMemory };

    fn from(_failed: AllocFailed<T>) -> Fault {
        Fault::NoMemory
    }
}

impl fmt::Display for Fault {
    fn fmt<W: fmt::Write>(&self, f: &mut fmt::Formatter<W>) -> fmt::Result {
        f.write_str(self.text())
    }
}

impl Error for Fault {}
