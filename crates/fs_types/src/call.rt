//! The calls of a file system, and what they answer.
use crate::cp_name::CpName;
use crate::name::Name;
use crate::named_file::NamedFile;
use crate::open_flags::OpenFlags;
use crate::path::Path;
use crate::sequence::{Bytes, Sequence};

/// Which tree a reading call looks at.
#[derive(Debug, Drop)]
pub enum View {
    /// The present version's.
    Present,
    /// That of the version with this serial.
    Serial(u64),
    /// That of the checkpoint with this name.
    Checkpoint(CpName),
}

/// What stands at a path.
#[derive(Clone, Copy, Debug, PartialEq, Eq)]
pub enum Stat {
    /// A directory, with its number of entries, at most 1,024.
    Dir(u64),
    /// A file, with its length in bytes, at most 16,777,216.
    File(u64),
}

/// A kept version: its serial number, and the root of its tree.
#[derive(Clone, Copy, Debug, Drop)]
pub struct Version<R> {
    pub serial: u64,
    pub root: R,
}

/// A change group: the root of the tree that its calls work on, and whether one of them changed that,
/// so that a version is due at the group's end.
#[derive(Clone, Copy, Debug, Drop)]
pub struct Group<R> {
    pub root: R,
    pub is_due: bool,
}

/// A call. Descriptors are numbers as a caller gives them; those that are open are 0 to 15.
#[derive(Debug, Drop)]
pub enum Call {
    /// `open`: a descriptor for the file at a path.
    Open {
        path: Path,
        flags: OpenFlags,
    },
    /// `close` of a descriptor.
    Close {
        descriptor: u64,
    },
    /// `pread`: at most `count` bytes from `offset` on.
    Pread {
        descriptor: u64,
        offset: u64,
        count: u64,
    },
    /// `pwrite`: all of these bytes at `offset`.
    Pwrite {
        descriptor: u64,
        offset: u64,
        bytes: Bytes,
    },
    /// `ftruncate`: the file's length in bytes becomes this.
    Ftruncate {
        descriptor: u64,
        length: u64,
    },
    /// `write_file`: the file at a path, which is made or replaced, has exactly these bytes.
    WriteFile {
        path: Path,
        bytes: Bytes,
    },
    /// `write_files`: each of these files of one directory, which is made or replaced, has exactly its
    /// bytes.
    WriteFiles {
        directory: Path,
        files: Sequence<NamedFile>,
    },
    /// `rename`: what stands at `old` moves to `new`.
    Rename {
        old: Path,
        new: Path,
    },
    /// `unlink`: the file is removed.
    Unlink {
        path: Path,
    },
    /// `mkdir`: an empty directory is made.
    Mkdir {
        path: Path,
    },
    /// `rmdir`: the empty directory is removed.
    Rmdir {
        path: Path,
    },
    /// `fsync`: all is committed, as by `Sync`.
    Fsync {
        descriptor: u64,
    },
    /// The working state is committed.
    Sync,
    /// What stands at a path.
    Stat {
        view: View,
        path: Path,
    },
    /// The names in a directory, in byte order.
    List {
        view: View,
        path: Path,
    },
    /// At most `count` bytes of a file from `offset` on.
    ReadAt {
        view: View,
        path: Path,
        offset: u64,
        count: u64,
    },
    /// At most `most` entries of a directory, in byte order of their names: those after the name `from`,
    /// or from the first one on.
    Entries {
        view: View,
        path: Path,
        from: Option<Name>,
        most: u64,
    },
    /// The history.
    Log,
    /// How much of the flash is free.
    Df,
    /// The version before becomes the present one.
    Undo,
    /// The version after becomes the present one.
    Redo,
    /// The version with this serial becomes the present one.
    Goto {
        serial: u64,
    },
    /// A change to the tree of a checkpoint.
    Rollback {
        name: CpName,
    },
    /// The `count` oldest versions are dropped.
    Forget {
        count: u64,
    },
    /// The present tree is kept under a name.
    Checkpoint {
        name: CpName,
    },
    /// The checkpoint of this name is given up.
    RemoveCheckpoint {
        name: CpName,
    },
    /// A group of changes begins with the present tree.
    Begin,
    /// The group ends: its tree becomes one version, where a call in it would have made one.
    End,
    /// The group ends, and its tree is given up.
    Abandon,
}

/// What an accepted call answers.
#[derive(Debug, Drop)]
pub enum Reply {
    /// Nothing to tell.
    Empty,
    /// The descriptor, 0 to 15.
    Fd(u8),
    /// Bytes of a file.
    Bytes(Bytes),
    /// How many bytes were written.
    Count(u64),
    /// What stands at the path.
    Stat(Stat),
    /// The names of a directory in byte order, each with whether it is a directory.
    Names(Sequence<(Name, bool)>),
    /// Entries of a directory by their names in byte order, each with what stands there.
    Entries(Sequence<(Name, Stat)>),
    /// The history: the next serial, whether versions were dropped, the kept serials, the place of
    /// the present one among them, and the names of the checkpoints in byte order.
    Log {
        next: u64,
        dropped: bool,
        versions: Sequence<u64>,
        cursor: u64,
        checkpoints: Sequence<CpName>,
    },
    /// Data blocks, bad ones among them, free ones among them, and anchors that work.
    Df {
        blocks: u64,
        bad: u64,
        free: u64,
        anchors: u64,
    },
    /// Whether the step was the pass's last.
    Step(bool),
}
