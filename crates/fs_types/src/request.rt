//! A call that is lent by its caller.
ghost use Rattle.std.specs.Prelude.{◌≡◌};
ghost use Rattle.fs_types.specs.Requests.{call_of};

use crate::call::{Call, View};
use crate::cp_name::CpName;
use crate::name::Name;
use crate::named_file::NamedFile;
use crate::open_flags::OpenFlags;
use crate::path::Path;

/// A call whose paths, names and bytes are its caller's: what [`Call`] holds, lent.
#[derive(Clone, Copy)]
pub enum Request<'a> {
    Open {
        path: &'a Path,
        flags: OpenFlags,
    },
    Close {
        descriptor: u64,
    },
    Pread {
        descriptor: u64,
        offset: u64,
        count: u64,
    },
    Pwrite {
        descriptor: u64,
        offset: u64,
        bytes: &'a [u8],
    },
    Ftruncate {
        descriptor: u64,
        length: u64,
    },
    WriteFile {
        path: &'a Path,
        bytes: &'a [u8],
    },
    WriteFiles {
        directory: &'a Path,
        files: &'a [NamedFile],
    },
    Rename {
        old: &'a Path,
        new: &'a Path,
    },
    Unlink {
        path: &'a Path,
    },
    Mkdir {
        path: &'a Path,
    },
    Rmdir {
        path: &'a Path,
    },
    Fsync {
        descriptor: u64,
    },
    Sync,
    Stat {
        view: &'a View,
        path: &'a Path,
    },
    List {
        view: &'a View,
        path: &'a Path,
    },
    ReadAt {
        view: &'a View,
        path: &'a Path,
        offset: u64,
        count: u64,
    },
    Entries {
        view: &'a View,
        path: &'a Path,
        from: Option<&'a Name>,
        most: u64,
    },
    Log,
    Df,
    Undo,
    Redo,
    Goto {
        serial: u64,
    },
    Rollback {
        name: &'a CpName,
    },
    Forget {
        count: u64,
    },
    Checkpoint {
        name: &'a CpName,
    },
    RemoveCheckpoint {
        name: &'a CpName,
    },
    Begin,
    End,
    Abandon,
}

impl Call {
    /// The call, lent: nothing is copied.
    pub fn lend(&self) -> Request<'_>
        ensures { call_of result ≡ self.now }
    {
        match self {
            Call::Open { path, flags } => Request::Open {
                path,
                flags: *flags,
            },
            Call::Close { descriptor } => Request::Close {
                descriptor: *descriptor,
            },
            Call::Pread {
                descriptor,
                offset,
                count,
            } => Request::Pread {
                descriptor: *descriptor,
                offset: *offset,
                count: *count,
            },
            Call::Pwrite {
                descriptor,
                offset,
                bytes,
            } => Request::Pwrite {
                descriptor: *descriptor,
                offset: *offset,
                bytes: bytes.as_slice(),
            },
            Call::Ftruncate { descriptor, length } => Request::Ftruncate {
                descriptor: *descriptor,
                length: *length,
            },
            Call::WriteFile { path, bytes } => Request::WriteFile {
                path,
                bytes: bytes.as_slice(),
            },
            Call::WriteFiles { directory, files } => Request::WriteFiles {
                directory,
                files: files.as_slice(),
            },
            Call::Rename { old, new } => Request::Rename { old, new },
            Call::Unlink { path } => Request::Unlink { path },
            Call::Mkdir { path } => Request::Mkdir { path },
            Call::Rmdir { path } => Request::Rmdir { path },
            Call::Fsync { descriptor } => Request::Fsync {
                descriptor: *descriptor,
            },
            Call::Sync => Request::Sync,
            Call::Stat { view, path } => Request::Stat { view, path },
            Call::List { view, path } => Request::List { view, path },
            Call::ReadAt {
                view,
                path,
                offset,
                count,
            } => Request::ReadAt {
                view,
                path,
                offset: *offset,
                count: *count,
            },
            Call::Entries {
                view,
                path,
                from,
                most,
            } => Request::Entries {
                view,
                path,
                from: from.as_ref(),
                most: *most,
            },
            Call::Log => Request::Log,
            Call::Df => Request::Df,
            Call::Undo => Request::Undo,
            Call::Redo => Request::Redo,
            Call::Goto { serial } => Request::Goto { serial: *serial },
            Call::Rollback { name } => Request::Rollback { name },
            Call::Forget { count } => Request::Forget { count: *count },
            Call::Checkpoint { name } => Request::Checkpoint { name },
            Call::RemoveCheckpoint { name } => Request::RemoveCheckpoint { name },
            Call::Begin => Request::Begin,
            Call::End => Request::End,
            Call::Abandon => Request::Abandon,
        }
    }
}
