//! A folder in memory, in which one file is replaced.
ghost use Rattle.std.specs.Prelude.{◌≡◌, ◌≤◌, [], ◌∷◌, None, Some, if◌then◌else◌, length};

use file_replacement::FolderCalls;
use std::io;
use std::io::ErrorKind;

/// A call of a replacement.
#[derive(Clone, Copy, Debug, PartialEq, Eq)]
pub(crate) enum Step {
    Make,
    Write,
    TakeMode,
    SyncFile,
    Rename,
    SyncFolder,
}

/// A folder that renames only what was brought to the disk.
#[derive(Drop)]
pub(crate) struct MemoryFolder {
    /// The bytes that the name shows at first, which are on the disk.
    pub(crate) old: Vec<u8>,
    /// The bytes of the new file.
    pub(crate) bytes: Vec<u8>,
    pub(crate) has_new: bool,
    pub(crate) is_filed: bool,
    pub(crate) is_renamed: bool,
    pub(crate) is_settled: bool,
    pub(crate) has_failed: bool,
    pub(crate) is_unremoved: bool,
    /// So many bytes are written at once at most.
    pub(crate) most: usize,
    /// The call that fails, if one does.
    pub(crate) failing: Option<Step>,
    /// Whether the removal fails.
    pub(crate) keeps_new: bool,
}

impl MemoryFolder {
    /// What the name shows.
    pub(crate) fn shown(&self) -> &[u8] {
        if self.is_renamed {
            &self.bytes
        } else {
            &self.old
        }
    }
}

/// So many bytes are written of some.
fn count_of(most: usize, bytes: &[u8]) -> usize
    ensures { result ≤ length bytes.now }
{
    if most < bytes.len() {
        most
    } else {
        bytes.len()
    }
}

fn refused() -> io::Error {
    io::Error::from(ErrorKind::StorageFull)
}

impl FolderCalls for MemoryFolder {
    ghost use Rattle.file_replacement.specs.Folder.{Exactly, Anything};

    ghost folder = { λ m. Some (record {
      shown = Some (if m.is_renamed then m.bytes.items else m.old.items);
      beside = if m.has_new then Some m.bytes.items else None;
      others = λ _. None;
      file = if m.is_filed then Exactly m.bytes.items else Anything;
      left = if m.is_renamed then (if m.is_settled then Exactly m.bytes.items ∷ [] else Exactly m.old.items ∷ Exactly m.bytes.items ∷ []) else Exactly m.old.items ∷ [];
      ever = if m.is_renamed then Exactly m.old.items ∷ Exactly m.bytes.items ∷ [] else Exactly m.old.items ∷ [];
      has_failed = m.has_failed;
      is_unremoved = m.is_unremoved;
    }) };

    fn make(&mut self) -> io::Result<()> {
        if self.failing == Some(Step::Make) || self.is_renamed {
            self.has_failed = true;
            return Err(refused());
        }
        self.bytes.clear();
        self.has_new = true;
        self.is_filed = false;
        Ok(())
    }

    fn write(&mut self, bytes: &[u8]) -> io::Result<usize> {
        self.is_filed = false;
        if self.failing == Some(Step::Write) || self.is_renamed {
            self.has_failed = true;
            return Err(refused());
        }
        let count = count_of(self.most, bytes);
        if self.bytes.extend_from_slice(&bytes[..count]).is_err() {
            self.has_failed = true;
            return Err(refused());
        }
        if count == 0 {
            self.has_failed = true;
        }
        Ok(count)
    }

    fn take_mode(&mut self) -> io::Result<()> {
        if self.failing == Some(Step::TakeMode) {
            self.has_failed = true;
            return Err(refused());
        }
        Ok(())
    }

    fn sync_file(&mut self) -> io::Result<()> {
        if self.failing == Some(Step::SyncFile) || !self.has_new {
            self.has_failed = true;
            self.is_filed = false;
            return Err(refused());
        }
        self.is_filed = true;
        Ok(())
    }

    fn rename(&mut self) -> io::Result<()> {
        if self.failing == Some(Step::Rename)
            || self.is_renamed
            || !self.has_new
            || !self.is_filed
        {
            self.has_failed = true;
            return Err(refused());
        }
        self.is_renamed = true;
        self.is_settled = false;
        self.has_new = false;
        Ok(())
    }

    fn remove(&mut self) -> io::Result<()> {
        if self.keeps_new {
            self.has_failed = true;
            self.is_unremoved = true;
            return Err(refused());
        }
        self.has_new = false;
        Ok(())
    }

    fn sync_folder(&mut self) -> io::Result<()> {
        if self.failing == Some(Step::SyncFolder) {
            self.has_failed = true;
            return Err(refused());
        }
        if self.is_renamed {
            self.is_settled = true;
        }
        Ok(())
    }
}
