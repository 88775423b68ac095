//! The files of images.
use std::alloc::Global;
use thiserror::Error;

/// So many bytes of a file are read at most: one more than the bytes of the largest serial NOR part, of
/// 16,384 blocks, which are twice those of the flash on it. No image is as long.
pub const MOST_BYTES: u64 = 134_217_729;

/// Why a file was not claimed, read or replaced.
#[derive(Clone, Copy, Debug, PartialEq, Eq, Error)]
pub enum FileFault {
    /// The file failed, or is not to be had.
    #[error("the file failed")]
    Failed,
    /// The file was replaced, and may be the old one again after the host lost its power.
    #[error("the file was not brought to the disk")]
    Unsynced,
    /// Memory could not be had.
    #[error("out of memory")]
    Memory,
}

/// Why a file cannot be read.
#[derive(Clone, Copy, Debug, PartialEq, Eq, Error)]
pub enum UnreadCause {
    /// Nothing stands at its name.
    #[error("it is missing")]
    Missing,
    /// The host does not allow it.
    #[error("it may not be read")]
    Denied,
    /// It is a folder.
    #[error("it is a folder")]
    Folder,
    /// It is a fifo, a device or the like.
    #[error("it is neither a folder nor a plain file")]
    Special,
}

/// Why a file or a folder cannot be written.
#[derive(Debug, Drop, Error)]
pub enum UnwrittenCause {
    /// Another program has it, or its new file.
    #[error("another program has it")]
    InUse,
    /// The host does not allow it, or its mode lets nobody write.
    #[error("it may not be written")]
    Denied,
    /// It is a folder, and a file is to be written.
    #[error("it is a folder")]
    Folder,
    /// It is a fifo, a device or the like.
    #[error("it is neither a folder nor a plain file")]
    Special,
    /// Something stands where a folder is to be made, or by now where a file is that was missing.
    #[error("something stands there")]
    Standing,
    /// What stands at this name, where the new file or folder is made, is nobody's to remove but its owner's.
    #[error("{0} is in the way, remove it")]
    NewName(String),
    /// The folder in which it is to stand is missing.
    #[error("its folder is missing")]
    NoFolder,
    /// Nothing may be made in that folder.
    #[error("its folder may not be written")]
    FolderDenied,
    /// There is no room for it.
    #[error("the disk is full")]
    Full,
    /// The host allows no file of its size.
    #[error("it would be too large for the host")]
    TooLarge,
}

/// Files, by their names.
pub trait ImageFiles {
    ghost use Rattle.std.specs.Prelude.{◌≡◌, ◌⊎◌, None, List, ℕ, take, IfSome, IfOk, IfErr, OnOk};
    ghost use Rattle.host_interface.specs.Files.{Held, KeepsOthers, LeavesFile};
    ghost use Rattle.host_interface.specs.declared.image_files.FileFault.{FileFault};

    // The bytes of the file of a name, where they are known.
    ghost held: { Self → Held } = { λ _ _. None };

    // The name is claimed.
    ghost claims: { Self → List ℕ → Type 0 } = { λ _ _. Unit {0} };

    // A read of the file of this name gives these bytes, as the files are now.
    ghost reads: { Self → List ℕ → List ℕ → Type 0 } = { λ _ _ _. Unit {0} };

    // A read of this name that follows no link gives these bytes, as the files are now.
    ghost reads_source: { Self → List ℕ → List ℕ → Type 0 } = { λ _ _ _. Unit {0} };

    // What has this name is brought to the disk.
    ghost synced: { Self → List ℕ → Type 0 } = { λ _ _. Unit {0} };

    /// Claims a name: until it is replaced, another is claimed or the files are dropped, no other
    /// program that claims it has its file, if there is one. A name that is claimed before is let
    /// go of. Refused where the file is no plain file, or another program has it. No file changes.
    fn claim(&mut self, alloc: Global, name: &str) -> Result<(), FileFault>
        ensures ok { OnOk result (claims self.new name.now) }
        ensures same { held self.new ≡ held self.old };

    /// The bytes of a file, the first [`MOST_BYTES`] where it has more. Refused where it is no plain
    /// file. Where it fails they are not known.
    fn read(&self, alloc: Global, name: &str) -> Result<Vec<u8>, FileFault>
        ensures ok { IfOk result (λ bytes. IfSome (held self.now name.now) (λ all. bytes.items ≡ take MOST_BYTES all)) }
        ensures failed { IfErr result (λ fault. (fault ≡ FileFault.Memory) ⊎ (held self.now name.now ≡ None)) }
        ensures now { IfOk result (λ bytes. reads self.now name.now bytes.items) };

    /// The bytes of a file, as [`read`](ImageFiles::read) gives them. Refused where its name is a link too.
    fn read_source(&self, alloc: Global, name: &str) -> Result<Vec<u8>, FileFault>
        ensures ok { IfOk result (λ bytes. IfSome (held self.now name.now) (λ all. bytes.items ≡ take MOST_BYTES all)) }
        ensures failed { IfErr result (λ fault. (fault ≡ FileFault.Memory) ⊎ (held self.now name.now ≡ None)) }
        ensures now { IfOk result (λ bytes. reads_source self.now name.now bytes.items) };

    /// Whether to replace the file of a name takes the file of another name away, as the files tell: both
    /// names lead to one file, or the other leads to what stands where the new file is made. No clause
    /// says what it answers.
    fn takes_away(&self, alloc: Global, name: &str, other: &str) -> Result<bool, FileFault>;

    /// Why the file of a name cannot be read, as a look at it tells now; none where that tells nothing. No
    /// clause says what it answers.
    fn unread_cause(&self, _name: &str) -> Option<UnreadCause> {
        None
    }

    /// Why the file of a name, or a folder, was not written at the last call that was to write it, as a look
    /// and that call tell; none where they tell nothing, or for want of memory. No clause says what it
    /// answers.
    fn unwritten_cause(&self, _alloc: Global, _name: &str) -> Option<UnwrittenCause> {
        None
    }

    /// Puts a file of these bytes in the place of the one of this name, which is claimed, if there is
    /// one. Where that fails the file of this name stays as it was; where it is `Unsynced` it is the
    /// new one. Of the other files only the one under the name with `.new` after it may change.
    fn replace(&mut self, alloc: Global, name: &str, bytes: &[u8]) -> Result<(), FileFault>
        requires { claims self.old name.now }
        ensures ok { OnOk result (IfSome (held self.new name.now) (λ all. all ≡ bytes.now)) }
        ensures synced { OnOk result (synced self.new name.now) }
        ensures err { IfErr result (LeavesFile (held self.old name.now) (held self.new name.now) bytes.now) }
        ensures others { KeepsOthers name.now (held self.old) (held self.new) };
}
