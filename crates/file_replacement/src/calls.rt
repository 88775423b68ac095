//! The calls of the host by which a file is replaced.
ghost use Rattle.std.specs.Prelude.{◌≡◌, ◌≤◌, Option, length, IfOk, OnOk, OnErr};
ghost use Rattle.file_replacement.specs.Folder.{Folder, Leads, HasNew, IsMade, IsUnmade, Writes, FailsWrite, IsSame, Fails, IsFiled, IsUnfiled, IsRenamed, IsRemoved, IsUnremoved, IsSettled};

use std::io;

/// The calls of the host by which the file of one name is replaced: a new file is made beside it under a
/// name of its own, written and brought to the disk, and gets the name.
pub trait FolderCalls {
    // What the folder shows and what a power cut may leave of it, where that is known.
    ghost folder: { Self → Option Folder };

    /// Makes the new file, with no bytes. What stands at its name is removed first. Where it fails, what
    /// stood there stays or is gone.
    fn make(&mut self) -> io::Result<()>
        ensures ok { OnOk result (Leads IsMade (folder self.old) (folder self.new)) }
        ensures err { OnErr result (Leads IsUnmade (folder self.old) (folder self.new)) };

    /// Writes bytes at the end of the new file, and answers how many of them, from the first on. One that
    /// takes none counts as a call that failed. Where it fails nothing is known of the file's bytes.
    fn write(&mut self, bytes: &[u8]) -> io::Result<usize>
        requires { HasNew (folder self.old) }
        ensures bound { IfOk result (λ count. count ≤ length bytes.now) }
        ensures ok { IfOk result (λ count. Leads (Writes count bytes.now) (folder self.old) (folder self.new)) }
        ensures err { OnErr result (Leads FailsWrite (folder self.old) (folder self.new)) };

    /// Gives the new file the mode of the one that it is to replace, if there is one.
    fn take_mode(&mut self) -> io::Result<()>
        ensures ok { OnOk result (Leads IsSame (folder self.old) (folder self.new)) }
        ensures err { OnErr result (Leads Fails (folder self.old) (folder self.new)) };

    /// Brings the bytes of the new file to the disk.
    fn sync_file(&mut self) -> io::Result<()>
        ensures ok { OnOk result (Leads IsFiled (folder self.old) (folder self.new)) }
        ensures err { OnErr result (Leads IsUnfiled (folder self.old) (folder self.new)) };

    /// Gives the new file the name. Where it fails nothing changed.
    fn rename(&mut self) -> io::Result<()>
        ensures ok { OnOk result (Leads IsRenamed (folder self.old) (folder self.new)) }
        ensures err { OnErr result (Leads Fails (folder self.old) (folder self.new)) };

    /// Removes the new file. Where it fails nothing changed.
    fn remove(&mut self) -> io::Result<()>
        ensures ok { OnOk result (Leads IsRemoved (folder self.old) (folder self.new)) }
        ensures err { OnErr result (Leads IsUnremoved (folder self.old) (folder self.new)) };

    /// Brings the names of the folder to the disk.
    fn sync_folder(&mut self) -> io::Result<()>
        ensures ok { OnOk result (Leads IsSettled (folder self.old) (folder self.new)) }
        ensures err { OnErr result (Leads Fails (folder self.old) (folder self.new)) };
}
