//! A mounted file system.
ghost use Rattle.std.specs.Prelude.{◌≡◌};
ghost use Rattle.working_state.specs.Steps.{replied, empty};
ghost use Rattle.system.specs.Systems.{IsSystem};
ghost use Rattle.system.specs.Props.{system-prop};

use crate::descriptor::Descriptor;
use crate::log::Log;
use crate::refused_mount::RefusedMount;
use crate::space::Space;
use flash_model::{FaultKind, Flash, Planned};
use fs_types::{
    Bytes, Call, CpName, Fault, Name, NamedFile, OpenFlags, Path, Reply, Request, Sequence, Stat,
    View,
};
use std::alloc::Global;
use system::{HistorySpace, System, mount, mount_with};
use tree_counts::TreeSize;

/// A file system that is mounted on a flash.
///
/// Each call checks in order: [`Fault::PowerCut`] where a call answered that before; the refusals of
/// its own in the order of docs/scripts.md; [`Fault::ReadOnly`] in read-only mode, which is on while
/// at least seven anchors or 256 blocks are bad; [`Fault::Overflow`] where no serial is left; and then
/// what the work meets: [`Fault::FlashFull`], [`Fault::ReadOnly`], [`Fault::ReadFailed`],
/// [`Fault::PowerCut`], [`Fault::NoMemory`]. A refused call changes nothing.
#[derive(Drop)]
pub struct Fs<'f, F: Flash> {
    flash: &'f mut F,
    system: System,
    /// The allocator of the calls that are passed none.
    alloc: Global,
    ghost mounted: { IsSystem (F.device flash.now) system } by { system-prop (F.device flash.now) system },
}

impl<'f, F: Flash> Fs<'f, F> {
    ghost use Rattle.std.specs.Prelude.{ℕ, ◌<◌, ◌≢◌, ◌↔◌, ◌⊎◌, true, Err, IfOk, IfErr, IsErrAnd};
    ghost use Rattle.std.specs.Option.{option_copied};
    ghost use Rattle.node_store.specs.declared.node_cache.TheConstants.{MAX_CACHED_NODES};
    ghost use Rattle.fs_types.specs.Requests.{call_of};
    ghost use Rattle.fs_types.specs.declared.fault.Fault.{Fault};
    ghost use Rattle.fs_types.specs.declared.call.Call.{Call};
    ghost use Rattle.fs_types.specs.declared.call.Reply.{Reply};
    ghost use Rattle.flash_model.specs.Device.{Device};
    ghost use Rattle.flash_model.specs.Reading.{OnlyReads};
    ghost use Rattle.working_state.specs.Leaves.{is_still};
    ghost use Rattle.working_state.specs.Looking.{only_looks};
    ghost use Rattle.system.specs.Cleaning.{Cleans};
    ghost use Rattle.system.specs.DifferingTrees.{TellsDiffering};
    ghost use Rattle.system.specs.HistorySpace.{ForgetsUntil};
    ghost use Rattle.system.specs.Moments.{system_moment};
    ghost use Rattle.system.specs.Mounts.{AsksToMount};
    ghost use Rattle.system.specs.Mounts.{IsMountOf};
    ghost use Rattle.system.specs.Preparing.{PreparesAhead};
    ghost use Rattle.system.specs.Reclaiming.{Reclaims};
    ghost use Rattle.system.specs.TreeSizes.{TellsSize, ShowRoots, RefusesRoots};
    ghost use Rattle.system.specs.VersionSpace.{AsksTwice, TellsHistorySpace};
    ghost use Rattle.mounting.specs.Records.{working_roots};
    ghost use Rattle.fs_types.specs.declared.limits.TheConstants.{MOUNTED_NODES};
    ghost use Rattle.undofs.specs.Refusals.{RefusesMount};
    ghost use Rattle.undofs.specs.Values.{descriptor_reply, log_reply, space_reply};
    ghost use Rattle.undofs.specs.Systems.{moment_of, without_nodes, StepsBetween, TellsNothing, flash_name};

    /// Mounts what the newest record of a flash holds, as [`mount`] does. A refusal gives the flash
    /// back, as the reads left it: no page of it changed, and the cause is one of those of [`mount`].
    ///
    /// Cost: mount of five versions, 15 directories: 144 reads, 0 programs, 0 erases.
    pub fn mount_or_release(
        alloc: Global,
        flash: &'f mut F,
    ) -> Result<Fs<'f, F>, RefusedMount<'f, F>>
        ensures mounted { IfOk result (λ fs. IsMountOf (F.device flash.old) (F.device fs.flash.now) fs.system) }
        ensures only_reads { IfOk result (λ fs. OnlyReads (F.device flash.old) (F.device fs.flash.now)) }
        ensures asks { IfOk result (λ fs. AsksToMount (F.device flash.old) (F.device fs.flash.now)) }
        ensures room { IfOk result (λ fs. fs.system.state.storage.cache.room ≡ MOUNTED_NODES) }
        ensures same_flash { IfOk result (λ fs. flash_name fs ≡ flash.entry.ghost_name) }
        ensures refused { IfErr result (λ refused. RefusesMount (F.device flash.old) (F.device refused.flash.now) refused.fault) }
        ensures released { IfErr result (λ refused. refused.flash.ghost_name ≡ flash.entry.ghost_name) }
    {
        match mount(alloc, flash) {
            Ok(system) => Ok(Fs::on(alloc, flash, system)),
            Err(fault) => Err(RefusedMount { fault, flash }),
        }
    }

    /// The same, with `nodes` nodes kept in memory, 1 to 64 ([`mount_with`]); [`Fault::Invalid`] for
    /// another number, before any read.
    pub fn mount_with_or_release(
        alloc: Global,
        flash: &'f mut F,
        nodes: usize,
    ) -> Result<Fs<'f, F>, RefusedMount<'f, F>>
        // The mounted system.
        ensures mounted { IfOk result (λ fs. IsMountOf (F.device flash.old) (F.device fs.flash.now) fs.system) }
        ensures only_reads { IfOk result (λ fs. OnlyReads (F.device flash.old) (F.device fs.flash.now)) }
        ensures asks { IfOk result (λ fs. AsksToMount (F.device flash.old) (F.device fs.flash.now)) }
        ensures room { IfOk result (λ fs. fs.system.state.storage.cache.room ≡ nodes) }
        ensures same_flash { IfOk result (λ fs. flash_name fs ≡ flash.entry.ghost_name) }

        // Why not, and the flash that is given back.
        ensures invalid { IsErrAnd result (λ refused. refused.fault ≡ Fault.Invalid) ↔ ((nodes < 1) ⊎ (MAX_CACHED_NODES < nodes)) }
        ensures unread { IfErr result (λ refused. refused.fault ≡ Fault.Invalid → F.device refused.flash.now ≡ F.device flash.old) }
        ensures refused { IfErr result (λ refused. refused.fault ≢ Fault.Invalid → RefusesMount (F.device flash.old) (F.device refused.flash.now) refused.fault) }
        ensures released { IfErr result (λ refused. refused.flash.ghost_name ≡ flash.entry.ghost_name) }
    {
        match mount_with(alloc, flash, nodes) {
            Ok(system) => Ok(Fs::on(alloc, flash, system)),
            Err(fault) => Err(RefusedMount { fault, flash }),
        }
    }

    /// The same as [`Fs::mount_or_release`], where the flash is not wanted after a refusal. What a
    /// refusal leaves of it is not said here: the borrow ends with no value that shows it.
    pub fn mount(alloc: Global, flash: &'f mut F) -> Result<Fs<'f, F>, Fault>
        ensures mounted { IfOk result (λ fs. IsMountOf (F.device flash.old) (F.device fs.flash.now) fs.system) }
        ensures only_reads { IfOk result (λ fs. OnlyReads (F.device flash.old) (F.device fs.flash.now)) }
        ensures asks { IfOk result (λ fs. AsksToMount (F.device flash.old) (F.device fs.flash.now)) }
        ensures room { IfOk result (λ fs. fs.system.state.storage.cache.room ≡ MOUNTED_NODES) }
        ensures same_flash { IfOk result (λ fs. flash_name fs ≡ flash.entry.ghost_name) }
        ensures refused { IfErr result (λ fault. (left : Device) × RefusesMount (F.device flash.old) left fault) }
    {
        match Fs::mount_or_release(alloc, flash) {
            Ok(fs) => Ok(fs),
            Err(refused) => {
                let _left = refused.flash;
                Err(refused.fault)
            }
        }
    }

    /// The same as [`Fs::mount_with_or_release`], where the flash is not wanted after a refusal, as
    /// [`Fs::mount`].
    pub fn mount_with(alloc: Global, flash: &'f mut F, nodes: usize) -> Result<Fs<'f, F>, Fault>
        ensures mounted { IfOk result (λ fs. IsMountOf (F.device flash.old) (F.device fs.flash.now) fs.system) }
        ensures only_reads { IfOk result (λ fs. OnlyReads (F.device flash.old) (F.device fs.flash.now)) }
        ensures asks { IfOk result (λ fs. AsksToMount (F.device flash.old) (F.device fs.flash.now)) }
        ensures room { IfOk result (λ fs. fs.system.state.storage.cache.room ≡ nodes) }
        ensures same_flash { IfOk result (λ fs. flash_name fs ≡ flash.entry.ghost_name) }
        ensures invalid { (result ≡ Err Fault.Invalid) ↔ ((nodes < 1) ⊎ (MAX_CACHED_NODES < nodes)) }
        ensures refused { IfErr result (λ fault. fault ≢ Fault.Invalid → (left : Device) × RefusesMount (F.device flash.old) left fault) }
    {
        match Fs::mount_with_or_release(alloc, flash, nodes) {
            Ok(fs) => Ok(fs),
            Err(refused) => {
                let _left = refused.flash;
                Err(refused.fault)
            }
        }
    }

    /// The system that is mounted on a flash. Calls that are passed no allocator use this one.
    pub fn on(alloc: Global, flash: &'f mut F, system: System) -> Fs<'f, F>
        requires { IsSystem (F.device flash.old) system }
        ensures moment { moment_of result ≡ system_moment (F.device flash.old) system }
        ensures same_flash { flash_name result ≡ flash.entry.ghost_name }
    {
        Fs {
            flash,
            system,
            alloc,
        }
    }

    /// Forgets the nodes that are kept in memory: each is read from the flash again when it is wanted.
    pub fn forget_nodes(&mut self)
        ensures forgotten { moment_of self.new ≡ without_nodes (moment_of self.old) }
        ensures same_flash { flash_name self.new ≡ flash_name self.old }
    {
        self.system.forget_nodes();
    }

    /// Commits the whole history, with the checkpoints, so that a restart finds it (POSIX.1-2017 `sync`,
    /// which answers nothing). A record is written each time.
    ///
    /// [`Fault::InGroup`] where a change group is open; [`Fault::Overflow`] where the sequence of the
    /// newest record is the greatest number there is. After a refusal but `PowerCut` the newest record is
    /// the one it was.
    ///
    /// Cost: sync of a record of one page: 0 reads, 1 programs, 0 erases.
    pub fn sync(&mut self, alloc: Global) -> Result<(), Fault>
        ensures step { StepsBetween self.old Call.Sync (replied empty result) self.new }
    {
        self.carry_out_empty(alloc, Request::Sync)
    }

    /// The same, where the descriptor is of an open file; else [`Fault::BadDescriptor`], before
    /// [`Fault::InGroup`] (POSIX.1-2017 `fsync`, which speaks of one file).
    pub fn fsync(&mut self, alloc: Global, descriptor: Descriptor) -> Result<(), Fault>
        ensures step { StepsBetween self.old (Call.Fsync descriptor.number) (replied empty result) self.new }
    {
        self.carry_out_empty(
            alloc,
            Request::Fsync {
                descriptor: u64::from(descriptor.number),
            },
        )
    }

    /// Opens the file at a path, and answers its descriptor, the least that is free (POSIX.1-2017 `open`,
    /// without a mode; a directory is refused for reading too).
    pub fn open(
        &mut self,
        alloc: Global,
        path: &Path,
        flags: OpenFlags,
    ) -> Result<Descriptor, Fault>
        ensures step { StepsBetween self.old (Call.Open path.now flags) (replied descriptor_reply result) self.new }
    {
        match self.carry_out(alloc, Request::Open { path, flags })? {
            Reply::Fd(number) => Ok(Descriptor { number }),
            _ => unreachable!(),
        }
    }

    /// Closes the open file of a descriptor, which is free then.
    pub fn close(&mut self, descriptor: Descriptor) -> Result<(), Fault>
        ensures step { StepsBetween self.old (Call.Close descriptor.number) (replied empty result) self.new }
        ensures still { F.device self.new.flash.now ≡ F.device self.old.flash.now }
    {
        self.carry_out_empty(
            self.alloc,
            Request::Close {
                descriptor: u64::from(descriptor.number),
            },
        )
    }

    /// Writes these bytes at an offset of the open file of a descriptor, all or none, and answers how many
    /// (POSIX.1-2017 `pwrite`). A gap past the end of the file is zeros; no bytes make no version.
    ///
    /// Cost: pwrite of a byte at the end of 1 MiB: 4 reads, 3 programs, 2 erases.
    pub fn pwrite(
        &mut self,
        alloc: Global,
        descriptor: Descriptor,
        offset: u64,
        bytes: &[u8],
    ) -> Result<u64, Fault>
        ensures step { StepsBetween self.old (Call.Pwrite descriptor.number offset bytes.now) (replied Reply.Count result) self.new }
    {
        let request = Request::Pwrite {
            descriptor: u64::from(descriptor.number),
            offset,
            bytes,
        };
        match self.carry_out(alloc, request)? {
            Reply::Count(count) => Ok(count),
            _ => unreachable!(),
        }
    }

    /// The length in bytes of the open file of a descriptor becomes this (POSIX.1-2017 `ftruncate`); what is
    /// new of it is zeros. The same length makes no version, and is no refusal in read-only mode.
    ///
    /// Cost: ftruncate of 1 MiB to 512 KiB: 9 reads, 1 programs, 1 erases.
    pub fn ftruncate(
        &mut self,
        alloc: Global,
        descriptor: Descriptor,
        length: u64,
    ) -> Result<(), Fault>
        ensures step { StepsBetween self.old (Call.Ftruncate descriptor.number length) (replied empty result) self.new }
    {
        self.carry_out_empty(
            alloc,
            Request::Ftruncate {
                descriptor: u64::from(descriptor.number),
                length,
            },
        )
    }

    /// The file at a path has exactly these bytes, at most 16,777,216: it is made, or replaces the file
    /// that stands there, as one change. `open` with WRITE, CREAT and TRUNC, `pwrite` and `close` in a change
    /// group do the same in more writes. No descriptor is taken. Where the file has these bytes already, no
    /// version is made, and that is no refusal in read-only mode.
    ///
    /// [`Fault::Busy`] where the file is open, [`Fault::TooBig`] for more bytes.
    ///
    /// Cost: write of a new file, 1,000 bytes, depth 2: 2 reads, 7 programs, 3 erases.
    pub fn write_file(&mut self, alloc: Global, path: &Path, bytes: &[u8]) -> Result<(), Fault>
        ensures step { StepsBetween self.old (Call.WriteFile path.now bytes.now) (replied empty result) self.new }
    {
        self.carry_out_empty(alloc, Request::WriteFile { path, bytes })
    }

    /// Each of these files of a directory has exactly its bytes, at most 16,777,216: it is made, or
    /// replaces the file that stands there, all as one change. Their names ascend in byte order. Where
    /// no file is open, a change group of one `write_file` each does the same in more writes: the
    /// directory, and those above it, are written once here. Where all have their bytes already, no
    /// version is made, and that is no refusal in read-only mode.
    ///
    /// [`Fault::Invalid`] where a name does not come after the one before it, so where one stands twice;
    /// [`Fault::NameTooLong`] for one file or more in a directory whose path has 16 names. Else refused
    /// with the first refusal that `write_file` of each in turn has, with nothing done: so also with
    /// [`Fault::DirectoryFull`] where the files before it leave no room.
    ///
    /// Cost: write_files of two, 1,000 bytes, depth 2: 2 reads, 12 programs, 4 erases.
    pub fn write_files(
        &mut self,
        alloc: Global,
        directory: &Path,
        files: &[NamedFile],
    ) -> Result<(), Fault>
        ensures step { StepsBetween self.old (Call.WriteFiles directory.now files.now) (replied empty result) self.new }
    {
        self.carry_out_empty(alloc, Request::WriteFiles { directory, files })
    }

    /// What stands at a path of the tree that a view shows: a directory, with its number of entries, or
    /// a file, with its length in bytes (POSIX.1-2017 `stat`, which tells more).
    ///
    /// Cost: stat of a directory, depth 16: 17 reads, 0 programs, 0 erases.
    pub fn stat(&mut self, view: &View, path: &Path) -> Result<Stat, Fault>
        ensures step { StepsBetween self.old (Call.Stat view.now path.now) (replied Reply.Stat result) self.new }
        ensures pages { (p : ℕ) → (F.device self.new.flash.now).pages p ≡ (F.device self.old.flash.now).pages p }
    {
        match self.carry_out(self.alloc, Request::Stat { view, path })? {
            Reply::Stat(stat) => Ok(stat),
            _ => unreachable!(),
        }
    }

    /// The names in the directory at a path, in byte order, each with whether it is a directory.
    ///
    /// Cost: ls of a directory, depth 4: 5 reads, 0 programs, 0 erases.
    pub fn list(
        &mut self,
        alloc: Global,
        view: &View,
        path: &Path,
    ) -> Result<Sequence<(Name, bool)>, Fault>
        ensures step { StepsBetween self.old (Call.List view.now path.now) (replied Reply.Names result) self.new }
        ensures pages { (p : ℕ) → (F.device self.new.flash.now).pages p ≡ (F.device self.old.flash.now).pages p }
    {
        match self.carry_out(alloc, Request::List { view, path })? {
            Reply::Names(names) => Ok(names),
            _ => unreachable!(),
        }
    }

    /// The entries of the directory at a path, in byte order of their names, each with what `stat` tells
    /// of it: those that come after the name `from`, or all where none is given, and of these the first
    /// `most`. Fewer are answered only at the end. `from` need not stand in the directory.
    ///
    /// Refused as `list` is. The nodes of the directory are read, and the first page of each node of the
    /// directories that are told.
    ///
    /// Cost: entries of 1,000 files: 63 reads, 0 programs, 0 erases.
    pub fn entries(
        &mut self,
        alloc: Global,
        view: &View,
        path: &Path,
        from: Option<&Name>,
        most: u64,
    ) -> Result<Sequence<(Name, Stat)>, Fault>
        ensures step { StepsBetween self.old (Call.Entries view.now path.now (option_copied from.entry) most) (replied Reply.Entries result) self.new }
        ensures pages { (p : ℕ) → (F.device self.new.flash.now).pages p ≡ (F.device self.old.flash.now).pages p }
    {
        let request = Request::Entries {
            view,
            path,
            from,
            most,
        };
        match self.carry_out(alloc, request)? {
            Reply::Entries(entries) => Ok(entries),
            _ => unreachable!(),
        }
    }

    /// The bytes of a file from `offset` on, at most `count`: fewer near its end, none at or past it.
    /// [`Fault::IsDirectory`] for a directory.
    pub fn read_at(
        &mut self,
        alloc: Global,
        view: &View,
        path: &Path,
        offset: u64,
        count: u64,
    ) -> Result<Bytes, Fault>
        ensures step { StepsBetween self.old (Call.ReadAt view.now path.now offset count) (replied Reply.Bytes result) self.new }
        ensures pages { (p : ℕ) → (F.device self.new.flash.now).pages p ≡ (F.device self.old.flash.now).pages p }
    {
        let request = Request::ReadAt {
            view,
            path,
            offset,
            count,
        };
        match self.carry_out(alloc, request)? {
            Reply::Bytes(bytes) => Ok(bytes),
            _ => unreachable!(),
        }
    }

    /// The same of the open file of a descriptor (POSIX.1-2017 `pread`). [`Fault::BadDescriptor`] for a
    /// descriptor that is not open, or is open for writing alone.
    ///
    /// Cost: pread of 1 MiB: 4179 reads, 0 programs, 0 erases.
    pub fn pread(
        &mut self,
        alloc: Global,
        descriptor: Descriptor,
        offset: u64,
        count: u64,
    ) -> Result<Bytes, Fault>
        ensures step { StepsBetween self.old (Call.Pread descriptor.number offset count) (replied Reply.Bytes result) self.new }
        ensures pages { (p : ℕ) → (F.device self.new.flash.now).pages p ≡ (F.device self.old.flash.now).pages p }
    {
        let request = Request::Pread {
            descriptor: u64::from(descriptor.number),
            offset,
            count,
        };
        match self.carry_out(alloc, request)? {
            Reply::Bytes(bytes) => Ok(bytes),
            _ => unreachable!(),
        }
    }

    /// Makes an empty directory (POSIX.1-2017 `mkdir`, without a mode).
    ///
    /// Cost: mkdir at depth 4: 4 reads, 5 programs, 5 erases.
    pub fn mkdir(&mut self, alloc: Global, path: &Path) -> Result<(), Fault>
        ensures step { StepsBetween self.old (Call.Mkdir path.now) (replied empty result) self.new }
    {
        self.carry_out_empty(alloc, Request::Mkdir { path })
    }

    /// Removes an empty directory (POSIX.1-2017 `rmdir`). [`Fault::Busy`] for the root.
    ///
    /// Cost: rmdir at depth 16: 26 reads, 16 programs, 16 erases.
    pub fn rmdir(&mut self, alloc: Global, path: &Path) -> Result<(), Fault>
        ensures step { StepsBetween self.old (Call.Rmdir path.now) (replied empty result) self.new }
    {
        self.carry_out_empty(alloc, Request::Rmdir { path })
    }

    /// Removes a file (POSIX.1-2017 `unlink`). [`Fault::NotPermitted`] for a directory, [`Fault::Busy`]
    /// for a file that is open.
    pub fn unlink(&mut self, alloc: Global, path: &Path) -> Result<(), Fault>
        ensures step { StepsBetween self.old (Call.Unlink path.now) (replied empty result) self.new }
    {
        self.carry_out_empty(alloc, Request::Unlink { path })
    }

    /// Moves a file or a directory to another path, in place of a file or an empty directory that
    /// stands there (POSIX.1-2017 `rename`). Nothing is done where both paths are the same, in
    /// read-only mode too. [`Fault::Busy`] where a file that would be moved or replaced is open.
    ///
    /// Cost: rename in a directory, depth 16: 24 reads, 16 programs, 16 erases.
    pub fn rename(&mut self, alloc: Global, old: &Path, new: &Path) -> Result<(), Fault>
        ensures step { StepsBetween self.old (Call.Rename old.now new.now) (replied empty result) self.new }
    {
        self.carry_out_empty(alloc, Request::Rename { old, new })
    }

    /// The version before becomes the present one.
    ///
    /// Cost: undo: 0 reads, 0 programs, 0 erases.
    pub fn undo(&mut self) -> Result<(), Fault>
        ensures step { StepsBetween self.old Call.Undo (replied empty result) self.new }
        ensures still { F.device self.new.flash.now ≡ F.device self.old.flash.now }
    {
        self.carry_out_empty(self.alloc, Request::Undo)
    }

    /// The version after becomes the present one.
    ///
    /// Cost: redo: 0 reads, 0 programs, 0 erases.
    pub fn redo(&mut self) -> Result<(), Fault>
        ensures step { StepsBetween self.old Call.Redo (replied empty result) self.new }
        ensures still { F.device self.new.flash.now ≡ F.device self.old.flash.now }
    {
        self.carry_out_empty(self.alloc, Request::Redo)
    }

    /// The version with this serial becomes the present one.
    pub fn goto(&mut self, serial: u64) -> Result<(), Fault>
        ensures step { StepsBetween self.old (Call.Goto serial) (replied empty result) self.new }
        ensures still { F.device self.new.flash.now ≡ F.device self.old.flash.now }
    {
        self.carry_out_empty(self.alloc, Request::Goto { serial })
    }

    /// Begins a change group: file calls and views of the present work on a tree of its own from then on,
    /// which starts as the present one, and no call makes a version until [`Fs::end`]. A restart before
    /// that finds nothing of it, and [`Fs::abandon`] gives it up. It is carried out in read-only mode too.
    /// [`Fault::InGroup`] where a group is open, [`Fault::Busy`] where a file is.
    ///
    /// While a group is open, `sync`, `fsync`, `undo`, `redo`, `goto`, `rollback`, `forget`, `checkpoint`
    /// and `remove_checkpoint` are refused by [`Fault::InGroup`].
    ///
    /// Cost: begin: 0 reads, 0 programs, 0 erases.
    pub fn begin(&mut self) -> Result<(), Fault>
        ensures step { StepsBetween self.old Call.Begin (replied empty result) self.new }
        ensures still { F.device self.new.flash.now ≡ F.device self.old.flash.now }
    {
        self.carry_out_empty(self.alloc, Request::Begin)
    }

    /// Ends the change group: where a call in it changed its tree, that becomes one version, under the
    /// next serial; else no version is made. [`Fault::NoGroup`] where none is open, [`Fault::Busy`] where
    /// a file is; where a version is due, [`Fault::ReadOnly`] and [`Fault::Overflow`] as for a change. A
    /// refused `end` leaves the group open.
    ///
    /// Cost: end of a group with four changes: 0 reads, 0 programs, 0 erases.
    pub fn end(&mut self) -> Result<(), Fault>
        ensures step { StepsBetween self.old Call.End (replied empty result) self.new }
        ensures still { F.device self.new.flash.now ≡ F.device self.old.flash.now }
    {
        self.carry_out_empty(self.alloc, Request::End)
    }

    /// Gives up the change group: all is as it was at its [`Fs::begin`]. It is carried out in read-only
    /// mode too. [`Fault::NoGroup`] where none is open, [`Fault::Busy`] where a file is.
    ///
    /// Cost: abandon of a group with four changes: 0 reads, 0 programs, 0 erases.
    pub fn abandon(&mut self) -> Result<(), Fault>
        ensures step { StepsBetween self.old Call.Abandon (replied empty result) self.new }
        ensures still { F.device self.new.flash.now ≡ F.device self.old.flash.now }
    {
        self.carry_out_empty(self.alloc, Request::Abandon)
    }

    /// A change to the tree of a checkpoint. It asks nothing of the flash.
    pub fn rollback(&mut self, alloc: Global, name: &CpName) -> Result<(), Fault>
        ensures step { StepsBetween self.old (Call.Rollback name.now) (replied empty result) self.new }
        ensures still { F.device self.new.flash.now ≡ F.device self.old.flash.now }
    {
        self.carry_out_empty(alloc, Request::Rollback { name })
    }

    /// The `count` oldest versions before the present one are dropped.
    pub fn forget(&mut self, count: u64) -> Result<(), Fault>
        ensures step { StepsBetween self.old (Call.Forget count) (replied empty result) self.new }
        ensures still { F.device self.new.flash.now ≡ F.device self.old.flash.now }
    {
        self.carry_out_empty(self.alloc, Request::Forget { count })
    }

    /// The present tree is kept under a name, until it is removed by that name.
    pub fn checkpoint(&mut self, name: &CpName) -> Result<(), Fault>
        ensures step { StepsBetween self.old (Call.Checkpoint name.now) (replied empty result) self.new }
        ensures still { F.device self.new.flash.now ≡ F.device self.old.flash.now }
    {
        self.carry_out_empty(self.alloc, Request::Checkpoint { name })
    }

    /// The checkpoint of this name is given up.
    pub fn remove_checkpoint(&mut self, name: &CpName) -> Result<(), Fault>
        ensures step { StepsBetween self.old (Call.RemoveCheckpoint name.now) (replied empty result) self.new }
        ensures still { F.device self.new.flash.now ≡ F.device self.old.flash.now }
    {
        self.carry_out_empty(self.alloc, Request::RemoveCheckpoint { name })
    }

    /// The history: next serial, kept serials, the present one, and the checkpoints.
    pub fn log(&self, alloc: Global) -> Result<Log, Fault>
        ensures { StepsBetween self.now Call.Log (replied log_reply result) self.now }
    {
        match self.system.state.log(alloc)? {
            Reply::Log {
                next,
                dropped,
                versions,
                cursor,
                checkpoints,
            } => Ok(Log {
                next,
                dropped,
                versions,
                cursor,
                checkpoints,
            }),
            _ => unreachable!(),
        }
    }

    /// How much of the flash is used ([`System::df`]).
    ///
    /// Cost: df of five versions, 15 directories: 15 reads, 0 programs, 0 erases.
    pub fn df(&mut self, alloc: Global) -> Result<Space, Fault>
        ensures step { StepsBetween self.old Call.Df (replied space_reply result) self.new }
    {
        match self.carry_out(alloc, Request::Df)? {
            Reply::Df {
                blocks,
                bad,
                free,
                anchors,
            } => Ok(Space {
                blocks,
                bad,
                free,
                anchors,
            }),
            _ => unreachable!(),
        }
    }

    /// Forgets the fewest of the oldest versions before the present one that leave `blocks` blocks free,
    /// as [`Fs::df`] shows them, and answers how many these are ([`System::forget_until_free`]).
    ///
    /// [`Fault::InGroup`] where a change group is open; what the reading meets; [`Fault::FlashFull`] where
    /// no number of versions is enough, with nothing done; then as [`Fs::forget`].
    pub fn forget_until_free(&mut self, alloc: Global, blocks: u64) -> Result<u64, Fault>
        ensures step { ForgetsUntil (F.device self.old.flash.now) self.old.system blocks result (F.device self.new.flash.now) self.new.system }
        ensures same_flash { flash_name self.new ≡ flash_name self.old }
    {
        self.system.forget_until_free(alloc, self.flash, blocks)
    }

    /// What each version and each checkpoint keeps, and what it frees to forget the versions up to one
    /// ([`System::space_by_version`]). Refused as [`Fs::df`] is.
    pub fn space_by_version(&mut self, alloc: Global) -> Result<HistorySpace, Fault>
        ensures tells { TellsHistorySpace (F.device self.old.flash.now) self.old.system result (F.device self.new.flash.now) self.new.system }
        ensures asks { AsksTwice (F.device self.old.flash.now) (working_roots self.old.system.state) (F.device self.new.flash.now) }
        ensures same_flash { flash_name self.new ≡ flash_name self.old }
    {
        self.system.space_by_version(alloc, self.flash)
    }

    /// How many directories and files stand in the tree of a view below its root, and how many bytes these
    /// files have ([`System::count_tree`]). The nodes of its directories are read once each.
    ///
    /// Refused as [`Fs::list`] of the root of that view.
    pub fn count_tree(&mut self, alloc: Global, view: &View) -> Result<TreeSize, Fault>
        ensures step { TellsSize (F.device self.old.flash.now) self.old.system view.now result (F.device self.new.flash.now) self.new.system }
        ensures same_flash { flash_name self.new ≡ flash_name self.old }
    {
        self.system.count_tree(alloc, self.flash, view)
    }

    /// Whether two views show the same root, so that their trees are the same: true of two versions between
    /// which nothing was written. False tells nothing of the trees. No page is read.
    ///
    /// [`Fault::PowerCut`] where a call answered that before; the refusal of the first view, then of the
    /// second.
    pub fn show_same_root(&self, view: &View, other: &View) -> Result<bool, Fault>
        ensures shown { IfOk result (λ same. ShowRoots self.now.system.state view.now other.now same) }
        ensures err { IfErr result (RefusesRoots self.now.system.state view.now other.now) }
    {
        self.system.show_same_root(view, other)
    }

    /// The paths of the tree of a view at which the root of another one leads elsewhere, a directory's before
    /// those of what stands in it ([`System::differing_paths`]). At each other path both trees have the same; a
    /// file that is told may have the same bytes. What both have in one block is not read.
    ///
    /// [`Fault::PowerCut`] where a call answered that before; the refusal of the first view, then of the
    /// second; then what the reading meets.
    pub fn differing_paths(
        &mut self,
        alloc: Global,
        view: &View,
        other: &View,
    ) -> Result<Sequence<Path>, Fault>
        ensures step { TellsDiffering (F.device self.old.flash.now) self.old.system view.now other.now result (F.device self.new.flash.now) self.new.system }
        ensures same_flash { flash_name self.new ≡ flash_name self.old }
    {
        self.system.differing_paths(alloc, self.flash, view, other)
    }

    /// Takes a step of reclaiming: reads `budget` blocks more of those in use, or all that remain, and
    /// then the others are free ([`System::reclaim_step`]). Whether none remained.
    pub fn reclaim_step(&mut self, alloc: Global, budget: u64) -> Result<bool, Fault>
        ensures step { Reclaims (F.device self.old.flash.now) self.old.system budget result (F.device self.new.flash.now) self.new.system }
        ensures same_flash { flash_name self.new ≡ flash_name self.old }
    {
        self.system.reclaim_step(alloc, self.flash, budget)
    }

    /// Goes on with a round over the blocks that are free: looks at `budget` of them at most, and erases
    /// those that are not blank ([`System::clean_step`]), so that a later write need not wait for the
    /// erase, where the driver answers that of a blank block at once. Whether the round is over.
    pub fn clean_step(&mut self, budget: u64) -> Result<bool, Fault>
        ensures step { Cleans (F.device self.old.flash.now) self.old.system budget result (F.device self.new.flash.now) self.new.system }
        ensures same_flash { flash_name self.new ≡ flash_name self.old }
    {
        self.system.clean_step(self.flash, budget)
    }

    /// Erases ahead, in `budget` erases at most, the anchor that the next records go to, once few pages are
    /// left on the newest one's, and the free blocks that are taken next, and remembers each until it is
    /// taken ([`System::prepare_step`]). So a later `sync` or write need not wait for the erase, where the
    /// driver answers that of a blank block at once. Whether the anchor and the next 64 blocks are
    /// prepared, or all that are free: then nothing is asked of the flash.
    pub fn prepare_step(&mut self, budget: u64) -> Result<bool, Fault>
        ensures step { PreparesAhead (F.device self.old.flash.now) self.old.system budget result (F.device self.new.flash.now) self.new.system }
        ensures same_flash { flash_name self.new ≡ flash_name self.old }
    {
        self.system.prepare_step(self.flash, budget)
    }

    /// Carries out a call, and answers its reply. Its step says what that of each call says: a call that
    /// changes no tree changes no page, but for a sync, and those on the history and on change groups,
    /// `close` and `log` do no device operation.
    pub fn call(&mut self, alloc: Global, call: &Call) -> Result<Reply, Fault>
        ensures step { StepsBetween self.old call.now result self.new }
    {
        self.carry_out(alloc, call.lend())
    }

    /// Carries out a request, and answers its reply.
    fn carry_out(&mut self, alloc: Global, request: Request<'_>) -> Result<Reply, Fault>
        ensures step { StepsBetween self.old (call_of request.entry) result self.new }
        ensures looked { only_looks (call_of request.entry) ≡ true → (p : ℕ) → (F.device self.new.flash.now).pages p ≡ (F.device self.old.flash.now).pages p }
        ensures still { is_still (call_of request.entry) ≡ true → F.device self.new.flash.now ≡ F.device self.old.flash.now }
    {
        self.system.call(alloc, self.flash, request)
    }

    /// Carries out a request whose reply tells nothing.
    fn carry_out_empty(&mut self, alloc: Global, request: Request<'_>) -> Result<(), Fault>
        requires { TellsNothing (call_of request) }
        ensures step { StepsBetween self.old (call_of request.entry) (replied empty result) self.new }
        ensures still { is_still (call_of request.entry) ≡ true → F.device self.new.flash.now ≡ F.device self.old.flash.now }
    {
        match self.carry_out(alloc, request)? {
            Reply::Empty => Ok(()),
            _ => unreachable!(),
        }
    }

    /// Ends the system, and gives its very flash back, as the last call left it. What was not synced is
    /// lost: a mount finds what the last sync committed, and nothing is committed here.
    pub fn into_flash(self) -> &'f mut F
        ensures flash { result ≡ self.entry.flash }
        ensures mounted { IsSystem (F.device result.now) self.entry.system }
    {
        self.flash
    }
}

impl<'f, F: Planned> Fs<'f, F> {
    ghost use Rattle.std.specs.Prelude.{◌≤◌, ◌↔◌, Err, OnOk, OnErr, IfErr};
    ghost use Rattle.fs_types.specs.declared.fault.Fault.{Fault};
    ghost use Rattle.flash_model.specs.Plan.{planned, IsPlanFull};
    ghost use Rattle.undofs.specs.Systems.{moment_of, flash_name};

    /// Plans a fault of the flash ([`Planned::plan_fault`]): the `k`-th operation after now of the
    /// kind's class, in the place of what waits for the same operation. [`Fault::Invalid`] where 64
    /// entries wait and none of them is for that operation. Nothing but the plan changes.
    pub fn plan_fault(&mut self, k: u64, kind: FaultKind) -> Result<(), Fault>
        requires { 1 ≤ k }
        ensures still { moment_of self.new ≡ moment_of self.old }
        ensures ok { OnOk result (F.schedule self.new.flash.now ≡ planned (F.schedule self.old.flash.now) k kind) }
        ensures err { OnErr result (F.schedule self.new.flash.now ≡ F.schedule self.old.flash.now) }
        ensures full { (result ≡ Err Fault.Invalid) ↔ IsPlanFull (F.schedule self.old.flash.now) k kind }
        ensures only { IfErr result (λ fault. fault ≡ Fault.Invalid) }
        ensures same_flash { flash_name self.new ≡ flash_name self.old }
    {
        self.flash.plan_fault(k, kind)
    }
}
