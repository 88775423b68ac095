//! Why a call is refused. Each function makes its checks in their order.
ghost use Rattle.std.specs.Prelude.{◌≡◌, [], Option, Some, None, IfOk, IfErr};
ghost use Rattle.std.specs.FinMap as finmap;
ghost use Rattle.plain_trees.specs.Contents.{Entry};
ghost use Rattle.plain_trees.specs.Trees.{bare};
ghost use Rattle.history_machine.specs.Descriptors as descriptors;
ghost use Rattle.history_machine.specs.Machine as machine;
ghost use Rattle.fs_types.specs.declared.call.Call.{Call};
ghost use Rattle.fs_types.specs.declared.fault.Fault.{Fault};
ghost use Rattle.plain_machine.specs.Plain.{machine_of_tree, machine_in, range_refusal, emptiness_refusal};
ghost use Rattle.history_machine.specs.Machine.{machine_with};

use crate::groups::{seen_tree, working_tree};
use crate::written_files::write_files_refusal;
use bitflags::Flags;
use fs_types::{Bytes, Call, Fault, Group, MAX_FILE_BYTES, Name, OpenFlags, Path, View};
use machine_state::{History, OpenFiles};
use memory_trees::{Node, Tree};
use plain_trees::{is_beginning, parent};

/// The first refusal of a call, if any.
pub fn refusal(
    history: &History<Tree>,
    group: &Option<Group<Tree>>,
    files: &OpenFiles,
    call: &Call,
) -> Option<Fault>
    ensures { result ≡ machine.refusal (machine_with history.now group.now files.now) call.now }
{
    let tree = working_tree(history, group);
    match call {
        Call::Open { path, flags } => open_refusal(tree, files, path, *flags),
        Call::Close { descriptor } => descriptor_refusal(files, *descriptor),
        Call::Pread { descriptor, .. } => pread_refusal(files, *descriptor),
        Call::Pwrite {
            descriptor,
            offset,
            bytes,
        } => pwrite_refusal(files, *descriptor, *offset, bytes),
        Call::Ftruncate { descriptor, length } => ftruncate_refusal(files, *descriptor, *length),
        Call::WriteFile { path, bytes } => write_file_refusal(tree, files, path, bytes.as_slice()),
        Call::WriteFiles {
            directory,
            files: list,
        } => write_files_refusal(tree, files, directory, list.as_slice()),
        Call::Rename { old, new } => rename_refusal(tree, files, old, new),
        Call::Unlink { path } => unlink_refusal(tree, files, path),
        Call::Mkdir { path } => mkdir_refusal(tree, path),
        Call::Rmdir { path } => rmdir_refusal(tree, path),
        Call::Fsync { descriptor } => fsync_refusal(group, files, *descriptor),
        Call::Sync => outside_refusal(group, None),
        Call::Stat { view, path } => stat_refusal(history, group, view, path),
        Call::List { view, path } => list_refusal(history, group, view, path),
        Call::ReadAt { view, path, .. } => read_at_refusal(history, group, view, path),
        Call::Entries { view, path, .. } => list_refusal(history, group, view, path),
        Call::Log => None,
        Call::Df => None,
        Call::Undo => travel_refusal(group, files, history.check_undo().err()),
        Call::Redo => travel_refusal(group, files, history.check_redo().err()),
        Call::Goto { serial } => travel_refusal(group, files, history.check_goto(*serial).err()),
        Call::Rollback { name } => travel_refusal(group, files, history.check_name(name).err()),
        Call::Forget { count } => outside_refusal(group, history.check_forget(*count).err()),
        Call::Checkpoint { name } => outside_refusal(group, history.check_checkpoint(name).err()),
        Call::RemoveCheckpoint { name } => outside_refusal(group, history.check_name(name).err()),
        Call::Begin => travel_refusal(group, files, None),
        Call::End => end_refusal(group, files),
        Call::Abandon => end_refusal(group, files),
    }
}

/// The node at a path, or why there is none.
fn found<'a>(tree: &'a Tree, path: &[Name]) -> Result<&'a Node, Fault>
    ensures node { IfOk result (λ node. (refuse : Entry → Option Fault) → machine.found_refusal tree.now path.now refuse ≡ refuse node.now) }
    ensures refused { IfErr result (λ fault. (refuse : Entry → Option Fault) → machine.found_refusal tree.now path.now refuse ≡ Some fault) }
{
    if let Some(fault) = tree.lookup_refusal(path) {
        return Err(fault);
    }
    match tree.get(path) {
        Some(node) => Ok(node),
        None => Err(Fault::NoEntry),
    }
}

fn open_refusal(tree: &Tree, files: &OpenFiles, path: &Path, flags: OpenFlags) -> Option<Fault>
    ensures { result ≡ machine.refusal (machine_of_tree tree.now files.now) (Call.Open path.now flags) }
{
    if !flags.are_lawful() {
        return Some(Fault::Invalid);
    }
    if let Some(fault) = tree.lookup_refusal(path.names()) {
        return Some(fault);
    }
    match tree.get(path.names()) {
        None => creation_refusal(tree, files, path, flags),
        Some(node) => reopening_refusal(files, node, flags),
    }
}

fn creation_refusal(tree: &Tree, files: &OpenFiles, path: &Path, flags: OpenFlags) -> Option<Fault>
    ensures { result ≡ machine.open_refusal (machine_of_tree tree.now files.now) path.now flags None }
{
    if !flags.contains(OpenFlags::CREAT) {
        return Some(Fault::NoEntry);
    }
    if tree.is_full(parent(path.names())) {
        return Some(Fault::DirectoryFull);
    }
    full_table_refusal(files)
}

fn reopening_refusal(files: &OpenFiles, node: &Node, flags: OpenFlags) -> Option<Fault>
    ensures { result ≡ machine.open_refusal (machine_of_tree bare files.now) [] flags (Some node.now) }
{
    if flags.contains(OpenFlags::CREAT) && flags.contains(OpenFlags::EXCL) {
        return Some(Fault::Exists);
    }
    if node.is_dir() {
        return Some(Fault::IsDirectory);
    }
    full_table_refusal(files)
}

/// Why there is no free descriptor.
fn full_table_refusal(files: &OpenFiles) -> Option<Fault>
    ensures { result ≡ machine.full_table_refusal (machine_of_tree bare files.now) }
{
    match files.least_free() {
        None => Some(Fault::TooManyOpen),
        Some(_) => None,
    }
}

fn descriptor_refusal(files: &OpenFiles, descriptor: u64) -> Option<Fault>
    ensures { result ≡ machine.refusal (machine_of_tree bare files.now) (Call.Close descriptor) }
{
    match files.get(descriptor) {
        None => Some(Fault::BadDescriptor),
        Some(_) => None,
    }
}

fn fsync_refusal(group: &Option<Group<Tree>>, files: &OpenFiles, descriptor: u64) -> Option<Fault>
    ensures { result ≡ machine.refusal (machine_in group.now files.now) (Call.Fsync descriptor) }
{
    match files.get(descriptor) {
        None => Some(Fault::BadDescriptor),
        Some(_) => outside_refusal(group, None),
    }
}

fn pread_refusal(files: &OpenFiles, descriptor: u64) -> Option<Fault>
    ensures { result ≡ machine.refusal (machine_of_tree bare files.now) (Call.Pread descriptor 0 0) }
{
    match files.get(descriptor) {
        Some(file) if file.flags().contains(OpenFlags::READ) => None,
        _ => Some(Fault::BadDescriptor),
    }
}

fn pwrite_refusal(files: &OpenFiles, descriptor: u64, offset: u64, bytes: &Bytes) -> Option<Fault>
    ensures { result ≡ machine.refusal (machine_of_tree bare files.now) (Call.Pwrite descriptor offset bytes.now) }
{
    match files.get(descriptor) {
        Some(file) if file.flags().contains(OpenFlags::WRITE) => {
            range_refusal(offset, bytes.as_slice())
        }
        _ => Some(Fault::BadDescriptor),
    }
}

/// Why so many bytes don't fit a file from an offset on; no bytes always do.
fn range_refusal(offset: u64, bytes: &[u8]) -> Option<Fault>
    ensures { result ≡ range_refusal offset bytes.now }
{
    if bytes.is_empty() {
        return None;
    }
    if offset > MAX_LENGTH || bytes.len() as u64 > MAX_LENGTH - offset {
        return Some(Fault::TooBig);
    }
    None
}

/// The greatest length of a file in bytes.
const MAX_LENGTH: u64 = MAX_FILE_BYTES as u64;

fn ftruncate_refusal(files: &OpenFiles, descriptor: u64, length: u64) -> Option<Fault>
    ensures { result ≡ machine.refusal (machine_of_tree bare files.now) (Call.Ftruncate descriptor length) }
{
    let Some(file) = files.get(descriptor) else {
        return Some(Fault::BadDescriptor);
    };
    if !file.flags().contains(OpenFlags::WRITE) {
        return Some(Fault::Invalid);
    }
    if length > MAX_LENGTH {
        return Some(Fault::TooBig);
    }
    None
}

fn write_file_refusal(tree: &Tree, files: &OpenFiles, path: &Path, bytes: &[u8]) -> Option<Fault>
    ensures { result ≡ machine.write_file_refusal tree.now files.now path.now bytes.now }
{
    if let Some(fault) = tree.lookup_refusal(path.names()) {
        return Some(fault);
    }
    if let Some(fault) = write_place_refusal(tree, files, path) {
        return Some(fault);
    }
    if bytes.len() as u64 > MAX_LENGTH {
        return Some(Fault::TooBig);
    }
    None
}

/// A file that is not open may be replaced, and one that is missing made where there is room.
fn write_place_refusal(tree: &Tree, files: &OpenFiles, path: &Path) -> Option<Fault>
    ensures { result ≡ machine.write_place_refusal tree.now files.now path.now (finmap.get tree.now path.now) }
{
    let Some(node) = tree.get(path.names()) else {
        return if tree.is_full(parent(path.names())) {
            Some(Fault::DirectoryFull)
        } else {
            None
        };
    };
    if node.is_dir() {
        return Some(Fault::IsDirectory);
    }
    if files.is_open(path) {
        return Some(Fault::Busy);
    }
    None
}

fn rename_refusal(tree: &Tree, files: &OpenFiles, old: &Path, new: &Path) -> Option<Fault>
    ensures { result ≡ machine.refusal (machine_of_tree tree.now files.now) (Call.Rename old.now new.now) }
{
    let node = match found(tree, old.names()) {
        Ok(node) => node,
        Err(fault) => return Some(fault),
    };
    if old == new {
        return None;
    }
    if node.is_dir() && is_beginning(old.names(), new.names()) {
        return Some(Fault::Invalid);
    }
    if let Some(fault) = tree.lookup_refusal(new.names()) {
        return Some(fault);
    }
    if let Some(fault) = replace_refusal(tree, new, node) {
        return Some(fault);
    }
    move_refusal(tree, files, old, new)
}

/// Only what is of the same kind is replaced, and only an empty directory.
fn replace_refusal(tree: &Tree, new: &Path, node: &Node) -> Option<Fault>
    ensures { result ≡ machine.replace_refusal tree.now new.now node.now (finmap.get tree.now new.now) }
{
    let there = tree.get(new.names())?;
    if !node.is_dir() {
        return if there.is_dir() {
            Some(Fault::IsDirectory)
        } else {
            None
        };
    }
    if !there.is_dir() {
        return Some(Fault::NotDirectory);
    }
    emptiness_refusal(tree, new)
}

/// Why a directory is not empty.
fn emptiness_refusal(tree: &Tree, path: &Path) -> Option<Fault>
    ensures { result ≡ emptiness_refusal tree.now path.now }
{
    if tree.entry_count(path.names()) > 0 {
        return Some(Fault::NotEmpty);
    }
    None
}

fn move_refusal(tree: &Tree, files: &OpenFiles, old: &Path, new: &Path) -> Option<Fault>
    ensures { result ≡ machine.move_refusal (machine_of_tree tree.now files.now) old.now new.now }
{
    if tree.is_too_deep(old.names(), new.names()) {
        return Some(Fault::NameTooLong);
    }
    if files.is_open_within(old) || files.is_open(new) {
        return Some(Fault::Busy);
    }
    if tree.get(new.names()).is_some() {
        return None;
    }
    if parent(old.names()) == parent(new.names()) {
        return None;
    }
    if tree.is_full(parent(new.names())) {
        return Some(Fault::DirectoryFull);
    }
    None
}

fn unlink_refusal(tree: &Tree, files: &OpenFiles, path: &Path) -> Option<Fault>
    ensures { result ≡ machine.refusal (machine_of_tree tree.now files.now) (Call.Unlink path.now) }
{
    let node = match found(tree, path.names()) {
        Ok(node) => node,
        Err(fault) => return Some(fault),
    };
    if node.is_dir() {
        return Some(Fault::NotPermitted);
    }
    if files.is_open(path) {
        return Some(Fault::Busy);
    }
    None
}

fn mkdir_refusal(tree: &Tree, path: &Path) -> Option<Fault>
    ensures { result ≡ machine.refusal (machine_of_tree tree.now descriptors.none_open) (Call.Mkdir path.now) }
{
    if path.is_root() {
        return Some(Fault::Exists);
    }
    if let Some(fault) = tree.lookup_refusal(path.names()) {
        return Some(fault);
    }
    if tree.get(path.names()).is_some() {
        return Some(Fault::Exists);
    }
    if tree.is_full(parent(path.names())) {
        return Some(Fault::DirectoryFull);
    }
    None
}

fn rmdir_refusal(tree: &Tree, path: &Path) -> Option<Fault>
    ensures { result ≡ machine.refusal (machine_of_tree tree.now descriptors.none_open) (Call.Rmdir path.now) }
{
    if path.is_root() {
        return Some(Fault::Busy);
    }
    let node = match found(tree, path.names()) {
        Ok(node) => node,
        Err(fault) => return Some(fault),
    };
    if !node.is_dir() {
        return Some(Fault::NotDirectory);
    }
    emptiness_refusal(tree, path)
}

/// The node that a view shows at a path, or why there is none.
fn found_in<'a>(
    history: &'a History<Tree>,
    group: &'a Option<Group<Tree>>,
    view: &View,
    path: &Path,
) -> Result<&'a Node, Fault>
    ensures node { IfOk result (λ node. (refuse : Entry → Option Fault) → machine.view_path_refusal (machine_with history.now group.now descriptors.none_open) view.now path.now refuse ≡ refuse node.now) }
    ensures refused { IfErr result (λ fault. (refuse : Entry → Option Fault) → machine.view_path_refusal (machine_with history.now group.now descriptors.none_open) view.now path.now refuse ≡ Some fault) }
{
    match seen_tree(history, group, view) {
        Ok(tree) => found(tree, path.names()),
        Err(fault) => Err(fault),
    }
}

fn stat_refusal(
    history: &History<Tree>,
    group: &Option<Group<Tree>>,
    view: &View,
    path: &Path,
) -> Option<Fault>
    ensures { result ≡ machine.refusal (machine_with history.now group.now descriptors.none_open) (Call.Stat view.now path.now) }
{
    match found_in(history, group, view, path) {
        Ok(_) => None,
        Err(fault) => Some(fault),
    }
}

fn list_refusal(
    history: &History<Tree>,
    group: &Option<Group<Tree>>,
    view: &View,
    path: &Path,
) -> Option<Fault>
    ensures { result ≡ machine.refusal (machine_with history.now group.now descriptors.none_open) (Call.List view.now path.now) }
{
    match found_in(history, group, view, path) {
        Ok(node) if node.is_dir() => None,
        Ok(_) => Some(Fault::NotDirectory),
        Err(fault) => Some(fault),
    }
}

fn read_at_refusal(
    history: &History<Tree>,
    group: &Option<Group<Tree>>,
    view: &View,
    path: &Path,
) -> Option<Fault>
    ensures { result ≡ machine.refusal (machine_with history.now group.now descriptors.none_open) (Call.ReadAt view.now path.now 0 0) }
{
    match found_in(history, group, view, path) {
        Ok(node) if node.is_dir() => Some(Fault::IsDirectory),
        Ok(_) => None,
        Err(fault) => Some(fault),
    }
}

/// A call on the history is refused in a change group, before all else.
fn outside_refusal(group: &Option<Group<Tree>>, refused: Option<Fault>) -> Option<Fault>
    ensures { result ≡ machine.outside_refusal (machine_in group.now descriptors.none_open) refused }
{
    if group.is_some() {
        return Some(Fault::InGroup);
    }
    refused
}

/// A call that moves the present version, or begins a group, is refused in a group, and then while a
/// file is open.
fn travel_refusal(
    group: &Option<Group<Tree>>,
    files: &OpenFiles,
    refused: Option<Fault>,
) -> Option<Fault>
    ensures { result ≡ machine.outside_refusal (machine_in group.now files.now) (machine.travel_refusal (machine_in group.now files.now) refused) }
{
    if group.is_none() && files.any_open() {
        return Some(Fault::Busy);
    }
    outside_refusal(group, refused)
}

/// A group ends where one is open, and no file is.
fn end_refusal(group: &Option<Group<Tree>>, files: &OpenFiles) -> Option<Fault>
    ensures { result ≡ machine.refusal (machine_in group.now files.now) Call.End }
{
    if group.is_none() {
        return Some(Fault::NoGroup);
    }
    if files.any_open() {
        return Some(Fault::Busy);
    }
    None
}
