//! What calls leave that change something. Memory is taken first, so that nothing is changed without it.
ghost use Rattle.std.specs.Prelude.{◌≡◌, ◌<◌, Bool, true, not, ◌==◌, ◌&&◌, length, [], Some, None, is_some, IfOk, IfErr, OnOk, OnErr};
ghost use Rattle.plain_trees.specs.Contents.{Entry, overwritten, resized};
ghost use Rattle.plain_trees.specs.Files.{file_put};
ghost use Rattle.plain_trees.specs.Trees.{bare, put, remove};
ghost use Rattle.history_machine.specs.Descriptors.{none_open, descriptor_at};
ghost use Rattle.history_machine.specs.History.{checkpoint_root, checkpoint_refusal, with_checkpoint, due_root};
ghost use Rattle.history_machine.specs.Machine as machine;
ghost use Rattle.fs_types.specs.declared.call.Call.{Call};
ghost use Rattle.fs_types.specs.declared.fault.Fault.{Fault};
ghost use Rattle.plain_machine.specs.Plain.{machine_of_tree, ftruncates, file_of, moving_refusal, history_still, group_still};
ghost use Rattle.history_machine.specs.Machine.{machine_with};

use crate::groups::{begin, end, working_tree};
use crate::replies::bytes_at;
use crate::written_files::{files_change, write_files};
use bitflags::Flags;
use fs_types::{Bytes, Call, CpName, Fault, Group, OpenFlags, Path};
use machine_state::{History, OpenFile, OpenFiles};
use memory_trees::{Node, Tree};
use std::alloc::{AllocError, Global};

/// Whether the call makes a version, where it is not refused: a change outside a group, and an `end` of
/// a group that was changed.
pub fn makes_version(
    history: &History<Tree>,
    group: &Option<Group<Tree>>,
    files: &OpenFiles,
    call: &Call,
) -> bool
    ensures { result ≡ is_some (machine.version_after (machine_with history.now group.now files.now) call.now) }
{
    match group {
        Some(group) => group.is_due && matches!(call, Call::End),
        None => changes_tree(history, files, call),
    }
}

/// Whether the call changes the tree outside a group, where it is not refused.
fn changes_tree(history: &History<Tree>, files: &OpenFiles, call: &Call) -> bool
    ensures { result ≡ is_some (machine.tree_after (machine_with history.now None files.now) call.now) }
{
    match call {
        Call::Open { path, flags } => open_changes(history.root(), path, *flags),
        Call::Pwrite {
            descriptor,
            bytes,
            ..
        } => pwrite_changes(files, *descriptor, bytes),
        Call::Ftruncate { descriptor, length } => {
            ftruncate_changes(history.root(), files, *descriptor, *length)
        }
        Call::WriteFile { path, bytes } => write_file_changes(
            history.root(),
            path,
            bytes.as_slice(),
        ),
        Call::WriteFiles {
            directory,
            files: list,
        } => files_change(history.root(), directory, list.as_slice()),
        Call::Rename { old, new } => old != new,
        Call::Unlink { .. } => true,
        Call::Mkdir { .. } => true,
        Call::Rmdir { .. } => true,
        Call::Rollback { name } => history.checkpoint_root(name).is_ok(),
        _ => false,
    }
}

fn open_changes(tree: &Tree, path: &Path, flags: OpenFlags) -> bool
    ensures { result ≡ machine.open_changes tree.now path.now flags }
{
    if tree.get(path.names()).is_none() {
        return true;
    }
    flags.contains(OpenFlags::TRUNC) && !bytes_at(tree, path).is_empty()
}

fn write_file_changes(tree: &Tree, path: &Path, bytes: &[u8]) -> bool
    ensures { result ≡ machine.write_file_changes tree.now path.now bytes.now }
{
    if tree.get(path.names()).is_none() {
        return true;
    }
    bytes_at(tree, path) != bytes
}

fn pwrite_changes(files: &OpenFiles, descriptor: u64, bytes: &Bytes) -> bool
    ensures { result ≡ (is_some (descriptor_at files.now descriptor) && not (length bytes.now == 0)) }
{
    files.get(descriptor).is_some() && !bytes.as_slice().is_empty()
}

fn ftruncate_changes(tree: &Tree, files: &OpenFiles, descriptor: u64, length: u64) -> bool
    ensures { result ≡ ftruncates tree.now (descriptor_at files.now descriptor) length }
{
    match files.get(descriptor) {
        Some(file) => bytes_at(tree, file.path()).len() as u64 != length,
        None => false,
    }
}

/// The tree with these bytes in the file at a path.
fn with_file(tree: &Tree, path: &Path, bytes: Vec<u8>) -> Result<Tree, AllocError>
    ensures { IfOk result (λ next. next ≡ file_put tree.now path.now bytes.items) }
{
    let mut next = tree.clone()?;
    next.put(path.clone()?, Node::file(bytes))?;
    Ok(next)
}

/// Bytes after others are put at an offset; a gap past the end is zeros.
fn overwrite(alloc: Global, old: &[u8], offset: usize, bytes: &[u8]) -> Result<Vec<u8>, AllocError>
    ensures { IfOk result (λ new. new.items ≡ overwritten old.now offset bytes.now) }
{
    let mut new = resize(alloc, old, offset)?;
    new.extend_from_slice(bytes)?;
    if old.len() > new.len() {
        new.extend_from_slice(&old[new.len()..])?;
    }
    Ok(new)
}

/// Bytes cut to a length, or with zeros up to it.
fn resize(alloc: Global, old: &[u8], length: usize) -> Result<Vec<u8>, AllocError>
    ensures { IfOk result (λ new. new.items ≡ resized old.now length) }
{
    if length <= old.len() {
        return Vec::from_slice(alloc, &old[..length]);
    }
    let mut new = Vec::from_slice(alloc, old)?;
    new.resize(length, 0)?;
    Ok(new)
}

/// The tree that a change makes; none where the call changes no tree.
pub fn tree_after(
    alloc: Global,
    history: &History<Tree>,
    group: &Option<Group<Tree>>,
    files: &OpenFiles,
    call: &Call,
) -> Result<Option<Tree>, AllocError>
    requires { machine.refusal (machine_with history.now group.now files.now) call.now ≡ None }
    ensures { IfOk result (λ next. next ≡ machine.tree_after (machine_with history.now group.now files.now) call.now) }
{
    let tree = working_tree(history, group);
    match call {
        Call::Open { path, flags } => open_path(alloc, tree, path, *flags),
        Call::Pwrite {
            descriptor,
            offset,
            bytes,
        } => write_bytes(alloc, tree, files, *descriptor, *offset, bytes.as_slice()),
        Call::Ftruncate { descriptor, length } => {
            set_length(alloc, tree, files, *descriptor, *length)
        }
        Call::WriteFile { path, bytes } => write_file(alloc, tree, path, bytes.as_slice()),
        Call::WriteFiles {
            directory,
            files: list,
        } => write_files(alloc, tree, directory, list.as_slice()),
        Call::Rename { old, new } => move_path(alloc, tree, files, old, new),
        Call::Unlink { path } => Ok(Some(remove_path(tree, path)?)),
        Call::Mkdir { path } => Ok(Some(with_directory(tree, path)?)),
        Call::Rmdir { path } => Ok(Some(remove_path(tree, path)?)),
        Call::Rollback { name } => rolled_back(history, name),
        _ => Ok(None),
    }
}

fn open_path(
    alloc: Global,
    tree: &Tree,
    path: &Path,
    flags: OpenFlags,
) -> Result<Option<Tree>, AllocError>
    ensures { IfOk result (λ next. next ≡ machine.tree_after (machine_of_tree tree.now none_open) (Call.Open path.now flags)) }
{
    if !open_changes(tree, path, flags) {
        return Ok(None);
    }
    Ok(Some(with_file(tree, path, Vec::new(alloc))?))
}

fn write_bytes(
    alloc: Global,
    tree: &Tree,
    files: &OpenFiles,
    descriptor: u64,
    offset: u64,
    bytes: &[u8],
) -> Result<Option<Tree>, AllocError>
    ensures { IfOk result (λ next. next ≡ machine.tree_after (machine_of_tree tree.now files.now) (Call.Pwrite descriptor offset bytes.now)) }
{
    let Some(file) = files.get(descriptor) else {
        return Ok(None);
    };
    if bytes.is_empty() {
        return Ok(None);
    }
    let old = bytes_at(tree, file.path());
    let new = overwrite(alloc, old, offset as usize, bytes)?;
    Ok(Some(with_file(tree, file.path(), new)?))
}

fn set_length(
    alloc: Global,
    tree: &Tree,
    files: &OpenFiles,
    descriptor: u64,
    length: u64,
) -> Result<Option<Tree>, AllocError>
    ensures { IfOk result (λ next. next ≡ machine.tree_after (machine_of_tree tree.now files.now) (Call.Ftruncate descriptor length)) }
{
    let Some(file) = files.get(descriptor) else {
        return Ok(None);
    };
    let old = bytes_at(tree, file.path());
    if old.len() as u64 == length {
        return Ok(None);
    }
    let new = resize(alloc, old, length as usize)?;
    Ok(Some(with_file(tree, file.path(), new)?))
}

fn write_file(
    alloc: Global,
    tree: &Tree,
    path: &Path,
    bytes: &[u8],
) -> Result<Option<Tree>, AllocError>
    ensures { IfOk result (λ next. next ≡ machine.tree_after (machine_of_tree tree.now none_open) (Call.WriteFile path.now bytes.now)) }
{
    if !write_file_changes(tree, path, bytes) {
        return Ok(None);
    }
    Ok(Some(with_file(tree, path, Vec::from_slice(alloc, bytes)?)?))
}

fn move_path(
    alloc: Global,
    tree: &Tree,
    files: &OpenFiles,
    old: &Path,
    new: &Path,
) -> Result<Option<Tree>, AllocError>
    requires { machine.refusal (machine_of_tree tree.now files.now) (Call.Rename old.now new.now) ≡ None }
    ensures { IfOk result (λ next. next ≡ machine.tree_after (machine_of_tree tree.now files.now) (Call.Rename old.now new.now)) }
{
    if old == new {
        return Ok(None);
    }
    Ok(Some(tree.move_tree(alloc, old.names(), new.names())?))
}

fn remove_path(tree: &Tree, path: &Path) -> Result<Tree, AllocError>
    ensures { IfOk result (λ next. next ≡ remove tree.now path.now) }
{
    let mut next = tree.clone()?;
    next.remove(path);
    Ok(next)
}

fn with_directory(tree: &Tree, path: &Path) -> Result<Tree, AllocError>
    ensures { IfOk result (λ next. next ≡ put tree.now path.now Entry.Dir) }
{
    let mut next = tree.clone()?;
    next.put(path.clone()?, Node::dir())?;
    Ok(next)
}

fn rolled_back(history: &History<Tree>, name: &CpName) -> Result<Option<Tree>, AllocError>
    ensures { IfOk result (λ next. next ≡ checkpoint_root history.now name.now) }
{
    match history.checkpoint_root(name) {
        Ok(root) => Ok(Some(root.clone()?)),
        Err(_) => Ok(None),
    }
}

/// What a call leaves of the history and of the group that changes no tree. The only error is
/// [`Fault::NoMemory`], which leaves both unchanged.
pub fn move_history(
    history: &mut History<Tree>,
    group: &mut Option<Group<Tree>>,
    call: &Call,
) -> Result<(), Fault>
    requires accepted { moving_refusal history.old call.now ≡ None }
    requires serial { call.now ≡ Call.End → is_some (due_root group.old) ≡ true → history.old.next < u64.MAX }
    ensures history { OnOk result (history.new ≡ history_still history.old group.old call.now) }
    ensures group { OnOk result (group.new ≡ group_still history.old group.old call.now) }
    ensures refused { IfErr result (λ fault. fault ≡ Fault.NoMemory) }
    ensures err_history { OnErr result (history.new ≡ history.old) }
    ensures err_group { OnErr result (group.new ≡ group.old) }
{
    match call {
        Call::Undo => history.undo()?,
        Call::Redo => history.redo()?,
        Call::Goto { serial } => history.goto(*serial)?,
        Call::Forget { count } => history.forget(*count)?,
        Call::Checkpoint { name } => keep_present(history, name)?,
        Call::RemoveCheckpoint { name } => history.remove_checkpoint(name)?,
        Call::Begin => begin(history, group)?,
        Call::End => end(history, group),
        Call::Abandon => *group = None,
        _ => (),
    }
    Ok(())
}

fn keep_present(history: &mut History<Tree>, name: &CpName) -> Result<(), Fault>
    requires { checkpoint_refusal history.old name.now ≡ None }
    ensures ok { OnOk result (history.new ≡ with_checkpoint history.old name.now) }
    ensures refused { IfErr result (λ fault. fault ≡ Fault.NoMemory) }
    ensures err { OnErr result (history.new ≡ history.old) }
{
    let tree = history.root().clone()?;
    history.checkpoint(name.clone()?, tree)
}

/// The file that a call opens, if it is an open.
pub fn opened_file(call: &Call) -> Result<Option<OpenFile>, AllocError>
    ensures { IfOk result (λ file. file ≡ file_of call.now) }
{
    match call {
        Call::Open { path, flags } => Ok(Some(OpenFile::new(path.clone()?, *flags))),
        _ => Ok(None),
    }
}

/// What a call leaves of the open files.
pub fn settle_files(files: &mut OpenFiles, call: &Call, file: Option<OpenFile>)
    requires { file ≡ file_of call.now }
    ensures { files.new ≡ machine.descriptors_after (machine_of_tree bare files.old) call.now }
{
    if let Call::Close { descriptor } = call {
        files.close(*descriptor);
    }
    if let Some(file) = file {
        if let Some(descriptor) = files.least_free() {
            files.open(descriptor, file);
        }
    }
}
