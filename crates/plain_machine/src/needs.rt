//! How many nodes a call may write. A number past the greatest `u64` is told as that.
ghost use Rattle.std.specs.Prelude.{◌≡◌, ◌+◌, ◌<◌, ◌≤◌, min, not, ◌==◌, length, true, false, Some, None};
ghost use Rattle.plain_trees.specs.Contents as contents;
ghost use Rattle.plain_trees.specs.Trees as tree;
ghost use Rattle.history_machine.specs.Machine as machine;
ghost use Rattle.history_machine.specs.Machine.{machine_with};
ghost use Rattle.fs_types.specs.declared.call.Call.{Call};

use crate::groups::working_tree;
use crate::replies::bytes_at;
use crate::written_files::changed_bodies;
use fs_types::{Call, Group, NODE_ENTRIES, Name, Path};
use machine_state::{History, OpenFiles};
use memory_trees::Tree;

/// How many nodes a directory of so many entries has.
fn nodes_for(entries: usize) -> u64
    ensures { result ≡ tree.nodes_for entries }
{
    entries.div_ceil(NODE_ENTRIES).max(1) as u64
}

/// How many nodes the directory at a path has in one tree or in the other: the greater number.
fn directory_need(before: &Tree, after: &Tree, path: &[Name]) -> u64
    ensures { result ≡ tree.directory_need before.now after.now path.now }
{
    nodes_for(before.entry_count(path)).max(nodes_for(after.entry_count(path)))
}

/// How many nodes of directories a change of what stands at a path may write, from one tree to the
/// other.
fn path_need(before: &Tree, after: &Tree, path: &Path) -> u64
    ensures { result ≡ min (tree.path_need before.now after.now path.now) u64.MAX }
{
    let names = path.names();
    let mut need: u64 = 0;
    for i in 0..names.len() {
        need = need.saturating_add(directory_need(before, after, &names[..i]));
    }
    need
}

/// The body nodes of a file from the one that has the place `from` up to its last.
fn nodes_from(capacity: u64, from: u64, size: u64) -> u64
    requires { 0 < capacity }
    ensures { result ≡ min (contents.nodes_from capacity from size) u64.MAX }
{
    let last = size.saturating_sub(1) / capacity;
    last.saturating_sub(from / capacity).saturating_add(1)
}

/// The nodes of a file's body that `pwrite` writes, which does not go past the greatest place.
fn pwrite_need(capacity: u64, size: u64, offset: u64, count: u64) -> u64
    requires room { 0 < capacity }
    requires fits { offset + count ≤ u64.MAX }
    ensures { result ≡ min (contents.pwrite_need capacity size offset count) u64.MAX }
{
    nodes_from(capacity, offset.min(size), size.max(offset + count))
}

/// The nodes of a file's body that `ftruncate` writes.
fn ftruncate_need(capacity: u64, size: u64, new: u64) -> u64
    requires { 0 < capacity }
    ensures { result ≡ min (contents.ftruncate_need capacity size new) u64.MAX }
{
    if size < new {
        nodes_from(capacity, size, new)
    } else {
        0
    }
}

/// The nodes of the body of a file of so many bytes.
pub fn body_need(capacity: u64, size: u64) -> u64
    requires { 0 < capacity }
    ensures { result ≡ min (contents.body_need capacity size) u64.MAX }
{
    ftruncate_need(capacity, 0, size)
}

/// How many nodes an accepted call may write that makes this tree, where a body node has room for so
/// many data bytes.
pub fn change_need(
    history: &History<Tree>,
    group: &Option<Group<Tree>>,
    files: &OpenFiles,
    after: &Tree,
    capacity: u64,
    call: &Call,
) -> u64
    requires room { 0 < capacity }
    requires accepted { machine.refusal (machine_with history.now group.now files.now) call.now ≡ None }
    requires made { machine.tree_after (machine_with history.now group.now files.now) call.now ≡ Some after.now }
    ensures { result ≡ min (machine.change_need capacity (machine_with history.now group.now files.now) call.now) u64.MAX }
{
    let before = working_tree(history, group);
    match call {
        Call::Open { path, .. } => path_need(before, after, path),
        Call::Mkdir { path } => path_need(before, after, path).saturating_add(1),
        Call::Unlink { path } => path_need(before, after, path),
        Call::Rmdir { path } => path_need(before, after, path),
        Call::WriteFile { path, bytes } => {
            let body = body_need(capacity, bytes.as_slice().len() as u64);
            body.saturating_add(path_need(before, after, path))
        }
        Call::WriteFiles {
            directory,
            files: list,
        } => {
            let bodies = changed_bodies(before, capacity, directory, list.as_slice());
            let way = path_need(before, after, directory);
            bodies
                .saturating_add(way)
                .saturating_add(directory_need(before, after, directory.names()))
        }
        Call::Rename { old, new } => {
            path_need(before, after, old).saturating_add(path_need(before, after, new))
        }
        Call::Pwrite {
            descriptor,
            offset,
            bytes,
        } => {
            let Some(file) = files.get(*descriptor) else {
                return 0;
            };
            let size = bytes_at(before, file.path()).len() as u64;
            let body = pwrite_need(capacity, size, *offset, bytes.as_slice().len() as u64);
            body.saturating_add(path_need(before, after, file.path()))
        }
        Call::Ftruncate { descriptor, length } => {
            let Some(file) = files.get(*descriptor) else {
                return 0;
            };
            let size = bytes_at(before, file.path()).len() as u64;
            let body = ftruncate_need(capacity, size, *length);
            body.saturating_add(path_need(before, after, file.path()))
        }
        _ => 0,
    }
}
