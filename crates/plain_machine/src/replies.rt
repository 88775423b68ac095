//! What calls answer that change nothing.
ghost use Rattle.std.specs.Prelude.{◌≡◌, [], Some, None, IfOk};
ghost use Rattle.std.specs.FinMap.{get};
ghost use Rattle.plain_trees.specs.Trees.{children};
ghost use Rattle.history_machine.specs.Descriptors.{none_open};
ghost use Rattle.history_machine.specs.Machine as machine;
ghost use Rattle.plain_trees.specs.Contents as contents;
ghost use Rattle.plain_trees.specs.Trees as plain;
ghost use Rattle.fs_types.specs.declared.call.Call.{Call};
ghost use Rattle.fs_types.specs.declared.call.Reply.{Reply};
ghost use Rattle.plain_machine.specs.Plain.{machine_of_tree, no_space};
ghost use Rattle.plain_machine.specs.Spaces.{space_of};
ghost use Rattle.history_machine.specs.Machine.{machine_with};

use crate::entries::entries_after;
use crate::groups::{seen_tree, working_tree};
use crate::space::Space;
use fs_types::{Call, Group, Name, Path, Reply, Sequence, Stat, View};
use machine_state::{History, OpenFiles};
use memory_trees::Tree;
use std::alloc::{AllocError, Global};

/// The bytes of the file at a path; none where no file is.
pub fn bytes_at<'a>(tree: &'a Tree, path: &Path) -> &'a [u8]
    ensures { result.now ≡ plain.bytes_of_file tree.now path.now }
{
    match tree.get(path.names()) {
        Some(node) => node.bytes(),
        None => &[],
    }
}

/// At most `count` bytes from `offset` on.
fn read_from(bytes: &[u8], offset: u64, count: u64) -> &[u8]
    ensures { result.now ≡ contents.read_from bytes.now offset count }
{
    if offset >= bytes.len() as u64 {
        return &[];
    }
    let rest = &bytes[offset as usize..];
    if count >= rest.len() as u64 {
        return rest;
    }
    &rest[..count as usize]
}

fn bytes_reply(alloc: Global, bytes: &[u8]) -> Result<Reply, AllocError>
    ensures { IfOk result (λ reply. reply ≡ Reply.Bytes bytes.now) }
{
    Ok(Reply::Bytes(Sequence::from_slice(alloc, bytes)?))
}

/// What an accepted call answers, of the machine as it is before the call.
pub fn reply(
    alloc: Global,
    history: &History<Tree>,
    group: &Option<Group<Tree>>,
    files: &OpenFiles,
    space: Space,
    call: &Call,
) -> Result<Reply, AllocError>
    requires { machine.refusal (machine_with history.now group.now files.now) call.now ≡ None }
    ensures { IfOk result (λ reply. reply ≡ machine.reply_of (space_of space) (machine_with history.now group.now files.now) call.now) }
{
    match call {
        Call::Open { .. } => Ok(Reply::Fd(files.least_free().unwrap_or(0))),
        Call::Pread {
            descriptor,
            offset,
            count,
        } => pread(
            alloc,
            working_tree(history, group),
            files,
            *descriptor,
            *offset,
            *count,
        ),
        Call::Pwrite { bytes, .. } => Ok(Reply::Count(bytes.as_slice().len() as u64)),
        Call::Stat { view, path } => Ok(stat(history, group, view, path)),
        Call::List { view, path } => list(alloc, history, group, view, path),
        Call::ReadAt {
            view,
            path,
            offset,
            count,
        } => read_at(alloc, history, group, view, path, *offset, *count),
        Call::Entries {
            view,
            path,
            from,
            most,
        } => entries(alloc, history, group, view, path, from, *most),
        Call::Log => log(alloc, history),
        Call::Df => Ok(Reply::Df {
            blocks: space.blocks,
            bad: space.bad,
            free: space.free,
            anchors: space.anchors,
        }),
        _ => Ok(Reply::Empty),
    }
}

fn pread(
    alloc: Global,
    tree: &Tree,
    files: &OpenFiles,
    descriptor: u64,
    offset: u64,
    count: u64,
) -> Result<Reply, AllocError>
    ensures { IfOk result (λ reply. reply ≡ machine.reply_of no_space (machine_of_tree tree.now files.now) (Call.Pread descriptor offset count)) }
{
    match files.get(descriptor) {
        Some(file) => {
            let bytes: &[u8] = bytes_at(tree, file.path());
            bytes_reply(alloc, read_from(bytes, offset, count))
        }
        None => bytes_reply(alloc, &[]),
    }
}

fn stat(history: &History<Tree>, group: &Option<Group<Tree>>, view: &View, path: &Path) -> Reply
    requires { machine.refusal (machine_with history.now group.now none_open) (Call.Stat view.now path.now) ≡ None }
    ensures { result ≡ machine.reply_of no_space (machine_with history.now group.now none_open) (Call.Stat view.now path.now) }
{
    match seen_tree(history, group, view) {
        Ok(tree) => Reply::Stat(stat_of(tree, path.names())),
        Err(_) => Reply::Empty,
    }
}

/// What stands at the path of these names, of one that leads somewhere.
pub fn stat_of(tree: &Tree, path: &[Name]) -> Stat
    ensures { result ≡ machine.stat_at tree.now path.now }
{
    match tree.get(path) {
        Some(node) if !node.is_dir() => Stat::File(node.bytes().len() as u64),
        _ => Stat::Dir(tree.entry_count(path) as u64),
    }
}

fn list(
    alloc: Global,
    history: &History<Tree>,
    group: &Option<Group<Tree>>,
    view: &View,
    path: &Path,
) -> Result<Reply, AllocError>
    requires { machine.refusal (machine_with history.now group.now none_open) (Call.List view.now path.now) ≡ None }
    ensures { IfOk result (λ reply. reply ≡ machine.reply_of no_space (machine_with history.now group.now none_open) (Call.List view.now path.now)) }
{
    match seen_tree(history, group, view) {
        Ok(tree) => Ok(Reply::Names(tree.children(alloc, path.names())?)),
        Err(_) => Ok(Reply::Empty),
    }
}

fn read_at(
    alloc: Global,
    history: &History<Tree>,
    group: &Option<Group<Tree>>,
    view: &View,
    path: &Path,
    offset: u64,
    count: u64,
) -> Result<Reply, AllocError>
    requires { machine.refusal (machine_with history.now group.now none_open) (Call.ReadAt view.now path.now offset count) ≡ None }
    ensures { IfOk result (λ reply. reply ≡ machine.reply_of no_space (machine_with history.now group.now none_open) (Call.ReadAt view.now path.now offset count)) }
{
    match seen_tree(history, group, view) {
        Ok(tree) => bytes_reply(alloc, read_from(bytes_at(tree, path), offset, count)),
        Err(_) => Ok(Reply::Empty),
    }
}

fn entries(
    alloc: Global,
    history: &History<Tree>,
    group: &Option<Group<Tree>>,
    view: &View,
    path: &Path,
    from: &Option<Name>,
    most: u64,
) -> Result<Reply, AllocError>
    requires { machine.refusal (machine_with history.now group.now none_open) (Call.Entries view.now path.now from.now most) ≡ None }
    ensures { IfOk result (λ reply. reply ≡ machine.reply_of no_space (machine_with history.now group.now none_open) (Call.Entries view.now path.now from.now most)) }
{
    match seen_tree(history, group, view) {
        Ok(tree) => Ok(Reply::Entries(entries_after(
            alloc,
            tree,
            path.names(),
            from.as_ref(),
            most,
        )?)),
        Err(_) => Ok(Reply::Empty),
    }
}

fn log(alloc: Global, history: &History<Tree>) -> Result<Reply, AllocError>
    ensures { IfOk result (λ reply. reply ≡ machine.log_of history.now) }
{
    let versions = history.serials(alloc)?;
    let checkpoints = history.checkpoint_names(alloc)?;
    Ok(Reply::Log {
        next: history.next_serial(),
        dropped: history.has_dropped(),
        versions,
        cursor: history.cursor() as u64,
        checkpoints,
    })
}
