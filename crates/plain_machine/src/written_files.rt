//! Files of one directory that are written together: why they are not, which change, the tree after,
//! and the nodes of their bodies.
ghost use Rattle.std.specs.Prelude.{◌≡◌, ◌<◌, min, not, ◌==◌, length, Some, None, IfOk};
ghost use Rattle.std.specs.Option.{option_or, option_copied};
ghost use Rattle.std.specs.List.{list_any};
ghost use Rattle.fs_types.specs.NamedFiles.{path_in};
ghost use Rattle.fs_types.specs.declared.limits.TheConstants.{MAX_NAMES};
ghost use Rattle.plain_trees.specs.Files.{bodies_need};
ghost use Rattle.plain_trees.specs.Trees.{entry_count};
ghost use Rattle.history_machine.specs.Machine as machine;
ghost use Rattle.history_machine.specs.Descriptors.{none_open};
ghost use Rattle.history_machine.specs.NextFiles as next;
ghost use Rattle.plain_machine.specs.Plain.{machine_of_tree};

use crate::needs::body_need;
use fs_types::{Fault, MAX_ENTRIES, MAX_FILE_BYTES, NamedFile, Path, files_refusal};
use machine_state::OpenFiles;
use memory_trees::{Node, Tree};
use std::alloc::{AllocError, Global};

/// Why files are not written in a directory of a tree, with these files open.
pub fn write_files_refusal(
    tree: &Tree,
    files: &OpenFiles,
    directory: &Path,
    list: &[NamedFile],
) -> Option<Fault>
    ensures { result ≡ machine.write_files_refusal tree.now files.now directory.now list.now }
{
    if let Some(fault) = files_refusal(directory, list) {
        return Some(fault);
    }
    if list.is_empty() {
        return None;
    }
    if let Some(fault) = tree.entering_refusal(directory.names()) {
        return Some(fault);
    }
    next_refusals(tree, files, directory, list)
}

/// The first refusal of files in turn, in a directory whose way is there.
fn next_refusals(
    tree: &Tree,
    files: &OpenFiles,
    directory: &Path,
    list: &[NamedFile],
) -> Option<Fault>
    ensures { result ≡ next.next_refusals tree.now files.now directory.now (entry_count tree.now directory.now) list.now }
{
    let mut count = tree.entry_count(directory.names());
    for file in list {
        let known = tree.get_in(directory.names(), &file.name);
        if let Some(fault) = next_refusal(files, directory, known, count, file) {
            return Some(fault);
        }
        if known.is_none() {
            count += 1;
        }
    }
    None
}

/// Why a file is not written, by what is known to stand there, where its directory has so many entries
/// by then.
fn next_refusal(
    files: &OpenFiles,
    directory: &Path,
    known: Option<&Node>,
    count: usize,
    file: &NamedFile,
) -> Option<Fault>
    ensures { result ≡ option_or (next.next_entry_refusal files.now (path_in directory.now file.now) count (option_copied known.entry)) (machine.size_refusal file.now.bytes) }
{
    match known {
        None if count >= MAX_ENTRIES => return Some(Fault::DirectoryFull),
        Some(node) if node.is_dir() => return Some(Fault::IsDirectory),
        Some(_) if files.is_open_in(directory, &file.name) => return Some(Fault::Busy),
        _ => (),
    }
    if file.bytes.as_slice().len() > MAX_FILE_BYTES as usize {
        return Some(Fault::TooBig);
    }
    None
}

/// Whether a file of a directory is missing, or has other bytes.
fn file_changes(tree: &Tree, directory: &Path, file: &NamedFile) -> bool
    ensures { result ≡ machine.write_file_changes tree.now (path_in directory.now file.now) file.now.bytes }
{
    match tree.get_in(directory.names(), &file.name) {
        Some(node) => node.bytes() != file.bytes.as_slice(),
        None => true,
    }
}

/// Whether any of the files changes.
pub fn files_change(tree: &Tree, directory: &Path, list: &[NamedFile]) -> bool
    ensures { result ≡ not (length (machine.changed_files tree.now directory.now list.now) == 0) }
{
    any_changes(tree, directory, list)
}

fn any_changes(tree: &Tree, directory: &Path, list: &[NamedFile]) -> bool
    ensures { result ≡ list_any (λ file. machine.write_file_changes tree.now (path_in directory.now file) file.bytes) list.now }
{
    list.iter().any(|file| file_changes(tree, directory, file))
}

/// The tree with the files in a directory; none where none of them changes.
pub fn write_files(
    alloc: Global,
    tree: &Tree,
    directory: &Path,
    list: &[NamedFile],
) -> Result<Option<Tree>, AllocError>
    requires { 0 < length list.now → length directory.now < MAX_NAMES }
    ensures { IfOk result (λ next. next ≡ machine.write_files_tree (machine_of_tree tree.now none_open) directory.now list.now) }
{
    if !files_change(tree, directory, list) {
        return Ok(None);
    }
    let mut next = tree.clone()?;
    for file in list {
        if file_changes(tree, directory, file) {
            let bytes = Vec::from_slice(alloc, file.bytes.as_slice())?;
            next.put(file.path_in(directory)?, Node::file(bytes))?;
        }
    }
    Ok(Some(next))
}

/// The nodes of the bodies of the files that change.
pub fn changed_bodies(tree: &Tree, capacity: u64, directory: &Path, list: &[NamedFile]) -> u64
    requires { 0 < capacity }
    ensures { result ≡ min (bodies_need capacity (machine.changed_files tree.now directory.now list.now)) u64.MAX }
{
    let mut need: u64 = 0;
    for file in list {
        if file_changes(tree, directory, file) {
            need = need.saturating_add(body_need(capacity, file.bytes.as_slice().len() as u64));
        }
    }
    need
}
