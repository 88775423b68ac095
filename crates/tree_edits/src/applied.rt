//! Edits carried out.
ghost use Rattle.std.specs.Prelude.{◌≡◌, ◌-◌, Ok};
ghost use Rattle.node_format.specs.Headers.{body_header};
ghost use Rattle.node_format.specs.declared.place.Place.TheVariants.{Dir};
ghost use Rattle.nodes.specs.Words.{IsHeld, IsRoot};
ghost use Rattle.tree_edits.specs.Edits.{IsEditable, ReadsFew, effect, source, edit_need};
ghost use Rattle.tree_edits.specs.Roots.{IsApplied, tree_of};

use crate::directory_files::write_files;
use crate::edits::Edit;
use crate::files::{overwrite, put_empty, resize, write_file};
use directory::{move_entry, put_directory, remove_entry};
use fs_types::Fault;
use nodes::Nodes;
use std::alloc::Global;

/// Applies an edit to the tree of a root, as what was looked up allows, and answers the new root. It
/// writes at most as many nodes as the edit needs, and reads each node of the directories that are
/// written anew once more at most. The old root stays as it was, whatever is answered.
///
/// Refused only with what reads and writes are refused with, and with `NoMemory`. An edit that needs
/// no node is not refused, and leaves the nodes as they were.
pub fn apply<N: Nodes>(
    alloc: Global,
    nodes: &mut N,
    root: u32,
    edit: Edit<'_, '_>,
) -> Result<u32, Fault>
    requires sound { N.is_sound nodes.old }
    requires held { IsHeld N.Nodes nodes.old (Dir root) }
    requires rooted { IsRoot N.Nodes nodes.old root }
    requires editable { IsEditable (N.limit nodes.old - body_header) (N.node nodes.old) (N.kept nodes.old) root edit }

    // The new tree, and that the old one stays; what it is refused with, and how much it writes and reads.
    ensures applied { IsApplied N.Nodes (source root edit.entry) (effect (tree_of N.Nodes nodes.old) edit.entry (tree_of N.Nodes nodes.old root)) (edit_need (N.limit nodes.old - body_header) (N.node nodes.old) edit.entry) nodes.old result nodes.new }
    ensures still { edit_need (N.limit nodes.old - body_header) (N.node nodes.old) edit.entry ≡ 0 → (nodes.new ≡ nodes.old) × (result ≡ Ok (source root edit.entry)) }
    ensures reads { ReadsFew (N.limit nodes.old - body_header) (N.node nodes.old) edit.entry (N.reads nodes.old) (N.reads nodes.new) }
{
    match edit {
        Edit::MakeDirectory { path, trail } => put_directory(alloc, nodes, root, trail, path),
        Edit::PutEmptyFile { path, trail } => put_empty(alloc, nodes, root, trail, path),
        Edit::WriteFile { path, trail, bytes } => {
            write_file(alloc, nodes, root, trail, path, bytes)
        }
        Edit::WriteFiles {
            directory,
            trail,
            block,
            files,
            changes,
        } => write_files(alloc, nodes, root, trail, directory, block, files, changes),
        Edit::Overwrite {
            path,
            trail,
            body,
            offset,
            bytes,
        } => overwrite(alloc, nodes, root, trail, path, body, offset, bytes),
        Edit::SetLength {
            path,
            trail,
            body,
            length,
        } => resize(alloc, nodes, root, trail, path, body, length),
        Edit::Remove { path, trail } => remove_entry(alloc, nodes, root, trail, path),
        Edit::Move {
            old,
            old_trail,
            new,
            new_trail,
            place,
        } => move_entry(alloc, nodes, root, old_trail, old, new_trail, new, place),
        Edit::Restore { root } => Ok(root),
    }
}
