//! Many files of one directory put at once: their bodies first, in order, then the directory, and then
//! the directories above it.
ghost use Rattle.std.specs.Prelude.{◌≡◌, ℕ, ◌+◌, ◌-◌, ◌≤◌, false, length, Some, Ok, IfOk, All};
ghost use Rattle.fs_types.specs.declared.limits.TheConstants.{MAX_FILE_BYTES};
ghost use Rattle.plain_trees.specs.Contents.{body_need};
ghost use Rattle.plain_trees.specs.Files.{files_put, bodies_need};
ghost use Rattle.node_format.specs.Headers.{body_header};
ghost use Rattle.node_format.specs.declared.place.Place.TheVariants.{Dir};
ghost use Rattle.nodes.specs.Trees.{leads};
ghost use Rattle.directory.specs.Counts.{nodes_in, path_nodes};
ghost use Rattle.directory.specs.declared.lookups.Found.TheVariants as found;
ghost use Rattle.directory.specs.Lookups.{look_up};
ghost use Rattle.directory.specs.Trails.{IsTrail, IsChangeFault};
ghost use Rattle.tree_edits.specs.Edits.{AreWritable, chosen, files_nodes};
ghost use Rattle.tree_edits.specs.Roots.{IsApplied, tree_of, IsNewFile, AreNewFiles, IsLinked};
ghost use Rattle.nodes.specs.Words.{IsHeld, IsRoot, Keeps, WorksWithin};
ghost use Rattle.tree_edits.specs.Writing.{IsWritingFault};

use crate::files::write_body;
use directory::{NamedPlace, Trail, put_entry, put_in_directory};
use fs_types::{Fault, NamedFile, Path};
use node_format::Place;
use nodes::Nodes;
use std::alloc::Global;

/// The place of a file of these bytes: its body is written beside those that are there.
fn write_place<N: Nodes>(alloc: Global, nodes: &mut N, bytes: &[u8]) -> Result<Place, Fault>
    requires sound { N.is_sound nodes.old }
    requires fits { length bytes.now ≤ MAX_FILE_BYTES }

    // The new file, and that all else stays.
    ensures written { IfOk result (IsNewFile (N.limit nodes.old - body_header) (N.kept nodes.old) (N.node nodes.new) (N.kept nodes.new) bytes.now) }
    ensures keeps { Keeps N.Nodes nodes.old nodes.new }

    // What it asks of the nodes.
    ensures calls { WorksWithin N.Nodes IsWritingFault 1 (body_need (N.limit nodes.old - body_header) (length bytes.now)) nodes.old result nodes.new }
{
    let body = write_body(alloc, nodes, bytes)?;
    Ok(Place::File {
        head: body.head,
        length: body.length,
    })
}

/// The places of those of these files that change, in order: the body of each is written beside those
/// that are there.
fn write_bodies<'n, N: Nodes>(
    alloc: Global,
    nodes: &mut N,
    files: &'n [NamedFile],
    changes: &[bool],
) -> Result<Vec<NamedPlace<'n>>, Fault>
    requires sound { N.is_sound nodes.old }
    requires counted { length changes.now ≡ length files.now }
    requires short { All (λ file. length file.bytes ≤ MAX_FILE_BYTES) files.now }

    // The new files, and that all else stays.
    ensures written { IfOk result (λ puts. AreNewFiles (N.limit nodes.old - body_header) (N.kept nodes.old) (N.node nodes.new) (N.kept nodes.new) (chosen files.now changes.now) puts.items) }
    ensures keeps { Keeps N.Nodes nodes.old nodes.new }

    // What it asks of the nodes.
    ensures calls { WorksWithin N.Nodes IsWritingFault (length (chosen files.now changes.now)) (bodies_need (N.limit nodes.old - body_header) (chosen files.now changes.now)) nodes.old result nodes.new }
{
    let mut puts = Vec::new(alloc);
    for i in 0..files.len() {
        if !changes[i] {
            continue;
        }
        let file = &files[i];
        let place = write_place(alloc, nodes, file.bytes.as_slice())?;
        let name = &file.name;
        puts.push(NamedPlace { name, place })?;
    }
    Ok(puts)
}

/// Makes the path of a directory lead to the one that begins in a block, which is the new root where
/// the path is the root's.
fn link_directory<N: Nodes>(
    alloc: Global,
    nodes: &mut N,
    root: u32,
    trail: &Trail,
    directory: &Path,
    block: u32,
) -> Result<u32, Fault>
    requires sound { N.is_sound nodes.old }
    requires held { IsHeld N.Nodes nodes.old (Dir root) }
    requires way { IsTrail (N.node nodes.old) root directory.now trail.now }
    requires led { (was : ℕ) × (look_up (N.node nodes.old) root directory.now ≡ Ok (found.Dir was)) × (leads (N.node nodes.old) (Dir root) directory.now ≡ Some (Dir was)) }

    // The new tree, and that the old one stays.
    ensures linked { IfOk result (λ to. IsLinked (N.node nodes.old) (N.node nodes.new) (N.kept nodes.old) (N.kept nodes.new) root to directory.now block) }
    ensures keeps { Keeps N.Nodes nodes.old nodes.new }

    // What it asks of the nodes.
    ensures calls { WorksWithin N.Nodes IsChangeFault (path_nodes (N.node nodes.old) trail.now directory.now false 0) (path_nodes (N.node nodes.old) trail.now directory.now false 0) nodes.old result nodes.new }
{
    if directory.is_root() {
        return Ok(block);
    }
    put_entry(alloc, nodes, root, trail, directory, Place::Dir { block })
}

/// Puts those of these files that change in the directory at a path, which begins in this block.
pub(crate) fn write_files<N: Nodes>(
    alloc: Global,
    nodes: &mut N,
    root: u32,
    trail: &Trail,
    directory: &Path,
    block: u32,
    files: &[NamedFile],
    changes: &[bool],
) -> Result<u32, Fault>
    requires sound { N.is_sound nodes.old }
    requires held { IsHeld N.Nodes nodes.old (Dir root) }
    requires rooted { IsRoot N.Nodes nodes.old root }
    requires writable { AreWritable (N.node nodes.old) root directory.now trail.now block files.now changes.now }

    // The edited tree, and how many nodes were read for it.
    ensures applied { IsApplied N.Nodes root (files_put (tree_of N.Nodes nodes.old root) directory.now (chosen files.now changes.now)) (files_nodes (N.limit nodes.old - body_header) (N.node nodes.old) trail.now directory.now block (chosen files.now changes.now)) nodes.old result nodes.new }
    ensures reads { N.reads nodes.new ≤ N.reads nodes.old + (length (chosen files.now changes.now) + (nodes_in (N.node nodes.old) block + path_nodes (N.node nodes.old) trail.now directory.now false 0)) }
{
    let puts = write_bodies(alloc, nodes, files, changes)?;
    let to = put_in_directory(alloc, nodes, block, puts.as_slice())?;
    link_directory(alloc, nodes, root, trail, directory, to)
}
