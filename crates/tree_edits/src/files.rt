//! Files with other bytes.
ghost use Rattle.std.specs.Prelude.{◌≡◌, ℕ, ◌+◌, ◌-◌, ◌≤◌, ◌<◌, true, false, length, Some, Ok, [], IfOk};
ghost use Rattle.plain_trees.specs.Contents.{Entry, overwritten, resized, pwrite_need, ftruncate_need, body_need};
ghost use Rattle.plain_trees.specs.Trees.{put};
ghost use Rattle.fs_types.specs.declared.limits.TheConstants.{MAX_FILE_BYTES};
ghost use Rattle.node_format.specs.Headers.{body_header};
ghost use Rattle.node_format.specs.declared.place.Place.TheVariants.{File};
ghost use Rattle.nodes.specs.Bodies.{head_index};
ghost use Rattle.nodes.specs.Rewritten.{IsRewritten};
ghost use Rattle.directory.specs.declared.lookups.Found.{Found};
ghost use Rattle.directory.specs.declared.lookups.Found.TheVariants as found;
ghost use Rattle.directory.specs.Counts.{path_nodes};
ghost use Rattle.directory.specs.Edits.{OnlyReaches};
ghost use Rattle.directory.specs.Lookups.{look_up};
ghost use Rattle.directory.specs.Trails.{IsSought, IsChangeFault};
ghost use Rattle.tree_edits.specs.Edits.{TakesFile, overwrite_reads, resize_reads, with_file};
ghost use Rattle.tree_edits.specs.Roots.{IsApplied, IsFreshBody, IsLookedUp, tree_of};
ghost use Rattle.nodes.specs.Words.{Keeps, WorksWithin};
ghost use Rattle.tree_edits.specs.Writing.{IsWritten, IsWritingFault};
ghost use Rattle.tree_edits.specs.Reading.{HasDigits};

use crate::changes::{set_length, write_range};
use crate::file_body::Body;
use directory::{Trail, put_entry};
use fs_types::{Fault, Path};
use node_format::Place;
use nodes::Nodes;
use std::alloc::Global;

/// Makes a path lead to a file of this body.
fn put_body<N: Nodes>(
    alloc: Global,
    nodes: &mut N,
    root: u32,
    trail: &Trail,
    path: &Path,
    body: Body,
) -> Result<u32, Fault>
    requires sound { N.is_sound nodes.old }
    requires sought { IsSought (N.node nodes.old) (N.kept nodes.old) root path.now trail.now }
    requires fits { (x : Found) × (look_up (N.node nodes.old) root path.now ≡ Ok x) × TakesFile x }
    requires short { body.length ≤ MAX_FILE_BYTES }

    // The new tree, and that the old one stays.
    ensures rewritten { IfOk result (λ to. IsRewritten (N.node nodes.old) (N.node nodes.new) (N.kept nodes.old) (N.kept nodes.new) root to path.now (Some (File body.head body.length))) }
    ensures reaches { IfOk result (λ to. OnlyReaches (N.node nodes.old) (N.node nodes.new) (N.kept nodes.old) root to (Some (File body.head body.length))) }
    ensures keeps { Keeps N.Nodes nodes.old nodes.new }

    // What it asks of the nodes.
    ensures calls { WorksWithin N.Nodes IsChangeFault (path_nodes (N.node nodes.old) trail.now path.now false 0) (path_nodes (N.node nodes.old) trail.now path.now true 0) nodes.old result nodes.new }
{
    let place = Place::File {
        head: body.head,
        length: body.length,
    };
    put_entry(alloc, nodes, root, trail, path, place)
}

/// Puts an empty file at a path, where nothing stands in a directory with room, or a file.
pub(crate) fn put_empty<N: Nodes>(
    alloc: Global,
    nodes: &mut N,
    root: u32,
    trail: &Trail,
    path: &Path,
) -> Result<u32, Fault>
    requires sound { N.is_sound nodes.old }
    requires looked { IsLookedUp N.Nodes nodes.old root path.now trail.now }
    requires fits { (x : Found) × (look_up (N.node nodes.old) root path.now ≡ Ok x) × TakesFile x }

    // The edited tree, and how many nodes were read for it.
    ensures applied { IsApplied N.Nodes root (put (tree_of N.Nodes nodes.old root) path.now (Entry.File [])) (path_nodes (N.node nodes.old) trail.now path.now true 0) nodes.old result nodes.new }
    ensures reads { N.reads nodes.new ≤ N.reads nodes.old + path_nodes (N.node nodes.old) trail.now path.now false 0 }
{
    let body = Body { head: 0, length: 0 };
    put_body(alloc, nodes, root, trail, path, body)
}

/// A body of these bytes, beside those that are there.
pub(crate) fn write_body<N: Nodes>(
    alloc: Global,
    nodes: &mut N,
    bytes: &[u8],
) -> Result<Body, Fault>
    requires sound { N.is_sound nodes.old }
    requires fits { length bytes.now ≤ MAX_FILE_BYTES }

    // The new body, and that all else stays.
    ensures written { IfOk result (λ new. IsWritten (N.limit nodes.old - body_header) (N.node nodes.new) (N.kept nodes.new) new bytes.now) }
    ensures fresh { IfOk result (IsFreshBody (N.kept nodes.old) (N.node nodes.new)) }
    ensures keeps { Keeps N.Nodes nodes.old nodes.new }

    // What it asks of the nodes.
    ensures calls { WorksWithin N.Nodes IsWritingFault 1 (body_need (N.limit nodes.old - body_header) (length bytes.now)) nodes.old result nodes.new }
{
    let none = Body { head: 0, length: 0 };
    if bytes.is_empty() {
        return Ok(none);
    }
    write_range(alloc, nodes, none, 0, bytes)
}

/// Puts a file of these bytes at a path, where nothing stands in a directory with room, or a file.
pub(crate) fn write_file<N: Nodes>(
    alloc: Global,
    nodes: &mut N,
    root: u32,
    trail: &Trail,
    path: &Path,
    bytes: &[u8],
) -> Result<u32, Fault>
    requires sound { N.is_sound nodes.old }
    requires looked { IsLookedUp N.Nodes nodes.old root path.now trail.now }
    requires fits { (x : Found) × (look_up (N.node nodes.old) root path.now ≡ Ok x) × TakesFile x }
    requires short { length bytes.now ≤ MAX_FILE_BYTES }

    // The edited tree, and how many nodes were read for it.
    ensures applied { IsApplied N.Nodes root (put (tree_of N.Nodes nodes.old root) path.now (Entry.File bytes.now)) (body_need (N.limit nodes.old - body_header) (length bytes.now) + path_nodes (N.node nodes.old) trail.now path.now true 0) nodes.old result nodes.new }
    ensures reads { N.reads nodes.new ≤ N.reads nodes.old + (1 + path_nodes (N.node nodes.old) trail.now path.now false 0) }
{
    let new = write_body(alloc, nodes, bytes)?;
    put_body(alloc, nodes, root, trail, path, new)
}

/// Writes bytes, at least one, from `offset` on over those of the file at a path, which has this
/// body.
pub(crate) fn overwrite<N: Nodes>(
    alloc: Global,
    nodes: &mut N,
    root: u32,
    trail: &Trail,
    path: &Path,
    body: Body,
    offset: u32,
    bytes: &[u8],
) -> Result<u32, Fault>
    requires sound { N.is_sound nodes.old }
    requires looked { IsLookedUp N.Nodes nodes.old root path.now trail.now }
    requires found { look_up (N.node nodes.old) root path.now ≡ Ok (found.File body.head body.length) }
    requires short { body.length ≤ MAX_FILE_BYTES }
    requires some { 0 < length bytes.now }
    requires fits { offset + length bytes.now ≤ MAX_FILE_BYTES }

    // The edited tree, and how many nodes were read for it.
    ensures applied { IsApplied N.Nodes root (with_file (tree_of N.Nodes nodes.old root) path.now (λ old. overwritten old offset bytes.now)) (pwrite_need (N.limit nodes.old - body_header) body.length offset (length bytes.now) + path_nodes (N.node nodes.old) trail.now path.now true 0) nodes.old result nodes.new }
    ensures reads { (digits : ℕ) → HasDigits (head_index (N.limit nodes.old - body_header) body.length) digits → N.reads nodes.new ≤ N.reads nodes.old + (overwrite_reads (N.limit nodes.old - body_header) body.length (offset + length bytes.now) digits + path_nodes (N.node nodes.old) trail.now path.now false 0) }
{
    let new = write_range(alloc, nodes, body, offset, bytes)?;
    put_body(alloc, nodes, root, trail, path, new)
}

/// Makes the length of the file at a path this, which has this body.
pub(crate) fn resize<N: Nodes>(
    alloc: Global,
    nodes: &mut N,
    root: u32,
    trail: &Trail,
    path: &Path,
    body: Body,
    size: u32,
) -> Result<u32, Fault>
    requires sound { N.is_sound nodes.old }
    requires looked { IsLookedUp N.Nodes nodes.old root path.now trail.now }
    requires found { look_up (N.node nodes.old) root path.now ≡ Ok (found.File body.head body.length) }
    requires fits { size ≤ MAX_FILE_BYTES }

    // The edited tree, and how many nodes were read for it.
    ensures applied { IsApplied N.Nodes root (with_file (tree_of N.Nodes nodes.old root) path.now (λ old. resized old size)) (ftruncate_need (N.limit nodes.old - body_header) body.length size + path_nodes (N.node nodes.old) trail.now path.now true 0) nodes.old result nodes.new }
    ensures reads { (digits : ℕ) → HasDigits (head_index (N.limit nodes.old - body_header) body.length) digits → N.reads nodes.new ≤ N.reads nodes.old + (resize_reads digits + path_nodes (N.node nodes.old) trail.now path.now false 0) }
{
    let new = set_length(alloc, nodes, body, size)?;
    put_body(alloc, nodes, root, trail, path, new)
}
