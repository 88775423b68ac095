//! Entries put and taken out: the directories that a look up went through written anew, from the
//! deepest up.
ghost use Rattle.std.specs.Prelude.{◌≡◌, ◌+◌, ◌<◌, true, false, length, drop, slice_index, Some, None, IsSome, Ok, IfOk, IfSome};
ghost use Rattle.std.specs.Option.{is_some};
ghost use Rattle.node_format.specs.Items.{is_place};
ghost use Rattle.node_format.specs.declared.place.Place.TheVariants.{Dir};
ghost use Rattle.nodes.specs.Trees.{leads, entries_in, items_in};
ghost use Rattle.nodes.specs.Rewritten.{IsDirectoryEdit, IsFreshChain, IsRewritten};
ghost use Rattle.directory.specs.Counts.{edit_nodes, read_nodes, path_nodes, written_nodes};
ghost use Rattle.directory.specs.Lookups.{look_up};
ghost use Rattle.directory.specs.declared.lookups.Found.TheVariants.{Missing};
ghost use Rattle.directory.specs.Edits.{OnlyReaches};
ghost use Rattle.directory.specs.Making.{IsNewDirectory};
ghost use Rattle.directory.specs.Trails as spec;
ghost use Rattle.nodes.specs.Words.{IsHeld, Keeps, WorksWithin};

use crate::list_writes::write_list;
use crate::node_lists::{edit_list, read_list};
use crate::trail::Trail;
use fs_types::{Fault, MIN_BLOCK_BYTES, Name, Path};
use node_format::{Place, empty_directory};
use nodes::Nodes;
use std::alloc::Global;

/// Writes the directory that begins in a block anew, with a name leading to a place, or to nothing.
/// Where a name that is there leads to another place, the nodes after the one with the name stay as
/// they are, and are neither read nor written. Answers the block of its first node.
pub(crate) fn edit_directory<N: Nodes>(
    alloc: Global,
    nodes: &mut N,
    block: u32,
    name: &Name,
    place: Option<Place>,
) -> Result<u32, Fault>
    requires sound { N.is_sound nodes.old }
    requires place { IfSome place (λ p. is_place p ≡ true) }
    requires takes { spec.takes (entries_in (N.node nodes.old) block) name.now place ≡ true }
    requires held { IsHeld N.Nodes nodes.old (Dir block) }

    // The new directory.
    ensures edited { IfOk result (λ to. IsDirectoryEdit (N.node nodes.old) (N.node nodes.new) block to name.now place × IsFreshChain (N.node nodes.old) (N.node nodes.new) (N.kept nodes.old) (N.kept nodes.new) block to) }

    // What it is refused with, and what it asks for.
    ensures calls { WorksWithin N.Nodes spec.IsChangeFault (read_nodes (items_in (N.node nodes.old) block) name.now (is_some place)) (edit_nodes (items_in (N.node nodes.old) block) name.now (is_some place)) nodes.old result nodes.new }
    ensures written { IfOk result (λ _. N.writes nodes.new ≡ N.writes nodes.old + written_nodes (items_in (N.node nodes.old) block) name.now place) }
{
    let (read, tail) = read_list(alloc, nodes, block, name, place)?;
    let edited = edit_list(alloc, &read.list(), name, place)?;
    write_list(alloc, nodes, &edited.list(), tail)
}

/// Writes the directories of a trail anew from one level down, the deepest first, so that the last
/// name leads to a place, or to nothing. Answers the block of the new one in place of the first.
pub(crate) fn rewrite_from<N: Nodes>(
    alloc: Global,
    nodes: &mut N,
    trail: &[u32],
    names: &[Name],
    level: usize,
    place: Option<Place>,
) -> Result<u32, Fault>
    requires sound { N.is_sound nodes.old }
    requires level { level < length names.now }
    requires place { IfSome place (λ p. is_place p ≡ true) }
    requires way { spec.IsHeldTrail (N.node nodes.old) (N.kept nodes.old) names.now trail.now }
    requires taken { spec.TakesName (N.node nodes.old) trail.now names.now place }

    // The new directories.
    ensures rewritten { IfOk result (λ to. IsRewritten (N.node nodes.old) (N.node nodes.new) (N.kept nodes.old) (N.kept nodes.new) (slice_index trail.now level) to (drop level names.now) place) }

    // What it is refused with, and what it asks for.
    ensures calls { WorksWithin N.Nodes spec.IsChangeFault (path_nodes (N.node nodes.old) trail.now names.now false level) (path_nodes (N.node nodes.old) trail.now names.now (is_some place) level) nodes.old result nodes.new }
{
    let last = names.len() - 1;
    let mut to = edit_directory(alloc, nodes, trail[last], &names[last], place)?;
    for i in (level..last).rev() {
        let below = Place::Dir { block: to };
        to = edit_directory(alloc, nodes, trail[i], &names[i], Some(below))?;
    }
    Ok(to)
}

/// Puts an entry: the last name of a path below a root leads to a place, and all else stays. `trail`
/// is that of the path below the root, and the name is there, or there is room for it, as a look up
/// told. Each directory along the path is read once more and written anew, the deepest first, but for
/// the nodes after the one with its name. Answers the block of the new root. The old root stays as it
/// was, whatever is answered.
///
/// Refused only with what reads and writes are refused with, and with `NoMemory`.
pub fn put_entry<N: Nodes>(
    alloc: Global,
    nodes: &mut N,
    root: u32,
    trail: &Trail,
    path: &Path,
    place: Place,
) -> Result<u32, Fault>
    requires sound { N.is_sound nodes.old }
    requires place { is_place place ≡ true }
    requires sought { spec.IsSought (N.node nodes.old) (N.kept nodes.old) root path.now trail.now }
    requires room { spec.has_room (look_up (N.node nodes.old) root path.now) ≡ true }

    // The new tree, and that the old one stays.
    ensures rewritten { IfOk result (λ to. IsRewritten (N.node nodes.old) (N.node nodes.new) (N.kept nodes.old) (N.kept nodes.new) root to path.now (Some place)) }
    ensures reaches { IfOk result (λ to. OnlyReaches (N.node nodes.old) (N.node nodes.new) (N.kept nodes.old) root to (Some place)) }
    ensures keeps { Keeps N.Nodes nodes.old nodes.new }

    // What it is refused with, and what it asks for.
    ensures calls { WorksWithin N.Nodes spec.IsChangeFault (path_nodes (N.node nodes.old) trail.now path.now false 0) (path_nodes (N.node nodes.old) trail.now path.now true 0) nodes.old result nodes.new }
{
    let blocks = trail.blocks();
    let begins = blocks[0] == root;
    prove!(begins);
    rewrite_from(alloc, nodes, blocks, path.names(), 0, Some(place))
}

/// Takes an entry out: the last name of a path below a root leads nowhere, and all else stays.
/// `trail` is that of the path below the root, and something stands there, as a look up told. What
/// is read, written, answered and refused is as with `put_entry`.
pub fn remove_entry<N: Nodes>(
    alloc: Global,
    nodes: &mut N,
    root: u32,
    trail: &Trail,
    path: &Path,
) -> Result<u32, Fault>
    requires sound { N.is_sound nodes.old }
    requires sought { spec.IsSought (N.node nodes.old) (N.kept nodes.old) root path.now trail.now }
    requires stands { IsSome (leads (N.node nodes.old) (Dir root) path.now) }

    // The new tree, and that the old one stays.
    ensures rewritten { IfOk result (λ to. IsRewritten (N.node nodes.old) (N.node nodes.new) (N.kept nodes.old) (N.kept nodes.new) root to path.now None) }
    ensures reaches { IfOk result (λ to. OnlyReaches (N.node nodes.old) (N.node nodes.new) (N.kept nodes.old) root to None) }
    ensures keeps { Keeps N.Nodes nodes.old nodes.new }

    // What it is refused with, and what it asks for.
    ensures calls { WorksWithin N.Nodes spec.IsChangeFault (path_nodes (N.node nodes.old) trail.now path.now false 0) (path_nodes (N.node nodes.old) trail.now path.now false 0) nodes.old result nodes.new }
{
    let blocks = trail.blocks();
    let begins = blocks[0] == root;
    prove!(begins);
    rewrite_from(alloc, nodes, blocks, path.names(), 0, None)
}

/// Puts a new empty directory at a path whose last name is missing from a directory with room for
/// it, as a look up told, with `trail` that of the path below the root. Its node is written first,
/// then the directories along the path anew, each of which is read once more. Answers the block of
/// the new root. The old root stays as it was, whatever is answered.
///
/// Refused only with what reads and writes are refused with, and with `NoMemory`.
pub fn put_directory<N: Nodes>(
    alloc: Global,
    nodes: &mut N,
    root: u32,
    trail: &Trail,
    path: &Path,
) -> Result<u32, Fault>
    requires sound { N.is_sound nodes.old }
    requires held { IsHeld N.Nodes nodes.old (Dir root) }
    requires way { spec.IsTrail (N.node nodes.old) root path.now trail.now }
    requires missing { look_up (N.node nodes.old) root path.now ≡ Ok (Missing false) }

    // The new tree, and that the old one stays.
    ensures made { IfOk result (λ to. IsNewDirectory (N.node nodes.old) (N.node nodes.new) (N.kept nodes.old) (N.kept nodes.new) root to path.now) }
    ensures reaches { IfOk result (λ to. OnlyReaches (N.node nodes.old) (N.node nodes.new) (N.kept nodes.old) root to None) }
    ensures keeps { Keeps N.Nodes nodes.old nodes.new }

    // What it is refused with, and what it asks for.
    ensures calls { WorksWithin N.Nodes spec.IsChangeFault (path_nodes (N.node nodes.old) trail.now path.now false 0) (path_nodes (N.node nodes.old) trail.now path.now true 0 + 1) nodes.old result nodes.new }
{
    let fits = nodes.block_bytes() as usize >= MIN_BLOCK_BYTES;
    prove!(fits);
    let block = nodes.write(&empty_directory())?;
    let to = put_entry(alloc, nodes, root, trail, path, Place::Dir { block })?;
    Ok(to)
}
