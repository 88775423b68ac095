//! What stands at one path moved to another, by the directories that a look up of each went through.
ghost use Rattle.std.specs.Prelude.{◌≡◌, ◌+◌, ◌<◌, true, false, length, drop, slice_index, slice_index_or, [], Some, None, IfOk, IfSome};
ghost use Rattle.std.specs.Option.{is_some};
ghost use Rattle.plain_trees.specs.Trees.{nodes_for};
ghost use Rattle.node_format.specs.Items.{is_place};
ghost use Rattle.node_format.specs.declared.place.Place.TheVariants.{Dir};
ghost use Rattle.nodes.specs.Trees.{items_in};
ghost use Rattle.nodes.specs.Rewritten.{IsSecondEdit, IsFreshChain, IsBranch, IsMoved};
ghost use Rattle.directory.specs.Counts.{nodes_in, edit_nodes, path_nodes, fork_nodes, move_nodes};
ghost use Rattle.directory.specs.Edits.{OnlyReaches};
ghost use Rattle.directory.specs.Trails.{IsHeldTrail, TakesName, IsChangeFault, takes};
ghost use Rattle.directory.specs.Moves as spec;
ghost use Rattle.nodes.specs.Words.{Keeps, WorksWithin};

use crate::edits::{edit_directory, rewrite_from};
use crate::list_writes::write_list;
use crate::node_lists::{edit_list_twice, read_list};
use crate::trail::Trail;
use fs_types::{Fault, Name, Path};
use node_format::Place;
use nodes::Nodes;
use std::alloc::Global;

/// How many names two paths begin with in common.
pub(crate) fn common_names(old: &[Name], new: &[Name]) -> usize
    ensures { result ≡ spec.common old.now new.now }
{
    for (i, name) in old.iter().enumerate() {
        if i == new.len() {
            return i;
        }
        if *name != new[i] {
            return i;
        }
    }
    old.len()
}

/// Writes the directory that begins in a block anew, with one of its names leading to a place, or to
/// nothing, and another name to another place. Answers the block of its first node.
fn edit_directory_twice<N: Nodes>(
    alloc: Global,
    nodes: &mut N,
    block: u32,
    name: &Name,
    gone: Option<Place>,
    other: &Name,
    here: Option<Place>,
) -> Result<u32, Fault>
    requires sound { N.is_sound nodes.old }
    requires takes { spec.TakesTwo (N.node nodes.old) block name.now gone other.now here }

    // The new directory.
    ensures edited { IfOk result (λ to. IsSecondEdit (N.node nodes.old) (N.node nodes.new) block to name.now gone other.now here × IsFreshChain (N.node nodes.old) (N.node nodes.new) (N.kept nodes.old) (N.kept nodes.new) block to) }

    // What it is refused with, and what it asks for.
    ensures calls { WorksWithin N.Nodes IsChangeFault (nodes_in (N.node nodes.old) block) (edit_nodes (items_in (N.node nodes.old) block) other.now (is_some gone)) nodes.old result nodes.new }
    ensures written { IfOk result (λ _. N.writes nodes.new ≡ N.writes nodes.old + nodes_for (spec.edited_twice_count (items_in (N.node nodes.old) block) name.now gone other.now here)) }
{
    let (read, tail) = read_list(alloc, nodes, block, name, None)?;
    let edited = edit_list_twice(alloc, &read.list(), name, gone, other, here)?;
    write_list(alloc, nodes, &edited.list(), tail)
}

/// What a name of a trail leads to once the directories below it are written anew, so that the last
/// name leads to a place, or to nothing; that itself where the name is the last.
fn rewrite_branch<N: Nodes>(
    alloc: Global,
    nodes: &mut N,
    trail: &[u32],
    names: &[Name],
    fork: usize,
    place: Option<Place>,
) -> Result<Option<Place>, Fault>
    requires sound { N.is_sound nodes.old }
    requires fork { fork < length names.now }
    requires place { IfSome place (λ p. is_place p ≡ true) }
    requires way { IsHeldTrail (N.node nodes.old) (N.kept nodes.old) names.now trail.now }
    requires taken { fork + 1 < length names.now → TakesName (N.node nodes.old) trail.now names.now place }

    // What the name leads to then.
    ensures branch { IfOk result (λ now. IsBranch (N.node nodes.old) (N.node nodes.new) (N.kept nodes.old) (N.kept nodes.new) (slice_index trail.now fork) (slice_index_or names.now fork []) (drop (fork + 1) names.now) place now) }
    ensures lawful { IfOk result (λ now. IfSome now (λ p. is_place p ≡ true)) }

    // What it is refused with, and what it asks for.
    ensures calls { WorksWithin N.Nodes IsChangeFault (path_nodes (N.node nodes.old) trail.now names.now false (fork + 1)) (path_nodes (N.node nodes.old) trail.now names.now (is_some place) (fork + 1)) nodes.old result nodes.new }
{
    if fork + 1 == names.len() {
        return Ok(place);
    }
    let next = rewrite_from(alloc, nodes, trail, names, fork + 1, place)?;
    Ok(Some(Place::Dir { block: next }))
}

/// Writes the directories of two trails anew from where their paths part down, the deepest first:
/// the old one leads to nothing, the new one to a place. The directory where they part is written
/// once; answers the block of the new one.
fn rewrite_fork<N: Nodes>(
    alloc: Global,
    nodes: &mut N,
    old_trail: &[u32],
    old: &[Name],
    new_trail: &[u32],
    new: &[Name],
    fork: usize,
    place: Place,
) -> Result<u32, Fault>
    requires sound { N.is_sound nodes.old }
    requires place { is_place place ≡ true }
    requires fork { spec.IsFork (N.node nodes.old) (N.kept nodes.old) old.now old_trail.now new.now new_trail.now place fork }

    // The new directory where the trails part.
    ensures moved { IfOk result (λ to. IsMoved (N.node nodes.old) (N.node nodes.new) (N.kept nodes.old) (N.kept nodes.new) (slice_index old_trail.now fork) to (drop fork old.now) (drop fork new.now) place) }

    // What it is refused with, and what it asks for.
    ensures calls { WorksWithin N.Nodes IsChangeFault (fork_nodes (N.node nodes.old) old_trail.now old.now new_trail.now new.now fork) (fork_nodes (N.node nodes.old) old_trail.now old.now new_trail.now new.now fork) nodes.old result nodes.new }
{
    let gone = rewrite_branch(alloc, nodes, old_trail, old, fork, None)?;
    let here = rewrite_branch(alloc, nodes, new_trail, new, fork, Some(place))?;
    edit_directory_twice(
        alloc,
        nodes,
        old_trail[fork],
        &old[fork],
        gone,
        &new[fork],
        here,
    )
}

/// Moves what stands at one path to another: nothing stands at `old`, what stood there and below
/// stands at `new`, in place of what stood there, and all else stays. `place` is what the path `old`
/// leads to, neither path begins the other, and the trails are those of the paths below the root, as
/// look ups told. Where the two parents are not the same path, `new` stands, or its parent has room
/// for it. Each directory along the two paths is read once more and written anew, the deepest first,
/// and those that both go through once. Answers the block of the new root. The old root stays as it
/// was, whatever is answered.
///
/// Refused only with what reads and writes are refused with, and with `NoMemory`.
pub fn move_entry<N: Nodes>(
    alloc: Global,
    nodes: &mut N,
    root: u32,
    old_trail: &Trail,
    old: &Path,
    new_trail: &Trail,
    new: &Path,
    place: Place,
) -> Result<u32, Fault>
    requires sound { N.is_sound nodes.old }
    requires place { is_place place ≡ true }
    requires sought { spec.MayMove (N.node nodes.old) (N.kept nodes.old) root old.now old_trail.now new.now new_trail.now place }

    // The new tree, and that the old one stays.
    ensures moved { IfOk result (λ to. IsMoved (N.node nodes.old) (N.node nodes.new) (N.kept nodes.old) (N.kept nodes.new) root to old.now new.now place) }
    ensures reaches { IfOk result (λ to. OnlyReaches (N.node nodes.old) (N.node nodes.new) (N.kept nodes.old) root to None) }
    ensures keeps { Keeps N.Nodes nodes.old nodes.new }

    // What it is refused with, and what it asks for.
    ensures calls { WorksWithin N.Nodes IsChangeFault (move_nodes (N.node nodes.old) old_trail.now old.now new_trail.now new.now) (move_nodes (N.node nodes.old) old_trail.now old.now new_trail.now new.now) nodes.old result nodes.new }
{
    let blocks = old_trail.blocks();
    let names = old.names();
    let fork = common_names(names, new.names());
    let mut to = rewrite_fork(
        alloc,
        nodes,
        blocks,
        names,
        new_trail.blocks(),
        new.names(),
        fork,
        place,
    )?;
    for i in (0..fork).rev() {
        let below = Place::Dir { block: to };
        to = edit_directory(alloc, nodes, blocks[i], &names[i], Some(below))?;
    }
    let begins = blocks[0] == root;
    prove!(begins);
    Ok(to)
}
