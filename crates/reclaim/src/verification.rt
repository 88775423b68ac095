//! Whether roots have trees: one look at each block that they reach, and at the depth below each root.
ghost use Rattle.std.specs.Prelude.{◌≡◌, ◌↔◌, ℕ, ◌+◌, ◌≤◌, ◌<◌, true, length, slice_index, All, Contains, IsTrue, IfOk, IsErrOf};
ghost use Rattle.block_ring.specs.Ring.{IsDataBlock};
ghost use Rattle.node_format.specs.declared.place.Place.TheVariants.{Dir};
ghost use Rattle.nodes.specs.TreeLaws.{IsShallow};
ghost use Rattle.directory.specs.Depths.{AreQuiet};
ghost use Rattle.directory.specs.Lookups.{LeadsToDirectories};
ghost use Rattle.nodes.specs.Faults.{IsLookFault, IsReadFault};
ghost use Rattle.nodes.specs.Words.{LooksWithin};
ghost use Rattle.reclaim.specs.Calls.{LooksAtCost};
ghost use Rattle.reclaim.specs.Passes.{IsPass, IsFinished, Advances, LacksNode};
ghost use Rattle.reclaim.specs.Verified.{AreAllowed, HasCost, once_reads, once_pages, all_reads, all_pages};
ghost use Rattle.reclaim.specs.Verifying.{IsVerifying, HasLookedAt, HasLookedAtAll, IsWholeOrNot, ReadsDepths};
ghost use Rattle.fs_types.specs.declared.limits.TheConstants.{MAX_NAMES};

use crate::edge::next_in;
use crate::facts::read_facts;
use crate::levels::Levels;
use crate::looks::look;
use crate::pass::Pass;
use crate::table::Table;
use crate::tops::Tops;
use block_ring::{BlockSet, SparseWords};
use directory::any_is_deeper;
use fs_types::{ANCHORS, Fault, MAX_NAMES};
use node_format::BODY_HEADER;
use nodes::{Examines, Nodes};
use std::alloc::Global;

// Whether a block is a data block.
fn is_data_block(blocks: u32, block: u32) -> bool
    ensures { IsTrue result ↔ IsDataBlock blocks block }
{
    ANCHORS <= block && block < blocks
}

// Whether all blocks of a list are data blocks.
fn are_data_blocks(blocks: u32, list: &[u32]) -> bool
    ensures { IsTrue result ↔ All (IsDataBlock blocks) list.now }
{
    for block in list {
        if !is_data_block(blocks, *block) {
            return false;
        }
    }
    true
}

// Whether no path below any root has too many names, which may be known. All that the roots lead to are
// directories.
fn are_shallow<N: Nodes>(
    alloc: Global,
    nodes: &mut N,
    roots: &[u32],
    is_known: bool,
    quiet: &BlockSet,
    nexts: &SparseWords,
) -> Result<bool, Fault>
    requires sound { N.is_sound nodes.old }
    requires known { is_known ≡ true → All (λ root. IsShallow (N.node nodes.old) (Dir root) MAX_NAMES) roots.now }
    requires quiet { AreQuiet (N.node nodes.old) quiet.now.members nexts.now }
    requires whole { (root : ℕ) → Contains roots.now root → LeadsToDirectories (N.node nodes.old) root }
    ensures exact { IfOk result (λ good. IsTrue good ↔ All (λ root. IsShallow (N.node nodes.old) (Dir root) MAX_NAMES) roots.now) }
    ensures calls { LooksAtCost N.Nodes IsLookFault (ReadsDepths (N.node nodes.old) (N.blocks nodes.old) roots.now quiet.now.members) nodes.old result nodes.new }
{
    if is_known {
        return Ok(true);
    }
    let deep = any_is_deeper(alloc, nodes, roots, MAX_NAMES, quiet, nexts)?;
    Ok(!deep)
}

/// Reads the block that a pass reads next: marks what its node names, notes it, and looks at it. False
/// where it is not sound, or an entry's file is longer than its head allows.
fn look_at_next<N: Examines>(
    alloc: Global,
    nodes: &mut N,
    plain: bool,
    block: u32,
    pass: &mut Pass,
    table: &mut Table,
    tops: &mut Tops,
    levels: &mut Levels,
) -> Result<bool, Fault>
    requires sound { N.is_sound nodes.old }
    requires left { (pass.old.next < length pass.old.order) × (block ≡ slice_index pass.old.order pass.old.next) }
    requires verifying { IsVerifying (N.blocks nodes.old) (N.limit nodes.old) (N.node nodes.old) pass.old table.old tops.old levels.old }

    // The pass goes on, and what is found.
    ensures on { Advances pass.old pass.new }
    ensures looked { IfOk result (HasLookedAt (N.limit nodes.old) (N.node nodes.old) plain block pass.old pass.new table.new tops.new levels.new) }

    // Why not, and what is read.
    ensures damaged { IsErrOf result Fault.Damaged → LacksNode (N.node nodes.old) pass.old.roots }
    ensures calls { LooksWithin N.Nodes IsReadFault (once_reads (N.node nodes.old block)) nodes.old result nodes.new }
    ensures asks { N.asked nodes.new ≤ N.asked nodes.old + once_pages (N.page nodes.old) (N.limit nodes.old) (N.node nodes.old block) }
{
    let capacity = nodes.block_bytes() - BODY_HEADER;
    let facts = read_facts(alloc, nodes, block)?;
    pass.mark_next(&facts.names)?;
    levels.take_in(
        block,
        next_in(&facts.parts.edge),
        facts.parts.places.is_empty(),
        &facts.directories,
    )?;
    let have_heads = table.take_in(capacity, block, &facts.parts, &facts.directories)?;
    if !have_heads {
        return Ok(false);
    }
    let have_tops = tops.take_in(block, facts.parts.index, &facts.parts.pointers)?;
    if !have_tops {
        return Ok(false);
    }
    look(nodes, capacity, plain, &facts.parts)
}

/// Reads all that a pass has to read, each node once, and looks at each; false where one is not sound.
fn look_at_all<N: Examines>(
    alloc: Global,
    nodes: &mut N,
    plain: bool,
    pass: &mut Pass,
    table: &mut Table,
    tops: &mut Tops,
    levels: &mut Levels,
) -> Result<bool, Fault>
    requires sound { N.is_sound nodes.old }
    requires verifying { IsVerifying (N.blocks nodes.old) (N.limit nodes.old) (N.node nodes.old) pass.old table.old tops.old levels.old }
    requires begun { pass.old.next ≡ 0 }

    // All was read and is sound, or some is not.
    ensures on { Advances pass.old pass.new }
    ensures looked { IfOk result (HasLookedAtAll N.Nodes plain nodes.old nodes.new pass.old pass.new table.new tops.new levels.new) }

    // Why not, and what is read.
    ensures damaged { IsErrOf result Fault.Damaged → LacksNode (N.node nodes.old) pass.old.roots }
    ensures calls { LooksAtCost N.Nodes IsReadFault (HasCost once_reads (N.node nodes.old) pass.old.roots) nodes.old result nodes.new }
    ensures asks { HasCost (once_pages (N.page nodes.old) (N.limit nodes.old)) (N.node nodes.old) pass.old.roots (N.asked nodes.old) (N.asked nodes.new) }
{
    while let Some(block) = pass.next_block() {
        let good = look_at_next(alloc, nodes, plain, block, pass, table, tops, levels)?;
        if !good {
            return Ok(false);
        }
    }
    Ok(true)
}

/// Whether all that roots reach is sound but for the depths, by a pass over them that has read nothing.
fn are_whole<N: Examines>(
    alloc: Global,
    nodes: &mut N,
    roots: &[u32],
    plain: bool,
    pass: &mut Pass,
    table: &mut Table,
    tops: &mut Tops,
    levels: &mut Levels,
) -> Result<bool, Fault>
    requires sound { N.is_sound nodes.old }
    requires verifying { IsVerifying (N.blocks nodes.old) (N.limit nodes.old) (N.node nodes.old) pass.old table.old tops.old levels.old }
    requires begun { (pass.old.roots ≡ roots.now) × (pass.old.next ≡ 0) }

    // What is answered, and the pass.
    ensures on { Advances pass.old pass.new }
    ensures whole { IfOk result (IsWholeOrNot N.Nodes roots.now plain nodes.old nodes.new pass.new table.new levels.new) }

    // Why not, and what is read.
    ensures damaged { IsErrOf result Fault.Damaged → LacksNode (N.node nodes.old) roots.now }
    ensures calls { LooksAtCost N.Nodes IsReadFault (HasCost once_reads (N.node nodes.old) roots.now) nodes.old result nodes.new }
    ensures asks { HasCost (once_pages (N.page nodes.old) (N.limit nodes.old)) (N.node nodes.old) roots.now (N.asked nodes.old) (N.asked nodes.new) }
{
    let are_looked = look_at_all(alloc, nodes, plain, pass, table, tops, levels)?;
    if !are_looked {
        return Ok(false);
    }
    if !table.has_links(roots) {
        return Ok(false);
    }
    Ok(table.is_whole())
}

/// A finished pass of roots that each have a tree with linked bodies, on a flash of `blocks` blocks;
/// with `plain` no node of a chain is among all that they reach.
///
/// `Damaged` where that is not so, and only there: a root that is no data block has no tree. Nothing
/// is written. Each page of a node is read once, and the first page of the node after one of a directory; for its
/// entries and its pointers none is read. No node of a body is kept in memory. Where a directory stands at more than one
/// depth, or too deep, the depths read nodes that name directories once more at each level, and the first
/// ones of the last level.
pub fn verify<N: Examines>(
    alloc: Global,
    blocks: u32,
    nodes: &mut N,
    roots: &[u32],
    plain: bool,
) -> Result<Pass, Fault>
    requires sound { N.is_sound nodes.old }
    requires blocks { blocks ≡ N.blocks nodes.old }

    // The pass, and what its roots have.
    ensures trees { IfOk result (λ _. AreAllowed (N.limit nodes.old) (N.node nodes.old) roots.now plain) }
    ensures pass { IfOk result (λ p. IsPass (N.node nodes.new) p × IsFinished p) }
    ensures of { IfOk result (λ p. (p.blocks ≡ blocks) × (p.roots ≡ roots.now)) }

    // Why not, and what is read.
    ensures damaged { IsErrOf result Fault.Damaged → AreAllowed (N.limit nodes.old) (N.node nodes.old) roots.now plain → ⊥ }
    ensures calls { LooksAtCost N.Nodes IsReadFault (HasCost all_reads (N.node nodes.old) roots.now) nodes.old result nodes.new }
    ensures asks { HasCost (all_pages (N.page nodes.old) (N.limit nodes.old)) (N.node nodes.old) roots.now (N.asked nodes.old) (N.asked nodes.new) }
{
    if !are_data_blocks(blocks, roots) {
        return Err(Fault::Damaged);
    }
    let mut pass = Pass::start(alloc, blocks, roots)?;
    let mut table = Table::new(alloc, blocks)?;
    let mut tops = Tops::new(alloc, blocks)?;
    let mut levels = Levels::new(alloc, blocks);
    let are_whole = are_whole(
        alloc,
        nodes,
        roots,
        plain,
        &mut pass,
        &mut table,
        &mut tops,
        &mut levels,
    )?;
    if !are_whole {
        return Err(Fault::Damaged);
    }
    // The depths want three sets more, so what they do not need is let go first.
    let is_known = levels.hold;
    drop(levels);
    drop(tops);
    let (quiet, nexts) = table.into_quiet();
    let are_shallow = are_shallow(alloc, nodes, roots, is_known, &quiet, &nexts)?;
    if !are_shallow {
        return Err(Fault::Damaged);
    }
    Ok(pass)
}
