//! How many names the paths below a directory have.
ghost use Rattle.std.specs.Prelude.{◌≡◌, ℕ, ◌+◌, ◌-◌, ◌*◌, ◌≤◌, ◌<◌, true, false, ◌||◌, ◌&&◌, nat_lt, List, Contains, length, Some, OnOk, OnErr, IfOk, IfErr, if◌then◌else◌};
ghost use Rattle.std.specs.FinSet as set;
ghost use Rattle.node_format.specs.declared.place.Place.TheVariants.{Dir};
ghost use Rattle.nodes.specs.Chains.{link_items, next_of};
ghost use Rattle.nodes.specs.TreeLaws.{IsShallow};
ghost use Rattle.directory.specs.Lookups.{LeadsToDirectories};
ghost use Rattle.directory.specs.Depths as spec;
ghost use Rattle.nodes.specs.Faults.{IsLookFault};
ghost use Rattle.nodes.specs.Words.{LooksWithin};
ghost use Rattle.fs_types.specs.declared.limits.TheConstants.{MAX_NAMES};

use block_ring::{BlockSet, SparseWords};
use fs_types::Fault;
use node_format::{Entries, EntryList, Place};
use nodes::{Nodes, brings};
use std::alloc::Global;

/// Puts the blocks of the directories among entries into a set, but those past its last block.
fn add_directories(list: EntryList<'_>, found: &mut BlockSet)
    ensures added { (b : ℕ) → set.contains found.new.members b ≡ (set.contains found.old.members b || (nat_lt b found.old.blocks && spec.names_directory list.entry b)) }
    ensures size { found.new.blocks ≡ found.old.blocks }
{
    for entry in list {
        if let Place::Dir { block } = entry.place() {
            if block < found.blocks() {
                found.insert(block);
            }
        }
    }
}

/// Puts the blocks of the directories that the node in a block names into a set, but those past its
/// last block. Answers the block of the node after it, 0 where none comes; a block without a
/// directory node names none.
fn add_named<N: Nodes>(nodes: &mut N, block: u32, found: &mut BlockSet) -> Result<u32, Fault>
    requires { N.is_sound nodes.old }

    // What is added, and the block of the next node.
    ensures added { OnOk result ((b : ℕ) → set.contains found.new.members b ≡ (set.contains found.old.members b || (nat_lt b found.old.blocks && spec.names_directory (link_items (N.node nodes.old block)) b))) }
    ensures next { IfOk result (λ next. next_of (N.node nodes.old block) ≡ next) }
    ensures same { OnErr result (found.new ≡ found.old) }
    ensures size { found.new.blocks ≡ found.old.blocks }

    // Why not, and what is read.
    ensures calls { LooksWithin N.Nodes IsLookFault 1 nodes.old result nodes.new }
    ensures reads { N.reads nodes.new ≡ N.reads nodes.old + 1 }
{
    let brought = brings(nodes, block)?;
    if !brought {
        return Ok(0);
    }
    let Some(node) = Entries::of(nodes.lent()) else {
        return Ok(0);
    };
    let next = node.next();
    add_directories(node.list(), found);
    Ok(next)
}

/// The same where some nodes are known to name no directory: of these the block of the next one is
/// listed, and they are not read.
fn add_unknown<N: Nodes>(
    nodes: &mut N,
    block: u32,
    found: &mut BlockSet,
    quiet: &BlockSet,
    nexts: &SparseWords,
) -> Result<u32, Fault>
    requires sound { N.is_sound nodes.old }
    requires quiet { spec.AreQuiet (N.node nodes.old) quiet.now.members nexts.now }

    // What is added, and the block of the next node.
    ensures added { OnOk result ((b : ℕ) → set.contains found.new.members b ≡ (set.contains found.old.members b || (nat_lt b found.old.blocks && spec.names_directory (link_items (N.node nodes.old block)) b))) }
    ensures next { IfOk result (λ next. next_of (N.node nodes.old block) ≡ next) }
    ensures same { OnErr result (found.new ≡ found.old) }
    ensures size { found.new.blocks ≡ found.old.blocks }

    // Why not, and what is read.
    ensures calls { LooksWithin N.Nodes IsLookFault (if set.contains quiet.now.members block then 0 else 1) nodes.old result nodes.new }
    ensures reads { N.reads nodes.new ≡ N.reads nodes.old + (if set.contains quiet.now.members block then 0 else 1) }
{
    if quiet.contains(block) {
        return Ok(nexts.get(block));
    }
    add_named(nodes, block, found)
}

/// Whether a block is one to be read: 0 names none, and none is read twice.
fn is_left(seen: &BlockSet, block: u32) -> bool
    ensures { result ≡ spec.is_left seen.now.blocks seen.now.members block }
{
    block != 0 && block < seen.blocks() && !seen.contains(block)
}

/// Reads the nodes that follow one another from a block on, to the last or to one that was seen:
/// puts them into the set of those seen, and the directories that they name into a set.
fn add_chain<N: Nodes>(
    nodes: &mut N,
    block: u32,
    seen: &mut BlockSet,
    found: &mut BlockSet,
    quiet: &BlockSet,
    nexts: &SparseWords,
) -> Result<(), Fault>
    requires sound { N.is_sound nodes.old }
    requires quiet { spec.AreQuiet (N.node nodes.old) quiet.now.members nexts.now }
    requires size { (seen.old.blocks ≡ N.blocks nodes.old) × (found.old.blocks ≡ N.blocks nodes.old) }
    ensures read { OnOk result (spec.IsChainRead (N.node nodes.old) (N.blocks nodes.old) block seen.old.members found.old.members seen.new.members found.new.members) }

    // Whatever is answered, those seen stay so, and more are among any list that has the block and all that it names.
    ensures stays { (b : ℕ) → set.contains seen.old.members b ≡ true → set.contains seen.new.members b ≡ true }
    ensures among { (roots list : List ℕ) → spec.HasDirectories (N.node nodes.old) (N.blocks nodes.old) roots list → Contains list block → spec.AreAmong list seen.old.members seen.new.members × spec.AreAmong list found.old.members found.new.members }
    ensures size { (seen.new.blocks ≡ seen.old.blocks) × (found.new.blocks ≡ found.old.blocks) }

    // Each read is of a block that was not seen, and whose node is not known.
    ensures calls { LooksWithin N.Nodes IsLookFault (spec.count_below (spec.is_loud quiet.now.members seen.new.members) seen.old.blocks - spec.count_below (spec.is_loud quiet.now.members seen.old.members) seen.old.blocks) nodes.old result nodes.new }
    ensures reads { N.reads nodes.new + spec.count_below (spec.is_loud quiet.now.members seen.old.members) seen.old.blocks ≡ N.reads nodes.old + spec.count_below (spec.is_loud quiet.now.members seen.new.members) seen.old.blocks }
{
    let mut at = block;
    'chain: while is_left(seen, at) {
        seen.insert(at);
        at = add_unknown(nodes, at, found, quiet, nexts)?;
    }
    Ok(())
}

/// Whether the node in a block has entries. A block without a directory node has none.
fn has_entries<N: Nodes>(nodes: &mut N, block: u32) -> Result<bool, Fault>
    requires { N.is_sound nodes.old }
    ensures value { IfOk result (λ some. some ≡ nat_lt 0 (length (link_items (N.node nodes.old block)))) }
    ensures calls { LooksWithin N.Nodes IsLookFault 1 nodes.old result nodes.new }
    ensures reads { N.reads nodes.new ≡ N.reads nodes.old + 1 }
{
    let brought = brings(nodes, block)?;
    if !brought {
        return Ok(false);
    }
    let Some(node) = Entries::of(nodes.lent()) else {
        return Ok(false);
    };
    Ok(node.list().len() > 0)
}

/// The blocks of the directories that the directories of a set of blocks name. Each of their nodes
/// is read once, also where directories share it.
fn next_level<N: Nodes>(
    alloc: Global,
    nodes: &mut N,
    level: &BlockSet,
    quiet: &BlockSet,
    nexts: &SparseWords,
) -> Result<BlockSet, Fault>
    requires sound { N.is_sound nodes.old }
    requires quiet { spec.AreQuiet (N.node nodes.old) quiet.now.members nexts.now }
    requires within { (b : ℕ) → set.contains level.now.members b ≡ true → b < level.now.blocks }
    requires size { level.now.blocks ≡ N.blocks nodes.old }
    ensures named { IfOk result (λ next. spec.AreNamedBy (N.node nodes.old) level.now.blocks (set.contains level.now.members) next.members × (next.blocks ≡ level.now.blocks)) }
    ensures calls { LooksWithin N.Nodes IsLookFault (N.blocks nodes.old) nodes.old result nodes.new }

    // What is read and found is among any list that has the level and all that it names.
    ensures among { IfOk result (λ next. (roots list : List ℕ) → spec.HasDirectories (N.node nodes.old) (N.blocks nodes.old) roots list → ((b : ℕ) → set.contains level.now.members b ≡ true → Contains list b) → (b : ℕ) → set.contains next.members b ≡ true → Contains list b) }
    ensures reads { (roots list : List ℕ) → spec.HasDirectories (N.node nodes.old) (N.blocks nodes.old) roots list → ((b : ℕ) → set.contains level.now.members b ≡ true → Contains list b) → N.reads nodes.new ≤ N.reads nodes.old + length (spec.loud_of quiet.now.members list) }
{
    let mut next = BlockSet::new(alloc, level.blocks())?;
    let mut seen = BlockSet::new(alloc, level.blocks())?;
    for block in 0..level.blocks() {
        if level.contains(block) {
            add_chain(nodes, block, &mut seen, &mut next, quiet, nexts)?;
        }
    }
    Ok(next)
}

/// Whether the first node of a directory of a set of blocks has entries.
fn any_has_entries<N: Nodes>(nodes: &mut N, level: &BlockSet) -> Result<bool, Fault>
    requires sound { N.is_sound nodes.old }
    requires within { (b : ℕ) → set.contains level.now.members b ≡ true → b < level.now.blocks }

    // What is answered.
    ensures some { IfOk result (λ some. some ≡ true → (b : ℕ) × (set.contains level.now.members b ≡ true) × (0 < length (link_items (N.node nodes.old b)))) }
    ensures none { IfOk result (λ some. some ≡ false → (b : ℕ) → set.contains level.now.members b ≡ true → length (link_items (N.node nodes.old b)) ≡ 0) }

    // Why not, and what is read.
    ensures calls { LooksWithin N.Nodes IsLookFault level.now.blocks nodes.old result nodes.new }
    ensures reads { (list : List ℕ) → ((b : ℕ) → set.contains level.now.members b ≡ true → Contains list b) → N.reads nodes.new ≤ N.reads nodes.old + length list }
{
    for block in 0..level.blocks() {
        if level.contains(block) {
            let has_some = has_entries(nodes, block)?;
            if has_some {
                return Ok(true);
            }
        }
    }
    Ok(false)
}

/// The set of the blocks of a list, but those past the last block.
fn first_level(alloc: Global, blocks: u32, list: &[u32]) -> Result<BlockSet, Fault>
    ensures has { IfOk result (λ level. spec.HasBlocks blocks list.now level.members) }
    ensures size { IfOk result (λ level. level.blocks ≡ blocks) }
    ensures memory { IfErr result (λ fault. fault ≡ Fault.NoMemory) }
{
    let mut level = BlockSet::new(alloc, blocks)?;
    for block in list {
        if *block < blocks {
            level.insert(*block);
        }
    }
    Ok(level)
}

/// Whether some path below one of the directories in some blocks has more than `most` names. Any
/// content of the nodes is looked at, directories that reach themselves too; where not each directory
/// on the way begins one, paths may be told to be longer than they are. No path is walked: three sets
/// of blocks are kept, of a level of directories, of the next one and of the nodes that were read. At
/// most `most + 1` levels are read, and each block at most once a level.
///
/// Nodes that are known to name no directory are not read but for the first ones of the last level: of
/// each the block of the node after it is listed.
///
/// Refused with `NoMemory` and with what a read is refused with, but never with `Damaged`.
pub fn any_is_deeper<N: Nodes>(
    alloc: Global,
    nodes: &mut N,
    roots: &[u32],
    most: usize,
    quiet: &BlockSet,
    nexts: &SparseWords,
) -> Result<bool, Fault>
    requires sound { N.is_sound nodes.old }
    requires quiet { spec.AreQuiet (N.node nodes.old) quiet.now.members nexts.now }
    requires most { most ≤ MAX_NAMES }
    ensures deeper { ((root : ℕ) → Contains roots.now root → LeadsToDirectories (N.node nodes.old) root) → IfOk result (λ deep. deep ≡ true → (root : ℕ) × Contains roots.now root × spec.IsDeeper (N.node nodes.old) (Dir root) most) }
    ensures shallow { IfOk result (λ deep. deep ≡ false → (root : ℕ) → Contains roots.now root → IsShallow (N.node nodes.old) (Dir root) most) }
    ensures calls { LooksWithin N.Nodes IsLookFault ((most + 1) * N.blocks nodes.old) nodes.old result nodes.new }

    // A level reads the nodes of its directories alone that are not known: they are among any list that has the roots and all
    // that it names.
    ensures reads { (list : List ℕ) → spec.HasDirectories (N.node nodes.old) (N.blocks nodes.old) roots.now list → N.reads nodes.new ≤ N.reads nodes.old + (most * length (spec.loud_of quiet.now.members list) + length list) }
{
    let blocks = nodes.block_count();
    let mut level = first_level(alloc, blocks, roots)?;
    for done in 0..most {
        if level.is_empty() {
            return Ok(false);
        }
        level = next_level(alloc, nodes, &level, quiet, nexts)?;
    }
    any_has_entries(nodes, &level)
}

/// Whether some path below the directory of a block has more than `most` names, as `any_is_deeper`.
pub fn is_deeper<N: Nodes>(
    alloc: Global,
    nodes: &mut N,
    block: u32,
    most: usize,
) -> Result<bool, Fault>
    requires sound { N.is_sound nodes.old }
    requires most { most ≤ MAX_NAMES }

    // What is answered.
    ensures deeper { LeadsToDirectories (N.node nodes.old) block → IfOk result (λ deep. deep ≡ true → spec.IsDeeper (N.node nodes.old) (Dir block) most) }
    ensures shallow { IfOk result (λ deep. deep ≡ false → IsShallow (N.node nodes.old) (Dir block) most) }

    // Why not, and what is read.
    ensures calls { LooksWithin N.Nodes IsLookFault ((most + 1) * N.blocks nodes.old) nodes.old result nodes.new }
{
    let none = BlockSet::new(alloc, 0)?;
    let nexts = SparseWords::new(alloc, 0);
    any_is_deeper(alloc, nodes, &[block], most, &none, &nexts)
}

/// Where a rename asks no depth: what stands at a path gets too deep at no path of as many names or
/// fewer, and a file nowhere. It does nothing: its contract is the law.
pub fn depth_laws()
    ensures as_deep { spec.AsDeepLaw }
    ensures files { spec.FileLaw }
{}
