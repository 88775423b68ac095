//! What a path leads to, with the directories that it goes through.
ghost use Rattle.std.specs.Prelude.{◌≡◌, ℕ, ◌+◌, ◌≤◌, ◌<◌, true, length, take, drop, slice_index_or, [], ◌∷◌, ◌++◌, Ok, Err, IfOk, IfErr};
ghost use Rattle.directory.specs.Lookups as spec;
ghost use Rattle.directory.specs.Trails.{IsTrail, IsWay};
ghost use Rattle.directory.specs.Beside.{beside_nodes};
ghost use Rattle.nodes.specs.Words.{LooksWithin};
ghost use Rattle.fs_types.specs.declared.limits.TheConstants.{MAX_NAMES};

use crate::lookups::{Found, directory_at, found_in, place_in};
use crate::moves::common_names;
use arrayvec::ArrayVec;
use fs_types::{Fault, MAX_NAMES, Path};
use nodes::Nodes;
use std::marker::Model;

/// The blocks of the directories that a path goes through, the root first: one for each name, so at
/// most 16. It takes no memory.
#[derive(Drop)]
pub struct Trail {
    blocks: ArrayVec<u32, MAX_NAMES>,
}

impl Model for Trail {
    ghost use Rattle.std.specs.Prelude.{List, ℕ};

    ghost Value = { List ℕ };

    ghost view = { λ t. t.blocks.items };
}

impl Trail {
    fn new() -> Self
        ensures { result ≡ [] }
    {
        Trail {
            blocks: ArrayVec::new(),
        }
    }

    fn push(&mut self, block: u32)
        requires { length self.old < MAX_NAMES }
        ensures { self.new ≡ self.old ++ block ∷ [] }
    {
        self.blocks.push(block);
    }

    /// The first blocks, so many.
    fn front(&self, count: usize) -> Self
        requires { count ≤ length self.now }
        ensures { result ≡ take count self.now }
    {
        let mut front = Trail::new();
        for block in &self.blocks.as_slice()[..count] {
            front.push(*block);
        }
        front
    }

    /// The block at a place; `root` where the trail has none there, as that of the root's own path.
    fn block_or(&self, place: usize, root: u32) -> u32
        ensures { result ≡ slice_index_or self.now place root }
    {
        let blocks = self.blocks.as_slice();
        if place < blocks.len() {
            blocks[place]
        } else {
            root
        }
    }

    /// The blocks, the root first.
    pub fn blocks(&self) -> &[u32]
        ensures { result.now ≡ self.now }
    {
        self.blocks.as_slice()
    }
}

/// A look-up of a path that goes on at the directory in a block, where the trail has those that were
/// gone through before: one for each of the first names.
fn find_from<N: Nodes>(
    nodes: &mut N,
    trail: Trail,
    block: u32,
    path: &Path,
) -> Result<(Found, Trail), Fault>
    requires sound { N.is_sound nodes.old }
    requires within { length trail ≤ length path.now }

    // What the names that are left lead to.
    ensures found { IfOk result (λ r. spec.look_up (N.node nodes.old) block (drop (length trail) path.now) ≡ Ok r.0) }
    ensures trail { (root : ℕ) → spec.LeadsToDirectories (N.node nodes.old) root → IsWay (N.node nodes.old) root path.now trail block → IfOk result (λ r. IsTrail (N.node nodes.old) root path.now r.1) }

    // Why not, and what is read.
    ensures refused { IfErr result (λ fault. spec.is_path_fault fault ≡ true → spec.look_up (N.node nodes.old) block (drop (length trail) path.now) ≡ Err fault) }
    ensures calls { LooksWithin N.Nodes spec.IsLookupFault (spec.way_nodes (N.node nodes.old) block (drop (length trail) path.now)) nodes.old result nodes.new }
{
    let names = path.names();
    let mut trail = trail;
    let mut block = block;
    let known = trail.blocks().len();
    for i in known..names.len() {
        let name = &names[i];
        trail.push(block);
        if i + 1 == names.len() {
            let found = found_in(nodes, block, name)?;
            return Ok((found, trail));
        }
        let place = place_in(nodes, block, name)?;
        block = directory_at(place)?;
    }
    Ok((Found::Dir { block }, trail))
}

/// What a path below a root leads to, and the directories that it goes through. Any content of the
/// nodes is looked up, directories that reach themselves too: of each directory on the way its nodes
/// are read once, at most 32, and none after the one that has the name.
///
/// Refused with `NoEntry` where a component but the last is missing, with `NotDirectory` where one
/// but the last is a file, with `Damaged` where the nodes that are read are those of no directory,
/// and with what a read is refused with.
pub fn find<N: Nodes>(nodes: &mut N, root: u32, path: &Path) -> Result<(Found, Trail), Fault>
    requires { N.is_sound nodes.old }

    // What was found.
    ensures found { IfOk result (λ r. spec.look_up (N.node nodes.old) root path.now ≡ Ok r.0) }
    ensures trail { spec.LeadsToDirectories (N.node nodes.old) root → IfOk result (λ r. IsTrail (N.node nodes.old) root path.now r.1) }

    // Why not, and what is read.
    ensures refused { IfErr result (λ fault. spec.is_path_fault fault ≡ true → spec.look_up (N.node nodes.old) root path.now ≡ Err fault) }
    ensures calls { LooksWithin N.Nodes spec.IsLookupFault (spec.way_nodes (N.node nodes.old) root path.now) nodes.old result nodes.new }
{
    find_from(nodes, Trail::new(), root, path)
}

/// What a path below a root leads to, and the directories that it goes through, as `find`, where
/// another path was looked up before: its trail tells the directories that both go through, and no
/// node of them is read again but of the one where the paths part.
///
/// Refused as `find`.
pub fn find_beside<N: Nodes>(
    nodes: &mut N,
    root: u32,
    other: &Path,
    other_trail: &Trail,
    path: &Path,
) -> Result<(Found, Trail), Fault>
    requires sound { N.is_sound nodes.old }
    requires way { IsTrail (N.node nodes.old) root other.now other_trail.now }

    // What the path leads to.
    ensures found { IfOk result (λ r. spec.look_up (N.node nodes.old) root path.now ≡ Ok r.0) }
    ensures trail { spec.LeadsToDirectories (N.node nodes.old) root → IfOk result (λ r. IsTrail (N.node nodes.old) root path.now r.1) }

    // Why not, and what is read.
    ensures refused { IfErr result (λ fault. spec.is_path_fault fault ≡ true → spec.look_up (N.node nodes.old) root path.now ≡ Err fault) }
    ensures calls { LooksWithin N.Nodes spec.IsLookupFault (beside_nodes (N.node nodes.old) root other.now other_trail.now path.now) nodes.old result nodes.new }
{
    let blocks = other_trail.blocks();
    let common = common_names(other.names(), path.names());
    let known = common.min(blocks.len().saturating_sub(1));
    let block = other_trail.block_or(known, root);
    find_from(nodes, other_trail.front(known), block, path)
}
