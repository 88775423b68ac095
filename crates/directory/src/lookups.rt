//! What a path leads to.
ghost use Rattle.std.specs.Prelude.{◌≡◌, ◌+◌, ◌≤◌, true, length, Some, None, Ok, Err, IfOk, IfErr, IsErrOf};
ghost use Rattle.fs_types.specs.declared.fault.Fault.TheVariants.{NoEntry, NotDirectory, Damaged};
ghost use Rattle.fs_types.specs.declared.limits.TheConstants.{NODE_ENTRIES};
ghost use Rattle.nodes.specs.Faults.{IsReadFault};
ghost use Rattle.nodes.specs.Words.{LooksWithin};
ghost use Rattle.nodes.specs.Chains.{link_of, chain};
ghost use Rattle.directory.specs.Seeking as seeking;
ghost use Rattle.directory.specs.Lookups as spec;

use crate::trail::find;
use fs_types::{CHAIN_NODES, Fault, MAX_ENTRIES, Name, Path};
use node_format::{Entries, Place};
use nodes::Nodes;

/// The most nodes after the first one of a directory.
pub(crate) const MOST_AFTER: u32 = CHAIN_NODES as u32 - 1;

/// What a path leads to.
#[derive(Clone, Copy, Debug, PartialEq, Eq)]
pub enum Found {
    /// The last component is missing, from a directory that has room for it or as many entries as it may.
    Missing { is_full: bool },
    /// A file, by the block of the last node of its body, and its length in bytes.
    File { head: u32, length: u32 },
    /// A directory, by the block of its first node.
    Dir { block: u32 },
}

impl Found {
    fn of(place: Option<Place>, is_full: bool) -> Self
        ensures { result ≡ spec.found_of place is_full }
    {
        match place {
            None => Found::Missing { is_full },
            Some(Place::File { head, length }) => Found::File { head, length },
            Some(Place::Dir { block }) => Found::Dir { block },
        }
    }
}

/// What one node of a directory says of a name.
#[derive(Clone, Copy)]
struct Sight {
    /// Whether it may come after another node.
    is_later: bool,
    place: Option<Place>,
    count: usize,
    next: u32,
}

/// What the node in a block says of a name.
fn look_at<N: Nodes>(nodes: &mut N, block: u32, name: &Name) -> Result<Sight, Fault>
    requires { N.is_sound nodes.old }

    // What the node says.
    ensures seen { IfOk result (λ s. seeking.Sees (link_of (N.node nodes.old block)) name.now s.is_later s.place s.count s.next) }
    ensures few { IfOk result (λ s. s.count ≤ NODE_ENTRIES) }

    // Why not, and what is read.
    ensures damaged { IsErrOf result Damaged → link_of (N.node nodes.old block) ≡ None }
    ensures calls { LooksWithin N.Nodes IsReadFault 1 nodes.old result nodes.new }
    ensures reads { N.reads nodes.new ≡ N.reads nodes.old + 1 }
{
    nodes.read(block)?;
    let Some((node, split)) = Entries::split(nodes.lent(), name.as_bytes()) else {
        return Err(Fault::Damaged);
    };
    let count = node.list().len();
    Ok(Sight {
        is_later: node.is_chained() && count > 0,
        place: split.found,
        count,
        next: node.next(),
    })
}

/// Whether no node is left to be read: the name was found, or none comes after.
fn is_over(place: Option<Place>, next: u32) -> bool
    ensures { result ≡ seeking.is_over place next }
{
    place.is_some() || next == 0
}

/// What the nodes of a directory say of a name: its place, and how many entries those have that were
/// read.
#[derive(Drop)]
pub(crate) struct Sought {
    place: Option<Place>,
    count: usize,
}

/// What a name leads to in the directory that begins in a block. No node after the one that has the
/// name is read; where none has it, each one is.
fn seek<N: Nodes>(nodes: &mut N, block: u32, name: &Name) -> Result<Sought, Fault>
    requires { N.is_sound nodes.old }

    // What the nodes say.
    ensures found { IfOk result (λ s. spec.place_in (N.node nodes.old) name.now block ≡ Ok s.place) }
    ensures counted { IfOk result (λ s. s.place ≡ None → s.count ≡ length (seeking.chain_items (N.node nodes.old) block)) }

    // Why not, and what is read.
    ensures damaged { IsErrOf result Damaged → spec.place_in (N.node nodes.old) name.now block ≡ Err Damaged }
    ensures calls { LooksWithin N.Nodes IsReadFault (length (chain (N.node nodes.old) block)) nodes.old result nodes.new }
{
    let mut sight = look_at(nodes, block, name)?;
    let mut count = sight.count;
    for _ in 0..MOST_AFTER {
        if is_over(sight.place, sight.next) {
            let place = sight.place;
            return Ok(Sought { place, count });
        }
        sight = look_at(nodes, sight.next, name)?;
        if !sight.is_later {
            return Err(Fault::Damaged);
        }
        count += sight.count;
    }
    if is_over(sight.place, sight.next) {
        let place = sight.place;
        return Ok(Sought { place, count });
    }
    Err(Fault::Damaged)
}

/// What a name leads to in the directory that begins in a block.
pub(crate) fn place_in<N: Nodes>(
    nodes: &mut N,
    block: u32,
    name: &Name,
) -> Result<Option<Place>, Fault>
    requires { N.is_sound nodes.old }

    // What was found.
    ensures found { IfOk result (λ place. spec.place_in (N.node nodes.old) name.now block ≡ Ok place) }

    // Why not, and what is read.
    ensures damaged { IsErrOf result Damaged → spec.place_in (N.node nodes.old) name.now block ≡ Err Damaged }
    ensures calls { LooksWithin N.Nodes IsReadFault (length (chain (N.node nodes.old) block)) nodes.old result nodes.new }
{
    let sought = seek(nodes, block, name)?;
    Ok(sought.place)
}

/// The directory that a place is, for a component that is not the last.
pub(crate) fn directory_at(place: Option<Place>) -> Result<u32, Fault>
    ensures { result ≡ spec.directory_at place }
{
    match place {
        None => Err(Fault::NoEntry),
        Some(Place::File { .. }) => Err(Fault::NotDirectory),
        Some(Place::Dir { block }) => Ok(block),
    }
}

/// What a name leads to in the directory that begins in a block, as the last component of a path. No
/// node after the one that has the name is read.
///
/// Refused with `Damaged` only where no directory begins there, and with what a read is refused with.
pub fn found_in<N: Nodes>(nodes: &mut N, block: u32, name: &Name) -> Result<Found, Fault>
    requires { N.is_sound nodes.old }

    // What was found.
    ensures found { IfOk result (λ found. spec.found_in (N.node nodes.old) name.now block ≡ Ok found) }

    // Why not, and what is read.
    ensures damaged { IsErrOf result Damaged → spec.place_in (N.node nodes.old) name.now block ≡ Err Damaged }
    ensures calls { LooksWithin N.Nodes IsReadFault (length (chain (N.node nodes.old) block)) nodes.old result nodes.new }
{
    let sought = seek(nodes, block, name)?;
    let is_full = sought.count >= MAX_ENTRIES;
    Ok(Found::of(sought.place, is_full))
}

/// What a path below a root leads to. Any content of the nodes is looked up, directories that reach
/// themselves too: of each directory on the way its nodes are read once, at most 32, and none after
/// the one that has the name.
///
/// Refused with `NoEntry` where a component but the last is missing, with `NotDirectory` where one
/// but the last is a file, with `Damaged` where the nodes that are read are those of no directory,
/// and with what a read is refused with.
pub fn lookup<N: Nodes>(nodes: &mut N, root: u32, path: &Path) -> Result<Found, Fault>
    requires { N.is_sound nodes.old }

    // What was found.
    ensures found { IfOk result (λ found. spec.look_up (N.node nodes.old) root path.now ≡ Ok found) }

    // Why not, and what is read.
    ensures refused { IfErr result (λ fault. spec.is_path_fault fault ≡ true → spec.look_up (N.node nodes.old) root path.now ≡ Err fault) }
    ensures calls { LooksWithin N.Nodes spec.IsLookupFault (spec.way_nodes (N.node nodes.old) root path.now) nodes.old result nodes.new }
{
    let (found, _trail) = find(nodes, root, path)?;
    Ok(found)
}

/// In a tree a look up finds what stands at the path, and is refused as POSIX.1-2017 refuses the
/// path; a name found node by node is that of the whole directory; and how many nodes it goes through
/// at most. The function does nothing: its contract is the law.
pub fn lookup_laws()
    ensures told { spec.FindLaw }
    ensures sought { spec.SeekLaw }
    ensures most { spec.MostNodesLaw }
    ensures nodes { spec.TreeNodesLaw }
{}
