//! The entries of directories at places.
ghost use Rattle.std.specs.Prelude.{◌≡◌, List, ℕ, Some, map, IfOk, IfErr};
ghost use Rattle.std.specs.BTreeMap.{is_at};
ghost use Rattle.std.specs.Map.{lookup};
ghost use Rattle.fs_types.specs.Names.{name_cmp};
ghost use Rattle.nodes.specs.Faults.{IsLookFault};
ghost use Rattle.nodes.specs.Words.{Looks};
ghost use Rattle.directory.specs.Places.{placed, Begins};
ghost use Rattle.tree_differences.specs.Differing.{child_at, items_at, BeginsAt};

use directory::places_after;
use fs_types::{Fault, MAX_ENTRIES, Name, Sequence};
use node_format::Place;
use nodes::Nodes;
use std::alloc::{AllocError, Global};
use std::collections::BTreeMap;

/// The entries of the directory at a place, each with its place, in byte order of their names; none of
/// what is no directory. Its nodes are read once each.
pub(crate) fn entries_at<N: Nodes>(
    alloc: Global,
    nodes: &mut N,
    place: Option<Place>,
) -> Result<Sequence<(Name, Place)>, Fault>
    requires sound { N.is_sound nodes.old }
    requires begins { BeginsAt (N.node nodes.old) place }
    ensures entries { IfOk result (λ entries. entries ≡ map placed (items_at (N.node nodes.old) place)) }
    ensures refused { IfErr result (λ fault. IsLookFault fault × N.causes nodes.old nodes.new fault) }
    ensures looks { Looks N.Nodes nodes.old nodes.new }
{
    match place {
        Some(place) => entries_of(alloc, nodes, place),
        None => Ok(Sequence::new(alloc)),
    }
}

/// The same, where there is a place.
fn entries_of<N: Nodes>(
    alloc: Global,
    nodes: &mut N,
    place: Place,
) -> Result<Sequence<(Name, Place)>, Fault>
    requires sound { N.is_sound nodes.old }
    requires begins { Begins (N.node nodes.old) place }
    ensures entries { IfOk result (λ entries. entries ≡ map placed (items_at (N.node nodes.old) (Some place))) }
    ensures refused { IfErr result (λ fault. IsLookFault fault × N.causes nodes.old nodes.new fault) }
    ensures looks { Looks N.Nodes nodes.old nodes.new }
{
    match place {
        Place::Dir { block } => places_after(alloc, nodes, block, None, MAX_ENTRIES as u64),
        Place::File { .. } => Ok(Sequence::new(alloc)),
    }
}

/// The places of the entries of the directory at a place, by their names; none of what is no directory.
pub(crate) fn places_at<N: Nodes>(
    alloc: Global,
    nodes: &mut N,
    place: Option<Place>,
) -> Result<BTreeMap<Name, Place>, Fault>
    requires sound { N.is_sound nodes.old }
    requires begins { BeginsAt (N.node nodes.old) place }
    ensures places { IfOk result (λ places. (name : List ℕ) → lookup (is_at (name_cmp name)) places.entries ≡ child_at (N.node nodes.old) place name) }
    ensures refused { IfErr result (λ fault. IsLookFault fault × N.causes nodes.old nodes.new fault) }
    ensures looks { Looks N.Nodes nodes.old nodes.new }
{
    let entries = entries_at(alloc, nodes, place)?;
    Ok(by_name(alloc, entries.as_slice())?)
}

/// The places of entries, by their names; the first of those with the same name.
fn by_name(alloc: Global, entries: &[(Name, Place)]) -> Result<BTreeMap<Name, Place>, AllocError>
    ensures { IfOk result (λ places. (name : List ℕ) → lookup (is_at (name_cmp name)) places.entries ≡ lookup (is_at (name_cmp name)) entries.now) }
{
    let mut places = BTreeMap::new(alloc);
    let mut left = entries.len();
    while left > 0 {
        left -= 1;
        let (name, place) = &entries[left];
        places.insert(name.clone()?, *place)?;
    }
    Ok(places)
}
