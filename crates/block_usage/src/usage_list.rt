//! How many blocks the entries of a directory reach.
ghost use Rattle.std.specs.Prelude.{◌≡◌, ◌⊎◌, ◌-◌, ◌≤◌, [], ◌∷◌, ◌++◌, Some, All, sum_by, map, IfOk, OnOk, IfErr};
ghost use Rattle.fs_types.specs.declared.limits.TheConstants.{MAX_NAMES};
ghost use Rattle.node_format.specs.Headers.{body_header};
ghost use Rattle.node_format.specs.declared.place.Place.{Place};
ghost use Rattle.nodes.specs.Trees.{leads, HasTree};
ghost use Rattle.nodes.specs.Faults.{IsLookFault};
ghost use Rattle.nodes.specs.Words.{IsRoot, Looks};
ghost use Rattle.block_usage.specs.Usages as spec;
ghost use Rattle.block_usage.specs.declared.usage_fault.TheConstants.{MAX_USAGE_BLOCKS};

use crate::usage::{Usage, usage_of};
use crate::usage_fault::{MAX_USAGE_BLOCKS, UsageFault};
use block_ring::Marks;
use directory::{Found, lookup, places_after};
use fs_types::{Fault, MAX_ENTRIES, Name, Path};
use node_format::Place;
use nodes::Nodes;
use std::alloc::{AllocError, Global};

/// How many blocks what stands at a path reaches.
#[derive(Debug, Drop)]
pub struct EntryUsage {
    /// The path.
    pub path: Path,
    /// How many blocks.
    pub usage: Usage,
}

/// How many blocks the entries of a directory reach, or a file.
#[derive(Debug, Drop)]
pub struct UsageList {
    /// Of each entry, or of the file: the one with most blocks first, and those with as many in byte order of
    /// their names.
    pub entries: Vec<EntryUsage>,
    /// Of all together, each block counted once, and those of the directory itself too.
    pub total: Usage,
}

/// How many blocks each entry of the directory at a path below a root reaches, or the file that stands there,
/// and how many of these do not stand apart. The root is known to have a tree.
///
/// [`Fault::NoEntry`] where nothing stands at the path, or a component but the last is missing;
/// [`Fault::NotDirectory`] where one but the last is a file; [`Fault::ReadFailed`], [`Fault::PowerCut`],
/// [`Fault::NoMemory`]. [`UsageFault::TooManyBlocks`] where the entries reach over [`MAX_USAGE_BLOCKS`] blocks
/// together, each counted for each of them.
pub fn find_usages<N: Nodes>(
    alloc: Global,
    nodes: &mut N,
    root: u32,
    path: &Path,
    apart: &Marks,
) -> Result<UsageList, UsageFault>
    requires sound { N.is_sound nodes.old }
    requires tree { IsRoot N.Nodes nodes.old root }
    ensures list { IfOk result (spec.IsListAt (N.node nodes.old) root path.now apart.now.members) }
    ensures err { IfErr result (spec.ListCause N.Nodes root path.now apart.now.members nodes.old nodes.new) }
    ensures looks { Looks N.Nodes nodes.old nodes.new }
{
    let place = find_place(nodes, root, path)?;
    let places = places_at(alloc, nodes, root, path, place)?;
    let found = usages_of(alloc, nodes, &places, apart)?;
    let total = usage_of(alloc, nodes, place, apart)?;
    Ok(UsageList {
        entries: most_first(found)?,
        total,
    })
}

/// What a path below a root leads to.
fn find_place<N: Nodes>(nodes: &mut N, root: u32, path: &Path) -> Result<Place, Fault>
    requires sound { N.is_sound nodes.old }
    requires tree { IsRoot N.Nodes nodes.old root }
    ensures found { IfOk result (λ place. leads (N.node nodes.old) (Place.Dir root) path.now ≡ Some place) }
    ensures refused { IfErr result (λ fault. spec.IsPathRefused (N.node nodes.old) root path.now fault ⊎ (IsLookFault fault × N.causes nodes.old nodes.new fault)) }
    ensures looks { Looks N.Nodes nodes.old nodes.new }
{
    match lookup(nodes, root, path)? {
        Found::Missing { .. } => Err(Fault::NoEntry),
        Found::File { head, length } => Ok(Place::File { head, length }),
        Found::Dir { block } => Ok(Place::Dir { block }),
    }
}

/// The entries of the directory at a path, each with its path, or the file that stands there.
fn places_at<N: Nodes>(
    alloc: Global,
    nodes: &mut N,
    root: u32,
    path: &Path,
    place: Place,
) -> Result<Vec<(Path, Place)>, Fault>
    requires sound { N.is_sound nodes.old }
    requires tree { IsRoot N.Nodes nodes.old root }
    requires leads { leads (N.node nodes.old) (Place.Dir root) path.now ≡ Some place }
    ensures places { IfOk result (λ places. places.items ≡ spec.places_at (N.node nodes.old) path.now place) }
    ensures refused { IfErr result (λ fault. IsLookFault fault × N.causes nodes.old nodes.new fault) }
    ensures looks { Looks N.Nodes nodes.old nodes.new }
{
    match place {
        Place::Dir { block } => entry_places(alloc, nodes, root, path, block),
        Place::File { .. } => Ok(place_alone(alloc, path, place)?),
    }
}

/// The place at a path alone.
fn place_alone(alloc: Global, path: &Path, place: Place) -> Result<Vec<(Path, Place)>, AllocError>
    ensures { IfOk result (λ places. places.items ≡ (path.now, place) ∷ []) }
{
    let mut places = Vec::new(alloc);
    places.push((path.clone()?, place))?;
    Ok(places)
}

/// The entries of the directory at a path, each with its path.
fn entry_places<N: Nodes>(
    alloc: Global,
    nodes: &mut N,
    root: u32,
    path: &Path,
    block: u32,
) -> Result<Vec<(Path, Place)>, Fault>
    requires sound { N.is_sound nodes.old }
    requires tree { IsRoot N.Nodes nodes.old root }
    requires leads { leads (N.node nodes.old) (Place.Dir root) path.now ≡ Some (Place.Dir block) }
    ensures places { IfOk result (λ places. places.items ≡ spec.places_at (N.node nodes.old) path.now (Place.Dir block)) }
    ensures refused { IfErr result (λ fault. IsLookFault fault × N.causes nodes.old nodes.new fault) }
    ensures looks { Looks N.Nodes nodes.old nodes.new }
{
    let entries = places_after(alloc, nodes, block, None, MAX_ENTRIES as u64)?;
    Ok(with_paths(alloc, path, entries.as_slice())?)
}

/// Entries of the directory at a path, each with its path.
fn with_paths(
    alloc: Global,
    path: &Path,
    entries: &[(Name, Place)],
) -> Result<Vec<(Path, Place)>, AllocError>
    requires { spec.HasRoom path.now entries.now }
    ensures { IfOk result (λ places. places.items ≡ map (spec.with_path path.now) entries.now) }
{
    let mut places = Vec::new(alloc);
    for (name, place) in entries {
        places.push((path.join(name)?, *place))?;
    }
    Ok(places)
}

/// How many blocks the places at paths reach.
fn usages_of<N: Nodes>(
    alloc: Global,
    nodes: &mut N,
    places: &[(Path, Place)],
    apart: &Marks,
) -> Result<Vec<EntryUsage>, UsageFault>
    requires sound { N.is_sound nodes.old }
    requires trees { All (λ at. HasTree (N.limit nodes.old - body_header) (N.node nodes.old) at.1 MAX_NAMES) places.now }
    ensures usages { IfOk result (λ found. spec.AreUsages (N.node nodes.old) apart.now.members places.now found.items) }
    ensures few { IfOk result (λ found. sum_by spec.blocks_of found.items ≤ MAX_USAGE_BLOCKS) }
    ensures err { IfErr result (spec.UsagesCause N.Nodes places.now apart.now.members nodes.old nodes.new) }
    ensures looks { Looks N.Nodes nodes.old nodes.new }
{
    let mut found = Vec::new(alloc);
    let mut seen = 0;
    for (path, place) in places {
        let usage = usage_of(alloc, nodes, *place, apart)?;
        push_usage(&mut found, path, usage)?;
        if usage.blocks > MAX_USAGE_BLOCKS - seen {
            return Err(UsageFault::TooManyBlocks);
        }
        seen += usage.blocks;
    }
    Ok(found)
}

/// Adds how many blocks what stands at a path reaches.
fn push_usage(found: &mut Vec<EntryUsage>, path: &Path, usage: Usage) -> Result<(), AllocError>
    ensures { OnOk result (found.new.items ≡ found.old.items ++ record { path = path.now; usage = usage } ∷ []) }
{
    let path = path.clone()?;
    found.push(EntryUsage { path, usage })?;
    Ok(())
}

/// The same, the one with most blocks first.
fn most_first(found: Vec<EntryUsage>) -> Result<Vec<EntryUsage>, AllocError>
    ensures { IfOk result (λ sorted. spec.IsMostFirst found.items sorted.items) }
{
    let mut sorted = found;
    sorted.sort_by_key(|entry| u64::MAX - entry.usage.blocks)?;
    Ok(sorted)
}
