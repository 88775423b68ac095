//! The calls that make what is left of a tree.
ghost use Rattle.std.specs.Prelude.{◌≡◌, ◌<◌, ◌++◌, nat_le, length, sum_by, OnOk, IfOk, IfErr};
ghost use Rattle.std.specs.List.{flat_map};
ghost use Rattle.node_format.specs.declared.place.Place.TheVariants.{Dir, File};
ghost use Rattle.salvages.specs.Lefts as spec;
ghost use Rattle.salvages.specs.Overfull.{Overfull};
ghost use Rattle.known_nodes.specs.Rests.{entry_left};
ghost use Rattle.known_nodes.specs.Tables.{blocks_in};

use crate::lefts::{Left, list_left};
use crate::losses::{Loss, LossFault};
use fs_types::{Call, CpName, Path};
use known_nodes::KnownNodes;
use node_format::Place;
use std::alloc::{AllocError, Global};

/// So many bytes the files of what is left may have together.
pub const MAX_BYTES: usize = 67_108_864;

/// What is left of a tree of which some nodes are lost.
#[derive(Drop)]
pub struct Rest {
    /// The calls that make what is left, in a tree that has nothing but a root: a directory before what
    /// stands in it.
    pub calls: Vec<Call>,
    /// What is lost.
    pub losses: Vec<Loss>,
    /// How many versions the damaged file system keeps at most.
    pub limit: u16,
    /// The serials of its versions, ascending.
    pub serials: Vec<u64>,
    /// The names of its checkpoints, ascending.
    pub names: Vec<CpName>,
}

/// How many bytes a file has that is whole.
fn size_of(known: &KnownNodes, left: &Left) -> usize
    ensures { result ≡ spec.size_of known.now.capacity (blocks_in known.now.nodes) left.now }
{
    match left.place {
        Place::Dir { .. } => 0,
        Place::File { head, length } => {
            if known.is_file(head, length) {
                length as usize
            } else {
                0
            }
        }
    }
}

/// Whether the whole files have few enough bytes together.
fn are_few(known: &KnownNodes, lefts: &[Left]) -> bool
    ensures { result ≡ nat_le (sum_by (spec.size_of known.now.capacity (blocks_in known.now.nodes)) lefts.now) MAX_BYTES }
{
    let mut left_over = MAX_BYTES;
    for left in lefts {
        let size = size_of(known, left);
        if size > left_over {
            return false;
        }
        left_over -= size;
    }
    true
}

/// Adds the call that makes what is left at a path.
fn add_call(
    alloc: Global,
    known: &KnownNodes,
    left: &Left,
    calls: &mut Vec<Call>,
) -> Result<(), AllocError>
    ensures { OnOk result (calls.new.items ≡ calls.old.items ++ spec.made_of known.now.capacity (blocks_in known.now.nodes) left.now) }
{
    if left.path.is_root() {
        return Ok(());
    }
    match left.place {
        Place::Dir { block } => add_mkdir(known, &left.path, block, calls),
        Place::File { head, length } => add_write(alloc, known, &left.path, head, length, calls),
    }
}

/// Adds the call that makes the directory at a path, where it begins in its block.
fn add_mkdir(
    known: &KnownNodes,
    path: &Path,
    block: u32,
    calls: &mut Vec<Call>,
) -> Result<(), AllocError>
    requires { 0 < length path.now }
    ensures { OnOk result (calls.new.items ≡ calls.old.items ++ spec.made_at path.now (entry_left known.now.capacity (blocks_in known.now.nodes) (Dir block))) }
{
    if known.link_at(block).is_none() {
        return Ok(());
    }
    let path = path.clone()?;
    calls.push(Call::Mkdir { path })?;
    Ok(())
}

/// Adds the call that writes the file at a path, where it is whole.
fn add_write(
    alloc: Global,
    known: &KnownNodes,
    path: &Path,
    head: u32,
    size: u32,
    calls: &mut Vec<Call>,
) -> Result<(), AllocError>
    requires { 0 < length path.now }
    ensures { OnOk result (calls.new.items ≡ calls.old.items ++ spec.made_at path.now (entry_left known.now.capacity (blocks_in known.now.nodes) (File head size))) }
{
    if !known.is_file(head, size) {
        return Ok(());
    }
    let bytes = known.body(alloc, head, size)?;
    let path = path.clone()?;
    calls.push(Call::WriteFile { path, bytes })?;
    Ok(())
}

/// Adds the calls that make what is left at some paths.
fn add_calls(
    alloc: Global,
    known: &KnownNodes,
    lefts: &[Left],
    calls: &mut Vec<Call>,
) -> Result<(), AllocError>
    ensures { OnOk result (calls.new.items ≡ calls.old.items ++ flat_map (spec.made_of known.now.capacity (blocks_in known.now.nodes)) lefts.now) }
{
    for left in lefts {
        add_call(alloc, known, left, calls)?;
    }
    Ok(())
}

/// The calls that make the rest of the tree of a root in a tree that has nothing but a root.
pub(crate) fn list_calls(
    alloc: Global,
    known: &KnownNodes,
    root: u32,
) -> Result<Vec<Call>, LossFault>
    ensures calls { IfOk result (λ calls. calls.items ≡ spec.rest_calls known.now.capacity (blocks_in known.now.nodes) root) }
    ensures err { IfErr result (Overfull (spec.rest_bytes known.now.capacity (blocks_in known.now.nodes) root)) }
{
    let lefts = list_left(alloc, known, root)?;
    if !are_few(known, &lefts) {
        return Err(LossFault::TooManyLines);
    }
    let mut calls = Vec::new(alloc);
    add_calls(alloc, known, &lefts, &mut calls)?;
    Ok(calls)
}
