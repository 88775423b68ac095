//! What is known of the nodes of a damaged flash, and the root whose tree's rest is told.
ghost use Rattle.std.specs.Prelude.{◌≡◌, true, Some, slice_get, IfOk, IfErr, option_copied};
ghost use Rattle.flash_model.specs.Geometry.{IsGeometry};
ghost use Rattle.flash_model.specs.Reading.{OnlyReads};
ghost use Rattle.node_store.specs.NodePages.{node_of};
ghost use Rattle.node_store.specs.Fitting.{Fits};
ghost use Rattle.node_store.specs.Stores.{IsSoundStore, Follows};
ghost use Rattle.record_format.specs.Payloads.{is_record};
ghost use Rattle.working_state.specs.Seen.{capacity_of};
ghost use Rattle.salvages.specs.Causes.{ReadCause};
ghost use Rattle.known_nodes.specs.Tables.{blocks_in};
ghost use Rattle.salvages.specs.Told as spec;

use bad_blocks::BadBlocks;
use flash_model::Flash;
use fs_types::{ANCHORS, Fault, MOUNTED_NODES, Version};
use known_nodes::{KnownNodes, NodeTable};
use node_format::BODY_HEADER;
use node_store::{NodeCache, Nodes, Storage, Store};
use record_format::Record;
use std::alloc::Global;

/// What is known of all nodes, by what they are kept with.
fn known_in<F: Flash>(alloc: Global, store: &mut Store<'_, F>) -> Result<KnownNodes, Fault>
    requires { IsSoundStore F.device store.old }
    ensures follows { Follows F.device store.old store.new }
    ensures nodes { IfOk result (λ known. blocks_in known.nodes ≡ node_of (F.device store.old.flash.now)) }
    ensures capacity { IfOk result (λ known. known.capacity ≡ capacity_of (F.device store.old.flash.now)) }
    ensures only_reads { OnlyReads (F.device store.old.flash.now) (F.device store.new.flash.now) }
    ensures why { IfErr result (ReadCause (F.device store.old.flash.now) (F.device store.new.flash.now)) }
{
    let table = NodeTable::read(alloc, store)?;
    let capacity = store.block_bytes() - BODY_HEADER;
    Ok(KnownNodes::of(alloc, table, capacity as usize, store.block_count())?)
}

/// The same, on a flash.
fn known_on<F: Flash>(
    alloc: Global,
    flash: &mut F,
    storage: &mut Storage,
) -> Result<KnownNodes, Fault>
    requires lawful { IsGeometry (F.device flash.old).geometry }
    requires ring_blocks { storage.old.ring.blocks ≡ (F.device flash.old).geometry.blocks }
    requires fits { Fits (F.device flash.old) storage.old }
    ensures nodes { IfOk result (λ known. blocks_in known.nodes ≡ node_of (F.device flash.old)) }
    ensures capacity { IfOk result (λ known. known.capacity ≡ capacity_of (F.device flash.old)) }
    ensures only_reads { OnlyReads (F.device flash.old) (F.device flash.new) }
    ensures why { IfErr result (ReadCause (F.device flash.old) (F.device flash.new)) }
{
    let mut store = Store::new(flash, storage);
    known_in(alloc, &mut store)
}

/// What is known of all nodes of a flash. Each is read once.
pub(crate) fn know_nodes<F: Flash>(alloc: Global, flash: &mut F) -> Result<KnownNodes, Fault>
    requires { IsGeometry (F.device flash.old).geometry }
    ensures nodes { IfOk result (λ known. blocks_in known.nodes ≡ node_of (F.device flash.old)) }
    ensures capacity { IfOk result (λ known. known.capacity ≡ capacity_of (F.device flash.old)) }
    ensures only_reads { OnlyReads (F.device flash.old) (F.device flash.new) }
    ensures why { IfErr result (ReadCause (F.device flash.old) (F.device flash.new)) }
{
    let cache = NodeCache::new(alloc, MOUNTED_NODES)?;
    let mut storage = Storage::unused(alloc, flash.geometry(), BadBlocks::new(), ANCHORS, cache)?;
    known_on(alloc, flash, &mut storage)
}

/// Whether the first node of a directory is in a block.
fn begins(known: &KnownNodes, block: u32) -> bool
    ensures { result ≡ spec.begins (blocks_in known.now.nodes) block }
{
    known.link_at(block).is_some()
}

/// The present version of a record.
pub(crate) fn present_of(newest: &Record) -> Version<u32>
    requires { is_record newest.now ≡ true }
    ensures { slice_get newest.now.versions newest.now.cursor ≡ Some result }
{
    newest.versions.as_slice()[newest.cursor as usize]
}

/// The root whose tree's rest is told.
pub(crate) fn rest_root(known: &KnownNodes, newest: &Record) -> Option<u32>
    requires { is_record newest.now ≡ true }
    ensures { result ≡ spec.rest_root (blocks_in known.now.nodes) newest.now }
{
    let present = present_of(newest);
    if begins(known, present.root) {
        return Some(present.root);
    }
    match newest_begun(known, newest.versions.as_slice()) {
        Some(version) => Some(version.root),
        None => None,
    }
}

/// The newest version whose root's first node is lawful.
fn newest_begun<'a>(known: &KnownNodes, versions: &'a [Version<u32>]) -> Option<&'a Version<u32>>
    ensures { option_copied result ≡ spec.newest_begun (blocks_in known.now.nodes) versions.now }
{
    versions
        .iter()
        .rev()
        .find(|version| begins(known, version.root))
}
