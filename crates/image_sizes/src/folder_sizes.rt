//! How many blocks hold what stands at names of the host. A number of nodes past the greatest `u64` is told
//! as that.
ghost use Rattle.std.specs.Prelude.{◌≡◌, ◌<◌, ◌≤◌, ◌==◌, ℕ, min, map, length, count_by};
ghost use Rattle.std.specs.List.{sum_by};
ghost use Rattle.flash_model.specs.Geometry.{IsGeometry};
ghost use Rattle.host_interface.specs.Sources.{source_found};
ghost use Rattle.image_sizes.specs.FolderSizes as spec;

use flash_model::Geometry;
use fs_types::{ANCHORS, NODE_ENTRIES};
use host_interface::{Source, SourceKind};
use node_format::BODY_HEADER;

/// Bytes of the largest flash.
const MAX_FLASH_BYTES: u64 = 67_108_864;

/// The blocks of a new image with blocks of these sizes that holds these sources, `history` changes of the
/// largest file, and as much free; at most as many as a flash may have.
///
/// They are the 8 of the anchors and twice the nodes of the tree and of the changes, and at least 16. The
/// tree has a node for each folder, one more for each 32 names, and those of the files. A change has those
/// of the largest file, one for each directory on the longest way, and one more for each 32 names.
pub fn blocks_for(sizes: Geometry, history: u32, sources: &[Source]) -> u32
    ensures { result ≡ spec.blocks_for sizes history (map source_found sources.now) }
{
    let wanted = blocks_wanted(sizes, history, sources);
    wanted.min(most_blocks(sizes)) as u32
}

/// How many changes of the largest file have room beside these sources on a flash of as many blocks of these
/// sizes as it may have: at most `history`, and 0 where the sources have none by themselves.
pub fn changes_with_room(sizes: Geometry, history: u32, sources: &[Source]) -> u32
    ensures { result ≡ spec.changes_with_room sizes history (map source_found sources.now) }
{
    let capacity = capacity_of(sizes);
    let tree = tree_nodes(capacity, sources).saturating_add(u64::from(ANCHORS));
    let change = change_nodes(capacity, sources).max(1);
    let changes = most_blocks(sizes).saturating_sub(tree) / change;
    changes.min(u64::from(history)) as u32
}

/// The blocks of these sizes that the tree of these sources takes at most.
pub fn tree_blocks(sizes: Geometry, sources: &[Source]) -> u64
    ensures { result ≡ min (spec.tree_nodes (spec.capacity_of sizes) (map source_found sources.now)) u64.MAX }
{
    tree_nodes(capacity_of(sizes), sources)
}

/// The most blocks of these sizes that a flash may have, whatever number the sizes have.
fn most_blocks(sizes: Geometry) -> u64
    ensures value { result ≡ spec.most_blocks sizes }
    ensures least { result ≤ MAX_FLASH_BYTES }
    ensures most { (n : ℕ) → IsGeometry (record sizes { blocks = n }) → n ≤ result }
    ensures lawful { (n : ℕ) → IsGeometry (record sizes { blocks = n }) → IsGeometry (record sizes { blocks = result }) }
{
    let block = u64::from(sizes.pages) * u64::from(sizes.page);
    MAX_FLASH_BYTES / block.max(1)
}

/// The blocks for these sources, `history` changes of the largest file, and as much free.
fn blocks_wanted(sizes: Geometry, history: u32, sources: &[Source]) -> u64
    ensures { result ≡ min (spec.blocks_wanted sizes history (map source_found sources.now)) u64.MAX }
{
    let capacity = capacity_of(sizes);
    let tree = tree_nodes(capacity, sources);
    let change = change_nodes(capacity, sources);
    let changes = change.saturating_mul(u64::from(history));
    let data = tree.saturating_add(changes).saturating_mul(2);
    data.saturating_add(u64::from(ANCHORS)).max(16)
}

/// How many bytes of a file a node has room for; one where the sizes are not lawful.
fn capacity_of(sizes: Geometry) -> u64
    ensures { result ≡ spec.capacity_of sizes }
{
    let block = u64::from(sizes.page) * u64::from(sizes.pages);
    block.saturating_sub(u64::from(BODY_HEADER)).max(1)
}

/// The nodes of the tree.
fn tree_nodes(capacity: u64, sources: &[Source]) -> u64
    requires { 0 < capacity }
    ensures { result ≡ min (spec.tree_nodes capacity (map source_found sources.now)) u64.MAX }
{
    let mut nodes: u64 = 0;
    for source in sources {
        nodes = nodes.saturating_add(nodes_of(capacity, source.kind));
    }
    nodes.saturating_add(name_nodes(sources))
}

/// The nodes of a change of the largest file.
fn change_nodes(capacity: u64, sources: &[Source]) -> u64
    requires { 0 < capacity }
    ensures { result ≡ min (spec.change_nodes capacity (map source_found sources.now)) u64.MAX }
{
    let body = largest_body(capacity, sources);
    let way = longest_way(sources);
    body.saturating_add(way).saturating_add(name_nodes(sources))
}

/// The nodes that names take more than one for a folder.
fn name_nodes(sources: &[Source]) -> u64
    ensures { result ≡ spec.name_nodes (map source_found sources.now) }
{
    (sources.len() / NODE_ENTRIES) as u64
}

/// The nodes of what stands at a name, before its names.
fn nodes_of(capacity: u64, kind: SourceKind) -> u64
    requires { 0 < capacity }
    ensures { result ≡ spec.nodes_of capacity kind }
{
    match kind {
        SourceKind::Folder => 1,
        _ => body_of(capacity, kind),
    }
}

/// The nodes of a file.
fn body_of(capacity: u64, kind: SourceKind) -> u64
    requires { 0 < capacity }
    ensures { result ≡ spec.body_of capacity kind }
{
    match kind {
        SourceKind::File(length) => length.div_ceil(capacity),
        _ => 0,
    }
}

/// The nodes of the largest file.
fn largest_body(capacity: u64, sources: &[Source]) -> u64
    requires { 0 < capacity }
    ensures { result ≡ spec.greatest (λ found. spec.body_of capacity found.kind) (map source_found sources.now) }
{
    let mut most: u64 = 0;
    for source in sources {
        most = most.max(body_of(capacity, source.kind));
    }
    most
}

/// The directories on the longest way.
fn longest_way(sources: &[Source]) -> u64
    ensures { result ≡ spec.greatest spec.directories_of (map source_found sources.now) }
{
    let mut most: u64 = 0;
    for source in sources {
        most = most.max(slashes(source.way.as_bytes()));
    }
    most
}

/// The slashes of a way.
fn slashes(way: &[u8]) -> u64
    ensures { result ≡ count_by (λ byte. byte == 47) way.now }
{
    let mut count: u64 = 0;
    for byte in way {
        if *byte == b'/' {
            count += 1;
        }
    }
    count
}
