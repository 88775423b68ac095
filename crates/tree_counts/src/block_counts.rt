//! Counts of data blocks, by the first root that reaches each.
ghost use Rattle.std.specs.Prelude.{◌≡◌, ℕ, ◌+◌, ◌≤◌, ◌<◌, List, length, take, reverse, count_by, slice_index};
ghost use Rattle.block_ring.specs.Ring.{data_blocks};
ghost use Rattle.nodes.specs.Bodies.{Blocks};
ghost use Rattle.tree_counts.specs.Counts.{CountsFree, CountsFreed, CountsAlone};
ghost use Rattle.tree_counts.specs.FirstRoots as spec;
ghost use Rattle.tree_counts.specs.FirstRoots.{AreFirstRoots};

use bad_blocks::BadBlocks;
use fs_types::ANCHORS;

/// How many data blocks of a flash of `blocks` blocks are neither bad nor reached by the first `kept`
/// roots, where `firsts` has of each block the number of the first root that reaches it.
pub fn count_free(blocks: u32, firsts: &[u8], bad: &BadBlocks, kept: u8) -> u32
    requires { length firsts.now ≡ blocks }
    ensures { (f : Blocks) (roots : List ℕ) → AreFirstRoots f roots firsts.now → kept ≤ length roots → CountsFree f blocks bad.now (take kept roots) result }
{
    count_unreached(blocks, firsts, bad, kept)
}

/// How many data blocks more are neither bad nor reached by the first `kept` roots than by all, where
/// `firsts` has of each block the number of the first root that reaches it.
pub fn count_freed(blocks: u32, firsts: &[u8], bad: &BadBlocks, kept: u8) -> u32
    requires { length firsts.now ≡ blocks }
    ensures { (f : Blocks) (roots : List ℕ) → AreFirstRoots f roots firsts.now → kept ≤ length roots → CountsFreed f blocks bad.now roots kept result }
{
    count_later(blocks, firsts, bad, kept)
}

/// How many data blocks that are not bad the root at a place reaches, and none of the others, of which
/// there are `roots` with it. `firsts` has of each block the number of the first root that reaches it,
/// and `lasts` the same of the roots from the last one on.
pub fn count_alone(
    blocks: u32,
    firsts: &[u8],
    lasts: &[u8],
    bad: &BadBlocks,
    place: u8,
    roots: u8,
) -> u32
    requires firsts { length firsts.now ≡ blocks }
    requires place { place < roots }
    ensures { (f : Blocks) (all : List ℕ) → length all ≡ roots → AreFirstRoots f all firsts.now → AreFirstRoots f (reverse all) lasts.now → CountsAlone f blocks bad.now all place result }
{
    count_only(blocks, firsts, lasts, bad, place + 1, roots)
}

/// How many data blocks are neither bad nor reached by the first `kept` roots.
fn count_unreached(blocks: u32, firsts: &[u8], bad: &BadBlocks, kept: u8) -> u32
    ensures { result ≡ count_by (spec.is_free firsts.now bad.now kept) (data_blocks blocks) }
{
    (ANCHORS..blocks)
        .filter(|block| is_free(firsts, bad, kept, *block))
        .count() as u32
}

/// How many data blocks that are not bad a root reaches, but none of the first `kept` ones.
fn count_later(blocks: u32, firsts: &[u8], bad: &BadBlocks, kept: u8) -> u32
    ensures { result ≡ count_by (spec.is_freed firsts.now bad.now kept) (data_blocks blocks) }
{
    (ANCHORS..blocks)
        .filter(|block| is_freed(firsts, bad, kept, *block))
        .count() as u32
}

/// How many data blocks that are not bad the root of this number reaches, and none of the others.
fn count_only(
    blocks: u32,
    firsts: &[u8],
    lasts: &[u8],
    bad: &BadBlocks,
    number: u8,
    roots: u8,
) -> u32
    ensures { result ≡ count_by (spec.is_alone firsts.now lasts.now bad.now number roots) (data_blocks blocks) }
{
    (ANCHORS..blocks)
        .filter(|block| is_alone(firsts, lasts, bad, number, roots, *block))
        .count() as u32
}

/// Whether a block is neither bad nor reached by the first `kept` roots.
fn is_free(firsts: &[u8], bad: &BadBlocks, kept: u8, block: u32) -> bool
    ensures { result ≡ spec.is_free firsts.now bad.now kept block }
{
    let first = number_of(firsts, block);
    !(bad.contains(block) || 0 < first && first <= kept)
}

/// Whether a block is not bad, and a root reaches it, but none of the first `kept` ones.
fn is_freed(firsts: &[u8], bad: &BadBlocks, kept: u8, block: u32) -> bool
    ensures { result ≡ spec.is_freed firsts.now bad.now kept block }
{
    !bad.contains(block) && kept < number_of(firsts, block)
}

/// Whether a block is not bad, and the root of this number reaches it and none of the others does.
fn is_alone(firsts: &[u8], lasts: &[u8], bad: &BadBlocks, number: u8, roots: u8, block: u32) -> bool
    ensures { result ≡ spec.is_alone firsts.now lasts.now bad.now number roots block }
{
    let first = number_of(firsts, block);
    let last = number_of(lasts, block);
    !bad.contains(block)
        && (first == number && u16::from(last) + u16::from(number) == u16::from(roots) + 1)
}

/// The number of a block in a list that has one for each.
fn number_of(numbers: &[u8], block: u32) -> u8
    ensures { result ≡ slice_index numbers.now block }
{
    match numbers.get(block as usize) {
        Some(number) => *number,
        None => 0,
    }
}
