//! The map of the blocks as text.
ghost use Rattle.std.specs.Prelude.{◌≡◌, ◌++◌, ◌<◌, count_by, OnOk, IfOk};
ghost use Rattle.std.specs.List.{flat_map};
ghost use Rattle.block_usage.specs.MapTexts.{ends_line, is_anchor, is_bad, is_free, is_kept, legend_line, map_text, sign_count, sign_text, signs_text, sums_line};

use crate::block_kind::BlockKind;
use script::print_number;
use std::alloc::{AllocError, Global};

/// The kinds in the order of the legend.
pub(crate) const ALL_KINDS: [BlockKind; 9] = [
    BlockKind::NewestAnchor,
    BlockKind::Anchor,
    BlockKind::Bad,
    BlockKind::Present,
    BlockKind::Shared,
    BlockKind::Other,
    BlockKind::Checkpoint,
    BlockKind::Stale,
    BlockKind::Blank,
];

/// A sign for each block, 64 a line; a line for each sign, with how many blocks have it and what it means;
/// and a line of sums.
pub fn map_text(alloc: Global, kinds: &[BlockKind]) -> Result<Vec<u8>, AllocError>
    ensures { IfOk result (λ text. text.items ≡ map_text kinds.now) }
{
    let mut out = Vec::new(alloc);
    add_signs(&mut out, kinds)?;
    add_legend(&mut out, kinds, &ALL_KINDS)?;
    add_sums(&mut out, kinds)?;
    Ok(out)
}

/// Adds the sign of each block.
fn add_signs(out: &mut Vec<u8>, kinds: &[BlockKind]) -> Result<(), AllocError>
    ensures { OnOk result (out.new.items ≡ out.old.items ++ signs_text kinds.now) }
{
    let blocks = kinds.len();
    for (place, kind) in kinds.iter().enumerate() {
        add_sign(out, blocks, place, *kind)?;
    }
    Ok(())
}

/// Adds the sign of the block at a place, and the end of its line.
fn add_sign(
    out: &mut Vec<u8>,
    blocks: usize,
    place: usize,
    kind: BlockKind,
) -> Result<(), AllocError>
    requires { place < blocks }
    ensures { OnOk result (out.new.items ≡ out.old.items ++ sign_text blocks place kind) }
{
    out.push(kind.sign())?;
    if ends_line(blocks, place) {
        out.push(b'\n')?;
    }
    Ok(())
}

/// Whether a line ends with the sign at a place.
pub(crate) fn ends_line(blocks: usize, place: usize) -> bool
    requires { place < blocks }
    ensures { result ≡ ends_line blocks place }
{
    (place + 1).is_multiple_of(64) || place + 1 == blocks
}

/// Adds a line for each of some kinds.
fn add_legend(out: &mut Vec<u8>, kinds: &[BlockKind], told: &[BlockKind]) -> Result<(), AllocError>
    ensures { OnOk result (out.new.items ≡ out.old.items ++ flat_map (legend_line kinds.now) told.now) }
{
    for kind in told {
        add_legend_line(out, kinds, *kind)?;
    }
    Ok(())
}

/// Adds the line of a kind.
fn add_legend_line(
    out: &mut Vec<u8>,
    kinds: &[BlockKind],
    kind: BlockKind,
) -> Result<(), AllocError>
    ensures { OnOk result (out.new.items ≡ out.old.items ++ legend_line kinds.now kind) }
{
    out.push(kind.sign())?;
    out.push(b' ')?;
    print_number(out, sign_count(kinds, kind.sign()))?;
    out.push(b' ')?;
    out.extend_from_slice(kind.meaning())?;
    out.push(b'\n')?;
    Ok(())
}

/// How many blocks have a sign.
pub(crate) fn sign_count(kinds: &[BlockKind], sign: u8) -> u64
    ensures { result ≡ sign_count kinds.now sign }
{
    kinds.iter().filter(|kind| kind.sign() == sign).count() as u64
}

/// Adds how many blocks there are, how many of them are anchors, bad, kept and free.
pub(crate) fn add_sums(out: &mut Vec<u8>, kinds: &[BlockKind]) -> Result<(), AllocError>
    ensures { OnOk result (out.new.items ≡ out.old.items ++ sums_line kinds.now) }
{
    out.extend_from_slice(b"blocks ")?;
    print_number(out, kinds.len() as u64)?;
    out.extend_from_slice(b" anchors ")?;
    print_number(out, anchor_count(kinds))?;
    out.extend_from_slice(b" bad ")?;
    print_number(out, bad_count(kinds))?;
    out.extend_from_slice(b" kept ")?;
    print_number(out, kept_count(kinds))?;
    out.extend_from_slice(b" free ")?;
    print_number(out, free_count(kinds))?;
    out.push(b'\n')?;
    Ok(())
}

fn anchor_count(kinds: &[BlockKind]) -> u64
    ensures { result ≡ count_by is_anchor kinds.now }
{
    kinds.iter().filter(|kind| kind.is_anchor()).count() as u64
}

fn bad_count(kinds: &[BlockKind]) -> u64
    ensures { result ≡ count_by is_bad kinds.now }
{
    kinds.iter().filter(|kind| kind.is_bad()).count() as u64
}

fn kept_count(kinds: &[BlockKind]) -> u64
    ensures { result ≡ count_by is_kept kinds.now }
{
    kinds.iter().filter(|kind| kind.is_kept()).count() as u64
}

fn free_count(kinds: &[BlockKind]) -> u64
    ensures { result ≡ count_by is_free kinds.now }
{
    kinds.iter().filter(|kind| kind.is_free()).count() as u64
}
