//! The map of the blocks as a page of HTML.
ghost use Rattle.std.specs.Prelude.{◌≡◌, ◌++◌, ◌<◌, OnOk, IfOk};
ghost use Rattle.std.specs.List.{flat_map};
ghost use Rattle.block_usage.specs.HtmlPages.{block_cell, cell_text, cells_text, legend_row, line_end, line_start, map_page, sign_cell};

use crate::block_kind::BlockKind;
use crate::map_texts::{ALL_KINDS, add_sums, ends_line, sign_count};
use script::print_number;
use std::alloc::{AllocError, Global};

/// What stands before the cells: the title, and the colours of the kinds.
const HEAD: &[u8] = b"<!DOCTYPE html>
<html lang=en>
<head>
<meta charset=utf-8>
<title>Map of an image</title>
<style>
body { margin: 2em; background: #fff; color: #222; font: 14px sans-serif }
table { border-spacing: 1px; font: 13px/18px monospace }
td, th { padding: 0 4px }
th { color: #666; font-weight: normal; text-align: right }
.newest { background: #b35900; color: #fff }
.anchor { background: #f5cf9f }
.bad { background: #333; color: #fff }
.present { background: #1b6e3c; color: #fff }
.shared { background: #9fd8b0 }
.other { background: #a9c8f5 }
.checkpoint { background: #cdb7ec }
.stale { background: #ddd }
.blank { background: #f6f6f6 }
</style>
</head>
<body>
<h1>Map of an image</h1>
<table>
";

/// What stands between the cells and the legend.
const LEGEND_HEAD: &[u8] = b"</table>
<h2>What the signs mean</h2>
<table>
";

/// What stands between the legend and the sums.
const SUMS_HEAD: &[u8] = b"</table>
<p>";

/// What stands after the sums.
const FOOT: &[u8] = b"</p>
</body>
</html>
";

/// A page of HTML that needs no other file: a cell for each block, 64 a line, with its sign in the colour of
/// its kind; a row for each sign, with how many blocks have it and what it means; and the line of sums.
pub fn map_page(alloc: Global, kinds: &[BlockKind]) -> Result<Vec<u8>, AllocError>
    ensures { IfOk result (λ page. page.items ≡ map_page kinds.now) }
{
    let mut out = Vec::new(alloc);
    out.extend_from_slice(HEAD)?;
    add_cells(&mut out, kinds)?;
    out.extend_from_slice(LEGEND_HEAD)?;
    add_legend_rows(&mut out, kinds, &ALL_KINDS)?;
    out.extend_from_slice(SUMS_HEAD)?;
    add_sums(&mut out, kinds)?;
    out.extend_from_slice(FOOT)?;
    Ok(out)
}

/// Adds the cell of each block.
fn add_cells(out: &mut Vec<u8>, kinds: &[BlockKind]) -> Result<(), AllocError>
    ensures { OnOk result (out.new.items ≡ out.old.items ++ cells_text kinds.now) }
{
    let blocks = kinds.len();
    for (place, kind) in kinds.iter().enumerate() {
        add_cell(out, blocks, place, *kind)?;
    }
    Ok(())
}

/// Adds the cell of the block at a place, with the start and the end of its line.
fn add_cell(
    out: &mut Vec<u8>,
    blocks: usize,
    place: usize,
    kind: BlockKind,
) -> Result<(), AllocError>
    requires { place < blocks }
    ensures { OnOk result (out.new.items ≡ out.old.items ++ cell_text blocks place kind) }
{
    add_line_start(out, place)?;
    add_block(out, place, kind)?;
    add_line_end(out, blocks, place)
}

/// Adds the number of a block that begins a line.
fn add_line_start(out: &mut Vec<u8>, place: usize) -> Result<(), AllocError>
    ensures { OnOk result (out.new.items ≡ out.old.items ++ line_start place) }
{
    if place.is_multiple_of(64) {
        out.extend_from_slice(b"<tr><th>")?;
        print_number(out, place as u64)?;
        out.extend_from_slice(b"</th>")?;
    }
    Ok(())
}

/// Adds the cell of a block.
fn add_block(out: &mut Vec<u8>, place: usize, kind: BlockKind) -> Result<(), AllocError>
    ensures { OnOk result (out.new.items ≡ out.old.items ++ block_cell place kind) }
{
    out.extend_from_slice(b"<td class=")?;
    out.extend_from_slice(kind.class())?;
    out.extend_from_slice(b" title=")?;
    print_number(out, place as u64)?;
    out.push(b'>')?;
    out.push(kind.sign())?;
    out.extend_from_slice(b"</td>")?;
    Ok(())
}

/// Ends the line of a block that is its last.
fn add_line_end(out: &mut Vec<u8>, blocks: usize, place: usize) -> Result<(), AllocError>
    requires { place < blocks }
    ensures { OnOk result (out.new.items ≡ out.old.items ++ line_end blocks place) }
{
    if ends_line(blocks, place) {
        out.extend_from_slice(b"</tr>\n")?;
    }
    Ok(())
}

/// Adds a row for each of some kinds.
fn add_legend_rows(
    out: &mut Vec<u8>,
    kinds: &[BlockKind],
    told: &[BlockKind],
) -> Result<(), AllocError>
    ensures { OnOk result (out.new.items ≡ out.old.items ++ flat_map (legend_row kinds.now) told.now) }
{
    for kind in told {
        add_legend_row(out, kinds, *kind)?;
    }
    Ok(())
}

/// Adds the row of a kind.
fn add_legend_row(out: &mut Vec<u8>, kinds: &[BlockKind], kind: BlockKind) -> Result<(), AllocError>
    ensures { OnOk result (out.new.items ≡ out.old.items ++ legend_row kinds.now kind) }
{
    out.extend_from_slice(b"<tr>")?;
    add_sign_cell(out, kind)?;
    out.extend_from_slice(b"<td>")?;
    print_number(out, sign_count(kinds, kind.sign()))?;
    out.extend_from_slice(b"</td><td>")?;
    out.extend_from_slice(kind.meaning())?;
    out.extend_from_slice(b"</td></tr>\n")?;
    Ok(())
}

/// Adds the cell of a kind.
fn add_sign_cell(out: &mut Vec<u8>, kind: BlockKind) -> Result<(), AllocError>
    ensures { OnOk result (out.new.items ≡ out.old.items ++ sign_cell kind) }
{
    out.extend_from_slice(b"<td class=")?;
    out.extend_from_slice(kind.class())?;
    out.push(b'>')?;
    out.push(kind.sign())?;
    out.extend_from_slice(b"</td>")?;
    Ok(())
}
