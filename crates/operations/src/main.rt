//! Tells how many reads, programs and erases calls ask of a flash, and a format and mounts, beside
//! the nodes that they may write: pages of 256 bytes, 16 a block, so that each node is erased once
//! and programmed page by page. Of the erases it tells how many are of blocks that were blank, of which a
//! driver may answer the erase at once. Reads are told cold, with no node in memory, and warm, with the eight
//! that the calls before used last. Then what calls one after the other ask on the average, on such a
//! flash and on one of large pages and blocks, and at the end some of them with 64 nodes in memory.
#![tactic(auto)]

mod error;
mod measures;
mod mount;
mod series;
mod texts;
mod watched;

use anyhow::{Context, Result};
use fs_types::MOUNTED_NODES;
use measures::{Asked, MEASURES, asked_by, asked_by_format};
use mount::{MOUNTS, asked_by_mount};
use node_store::MAX_CACHED_NODES;
use series::{SERIES, SERIES_WITH_64_NODES, Series, asked_by_each};
use watched::Counts;

fn main(rt: HostRuntime) -> Result<()> {
    println!(rt;
        "call                                        nodes    cold    warm  programs  erases   blank"
    )?;
    tell_calls(&rt)?;
    tell_format(&rt)?;
    tell_mounts(&rt)?;
    tell_series(&rt)
}

/// Tells what each call asks.
fn tell_calls<R: AllocGlobal + Print>(rt: &R) -> Result<()> {
    for row in MEASURES {
        let asked = asked_by(rt.alloc(), row).context(row.name)?;
        tell(rt, row.name, row.nodes, asked)?;
    }
    Ok(())
}

/// Tells what calls ask one after the other, each on the average, with the nodes in memory that the
/// calls before it used last.
fn tell_series<R: AllocGlobal + Print>(rt: &R) -> Result<()> {
    println!(rt;
        "\ncalls one after the other          page   block  calls   reads  programs  erases   blank"
    )?;
    tell_rows(rt, SERIES, MOUNTED_NODES)?;
    tell_rows(rt, SERIES_WITH_64_NODES, MAX_CACHED_NODES)
}

/// Tells what the calls of these rows ask with so many nodes in memory.
fn tell_rows<R: AllocGlobal + Print>(rt: &R, rows: &[Series], nodes: usize) -> Result<()> {
    for row in rows {
        let asked = asked_by_each(rt.alloc(), row, nodes).context(row.name)?;
        tell_each(rt, row, asked)?;
    }
    Ok(())
}

/// Tells what was asked of a flash by each call.
fn tell_each<R: Print>(rt: &R, row: &Series, asked: Counts) -> Result<()> {
    let page = row.sizes.page;
    let block = row.sizes.block_bytes();
    println!(rt;
        "{:<32}{:>7}{:>8}{:>7}{:>8}{:>10}{:>8}{:>8}",
        row.name, page, block, row.calls, asked.reads, asked.programs, asked.erases, asked.blank
    )?;
    Ok(())
}

/// Tells what a format asks.
fn tell_format<R: AllocGlobal + Print>(rt: &R) -> Result<()> {
    tell_one(rt, "format", 1, asked_by_format(rt.alloc())?)
}

/// Tells what each mount asks.
fn tell_mounts<R: AllocGlobal + Print>(rt: &R) -> Result<()> {
    for row in MOUNTS {
        let asked = asked_by_mount(rt.alloc(), row).context(row.name)?;
        tell_one(rt, row.name, 0, asked)?;
    }
    Ok(())
}

/// Tells what was asked of a flash where no node was in memory before.
fn tell_one<R: Print>(rt: &R, name: &str, nodes: u32, asked: Counts) -> Result<()> {
    let asked = Asked {
        cold: asked,
        warm: asked,
    };
    tell(rt, name, nodes, asked)
}

/// Tells what was asked of a flash.
fn tell<R: Print>(rt: &R, name: &str, nodes: u32, asked: Asked) -> Result<()> {
    let Asked { cold, warm } = asked;
    println!(rt;
        "{:<42}{:>7}{:>8}{:>8}{:>10}{:>8}{:>8}",
        name, nodes, cold.reads, warm.reads, cold.programs, cold.erases, cold.blank
    )?;
    Ok(())
}
