//! Flashes with contents or records that were worked out by hand.
use crate::records::FRESH;
use flash_model::Geometry;
use flash_simulation::SimFlash;
use fs_types::Fault;
use std::alloc::Global;
use undofs::format;
use worked_contents::{ChainContent, Content, put, put_all};

pub(crate) const SIZES: Geometry = Geometry {
    page: 256,
    pages: 16,
    blocks: 32,
};

/// An empty directory that stands alone.
const ALONE: [u8; 16] = *b"UFND\0\0\0\0\0\0\0\0\0\0\0\0";

/// A flash with an empty file system on it.
pub(crate) fn formatted(alloc: Global, sizes: Geometry, limit: u32) -> Result<SimFlash, Fault> {
    let mut flash = SimFlash::new(alloc, sizes, &[])?;
    format(alloc, &mut flash, limit)?;
    Ok(flash)
}

/// What is put on a flash that was formatted.
#[derive(Clone, Copy)]
pub(crate) enum Worked {
    /// Directories as chains of nodes, on 128 blocks.
    Chains(ChainContent),
    /// Directories that stand alone.
    Trees(Content),
    /// The record of a flash that was formatted on this anchor, with other bytes at places of its page, and
    /// a root that each format has: an empty directory that stands alone. On anchor 1 the record is there
    /// twice.
    Record(u32, &'static [(usize, u8)]),
    /// The record with other bytes, over the root that a format writes, which is a node of a chain.
    Chained(&'static [(usize, u8)]),
}

impl Worked {
    /// The flash with it.
    pub(crate) fn flash(self, alloc: Global) -> Result<SimFlash, Fault> {
        match self {
            Worked::Chains(content) => {
                let sizes = Geometry {
                    blocks: 128,
                    ..SIZES
                };
                with_nodes(alloc, sizes, &content.nodes(alloc)?)
            }
            Worked::Trees(content) => with_nodes(alloc, SIZES, &content.nodes(alloc)?),
            Worked::Record(anchor, changes) => with_root(alloc, anchor, changes),
            Worked::Chained(changes) => with_record(alloc, 0, changes),
        }
    }
}

/// A formatted flash of these sizes with these nodes.
fn with_nodes(alloc: Global, sizes: Geometry, nodes: &[Vec<u8>]) -> Result<SimFlash, Fault> {
    let mut flash = formatted(alloc, sizes, 8)?;
    put_all(alloc, &mut flash, nodes)?;
    Ok(flash)
}

fn with_root(alloc: Global, anchor: u32, changes: &[(usize, u8)]) -> Result<SimFlash, Fault> {
    let mut flash = with_record(alloc, anchor, changes)?;
    put(alloc, &mut flash, 8, &ALONE)?;
    Ok(flash)
}

/// A formatted flash with the record on an anchor, with other bytes at places.
fn with_record(alloc: Global, anchor: u32, changes: &[(usize, u8)]) -> Result<SimFlash, Fault> {
    let mut record = FRESH;
    for (place, byte) in changes {
        if let Some(changed) = record.get_mut(*place) {
            *changed = *byte;
        }
    }
    let mut flash = formatted(alloc, SIZES, 8)?;
    put(alloc, &mut flash, anchor, &record)?;
    Ok(flash)
}
