//! What fills a flash before the work.
use crate::error::LatencyError;
use crate::part::Part;
use crate::work::write_whole;
use crate::worked::Worked;
use fs_types::{Call, Path, Reply};
use std::alloc::Global;

/// The bytes of a block that no node of a file uses.
const HEAD: u64 = 80;

/// The most nodes of a file that fills a flash.
const MOST_NODES: u64 = 32;

/// Writes files in a directory `/c` until so many of a hundred data blocks are used.
pub fn fill<W: Worked>(
    alloc: Global,
    mounted: &mut W,
    part: &Part,
    percent: u64,
) -> Result<(), LatencyError> {
    let directory = Path::parse(alloc, b"/c")?;
    mounted.call(alloc, &Call::Mkdir { path: directory })?;
    for number in 0..u64::from(part.sizes.blocks) {
        let lacking = blocks_to_fill(alloc, mounted, percent)?;
        if lacking == 0 {
            break;
        }
        let nodes = (lacking / 2).clamp(1, MOST_NODES);
        write_nodes(alloc, mounted, part, number, nodes)?;
    }
    mounted.call(alloc, &Call::Sync)?;
    Ok(())
}

/// How many blocks have to be used before so many of a hundred are.
fn blocks_to_fill<W: Worked>(
    alloc: Global,
    mounted: &mut W,
    percent: u64,
) -> Result<u64, LatencyError> {
    let Reply::Df { blocks, free, .. } = mounted.call(alloc, &Call::Df)? else {
        return Err(LatencyError::Reply);
    };
    let wanted = blocks.saturating_mul(percent) / 100;
    Ok(wanted.saturating_sub(blocks.saturating_sub(free)))
}

/// Writes a file of so many nodes.
fn write_nodes<W: Worked>(
    alloc: Global,
    mounted: &mut W,
    part: &Part,
    number: u64,
    nodes: u64,
) -> Result<(), LatencyError> {
    let path = format!(in alloc; "/c/{number}")?;
    let node = (part.sizes.block_bytes() as u64).saturating_sub(HEAD);
    let path = Path::parse(alloc, path.as_bytes())?;
    let call = write_whole(alloc, path, node.saturating_mul(nodes))?;
    mounted.call(alloc, &call)?;
    Ok(())
}
