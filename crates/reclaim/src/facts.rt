//! All that a verification asks of a node.
ghost use Rattle.std.specs.Prelude.{◌≡◌, ◌≢◌, ℕ, ◌+◌, ◌≤◌, Some, None, OnOk, IfOk, IfErr, IsErrOf};
ghost use Rattle.nodes.specs.PageCounts.{most_pages};
ghost use Rattle.nodes.specs.Faults.{IsReadFault};
ghost use Rattle.nodes.specs.Words.{LooksWithin};
ghost use Rattle.reclaim.specs.Facts.{AreFacts};

use crate::looks::{Parts, parts_in};
use crate::named::{list_directories, list_names};
use fs_types::Fault;
use node_format::BODY_HEADER;
use nodes::Examines;
use std::alloc::Global;

/// The parts of a node, the blocks that it names, and those of them that it names as directories.
#[derive(Drop)]
pub struct Facts {
    pub parts: Parts,
    pub names: Vec<u32>,
    pub directories: Vec<u32>,
}

/// What the bytes of a node tell.
fn facts_in(alloc: Global, bytes: &[u8]) -> Result<Facts, Fault>
    ensures facts { IfOk result (AreFacts (Some bytes.now)) }
    ensures memory { IfErr result (λ fault. fault ≡ Fault.NoMemory) }
{
    let parts = parts_in(alloc, bytes)?;
    let names = list_names(alloc, bytes)?;
    let directories = list_directories(alloc, bytes)?;
    Ok(Facts {
        parts,
        names,
        directories,
    })
}

/// Reads each page of the node in a block, and tells what it says. One of a body is told by its header,
/// and not kept in memory.
pub fn read_facts<N: Examines>(alloc: Global, nodes: &mut N, block: u32) -> Result<Facts, Fault>
    requires { N.is_sound nodes.old }

    // What it says.
    ensures facts { IfOk result (AreFacts (N.node nodes.old block)) }
    ensures there { IfOk result (λ _. N.node nodes.old block ≢ None) }

    // Why not, and what is read.
    ensures damaged { IsErrOf result Fault.Damaged → N.node nodes.old block ≡ None }
    ensures calls { LooksWithin N.Nodes IsReadFault 1 nodes.old result nodes.new }
    ensures reads { N.reads nodes.new ≡ N.reads nodes.old + 1 }
    ensures asks { N.asked nodes.new ≤ N.asked nodes.old + most_pages (N.page nodes.old) (N.limit nodes.old) (N.node nodes.old block) }
{
    let mut header = [0; BODY_HEADER as usize];
    let is_lent = nodes.examine(block, &mut header)?;
    if is_lent {
        return facts_in(alloc, nodes.lent());
    }
    facts_in(alloc, &header)
}
