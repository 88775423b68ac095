//! How many blocks are free.
use crate::shows::Shows;
use fs_types::{Call, Fault, Reply};
use std::alloc::Global;

/// Whether fewer blocks than these are free, by `df`.
pub fn has_fewer_free<S: Shows>(alloc: Global, system: &mut S, blocks: u64) -> Result<bool, Fault> {
    if blocks == 0 {
        return Ok(false);
    }
    match system.ask(alloc, &Call::Df)? {
        Reply::Df { free, .. } => Ok(free < blocks),
        _ => Err(Fault::Invalid),
    }
}
