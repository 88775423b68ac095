//! What the newest record of a flash tells.
use anchors::Anchors;
use flash_model::Flash;
use flash_simulation::SimFlash;
use fs_types::{Fault, Reply};
use std::alloc::Global;

/// What is known of a system by its newest record.
#[derive(Clone, Copy)]
pub struct Facts {
    /// How many versions are kept.
    pub limit: usize,
    pub sequence: u64,
    /// Data blocks, and bad ones among them.
    blocks: u64,
    bad: u64,
    bad_anchors: u64,
}

impl Facts {
    /// What the newest record of a flash tells, which none may be, or it is refused.
    pub fn of(alloc: Global, flash: &mut SimFlash) -> Result<Option<Facts>, Fault> {
        let sizes = flash.geometry();
        if !sizes.is_lawful() {
            return Err(Fault::BadGeometry);
        }
        let Some(record) = Anchors::new().newest(alloc, flash)? else {
            return Ok(None);
        };
        let bad = record.bad.as_slice();
        let bad_anchors = bad.iter().filter(|block| **block < 8).count() as u64;
        Ok(Some(Facts {
            limit: usize::from(record.limit),
            sequence: record.sequence,
            blocks: u64::from(sizes.blocks).saturating_sub(8),
            bad: (bad.len() as u64).saturating_sub(bad_anchors),
            bad_anchors,
        }))
    }

    /// Whether read-only mode is on: seven anchors are bad, or 256 blocks.
    pub fn is_read_only(self) -> bool {
        7 <= self.bad_anchors || 256 <= self.bad.saturating_add(self.bad_anchors)
    }

    /// Whether this is what `df` may tell.
    pub fn has_space(self, reply: &Reply) -> bool {
        match reply {
            Reply::Df {
                blocks,
                bad,
                free,
                anchors,
            } => {
                *blocks == self.blocks
                    && *bad == self.bad
                    && *free <= blocks.saturating_sub(*bad)
                    && anchors.saturating_add(self.bad_anchors) == 8
            }
            _ => true,
        }
    }
}

/// Whether a mount may be refused so, where this is known of the newest record.
pub fn may_refuse(facts: Result<Option<Facts>, Fault>, fault: Fault) -> bool {
    match facts {
        Ok(Some(_)) => fault == Fault::Damaged,
        Ok(None) => fault == Fault::NoRecord,
        Err(own) => fault == own,
    }
}
