//! How many anchors are bad, and whether that puts read-only mode on.
ghost use Rattle.std.specs.Prelude.{◌≡◌};
ghost use Rattle.bad_blocks.specs.Mode as spec;

use crate::set::BadBlocks;
use fs_types::{ANCHORS, MAX_BAD_BLOCKS};

/// How many of the anchors are bad.
pub fn bad_anchors(bad: &BadBlocks) -> usize
    ensures { result ≡ spec.bad_anchors bad.now }
{
    (0..ANCHORS).filter(|anchor| bad.contains(*anchor)).count()
}

/// Whether at least seven anchors or 256 blocks are bad.
pub fn is_read_only(bad: &BadBlocks) -> bool
    ensures { result ≡ spec.is_read_only bad.now }
{
    MAX_BAD_BLOCKS <= bad.len() || 7 <= bad_anchors(bad)
}
