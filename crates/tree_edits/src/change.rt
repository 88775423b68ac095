//! What is to be made of a body.
ghost use Rattle.std.specs.Prelude.{◌^◌, ◌<◌, ◌≤◌, min};
ghost use Rattle.fs_types.specs.declared.limits.TheConstants.{MAX_FILE_BYTES};

use crate::file_body::Body;

/// What is to be made of a body: its bytes from `offset` on become others, and its length `size`, not
/// less than it was. Nodes have `capacity` data bytes each. At least one node is written.
#[derive(Clone, Copy)]
pub(crate) struct Change {
    pub(crate) capacity: u32,
    pub(crate) body: Body,
    pub(crate) offset: u32,
    pub(crate) size: u32,
    pub ghost least: { 4016 ≤ capacity },
    pub ghost small: { capacity < 2 ^ 18 },
    pub ghost lawful: { size ≤ MAX_FILE_BYTES },
    pub ghost longer: { body.length ≤ size },
    pub ghost changed: { min offset body.length < size },
}
