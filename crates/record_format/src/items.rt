//! The items of a payload, each read from the front of bytes, with the bytes after it.
ghost use Rattle.std.specs.Prelude.{◌≡◌};
ghost use Rattle.std.specs.Option.{option_map};
ghost use Rattle.record_format.specs.Items as spec;
ghost use Rattle.record_format.specs.Payloads as payload;

use crate::front::Front;
use crate::record::Checkpoint;
use fields::{read_u8, read_u16, read_u32, read_u64};
use flash_model::Geometry;
use fs_types::{CpName, Version};

fn name_of(size: u8, bytes: &[u8]) -> Option<(CpName, &[u8])>
    ensures { option_map (λ x. (x.0, x.1.now)) result ≡ spec.checkpoint_name_at size bytes.now }
{
    let size = size as usize;
    if bytes.len() < size {
        return None;
    }
    let (front, rest) = bytes.split_at(size);
    match CpName::parse(front) {
        Ok(name) => Some((name, rest)),
        Err(_) => None,
    }
}

#[tactic(auto, unfolding(crate::specs::Items::version_at))]
pub(crate) fn version_of(bytes: &[u8]) -> Option<(Version<u32>, &[u8])>
    ensures { option_map (λ x. (x.0, x.1.now)) result ≡ spec.version_at bytes.now }
{
    let (serial, rest) = read_u64(bytes)?;
    let (root, rest) = read_u32(rest)?;
    Some((Version { serial, root }, rest))
}

#[tactic(auto, unfolding(crate::specs::Items::checkpoint_at))]
pub(crate) fn checkpoint_of(bytes: &[u8]) -> Option<(Checkpoint, &[u8])>
    ensures { option_map (λ x. (x.0, x.1.now)) result ≡ spec.checkpoint_at bytes.now }
{
    let (size, rest) = read_u8(bytes)?;
    let (name, rest) = name_of(size, rest)?;
    let (root, rest) = read_u32(rest)?;
    Some((Checkpoint { name, root }, rest))
}

#[tactic(auto, unfolding(crate::specs::Payloads::sizes_at))]
pub(crate) fn sizes_of(bytes: &[u8]) -> Option<(Geometry, &[u8])>
    ensures { option_map (λ x. (x.0, x.1.now)) result ≡ payload.sizes_at bytes.now }
{
    let (page, rest) = read_u32(bytes)?;
    let (pages, rest) = read_u32(rest)?;
    let (blocks, rest) = read_u32(rest)?;
    let sizes = Geometry {
        page,
        pages,
        blocks,
    };
    Some((sizes, rest))
}

#[tactic(auto, unfolding(crate::specs::Payloads::front_at))]
pub(crate) fn front_of(bytes: &[u8]) -> Option<(Front, &[u8])>
    ensures { option_map (λ x. (x.0, x.1.now)) result ≡ payload.front_at bytes.now }
{
    let (limit, rest) = read_u16(bytes)?;
    let (cursor, rest) = read_u16(rest)?;
    let (dropped, rest) = read_u8(rest)?;
    let (versions, rest) = read_u8(rest)?;
    let (checkpoints, rest) = read_u8(rest)?;
    let (one, rest) = read_u8(rest)?;
    let (bad, rest) = read_u16(rest)?;
    let (two, rest) = read_u16(rest)?;
    let (next, rest) = read_u64(rest)?;
    let (last, rest) = read_u32(rest)?;
    let front = Front {
        limit,
        cursor,
        dropped,
        versions,
        checkpoints,
        one,
        bad,
        two,
        next,
        last,
    };
    Some((front, rest))
}
