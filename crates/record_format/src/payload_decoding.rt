//! What a payload means.
ghost use Rattle.std.specs.Prelude.{◌≡◌, ◌≢◌, ℕ, true, ◌≤◌, ◌+◌, ◌<◌, List, ◌++◌, length, Ok, Err, IfOk, IfErr};
ghost use Rattle.std.specs.Option.{option_map};
ghost use Rattle.std.specs.Str.{bytes_eq};
ghost use Rattle.fs_types.specs.declared.fault.Fault.{Fault};
ghost use Rattle.record_format.specs.Items as spec;
ghost use Rattle.record_format.specs.Payloads as payload;

use crate::formats::is_format;
use crate::items::{checkpoint_of, front_of, sizes_of, version_of};
use crate::record::{Checkpoint, LONGEST_PAYLOAD, Record};
use crate::writing::spell;
use fields::{read_u32, u32_at};
use flash_model::Geometry;
use fs_types::{Fault, Sequence, Version};
use std::alloc::{AllocError, Global};

/// The bytes that tell the format and the sizes.
const SHORTEST: usize = 16;

fn versions_of(
    alloc: Global,
    count: u8,
    bytes: &[u8],
) -> Result<Option<(Sequence<Version<u32>>, &[u8])>, AllocError>
    ensures found { IfOk result (λ found. option_map (λ x. (x.0, x.1.now)) found ≡ spec.many_at spec.version_at count bytes.now) }
    ensures memory { IfErr result (λ _. 0 < count) }
{
    let mut versions = Sequence::new(alloc);
    let mut rest = bytes;
    for _ in 0..count {
        let Some((version, after)) = version_of(rest) else {
            return Ok(None);
        };
        versions.push(version)?;
        rest = after;
    }
    Ok(Some((versions, rest)))
}

fn checkpoints_of(
    alloc: Global,
    count: u8,
    bytes: &[u8],
) -> Result<Option<(Sequence<Checkpoint>, &[u8])>, AllocError>
    ensures found { IfOk result (λ found. option_map (λ x. (x.0, x.1.now)) found ≡ spec.many_at spec.checkpoint_at count bytes.now) }
    ensures memory { IfErr result (λ _. 0 < count) }
{
    let mut checkpoints = Sequence::new(alloc);
    let mut rest = bytes;
    for _ in 0..count {
        let Some((checkpoint, after)) = checkpoint_of(rest) else {
            return Ok(None);
        };
        checkpoints.push(checkpoint)?;
        rest = after;
    }
    Ok(Some((checkpoints, rest)))
}

fn blocks_of(
    alloc: Global,
    count: u16,
    bytes: &[u8],
) -> Result<Option<(Sequence<u32>, &[u8])>, AllocError>
    ensures found { IfOk result (λ found. option_map (λ x. (x.0, x.1.now)) found ≡ spec.many_at spec.block_at count bytes.now) }
    ensures memory { IfErr result (λ _. 0 < count) }
{
    let mut blocks = Sequence::new(alloc);
    let mut rest = bytes;
    for _ in 0..count {
        let Some((block, after)) = read_u32(rest) else {
            return Ok(None);
        };
        blocks.push(block)?;
        rest = after;
    }
    Ok(Some((blocks, rest)))
}

/// Whether the bytes spell a record.
fn is_spelled(read: &Record, one: u8, two: u16, bytes: &[u8]) -> bool
    requires { payload.is_record read.now ≡ true }
    ensures { result ≡ bytes_eq (payload.spelling one two read.now) bytes.now }
{
    let spelled = spell(read, read.format, read.bad.as_slice(), one, two);
    spelled.as_slice() == bytes
}

/// The record where it is lawful and the bytes spell it.
fn if_spelled(read: Record, one: u8, two: u16, bytes: &[u8]) -> Option<Record>
    ensures { result ≡ payload.if_spelled read one two bytes.now }
{
    if !read.is_lawful() {
        return None;
    }
    if !is_spelled(&read, one, two, bytes) {
        return None;
    }
    Some(read)
}

#[tactic(auto, unfolding(crate::specs::Payloads::meaning_of))]
fn record_of(alloc: Global, sequence: u64, bytes: &[u8]) -> Result<Option<Record>, AllocError>
    ensures found { IfOk result (λ found. found ≡ payload.meaning_of sequence bytes.now) }
    ensures memory { IfErr result (λ _. payload.HasItems bytes.now) }
{
    let Some((format, rest)) = read_u32(bytes) else {
        return Ok(None);
    };
    let Some((geometry, rest)) = sizes_of(rest) else {
        return Ok(None);
    };
    let Some((front, rest)) = front_of(rest) else {
        return Ok(None);
    };
    let Some((versions, rest)) = versions_of(alloc, front.versions, rest)? else {
        return Ok(None);
    };
    let Some((checkpoints, rest)) = checkpoints_of(alloc, front.checkpoints, rest)? else {
        return Ok(None);
    };
    let Some((bad, _)) = blocks_of(alloc, front.bad, rest)? else {
        return Ok(None);
    };
    let record = Record {
        sequence,
        format,
        geometry,
        limit: front.limit,
        cursor: front.cursor,
        dropped: front.dropped == 1,
        versions,
        checkpoints,
        bad,
        next: front.next,
        last: front.last,
    };
    Ok(if_spelled(record, front.one, front.two, bytes))
}

fn tells_sizes(geometry: Geometry, bytes: &[u8]) -> bool
    requires { 16 ≤ length bytes.now }
    ensures { result ≡ payload.tells_sizes geometry bytes.now }
{
    u32_at(bytes, 4) == geometry.page
        && u32_at(bytes, 8) == geometry.pages
        && u32_at(bytes, 12) == geometry.blocks
}

/// The record that a payload means on a flash of these sizes, with the sequence of its pages.
///
/// `Damaged` where the payload has under 16 bytes or is of a format that is not read; `BadGeometry` where it
/// tells other sizes; then `Damaged` for every other departure, over 3,176 bytes among them.
/// `NoMemory` where memory could not be had for what is on its lists: all that stands before these is
/// looked at first.
pub fn read_payload(
    alloc: Global,
    geometry: Geometry,
    sequence: u64,
    bytes: &[u8],
) -> Result<Record, Fault>
    ensures ok { IfOk result (λ found. payload.payload_at geometry sequence bytes.now ≡ Ok found) }
    ensures err { IfErr result (λ fault. fault ≢ Fault.NoMemory → payload.payload_at geometry sequence bytes.now ≡ Err fault) }
    ensures memory { IfErr result (λ fault. fault ≡ Fault.NoMemory → payload.WantsMemory geometry bytes.now) }
{
    if bytes.len() < SHORTEST || !is_format(u32_at(bytes, 0)) {
        return Err(Fault::Damaged);
    }
    if !tells_sizes(geometry, bytes) {
        return Err(Fault::BadGeometry);
    }
    if bytes.len() > LONGEST_PAYLOAD {
        return Err(Fault::Damaged);
    }
    let found = record_of(alloc, sequence, bytes)?;
    found.ok_or(Fault::Damaged)
}

/// Why a payload that is longer than any is refused on a flash of these sizes, by its first 3,176
/// bytes: `BadGeometry` where it is of a format that is read and tells other sizes, `Damaged` else.
pub fn refuse_long(geometry: Geometry, front: &[u8]) -> Fault
    requires { length front.now ≡ payload.longest }
    ensures { (sequence : ℕ) (rest : List ℕ) → 0 < length rest → payload.payload_at geometry sequence (front.now ++ rest) ≡ Err result }
{
    if is_format(u32_at(front, 0)) && !tells_sizes(geometry, front) {
        Fault::BadGeometry
    } else {
        Fault::Damaged
    }
}
