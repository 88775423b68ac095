//! The spelling of a payload.
ghost use Rattle.std.specs.Prelude.{◌≡◌, ◌≤◌, ◌+◌, ◌*◌, ◌^◌, ◌<◌, ◌++◌, ◌∷◌, [], ◌&&◌, true, nat_lt, length};
ghost use Rattle.std.specs.List.{flat_map, list_all};
ghost use Rattle.arrayvec.specs.ArrayVec.{array_vec_len};
ghost use Rattle.byteorder.specs.Endian.{little_bytes};
ghost use Rattle.fs_types.specs.Names.{is_checkpoint_name};
ghost use Rattle.record_format.specs.Payloads as payload;

use crate::formats::FORMAT;
use crate::record::{Checkpoint, Payload, Record};
use arrayvec::ArrayVec;
use fields::{put_u16, put_u32, put_u64};
use flash_model::Geometry;
use fs_types::Version;

fn push_bytes(out: &mut Payload, bytes: &[u8])
    requires { array_vec_len out.old + length bytes.now ≤ payload.longest }
    ensures items { out.new.items ≡ out.old.items ++ bytes.now }
    ensures len { array_vec_len out.new ≡ array_vec_len out.old + length bytes.now }
{
    out.try_extend_from_slice(bytes).unwrap();
}

fn push_sizes(out: &mut Payload, geometry: Geometry)
    requires { array_vec_len out.old + 12 ≤ payload.longest }
    ensures items { out.new.items ≡ out.old.items ++ payload.sizes_bytes geometry }
    ensures len { array_vec_len out.new ≡ array_vec_len out.old + 12 }
    ensures fits { payload.SizesFit geometry }
{
    put_u32(out, geometry.page);
    put_u32(out, geometry.pages);
    put_u32(out, geometry.blocks);
}

/// 1 for true.
fn flag_of(b: bool) -> u8
    ensures { result ≡ payload.flag b }
{
    if b { 1 } else { 0 }
}

fn push_places(out: &mut Payload, limit: u16, cursor: u16)
    requires { array_vec_len out.old + 4 ≤ payload.longest }
    ensures items { out.new.items ≡ out.old.items ++ (little_bytes 2 limit ++ little_bytes 2 cursor) }
    ensures len { array_vec_len out.new ≡ array_vec_len out.old + 4 }
{
    put_u16(out, limit);
    put_u16(out, cursor);
}

fn push_ends(out: &mut Payload, bad: u16, two: u16, next: u64, last: u32)
    requires { array_vec_len out.old + 16 ≤ payload.longest }
    ensures items { out.new.items ≡ out.old.items ++ (little_bytes 2 bad ++ (little_bytes 2 two ++ (little_bytes 8 next ++ little_bytes 4 last))) }
    ensures len { array_vec_len out.new ≡ array_vec_len out.old + 16 }
    ensures fits { next < 2 ^ 64 }
{
    put_u16(out, bad);
    put_u16(out, two);
    put_u64(out, next);
    put_u32(out, last);
}

fn push_versions(out: &mut Payload, versions: &[Version<u32>])
    requires { array_vec_len out.old + 12 * length versions.now ≤ payload.longest }
    ensures items { out.new.items ≡ out.old.items ++ flat_map payload.version_bytes versions.now }
    ensures len { array_vec_len out.new ≤ array_vec_len out.old + 12 * length versions.now }
    ensures fits { list_all (λ version. nat_lt version.root (2 ^ 32)) versions.now ≡ true }
{
    for version in versions {
        put_u64(out, version.serial);
        put_u32(out, version.root);
    }
}

fn push_checkpoints(out: &mut Payload, checkpoints: &[Checkpoint])
    requires { array_vec_len out.old + 36 * length checkpoints.now ≤ payload.longest }
    ensures items { out.new.items ≡ out.old.items ++ flat_map payload.checkpoint_bytes checkpoints.now }
    ensures len { array_vec_len out.new ≤ array_vec_len out.old + 36 * length checkpoints.now }
    ensures fits { list_all (λ checkpoint. is_checkpoint_name checkpoint.name && nat_lt checkpoint.root (2 ^ 32)) checkpoints.now ≡ true }
{
    for checkpoint in checkpoints {
        let name = checkpoint.name.as_bytes();
        out.push(name.len() as u8);
        push_bytes(out, name);
        put_u32(out, checkpoint.root);
    }
}

fn push_blocks(out: &mut Payload, blocks: &[u32])
    requires { array_vec_len out.old + 4 * length blocks.now ≤ payload.longest }
    ensures items { out.new.items ≡ out.old.items ++ flat_map payload.block_field blocks.now }
    ensures len { array_vec_len out.new ≤ array_vec_len out.old + 4 * length blocks.now }
{
    for block in blocks {
        put_u32(out, *block);
    }
}

fn push_counts(out: &mut Payload, saved: &Record, bad: &[u32], one: u8, two: u16)
    requires room { array_vec_len out.old + 24 ≤ payload.longest }
    requires versions { length saved.now.versions < 2 ^ 8 }
    requires checkpoints { length saved.now.checkpoints < 2 ^ 8 }
    requires blocks { length bad.now < 2 ^ 16 }
    ensures items { out.new.items ≡ out.old.items ++ payload.counts_bytes one two (record saved.now { bad = bad.now }) }
    ensures len { array_vec_len out.new ≡ array_vec_len out.old + 24 }
    ensures fits { saved.now.next < 2 ^ 64 }
{
    let versions = saved.versions.as_slice().len() as u8;
    let checkpoints = saved.checkpoints.as_slice().len() as u8;
    push_places(out, saved.limit, saved.cursor);
    push_bytes(out, &[flag_of(saved.dropped), versions, checkpoints, one]);
    push_ends(out, bad.len() as u16, two, saved.next, saved.last);
}

/// The payload that says a record, with another format, another list of bad blocks and the numbers
/// that are not looked at.
pub(crate) fn spell(saved: &Record, format: u32, bad: &[u32], one: u8, two: u16) -> Payload
    requires { payload.is_record (record saved.now { format = format; bad = bad.now }) ≡ true }
    ensures spelled { result.items ≡ payload.spelling one two (record saved.now { format = format; bad = bad.now }) }
    ensures fits { payload.FitsFields (record saved.now { format = format; bad = bad.now }) }
{
    let mut out = ArrayVec::new();
    put_u32(&mut out, format);
    push_sizes(&mut out, saved.geometry);
    push_counts(&mut out, saved, bad, one, two);
    push_versions(&mut out, saved.versions.as_slice());
    push_checkpoints(&mut out, saved.checkpoints.as_slice());
    push_blocks(&mut out, bad);
    out
}

/// The payload of a record in format 2, whatever its own is, with another list of bad blocks, which
/// ascends. It takes no memory.
pub fn write_payload(saved: &Record, bad: &[u32]) -> Payload
    requires { payload.is_record (payload.written saved.now bad.now) ≡ true }
    ensures spelled { result.items ≡ payload.payload_bytes (payload.written saved.now bad.now) }
    ensures fits { payload.FitsFields (payload.written saved.now bad.now) }
{
    spell(saved, FORMAT, bad, 0, 0)
}
