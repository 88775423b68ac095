//! The newest record, whose payload is read.
ghost use Rattle.std.specs.Prelude.{◌≡◌, ◌+◌, ◌*◌, ◌≤◌, length, IfOk, IfErr, ◌⊎◌, ◌++◌, Err, OnOk};
ghost use Rattle.fs_types.specs.declared.limits.TheConstants.{ANCHORS};
ghost use Rattle.flash_model.specs.Reading.{OnlyReads};
ghost use Rattle.anchors.specs.Reading.{MayRead, PageReadCause};
ghost use Rattle.std.specs.Bool.{OnTrue, OnFalse};
ghost use Rattle.record_format.specs.Payloads.{payload_at};
ghost use Rattle.anchors.specs.Payloads.{IsLongFront};
ghost use Rattle.anchors.specs.Newest.{IsNewestRecord, RecordCause};
ghost use Rattle.anchors.specs.Parts as spec;

use crate::best::{Best, Found};
use crate::scan::read_page;
use arrayvec::ArrayVec;
use flash_model::{Flash, Geometry};
use fs_types::{ANCHORS, Fault};
use record_format::{
    HEAD_SIZE, LONGEST_PAYLOAD, PageHead, Payload, Record, read_payload, refuse_long,
};
use std::alloc::Global;

/// The payload bytes of a part of a record whose page is in the buffer.
fn bytes_of(head: Option<PageHead>, page: &[u8]) -> &[u8]
    requires { 20 ≤ length page.now }
    ensures { result.now ≡ spec.held_bytes head page.now }
{
    let Some(head) = head else {
        return &[];
    };
    let bytes = &page[HEAD_SIZE..];
    if (head.used as usize) < bytes.len() {
        &bytes[..head.used as usize]
    } else {
        bytes
    }
}

/// Puts bytes after those of a payload, as far as there is room, and answers whether there was room
/// for all.
fn push_bytes(payload: &mut Payload, bytes: &[u8]) -> bool
    ensures all { OnTrue result (payload.new.items ≡ payload.old.items ++ bytes.now) }
    ensures front { OnFalse result (IsLongFront (payload.old.items ++ bytes.now) payload.new.items) }
{
    let room = LONGEST_PAYLOAD - payload.len();
    if room < bytes.len() {
        payload.try_extend_from_slice(&bytes[..room]).unwrap();
        return false;
    }
    payload.try_extend_from_slice(bytes).unwrap();
    true
}

/// The payload of a record that was found. One that is longer than any is refused by its first bytes;
/// no more of it are kept.
pub(crate) fn find_payload<F: Flash>(
    flash: &mut F,
    geometry: Geometry,
    found: Found,
    buffer: &mut [u8],
) -> Result<Payload, Fault>
    requires may { MayRead (F.device flash.old) geometry buffer.old }
    requires in_range { found.page + found.head.count ≤ ANCHORS * geometry.pages }

    // The payload.
    ensures payload { IfOk result (λ payload. payload.items ≡ spec.payload_of geometry (spec.parts_on geometry (F.device flash.old).pages) found) }

    // By reads alone, and how many.
    ensures only_reads { OnlyReads (F.device flash.old) (F.device flash.new) }
    ensures operations { (F.device flash.new).operations ≤ (F.device flash.old).operations + found.head.count }
    ensures why { IfErr result (λ fault. PageReadCause (F.device flash.old) (F.device flash.new) fault ⊎ (payload_at geometry found.head.sequence (spec.payload_of geometry (spec.parts_on geometry (F.device flash.old).pages) found) ≡ Err fault)) }
{
    let mut payload = ArrayVec::new();
    for n in 0..found.head.count {
        let (head, _blank) = read_page(flash, geometry, found.page + n as u32, buffer)?;
        if !push_bytes(&mut payload, bytes_of(head, buffer)) {
            return Err(refuse_long(geometry, payload.as_slice()));
        }
    }
    Ok(payload)
}

/// The record of greatest sequence, where no other has that sequence.
pub(crate) fn read_best<F: Flash>(
    alloc: Global,
    flash: &mut F,
    geometry: Geometry,
    best: Best,
    page: &mut [u8],
) -> Result<Option<Record>, Fault>
    requires may { MayRead (F.device flash.old) geometry page.old }
    requires best { best ≡ spec.best_on geometry (spec.parts_on geometry (F.device flash.old).pages) }

    // Its payload alone is read.
    ensures newest { IfOk result (IsNewestRecord (F.device flash.old)) }
    ensures found { OnOk result (best.found ≡ spec.newest_at geometry (spec.parts_on geometry (F.device flash.old).pages)) }
    ensures only_reads { OnlyReads (F.device flash.old) (F.device flash.new) }
    ensures operations { (F.device flash.new).operations ≤ (F.device flash.old).operations + spec.pages_of (spec.newest_at geometry (spec.parts_on geometry (F.device flash.old).pages)) }
    ensures why { IfErr result (RecordCause (F.device flash.old) (F.device flash.new)) }
{
    if best.twice {
        return Err(Fault::Damaged);
    }
    let Some(found) = best.found else {
        return Ok(None);
    };
    let payload = find_payload(flash, geometry, found, page)?;
    let newest = read_payload(alloc, geometry, found.head.sequence, payload.as_slice())?;
    Ok(Some(newest))
}
