//! The anchor of the newest record.
ghost use Rattle.std.specs.Prelude.{◌≡◌, ◌*◌, ◌<◌, ◌≤◌, true, length, is_some, IfOk, IfErr};
ghost use Rattle.fs_types.specs.declared.limits.TheConstants.{ANCHORS};
ghost use Rattle.flash_model.specs.Geometry.{IsGeometry};
ghost use Rattle.flash_model.specs.Reading.{OnlyReads};
ghost use Rattle.anchors.specs.Parts as spec;
ghost use Rattle.anchors.specs.Reading.{PageReadCause};
ghost use Rattle.block_usage.specs.Kinds.{HasNewest};
ghost use Rattle.block_usage.specs.NewestRecords.{has_room, later};

use flash_model::{DevFault, Flash, Geometry, PageState};
use fs_types::{ANCHORS, Fault};
use record_format::{HEAD_SIZE, PageHead};

/// Where a record begins, and its sequence.
#[derive(Clone, Copy, Debug)]
pub(crate) struct Place {
    page: u32,
    sequence: u64,
}

/// The anchor on which the newest record begins; there is one. [`Fault::ReadFailed`] and
/// [`Fault::PowerCut`] by the device.
pub(crate) fn newest_anchor<F: Flash>(
    flash: &mut F,
    geometry: Geometry,
    buffer: &mut [u8],
) -> Result<u32, Fault>
    requires same { (F.device flash.old).geometry ≡ geometry }
    requires lawful { IsGeometry geometry }
    requires whole { length buffer.old ≡ geometry.page }
    requires newest { is_some (spec.newest_at geometry (spec.parts_on geometry (F.device flash.old).pages)) ≡ true }
    ensures newest { IfOk result (HasNewest (F.device flash.old)) }
    ensures only_reads { OnlyReads (F.device flash.old) (F.device flash.new) }
    ensures why { IfErr result (PageReadCause (F.device flash.old) (F.device flash.new)) }
{
    let mut newest = None;
    for page in 0..ANCHORS * geometry.pages {
        let head = record_at(flash, geometry, page, buffer)?;
        newest = later(newest, page, head);
    }
    match newest {
        Some(place) => Ok(place.page / geometry.pages),
        None => unreachable!(),
    }
}

/// Of the record that was found, if one was, and the one that begins on a page, if one does, that of
/// greater sequence; the first, where they have the same.
fn later(newest: Option<Place>, page: u32, head: Option<PageHead>) -> Option<Place>
    ensures { result ≡ later newest page head }
{
    let Some(head) = head else {
        return newest;
    };
    match newest {
        Some(place) if head.sequence <= place.sequence => Some(place),
        _ => Some(Place {
            page,
            sequence: head.sequence,
        }),
    }
}

/// The header of the valid record that begins on a page of an anchor, if one does.
fn record_at<F: Flash>(
    flash: &mut F,
    geometry: Geometry,
    page: u32,
    buffer: &mut [u8],
) -> Result<Option<PageHead>, Fault>
    requires same { (F.device flash.old).geometry ≡ geometry }
    requires lawful { IsGeometry geometry }
    requires in_range { page < ANCHORS * geometry.pages }
    requires whole { length buffer.old ≡ geometry.page }
    ensures head { IfOk result (λ head. head ≡ spec.record_head geometry (spec.parts_on geometry (F.device flash.old).pages) page) }
    ensures only_reads { OnlyReads (F.device flash.old) (F.device flash.new) }
    ensures why { IfErr result (PageReadCause (F.device flash.old) (F.device flash.new)) }
{
    let Some(first) = head_at(flash, geometry, page, buffer)? else {
        return Ok(None);
    };
    if !has_room(geometry, page, first) {
        return Ok(None);
    }
    for n in 0..first.count {
        let head = head_at(flash, geometry, page + u32::from(n), buffer)?;
        if !is_part(geometry, first, n, head) {
            return Ok(None);
        }
    }
    Ok(Some(first))
}

/// Whether a record with this first header has pages, and the block has room for all of them.
fn has_room(geometry: Geometry, page: u32, first: PageHead) -> bool
    requires { IsGeometry geometry }
    ensures { result ≡ has_room geometry page first }
{
    0 < first.count && page % geometry.pages + u32::from(first.count) <= geometry.pages
}

/// The header of the part of a record that a page of an anchor holds, if it does.
fn head_at<F: Flash>(
    flash: &mut F,
    geometry: Geometry,
    page: u32,
    buffer: &mut [u8],
) -> Result<Option<PageHead>, Fault>
    requires same { (F.device flash.old).geometry ≡ geometry }
    requires lawful { IsGeometry geometry }
    requires in_range { page < ANCHORS * geometry.pages }
    requires whole { length buffer.old ≡ geometry.page }
    ensures head { IfOk result (λ head. head ≡ spec.head_at (spec.parts_on geometry (F.device flash.old).pages) page) }
    ensures only_reads { OnlyReads (F.device flash.old) (F.device flash.new) }
    ensures why { IfErr result (PageReadCause (F.device flash.old) (F.device flash.new)) }
{
    match flash.read(page, buffer) {
        Ok(PageState::Data) => Ok(PageHead::of(buffer)),
        Ok(PageState::Erased) => Ok(None),
        Ok(PageState::Unreadable) => Ok(None),
        Err(DevFault::Failed) => Err(Fault::ReadFailed),
        Err(DevFault::PowerCut) => Err(Fault::PowerCut),
    }
}

/// Whether a page is the n-th of the record whose first header is given.
fn is_part(geometry: Geometry, first: PageHead, n: u16, head: Option<PageHead>) -> bool
    requires { 20 ≤ geometry.page }
    ensures { result ≡ spec.is_part geometry first n head }
{
    let Some(head) = head else {
        return false;
    };
    head.sequence == first.sequence
        && head.count == first.count
        && head.index == n
        && is_filled(geometry, first.count, n, head.used)
}

/// Whether the n-th page of `count` holds as many bytes as it must.
fn is_filled(geometry: Geometry, count: u16, n: u16, used: u16) -> bool
    requires { 20 ≤ geometry.page }
    ensures { result ≡ spec.is_filled geometry count n used }
{
    let room = geometry.page - HEAD_SIZE as u32;
    if n as u32 + 1 == count as u32 {
        0 < used && used as u32 <= room
    } else {
        used as u32 == room
    }
}
