//! A record, put on the first pages of a flash in memory.
ghost use Rattle.std.specs.Prelude.{◌≡◌, ℕ, ◌+◌, ◌*◌, ◌^◌, ◌<◌, ◌≤◌, true, [], Some, Ok, length, vec_capacity, OnOk};
ghost use Rattle.fs_types.specs.declared.limits.TheConstants.{ANCHORS};
ghost use Rattle.flash_model.specs.Device.{block_of};
ghost use Rattle.flash_model.specs.Geometry.{IsGeometry};
ghost use Rattle.flash_simulation.specs.Simulation.{device_of, plan_of};
ghost use Rattle.record_format.specs.Payloads.{is_record, longest, written};
ghost use Rattle.anchors.specs.Newest.{committed_on};
ghost use Rattle.anchors.specs.Parts.{room};
ghost use Rattle.anchors.specs.Programming.{piece, Fills};
ghost use Rattle.salvages.specs.Copies.{AreAnchorsErased, HasPagesOnly};
ghost use Rattle.salvages.specs.Placing.{HasFirstPages};

use flash_model::{Flash, Geometry, PageView};
use flash_simulation::SimFlash;
use record_format::{
    HEAD_SIZE, PageHead, Record, page_laws, payload_laws, write_page, write_payload,
};
use std::alloc::{AllocError, Global};

/// How many pages a payload fills.
fn pages_for(geometry: Geometry, payload: &[u8]) -> u16
    requires lawful { IsGeometry geometry }
    requires some { 0 < length payload.now }
    requires short { length payload.now ≤ longest }
    ensures fills { Fills geometry payload.now result }
    ensures fits { result ≤ geometry.pages }
{
    let room = geometry.page as usize - HEAD_SIZE;
    payload.len().div_ceil(room) as u16
}

/// The piece of a payload that the n-th page of its record holds.
fn piece_of(geometry: Geometry, payload: &[u8], n: u16) -> &[u8]
    requires lawful { IsGeometry geometry }
    requires inside { n * room geometry ≤ length payload.now }
    ensures { result.now ≡ piece geometry payload.now n }
{
    let room = geometry.page as usize - HEAD_SIZE;
    let rest = &payload[n as usize * room..];
    if room < rest.len() {
        &rest[..room]
    } else {
        rest
    }
}

/// Lets the first pages of a flash hold those of a record that fill so many. The room of `page` serves: no memory is taken.
fn put_pages(flash: &mut SimFlash, sequence: u64, payload: &[u8], count: u16, page: &mut Vec<u8>)
    requires fills { Fills (device_of flash.old).geometry payload.now count }
    requires fits { count ≤ (device_of flash.old).geometry.pages }
    requires erased { AreAnchorsErased (device_of flash.old) }
    requires room { (device_of flash.old).geometry.page ≤ vec_capacity page.old }
    ensures pages { HasFirstPages (device_of flash.old) (device_of flash.new) sequence payload.now count count }
    ensures only { HasPagesOnly (device_of flash.old) (device_of flash.new) }
    ensures plan { plan_of flash.new ≡ plan_of flash.old }
    ensures fits { sequence < 2 ^ 64 }
{
    let geometry = flash.geometry();
    for n in 0..count {
        let piece = piece_of(geometry, payload, n);
        let head = PageHead {
            sequence,
            index: n,
            count,
            used: piece.len() as u16,
        };
        write_page(page, geometry.page as usize, head, piece);
        flash.set_page(n as u32, PageView::Data(page));
    }
}

/// Lets a record be the newest one of a flash whose anchors are erased, in the format that is written and
/// without bad blocks.
pub(crate) fn put_record(
    alloc: Global,
    flash: &mut SimFlash,
    saved: &Record,
) -> Result<(), AllocError>
    requires same { (device_of flash.old).geometry ≡ saved.now.geometry }
    requires lawful { is_record (written saved.now []) ≡ true }
    requires erased { AreAnchorsErased (device_of flash.old) }
    ensures newest { OnOk result (committed_on (device_of flash.new) ≡ Some (Ok (written saved.now []))) }
    ensures data { (p : ℕ) → ANCHORS ≤ block_of (device_of flash.old) p → (device_of flash.new).pages p ≡ (device_of flash.old).pages p }
    ensures only { HasPagesOnly (device_of flash.old) (device_of flash.new) }
    ensures plan { plan_of flash.new ≡ plan_of flash.old }
{
    payload_laws();
    page_laws();
    let geometry = flash.geometry();
    let mut page = Vec::with_capacity(alloc, geometry.page as usize)?;
    let payload = write_payload(saved, &[]);
    let bytes = payload.as_slice();
    let count = pages_for(geometry, bytes);
    put_pages(flash, saved.sequence, bytes, count, &mut page);
    Ok(())
}
