//! A record that is to be written on an anchor, and its payload.
ghost use Rattle.std.specs.Prelude.{◌≡◌, ◌+◌, ◌*◌, ◌<◌, ◌≤◌, length, ℕ, [], true};
ghost use Rattle.flash_model.specs.Geometry.{IsGeometry};
ghost use Rattle.record_format.specs.Payloads.{longest, is_record, written};
ghost use Rattle.anchors.specs.Drafts.{IsDraft};
ghost use Rattle.anchors.specs.Parts.{room};
ghost use Rattle.fs_types.specs.declared.limits.TheConstants.{ANCHORS, MAX_BAD_BLOCKS};
ghost use Rattle.anchors.specs.Payloads.{Means};
ghost use Rattle.anchors.specs.Programming as spec;
ghost use Rattle.std.specs.FinSet as set;

use crate::best::Found;
use bad_blocks::BadBlocks;
use flash_model::Geometry;
use record_format::{HEAD_SIZE, PageHead, Payload, Record, payload_laws, write_payload};

/// A record that is to be written: its sequence, its payload, and how many pages that fills.
#[derive(Clone, Copy)]
pub(crate) struct Draft<'a> {
    pub(crate) sequence: u64,
    pub(crate) payload: &'a [u8],
    pub(crate) count: u16,
}

impl<'a> Draft<'a> {
    /// A payload with a sequence.
    pub(crate) fn new(geometry: Geometry, sequence: u64, payload: &'a [u8]) -> Draft<'a>
        requires lawful { IsGeometry geometry }
        requires some { 0 < length payload.now }
        requires short { length payload.now ≤ longest }
        ensures sequence { result.sequence ≡ sequence }
        ensures payload { result.payload.now ≡ payload.now }
        ensures is { IsDraft geometry result }
    {
        let count = pages_for(geometry, payload);
        Draft {
            sequence,
            payload,
            count,
        }
    }

    /// Its first page, where it is written at a place of an anchor.
    pub(crate) fn first_page(&self, geometry: Geometry, anchor: u32, place: u32) -> Found
        requires lawful { IsGeometry geometry }
        requires anchor { anchor < ANCHORS }
        requires in_block { place < geometry.pages }
        ensures page { result.page ≡ anchor * geometry.pages + place }
        ensures head { result.head ≡ spec.head_for geometry self.now.sequence self.now.payload.now self.now.count 0 }
    {
        let piece = piece_of(geometry, self.payload, 0);
        let head = PageHead {
            sequence: self.sequence,
            index: 0,
            count: self.count,
            used: piece.len() as u16,
        };
        Found {
            page: geometry.page_number(anchor, place),
            head,
        }
    }
}

/// How many pages a payload fills.
fn pages_for(geometry: Geometry, payload: &[u8]) -> u16
    requires lawful { IsGeometry geometry }
    requires some { 0 < length payload.now }
    requires short { length payload.now ≤ longest }
    ensures fills { spec.Fills geometry payload.now result }
    ensures fits { result ≤ geometry.pages }
{
    let room = geometry.page as usize - HEAD_SIZE;
    payload.len().div_ceil(room) as u16
}

/// The piece of a payload that the n-th page of its record holds.
pub(crate) fn piece_of(geometry: Geometry, payload: &[u8], n: u16) -> &[u8]
    requires lawful { IsGeometry geometry }
    requires inside { n * room geometry ≤ length payload.now }
    ensures { result.now ≡ spec.piece geometry payload.now n }
{
    let room = geometry.page as usize - HEAD_SIZE;
    let rest = &payload[n as usize * room..];
    if room < rest.len() {
        &rest[..room]
    } else {
        rest
    }
}

/// The payload of a record in the format that is written, with the list in force in place of its
/// own. It takes no memory.
pub(crate) fn payload_with(saved: &Record, bad: &BadBlocks) -> Payload
    requires lawful { is_record (written saved.now []) ≡ true }
    requires on_flash { (b : ℕ) → set.contains bad.now b ≡ true → b < saved.now.geometry.blocks }
    requires room { set.len bad.now ≤ MAX_BAD_BLOCKS }
    ensures means { (sequence : ℕ) → Means saved.now sequence bad.now result.items }
    ensures some { 0 < length result.items }
    ensures short { length result.items ≤ longest }
{
    payload_laws();
    write_payload(saved, bad.iter().as_slice())
}
