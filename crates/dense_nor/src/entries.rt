//! The eight bytes at a place of a page of marks: they are read and programmed beside those at other places.
ghost use Rattle.std.specs.Prelude.{◌≡◌, ◌≢◌, ◌⊎◌, ℕ, ◌+◌, ◌*◌, ◌<◌, ◌≤◌, Err, IfOk, OnOk, length, replicate, slice_index};
ghost use Rattle.nor_part.specs.Part.{HasCleared};
ghost use Rattle.dense_nor.specs.Marks as marks;
ghost use Rattle.dense_nor.specs.Parts.{LeavesTrace, MakesNoMark};

use crate::dense_nor::DenseNor;
use flash_model::DevFault;
use nor_part::Nor;

pub(crate) const BLANK: u8 = 0xff;

// Reads a page of the part.
pub(crate) fn read_whole<P: Nor>(part: &mut P, page: usize) -> Result<[u8; 256], DevFault>
    requires { page < P.count part.old }
    ensures bytes { IfOk result (λ bytes. bytes ≡ P.held part.old page) }
    ensures held { P.held part.new ≡ P.held part.old }
    ensures count { P.count part.new ≡ P.count part.old }
{
    let mut bytes = [0; 256];
    part.read(page, &mut bytes)?;
    Ok(bytes)
}

// The eight bytes at a place.
pub(crate) fn entry_of(bytes: &[u8], place: usize) -> &[u8]
    requires { 8 * place + 8 ≤ length bytes.now }
    ensures entry { result.now ≡ marks.entry_of bytes.now place }
    ensures len { length result.now ≡ 8 }
{
    let first = 8 * place;
    &bytes[first..first + 8]
}

// A page of bytes to be programmed, in which those at other places than one stay.
fn padded(place: usize, entry: [u8; 8]) -> [u8; 256]
    requires { place < 32 }
    ensures own { (k : ℕ) → k < 8 → slice_index result (8 * place + k) ≡ slice_index entry k }
    ensures others { (k : ℕ) → k < 256 → (k < 8 * place) ⊎ (8 * place + 8 ≤ k) → slice_index result k ≡ 255 }
    ensures len { length result ≡ 256 }
{
    let mut bytes = [BLANK; 256];
    for k in 0..8 {
        bytes[8 * place + k] = entry[k];
    }
    bytes
}

// Programs the eight bytes at a place, and no other ones of the page.
pub(crate) fn program_entry<P: DenseNor>(
    part: &mut P,
    page: usize,
    place: usize,
    entry: [u8; 8],
) -> Result<(), DevFault>
    requires in_part { page < P.count part.old }
    requires in_page { place < 32 }

    // No other page changes, nor the bytes at another place.
    ensures others { (m : ℕ) → m ≢ page → P.held part.new m ≡ P.held part.old m }
    ensures beside { (i : ℕ) → i ≢ place → marks.entry_of (P.held part.new page) i ≡ marks.entry_of (P.held part.old page) i }
    ensures count { P.count part.new ≡ P.count part.old }

    // What is left at the place.
    ensures done { OnOk result (HasCleared (marks.entry_of (P.held part.old page) place) entry (marks.entry_of (P.held part.new page) place)) }
    ensures unmarked { entry ≡ replicate 8 0 → MakesNoMark (P.held part.old) (P.held part.new) page place }
    ensures trace { entry ≡ replicate 8 0 → result ≡ Err DevFault.Failed → LeavesTrace (P.held part.new) page place }
{
    let bytes = padded(place, entry);
    part.program_dense(page, &bytes)
}
