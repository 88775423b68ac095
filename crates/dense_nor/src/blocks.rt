//! Blocks of a flash on a serial NOR part of the dense layout: their erase.
ghost use Rattle.std.specs.Prelude.{◌≡◌, ◌≢◌, ℕ, ◌+◌, ◌*◌, ◌/◌, ◌%◌, ◌<◌, ◌≤◌, ◌^◌, OnOk, OnErr, length, slice_index, true};
ghost use Rattle.flash_model.specs.Device.{AfterErase};
ghost use Rattle.nor_part.specs.Part.{is_blank};
ghost use Rattle.dense_nor.specs.Blocks.{IsOfBlock, IsOfMarks, IsSpoilt, IsUnmarked, MarksNothing};
ghost use Rattle.dense_nor.specs.Layout.{data_pages, page_in};

use crate::dense_layout::DenseLayout;
use crate::dense_nor::DenseNor;
use crate::entries::BLANK;
use flash_model::DevFault;

// What is programmed over a page of marks: 0 over the beginning of each, while the sums stay.
fn spoilt_marks() -> [u8; 256]
    ensures zeros { (k : ℕ) → k < 256 → k % 8 < 4 → slice_index result k ≡ 0 }
    ensures sums { (k : ℕ) → k < 256 → 4 ≤ k % 8 → slice_index result k ≡ 255 }
    ensures len { length result ≡ 256 }
{
    let mut bytes = [0; 256];
    for (k, byte) in bytes.iter_mut().enumerate() {
        if k % 8 >= 4 {
            *byte = BLANK;
        }
    }
    bytes
}

// Programs 0 over the marks of a block: none of its pages is read as written then.
fn spoil_marks<P: DenseNor>(part: &mut P, layout: DenseLayout, block: usize) -> Result<(), DevFault>
    requires in_part { 16 * layout.sectors * block + 16 * layout.sectors ≤ P.count part.old }
    requires small { block < 2 ^ 32 }
    ensures others { (x : ℕ) → ¬ IsOfMarks layout.sectors block x → P.held part.new x ≡ P.held part.old x }
    ensures spoilt { OnOk result ((x : ℕ) → IsOfMarks layout.sectors block x → IsSpoilt (P.held part.new x)) }
    ensures unmarked { MarksNothing layout.sectors block (P.held part.old) (P.held part.new) }
    ensures count { P.count part.new ≡ P.count part.old }
{
    let bytes = spoilt_marks();
    let end = 16 * layout.sectors as usize * block + 16 * layout.sectors as usize;
    for page in end - layout.mark_pages()..end {
        if let Err(fault) = part.program_dense(page, &bytes) {
            return Err(fault);
        }
    }
    Ok(())
}

// Erases the sectors of a block whose marks are 0, in order: those with marks come last.
fn erase_sectors<P: DenseNor>(
    part: &mut P,
    layout: DenseLayout,
    block: usize,
) -> Result<(), DevFault>
    requires in_part { 16 * layout.sectors * block + 16 * layout.sectors ≤ P.count part.old }
    requires small { block < 2 ^ 32 }
    requires spoilt { (x : ℕ) → IsOfMarks layout.sectors block x → IsSpoilt (P.held part.old x) }
    ensures others { (x : ℕ) → ¬ IsOfBlock layout.sectors block x → P.held part.new x ≡ P.held part.old x }
    ensures blank { OnOk result ((x : ℕ) → IsOfBlock layout.sectors block x → is_blank (P.held part.new x) ≡ true) }
    ensures unmarked { OnErr result (IsUnmarked layout.sectors block (P.held part.new)) }
    ensures count { P.count part.new ≡ P.count part.old }
{
    let first = layout.sectors as usize * block;
    for sector in first..first + layout.sectors as usize {
        if let Err(fault) = part.erase_dense(sector) {
            return Err(fault);
        }
    }
    Ok(())
}

// Erases a block: its marks are made 0, and then its sectors are erased.
pub(crate) fn erase_block<P: DenseNor>(
    part: &mut P,
    layout: DenseLayout,
    block: usize,
) -> Result<(), DevFault>
    requires in_part { 16 * layout.sectors * block + 16 * layout.sectors ≤ P.count part.old }
    requires small { block < 2 ^ 32 }
    ensures others { (p : ℕ) → p / data_pages layout.sectors ≢ block → page_in layout.sectors (P.held part.new) p ≡ page_in layout.sectors (P.held part.old) p }
    ensures own { (p : ℕ) → p / data_pages layout.sectors ≡ block → AfterErase (page_in layout.sectors (P.held part.old) p) (page_in layout.sectors (P.held part.new) p) result }
    ensures count { P.count part.new ≡ P.count part.old }
{
    match spoil_marks(part, layout, block) {
        Ok(()) => erase_sectors(part, layout, block),
        Err(fault) => Err(fault),
    }
}
