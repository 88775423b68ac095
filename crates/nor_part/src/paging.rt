//! Pages of a flash on a serial NOR part.
ghost use Rattle.std.specs.Prelude.{◌≡◌, ◌≢◌, ℕ, ◌+◌, ◌*◌, ◌/◌, ◌^◌, ◌<◌, length, slice_index, IfOk};
ghost use Rattle.flash_model.specs.Device.{erased, ReportsPage, AfterProgram, AfterErase};
ghost use Rattle.nor_part.specs.Part as part_specs;
ghost use Rattle.nor_part.specs.Layout.{data_page, mark_page, page_in};

use crate::nor::Nor;
use flash_model::{DevFault, PageState};

const BLANK: u8 = 0xff;

const WRITTEN: u8 = 0;

const SPOILT: u8 = 0x0f;

// Tells what a page holds, and puts its bytes into the buffer where it holds any. Its mark and its
// bytes are read into room of their own first.
pub(crate) fn read_page<P: Nor>(
    part: &mut P,
    page: usize,
    buffer: &mut [u8],
) -> Result<PageState, DevFault>
    requires in_part { mark_page page < P.count part.old }
    requires small { page < 2 ^ 32 }
    requires whole { length buffer.old ≡ 256 }
    ensures shows { ReportsPage (page_in (P.held part.old) page) buffer.old buffer.new result }
    ensures held { P.held part.new ≡ P.held part.old }
    ensures count { P.count part.new ≡ P.count part.old }
{
    let mark = read_mark(part, page)?;
    let bytes = read_data(part, page)?;
    if mark == WRITTEN {
        buffer.copy_from_slice(&bytes);
        return Ok(PageState::Data);
    }
    if mark == BLANK && is_blank(&bytes) {
        return Ok(PageState::Erased);
    }
    Ok(PageState::Unreadable)
}

fn read_mark<P: Nor>(part: &mut P, page: usize) -> Result<u8, DevFault>
    requires in_part { mark_page page < P.count part.old }
    requires small { page < 2 ^ 32 }
    ensures mark { IfOk result (λ mark. mark ≡ slice_index (P.held part.old (mark_page page)) 0) }
    ensures held { P.held part.new ≡ P.held part.old }
    ensures count { P.count part.new ≡ P.count part.old }
{
    let mut mark = [0];
    part.read(page + 16 * (page / 16) + 16, &mut mark)?;
    Ok(mark[0])
}

fn read_data<P: Nor>(part: &mut P, page: usize) -> Result<[u8; 256], DevFault>
    requires in_part { mark_page page < P.count part.old }
    requires small { page < 2 ^ 32 }
    ensures bytes { IfOk result (λ bytes. bytes ≡ P.held part.old (data_page page)) }
    ensures held { P.held part.new ≡ P.held part.old }
    ensures count { P.count part.new ≡ P.count part.old }
{
    let mut bytes = [0; 256];
    part.read(page + 16 * (page / 16), &mut bytes)?;
    Ok(bytes)
}

fn is_blank(bytes: &[u8]) -> bool
    ensures { result ≡ part_specs.is_blank bytes.now }
{
    bytes.iter().all(|byte| *byte == BLANK)
}

// Programs a page that is erased: its data, and then its mark. Where the data were refused, the mark
// tells that the page is spoilt.
pub(crate) fn write_page<P: Nor>(part: &mut P, page: usize, bytes: &[u8]) -> Result<(), DevFault>
    requires in_part { mark_page page < P.count part.old }
    requires small { page < 2 ^ 32 }
    requires whole { length bytes.now ≡ 256 }
    requires blank { page_in (P.held part.old) page ≡ erased }
    ensures others { (q : ℕ) → q ≢ page → page_in (P.held part.new) q ≡ page_in (P.held part.old) q }
    ensures own { AfterProgram (page_in (P.held part.old) page) bytes.now (page_in (P.held part.new) page) result }
    ensures count { P.count part.new ≡ P.count part.old }
{
    let data = page + 16 * (page / 16);
    match part.program(data, bytes) {
        Ok(()) => part.program(data + 16, &[WRITTEN]),
        Err(DevFault::Failed) => match part.program(data + 16, &[SPOILT]) {
            Err(DevFault::PowerCut) => Err(DevFault::PowerCut),
            _ => Err(DevFault::Failed),
        },
        Err(DevFault::PowerCut) => Err(DevFault::PowerCut),
    }
}

// Erases a block: its marks, and then its data.
pub(crate) fn erase_block<P: Nor>(part: &mut P, block: usize) -> Result<(), DevFault>
    requires in_part { 32 * block + 32 < P.count part.old + 1 }
    requires small { block < 2 ^ 32 }
    ensures others { (p : ℕ) → p / 16 ≢ block → page_in (P.held part.new) p ≡ page_in (P.held part.old) p }
    ensures own { (p : ℕ) → p / 16 ≡ block → AfterErase (page_in (P.held part.old) p) (page_in (P.held part.new) p) result }
    ensures count { P.count part.new ≡ P.count part.old }
{
    part.erase(2 * block + 1)?;
    part.erase(2 * block)
}
