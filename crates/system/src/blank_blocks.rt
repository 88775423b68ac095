//! Whether a block is blank.
ghost use Rattle.std.specs.Prelude.{◌≡◌, ◌+◌, ◌<◌, ◌≤◌, true, false, IfOk, IfErr, vec_len};
ghost use Rattle.flash_model.specs.Device.{erased};
ghost use Rattle.flash_model.specs.Geometry.{IsGeometry, page_count};
ghost use Rattle.flash_model.specs.Reading.{OnlyReads};
ghost use Rattle.system.specs.CleaningRounds.{IsBlank};

use flash_model::{DevFault, Flash, PageState};
use fs_types::Fault;

/// Whether all pages of a block are erased: they are read up to the first that is not, and one of which
/// the read fails counts as not erased. [`Fault::PowerCut`] by the device.
pub(crate) fn is_blank<F: Flash>(
    flash: &mut F,
    block: u32,
    page: &mut Vec<u8>,
) -> Result<bool, Fault>
    requires lawful { IsGeometry (F.device flash.old).geometry }
    requires in_range { block < (F.device flash.old).geometry.blocks }
    requires whole { vec_len page.old ≡ (F.device flash.old).geometry.page }
    ensures blank { IfOk result (λ is. is ≡ true → IsBlank (F.device flash.old) block) }
    ensures stale { IfOk result (λ is. is ≡ false → IsBlank (F.device flash.old) block → (F.device flash.old).failed_reads < (F.device flash.new).failed_reads) }
    ensures why { IfErr result (λ fault. (fault ≡ Fault.PowerCut) × ((F.device flash.new).powered ≡ false)) }
    ensures only_reads { OnlyReads (F.device flash.old) (F.device flash.new) }
    ensures page { vec_len page.new ≡ vec_len page.old }
    ensures operations { (F.device flash.new).operations ≤ (F.device flash.old).operations + (F.device flash.old).geometry.pages }
{
    let geometry = flash.geometry();
    for place in 0..geometry.pages {
        if !is_erased(flash, geometry.page_number(block, place), page)? {
            return Ok(false);
        }
    }
    Ok(true)
}

/// Whether a page is erased; one of which the read fails counts as not erased.
fn is_erased<F: Flash>(flash: &mut F, number: u32, page: &mut Vec<u8>) -> Result<bool, Fault>
    requires in_range { number < page_count (F.device flash.old).geometry }
    requires whole { vec_len page.old ≡ (F.device flash.old).geometry.page }
    ensures erased { IfOk result (λ is. is ≡ true → (F.device flash.old).pages number ≡ erased) }
    ensures stale { IfOk result (λ is. is ≡ false → (F.device flash.old).pages number ≡ erased → (F.device flash.old).failed_reads < (F.device flash.new).failed_reads) }
    ensures why { IfErr result (λ fault. (fault ≡ Fault.PowerCut) × ((F.device flash.new).powered ≡ false)) }
    ensures only_reads { OnlyReads (F.device flash.old) (F.device flash.new) }
    ensures page { vec_len page.new ≡ vec_len page.old }
    ensures operations { (F.device flash.new).operations ≤ (F.device flash.old).operations + 1 }
{
    match flash.read(number, page) {
        Ok(PageState::Erased) => Ok(true),
        Ok(_) => Ok(false),
        Err(DevFault::Failed) => Ok(false),
        Err(DevFault::PowerCut) => Err(Fault::PowerCut),
    }
}
