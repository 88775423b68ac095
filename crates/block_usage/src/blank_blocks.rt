//! Whether a block is blank.
ghost use Rattle.std.specs.Prelude.{◌≡◌, ◌<◌, true, false, length, IfOk, IfErr};
ghost use Rattle.flash_model.specs.Device.{erased};
ghost use Rattle.flash_model.specs.Geometry.{IsGeometry, page_count};
ghost use Rattle.flash_model.specs.Reading.{OnlyReads};
ghost use Rattle.anchors.specs.Reading.{PageReadCause};
ghost use Rattle.system.specs.CleaningRounds.{IsBlank};

use flash_model::{DevFault, Flash, PageState};
use fs_types::Fault;

/// Whether all pages of a block are erased: they are read up to the first that is not.
/// [`Fault::ReadFailed`] and [`Fault::PowerCut`] by the device.
pub(crate) fn is_blank<F: Flash>(flash: &mut F, block: u32, page: &mut [u8]) -> Result<bool, Fault>
    requires lawful { IsGeometry (F.device flash.old).geometry }
    requires in_range { block < (F.device flash.old).geometry.blocks }
    requires whole { length page.old ≡ (F.device flash.old).geometry.page }
    ensures blank { IfOk result (λ is. is ≡ true → IsBlank (F.device flash.old) block) }
    ensures stale { IfOk result (λ is. is ≡ false → ¬ IsBlank (F.device flash.old) block) }
    ensures only_reads { OnlyReads (F.device flash.old) (F.device flash.new) }
    ensures why { IfErr result (PageReadCause (F.device flash.old) (F.device flash.new)) }
{
    let geometry = flash.geometry();
    for place in 0..geometry.pages {
        if !is_erased(flash, geometry.page_number(block, place), page)? {
            return Ok(false);
        }
    }
    Ok(true)
}

/// Whether a page is erased.
fn is_erased<F: Flash>(flash: &mut F, number: u32, page: &mut [u8]) -> Result<bool, Fault>
    requires in_range { number < page_count (F.device flash.old).geometry }
    requires whole { length page.old ≡ (F.device flash.old).geometry.page }
    ensures erased { IfOk result (λ is. is ≡ true → (F.device flash.old).pages number ≡ erased) }
    ensures other { IfOk result (λ is. is ≡ false → ¬ ((F.device flash.old).pages number ≡ erased)) }
    ensures only_reads { OnlyReads (F.device flash.old) (F.device flash.new) }
    ensures why { IfErr result (PageReadCause (F.device flash.old) (F.device flash.new)) }
{
    match flash.read(number, page) {
        Ok(PageState::Erased) => Ok(true),
        Ok(PageState::Data) => Ok(false),
        Ok(PageState::Unreadable) => Ok(false),
        Err(DevFault::Failed) => Err(Fault::ReadFailed),
        Err(DevFault::PowerCut) => Err(Fault::PowerCut),
    }
}
