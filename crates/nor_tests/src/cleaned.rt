//! Blocks that a flash over a part erased: the part is asked for no erase of them more.
ghost use Rattle.std.specs.Prelude.{◌≡◌, ◌<◌, length};
ghost use Rattle.flash_model.specs.Geometry.{page_count};

use flash_model::{DevFault, Flash, PageState};
use nor_part::{MemoryNor, NorFlash, Trouble};
use std::test::Fail;

/// Programs a page where a read finds it erased, and tells whether it does.
pub(crate) fn program_erased<F: Flash>(
    flash: &mut F,
    page: u32,
    bytes: &mut [u8],
) -> Result<bool, DevFault>
    requires in_range { page < page_count (F.device flash.old).geometry }
    requires whole { length bytes.old ≡ (F.device flash.old).geometry.page }
    ensures same_sizes { (F.device flash.new).geometry ≡ (F.device flash.old).geometry }
{
    let state = flash.read(page, bytes)?;
    if state == PageState::Erased {
        flash.program(page, bytes)?;
    }
    Ok(state == PageState::Erased)
}

// What comes next on the part is planned to be cut: an erase that the part is not asked for is none. A block is
// erased anew once it was programmed, and where its erase was cut.
#[test]
fn a_cleaned_block_is_answered_at_once(rt: HostRuntime) -> Result<(), Fail> {
    let part = MemoryNor::new(rt.alloc(), 64)?;
    let mut flash = NorFlash::new(rt.alloc(), part)?;
    assert_eq!(rt; flash.erase(20), Ok(()));
    flash.plan(0, Trouble::CutBefore);
    assert_eq!(rt; flash.erase(20), Ok(()));
    assert_eq!(rt; flash.erase(21), Err(DevFault::PowerCut));
    flash.forget_plan();
    flash.power_on();
    assert_eq!(rt; program_erased(&mut flash, 320, &mut [0; 256]), Ok(true));
    flash.plan(0, Trouble::CutWithin);
    assert_eq!(rt; flash.erase(20), Err(DevFault::PowerCut));
    flash.power_on();
    flash.plan(1, Trouble::CutWithin);
    assert_eq!(rt; flash.erase(20), Err(DevFault::PowerCut));
    flash.power_on();
    assert_eq!(rt; flash.erase(20), Ok(()));
    Ok(())
}
