//! Data pages of a flash, copied to one in memory.
ghost use Rattle.std.specs.Prelude.{◌≡◌, ◌<◌, length, IfOk, OnOk, IfErr};
ghost use Rattle.flash_model.specs.Geometry.{IsGeometry, page_count};
ghost use Rattle.flash_model.specs.Contents.{PutsPage};
ghost use Rattle.flash_model.specs.Reading.{OnlyReads};
ghost use Rattle.flash_simulation.specs.Simulation.{device_of, plan_of};
ghost use Rattle.salvages.specs.Copies.{IsSure, HasDataOf, AreAnchorsErased};
ghost use Rattle.salvages.specs.Causes.{ReadCause};

use flash_model::{DevFault, Flash, PageState, PageView};
use flash_simulation::SimFlash;
use fs_types::{ANCHORS, Fault};
use std::alloc::Global;

/// Lets a page of a flash in memory hold what that of another flash holds.
fn copy_page<F: Flash>(
    flash: &mut F,
    copy: &mut SimFlash,
    page: u32,
    buffer: &mut [u8],
) -> Result<(), Fault>
    requires in_range { page < page_count (F.device flash.old).geometry }
    requires same { (device_of copy.old).geometry ≡ (F.device flash.old).geometry }
    requires whole { length buffer.old ≡ (F.device flash.old).geometry.page }
    ensures page { OnOk result (PutsPage (device_of copy.old) page ((F.device flash.old).pages page) (device_of copy.new)) }
    ensures plan { plan_of copy.new ≡ plan_of copy.old }
    ensures only_reads { OnlyReads (F.device flash.old) (F.device flash.new) }
    ensures why { IfErr result (ReadCause (F.device flash.old) (F.device flash.new)) }
{
    match flash.read(page, buffer) {
        Ok(PageState::Erased) => copy.set_page(page, PageView::Erased),
        Ok(PageState::Data) => copy.set_page(page, PageView::Data(buffer)),
        Ok(PageState::Unreadable) => copy.set_page(page, PageView::Unreadable),
        Err(DevFault::Failed) => return Err(Fault::ReadFailed),
        Err(DevFault::PowerCut) => return Err(Fault::PowerCut),
    }
    Ok(())
}

/// A new flash in memory whose data pages are those of a flash; its anchors are erased.
pub(crate) fn copy_data<F: Flash>(alloc: Global, flash: &mut F) -> Result<SimFlash, Fault>
    requires { IsGeometry (F.device flash.old).geometry }
    ensures sure { IfOk result (IsSure (F.device flash.old).geometry) }
    ensures data { IfOk result (λ copy. HasDataOf (F.device flash.old) (device_of copy)) }
    ensures erased { IfOk result (λ copy. AreAnchorsErased (device_of copy)) }
    ensures only_reads { OnlyReads (F.device flash.old) (F.device flash.new) }
    ensures why { IfErr result (ReadCause (F.device flash.old) (F.device flash.new)) }
{
    let geometry = flash.geometry();
    let mut copy = SimFlash::new(alloc, geometry, &[])?;
    let mut buffer = vec![in alloc; 0u8; geometry.page as usize]?;
    let first = ANCHORS * geometry.pages;
    let end = geometry.blocks * geometry.pages;
    for page in first..end {
        copy_page(flash, &mut copy, page, &mut buffer)?;
    }
    Ok(copy)
}
