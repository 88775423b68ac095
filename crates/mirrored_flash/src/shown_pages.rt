//! What a flash in memory shows once its driver has carried out an operation.
ghost use Rattle.std.specs.Prelude.{◌≡◌, ◌≢◌, ℕ, ◌<◌, length};
ghost use Rattle.flash_model.specs.Geometry.{page_count};
ghost use Rattle.flash_model.specs.Device.{block_of};
ghost use Rattle.flash_model.specs.Contents.{IsWhole, shown_page};
ghost use Rattle.flash_simulation.specs.Simulation.{device_of};
ghost use Rattle.mirrored_flash.specs.Shown.{page_after, erased_after};

use flash_model::{DevFault, Flash, PageView};
use flash_simulation::SimFlash;

/// Shows a page as a program of it left it.
pub(crate) fn show_page(shown: &mut SimFlash, page: u32, bytes: &[u8], done: Result<(), DevFault>)
    requires in_range { page < page_count (device_of shown.old).geometry }
    requires whole { length bytes.now ≡ (device_of shown.old).geometry.page }
    ensures own { (device_of shown.new).pages page ≡ page_after done ((device_of shown.old).pages page) bytes.now }
    ensures others { (p : ℕ) → p ≢ page → (device_of shown.new).pages p ≡ (device_of shown.old).pages p }
    ensures rest { device_of shown.new ≡ record (device_of shown.old) { pages = (device_of shown.new).pages } }
{
    match done {
        Ok(()) => shown.set_page(page, PageView::Data(bytes)),
        Err(DevFault::Failed) => shown.set_page(page, PageView::Unreadable),
        Err(DevFault::PowerCut) => {}
    }
}

/// Shows the pages of a block as an erase of it left them.
pub(crate) fn show_block(shown: &mut SimFlash, block: u32, done: Result<(), DevFault>)
    requires { block < (device_of shown.old).geometry.blocks }
    ensures own { (p : ℕ) → block_of (device_of shown.old) p ≡ block → (device_of shown.new).pages p ≡ erased_after done ((device_of shown.old).pages p) }
    ensures others { (p : ℕ) → block_of (device_of shown.old) p ≢ block → (device_of shown.new).pages p ≡ (device_of shown.old).pages p }
    ensures rest { device_of shown.new ≡ record (device_of shown.old) { pages = (device_of shown.new).pages } }
{
    match done {
        Ok(()) => set_pages(shown, block, PageView::Erased),
        Err(DevFault::Failed) => set_pages(shown, block, PageView::Unreadable),
        Err(DevFault::PowerCut) => {}
    }
}

/// Lets each page of a block hold this.
fn set_pages(shown: &mut SimFlash, block: u32, page: PageView<'_>)
    requires in_range { block < (device_of shown.old).geometry.blocks }
    requires whole { IsWhole (device_of shown.old).geometry.page (shown_page page) }
    ensures own { (p : ℕ) → block_of (device_of shown.old) p ≡ block → (device_of shown.new).pages p ≡ shown_page page.entry }
    ensures others { (p : ℕ) → block_of (device_of shown.old) p ≢ block → (device_of shown.new).pages p ≡ (device_of shown.old).pages p }
    ensures rest { device_of shown.new ≡ record (device_of shown.old) { pages = (device_of shown.new).pages } }
{
    let sizes = shown.geometry();
    for place in 0..sizes.pages {
        shown.set_page(sizes.page_number(block, place), page);
    }
}
