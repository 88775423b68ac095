//! What a part holds.
ghost use Rattle.std.specs.Prelude.{◌≡◌, ◌≢◌, ◌+◌, ◌⊎◌, ℕ, ◌<◌, ◌≤◌, codes, Err, IfOk, IfErr, OnOk, IfSome, false, length, take};
ghost use Rattle.flash_simulation.specs.Images.{IsFresh};
ghost use Rattle.flash_model.specs.Geometry.{IsGeometry, page_count};
ghost use Rattle.flash_simulation.specs.Simulation.{device_of};
ghost use Rattle.flash_model.specs.Contents.{shown_page, page_of};
ghost use Rattle.part_file.specs.Layout as spec;
ghost use Rattle.part_file.specs.Pages.{HasPage, HasPages, IsHeadFault, IsUnreadPart, state_code};
ghost use Rattle.part_file.specs.Reading.{IsPartFlash, IsPartFault};

use crate::part_file::{MAGIC, PartFault};
use crate::places::{data_place, state_place};
use fields::u32_at;
use flash_model::{Geometry, PageState, PageView};
use flash_simulation::SimFlash;
use host_interface::Backing;
use std::alloc::Global;

/// The flash of the part that stands in these bytes. Nothing is written.
pub fn flash_of_part<B: Backing>(alloc: Global, backing: &mut B) -> Result<SimFlash, PartFault>
    // What is read, and why it is not.
    ensures ok { IfOk result (λ flash. IsPartFlash (B.held backing.old) (device_of flash)) }
    ensures err { IfErr result (λ fault. IfSome (B.held backing.old) (IsPartFault fault)) }
    // Nothing changes.
    ensures same { B.held backing.new ≡ B.held backing.old }
    ensures steps { B.steps backing.new ≡ B.steps backing.old }
{
    let sizes = match read_head(backing) {
        Ok(sizes) => sizes,
        Err(fault) => return Err(fault),
    };
    read_part(alloc, backing, sizes)
}

/// The sizes of a part, as its head tells them.
fn read_head<B: Backing>(backing: &mut B) -> Result<Geometry, PartFault>
    // What is read, and why it is not.
    ensures head { IfOk result (λ sizes. IfSome (B.held backing.old) (λ bytes. spec.IsHead (take 20 bytes) sizes)) }
    ensures lawful { IfOk result IsGeometry }
    ensures fault { IfErr result IsHeadFault }
    ensures other_magic { (result ≡ Err PartFault.NotPart) → IfSome (B.held backing.old) (λ bytes. take 8 (take 20 bytes) ≢ codes "UFFSPART") }
    ensures other_sizes { (result ≡ Err PartFault.BadGeometry) → IfSome (B.held backing.old) (λ bytes. ¬ IsGeometry (spec.sizes_in (take 20 bytes))) }
    // Nothing changes.
    ensures same { B.held backing.new ≡ B.held backing.old }
    ensures steps { B.steps backing.new ≡ B.steps backing.old }
{
    let mut head = [0; 20];
    backing.read_at(0, &mut head)?;
    if !head.starts_with(&MAGIC) {
        return Err(PartFault::NotPart);
    }
    let sizes = sizes_in(&head);
    if !sizes.is_lawful() {
        return Err(PartFault::BadGeometry);
    }
    Ok(sizes)
}

/// The flash of a part of these sizes: its pages, with power on and no block worn. Each page is read, also
/// one without data.
fn read_part<B: Backing>(
    alloc: Global,
    backing: &mut B,
    sizes: Geometry,
) -> Result<SimFlash, PartFault>
    requires { IsGeometry sizes }
    // What is read, and why it is not.
    ensures pages { IfOk result (λ flash. IfSome (B.held backing.old) (HasPages (device_of flash))) }
    ensures fresh { IfOk result (λ flash. IsFresh (device_of flash)) }
    ensures unworn { IfOk result (λ flash. (b : ℕ) → (device_of flash).worn b ≡ false) }
    ensures sizes { IfOk result (λ flash. (device_of flash).geometry ≡ sizes) }
    ensures unread { IfErr result (IsUnreadPart sizes) }
    // Nothing changes.
    ensures same { B.held backing.new ≡ B.held backing.old }
    ensures steps { B.steps backing.new ≡ B.steps backing.old }
{
    let mut flash = match SimFlash::new(alloc, sizes, &[]) {
        Ok(flash) => flash,
        Err(_) => return Err(PartFault::Memory),
    };
    let mut buffer = match vec![in alloc; 0; sizes.page as usize] {
        Ok(buffer) => buffer,
        Err(_) => return Err(PartFault::Memory),
    };
    for page in 0..sizes.page_count() as u32 {
        let state = read_page(backing, sizes, page, &mut buffer)?;
        flash.set_page(page, view_of(state, &buffer));
    }
    Ok(flash)
}

/// Puts the bytes that stand at a page's place into the buffer, and tells its state.
fn read_page<B: Backing>(
    backing: &mut B,
    sizes: Geometry,
    page: u32,
    buffer: &mut [u8],
) -> Result<PageState, PartFault>
    requires lawful { IsGeometry sizes }
    requires in_range { page < page_count sizes }
    requires whole { length buffer.old ≡ sizes.page }
    // What stands there.
    ensures page { IfOk result (λ state. IfSome (B.held backing.old) (λ bytes. HasPage bytes sizes page (page_of state buffer.new))) }
    ensures inside { OnOk result (IfSome (B.held backing.old) (λ bytes. spec.data_place sizes page + sizes.page ≤ length bytes)) }
    ensures fault { IfErr result (λ fault. (fault ≡ PartFault.Page page) ⊎ (fault ≡ PartFault.BadState)) }
    // Nothing changes.
    ensures len { length buffer.new ≡ length buffer.old }
    ensures same { B.held backing.new ≡ B.held backing.old }
    ensures steps { B.steps backing.new ≡ B.steps backing.old }
{
    let mut state = [0];
    let looked = backing.read_at(state_place(page), &mut state);
    let read = backing.read_at(data_place(sizes, page), buffer);
    if looked.is_err() || read.is_err() {
        return Err(PartFault::Page(page));
    }
    state_of(state[0])
}

/// The state that a byte tells.
fn state_of(state: u8) -> Result<PageState, PartFault>
    ensures ok { IfOk result (λ is. state_code is ≡ state) }
    ensures err { IfErr result (λ fault. fault ≡ PartFault.BadState) }
{
    match state {
        0 => Ok(PageState::Erased),
        1 => Ok(PageState::Data),
        2 => Ok(PageState::Unreadable),
        _ => Err(PartFault::BadState),
    }
}

/// The sizes that a head tells.
fn sizes_in(head: &[u8]) -> Geometry
    ensures { result ≡ spec.sizes_in head.now }
{
    Geometry {
        page: u32_at(head, 8),
        pages: u32_at(head, 12),
        blocks: u32_at(head, 16),
    }
}

/// What a page shows of this state, whose room holds these bytes.
fn view_of(state: PageState, bytes: &[u8]) -> PageView<'_>
    ensures { shown_page result ≡ page_of state bytes.now }
{
    match state {
        PageState::Erased => PageView::Erased,
        PageState::Data => PageView::Data(bytes),
        PageState::Unreadable => PageView::Unreadable,
    }
}
