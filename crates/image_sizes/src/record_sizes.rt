//! The sizes that first pages of records tell.
ghost use Rattle.std.specs.Prelude.{◌≡◌, ◌*◌};
ghost use Rattle.fs_types.specs.declared.limits.TheConstants.{ANCHORS};
ghost use Rattle.flash_model.specs.Contents.{shown_page};
ghost use Rattle.flash_model.specs.Geometry.{IsGeometry};
ghost use Rattle.flash_simulation.specs.Simulation.{device_of};
ghost use Rattle.image_sizes.specs.FirstPages as spec;
ghost use Rattle.image_sizes.specs.FirstPages.{IsNewest, TellsNewest};

use fields::u32_at;
use flash_model::{Flash, Geometry, PageView};
use flash_simulation::SimFlash;
use fs_types::ANCHORS;
use record_format::PageHead;

/// The bytes of a page up to the end of the sizes: its header, the format, and the sizes.
const TOLD: usize = 36;

/// What the first page of a record tells.
#[derive(Clone, Copy)]
struct FirstPage {
    /// The sequence of the record.
    sequence: u64,
    /// The sizes of the flash that it was made for.
    sizes: Geometry,
}

/// The sizes that the record of greatest sequence tells of which a first page stands on the anchors, whether
/// the record is whole or not. None where there is none. No operation of the flash is counted.
pub fn recorded_sizes(flash: &SimFlash) -> Option<Geometry>
    ensures { IsGeometry (device_of flash.now).geometry → TellsNewest (device_of flash.now) result }
{
    if !flash.geometry().is_lawful() {
        return None;
    }
    match newest_page(flash) {
        Some(page) => Some(page.sizes),
        None => None,
    }
}

/// The first page of the record of greatest sequence.
fn newest_page(flash: &SimFlash) -> Option<FirstPage>
    requires { IsGeometry (device_of flash.now).geometry }
    ensures { IsNewest (device_of flash.now).pages (ANCHORS * (device_of flash.now).geometry.pages) result }
{
    let mut newest = None;
    for page in 0..ANCHORS * flash.geometry().pages {
        newest = newer(newest, first_page(flash.page(page)));
    }
    newest
}

/// The first page of greater sequence, the earlier one of two that are equal.
fn newer(newest: Option<FirstPage>, next: Option<FirstPage>) -> Option<FirstPage>
    ensures { result ≡ spec.newer newest next }
{
    match (newest, next) {
        (Some(old), Some(new)) => {
            if old.sequence < new.sequence {
                Some(new)
            } else {
                Some(old)
            }
        }
        (None, new) => new,
        (old, None) => old,
    }
}

/// What a page tells, if it is the first one of a record.
fn first_page(page: PageView<'_>) -> Option<FirstPage>
    ensures { result ≡ spec.first_page (shown_page page.entry) }
{
    match page {
        PageView::Data(bytes) => first_of_bytes(bytes),
        PageView::Erased | PageView::Unreadable => None,
    }
}

/// What the bytes of a page tell, if it is the first one of a record.
fn first_of_bytes(bytes: &[u8]) -> Option<FirstPage>
    ensures { result ≡ spec.first_in bytes.now }
{
    if bytes.len() < TOLD {
        return None;
    }
    let head = PageHead::of(bytes)?;
    if head.index != 0 {
        return None;
    }
    let sizes = Geometry {
        page: u32_at(bytes, 24),
        pages: u32_at(bytes, 28),
        blocks: u32_at(bytes, 32),
    };
    let sequence = head.sequence;
    Some(FirstPage { sequence, sizes })
}
