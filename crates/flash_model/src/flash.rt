//! The trait that a driver of raw flash implements.
ghost use Rattle.std.specs.Prelude.{◌≡◌, ℕ, ◌<◌, List, length, true};
ghost use Rattle.flash_model.specs.Geometry.{page_count};
ghost use Rattle.flash_model.specs.Device.{Device, Page, erased, bytes_of, Reads, Programs, Erases};

use crate::geometry::Geometry;
use thiserror::Error;

/// What a page holds, as a read reports it.
#[derive(Clone, Copy, Debug, PartialEq, Eq)]
pub enum PageState {
    /// Nothing since the last erase; only such a page may be programmed.
    Erased,
    /// The bytes that were programmed.
    Data,
    /// Neither: an operation on it failed, or power went in it.
    Unreadable,
}

/// Why a device operation was not done.
#[derive(Clone, Copy, Debug, PartialEq, Eq, Error)]
pub enum DevFault {
    /// The operation failed, and power is on.
    #[error("the device failed")]
    Failed,
    /// Power went in the operation, or was off before it.
    #[error("the device has no power")]
    PowerCut,
}

/// A raw flash. What it holds and what happened to it is `device`.
///
/// With the power off each operation answers `PowerCut` and changes nothing.
pub trait Flash {
    ghost device: { Self → Device };

    /// The sizes, which never change. Nothing says here that they are within limits.
    fn geometry(&self) -> Geometry
        ensures { result ≡ (device self.now).geometry };

    /// Tells what the page holds. The bytes of a `Data` page are put into the buffer; otherwise it
    /// stays as it is.
    fn read(&mut self, page: u32, buffer: &mut [u8]) -> Result<PageState, DevFault>
        requires in_range { page < page_count (device self.old).geometry }
        requires whole { length buffer.old ≡ (device self.old).geometry.page }
        ensures { Reads (device self.old) page buffer.old (device self.new) buffer.new result };

    /// Writes the bytes of a whole page that is erased.
    fn program(&mut self, page: u32, bytes: &[u8]) -> Result<(), DevFault>
        requires in_range { page < page_count (device self.old).geometry }
        requires whole { length bytes.now ≡ (device self.old).geometry.page }
        requires blank { (device self.old).pages page ≡ erased }
        ensures { Programs (device self.old) page bytes.now (device self.new) result };

    /// Erases each page of the block.
    fn erase(&mut self, block: u32) -> Result<(), DevFault>
        requires { block < (device self.old).geometry.blocks }
        ensures { Erases (device self.old) block (device self.new) result };

    /// Puts the power on, and changes nothing else.
    fn power_on(&mut self)
        ensures { device self.new ≡ record (device self.old) { powered = true } };

    // A page with data has the bytes of a whole page.
    ghost whole_pages: { (flash : Self) (p : ℕ) (bytes : List ℕ) → (device flash).pages p ≡ bytes_of bytes → length bytes ≡ (device flash).geometry.page };
}
