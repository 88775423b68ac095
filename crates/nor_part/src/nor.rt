//! The trait that a driver of a serial NOR part implements.
ghost use Rattle.std.specs.Prelude.{◌≡◌, ℕ, ◌+◌, ◌*◌, ◌<◌, ◌≤◌, List, length, slice_index, OnOk};
ghost use Rattle.nor_part.specs.Part.{ProgramsPage, ErasesSector};

use flash_model::DevFault;

/// A serial NOR part with power on: pages of 256 bytes, sixteen in each sector of 4,096 bytes. What its
/// pages hold is `held`.
///
/// `Failed` is what the status register tells after a program or an erase, and the answer of a read that
/// the bus did not carry out. `PowerCut` is power that went in an operation: only [`Nor::power_on`] comes
/// next.
pub trait Nor {
    ghost held: { Self → ℕ → List ℕ };

    ghost count: { Self → ℕ };

    /// How many pages there are, the same each time.
    fn page_count(&self) -> usize
        ensures { result ≡ count self.now };

    /// Reads the first bytes of a page. Whatever it answers, no page changes. After a fault the buffer
    /// has any bytes.
    fn read(&mut self, page: usize, buffer: &mut [u8]) -> Result<(), DevFault>
        requires in_range { page < count self.old }
        requires short { length buffer.old ≤ 256 }
        ensures read { OnOk result ((i : ℕ) → i < length buffer.old → slice_index buffer.new i ≡ slice_index (held self.old page) i) }
        ensures held { held self.new ≡ held self.old }
        ensures count { count self.new ≡ count self.old };

    /// Programs the first bytes of a page: bits are cleared, and none is set.
    fn program(&mut self, page: usize, bytes: &[u8]) -> Result<(), DevFault>
        requires in_range { page < count self.old }
        requires short { length bytes.now ≤ 256 }
        ensures programs { ProgramsPage (held self.old) page bytes.now (held self.new) result }
        ensures count { count self.new ≡ count self.old };

    /// Erases a sector: each of its bits is set.
    fn erase(&mut self, sector: usize) -> Result<(), DevFault>
        requires { 16 * sector + 16 ≤ count self.old }
        ensures erases { ErasesSector (held self.old) sector (held self.new) result }
        ensures count { count self.new ≡ count self.old };

    /// Puts the power on, and changes nothing else.
    fn power_on(&mut self)
        ensures held { held self.new ≡ held self.old }
        ensures count { count self.new ≡ count self.old };

    // A page has 256 bytes.
    ghost whole: { (part : Self) (n : ℕ) → length (held part n) ≡ 256 };
}
