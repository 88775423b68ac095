//! The trait that a driver of a serial NOR part implements which may have the dense layout.
ghost use Rattle.std.specs.Prelude.{◌≡◌, ℕ, ◌+◌, ◌*◌, ◌/◌, ◌<◌, ◌≤◌, length, Err};
ghost use Rattle.nor_part.specs.Part.{ProgramsPage, ErasesSector, KeepsOthers};
ghost use Rattle.dense_nor.specs.Parts.{GivesZeros, LeavesTrace, MakesNoMark};

use flash_model::DevFault;
use nor_part::Nor;

/// A serial NOR part that keeps to more than [`Nor`] asks, of a page and of a sector in which marks stand.
/// The calls do what those of [`Nor`] do. A page takes 33 programs between two erases.
pub trait DenseNor: Nor {
    /// Programs the first bytes of a page. A byte that is not given, or is given as 255, stays, whatever the
    /// answer. Where 0 is given for the beginning of a mark and none stood, no mark with the sum of a page
    /// stands afterwards. Where that failed for eight bytes, they are not blank either.
    fn program_dense(&mut self, page: usize, bytes: &[u8]) -> Result<(), DevFault>
        requires in_range { page < Self.count self.old }
        requires short { length bytes.now ≤ 256 }
        ensures programs { ProgramsPage (Self.held self.old) page bytes.now (Self.held self.new) result }
        ensures count { Self.count self.new ≡ Self.count self.old }

        // What is asked beside.
        ensures keeps { KeepsOthers (Self.held self.old page) bytes.now (Self.held self.new page) }
        ensures unmarked { (i : ℕ) → GivesZeros 4 bytes.now i → MakesNoMark (Self.held self.old) (Self.held self.new) page i }
        ensures trace { result ≡ Err DevFault.Failed → (i : ℕ) → GivesZeros 8 bytes.now i → LeavesTrace (Self.held self.new) page i };

    /// Erases a sector. Where no mark stood, none with the sum of a page stands afterwards, whatever the
    /// answer.
    fn erase_dense(&mut self, sector: usize) -> Result<(), DevFault>
        requires { 16 * sector + 16 ≤ Self.count self.old }
        ensures erases { ErasesSector (Self.held self.old) sector (Self.held self.new) result }
        ensures count { Self.count self.new ≡ Self.count self.old }
        ensures unmarked { (page i : ℕ) → page / 16 ≡ sector → i < 32 → MakesNoMark (Self.held self.old) (Self.held self.new) page i };
}
