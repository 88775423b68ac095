//! Folders that are made whole.
use crate::image_files::{FileFault, ImageFiles};
use std::alloc::Global;

/// Folders that are made whole, by their names. What is made in one stands in a new folder beside it,
/// under its name with `.new` after it, until it is finished.
pub trait Folders: ImageFiles {
    ghost use Rattle.std.specs.Prelude.{◌≡◌, [], ◌∷◌, ◌++◌, List, ℕ, OnOk, IfErr};
    ghost use Rattle.host_interface.specs.Files.{new_name};
    ghost use Rattle.host_interface.specs.Folders.{Made, KeepsOutside, KeepsBeside, HoldsMade, LeavesFolder};

    // This was made in the folder of a name, in that order.
    ghost made: { Self → List ℕ → List Made → Type 0 } = { λ _ _ _. Unit {0} };

    /// Begins a folder of a name. Refused where something stands at that name, or at that of the new
    /// folder.
    fn begin_folder(&mut self, alloc: Global, name: &str) -> Result<(), FileFault>
        ensures ok { OnOk result (made self.new name.now []) }
        ensures others { KeepsOutside (new_name name.now) (Self.held self.old) (Self.held self.new) };

    /// Makes a folder in the one of a name, which is begun: where a way leads, as `/a/b`.
    fn make_folder(&mut self, alloc: Global, name: &str, way: &str) -> Result<(), FileFault>
        ensures ok { OnOk result ((all : List Made) → made self.old name.now all → made self.new name.now (all ++ Made.Folder way.now ∷ [])) }
        ensures others { KeepsOutside (new_name name.now) (Self.held self.old) (Self.held self.new) };

    /// Makes a file of these bytes in the folder of a name, which is begun: where a way leads, as `/a/b`.
    fn make_file(
        &mut self,
        alloc: Global,
        name: &str,
        way: &str,
        bytes: &[u8],
    ) -> Result<(), FileFault>
        ensures ok { OnOk result ((all : List Made) → made self.old name.now all → made self.new name.now (all ++ Made.File way.now bytes.now ∷ [])) }
        ensures others { KeepsOutside (new_name name.now) (Self.held self.old) (Self.held self.new) };

    /// Gives the folder that is begun its name. Refused where something stands there by now; where that
    /// fails no folder has the name, and where it is `Unsynced` it is the new one.
    fn finish_folder(&mut self, alloc: Global, name: &str) -> Result<(), FileFault>
        ensures made { OnOk result ((all : List Made) → made self.old name.now all → made self.new name.now all) }
        ensures ok { OnOk result ((all : List Made) → made self.old name.now all → HoldsMade name.now (Self.held self.new) all) }
        ensures others { OnOk result (KeepsBeside name.now (Self.held self.old) (Self.held self.new)) }
        ensures err { IfErr result (LeavesFolder name.now (Self.held self.old) (Self.held self.new) (made self.old name.now)) };

    /// Gives up the folder of a name that is begun: what was made of it is removed again, as far as the
    /// host lets it go.
    fn give_up_folder(&mut self, alloc: Global, name: &str)
        ensures { KeepsOutside (new_name name.now) (Self.held self.old) (Self.held self.new) };
}
