//! Paths looked up on the flash.
ghost use Rattle.std.specs.Prelude.{◌≡◌, true, false, Some, None, Ok, Err, IfOk, IfErr, IsErrOf, MatchResult};
ghost use Rattle.history_machine.specs.History.{view_refusal, seen_root};
ghost use Rattle.node_store.specs.NodePages.{node_of};
ghost use Rattle.fs_types.specs.declared.fault.Fault.TheVariants.{Damaged};
ghost use Rattle.node_store.specs.Faults.{IsReadFault};
ghost use Rattle.directory.specs.Lookups as spec;
ghost use Rattle.directory.specs.Seeking.{place_in};
ghost use Rattle.directory.specs.Lookups.{look_up, way_nodes, is_path_fault, IsLookupFault, LeadsToDirectories};
ghost use Rattle.directory.specs.Beside.{beside_nodes};
ghost use Rattle.directory.specs.Trails.{IsTrail};
ghost use Rattle.working_state.specs.Changes.{IsReady};
ghost use Rattle.working_state.specs.Leaves.{HasLooked};
ghost use Rattle.working_state.specs.Looking.{AsksBlocks};
ghost use Rattle.working_state.specs.Seen.{seen_of};
ghost use Rattle.working_state.specs.Worked.{WorkCause};

use crate::state::State;
use directory::{Found, Trail, find, find_beside, found_in};
use flash_model::Flash;
use fs_types::{Fault, Name, Path, View};
use node_store::{Storage, Store};

impl State {
    /// The root of the tree that a view shows; the refusal of the view, where it is not there.
    pub fn seen(&self, view: &View) -> Result<u32, Fault>
        ensures { MatchResult result (λ root. (view_refusal self.now.history view.now ≡ None) × (seen_root self.now.history self.now.group view.now ≡ Some root))
            (λ fault. view_refusal self.now.history view.now ≡ Some fault) }
    {
        match view {
            View::Present => Ok(self.root()),
            _ => Ok(*self.history.find(view)?),
        }
    }
}

/// What a path below a root leads to, and the directories that it goes through.
pub(crate) fn find_path<F: Flash>(
    flash: &mut F,
    storage: &mut Storage,
    root: u32,
    path: &Path,
) -> Result<(Found, Trail), Fault>
    requires { IsReady (F.device flash.old) storage.old }

    // Nodes were read alone, and how many.
    ensures looked { HasLooked (F.device flash.old) storage.old (F.device flash.new) storage.new }
    ensures asks { AsksBlocks (F.device flash.old) (way_nodes (node_of (F.device flash.old)) root path.now) (F.device flash.new) }
    ensures nodes { node_of (F.device flash.new) ≡ node_of (F.device flash.old) }

    // What was found.
    ensures found { IfOk result (λ r. look_up (node_of (F.device flash.old)) root path.now ≡ Ok r.0) }
    ensures trail { LeadsToDirectories (node_of (F.device flash.old)) root → IfOk result (λ r. IsTrail (node_of (F.device flash.old)) root path.now r.1) }

    // Why not.
    ensures refused { IfErr result (λ fault. is_path_fault fault ≡ true → look_up (node_of (F.device flash.old)) root path.now ≡ Err fault) }
    ensures why { IfErr result (λ fault. is_path_fault fault ≡ false → WorkCause (seen_of (F.device flash.old) storage.old) fault (seen_of (F.device flash.new) storage.new)) }
    ensures faults { IfErr result IsLookupFault }
{
    let mut store = Store::new(flash, storage);
    find(&mut store, root, path)
}

/// The same, where another path was looked up before: no node is read again of the directories that
/// both paths go through, but of the one where they part.
pub(crate) fn find_path_beside<F: Flash>(
    flash: &mut F,
    storage: &mut Storage,
    root: u32,
    other: &Path,
    other_trail: &Trail,
    path: &Path,
) -> Result<(Found, Trail), Fault>
    requires ready { IsReady (F.device flash.old) storage.old }
    requires way { IsTrail (node_of (F.device flash.old)) root other.now other_trail.now }

    // Nodes were read alone, and how many.
    ensures looked { HasLooked (F.device flash.old) storage.old (F.device flash.new) storage.new }
    ensures asks { AsksBlocks (F.device flash.old) (beside_nodes (node_of (F.device flash.old)) root other.now other_trail.now path.now) (F.device flash.new) }
    ensures nodes { node_of (F.device flash.new) ≡ node_of (F.device flash.old) }

    // What was found.
    ensures found { IfOk result (λ r. look_up (node_of (F.device flash.old)) root path.now ≡ Ok r.0) }
    ensures trail { LeadsToDirectories (node_of (F.device flash.old)) root → IfOk result (λ r. IsTrail (node_of (F.device flash.old)) root path.now r.1) }

    // Why not.
    ensures refused { IfErr result (λ fault. is_path_fault fault ≡ true → look_up (node_of (F.device flash.old)) root path.now ≡ Err fault) }
    ensures why { IfErr result (λ fault. is_path_fault fault ≡ false → WorkCause (seen_of (F.device flash.old) storage.old) fault (seen_of (F.device flash.new) storage.new)) }
    ensures faults { IfErr result IsLookupFault }
{
    let mut store = Store::new(flash, storage);
    find_beside(&mut store, root, other, other_trail, path)
}

/// What a name leads to in the directory that begins in a block.
pub(crate) fn find_in<F: Flash>(
    flash: &mut F,
    storage: &mut Storage,
    block: u32,
    name: &Name,
) -> Result<Found, Fault>
    requires { IsReady (F.device flash.old) storage.old }

    // Nodes were read alone.
    ensures looked { HasLooked (F.device flash.old) storage.old (F.device flash.new) storage.new }
    ensures nodes { node_of (F.device flash.new) ≡ node_of (F.device flash.old) }

    // What was found, and why not.
    ensures found { IfOk result (λ found. spec.found_in (node_of (F.device flash.old)) name.now block ≡ Ok found) }
    ensures damaged { IsErrOf result Damaged → place_in (node_of (F.device flash.old)) name.now block ≡ Err Damaged }
    ensures why { IfErr result (λ fault. is_path_fault fault ≡ false → WorkCause (seen_of (F.device flash.old) storage.old) fault (seen_of (F.device flash.new) storage.new)) }
    ensures faults { IfErr result IsReadFault }
{
    let mut store = Store::new(flash, storage);
    found_in(&mut store, block, name)
}
