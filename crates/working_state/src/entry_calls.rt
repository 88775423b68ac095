//! The entries of a directory with what stands at each, on the working state and the flash.
ghost use Rattle.std.specs.Prelude.{◌≡◌, false, None, Some, List, length, map, IfOk, IfErr, IsErrOf};
ghost use Rattle.std.specs.Option.{option_copied};
ghost use Rattle.fs_types.specs.declared.call.Call.{Call};
ghost use Rattle.fs_types.specs.declared.call.Reply.{Reply};
ghost use Rattle.fs_types.specs.declared.fault.Fault.TheVariants.{Damaged};
ghost use Rattle.node_format.specs.Items.{Item};
ghost use Rattle.node_store.specs.Faults.{IsLookFault, IsReadFault};
ghost use Rattle.node_store.specs.NodePages.{node_of};
ghost use Rattle.nodes.specs.Chains.{chain};
ghost use Rattle.nodes.specs.Trees.{entries_in};
ghost use Rattle.directory.specs.Lookups.{is_path_fault};
ghost use Rattle.directory.specs.Places as places;
ghost use Rattle.working_state.specs.Looking.{AsksBlocks, AsksFirsts};
ghost use Rattle.working_state.specs.Mounted.{IsMounted};
ghost use Rattle.working_state.specs.Steps.{replied};
ghost use Rattle.working_state.specs.Worked.{IsLooked, WorkCause};
ghost use Rattle.working_state.specs.Moments.{IsAnswered, moment, seen_at};

use crate::lookups::find_path;
use crate::state::State;
use directory::{Found, places_after, stats};
use flash_model::Flash;
use fs_types::{Fault, Name, Path, Sequence, Stat, View};
use node_format::Place;
use node_store::Store;
use std::alloc::Global;

impl State {
    /// The first `most` entries of a directory of the tree that a view shows that come after a name,
    /// each with what stands there.
    pub(crate) fn entries_view<F: Flash>(
        &mut self,
        alloc: Global,
        flash: &mut F,
        view: &View,
        path: &Path,
        from: Option<&Name>,
        most: u64,
    ) -> Result<Sequence<(Name, Stat)>, Fault>
        requires { IsMounted (F.device flash.old) self.old }
        ensures { IsAnswered (moment (F.device flash.old) self.old) (Call.Entries view.now path.now (option_copied from.entry) most) (replied Reply.Entries result) (moment (F.device flash.new) self.new) }
    {
        let root = self.seen(view)?;
        let (found, _trail) = find_path(flash, &mut self.storage, root, path)?;
        match found {
            Found::Missing { .. } => Err(Fault::NoEntry),
            Found::File { .. } => Err(Fault::NotDirectory),
            Found::Dir { block } => {
                let places = self.places_in(alloc, flash, block, from, most)?;
                self.stats_at(alloc, flash, places.as_slice())
            }
        }
    }

    /// The first `most` entries of the directory that begins in a block that come after a name, each
    /// with its place.
    fn places_in<F: Flash>(
        &mut self,
        alloc: Global,
        flash: &mut F,
        block: u32,
        from: Option<&Name>,
        most: u64,
    ) -> Result<Sequence<(Name, Place)>, Fault>
        requires { IsMounted (F.device flash.old) self.old }

        // Nodes were read alone, and how many.
        ensures looked { IsLooked (moment (F.device flash.old) self.old) (moment (F.device flash.new) self.new) }
        ensures asks { AsksBlocks (F.device flash.old) (length (chain (node_of (F.device flash.old)) block)) (F.device flash.new) }
        ensures nodes { node_of (F.device flash.new) ≡ node_of (F.device flash.old) }

        // What was found, and why not.
        ensures places { IfOk result (λ found. (items : List Item) → entries_in (node_of (F.device flash.old)) block ≡ Some items → found ≡ places.places_after (option_copied from.entry) most items) }
        ensures damaged { IsErrOf result Damaged → entries_in (node_of (F.device flash.old)) block ≡ None }
        ensures why { IfErr result (λ fault. is_path_fault fault ≡ false → WorkCause (seen_at (moment (F.device flash.old) self.old)) fault (seen_at (moment (F.device flash.new) self.new))) }
        ensures faults { IfErr result IsReadFault }
    {
        let mut store = Store::new(flash, &mut self.storage);
        places_after(alloc, &mut store, block, from, most)
    }

    /// Names, each with what stands at its place.
    fn stats_at<F: Flash>(
        &mut self,
        alloc: Global,
        flash: &mut F,
        entries: &[(Name, Place)],
    ) -> Result<Sequence<(Name, Stat)>, Fault>
        requires mounted { IsMounted (F.device flash.old) self.old }
        requires begin { places.AllBegin (node_of (F.device flash.old)) entries.now }

        // First pages were read alone, and how many.
        ensures looked { IsLooked (moment (F.device flash.old) self.old) (moment (F.device flash.new) self.new) }
        ensures asks { AsksFirsts (F.device flash.old) (places.nodes_of_all (node_of (F.device flash.old)) entries.now) (F.device flash.new) }

        // What stands there, and why not.
        ensures stats { IfOk result (λ told. told ≡ map (places.with_stat (node_of (F.device flash.old))) entries.now) }
        ensures why { IfErr result (λ fault. WorkCause (seen_at (moment (F.device flash.old) self.old)) fault (seen_at (moment (F.device flash.new) self.new))) }
        ensures faults { IfErr result IsLookFault }
    {
        let mut store = Store::new(flash, &mut self.storage);
        stats(alloc, &mut store, entries)
    }
}
