//! What each version and each checkpoint keeps.
ghost use Rattle.std.specs.Prelude.{◌≡◌, ℕ, ◌+◌, ◌<◌, ◌≤◌, false, Some, None, length, reverse, slice_get, slice_index, EachIndex, IfOk, IfErr};
ghost use Rattle.fs_types.specs.declared.call.Call.{Call};
ghost use Rattle.fs_types.specs.declared.call.Reply.{Reply};
ghost use Rattle.flash_model.specs.Device.{Device};
ghost use Rattle.node_store.specs.NodePages.{node_of};
ghost use Rattle.mounting.specs.Costs.{AsksEach};
ghost use Rattle.mounting.specs.Records.{working_roots};
ghost use Rattle.tree_counts.specs.FirstRoots.{AreFirstRoots};
ghost use Rattle.working_state.specs.Moments.{moment};
ghost use Rattle.working_state.specs.Mounted.{IsMounted};
ghost use Rattle.working_state.specs.Seen.{seen_on};
ghost use Rattle.working_state.specs.Steps.{replied};
ghost use Rattle.working_state.specs.Worked.{IsLooked, ReadCause};
ghost use Rattle.system.specs.HistorySpace.{Looks};
ghost use Rattle.system.specs.Steps.{SystemStep};
ghost use Rattle.system.specs.Systems.{IsSystem};
ghost use Rattle.system.specs.VersionSpace.{AreEnds, AsksTwice, FitEnds, Frees, IsHistorySpace, IsVersionSpace, KeepsAlone, TellsHistorySpace};

use crate::history_space::list_newest_first;
use crate::systems::System;
use flash_model::Flash;
use fs_types::{Fault, Sequence};
use mounting::{first_roots_on, list_working};
use std::alloc::{AllocError, Global};
use tree_counts::{count_alone, count_freed};
use working_state::State;

/// What a version keeps, in blocks that are not bad.
#[derive(Clone, Copy, Debug, PartialEq, Eq, Drop)]
pub struct VersionSpace {
    /// How many blocks more are free, as `df` shows it, once this version and those before it are
    /// forgotten; none of the present version and of those after it.
    pub frees: Option<u64>,
    /// How many blocks this version reaches, and no other version, no checkpoint and no change group.
    pub alone: u64,
}

/// What the versions and checkpoints keep.
#[derive(Debug, Drop)]
pub struct HistorySpace {
    /// Of the versions, the oldest first.
    pub versions: Sequence<VersionSpace>,
    /// How many blocks each checkpoint reaches and nothing else does, in the order of their names.
    pub checkpoints: Sequence<u64>,
}

/// Of each block the number of the first root that reaches it: of the versions, the oldest first, of the
/// checkpoints and the group; and of the same from the last one on. There are so many roots.
#[derive(Drop)]
pub(crate) struct Ends {
    pub(crate) firsts: Vec<u8>,
    pub(crate) lasts: Vec<u8>,
    pub(crate) roots: u8,
}

impl System {
    /// What each version and each checkpoint keeps, and what it frees to forget the versions up to one.
    /// The nodes that are reached are read twice. A change group that is open counts as one version more.
    ///
    /// [`Fault::PowerCut`] where a call answered that before; [`Fault::ReadFailed`], [`Fault::PowerCut`],
    /// [`Fault::NoMemory`].
    pub fn space_by_version<F: Flash>(
        &mut self,
        alloc: Global,
        flash: &mut F,
    ) -> Result<HistorySpace, Fault>
        requires { IsSystem (F.device flash.old) self.old }
        ensures system { IsSystem (F.device flash.new) self.new }
        ensures tells { TellsHistorySpace (F.device flash.old) self.old result (F.device flash.new) self.new }
        ensures asks { AsksTwice (F.device flash.old) (working_roots self.old.state) (F.device flash.new) }
    {
        self.state.check_power()?;
        self.look_at_space(alloc, flash)
    }

    /// The same, where no call answered before that the power is off.
    fn look_at_space<F: Flash>(
        &mut self,
        alloc: Global,
        flash: &mut F,
    ) -> Result<HistorySpace, Fault>
        requires system { IsSystem (F.device flash.old) self.old }
        requires is_on { self.old.state.is_off ≡ false }
        ensures system { IsSystem (F.device flash.new) self.new }
        ensures looks { Looks (F.device flash.old) self.old result (F.device flash.new) self.new }
        ensures told { IfOk result (IsHistorySpace (F.device flash.new) self.new.state) }
        ensures why { IfErr result (λ fault. ReadCause (seen_on (F.device flash.old) self.old.state) fault (seen_on (F.device flash.new) self.new.state)) }
        ensures asks { AsksTwice (F.device flash.old) (working_roots self.old.state) (F.device flash.new) }
        ensures as_df { (reply : Reply) × SystemStep (F.device flash.old) self.old Call.Df (replied (λ space. reply) result) (F.device flash.new) self.new }
    {
        let space = find_space(&mut self.state, alloc, flash);
        self.state.remember_cut(space)
    }
}

/// The same, of the working state.
fn find_space<F: Flash>(
    state: &mut State,
    alloc: Global,
    flash: &mut F,
) -> Result<HistorySpace, Fault>
    requires { IsMounted (F.device flash.old) state.old }
    ensures looked { IsLooked (moment (F.device flash.old) state.old) (moment (F.device flash.new) state.new) }
    ensures told { IfOk result (IsHistorySpace (F.device flash.new) state.new) }
    ensures why { IfErr result (λ fault. ReadCause (seen_on (F.device flash.old) state.old) fault (seen_on (F.device flash.new) state.new)) }
    ensures asks { AsksTwice (F.device flash.old) (working_roots state.old) (F.device flash.new) }
{
    let ends = find_ends(state, alloc, flash)?;
    Ok(tell_space(alloc, state, &ends)?)
}

/// The first root that reaches each block, from either end of the roots.
fn find_ends<F: Flash>(state: &mut State, alloc: Global, flash: &mut F) -> Result<Ends, Fault>
    requires { IsMounted (F.device flash.old) state.old }

    // The numbers.
    ensures fit { IfOk result (FitEnds state.new) }
    ensures ends { IfOk result (AreEnds (F.device flash.new) state.new) }

    // By reads alone, and how many.
    ensures looked { IsLooked (moment (F.device flash.old) state.old) (moment (F.device flash.new) state.new) }
    ensures why { IfErr result (λ fault. ReadCause (seen_on (F.device flash.old) state.old) fault (seen_on (F.device flash.new) state.new)) }
    ensures asks { AsksTwice (F.device flash.old) (working_roots state.old) (F.device flash.new) }
{
    let lasts = find_lasts(state, alloc, flash)?;
    let firsts = find_firsts(state, alloc, flash)?;
    Ok(Ends {
        firsts,
        lasts,
        roots: count_roots(state),
    })
}

/// The first root that reaches each block, of the roots from the last one on.
fn find_lasts<F: Flash>(state: &mut State, alloc: Global, flash: &mut F) -> Result<Vec<u8>, Fault>
    requires { IsMounted (F.device flash.old) state.old }
    ensures sized { IfOk result (λ lasts. length lasts.items ≡ state.old.storage.ring.blocks) }
    ensures lasts { IfOk result (λ lasts. AreFirstRoots (node_of (F.device flash.old)) (reverse (working_roots state.old)) lasts.items) }
    ensures looked { IsLooked (moment (F.device flash.old) state.old) (moment (F.device flash.new) state.new) }
    ensures why { IfErr result (λ fault. ReadCause (seen_on (F.device flash.old) state.old) fault (seen_on (F.device flash.new) state.new)) }
    ensures asks { AsksEach (F.device flash.old) (working_roots state.old) (F.device flash.new) }
{
    let roots = list_newest_first(alloc, state)?;
    first_roots_on(alloc, flash, &mut state.storage, &roots)
}

/// The first root that reaches each block.
fn find_firsts<F: Flash>(state: &mut State, alloc: Global, flash: &mut F) -> Result<Vec<u8>, Fault>
    requires { IsMounted (F.device flash.old) state.old }
    ensures sized { IfOk result (λ firsts. length firsts.items ≡ state.old.storage.ring.blocks) }
    ensures firsts { IfOk result (λ firsts. AreFirstRoots (node_of (F.device flash.old)) (working_roots state.old) firsts.items) }
    ensures looked { IsLooked (moment (F.device flash.old) state.old) (moment (F.device flash.new) state.new) }
    ensures why { IfErr result (λ fault. ReadCause (seen_on (F.device flash.old) state.old) fault (seen_on (F.device flash.new) state.new)) }
    ensures asks { AsksEach (F.device flash.old) (working_roots state.old) (F.device flash.new) }
{
    let roots = list_working(alloc, state)?;
    // There are 128 versions at most, as their contract tells.
    let _versions = state.history.versions();
    first_roots_on(alloc, flash, &mut state.storage, &roots)
}

/// How many roots a state has: of its versions, of its checkpoints, and of its group.
fn count_roots(state: &State) -> u8
    ensures { result ≡ length (working_roots state.now) }
{
    let versions = state.history.versions().len();
    let checkpoints = state.history.checkpoints().len();
    (versions + checkpoints + usize::from(state.group.is_some())) as u8
}

/// What the versions and checkpoints keep, by the first root that reaches each block.
fn tell_space(alloc: Global, state: &State, ends: &Ends) -> Result<HistorySpace, AllocError>
    requires { FitEnds state.now ends.now }
    ensures { IfOk result (λ space. (d : Device) → IsMounted d state.now → AreEnds d state.now ends.now → IsHistorySpace d state.now space) }
{
    Ok(HistorySpace {
        versions: tell_versions(alloc, state, ends)?,
        checkpoints: tell_checkpoints(alloc, state, ends)?,
    })
}

/// What each version keeps.
fn tell_versions(
    alloc: Global,
    state: &State,
    ends: &Ends,
) -> Result<Sequence<VersionSpace>, AllocError>
    requires { FitEnds state.now ends.now }
    ensures all { IfOk result (λ versions. length versions ≡ length state.now.history.versions) }
    ensures each { IfOk result (λ versions. (d : Device) → IsMounted d state.now → AreEnds d state.now ends.now → (place : ℕ) (version : VersionSpace) → slice_get versions place ≡ Some version → IsVersionSpace d state.now place version) }
{
    let mut versions = Vec::new(alloc);
    for place in 0..state.history.versions().len() as u8 {
        versions.push(tell_version(state, ends, place))?;
    }
    Ok(Sequence::from_vec(versions))
}

/// What the version at a place keeps.
fn tell_version(state: &State, ends: &Ends, place: u8) -> VersionSpace
    requires fit { FitEnds state.now ends.now }
    requires place { place < length state.now.history.versions }
    ensures { (d : Device) → IsMounted d state.now → AreEnds d state.now ends.now → IsVersionSpace d state.now place result }
{
    VersionSpace {
        frees: frees_of(state, ends, place),
        alone: alone_at(state, ends, place),
    }
}

/// How many blocks more are free once the version at a place and those before it are forgotten, where
/// that may be.
fn frees_of(state: &State, ends: &Ends, place: u8) -> Option<u64>
    requires fit { FitEnds state.now ends.now }
    requires place { place < length state.now.history.versions }
    ensures before { (d : Device) → IsMounted d state.now → AreEnds d state.now ends.now → place < state.now.history.cursor → (frees : ℕ) × (result ≡ Some frees) × Frees d state.now (place + 1) frees }
    ensures from { state.now.history.cursor ≤ place → result ≡ None }
{
    if state.history.cursor() <= usize::from(place) {
        return None;
    }
    Some(frees_up_to(state, ends, place))
}

/// The same, where it may be.
fn frees_up_to(state: &State, ends: &Ends, place: u8) -> u64
    requires fit { FitEnds state.now ends.now }
    requires place { place < length state.now.history.versions }
    ensures { (d : Device) → IsMounted d state.now → AreEnds d state.now ends.now → Frees d state.now (place + 1) result }
{
    let blocks = state.storage.ring.blocks();
    let left = ends.roots - (place + 1);
    u64::from(count_freed(blocks, &ends.lasts, &state.storage.bad, left))
}

/// How many blocks the root at a place keeps alone.
fn alone_at(state: &State, ends: &Ends, place: u8) -> u64
    requires fit { FitEnds state.now ends.now }
    requires place { place < ends.now.roots }
    ensures { (d : Device) → IsMounted d state.now → AreEnds d state.now ends.now → KeepsAlone d state.now place result }
{
    let blocks = state.storage.ring.blocks();
    let bad = &state.storage.bad;
    u64::from(count_alone(blocks, &ends.firsts, &ends.lasts, bad, place, ends.roots))
}

/// How many blocks each checkpoint keeps alone.
fn tell_checkpoints(alloc: Global, state: &State, ends: &Ends) -> Result<Sequence<u64>, AllocError>
    requires { FitEnds state.now ends.now }
    ensures all { IfOk result (λ checkpoints. length checkpoints ≡ length state.now.history.checkpoints) }
    ensures each { IfOk result (λ checkpoints. (d : Device) → IsMounted d state.now → AreEnds d state.now ends.now → EachIndex checkpoints (λ k. KeepsAlone d state.now (length state.now.history.versions + k) (slice_index checkpoints k))) }
{
    let versions = state.history.versions().len();
    let all = versions + state.history.checkpoints().len();
    let mut checkpoints = Vec::new(alloc);
    for place in versions..all {
        checkpoints.push(alone_at(state, ends, place as u8))?;
    }
    Ok(Sequence::from_vec(checkpoints))
}
