//! Things that are put, one after the other.
ghost use Rattle.std.specs.Prelude.{◌≡◌, IfOk, IfErr, option_map, vec_items};
ghost use Rattle.put_lots.specs.Things.{thing_events};

use flash_model::Geometry;
use fs_types::Event;
use host_interface::ImageFiles;
use image_jobs::Failure;
use job_messages::tell_refusal;
use put_lots::{Thing, events_of};
use script_runs::Refusal;
use std::alloc::Global;
use std::io::Write;

/// Things that are put, each in its turn.
pub(crate) trait Things<F: ImageFiles> {
    ghost use Rattle.std.specs.Prelude.{◌<◌, ℕ, List, [], IfOk, IfErr, IfSome, option_map, vec_items};
    ghost use Rattle.fs_types.specs.declared.event.Event.{Event};
    ghost use Rattle.image_jobs.specs.declared.failure.Failure.{Failure};
    ghost use Rattle.put_jobs.specs.Gives.{Ending, broken, begun, GivesNext};

    // These events remove what is removed first of the image of these bytes.
    ghost removes: { Self → List ℕ → List Event → Type 0 };

    // Why it is not known what is removed first.
    ghost unlisted: { Self → List ℕ → Failure → Type 0 };

    // With the files as they are, these events are given of what is left, and then it ends so.
    ghost gives: { F → Self → List Event → Ending → Type 0 };

    // At most so many calls give what is left.
    ghost calls: { Self → ℕ };

    /// The events that remove what is to be removed first of the image that bytes spell, if anything is.
    fn removed(&self, alloc: Global, image: &[u8]) -> Result<Vec<Event>, Failure>
        ensures ok { IfOk result (λ events. removes self.now image.now events.items) }
        ensures err { IfErr result (unlisted self.now image.now) };

    /// The events that put what comes next, if anything is left. There are none of what waits for that which
    /// comes after it. What is not had is told.
    fn next<E: Write>(
        &mut self,
        files: &F,
        alloc: Global,
        err: &mut E,
    ) -> Result<Option<Vec<Event>>, Failure>
        ensures ok { IfOk result (λ next. GivesNext (gives files.now self.old) (gives files.now self.new) (option_map vec_items next)) }
        ensures fewer { IfOk result (λ next. IfSome next (λ _. calls self.new < calls self.old)) }
        ensures err { IfErr result (λ failure. gives files.now self.old [] (broken failure)) };

    /// Tells that their change group is refused at its beginning or at its end.
    fn tell_group<E: Write>(
        &self,
        _alloc: Global,
        refusal: Refusal,
        _sizes: Geometry,
        err: &mut E,
    ) {
        tell_refusal(refusal, "", err);
    }

    /// How many blocks all of them want on a flash of these sizes, where that is told when it is full.
    fn blocks(&self, _sizes: Geometry) -> Option<u64> {
        None
    }

    // None of it may be given.
    ghost none_given: { (files : F) (s : Self) → gives files s [] begun };
}

/// The events that put a thing, if there is one.
pub(crate) fn next_events(
    alloc: Global,
    thing: Option<Thing>,
) -> Result<Option<Vec<Event>>, Failure>
    ensures ok { IfOk result (λ next. option_map vec_items next ≡ option_map thing_events thing) }
    ensures err { IfErr result (λ failure. failure ≡ Failure.Memory) }
{
    let Some(thing) = thing else {
        return Ok(None);
    };
    match events_of(alloc, thing) {
        Ok(events) => Ok(Some(events)),
        Err(_) => Err(Failure::Memory),
    }
}
