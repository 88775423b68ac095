//! Sources of the host, which are put as what is read of them: files that may go together at once.
ghost use Rattle.std.specs.Prelude.{◌≡◌, ◌+◌, ◌*◌, IfOk, IfErr, [], map, length, option_map, refl, vec_items};
ghost use Rattle.std.specs.List.{flat_map};
ghost use Rattle.host_interface.specs.Files.{readings_of};
ghost use Rattle.host_interface.specs.Sources.{source_found};
ghost use Rattle.image_jobs.specs.Images.{DecodeCause};
ghost use Rattle.put_jobs.specs.Batches.{kept_in};
ghost use Rattle.put_jobs.specs.Gives.{GivesSources};
ghost use Rattle.put_jobs.specs.Mirrors.{AreRemoved, UnlistedBy};
ghost use Rattle.put_jobs.specs.Puts.{IsThing, IsUnput};
ghost use Rattle.put_lots.specs.Lots.{listed, lots_from};
ghost use Rattle.put_lots.specs.Things.{thing_events};
ghost use Rattle.script_runs.specs.Flashes.{IsDecoded};

use crate::batch::Batch;
use crate::mirror::removed_from;
use crate::thing::thing_of;
use crate::things::{Things, next_events};
use flash_model::Geometry;
use fs_types::{Event, Path};
use host_interface::{ImageFiles, Source};
use image_jobs::Failure;
use image_sizes::tree_blocks;
use job_messages::tell_misplaced;
use put_lots::{Taken, Thing, take_in};
use std::alloc::Global;
use std::io::Write;

/// So many things are put between two lines that tell how far a put has come.
const THINGS_A_LINE: usize = 100;

/// Sources that are put below a path.
#[derive(Drop)]
pub(crate) struct SourceThings<'a> {
    batch: &'a Batch,
    /// Those that are not yet read.
    left: &'a [Source],
    /// What is read, and waits for what may go together with it.
    last: Option<Thing>,
    /// Whether it is told how far the put has come, and whether more of it is put than was told last.
    progress: bool,
    is_new: bool,
}

impl<'a> SourceThings<'a> {
    /// All sources of a batch.
    pub(crate) fn of(batch: &'a Batch, progress: bool) -> SourceThings<'a>
        ensures batch { result.batch.now ≡ batch.now }
        ensures left { result.left.now ≡ batch.now.sources.items }
        ensures last { result.last ≡ None }
    {
        SourceThings {
            batch,
            left: batch.sources.as_slice(),
            last: None,
            progress,
            is_new: false,
        }
    }

    /// Tells how many of how many things are put, for each [`THINGS_A_LINE`] of them and for the last.
    fn tell_progress<E: Write>(&self, err: &mut E) {
        let all = self.batch.sources.len();
        let done = all.saturating_sub(self.left.len());
        if self.progress && self.is_new && (done % THINGS_A_LINE == 0 || done == all) {
            let _ = writeln!(err, "uffs: {done} of {all}");
        }
    }
}

impl<'a, F: ImageFiles> Things<F> for SourceThings<'a> {
    ghost removes = { λ s image removed. AreRemoved (IsDecoded image) s.batch.now.base (kept_in s.batch.now) removed };

    ghost unlisted = { λ s image failure. UnlistedBy (IsDecoded image) (DecodeCause image) (kept_in s.batch.now) failure };

    ghost gives = { λ files s. GivesSources (readings_of (F.held files) (F.reads_source files)) s.batch.now.base (map source_found s.left.now) s.last };

    ghost calls = { λ s. 2 * length s.left.now + length (listed s.last) };

    fn removed(&self, alloc: Global, image: &[u8]) -> Result<Vec<Event>, Failure> {
        removed_from(alloc, image, self.batch)
    }

    fn next<E: Write>(
        &mut self,
        files: &F,
        alloc: Global,
        err: &mut E,
    ) -> Result<Option<Vec<Event>>, Failure> {
        self.tell_progress(err);
        self.is_new = false;
        let last = self.last.take();
        let Some((source, left)) = self.left.split_first() else {
            return next_events(alloc, last);
        };
        let thing = match told_thing(files, alloc, &self.batch.base, source, err) {
            Ok(thing) => thing,
            Err(failure) => return Err(failure),
        };
        let Taken { ready, last } = match take_in(alloc, last, thing) {
            Ok(taken) => taken,
            Err(_) => return Err(Failure::Memory),
        };
        self.left = left;
        self.last = Some(last);
        self.is_new = true;
        ready_events(alloc, ready)
    }

    fn blocks(&self, sizes: Geometry) -> Option<u64> {
        let below = tree_blocks(sizes, &self.batch.sources);
        Some(below.saturating_add(self.batch.base.names().len() as u64))
    }

    ghost none_given = { λ files s. ([], map source_found s.left.now, [], flat_map thing_events (lots_from s.last []), refl, tt, refl) };
}

/// What a source is put as, below a path. One that is not put is told.
fn told_thing<F: ImageFiles, E: Write>(
    files: &F,
    alloc: Global,
    base: &Path,
    source: &Source,
    err: &mut E,
) -> Result<Thing, Failure>
    ensures ok { IfOk result (IsThing (readings_of (F.held files.now) (F.reads_source files.now)) base.now (source_found source.now)) }
    ensures err { IfErr result (IsUnput (F.held files.now) base.now (source_found source.now)) }
{
    match thing_of(files, alloc, base, source) {
        Ok(thing) => Ok(thing),
        Err(failure) => {
            tell_misplaced(files, failure, source, err);
            Err(failure)
        }
    }
}

/// The events that put what is ready, none where nothing is.
fn ready_events(alloc: Global, ready: Option<Thing>) -> Result<Option<Vec<Event>>, Failure>
    ensures ok { IfOk result (λ next. option_map vec_items next ≡ Some (flat_map thing_events (listed ready))) }
    ensures err { IfErr result (λ failure. failure ≡ Failure.Memory) }
{
    match ready {
        Some(thing) => next_events(alloc, Some(thing)),
        None => Ok(Some(Vec::new(alloc))),
    }
}
