//! Files of the host are put into an image.
ghost use Rattle.std.specs.Prelude.{◌≡◌, ◌⊎◌, false, List, IfSome, IfOk, OnOk, IfErr, map};
ghost use Rattle.host_interface.specs.Files.{KeepsOthers, KeepsOrSyncs, ReadsClaimed, ReadsBeside, readings_of, takes_away};
ghost use Rattle.host_interface.specs.Sources.{Found, source_found};
ghost use Rattle.image_jobs.specs.PathWords.{path_spelled, SpellingCause};
ghost use Rattle.put_jobs.specs.Batches.{IsBatch};
ghost use Rattle.put_jobs.specs.Mirrors.{wants_folder};
ghost use Rattle.put_jobs.specs.Places.{AreOthers, IsMisplaced};
ghost use Rattle.put_jobs.specs.Puts.{Is, IsNever, PutsBy, PutCause, PlaceCause, FoundCause};
ghost use Rattle.put_jobs.specs.Putting.{PutEnds};

use crate::batch::{Batch, batch_of};
use crate::place::place_of;
use crate::putting::{put_into, run};
use crate::source_things::SourceThings;
use flash_simulation::SimFlash;
use fs_types::{Event, Path};
use host_interface::{ImageFiles, Source, Sources, takes_away};
use image_jobs::{Failure, SourceFault, path_of_word};
use job_messages::{tell_misplaced, tell_refusal};
use std::alloc::Global;
use std::io::Write;

/// What is to be put.
#[derive(Clone, Copy)]
pub struct Order<'a> {
    /// The name of the host.
    pub file: &'a str,
    /// The word that spells the path.
    pub path: &'a str,
    /// Whether what stands below the path and is not put is removed.
    pub mirror: bool,
    /// Whether links are left out.
    pub skip_links: bool,
    /// Whether progress is told.
    pub progress: bool,
}

/// Puts all that stands at a name of the host into an image, which is claimed then, as one version, but
/// for what is left out. The image is written back where all of it was put.
pub fn put_into_image<F: ImageFiles + Sources, E: Write>(
    files: &mut F,
    alloc: Global,
    name: &str,
    order: Order<'_>,
    err: &mut E,
) -> Result<(), Failure>
    ensures ends { PutEnds order.entry.mirror order.entry.skip_links name.now order.entry.path.now (ReadsClaimed F.claims F.reads name.now) (ReadsBeside F.claims F.reads_source name.now) (F.held files.old) (F.held files.new) (F.gathered files.old order.entry.file.now name.now) result }
    ensures synced { OnOk result (KeepsOrSyncs (F.held files.old) (F.held files.new) (F.synced files.new name.now)) }
    ensures others { KeepsOthers name.now (F.held files.old) (F.held files.new) }
{
    let base = match told_path(alloc, order.path, err) {
        Ok(base) => base,
        Err(failure) => return Err(failure),
    };
    let batch = match gather(files, alloc, name, base, order, err) {
        Ok(batch) => batch,
        Err(failure) => return Err(failure),
    };
    let mut sources = SourceThings::of(&batch, order.progress);
    put_into(files, alloc, name, &mut sources, err)
}

/// The path that a word spells. A refused one is told.
pub fn told_path<E: Write>(alloc: Global, word: &str, err: &mut E) -> Result<Path, Failure>
    ensures ok { IfOk result (λ path. path_spelled word.now ≡ Ok path) }
    ensures err { IfErr result (SpellingCause word.now) }
{
    match path_of_word(alloc, word) {
        Ok(path) => Ok(path),
        Err(failure) => {
            tell_path(failure, word, err);
            Err(failure)
        }
    }
}

/// Tells that a word is refused that is to spell a path.
fn tell_path<E: Write>(failure: Failure, word: &str, err: &mut E) {
    if let Failure::Refused(refusal) = failure {
        tell_refusal(refusal, word, err);
    }
}

/// All that stands at a name of the host, but for what is left out, where each has a place below a path.
pub fn gather<F: ImageFiles + Sources, E: Write>(
    files: &F,
    alloc: Global,
    image: &str,
    base: Path,
    order: Order<'_>,
    err: &mut E,
) -> Result<Batch, Failure>
    ensures ok { IfOk result (λ batch. (all : List Found) × IfSome (F.gathered files.now order.entry.file.now image.now) (λ found. all ≡ found) × IsBatch order.entry.mirror order.entry.skip_links base all batch) }
    ensures others { IfOk result (λ batch. AreOthers image.now (map source_found batch.sources.items)) }
    ensures err { IfErr result (λ failure. (failure ≡ Failure.Memory) ⊎ ((all : List Found) × IfSome (F.gathered files.now order.entry.file.now image.now) (λ found. all ≡ found)
        × FoundCause (wants_folder order.entry.mirror order.entry.skip_links) order.entry.skip_links image.now base all failure)) }
{
    let found = match files.gather(alloc, order.file, image) {
        Ok(found) => found,
        Err(_) => return Err(Failure::Memory),
    };
    let batch = match batch_of(alloc, base, order, found, err) {
        Ok(batch) => batch,
        Err(failure) => return Err(failure),
    };
    match check_places(files, alloc, image, &batch.base, &batch.sources, err) {
        Ok(()) => Ok(batch),
        Err(failure) => Err(failure),
    }
}

/// Whether each source has a place below a path and is not the image's own. Which one has none, or is,
/// is told.
fn check_places<F: ImageFiles, E: Write>(
    files: &F,
    alloc: Global,
    image: &str,
    base: &Path,
    sources: &[Source],
    err: &mut E,
) -> Result<(), Failure>
    ensures others { OnOk result (AreOthers image.now (map source_found sources.now)) }
    ensures err { IfErr result (PlaceCause image.now base.now (map source_found sources.now)) }
{
    for source in sources {
        match check_place(alloc, image, base, source) {
            Ok(()) => {}
            Err(failure) => {
                tell_misplaced(files, failure, source, err);
                return Err(failure);
            }
        }
    }
    Ok(())
}

/// Whether a source has a place below a path, and is not the image's own by its name.
fn check_place(alloc: Global, image: &str, base: &Path, source: &Source) -> Result<(), Failure>
    ensures ok { OnOk result (takes_away image.now (source_found source.now).name ≡ false) }
    ensures err { IfErr result (IsMisplaced image.now base.now (source_found source.now)) }
{
    match takes_away(alloc, image, &source.name) {
        Ok(false) => {}
        Ok(true) => return Err(Failure::Source(SourceFault::Image)),
        Err(_) => return Err(Failure::Memory),
    }
    match place_of(alloc, base, source) {
        Ok(_) => Ok(()),
        Err(failure) => Err(failure),
    }
}

/// Removes and puts sources on a flash, as one version, and gives the flash as it is left.
pub fn put_on_flash<F: ImageFiles, E: Write>(
    files: &F,
    alloc: Global,
    flash: SimFlash,
    removed: &[Event],
    batch: &Batch,
    progress: bool,
    err: &mut E,
) -> Result<SimFlash, Failure>
    ensures ok { IfOk result (λ end. PutsBy (Is flash) removed.now (readings_of (F.held files.now) (F.reads_source files.now)) batch.now.base (map source_found batch.now.sources.items) flash end) }
    ensures err { IfErr result (PutCause (Is flash) IsNever removed.now (readings_of (F.held files.now) (F.reads_source files.now)) batch.now.base (map source_found batch.now.sources.items)) }
{
    let mut sources = SourceThings::of(batch, progress);
    run(files, alloc, flash, removed, &mut sources, err)
}
