//! An image is made of a folder of the host.
ghost use Rattle.std.specs.Prelude.{OnOk, IfOk, IfErr, map};
ghost use Rattle.host_interface.specs.Files.{KeepsOthers, ReadsBeside, readings_of};
ghost use Rattle.host_interface.specs.Sources.{source_found};
ghost use Rattle.image_words.specs.Creations.{CreateEnds, MakesEnd, IsFilled, UnfilledCause, sizes_of};

use crate::creation::{Creation, NewImage, sizes_of};
use flash_model::Geometry;
use flash_simulation::SimFlash;
use fs_types::Path;
use host_interface::{ImageFiles, Source, Sources};
use image_jobs::{Failure, claim, formatted_flash, save_image};
use image_sizes::changes_with_room;
use put_jobs::{Batch, Order, gather, put_on_flash};
use std::alloc::Global;
use std::io::Write;

/// Makes an image of a flash with an empty file system, into which all that stands in a folder of the host
/// is put as one version, in the place of what has the name, which is claimed first.
///
/// Where no blocks are asked for, they are as many as [`image_sizes::blocks_for`] says, and are told. Where so
/// many changes have no room on the most blocks there may be, it is told how many have
/// ([`image_sizes::changes_with_room`]).
pub fn create_image<F: ImageFiles + Sources, E: Write>(
    files: &mut F,
    alloc: Global,
    name: &str,
    creation: Creation<'_>,
    err: &mut E,
) -> Result<(), Failure>
    ensures ends { CreateEnds creation.entry.image creation.entry.skip_links name.now (ReadsBeside F.claims F.reads_source name.now) (F.held files.old) (F.held files.new) (F.gathered files.old creation.entry.folder.now name.now) result }
    ensures synced { OnOk result (F.synced files.new name.now) }
    ensures others { KeepsOthers name.now (F.held files.old) (F.held files.new) }
{
    let order = Order {
        file: creation.folder,
        path: "/",
        mirror: true,
        skip_links: creation.skip_links,
        progress: creation.progress,
    };
    let batch = match gather(files, alloc, name, Path::root(alloc), order, err) {
        Ok(batch) => batch,
        Err(failure) => return Err(failure),
    };
    match claim(files, alloc, name) {
        Ok(()) => make_image(
            files,
            alloc,
            name,
            creation.image,
            &batch,
            creation.progress,
            err,
        ),
        Err(failure) => Err(failure),
    }
}

/// Makes an image of sources, in the place of what has a claimed name.
fn make_image<F: ImageFiles, E: Write>(
    files: &mut F,
    alloc: Global,
    name: &str,
    image: NewImage,
    batch: &Batch,
    progress: bool,
    err: &mut E,
) -> Result<(), Failure>
    requires { F.claims files.old name.now }
    ensures ends { MakesEnd image name.now (ReadsBeside F.claims F.reads_source name.now) batch.now.base (map source_found batch.now.sources.items) (F.held files.old) (F.held files.new) result }
    ensures synced { OnOk result (F.synced files.new name.now) }
    ensures others { KeepsOthers name.now (F.held files.old) (F.held files.new) }
{
    match filled_flash(files, alloc, image, batch, progress, err) {
        Ok(flash) => save_image(files, alloc, name, &flash),
        Err(failure) => Err(failure),
    }
}

/// A new flash with a file system, into which sources are put.
fn filled_flash<F: ImageFiles, E: Write>(
    files: &F,
    alloc: Global,
    image: NewImage,
    batch: &Batch,
    progress: bool,
    err: &mut E,
) -> Result<SimFlash, Failure>
    ensures ok { IfOk result (IsFilled (sizes_of image (map source_found batch.now.sources.items)) image.history batch.now.base (map source_found batch.now.sources.items) (readings_of (F.held files.now) (F.reads_source files.now))) }
    ensures err { IfErr result (UnfilledCause (sizes_of image (map source_found batch.now.sources.items)) image.history batch.now.base (map source_found batch.now.sources.items) (readings_of (F.held files.now) (F.reads_source files.now))) }
{
    let sizes = sizes_of(image, &batch.sources);
    match formatted_flash(alloc, sizes, image.history) {
        Ok(flash) => {
            tell_chosen(image, sizes, &batch.sources, err);
            put_on_flash(files, alloc, flash, &[], batch, progress, err)
        }
        Err(failure) => Err(failure),
    }
}

/// Tells the sizes of an image whose number of blocks was not asked for, and how many changes of the largest
/// file have room, where not as many as are asked for.
fn tell_chosen<E: Write>(image: NewImage, sizes: Geometry, sources: &[Source], err: &mut E) {
    if image.blocks.is_none() {
        tell_sizes(sizes, err);
        tell_room(sizes, image.history, sources, err);
    }
}

/// Tells the sizes of an image that is made.
fn tell_sizes<E: Write>(sizes: Geometry, err: &mut E) {
    let Geometry {
        page,
        pages,
        blocks,
    } = sizes;
    let _ = writeln!(
        err,
        "uffs: {blocks} blocks of {pages} pages of {page} bytes"
    );
}

/// Tells how many changes of the largest file have room, where these are fewer than versions are kept.
fn tell_room<E: Write>(sizes: Geometry, history: u32, sources: &[Source], err: &mut E) {
    let changes = changes_with_room(sizes, history, sources);
    if changes < history {
        let _ = writeln!(
            err,
            "uffs: room for {changes} changes of the largest file, not for --history {history}"
        );
    }
}
