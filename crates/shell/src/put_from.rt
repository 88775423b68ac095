//! Files of the host, or the input, for an image.
ghost use Rattle.std.specs.Prelude.{◌≡◌, ℕ, Option, List};
ghost use Rattle.host_interface.specs.Files.{ReadsClaimed, ReadsBeside};
ghost use Rattle.image_jobs.specs.Images.{host_at};
ghost use Rattle.put_jobs.specs.Mirrors.{wants_folder};
ghost use Rattle.shell.specs.Tools.{PutsFrom, StreamEnds, is_stream};

use crate::get::is_stream;
use host_interface::{ImageFiles, Sources};
use image_jobs::Failure;
use put_jobs::{Order, put_input, put_into_image, wants_folder};
use std::alloc::Global;
use std::io::{Read, Write};

/// Puts all that stands at a name of the host into an image, or the input where that is `-`.
pub(crate) fn put_from<F: ImageFiles + Sources, R: Read, E: Write>(
    files: &mut F,
    alloc: Global,
    name: &str,
    order: Order<'_>,
    reader: &mut R,
    err: &mut E,
) -> Result<(), Failure>
    ensures { (out : Option (List ℕ)) → PutsFrom (is_stream order.entry.file.now) order.entry.mirror order.entry.skip_links order.entry.path.now name.now (ReadsClaimed F.claims F.reads name.now) (ReadsBeside F.claims F.reads_source name.now) (F.gathered files.old order.entry.file.now name.now) (host_at (F.held files.old) (R.remaining reader.old) out) result (host_at (F.held files.new) (R.remaining reader.new) out) }
{
    if is_stream(order.file) {
        put_stream(files, alloc, name, order, reader, err)
    } else {
        put_into_image(files, alloc, name, order, err)
    }
}

/// Puts the input into an image. Refused where a folder is wanted.
fn put_stream<F: ImageFiles, R: Read, E: Write>(
    files: &mut F,
    alloc: Global,
    name: &str,
    order: Order<'_>,
    reader: &mut R,
    err: &mut E,
) -> Result<(), Failure>
    ensures { (out : Option (List ℕ)) → StreamEnds (wants_folder order.entry.mirror order.entry.skip_links) order.entry.path.now name.now (ReadsClaimed F.claims F.reads name.now) (host_at (F.held files.old) (R.remaining reader.old) out) result (host_at (F.held files.new) (R.remaining reader.new) out) }
{
    if wants_folder(order) {
        Err(Failure::NoFolder)
    } else {
        put_input(files, alloc, name, order.path, reader, err)
    }
}
