//! What is put at a path of an image.
ghost use Rattle.std.specs.Prelude.{IfOk, IfErr};
ghost use Rattle.put_jobs.specs.Puts.{IsThing, IsUnput};
ghost use Rattle.host_interface.specs.Files.{readings_of};
ghost use Rattle.host_interface.specs.Sources.{source_found};

use crate::place::place_of;
use fs_types::{Bytes, Path};
use host_interface::{FileFault, ImageFiles, Source, SourceKind};
use image_jobs::{Failure, SourceFault};
use put_lots::Thing;
use std::alloc::Global;

/// What a source is put as, below a path.
pub(crate) fn thing_of<F: ImageFiles>(
    files: &F,
    alloc: Global,
    base: &Path,
    source: &Source,
) -> Result<Thing, Failure>
    ensures ok { IfOk result (IsThing (readings_of (F.held files.now) (F.reads_source files.now)) base.now (source_found source.now)) }
    ensures err { IfErr result (IsUnput (F.held files.now) base.now (source_found source.now)) }
{
    let path = match place_of(alloc, base, source) {
        Ok(path) => path,
        Err(failure) => return Err(failure),
    };
    match source.kind {
        SourceKind::Folder => Ok(Thing::Directory(path)),
        _ => match files.read_source(alloc, &source.name) {
            Ok(bytes) => Ok(Thing::File(path, Bytes::from_vec(bytes))),
            Err(FileFault::Memory) => Err(Failure::Memory),
            Err(_) => Err(Failure::Source(SourceFault::Unreadable)),
        },
    }
}
