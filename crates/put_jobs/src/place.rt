//! Where what stands at a name of the host is put in an image.
ghost use Rattle.std.specs.Prelude.{◌≡◌, true, ◌++◌, ◌+◌, ◌≤◌, IfOk, OnOk, IfErr, None, length};
ghost use Rattle.fs_types.specs.Names.{is_path};
ghost use Rattle.host_interface.specs.Sources.{source_found};
ghost use Rattle.put_jobs.specs.Places.{put_place, kind_fault, source_fault, Unplaced, unparsed};

use fs_types::{Fault, MAX_FILE_BYTES, MAX_NAMES, Name, Path};
use host_interface::{Source, SourceKind};
use image_jobs::{Failure, SourceFault};
use std::alloc::{AllocError, Global};

/// Where a source is put, if it is put below a path.
pub(crate) fn place_of(alloc: Global, base: &Path, source: &Source) -> Result<Path, Failure>
    ensures ok { IfOk result (λ path. path ≡ put_place base.now (source_found source.now)) }
    ensures lawful { OnOk result (source_fault base.now (source_found source.now) ≡ None) }
    ensures err { IfErr result (Unplaced base.now (source_found source.now)) }
{
    if let Some(fault) = kind_fault(source.kind) {
        return Err(Failure::Source(fault));
    }
    let way = match Path::parse(alloc, source.way.as_bytes()) {
        Ok(way) => way,
        Err(fault) => return Err(unparsed(fault)),
    };
    if base.names().len() + way.names().len() > MAX_NAMES {
        return Err(Failure::Source(SourceFault::TooLong));
    }
    match join(alloc, base, &way) {
        Ok(path) => Ok(path),
        Err(_) => Err(Failure::Memory),
    }
}

/// Why what stands at a name is not put.
fn kind_fault(kind: SourceKind) -> Option<SourceFault>
    ensures { result ≡ kind_fault kind }
{
    match kind {
        SourceKind::Folder => None,
        SourceKind::File(length) if length > u64::from(MAX_FILE_BYTES) => Some(SourceFault::TooBig),
        SourceKind::File(_) => None,
        SourceKind::Crowded => Some(SourceFault::Crowded),
        SourceKind::Link => Some(SourceFault::Link),
        SourceKind::Special => Some(SourceFault::Special),
        SourceKind::Image => Some(SourceFault::Image),
        SourceKind::Unreadable => Some(SourceFault::Unreadable),
    }
}

/// By why a name is not spelled as a path is.
fn unparsed(fault: Fault) -> Failure
    ensures { result ≡ unparsed fault }
{
    match fault {
        Fault::NoMemory => Failure::Memory,
        Fault::NameTooLong => Failure::Source(SourceFault::TooLong),
        _ => Failure::Source(SourceFault::BadName),
    }
}

/// The path of the names of two paths.
fn join(alloc: Global, first: &Path, second: &Path) -> Result<Path, AllocError>
    requires { length first.now + length second.now ≤ MAX_NAMES }
    ensures { IfOk result (λ path. path ≡ first.now ++ second.now) }
{
    let mut names = Vec::new(alloc);
    append_names(&mut names, first.names())?;
    append_names(&mut names, second.names())?;
    Ok(Path::from_names(names))
}

fn append_names(names: &mut Vec<Name>, more: &[Name]) -> Result<(), AllocError>
    ensures { OnOk result (names.new.items ≡ names.old.items ++ more.now) }
{
    for name in more {
        names.push(name.clone()?)?;
    }
    Ok(())
}
