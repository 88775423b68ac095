//! What is told of the events of a put, where they are refused.
ghost use Rattle.std.specs.Prelude.{IfSome};
ghost use Rattle.flash_simulation.specs.Simulation.{device_of};
ghost use Rattle.system.specs.Systems.{IsSystem};
ghost use Rattle.put_jobs.specs.Served.{place, FreesTold};

use crate::putting::Put;
use flash_model::{Flash, Geometry};
use fs_types::{Answer, Bytes, Call, Event, Fault, MAX_NAMES, NamedFile, Path, Reply, View};
use image_jobs::Failure;
use job_messages::{tell_refusal, tell_refused};
use put_lots::{Thing, events_of};
use script_runs::Refusal;
use std::alloc::{AllocError, Global};
use std::io::Write;
use undofs::serve;

/// Tells what is refused of the events that put a thing, on the flash that they left, which is given up then.
pub(crate) fn tell_stopped<E: Write>(refusal: Refusal, events: &[Event], put: &mut Put, err: &mut E)
    requires { IfSome put.old.system (IsSystem (device_of put.old.flash)) }
    ensures { IfSome put.new.system (IsSystem (device_of put.new.flash)) }
{
    match events {
        [Event::Call(Call::WriteFiles { directory, files })] => {
            tell_lot(refusal, directory, files.as_slice(), put, err);
        }
        _ => tell_event(put.alloc, refusal, events, put.flash.geometry(), err),
    }
}

/// Tells that the first of some events is refused, with its path where it makes a directory or writes a file.
fn tell_event<E: Write>(
    alloc: Global,
    refusal: Refusal,
    events: &[Event],
    sizes: Geometry,
    err: &mut E,
) {
    match events {
        [Event::Call(Call::Mkdir { path }), ..] => {
            tell_refused(alloc, refusal, path, 0, sizes, err);
        }
        [Event::Call(Call::WriteFile { path, bytes }), ..] => {
            let count = bytes.as_slice().len() as u64;
            tell_refused(alloc, refusal, path, count, sizes, err);
        }
        _ => tell_refusal(refusal, "", err),
    }
}

/// Tells which file of a lot is refused: the first that is refused so where they are put one after the other.
/// Where none is, the directory is told.
fn tell_lot<E: Write>(
    refusal: Refusal,
    directory: &Path,
    files: &[NamedFile],
    put: &mut Put,
    err: &mut E,
)
    requires { IfSome put.old.system (IsSystem (device_of put.old.flash)) }
    ensures { IfSome put.new.system (IsSystem (device_of put.new.flash)) }
{
    let sizes = put.flash.geometry();
    for file in files {
        if let Ok(Some(path)) = refused_alone(refusal, directory, file, put) {
            let count = file.bytes.as_slice().len() as u64;
            tell_refused(put.alloc, refusal, &path, count, sizes, err);
            return;
        }
    }
    tell_refused(put.alloc, refusal, directory, 0, sizes, err);
}

/// The path of a file of a directory, where it is refused so by itself.
fn refused_alone(
    refusal: Refusal,
    directory: &Path,
    file: &NamedFile,
    put: &mut Put,
) -> Result<Option<Path>, AllocError>
    requires { IfSome put.old.system (IsSystem (device_of put.old.flash)) }
    ensures { IfSome put.new.system (IsSystem (device_of put.new.flash)) }
{
    if directory.names().len() >= MAX_NAMES {
        return Ok(None);
    }
    let path = file.path_in(directory)?;
    let bytes = Bytes::from_slice(put.alloc, file.bytes.as_slice())?;
    let events = events_of(put.alloc, Thing::File(path.clone()?, bytes))?;
    match put.ask_all(&events) {
        Err(found) if found == refusal => Ok(Some(path)),
        _ => Ok(None),
    }
}

/// Tells which event is refused of those that remove something at the beginning of a change group: the first
/// of which what it removes still stands. Answers whether one does.
pub(crate) fn tell_unremoved<E: Write>(
    refusal: Refusal,
    removed: &[Event],
    put: &mut Put,
    err: &mut E,
) -> bool
    requires { IfSome put.old.system (IsSystem (device_of put.old.flash)) }
    ensures { IfSome put.new.system (IsSystem (device_of put.new.flash)) }
{
    let sizes = put.flash.geometry();
    for event in removed {
        if let Some(path) = path_left(event, put) {
            tell_refused(put.alloc, refusal, path, 0, sizes, err);
            return true;
        }
    }
    false
}

/// The path of an event that removes something, where that still stands.
fn path_left<'a>(event: &'a Event, put: &mut Put) -> Option<&'a Path>
    requires { IfSome put.old.system (IsSystem (device_of put.old.flash)) }
    ensures { IfSome put.new.system (IsSystem (device_of put.new.flash)) }
{
    let path = removed_path(event)?;
    let call = Call::Stat {
        view: View::Present,
        path: path.clone().ok()?,
    };
    match serve(
        put.alloc,
        &mut put.flash,
        &mut put.system,
        &Event::Call(call),
    ) {
        Answer::Refused(Fault::NoEntry) | Answer::Refused(Fault::NotDirectory) => None,
        _ => Some(path),
    }
}

/// The path that an event removes, if it removes one.
fn removed_path(event: &Event) -> Option<&Path> {
    match event {
        Event::Call(Call::Unlink { path }) | Event::Call(Call::Rmdir { path }) => Some(path),
        _ => None,
    }
}

/// Tells how many blocks are free without what is put, and how many that wants, where the flash is full and that
/// is known. The change group that is open is given up then.
pub(crate) fn tell_room<E: Write>(failure: Failure, wanted: Option<u64>, put: &mut Put, err: &mut E)
    requires { IfSome put.old.system (IsSystem (device_of put.old.flash)) }
    ensures { IfSome put.new.system (IsSystem (device_of put.new.flash)) }
{
    let Some(wanted) = wanted else {
        return;
    };
    if failure != Failure::Refused(Refusal::Fault(Fault::FlashFull)) {
        return;
    }
    if let Some(free) = free_without_group(put) {
        let _ = writeln!(
            err,
            "uffs: {free} blocks are free, and the put wants {wanted}"
        );
    }
}

/// How many blocks are free once the change group that is open is given up, where that is told.
fn free_without_group(put: &mut Put) -> Option<u64>
    requires { IfSome put.old.system (IsSystem (device_of put.old.flash)) }
    ensures mounted { IfSome put.new.system (IsSystem (device_of put.new.flash)) }
    ensures told { IfSome result (FreesTold (place put.old) (place put.new)) }
{
    let give_up = Event::Call(Call::Abandon);
    let count = Event::Call(Call::Df);
    let _left = serve(put.alloc, &mut put.flash, &mut put.system, &give_up);
    match serve(put.alloc, &mut put.flash, &mut put.system, &count) {
        Answer::Done(Reply::Df { free, .. }) => Some(free),
        _ => None,
    }
}
