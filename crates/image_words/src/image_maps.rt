//! What is told of the blocks of an image.
ghost use Rattle.std.specs.Prelude.{◌≡◌, IfOk, IfErr, OnOk};
ghost use Rattle.host_interface.specs.Files.{KeepsOthers};
ghost use Rattle.image_words.specs.Maps.{AreKindsOf, IsMapPage, IsMapText, MapEnds, MapPageEnds, UnmappedCause, of_map};

use block_usage::{BlockKind, MapFault, map_blocks, map_page, map_text};
use host_interface::ImageFiles;
use image_jobs::{Failure, load, save_bytes, spare};
use script::write_out;
use script_runs::Refusal;
use std::alloc::Global;
use std::io::Write;

/// Writes the map of an image: a sign for each block of its flash, what the signs mean, and sums.
pub fn tell_map<F: ImageFiles, W: Write>(
    files: &F,
    alloc: Global,
    name: &str,
    out: &mut W,
) -> Result<(), Failure>
    ensures { MapEnds (F.held files.now name.now) result (W.contents out.old) (W.contents out.new) }
{
    let text = match text_of_image(files, alloc, name) {
        Ok(text) => text,
        Err(failure) => return Err(failure),
    };
    match write_out(out, text.as_slice()) {
        Ok(()) => Ok(()),
        Err(_) => Err(Failure::Output),
    }
}

/// Puts the map of an image, as a page of HTML, into a file of the host, which is claimed then. Refused at
/// once where that takes the image away.
pub fn save_map_page<F: ImageFiles>(
    files: &mut F,
    alloc: Global,
    name: &str,
    file: &str,
) -> Result<(), Failure>
    ensures ends { MapPageEnds name.now file.now (F.held files.old) (F.held files.new) result }
    ensures synced { OnOk result (F.synced files.new file.now) }
    ensures others { KeepsOthers file.now (F.held files.old) (F.held files.new) }
{
    match spare(files, alloc, file, name) {
        Ok(()) => {}
        Err(failure) => return Err(failure),
    }
    match page_of_image(files, alloc, name) {
        Ok(page) => save_bytes(files, alloc, file, page.as_slice()),
        Err(failure) => Err(failure),
    }
}

/// The map of an image as text.
fn text_of_image<F: ImageFiles>(files: &F, alloc: Global, name: &str) -> Result<Vec<u8>, Failure>
    ensures ok { IfOk result (λ text. IsMapText (F.held files.now name.now) text.items) }
    ensures err { IfErr result (UnmappedCause (F.held files.now name.now)) }
{
    let kinds = match kinds_of_image(files, alloc, name) {
        Ok(kinds) => kinds,
        Err(failure) => return Err(failure),
    };
    match map_text(alloc, kinds.as_slice()) {
        Ok(text) => Ok(text),
        Err(_) => Err(Failure::Memory),
    }
}

/// The map of an image as a page.
fn page_of_image<F: ImageFiles>(files: &F, alloc: Global, name: &str) -> Result<Vec<u8>, Failure>
    ensures ok { IfOk result (λ page. IsMapPage (F.held files.now name.now) page.items) }
    ensures err { IfErr result (UnmappedCause (F.held files.now name.now)) }
{
    let kinds = match kinds_of_image(files, alloc, name) {
        Ok(kinds) => kinds,
        Err(failure) => return Err(failure),
    };
    match map_page(alloc, kinds.as_slice()) {
        Ok(page) => Ok(page),
        Err(_) => Err(Failure::Memory),
    }
}

/// What each block of an image is.
fn kinds_of_image<F: ImageFiles>(
    files: &F,
    alloc: Global,
    name: &str,
) -> Result<Vec<BlockKind>, Failure>
    ensures ok { IfOk result (λ kinds. AreKindsOf (F.held files.now name.now) kinds.items) }
    ensures err { IfErr result (UnmappedCause (F.held files.now name.now)) }
{
    let mut flash = match load(files, alloc, name) {
        Ok(flash) => flash,
        Err(failure) => return Err(failure),
    };
    match map_blocks(alloc, &mut flash) {
        Ok(kinds) => Ok(kinds),
        Err(fault) => Err(of_map(fault)),
    }
}

/// By why there is no map.
fn of_map(fault: MapFault) -> Failure
    ensures { result ≡ of_map fault }
{
    match fault {
        MapFault::Unmounted(fault) => Failure::of_system(fault),
        MapFault::Refused(fault) => Failure::of_refusal(Refusal::Fault(fault)),
    }
}
