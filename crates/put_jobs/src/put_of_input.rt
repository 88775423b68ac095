//! The input is put into an image, as a file.
ghost use Rattle.std.specs.Prelude.{◌≡◌, ◌≤◌, ℕ, Option, Some, List, [], vec_len, length, refl, IfOk, IfErr, OnOk};
ghost use Rattle.host_interface.specs.Files.{KeepsOthers, KeepsOrSyncs, ReadsClaimed};
ghost use Rattle.image_jobs.specs.Images.{host_at};
ghost use Rattle.put_jobs.specs.Gives.{GivesKnown};
ghost use Rattle.put_jobs.specs.Inputs.{writes_left, InputEnds, IsWholeInput, IsUnreadInput};
ghost use Rattle.fs_types.specs.declared.limits.TheConstants.{MAX_FILE_BYTES};

use crate::input::read_input;
use crate::put::told_path;
use crate::putting::put_into;
use crate::things::{Things, next_events};
use flash_model::Geometry;
use fs_types::{Bytes, Event, MAX_FILE_BYTES, Path};
use host_interface::ImageFiles;
use image_jobs::Failure;
use job_messages::{tell_fault, tell_refused};
use put_lots::Thing;
use script_runs::Refusal;
use std::alloc::Global;
use std::io::{Read, Write};

/// The word that stands for the input where what is not put is told.
const INPUT: &str = "-";

/// Puts the bytes of the input into an image, which is claimed then, as the file at the path that a word
/// spells, as one version. The image is written back where that was done.
pub fn put_input<F: ImageFiles, R: Read, E: Write>(
    files: &mut F,
    alloc: Global,
    name: &str,
    word: &str,
    reader: &mut R,
    err: &mut E,
) -> Result<(), Failure>
    ensures ends { (out : Option (List ℕ)) → InputEnds name.now word.now (ReadsClaimed F.claims F.reads name.now) (host_at (F.held files.old) (R.remaining reader.old) out) result (host_at (F.held files.new) (R.remaining reader.new) out) }
    ensures synced { OnOk result (KeepsOrSyncs (F.held files.old) (F.held files.new) (F.synced files.new name.now)) }
    ensures others { KeepsOthers name.now (F.held files.old) (F.held files.new) }
{
    let base = match told_path(alloc, word, err) {
        Ok(base) => base,
        Err(failure) => return Err(failure),
    };
    match told_input(alloc, reader, err) {
        Ok(bytes) => {
            let mut file = InputFile::of(base, Bytes::from_vec(bytes));
            put_into(files, alloc, name, &mut file, err)
        }
        Err(failure) => Err(failure),
    }
}

/// All bytes of the input. One that is too long is told.
fn told_input<R: Read, E: Write>(
    alloc: Global,
    reader: &mut R,
    err: &mut E,
) -> Result<Vec<u8>, Failure>
    ensures ok { IfOk result (λ bytes. IsWholeInput (R.remaining reader.old) bytes.items (R.remaining reader.new)) }
    ensures short { IfOk result (λ bytes. vec_len bytes ≤ MAX_FILE_BYTES) }
    ensures err { IfErr result (IsUnreadInput MAX_FILE_BYTES (R.remaining reader.old) (R.remaining reader.new)) }
{
    match read_input(alloc, reader, MAX_FILE_BYTES as usize) {
        Ok(bytes) => Ok(bytes),
        Err(failure) => {
            tell_failed(failure, err);
            Err(failure)
        }
    }
}

/// Tells that the input has too many bytes.
fn tell_failed<E: Write>(failure: Failure, err: &mut E) {
    if let Failure::Source(fault) = failure {
        tell_fault(fault, INPUT, err);
    }
}

/// A file of the bytes of the input.
#[derive(Drop)]
pub(crate) struct InputFile {
    path: Path,
    /// Its bytes, until they are put.
    bytes: Option<Bytes>,
    /// How many these are.
    count: u64,
}

impl InputFile {
    /// A file of these bytes at a path.
    fn of(path: Path, bytes: Bytes) -> InputFile
        ensures path { result.path ≡ path }
        ensures bytes { result.bytes ≡ Some bytes }
    {
        let count = bytes.as_slice().len() as u64;
        InputFile {
            path,
            bytes: Some(bytes),
            count,
        }
    }
}

impl<F: ImageFiles> Things<F> for InputFile {
    ghost removes = { λ _ _ removed. removed ≡ [] };

    ghost unlisted = { λ _ _ _. ⊥ };

    ghost gives = { λ _ s. GivesKnown (writes_left s.path s.bytes) };

    ghost calls = { λ s. length (writes_left s.path s.bytes) };

    fn removed(&self, alloc: Global, _image: &[u8]) -> Result<Vec<Event>, Failure> {
        Ok(Vec::new(alloc))
    }

    fn next<E: Write>(
        &mut self,
        _files: &F,
        alloc: Global,
        _err: &mut E,
    ) -> Result<Option<Vec<Event>>, Failure> {
        let Some(bytes) = self.bytes.take() else {
            return Ok(None);
        };
        match self.path.clone() {
            Ok(path) => next_events(alloc, Some(Thing::File(path, bytes))),
            Err(_) => Err(Failure::Memory),
        }
    }

    fn tell_group<E: Write>(&self, alloc: Global, refusal: Refusal, sizes: Geometry, err: &mut E) {
        tell_refused(alloc, refusal, &self.path, self.count, sizes, err);
    }

    ghost none_given = { λ _ s. (writes_left s.path s.bytes, refl) };
}
