//! The open files, by their numbers.
ghost use Rattle.std.specs.Prelude.{◌≡◌, ℕ, ◌<◌, Bool, List, [], ◌∷◌, ◌++◌, Some, None, is_none, false, slice_set};
ghost use Rattle.std.specs.Option.{option_copied, option_map, option_map_or};
ghost use Rattle.fs_types.specs.Names.{same_path};
ghost use Rattle.plain_trees.specs.Contents.{begins};
ghost use Rattle.history_machine.specs.Descriptors as descriptors;

use fs_types::{MAX_OPEN_FILES, Name, OpenFlags, Path};
use plain_trees::{is_beginning, is_path_in};
use std::marker::Model;

/// An open file: its path, and how it was opened.
#[derive(Drop)]
pub struct OpenFile {
    path: Path,
    flags: OpenFlags,
}

impl Model for OpenFile {
    ghost use Rattle.history_machine.specs.Descriptors.{Descriptor};
    ghost use Rattle.machine_state.specs.FileCodes.{descriptor_code};

    ghost Value = { Descriptor };

    ghost coded = { descriptor_code };

    ghost view = { λ d. record { path = d.path; flags = d.flags } };
}

impl OpenFile {
    pub fn new(path: Path, flags: OpenFlags) -> Self
        ensures { result ≡ record { path = path; flags = flags } }
    {
        OpenFile { path, flags }
    }

    pub fn path(&self) -> &Path
        ensures { result.now ≡ self.now.path }
    {
        &self.path
    }

    pub fn flags(&self) -> OpenFlags
        ensures { result ≡ self.now.flags }
    {
        self.flags
    }
}

/// Places, numbered from 0; each is free or has an open file.
#[derive(Drop)]
pub struct OpenFiles {
    places: [Option<OpenFile>; MAX_OPEN_FILES],
}

impl Model for OpenFiles {
    ghost use Rattle.history_machine.specs.Descriptors.{Descriptors};
    ghost use Rattle.machine_state.specs.FileCodes.{descriptors_code};

    ghost Value = { Descriptors };

    ghost coded = { descriptors_code };

    ghost view = { λ f. f.places };
}

impl OpenFiles {
    /// No file is open.
    pub fn new() -> Self
        ensures { result ≡ descriptors.none_open }
    {
        OpenFiles {
            places: [
                None, None, None, None, None, None, None, None, None, None, None, None, None, None,
                None, None,
            ],
        }
    }

    /// The open file of a descriptor.
    pub fn get(&self, descriptor: u64) -> Option<&OpenFile>
        ensures { option_copied result ≡ descriptors.descriptor_at self.now descriptor }
    {
        file_at(&self.places, descriptor as usize)
    }

    /// The least free descriptor.
    pub fn least_free(&self) -> Option<u8>
        ensures { result ≡ descriptors.least_free self.now }
    {
        match first_free(&self.places) {
            Some(place) => Some(place as u8),
            None => None,
        }
    }

    /// The file is open under a descriptor.
    pub fn open(&mut self, descriptor: u8, file: OpenFile)
        ensures { self.new ≡ descriptors.opened self.old descriptor file }
    {
        set_place(&mut self.places, descriptor as usize, Some(file));
    }

    /// The descriptor is free.
    pub fn close(&mut self, descriptor: u64)
        ensures { self.new ≡ descriptors.closed self.old descriptor }
    {
        set_place(&mut self.places, descriptor as usize, None);
    }

    /// Whether any file is open.
    pub fn any_open(&self) -> bool
        ensures { result ≡ descriptors.any_open self.now }
    {
        any_taken(&self.places)
    }

    /// Whether the file at a path is open.
    pub fn is_open(&self, path: &Path) -> bool
        ensures { result ≡ descriptors.is_open self.now path.now }
    {
        any_at(&self.places, path)
    }

    /// Whether the file of a name in a directory is open.
    pub fn is_open_in(&self, directory: &Path, name: &Name) -> bool
        ensures { result ≡ descriptors.is_open self.now (directory.now ++ name.now ∷ []) }
    {
        any_in(&self.places, directory, name)
    }

    /// Whether a file at a path or below it is open.
    pub fn is_open_within(&self, path: &Path) -> bool
        ensures { result ≡ descriptors.is_open_within self.now path.now }
    {
        any_within(&self.places, path)
    }
}

fn file_at(places: &[Option<OpenFile>], descriptor: usize) -> Option<&OpenFile>
    ensures { option_copied result ≡ descriptors.descriptor_at places.now descriptor }
{
    match places.get(descriptor) {
        Some(place) => place.as_ref(),
        None => None,
    }
}

fn first_free(places: &[Option<OpenFile>]) -> Option<usize>
    ensures { result ≡ descriptors.least_free places.now }
{
    places.iter().position(|place| place.is_none())
}

fn set_place(places: &mut [Option<OpenFile>], descriptor: usize, file: Option<OpenFile>)
    ensures { places.new ≡ slice_set places.old descriptor file }
{
    if descriptor < places.len() {
        places[descriptor] = file;
    }
}

fn any_taken(places: &[Option<OpenFile>]) -> bool
    ensures { result ≡ descriptors.any_open places.now }
{
    places.iter().any(|place| place.is_some())
}

fn any_at(places: &[Option<OpenFile>], path: &Path) -> bool
    ensures { result ≡ descriptors.is_open places.now path.now }
{
    places.iter().any(|place| is_at(place, path))
}

fn is_at(place: &Option<OpenFile>, path: &Path) -> bool
    ensures { result ≡ option_map_or (λ d. same_path path.now d.path) place.now false }
{
    match place {
        Some(file) => path == file.path(),
        None => false,
    }
}

fn any_in(places: &[Option<OpenFile>], directory: &Path, name: &Name) -> bool
    ensures { result ≡ descriptors.is_open places.now (directory.now ++ name.now ∷ []) }
{
    places.iter().any(|place| is_in(place, directory, name))
}

fn is_in(place: &Option<OpenFile>, directory: &Path, name: &Name) -> bool
    ensures { result ≡ option_map_or (λ d. same_path (directory.now ++ name.now ∷ []) d.path) place.now false }
{
    match place {
        Some(file) => is_path_in(directory.names(), name, file.path().names()),
        None => false,
    }
}

fn any_within(places: &[Option<OpenFile>], path: &Path) -> bool
    ensures { result ≡ descriptors.is_open_within places.now path.now }
{
    places.iter().any(|place| is_within(place, path))
}

fn is_within(place: &Option<OpenFile>, path: &Path) -> bool
    ensures { result ≡ option_map_or (λ d. begins path.now d.path) place.now false }
{
    match place {
        Some(file) => is_beginning(path.names(), file.path().names()),
        None => false,
    }
}
