//! What is known of the bodies of open files, so that no read by a descriptor looks its path up again.
ghost use Rattle.std.specs.Prelude.{◌≡◌, slice_set};
ghost use Rattle.working_state.specs.OpenBodies as spec;

use fs_types::MAX_OPEN_FILES;
use tree_edits::{Body, KnownNode};

/// The body of an open file, and the node of it that was found last, where one was.
#[derive(Clone, Copy, Debug)]
pub struct KnownBody {
    pub body: Body,
    pub node: Option<KnownNode>,
}

/// What is known of the bodies of open files, by their descriptors.
#[derive(Drop)]
pub struct KnownBodies {
    places: [Option<KnownBody>; MAX_OPEN_FILES],
}

impl KnownBodies {
    /// Nothing is known.
    pub fn new() -> Self
        ensures { result ≡ spec.nothing_known }
    {
        KnownBodies {
            places: [None; MAX_OPEN_FILES],
        }
    }

    /// What is known of the body of a descriptor's file.
    pub(crate) fn get(&self, descriptor: u64) -> Option<KnownBody>
        ensures { result ≡ spec.known_at self.now descriptor }
    {
        body_at(&self.places, descriptor as usize)
    }

    /// This is known of the body of a descriptor's file.
    pub(crate) fn remember(&mut self, descriptor: u64, known: KnownBody)
        ensures { self.new ≡ spec.with_known self.old descriptor known }
    {
        set_place(&mut self.places, descriptor as usize, Some(known));
    }

    /// Nothing is known of the body of a descriptor's file.
    pub(crate) fn forget(&mut self, descriptor: u64)
        ensures { self.new ≡ spec.without self.old descriptor }
    {
        set_place(&mut self.places, descriptor as usize, None);
    }
}

fn body_at(places: &[Option<KnownBody>], descriptor: usize) -> Option<KnownBody>
    ensures { result ≡ spec.body_at places.now descriptor }
{
    match places.get(descriptor) {
        Some(place) => *place,
        None => None,
    }
}

fn set_place(places: &mut [Option<KnownBody>], descriptor: usize, known: Option<KnownBody>)
    ensures { places.new ≡ slice_set places.old descriptor known }
{
    if descriptor < places.len() {
        places[descriptor] = known;
    }
}
