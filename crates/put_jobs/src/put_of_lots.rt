//! Lots of things that are known, put into an image.
ghost use Rattle.std.specs.Prelude.{◌≡◌, [], OnOk, refl, length, reverse};
ghost use Rattle.std.specs.List.{flat_map};
ghost use Rattle.host_interface.specs.Files.{KeepsOthers, KeepsOrSyncs, ReadsClaimed};
ghost use Rattle.put_lots.specs.Things.{thing_events};
ghost use Rattle.put_jobs.specs.Gives.{GivesKnown};
ghost use Rattle.put_jobs.specs.Groups.{EventsEnd};

use crate::putting::put_into;
use crate::things::{Things, next_events};
use fs_types::Event;
use host_interface::ImageFiles;
use image_jobs::Failure;
use put_lots::Thing;
use std::alloc::Global;
use std::io::Write;

/// Puts lots into an image, which is claimed first, as one version. The image is written back where all of
/// them were put.
pub fn put_lots<F: ImageFiles, E: Write>(
    files: &mut F,
    alloc: Global,
    name: &str,
    lots: Vec<Thing>,
    err: &mut E,
) -> Result<(), Failure>
    ensures ends { EventsEnd name.now (ReadsClaimed F.claims F.reads name.now) (flat_map thing_events lots.items) (F.held files.old) (F.held files.new) result }
    ensures synced { OnOk result (KeepsOrSyncs (F.held files.old) (F.held files.new) (F.synced files.new name.now)) }
    ensures others { KeepsOthers name.now (F.held files.old) (F.held files.new) }
{
    let mut lots = Lots::of(lots);
    put_into(files, alloc, name, &mut lots, err)
}

/// Lots that are put.
#[derive(Drop)]
pub(crate) struct Lots {
    /// The last of them is put first.
    left: Vec<Thing>,
}

impl Lots {
    /// All of these, in order.
    fn of(lots: Vec<Thing>) -> Lots
        ensures { reverse result.left.items ≡ lots.items }
    {
        let mut left = lots;
        left.reverse();
        Lots { left }
    }
}

impl<F: ImageFiles> Things<F> for Lots {
    ghost removes = { λ _ _ removed. removed ≡ [] };

    ghost unlisted = { λ _ _ _. ⊥ };

    ghost gives = { λ _ s. GivesKnown (flat_map thing_events (reverse s.left.items)) };

    ghost calls = { λ s. length s.left.items };

    fn removed(&self, alloc: Global, _image: &[u8]) -> Result<Vec<Event>, Failure> {
        Ok(Vec::new(alloc))
    }

    fn next<E: Write>(
        &mut self,
        _files: &F,
        alloc: Global,
        _err: &mut E,
    ) -> Result<Option<Vec<Event>>, Failure> {
        next_events(alloc, self.left.pop())
    }

    ghost none_given = { λ _ s. (flat_map thing_events (reverse s.left.items), refl) };
}
