//! The record of greatest sequence.
ghost use Rattle.std.specs.Prelude.{◌≡◌, false, None};
ghost use Rattle.anchors.specs.Parts as spec;

use record_format::PageHead;

/// A place where a valid record begins, and its first header.
#[derive(Clone, Copy)]
pub(crate) struct Found {
    pub(crate) page: u32,
    pub(crate) head: PageHead,
}

/// The record of greatest sequence among some, and whether another has that sequence too.
#[derive(Clone, Copy)]
pub(crate) struct Best {
    pub(crate) found: Option<Found>,
    pub(crate) twice: bool,
}

impl Best {
    /// Of the record that begins at a page, if one does, and the others.
    pub(crate) fn considered(self, page: u32, head: Option<PageHead>) -> Best
        ensures { result ≡ spec.considered self page head }
    {
        match head {
            Some(head) => self.considered_with(Found { page, head }),
            None => self,
        }
    }

    /// The greatest sequence, 0 where there is no record.
    pub(crate) fn sequence(self) -> u64
        ensures { result ≡ spec.sequence_of self.found }
    {
        self.found.map_or(0, |found| found.head.sequence)
    }

    fn considered_with(self, new: Found) -> Best
        ensures { result ≡ spec.considered_with self self.found new.page new.head }
    {
        let Some(old) = self.found else {
            return Best {
                found: Some(new),
                twice: false,
            };
        };
        if old.head.sequence < new.head.sequence {
            return Best {
                found: Some(new),
                twice: false,
            };
        }
        if old.head.sequence == new.head.sequence {
            return Best {
                found: Some(old),
                twice: true,
            };
        }
        self
    }
}
