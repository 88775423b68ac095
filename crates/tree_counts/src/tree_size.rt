//! How much stands in a tree.
ghost use Rattle.std.specs.Prelude.{◌≡◌, ℕ, ◌+◌};
ghost use Rattle.tree_counts.specs.Sizes.{in_word, sized, place_length};

use node_format::Place;

/// How many directories and files stand in a tree below its root, and how many bytes these files have;
/// none where that is past the greatest `u64`.
#[derive(Clone, Copy, Debug, PartialEq, Eq)]
pub struct TreeSize {
    pub entries: Option<u64>,
    pub bytes: Option<u64>,
}

impl TreeSize {
    /// Nothing.
    pub(crate) fn nothing() -> TreeSize
        ensures { result ≡ sized 0 0 }
    {
        TreeSize {
            entries: Some(0),
            bytes: Some(0),
        }
    }

    /// An entry alone, without what stands below it.
    pub(crate) fn of_place(place: Place) -> TreeSize
        ensures { result ≡ sized 1 (place_length place) }
    {
        TreeSize {
            entries: Some(1),
            bytes: Some(length_of(place)),
        }
    }

    /// Both.
    pub(crate) fn plus(self, more: TreeSize) -> TreeSize
        ensures { (m n p q : ℕ) → self ≡ sized m n → more ≡ sized p q → result ≡ sized (m + p) (n + q) }
    {
        TreeSize {
            entries: add(self.entries, more.entries),
            bytes: add(self.bytes, more.bytes),
        }
    }
}

/// The length of a file; none for a directory.
fn length_of(place: Place) -> u64
    ensures { result ≡ place_length place }
{
    match place {
        Place::Dir { block: _ } => 0,
        Place::File { head: _, length } => u64::from(length),
    }
}

/// The sum of two numbers, none where it is past the greatest.
fn add(first: Option<u64>, second: Option<u64>) -> Option<u64>
    ensures { (m n : ℕ) → first ≡ in_word m → second ≡ in_word n → result ≡ in_word (m + n) }
{
    match (first, second) {
        (Some(a), Some(b)) => a.checked_add(b),
        _ => None,
    }
}
